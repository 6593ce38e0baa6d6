//! What is added to a page in HTML.

use std::alloc::{AllocError, Global};

const TITLE: &str = "<title>";

const BODY: &str = "<body>\n";

const WITHOUT_SITE: &str =
    "<!DOCTYPE html>\n<html lang=\"en\">\n<head>\n<meta charset=\"utf-8\">\n<title>PTP site</title>\n</head>\n<body>\n</body>\n</html>\n";

/// A page with a notice above all else, also without a site. The title says it too, since a browser shows that of each page.
pub(crate) fn page_with(alloc: Global, page: &str, notice: &str) -> Result<String, AllocError> {
    let (head, title, body) = parts(page).or(parts(WITHOUT_SITE)).unwrap_or(("", "", ""));
    format!(in alloc;
        "{head}{TITLE}not known, {title}{BODY}<p class=\"sum critical\">{notice}</p>\n{body}"
    )
}

/// What is before the title, what is between it and the body, and what is in the body.
fn parts(page: &str) -> Option<(&str, &str, &str)> {
    let (head, rest) = page.split_once(TITLE)?;
    let (title, body) = rest.split_once(BODY)?;
    Some((head, title, body))
}
