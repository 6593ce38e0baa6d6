//! Of names that are there, the nearest to one that is not.

use std::alloc::{AllocError, Global};
use strsim::jaro_winkler;

/// The name that is most like another by the measure of Jaro and Winkler, or the first of several. The measure counts the
/// characters that both have at about the same place. It is higher if the first characters are the same, up to four. `None` if
/// there are no names.
pub(crate) fn nearest<'a>(
    alloc: Global,
    name: &str,
    names: &[&'a str],
) -> Result<Option<&'a str>, AllocError> {
    let mut best = None;
    let mut most = 0.0;
    for other in names {
        let likeness = jaro_winkler(alloc, name, *other)?;
        if best.is_none() || likeness > most {
            best = Some(*other);
            most = likeness;
        }
    }
    Ok(best)
}
