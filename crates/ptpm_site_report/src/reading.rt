//! What is read of lines of datagrams, and what is said before one.

pub(crate) mod asked_domains;
pub(crate) mod before;
pub(crate) mod line_words;
pub(crate) mod site_lines;
pub(crate) mod span;
