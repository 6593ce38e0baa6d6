//! The findings of a site: their words and values, the lines that they take as text, and what follows from them.

pub(crate) mod followers;
pub(crate) mod found_line;
pub(crate) mod lines;
pub(crate) mod phrases;
pub(crate) mod remarks;
pub(crate) mod report;
pub(crate) mod table;
pub(crate) mod text;
pub(crate) mod values;
