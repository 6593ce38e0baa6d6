//! A finding as it is printed, and what of it is the same in a later look.

use ptpm_causes::Kind;
use ptpm_site::reading::domain::Domain;

/// A line of text, or an object of JSON.
#[derive(Drop)]
pub struct FoundLine {
    pub domain: Domain,
    pub kind: Kind,
    /// The domain, the clock and the name.
    pub key: String,
    /// The finding without the description of its clock, and without what follows from it in a text.
    pub words: String,
    /// All of it, without an end of the line.
    pub whole: String,
    /// Whether an object says from what it follows.
    pub follows: bool,
}
