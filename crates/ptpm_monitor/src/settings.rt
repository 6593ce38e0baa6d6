//! What an operator asks of the looks at a site.

use ptpm_expected::profile::Profile;
use ptpm_site_report::Options;
use ptpm_site_report::ignored::Ignored;
use ptpm_site_report::names::Names;

/// How the looks at a site are made, judged and printed.
#[derive(Drop)]
pub struct Settings<'a> {
    pub judging: Judging<'a>,
    pub times: Times,
    /// How many boundary clocks pass on what is asked, at first.
    pub hops: u8,
    /// No more are asked for, even if a clock may be after the last one.
    pub is_as_far_as_named: bool,
    /// What may pass is not looked at a second time.
    pub is_once: bool,
    /// The lines of findings have colours.
    pub is_coloured: bool,
    /// What is printed takes the place of what was printed before.
    pub replaces: bool,
}

/// How a look is judged and shown.
#[derive(Drop)]
pub struct Judging<'a> {
    pub options: Options,
    pub names: Names,
    pub profile: Option<Profile>,
    /// The path of an inventory, which is read at each look.
    pub expect: Option<&'a str>,
    /// The findings that are left out in a watch, and those that are before it begins: then nobody asks what has changed.
    pub ignored: Ignored,
    pub ignored_at_first: Ignored,
    /// Whether the text has all lines.
    pub is_all: bool,
}

/// In milliseconds.
#[derive(Clone, Copy)]
pub struct Times {
    /// Between two looks of a watch. Without it the first one is all.
    pub watch: Option<u64>,
    /// Looks are made for as long, and what they find is of them all.
    pub duration: u64,
    /// A clock that is gone is forgotten after it.
    pub forget: u64,
}
