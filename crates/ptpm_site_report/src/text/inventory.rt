//! `ptpm site --write-expect`: the inventory of a site as it is, a line each.

use crate::finding::phrases::Phrase;
use crate::reading::site_lines::read_shown;
use crate::reporting::Conclusion;
use ptpm_commands::Fault;
use ptpm_expected::inventory::{Entry, Inventory, MemberRule, Presence, Rule};
use ptpm_expected::writing::inventory_of;
use std::alloc::Global;
use std::fmt;
use std::io::{Read, Write};

/// Prints the inventory of the site of a reader's lines.
pub fn write_inventory<R: Read + Drop, O: Write>(
    alloc: Global,
    reader: R,
    out: &mut O,
) -> Result<Conclusion, Fault> {
    let shown = read_shown(alloc, reader)?.shown;
    let inventory = inventory_of(alloc, &shown.site)?;
    print_inventory(&inventory, out)?;
    Ok(if shown.site.is_empty() {
        Conclusion::NoClock
    } else {
        Conclusion::Sound
    })
}

fn print_inventory<O: Write>(inventory: &Inventory, out: &mut O) -> Result<(), Fault> {
    writeln!(out, "# ptpm site --write-expect")?;
    for entry in inventory.entries.as_slice() {
        writeln!(out, "{}", EntryText(entry))?;
    }
    Ok(())
}

/// An entry as a line of the file.
#[derive(Clone, Copy)]
struct EntryText<'a>(&'a Entry);

impl fmt::Display for EntryText<'_> {
    fn fmt<W: fmt::Write>(&self, f: &mut fmt::Formatter<W>) -> fmt::Result {
        write!(f, "{} ", self.0.domain)?;
        match &self.0.rule {
            Rule::Leaders(wanted) => {
                write!(f, "- grandmaster {}", Phrase::Choices(wanted.as_slice()))
            }
            Rule::Only => f.write_str("- only"),
            Rule::Clock(clock, presence) => write!(f, "{clock} {}", presence_name(*presence)),
            Rule::Member(clock, rule) => write!(f, "{clock} {}", RuleText(rule)),
            Rule::EachMember(rule) => write!(f, "* {}", RuleText(rule)),
        }
    }
}

fn presence_name(presence: Presence) -> &'static str {
    match presence {
        Presence::Wanted => "clock",
        Presence::Optional => "optional",
        Presence::Mute => "mute",
    }
}

/// A member, and what it may be.
#[derive(Clone, Copy)]
struct RuleText<'a>(&'a MemberRule);

impl fmt::Display for RuleText<'_> {
    fn fmt<W: fmt::Write>(&self, f: &mut fmt::Formatter<W>) -> fmt::Result {
        let name = Phrase::Member(self.0.port, self.0.member);
        let wanted = Phrase::Wanted(self.0.wanted.as_slice());
        write!(f, "{name} {wanted}")
    }
}
