//! `ptpm site` at the command line.

use ptpm_commands::Fault;
use ptpm_expected::expectations::Expectations;
use ptpm_expected::inventory::Inventory;
use ptpm_expected::profile::Profile;
use ptpm_monitor::inventory_at;
use ptpm_site_report::ignored::Ignored;
use ptpm_site_report::names::Names;
use ptpm_site_report::{Before, Form, Options, Viewing, report, write_inventory};
use std::alloc::Global;
use std::fs;
use std::io::{Read, Write};
use std::rt::Files;

/// What `site` is asked for.
#[derive(Drop)]
pub(crate) struct SiteWords<'a> {
    pub(crate) shown: Shown,
    pub(crate) names: Names,
    pub(crate) profile: Option<Profile>,
    /// The path of an inventory.
    pub(crate) expect: Option<&'a str>,
    /// The path of the lines of the poll before.
    pub(crate) before: Option<&'a str>,
    pub(crate) ignored: Ignored,
    /// Whether the text has all lines.
    pub(crate) is_all: bool,
}

/// How a site is shown.
#[derive(Clone, Copy)]
pub(crate) enum Shown {
    InForm(Options),
    /// As an inventory.
    Inventory,
}

/// What a site is judged by beside its own lines.
#[derive(Drop)]
struct Known {
    inventory: Option<Inventory>,
    before: Option<Before>,
}

/// Shows a site, and answers the exit status. If a file that the words name is refused that is 2, or 3 of a plugin, with a line on `err`.
pub(crate) fn show_site<F: Files, R: Read, O: Write, E: Write>(
    alloc: Global,
    files: &F,
    words: &SiteWords<'_>,
    reader: &mut R,
    out: &mut O,
    err: &mut E,
) -> Result<u8, Fault> {
    let mut known = Known {
        inventory: None,
        before: None,
    };
    if let Some(path) = words.expect {
        known.inventory = inventory_at(alloc, files, path, err)?;
        if known.inventory.is_none() {
            return end_refused(words.shown, "the inventory", out);
        }
    }
    if let Some(path) = words.before {
        known.before = poll_at(alloc, files, path, err)?;
        if known.before.is_none() {
            return end_refused(words.shown, "the poll before", out);
        }
    }
    show(alloc, words, &known, reader, out)
}

/// The poll whose lines are at a path. If there is none, `err` has a line that says why.
fn poll_at<F: Files, E: Write>(
    alloc: Global,
    files: &F,
    path: &str,
    err: &mut E,
) -> Result<Option<Before>, Fault> {
    let file = match fs::open(files, path) {
        Ok(file) => file,
        Err(error) => {
            let _ = writeln!(err, "{path}: {error}");
            return Ok(None);
        }
    };
    match Before::read(alloc, file) {
        Ok(before) => Ok(Some(before)),
        Err(Fault::OutOfMemory) => Err(Fault::OutOfMemory),
        Err(fault) => {
            let _ = writeln!(err, "{path}: {fault}");
            Ok(None)
        }
    }
}

/// Ends without a site, since a file was refused. A plugin says so in its line.
fn end_refused<O: Write>(shown: Shown, what: &str, out: &mut O) -> Result<u8, Fault> {
    match shown {
        Shown::InForm(
            Options {
                form: Form::Plugin,
                ..
            },
        ) => {
            writeln!(out, "PTP UNKNOWN - {what} was refused")?;
            Ok(3)
        }
        _ => Ok(2),
    }
}

fn show<R: Read, O: Write>(
    alloc: Global,
    words: &SiteWords<'_>,
    known: &Known,
    reader: &mut R,
    out: &mut O,
) -> Result<u8, Fault> {
    let expectations = Expectations {
        profile: words.profile,
        inventory: known.inventory.as_ref(),
    };
    let viewing = Viewing {
        names: &words.names,
        ignored: &words.ignored,
        is_all: words.is_all,
        before: known.before.as_ref(),
        tells_momentary: true,
    };
    let options = match words.shown {
        Shown::InForm(options) => options,
        Shown::Inventory => return Ok(write_inventory(alloc, reader, out)?.status()),
    };
    let came = report(alloc, options, &expectations, viewing, reader, out)?;
    Ok(match options.form {
        Form::Plugin => came.standing.status(),
        Form::OpenMetrics => came.conclusion.status_of_numbers(),
        _ => came.conclusion.status(),
    })
}
