//! What lines show of a site, by `ptpm site`.

use crate::inventory::inventory_at;
use crate::settings::Judging;
use crate::status::{FAILED, REFUSED, status_of};
use ptpm_commands::{Fault, tell};
use ptpm_expected::expectations::Expectations;
use ptpm_expected::inventory::Inventory;
use ptpm_site_report::{Before, Form, Options, Told, Viewing, report};
use std::alloc::Global;
use std::io::Write;
use std::rt::Files;

/// A site that is shown: its text, and what is known of it.
#[derive(Drop)]
pub(crate) struct Judged {
    pub(crate) text: Vec<u8>,
    pub(crate) told: Told,
    pub(crate) status: u8,
}

/// Lines to be shown, in which form, and those of the look before.
#[derive(Clone, Copy)]
pub(crate) struct Shown<'a> {
    pub(crate) form: Form,
    pub(crate) lines: &'a str,
    pub(crate) before: Option<&'a str>,
    /// Whether it is asked what has changed.
    pub(crate) has_changes: bool,
}

/// What is shown of them. If nothing is, `err` has a line that says why, and the answer is the status.
pub(crate) fn judge<F: Files, E: Write>(
    alloc: Global,
    files: &F,
    judging: &Judging<'_>,
    shown: Shown<'_>,
    err: &mut E,
) -> Result<Judged, u8> {
    match judge_with(alloc, files, judging, shown, err) {
        Ok(Some(judged)) => Ok(judged),
        Ok(None) => Err(REFUSED),
        Err(fault) => {
            let _ = tell(&fault, err);
            Err(FAILED)
        }
    }
}

/// The same. `None` if the inventory is refused.
fn judge_with<F: Files, E: Write>(
    alloc: Global,
    files: &F,
    judging: &Judging<'_>,
    shown: Shown<'_>,
    err: &mut E,
) -> Result<Option<Judged>, Fault> {
    let mut inventory = None;
    if let Some(path) = judging.expect {
        inventory = inventory_at(alloc, files, path, err)?;
        if inventory.is_none() {
            return Ok(None);
        }
    }
    let mut before = None;
    if let Some(lines) = shown.before {
        before = Some(Before::read(alloc, lines.as_bytes())?);
    }
    let judged = judged_beside(alloc, judging, inventory.as_ref(), before.as_ref(), shown)?;
    Ok(Some(judged))
}

fn judged_beside(
    alloc: Global,
    judging: &Judging<'_>,
    inventory: Option<&Inventory>,
    before: Option<&Before>,
    shown: Shown<'_>,
) -> Result<Judged, Fault> {
    let ignored = if shown.has_changes {
        &judging.ignored
    } else {
        &judging.ignored_at_first
    };
    let viewing = Viewing {
        names: &judging.names,
        ignored,
        is_all: judging.is_all,
        before,
        tells_momentary: false,
    };
    let expectations = Expectations {
        profile: judging.profile,
        inventory,
    };
    let options = Options {
        form: shown.form,
        limits: judging.options.limits,
    };
    let mut text = Vec::new(alloc);
    let lines = shown.lines.as_bytes();
    let came = match report(alloc, options, &expectations, viewing, lines, &mut text) {
        Ok(came) => came,
        // It is written into memory.
        Err(Fault::WriteFault) => return Err(Fault::OutOfMemory),
        Err(fault) => return Err(fault),
    };
    let status = status_of(shown.form, &came);
    Ok(Judged {
        text,
        told: came.told,
        status,
    })
}
