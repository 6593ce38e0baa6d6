//! The answers that a survey keeps.

ghost use Rattle.std.specs.Prelude.{◌≡◌, ◌++◌, ◌∷◌, [], false, Ok, IfOk, OnErr, OnOk};
ghost use Rattle.ptpm_manager.specs.declared.receiving.Surveyed.{Surveyed};
ghost use Rattle.ptpm_manager.specs.Answers.{has_answered, kept_by, surveyed_by};
ghost use Rattle.ptpm_manager.specs.Report.{outcome_in};

use crate::receiving::Surveyed;
use crate::report::{Outcome, outcome_in};
use indexmap::IndexMap;
use ptpm_codec::{OutOfMemory, PortIdentity, View};
use std::alloc::Global;

/// How many answers a survey keeps at most (this project's profile).
pub const ANSWERS: usize = 16_384;

/// Keeps the answer that a message is, if it is the first of its port and there is room.
pub(crate) fn keep(
    alloc: Global,
    answers: &mut IndexMap<PortIdentity, Outcome>,
    message: &View<'_>,
) -> Result<Surveyed, OutOfMemory>
    ensures exact { IfOk result
        (λ surveyed.
        surveyed
        ≡ surveyed_by answers.old.entries
        (Ok (message.now.source, outcome_in message.now.body))) }
    ensures kept { OnOk result
        (answers.new.entries
        ≡ kept_by answers.old.entries (Ok (message.now.source, outcome_in message.now.body))) }
    ensures memory { OnErr result
        (surveyed_by answers.old.entries (Ok (message.now.source, outcome_in message.now.body))
        ≡ Surveyed.Taken) }
    ensures unchanged { OnErr result (answers.new.entries ≡ answers.old.entries) }
{
    let source = message.source();
    if has_answered(&source, answers) {
        return Ok(Surveyed::Again);
    }
    if answers.len() >= ANSWERS {
        return Ok(Surveyed::Full);
    }
    add(answers, source, outcome_in(alloc, message)?)?;
    Ok(Surveyed::Taken)
}

fn has_answered(source: &PortIdentity, answers: &IndexMap<PortIdentity, Outcome>) -> bool
    ensures { result ≡ has_answered source.now answers.now.entries }
{
    answers.contains_key(source)
}

/// Puts the first answer of a port after the others.
fn add(
    answers: &mut IndexMap<PortIdentity, Outcome>,
    source: PortIdentity,
    outcome: Outcome,
) -> Result<(), OutOfMemory>
    requires { has_answered source answers.old.entries ≡ false }
    ensures added { OnOk result
        (answers.new.entries ≡ answers.old.entries ++ (source, outcome) ∷ []) }
    ensures unchanged { OnErr result (answers.new.entries ≡ answers.old.entries) }
{
    match answers.insert(source, outcome) {
        Ok(_) => Ok(()),
        Err(_) => Err(OutOfMemory),
    }
}
