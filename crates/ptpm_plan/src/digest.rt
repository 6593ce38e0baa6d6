//! The id of a plan: eight hexadecimal digits of the SHA-256 of its changes.

ghost use Rattle.std.specs.Prelude.{◌≡◌, ◌++◌, IfOk, OnOk, decimal, flat_map, string_bytes};
ghost use Rattle.hex.specs.Hex.{encode_lower};
ghost use Rattle.ptpm_codec.specs.Identity.{clock_identity_text};
ghost use Rattle.ptpm_plan.specs.Digest.{change_text, changes_text, clock_text, digest_of, fields_text, member_text, next_text};

use crate::change::Change;
use ptpm_codec::ClockIdentity;
use sha2::{Digest, Sha256};
use std::alloc::{AllocError, Global};

/// The first four octets of the SHA-256 of the changes, which are written as a list of objects in JSON.
pub fn digest_of(alloc: Global, changes: &[Change]) -> Result<[u8; 4], AllocError>
    ensures { IfOk result (λ d. d ≡ digest_of changes.now) }
{
    let text = changes_text(alloc, changes)?;
    let [a, b, c, d, ..] = Sha256::digest(text.as_bytes());
    Ok([a, b, c, d])
}

/// The changes as a list in JSON.
fn changes_text(alloc: Global, changes: &[Change]) -> Result<String, AllocError>
    ensures { IfOk result (λ t. string_bytes t ≡ changes_text changes.now) }
{
    let mut text = String::from_str(alloc, "[")?;
    match changes {
        [] => {}
        [first, others @ ..] => {
            push_change(alloc, first, &mut text)?;
            push_others(alloc, others, &mut text)?;
        }
    }
    text.push_str("]")?;
    Ok(text)
}

/// Adds changes, each after a comma.
fn push_others(alloc: Global, changes: &[Change], text: &mut String) -> Result<(), AllocError>
    ensures { OnOk result (string_bytes text.new ≡ string_bytes text.old ++ flat_map next_text changes.now) }
{
    for change in changes {
        text.push_str(", ")?;
        push_change(alloc, change, text)?;
    }
    Ok(())
}

/// Adds a change as an object in JSON.
fn push_change(alloc: Global, change: &Change, text: &mut String) -> Result<(), AllocError>
    ensures { OnOk result (string_bytes text.new ≡ string_bytes text.old ++ change_text change.now) }
{
    text.push_str(change_text(alloc, change)?.as_str())
}

fn change_text(alloc: Global, change: &Change) -> Result<String, AllocError>
    ensures { IfOk result (λ t. string_bytes t ≡ change_text change.now) }
{
    let mut text = clock_text(alloc, change)?;
    text.push_str(member_text(alloc, change)?.as_str())?;
    text.push_str(fields_text(alloc, change)?.as_str())?;
    Ok(text)
}

#[tactic(auto, unfolding(crate::specs::Digest::clock_text))]
fn clock_text(alloc: Global, change: &Change) -> Result<String, AllocError>
    ensures { IfOk result (λ t. string_bytes t ≡ clock_text change.now) }
{
    let mut text = String::from_str(alloc, "{\"clock\": \"")?;
    push_clock(alloc, change.clock, &mut text)?;
    text.push_str("\", \"domain\": ")?;
    push_number(alloc, usize::from(change.domain), &mut text)?;
    Ok(text)
}

#[tactic(auto, unfolding(crate::specs::Digest::member_text))]
fn member_text(alloc: Global, change: &Change) -> Result<String, AllocError>
    ensures { IfOk result (λ t. string_bytes t ≡ member_text change.now) }
{
    let mut text = String::from_str(alloc, ", \"port\": ")?;
    push_number(alloc, usize::from(change.port), &mut text)?;
    text.push_str(", \"id\": ")?;
    push_number(alloc, usize::from(change.id.number()), &mut text)?;
    Ok(text)
}

#[tactic(auto, unfolding(crate::specs::Digest::fields_text))]
fn fields_text(alloc: Global, change: &Change) -> Result<String, AllocError>
    ensures { IfOk result (λ t. string_bytes t ≡ fields_text change.now) }
{
    let mut text = String::from_str(alloc, ", \"before\": \"")?;
    push_octets(alloc, change.before.as_slice(), &mut text)?;
    text.push_str("\", \"after\": \"")?;
    push_octets(alloc, change.after.as_slice(), &mut text)?;
    text.push_str("\"}")?;
    Ok(text)
}

pub(crate) fn push_clock(
    alloc: Global,
    clock: ClockIdentity,
    text: &mut String,
) -> Result<(), AllocError>
    ensures { OnOk result (string_bytes text.new ≡ string_bytes text.old ++ clock_identity_text clock.0) }
{
    let clock = format!(in alloc; "{clock}")?;
    text.push_str(clock.as_str())
}

pub(crate) fn push_number(alloc: Global, number: usize, text: &mut String) -> Result<(), AllocError>
    ensures { OnOk result (string_bytes text.new ≡ string_bytes text.old ++ decimal number) }
{
    let number = format!(in alloc; "{number}")?;
    text.push_str(number.as_str())
}

/// Adds octets in hexadecimal.
pub(crate) fn push_octets(alloc: Global, octets: &[u8], text: &mut String) -> Result<(), AllocError>
    ensures { OnOk result (string_bytes text.new ≡ string_bytes text.old ++ encode_lower octets.now) }
{
    let digits = hex::encode(alloc, octets)?;
    text.push_str(digits.as_str())
}
