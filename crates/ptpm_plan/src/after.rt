//! The dataField that a SET is to have.

ghost use Rattle.std.specs.Prelude.{◌≡◌, IfOk};
ghost use Rattle.ptpm_members.specs.Parsed.{octets_or};
ghost use Rattle.ptpm_plan.specs.After.{after, flag_of, offset_of, typed_or, utc_after, utc_parsed};

use crate::change::PlannedId;
use crate::octets::{octet, pair_at};
use crate::text::Text;
use crate::wish::{UtcWish, Wished};
use ptpm_data::Value;
use ptpm_members::{ParseFault, parse};
use std::alloc::{AllocError, Global};

/// managementId of UTC_PROPERTIES.
const UTC_PROPERTIES: u16 = 0x2011;

/// The bits of the flags of UTC_PROPERTIES (15.5.3.6.2).
const LEAP61: u8 = 1;

const LEAP59: u8 = 2;

const VALID: u8 = 4;

/// The dataField that is wished, of an id whose dataField is this before. Members that are left out stay.
pub fn after(
    alloc: Global,
    id: PlannedId,
    wished: &Wished,
    before: &[u8],
) -> Result<Result<Value, ParseFault>, AllocError>
    ensures { IfOk result (λ r. octets_or r ≡ after id wished.now before.now) }
{
    match wished {
        Wished::Alone(text) => Ok(parse(id.number(), &[text.as_str()])),
        Wished::UtcProperties(utc) => utc_after(alloc, utc, before),
    }
}

/// UTC_PROPERTIES with what is wished of it.
#[tactic(auto, unfolding(crate::specs::After::utc_after))]
fn utc_after(
    alloc: Global,
    utc: &UtcWish,
    before: &[u8],
) -> Result<Result<Value, ParseFault>, AllocError>
    ensures { IfOk result (λ r. octets_or r ≡ utc_after utc.now before.now) }
{
    let offset = format!(in alloc; "{}", offset_of(before))?;
    Ok(utc_parsed(
        typed_or(&utc.offset, offset.as_str()),
        typed_or(&utc.leap61, flag_of(before, LEAP61)),
        typed_or(&utc.leap59, flag_of(before, LEAP59)),
        typed_or(&utc.valid, flag_of(before, VALID)),
    ))
}

/// The dataField of UTC_PROPERTIES of these members.
#[tactic(auto, unfolding(crate::specs::After::utc_parsed))]
fn utc_parsed<'a>(
    offset: &'a str,
    leap61: &'a str,
    leap59: &'a str,
    valid: &'a str,
) -> Result<Value, ParseFault>
    ensures { octets_or result ≡ utc_parsed offset.now leap61.now leap59.now valid.now }
{
    let words: [&'a str; 8] = [
        "currentUtcOffset",
        offset,
        "leap61",
        leap61,
        "leap59",
        leap59,
        "currentUtcOffsetValid",
        valid,
    ];
    parse(UTC_PROPERTIES, &words)
}

/// What is typed, or else this.
fn typed_or<'a>(typed: &'a Option<Text>, kept: &'a str) -> &'a str
    ensures { result.now ≡ typed_or typed.now kept.now }
{
    match typed {
        Some(text) => text.as_str(),
        None => kept,
    }
}

/// currentUtcOffset in the dataField of UTC_PROPERTIES.
#[tactic(auto, unfolding(crate::specs::After::offset_of))]
fn offset_of(field: &[u8]) -> i16
    ensures { result ≡ offset_of field.now }
{
    pair_at(field, 0).cast_signed()
}

/// A flag in the dataField of UTC_PROPERTIES, as a text.
#[tactic(auto, unfolding(crate::specs::After::flag_of))]
fn flag_of(field: &[u8], mask: u8) -> &'static str
    ensures { result.now ≡ flag_of mask field.now }
{
    if octet(field, 2) & mask != 0 {
        "true"
    } else {
        "false"
    }
}
