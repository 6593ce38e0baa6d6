//! The dataField of a SET, from what a person types.

ghost use Rattle.std.specs.Prelude.{◌≡◌, ◌<◌, length, map, replicate};
ghost use Rattle.ptpm_members.specs.Tables.{field_size};
ghost use Rattle.ptpm_members.specs.Parsed.{field_or, laid, octets_or, overlay, parsed, said_or, with_all, with_named, with_value, with_words};

use crate::describing::described;
use crate::forms::{Field, Form};
use crate::names::Member;
use crate::tables::{fields, size};
use crate::typing::typed;
use ptpm_codec::{overwrite_ptp_text, put};
use ptpm_data::{Layout, Value, row};

/// Why words are no dataField.
#[derive(Clone, Copy, Debug, PartialEq, Eq)]
pub enum ParseFault {
    /// The table of ids lacks the id.
    NoSuchId,
    /// There are more or fewer words than a name and a value for each member.
    WordCount,
    /// A word is not the name of this member, which comes next.
    OtherName(Member),
    /// A word is no value of this member, or no SET has such a member.
    NoValue(Member),
}

/// The dataField that words mean for a SET of an id. They are the name and the value of each member, in the order and
/// spelling of a `FieldText`. A sole member's name may be left out. Takes no memory.
#[tactic(auto, using(crate::proofs::ParsingLemmas::few_fields), unfolding(crate::specs::Parsed::parsed))]
pub fn parse(id: u16, words: &[&str]) -> Result<Value, ParseFault>
    ensures { octets_or result ≡ parsed id (map (λ w. w.now) words.now) }
{
    let Some(row) = row(id) else {
        return Err(ParseFault::NoSuchId);
    };
    let mut field = zeros(row.layout);
    match put_words(fields(row.layout), words, &mut field) {
        Ok(()) => Ok(field),
        Err(fault) => Err(fault),
    }
}

/// A dataField of this layout, if it is no text, with no bit set.
fn zeros(layout: Layout) -> Value
    ensures { result.items ≡ replicate (field_size layout) 0 }
{
    let mut field = Value::new();
    put(&mut field, &[0; 32][..size(layout)]);
    field
}

/// Puts the values of words into a dataField.
#[tactic(auto, unfolding(crate::specs::Parsed::with_words))]
fn put_words(fields: &[Field], words: &[&str], field: &mut Value) -> Result<(), ParseFault>
    requires { length fields.now < 256 }
    ensures { field_or result field.new.items
        ≡ with_words fields.now (map (λ w. w.now) words.now) field.old.items }
{
    match fields {
        [member] if words.len() == 1 => put_value(*member, words[0], field),
        _ => put_all(fields, words, field),
    }
}

/// Puts the value after each name.
#[tactic(auto, unfolding(crate::specs::Parsed::with_all))]
fn put_all(fields: &[Field], words: &[&str], field: &mut Value) -> Result<(), ParseFault>
    requires { length fields.now < 256 }
    ensures { field_or result field.new.items
        ≡ with_all fields.now (map (λ w. w.now) words.now) field.old.items }
{
    if words.len() != 2 * fields.len() {
        return Err(ParseFault::WordCount);
    }
    for (i, member) in fields.iter().enumerate() {
        match put_named(*member, words[2 * i], words[2 * i + 1], field) {
            Ok(()) => {}
            Err(fault) => return Err(fault),
        }
    }
    Ok(())
}

#[tactic(auto, unfolding(crate::specs::Parsed::with_named))]
fn put_named(member: Field, name: &str, text: &str, field: &mut Value) -> Result<(), ParseFault>
    ensures { field_or result field.new.items
        ≡ with_named member name.now text.now field.old.items }
{
    if name.eq_ignore_ascii_case(member.0.name()) {
        put_value(member, text, field)
    } else {
        Err(ParseFault::OtherName(member.0))
    }
}

#[tactic(auto, unfolding(crate::specs::Parsed::with_value))]
fn put_value(member: Field, text: &str, field: &mut Value) -> Result<(), ParseFault>
    ensures { field_or result field.new.items ≡ with_value member text.now field.old.items }
{
    match lay(member.2, member.1, text, field) {
        Some(()) => Ok(()),
        None => Err(ParseFault::NoValue(member.0)),
    }
}

/// Lays the octets of a value over those from a place on; a text is all of its dataField.
#[tactic(auto, unfolding(crate::specs::Parsed::laid), using(ptpm_codec::proofs::OctetLaws::ptp_text_size))]
fn lay(form: Form, at: u8, text: &str, field: &mut Value) -> Option<()>
    ensures { said_or result field.new.items ≡ laid form at text.now field.old.items }
{
    match form {
        Form::Text => {
            let text = described(text)?;
            overwrite_ptp_text(field, text.as_slice());
        }
        _ => {
            let octets = typed(form, text)?;
            overlay(usize::from(at), octets.as_slice(), field.as_mut_slice());
        }
    }
    Some(())
}

/// Sets, from a place on, each bit that is set in these octets.
#[tactic(auto, unfolding(crate::specs::Parsed::overlay))]
fn overlay(at: usize, octets: &[u8], field: &mut [u8])
    requires { at < 256 }
    ensures { field.new ≡ overlay at octets.now field.old }
{
    let mut place = at;
    for octet in octets {
        if place < field.len() {
            field[place] |= *octet;
        }
        place += 1;
    }
}
