//! The dataField of a SET, from the words of a host.

ghost use Rattle.std.specs.Prelude.{◌≡◌, ◌<◌, ◌≤◌, ℕ, List, Any, Err, OnErr, length};
ghost use Rattle.ptpm_members.specs.Tables.{fields_of_id};
ghost use Rattle.ptpm_host.specs.declared.refusal.ParseRefusal.TheVariants.{NotWords};
ghost use Rattle.ptpm_host.specs.Parsing.{IsFitted, IsMemberAt, IsOfMember, IsParsed, IsRefusal, fault_place};
ghost use Rattle.ptpm_host.specs.Words.{AreWords, most_words};

use crate::refusal::ParseRefusal;
use crate::words::words;
use ptpm_data::{Value, row};
use ptpm_members::{Member, ParseFault, fields, parse};

/// Leaves the dataField that words mean for a SET of an id at the head of `octets`, and answers how many octets it has. Each
/// word has a zero octet after it. What comes after the dataField stays. If it is refused, nothing is written. Takes no memory.
pub fn parse_field(id: u16, text: &[u8], octets: &mut [u8]) -> Result<usize, ParseRefusal>
    ensures parsed { (words : List (List ℕ))
        → AreWords words text.now
        → length words ≤ most_words
        → IsParsed id words octets.old octets.new result }
    ensures no_words { ((words : List (List ℕ))
        → AreWords words text.now
        → most_words < length words)
        → result ≡ Err NotWords }
    ensures untouched { OnErr result (octets.new ≡ octets.old) }
{
    let Some(words) = words(text) else {
        return Err(ParseRefusal::NotWords);
    };
    match parse(id, words.as_slice()) {
        Ok(field) => put(&field, octets),
        Err(fault) => Err(refusal(id, fault)),
    }
}

/// Leaves a dataField at the head of octets, if there is room for the whole.
fn put(field: &Value, octets: &mut [u8]) -> Result<usize, ParseRefusal>
    ensures fitted { IsFitted field.now.items octets.old octets.new result }
    ensures untouched { OnErr result (octets.new ≡ octets.old) }
{
    let field = field.as_slice();
    if octets.len() < field.len() {
        return Err(ParseRefusal::NoRoom);
    }
    octets[..field.len()].copy_from_slice(field);
    Ok(field.len())
}

/// The refusal for a fault, which is of one of the id's members, if it is of one.
fn refusal(id: u16, fault: ParseFault) -> ParseRefusal
    requires { IsOfMember (fields_of_id id) fault }
    ensures { IsRefusal id fault result }
{
    match fault {
        ParseFault::NoSuchId => ParseRefusal::UnknownId,
        ParseFault::WordCount => ParseRefusal::WordCount,
        ParseFault::OtherName(member) => ParseRefusal::OtherName(place(id, member)),
        ParseFault::NoValue(member) => ParseRefusal::NoValue(place(id, member)),
    }
}

/// The place of a member in the dataField of an id that has it, counted from 0.
fn place(id: u16, member: Member) -> usize
    requires { Any (λ f. f.0 ≡ member) (fields_of_id id) }
    ensures { IsMemberAt id result member }
{
    let Some(row) = row(id) else {
        unreachable!();
    };
    for (place, field) in fields(row.layout).iter().enumerate() {
        if field.0 == member {
            return place;
        }
    }
    unreachable!()
}

impl ParseRefusal {
    /// The place of the member that is at fault, counted from 0; 0 if none is.
    pub fn place(self) -> usize
        ensures { result ≡ fault_place self }
    {
        match self {
            ParseRefusal::OtherName(place) | ParseRefusal::NoValue(place) => place,
            ParseRefusal::NotWords
            | ParseRefusal::UnknownId
            | ParseRefusal::WordCount
            | ParseRefusal::NoRoom => 0,
        }
    }
}
