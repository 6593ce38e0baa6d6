//! dataFields for hosts in C: the ids that have them, their members as text, and what a person types for them. No call here takes
//! a handle or memory.

ghost use Rattle.std.specs.Prelude.{◌≡◌, ◌≢◌, ◌<◌, ◌≤◌, ℕ, [], Err, IfSome, IfNone, List, Result, Some, length, slice_get};
ghost use Rattle.ptpm_c.specs.Fields.{IsReported};
ghost use Rattle.ptpm_host.specs.MemberKinds.{member_kind};
ghost use Rattle.ptpm_host.specs.Names.{no_id};
ghost use Rattle.ptpm_host.specs.declared.refusal.ParseRefusal.{ParseRefusal};
ghost use Rattle.ptpm_host.specs.declared.refusal.ParseRefusal.TheVariants.{NotWords};
ghost use Rattle.ptpm_host.specs.Parsing.{IsParsed};
ghost use Rattle.ptpm_host.specs.Texts.{HandsOut};
ghost use Rattle.ptpm_host.specs.Words.{AreWords, most_words};
ghost use Rattle.ptpm_members.specs.FieldText.{field_text};
ghost use Rattle.ptpm_members.specs.IdNames.{id_at};
ghost use Rattle.ptpm_members.specs.Tables.{fields_of_id};
ghost use Rattle.ptpm_members.specs.Takes.{takes_text};

use ptpm_data::row;
use ptpm_host::{NO_ID, hand_out_lines, hand_out_takes, member_kind, parse_field, parse_number};
use ptpm_members::{Field, FieldText, Takes, fields, id_at};

/// The managementId at this place of this profile's, which are in ascending order and counted from 0. 65,536, which is no id, past
/// the last.
#[unsafe(no_mangle)]
pub extern "C" fn ptpm_id_at(place: usize) -> u32
    ensures found { IfSome (id_at place) (λ id. result ≡ id) }
    ensures past { IfNone (id_at place) (result ≡ no_id) }
{
    match id_at(place) {
        Some(id) => u32::from(id),
        None => NO_ID,
    }
}

/// Leaves the members of a dataField of this id at the head of `text`, and answers how many octets they have. A line has a
/// member's name in the standard and its value. If the octets are no dataField of the id, one line has them in hexadecimal. 0 if
/// there is no room for all lines, and only then. What `text` holds then is not said. What comes after the lines stays.
#[unsafe(no_mangle)]
pub extern "C" fn ptpm_field_text(id: u16, octets: &[u8], text: &mut [u8]) -> usize
    ensures lines { result ≢ 0
        → HandsOut (field_text [] id octets.now) (Some result) text.old text.new }
    ensures no_room { result ≡ 0 → length text.old < length (field_text [] id octets.now) }
{
    let lines = FieldText {
        lead: "",
        id,
        octets,
    };
    hand_out_lines(&lines, text).unwrap_or(0)
}

/// Leaves the dataField that words mean for a SET of this id at the head of `octets`: `count` octets. Answers 0, or the number of
/// the refusal. Then `member` is the place of the member that is at fault, counted from 0. Each word has a zero octet after it.
/// What comes after the dataField stays. Of `count` and `member`, the one that does not apply is 0.
#[unsafe(no_mangle)]
pub extern "C" fn ptpm_field_parse(
    id: u16,
    words: &[u8],
    octets: &mut [u8],
    count: &mut usize,
    member: &mut usize,
) -> u32
    ensures parsed { (ws : List (List ℕ))
        → AreWords ws words.now
        → length ws ≤ most_words
        → (answer : Result ℕ ParseRefusal)
        × IsParsed id ws octets.old octets.new answer
        × IsReported answer result count.new member.new }
    ensures no_words { ((ws : List (List ℕ)) → AreWords ws words.now → most_words < length ws)
        → IsReported (Err NotWords) result count.new member.new }
    ensures untouched { result ≢ 0 → octets.new ≡ octets.old }
{
    match parse_field(id, words, octets) {
        Ok(size) => {
            *count = size;
            *member = 0;
            0
        }
        Err(refusal) => {
            *count = 0;
            *member = refusal.place();
            parse_number(refusal)
        }
    }
}

/// What the value is of the member in the line of this place of `ptpm_field_text`, from 0 on, as a number. 0 if there is no such
/// member, or the octets are no dataField of the id.
#[unsafe(no_mangle)]
pub extern "C" fn ptpm_member_kind(id: u16, octets: &[u8], place: usize) -> u32
    ensures { result ≡ member_kind id octets.now place }
{
    member_kind(id, octets, place)
}

/// Leaves in words what a SET takes for a member at the head of `text`, and answers how many octets they have. The member is the one
/// at this place of the id's dataField, counted from 0. 0 if there is no such member, or no room for all words, and only then. What
/// `text` holds without room is not said. What comes after the words stays.
#[unsafe(no_mangle)]
pub extern "C" fn ptpm_field_takes(id: u16, place: usize, text: &mut [u8]) -> usize
    ensures words { IfSome (slice_get (fields_of_id id) place)
        (λ f. result ≢ 0 → HandsOut (takes_text f.2) (Some result) text.old text.new) }
    ensures no_room { IfSome (slice_get (fields_of_id id) place)
        (λ f. result ≡ 0 → length text.old < length (takes_text f.2)) }
    ensures no_member { IfNone (slice_get (fields_of_id id) place) ((result ≡ 0) × (text.new ≡ text.old)) }
{
    match member_at(id, place) {
        Some(field) => hand_out_takes(Takes(field.2), text).unwrap_or(0),
        None => 0,
    }
}

/// The member at this place of an id's dataField, counted from 0.
fn member_at(id: u16, place: usize) -> Option<Field>
    ensures { result ≡ slice_get (fields_of_id id) place }
{
    fields(row(id)?.layout).get(place).copied()
}
