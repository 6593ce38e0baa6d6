//! A dataField in lines, as a person reads it.

ghost use Rattle.std.specs.Prelude.{◌≡◌, Some};
ghost use Rattle.std.specs.List.{All};
ghost use Rattle.ptpm_members.specs.OtherIds.{fields_of_other, other_of};
ghost use Rattle.ptpm_members.specs.FieldText.{IsPlaced, field_text, member_line, members_in, octets_line};

use crate::formatted::Formatted;
use crate::forms::Field;
use crate::other_ids::OtherId;
use crate::tables::{fields, is_whole};
use crate::text_sink::TextSink;
use crate::value_text::{push_octets_text, push_value};
use ptpm_data::row;
use std::fmt;

/// The dataField of an id, a line for each member: its name in the standard and its value. If the octets are no dataField of
/// that id, or have no member, one line has them in hexadecimal, after `value`. Each line begins with the lead.
#[derive(Clone, Copy, Debug)]
pub struct FieldText<'a> {
    pub lead: &'a str,
    pub id: u16,
    pub octets: &'a [u8],
}

impl FieldText<'_> {
    /// Puts the lines in a sink.
    pub fn push_into<T: TextSink>(&self, sink: &mut T)
        ensures { T.pushed sink.old
            (field_text self.now.lead.now self.now.id self.now.octets.now) sink.new }
    {
        let members = members_in(self.id, self.octets);
        if members.is_empty() {
            push_octets(self.lead, self.octets, sink);
            return;
        }
        for member in members {
            push_member(self.lead, self.octets, *member, sink);
        }
    }
}

impl fmt::Display for FieldText<'_> {
    ghost output = { λ t. Some (field_text t.lead.now t.id t.octets.now) };

    fn fmt<W: fmt::Write>(&self, f: &mut fmt::Formatter<W>) -> fmt::Result {
        let mut sink = Formatted {
            formatter: f,
            result: Ok(()),
        };
        self.push_into(&mut sink);
        sink.result
    }
}

/// The members that the octets have, each at its place; none if they are no dataField of the id.
#[tactic(auto, unfolding(crate::specs::FieldText::members_in))]
pub fn members_in(id: u16, octets: &[u8]) -> &'static [Field]
    ensures value { result.now ≡ members_in id octets.now }
    ensures placed { All (IsPlaced octets.now) result.now }
{
    match row(id) {
        Some(row) if is_whole(row.layout, octets) => fields(row.layout),
        Some(_) => &[],
        None => other_members(id, octets),
    }
}

/// The members that the octets have, if the id is one that is only read.
fn other_members(id: u16, octets: &[u8]) -> &'static [Field]
    ensures value { result.now ≡ fields_of_other (other_of id) octets.now }
    ensures placed { All (IsPlaced octets.now) result.now }
{
    match OtherId::of(id) {
        Some(other) if other.is_whole(octets) => other.fields(),
        _ => &[],
    }
}

#[tactic(auto, unfolding(crate::specs::FieldText::member_line))]
fn push_member<T: TextSink>(lead: &str, octets: &[u8], field: Field, sink: &mut T)
    requires { IsPlaced octets.now field }
    ensures { T.pushed sink.old (member_line lead.now octets.now field) sink.new }
{
    let (_, behind) = octets.split_at(usize::from(field.1));
    sink.push_str(lead);
    sink.push_str(field.0.name());
    sink.push_str(" ");
    push_value(field.2, behind, sink);
    sink.push_str("\n");
}

#[tactic(auto, unfolding(crate::specs::FieldText::octets_line))]
fn push_octets<T: TextSink>(lead: &str, octets: &[u8], sink: &mut T)
    ensures { T.pushed sink.old (octets_line lead.now octets.now) sink.new }
{
    sink.push_str(lead);
    sink.push_str("value ");
    push_octets_text(octets, sink);
    sink.push_str("\n");
}
