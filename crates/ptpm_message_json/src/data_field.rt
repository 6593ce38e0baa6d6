//! What is said of a dataField.

ghost use Rattle.std.specs.Prelude.{◌≡◌, IfOk, OnOk};
ghost use Rattle.std.specs.List.{All};
ghost use Rattle.serde_json.specs.Data.{object};
ghost use Rattle.serde_json.specs.View.{members_view, view};
ghost use Rattle.ptpm_members.specs.FieldText.{members_in};
ghost use Rattle.ptpm_message_json.specs.DataField.{IsTellable, members_data, put_data_field, put_field};

use crate::names::{is_in_quality, quality_name};
use crate::values::{member_value, quality_in};
use ptpm_members::{Field, MemberValue, members_in, value_in};
use serde_json::{Map, Value, put};
use std::alloc::{AllocError, Global};

/// Puts the dataField of an id. That is `members`, an object of them by the standard's names. If the octets are no dataField of
/// that id, or have no member, it is `dataField`, the octets in hexadecimal.
#[tactic(auto, using(crate::proofs::Tellable::all_tellable), unfolding(crate::specs::DataField::put_data_field))]
pub(crate) fn put_data_field(
    alloc: Global,
    id: u16,
    octets: &[u8],
    map: &mut Map<String, Value>,
) -> Result<(), AllocError>
    ensures { OnOk result (members_view map.new.entries
        ≡ put_data_field id octets.now (members_view map.old.entries)) }
{
    let members = members_in(id, octets);
    if members.is_empty() {
        return put(
            map,
            alloc,
            "dataField",
            Value::String(hex::encode(alloc, octets)?),
        );
    }
    let members = members_object(alloc, octets, members)?;
    put(map, alloc, "members", Value::Object(members))
}

/// The members of an id's dataField, as an object by the standard's names. It is empty if the octets are no dataField of that id, or
/// have no member.
#[tactic(auto, using(crate::proofs::Tellable::all_tellable))]
pub fn members_value(alloc: Global, id: u16, octets: &[u8]) -> Result<Value, AllocError>
    ensures { IfOk result (λ v. view v ≡ object (members_data octets.now (members_in id octets.now))) }
{
    let members = members_in(id, octets);
    Ok(Value::Object(members_object(alloc, octets, members)?))
}

/// An object of members.
#[tactic(auto, using(std::proofs::lemmas::List::Sums::fold_more), unfolding(crate::specs::DataField::members_data))]
fn members_object(
    alloc: Global,
    octets: &[u8],
    members: &[Field],
) -> Result<Map<String, Value>, AllocError>
    requires { All (IsTellable octets.now) members.now }
    ensures { IfOk result (λ m. members_view m.entries ≡ members_data octets.now members.now) }
{
    let mut map = Map::new(alloc);
    for member in members {
        put_member(alloc, octets, *member, &mut map)?;
    }
    Ok(map)
}

/// Puts a member. The first of a ClockQuality comes with the others, as one object.
#[tactic(auto, unfolding(crate::specs::DataField::put_field))]
fn put_member(
    alloc: Global,
    octets: &[u8],
    field: Field,
    map: &mut Map<String, Value>,
) -> Result<(), AllocError>
    requires { IsTellable octets.now field }
    ensures { OnOk result (members_view map.new.entries
        ≡ put_field octets.now (members_view map.old.entries) field) }
{
    let (_, behind) = octets.split_at(usize::from(field.1));
    if let Some(name) = quality_name(field.0) {
        let quality = MemberValue::Quality(quality_in(behind));
        return put(map, alloc, name, member_value(alloc, quality)?);
    }
    if is_in_quality(field.0) {
        return Ok(());
    }
    put(
        map,
        alloc,
        field.0.name(),
        member_value(alloc, value_in(field.2, behind))?,
    )
}
