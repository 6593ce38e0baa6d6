//! What is said of a message.

ghost use Rattle.std.specs.Prelude.{◌≡◌, ◌++◌, IfOk, OnOk, codes, map, string_bytes};
ghost use Rattle.serde_json.specs.View.{members_view, view};
ghost use Rattle.ptpm_message_json.specs.MessageJson.{digits_of, error_data, id_data, message_data, message_text, named_error, put_body, put_head, put_rest};

use crate::columns::put_columns;
use crate::data_field::put_data_field;
use crate::values::{port_value, text_value};
use ptpm_codec::{ErrorId, View};
use ptpm_members::id_name;
use serde_json::{Map, Value, put};
use std::alloc::{AllocError, Global};

/// The message as one object of JSON, without a space or a line feed. Each field has the standard's name (13.3, 15.4 and 15.5.4).
/// If there are columns, texts that came with the message, it has them too.
pub fn message_text(
    alloc: Global,
    columns: &[&str],
    message: &View<'_>,
) -> Result<String, AllocError>
    ensures { IfOk result
        (λ text. string_bytes text ≡ message_text (map (λ c. c.now) columns.now) message.now) }
{
    message_value(alloc, columns, message)?.to_string(alloc)
}

#[tactic(auto, unfolding(crate::specs::MessageJson::message_data))]
fn message_value(alloc: Global, columns: &[&str], message: &View<'_>) -> Result<Value, AllocError>
    ensures { IfOk result
        (λ v. view v ≡ message_data (map (λ c. c.now) columns.now) message.now) }
{
    let mut map = Map::new(alloc);
    put_head(alloc, message, &mut map)?;
    put_rest(alloc, message, &mut map)?;
    put_body(alloc, message, &mut map)?;
    put_columns(alloc, columns, &mut map)?;
    Ok(Value::Object(map))
}

/// Puts sdoId, domainNumber, the identities and sequenceId.
#[tactic(auto, unfolding(crate::specs::MessageJson::put_head))]
fn put_head(
    alloc: Global,
    message: &View<'_>,
    map: &mut Map<String, Value>,
) -> Result<(), AllocError>
    ensures { OnOk result (members_view map.new.entries
        ≡ put_head message.now (members_view map.old.entries)) }
{
    let source = port_value(alloc, message.source())?;
    let target = port_value(alloc, message.target())?;
    put(map, alloc, "sdoId", Value::from(message.sdo()))?;
    put(map, alloc, "domainNumber", Value::from(message.domain()))?;
    put(map, alloc, "sourcePortIdentity", source)?;
    put(map, alloc, "sequenceId", Value::from(message.number()))?;
    put(map, alloc, "targetPortIdentity", target)
}

/// Puts both hop fields, actionField and managementId.
#[tactic(auto, unfolding(crate::specs::MessageJson::put_rest))]
fn put_rest(
    alloc: Global,
    message: &View<'_>,
    map: &mut Map<String, Value>,
) -> Result<(), AllocError>
    ensures { OnOk result (members_view map.new.entries
        ≡ put_rest message.now (members_view map.old.entries)) }
{
    let action = Value::String(format!(in alloc; "{}", message.action())?);
    let id = id_value(alloc, message.id())?;
    put(
        map,
        alloc,
        "startingBoundaryHops",
        Value::from(message.starting_hops()),
    )?;
    put(map, alloc, "boundaryHops", Value::from(message.hops()))?;
    put(map, alloc, "actionField", action)?;
    put(map, alloc, "managementId", id)
}

/// Puts the dataField; of an error status managementErrorId and displayData.
#[tactic(auto, unfolding(crate::specs::MessageJson::put_body))]
fn put_body(
    alloc: Global,
    message: &View<'_>,
    map: &mut Map<String, Value>,
) -> Result<(), AllocError>
    ensures { OnOk result (members_view map.new.entries
        ≡ put_body message.now.body (members_view map.old.entries)) }
{
    let Some(error) = message.error() else {
        return put_data_field(alloc, message.id(), message.octets(), map);
    };
    put(map, alloc, "managementErrorId", error_value(alloc, error)?)?;
    put(
        map,
        alloc,
        "displayData",
        text_value(alloc, message.text())?,
    )
}

/// A managementId: its name, or four hexadecimal digits if it has none.
fn id_value(alloc: Global, id: u16) -> Result<Value, AllocError>
    ensures { IfOk result (λ v. view v ≡ id_data id) }
{
    match id_name(id) {
        Some(name) => Value::try_from_str(alloc, name),
        None => Ok(Value::String(digits_of(alloc, id)?)),
    }
}

/// A managementErrorId: its name, or a text such as `0x0009` if it has none.
fn error_value(alloc: Global, number: u16) -> Result<Value, AllocError>
    ensures { IfOk result (λ v. view v ≡ error_data number) }
{
    match named_error(number) {
        Some(name) => Ok(Value::String(format!(in alloc; "{name}")?)),
        None => Ok(Value::String(number_text(alloc, number)?)),
    }
}

/// The error that the standard gives a number, if it is one (15.5.4.3).
fn named_error(number: u16) -> Option<ErrorId>
    ensures { result ≡ named_error number }
{
    ErrorId::from_number(number)
}

/// A number in hexadecimal, after `0x`.
fn number_text(alloc: Global, number: u16) -> Result<String, AllocError>
    ensures { IfOk result (λ text. string_bytes text ≡ codes "0x" ++ digits_of number) }
{
    let digits = digits_of(alloc, number)?;
    format!(in alloc; "0x{}", digits.as_str())
}

/// A number in four hexadecimal digits.
#[tactic(auto, unfolding(crate::specs::MessageJson::digits_of))]
fn digits_of(alloc: Global, number: u16) -> Result<String, AllocError>
    ensures { IfOk result (λ text. string_bytes text ≡ digits_of number) }
{
    hex::encode(alloc, &number.to_be_bytes())
}
