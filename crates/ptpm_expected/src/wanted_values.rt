//! The values that an inventory wants, as the findings have them.

use crate::quoted::unquoted_text;
use crate::words::{first_choice, first_word};
use ptpm_data::Layout;
use ptpm_members::{
    ClockQuality, Enumeration, Form, Member, MemberValue, clock_identity_of, fields, flag_of,
    octet_of, port_identity_of,
};
use ptpm_site::judging::expected::Wanted;
use std::alloc::{AllocError, Global};
use std::str::FromStr;

/// The dataFields that have the members that an inventory may name.
const LAYOUTS: [Layout; 6] = [
    Layout::DefaultDataSet,
    Layout::CurrentDataSet,
    Layout::ParentDataSet,
    Layout::TimePropertiesDataSet,
    Layout::PortDataSet,
    Layout::UserDescription,
];

/// The values of a text that a member may have, with `|` between them. `None` if one is none.
pub(crate) fn wanted_values(
    alloc: Global,
    member: Member,
    text: &str,
) -> Result<Option<Vec<Wanted>>, AllocError> {
    let mut values = Vec::new(alloc);
    let mut rest = Some(text);
    for _ in 0..u64::MAX {
        let Some(choices) = rest else {
            break;
        };
        let (choice, others) = first_choice(choices);
        match wanted_value(alloc, member, choice)? {
            Some(wanted) => values.push(wanted)?,
            None => return Ok(None),
        }
        rest = others;
    }
    Ok(Some(values))
}

/// A value that a member may have.
fn wanted_value(alloc: Global, member: Member, text: &str) -> Result<Option<Wanted>, AllocError> {
    match form_of(member) {
        Some(Form::Text) => Ok(unquoted_text(alloc, text)?.map(Wanted::Text)),
        Some(form) => Ok(value_of_form(form, text)),
        None => Ok(quality(text)),
    }
}

/// How a dataField has a member. `None` of a clockQuality: it has its three members.
fn form_of(member: Member) -> Option<Form> {
    for layout in &LAYOUTS {
        for field in fields(*layout) {
            if field.0 == member {
                return Some(field.2);
            }
        }
    }
    None
}

/// A value of a form that takes no memory.
fn value_of_form(form: Form, text: &str) -> Option<Wanted> {
    match form {
        Form::Flag(_) => Some(Wanted::Value(MemberValue::Flag(flag_of(text)?))),
        Form::ClockIdentity => Some(Wanted::Value(MemberValue::Clock(clock_identity_of(text)?))),
        Form::PortIdentity => Some(Wanted::Value(MemberValue::Port(port_identity_of(text)?))),
        Form::Named(enumeration) => of_enumeration(enumeration, text),
        _ => numbers(bounds_of(form), text),
    }
}

/// The least number that a member of a form can have, and the greatest.
fn bounds_of(form: Form) -> (i64, i64) {
    match form {
        Form::Unsigned(1) | Form::Hexadecimal(1) => (0, 0xff),
        Form::Unsigned(2) | Form::Hexadecimal(2) => (0, 0xffff),
        Form::Signed(1) => (i64::from(i8::MIN), i64::from(i8::MAX)),
        Form::Signed(2) => (i64::from(i16::MIN), i64::from(i16::MAX)),
        Form::Signed(4) => (i64::from(i32::MIN), i64::from(i32::MAX)),
        Form::LowNibble => (0, 15),
        _ => (i64::MIN, i64::MAX),
    }
}

/// A number that may have a name in either case, or numbers. `reserved` is each that has no name.
fn of_enumeration(enumeration: Enumeration, text: &str) -> Option<Wanted> {
    match enumeration.number_of(text).or_else(|| octet_of(text)) {
        Some(number) => Some(Wanted::Value(MemberValue::Named(enumeration, number))),
        None if text == "reserved" => Some(Wanted::Reserved),
        None => numbers((0, 0xff), text),
    }
}

/// `-1..1`, or a number. `None` if the member can have none of these.
fn numbers(bounds: (i64, i64), text: &str) -> Option<Wanted> {
    let (least, greatest) = match text.split_once("..") {
        Some((least, greatest)) => (number(least.trim())?, number(greatest.trim())?),
        None => {
            let number = number(text)?;
            (number, number)
        }
    };
    if greatest < least || greatest < bounds.0 || bounds.1 < least {
        return None;
    }
    Some(Wanted::Range(least, greatest))
}

/// A number: in decimal, or in hexadecimal after `0x`.
fn number(text: &str) -> Option<i64> {
    match text.strip_prefix("0x") {
        Some(digits) => i64::from_str_radix(digits, 16).ok(),
        None => i64::from_str(text).ok(),
    }
}

/// `class 6`, or `class 6 accuracy 0x21 variance 0x4e5d`.
fn quality(text: &str) -> Option<Wanted> {
    let (class, rest) = after_name("class", text)?;
    let class = u8::from_str(class).ok()?;
    if rest.is_empty() {
        return Some(Wanted::Class(class));
    }
    let (accuracy, rest) = after_name("accuracy", rest)?;
    let (variance, rest) = after_name("variance", rest)?;
    if !rest.is_empty() {
        return None;
    }
    Some(Wanted::Value(MemberValue::Quality(ClockQuality {
        class,
        accuracy: u8::from_str_radix(accuracy.strip_prefix("0x")?, 16).ok()?,
        variance: u16::from_str_radix(variance.strip_prefix("0x")?, 16).ok()?,
    })))
}

/// The word after a name that begins a text, and the rest.
fn after_name<'a>(name: &str, text: &'a str) -> Option<(&'a str, &'a str)> {
    let (first, rest) = first_word(text);
    if first != name {
        return None;
    }
    Some(first_word(rest))
}
