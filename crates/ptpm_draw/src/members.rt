//! The members that an event changed, as texts: each by its name in a network file, with its new value.

ghost use Rattle.std.specs.Prelude.{◌≡◌, ◌++◌, IfOk, OnOk, Some, drop, flat_map, map, option_map, string_bytes, true};
ghost use Rattle.ptpm_codec.specs.declared.message.Action.TheVariants.{Get};
ghost use Rattle.ptpm_data.specs.DataField.{permits};
ghost use Rattle.ptpm_data.specs.ManagementId.{is_of_port};
ghost use Rattle.ptpm_data.specs.Members.{HasPort};
ghost use Rattle.ptpm_draw.specs.MemberText.{changed_bits, changed_texts, clock_texts, is_changed, member_shown, member_texts, port_bits, port_texts, text_of, value_shown, value_text};
ghost use Rattle.ptpm_members.specs.FieldText.{IsPlaced};

use crate::changes::Change;
use ptpm_data::{ChangedMembers, INLINE_PORTS, Member as DataSetMember, PortMembers, Value};
use ptpm_members::{Field, Form, Member, MemberValue, members_in, value_in};
use ptpm_text::Hexadecimal;
use std::alloc::{AllocError, Global};
use std::fmt;

const USER_DESCRIPTION: u16 = 0x0002;

const DEFAULT_DATA_SET: u16 = 0x2000;

const CURRENT_DATA_SET: u16 = 0x2001;

const PARENT_DATA_SET: u16 = 0x2002;

const TIME_PROPERTIES_DATA_SET: u16 = 0x2003;

const PORT_DATA_SET: u16 = 0x2004;

/// A clock of a network file has at most these ports.
static PORTS: [u16; INLINE_PORTS] = [1, 2, 3, 4, 5, 6, 7, 8];

/// The members that an event changed, one a text: those of the clock, and then those of each port, after its number.
pub(crate) fn member_texts(
    alloc: Global,
    change: Option<&Change>,
) -> Result<Vec<String>, AllocError>
    ensures { IfOk result (λ texts. map string_bytes texts.items
        ≡ member_texts (option_map (λ change. change.now) change.entry)) }
{
    let mut texts = Vec::new(alloc);
    if let Some(change) = change {
        push_clock_texts(alloc, change, &mut texts)?;
        push_ports_texts(alloc, change, &PORTS, &mut texts)?;
    }
    Ok(texts)
}

/// Pushes the texts of those members of the clock that changed.
#[tactic(auto, unfolding(ptpm_data::specs::ManagementId::row_of))]
fn push_clock_texts(
    alloc: Global,
    change: &Change,
    texts: &mut Vec<String>,
) -> Result<(), AllocError>
    ensures { OnOk result (map string_bytes texts.new.items
        ≡ map string_bytes texts.old.items ++ clock_texts change.now) }
{
    push_texts(alloc, change, USER_DESCRIPTION, 0, texts)?;
    push_texts(alloc, change, DEFAULT_DATA_SET, 0, texts)?;
    push_texts(alloc, change, CURRENT_DATA_SET, 0, texts)?;
    push_texts(alloc, change, PARENT_DATA_SET, 0, texts)?;
    push_texts(alloc, change, TIME_PROPERTIES_DATA_SET, 0, texts)
}

/// Pushes the texts of those members of these ports that changed.
fn push_ports_texts(
    alloc: Global,
    change: &Change,
    ports: &[u16],
    texts: &mut Vec<String>,
) -> Result<(), AllocError>
    ensures { OnOk result (map string_bytes texts.new.items
        ≡ map string_bytes texts.old.items ++ flat_map (port_texts change.now) ports.now) }
{
    for port in ports {
        push_port_texts(alloc, change, *port, texts)?;
    }
    Ok(())
}

#[tactic(auto, unfolding(ptpm_data::specs::ManagementId::row_of))]
fn push_port_texts(
    alloc: Global,
    change: &Change,
    port: u16,
    texts: &mut Vec<String>,
) -> Result<(), AllocError>
    ensures { OnOk result (map string_bytes texts.new.items
        ≡ map string_bytes texts.old.items ++ port_texts change.now port) }
{
    if change.sets.has_port(port) {
        push_texts(alloc, change, PORT_DATA_SET, port, texts)?;
    }
    Ok(())
}

/// Pushes the texts of those members of an id's dataField that changed; of a port, or of the clock by 0.
#[tactic(auto, unfolding(crate::specs::MemberText::texts_of))]
fn push_texts(
    alloc: Global,
    change: &Change,
    id: u16,
    port: u16,
    texts: &mut Vec<String>,
) -> Result<(), AllocError>
    requires permits { permits Get id ≡ true }
    requires port { is_of_port id ≡ true → HasPort port change.now.sets }
    ensures { OnOk result (map string_bytes texts.new.items
        ≡ map string_bytes texts.old.items ++ changed_texts change.now id port) }
{
    let mut octets = Value::new();
    change.sets.lay(id, port, &mut octets);
    for field in members_in(id, octets.as_slice()) {
        push_text(
            alloc,
            &change.members,
            port,
            *field,
            octets.as_slice(),
            texts,
        )?;
    }
    Ok(())
}

/// Pushes the text of a member at its place, if it changed.
fn push_text(
    alloc: Global,
    members: &ChangedMembers,
    port: u16,
    field: Field,
    octets: &[u8],
    texts: &mut Vec<String>,
) -> Result<(), AllocError>
    requires { IsPlaced octets.now field }
    ensures { OnOk result (map string_bytes texts.new.items
        ≡ map string_bytes texts.old.items ++ text_of members.now port octets.now field field.0) }
{
    match field.0 {
        Member::DataSet(member) if is_changed(members, port, member) => {
            texts.push(member_text(alloc, port, member, value_of(field, octets))?)?;
        }
        _ => {}
    }
    Ok(())
}

/// Whether a member of a port changed, or one of the clock by 0.
#[tactic(auto, unfolding(crate::specs::MemberText::is_changed))]
fn is_changed(members: &ChangedMembers, port: u16, member: DataSetMember) -> bool
    ensures { result ≡ is_changed members.now port member }
{
    (changed_bits(members, port) >> member.place()) % 2 == 1
}

/// A bit for each member, at its place; of a port, or of the clock by 0.
fn changed_bits(members: &ChangedMembers, port: u16) -> u64
    ensures { result ≡ changed_bits members.now port }
{
    if port == 0 {
        u64::from(members.clock.0)
    } else {
        port_bits(members.ports.get(usize::from(port) - 1))
    }
}

/// The members of a port come after those of a clock.
fn port_bits(members: Option<&PortMembers>) -> u64
    ensures { result ≡ port_bits (option_map (λ members. members.now) members.entry) }
{
    match members {
        Some(members) => u64::from(members.0) * (1 << 30),
        None => 0,
    }
}

/// The value of a member at its place.
fn value_of(field: Field, octets: &[u8]) -> ValueText<'_>
    requires { IsPlaced octets.now field }
    ensures { value_text result ≡ value_shown field.2 (drop field.1 octets.now) }
{
    let (_, behind) = octets.split_at(usize::from(field.1));
    match field.2 {
        Form::Hexadecimal(size) => ValueText::Hexadecimal(&behind[..usize::from(size)]),
        form => match value_in(form, behind) {
            MemberValue::Text(text) => ValueText::Quoted(MemberValue::Text(text)),
            value => ValueText::Plain(value),
        },
    }
}

/// A member's name and value; a port's, after its number.
#[tactic(auto, unfolding(crate::specs::MemberText::member_shown))]
fn member_text(
    alloc: Global,
    port: u16,
    member: DataSetMember,
    value: ValueText<'_>,
) -> Result<String, AllocError>
    ensures { IfOk result (λ text. string_bytes text ≡ member_shown port member (value_text value.entry)) }
{
    let mut text = String::new(alloc);
    if port != 0 {
        write!(text, "port {port} ")?;
    }
    write!(text, "{member} {value}")?;
    Ok(text)
}

/// A member's value, as each text has it.
#[derive(Clone, Copy)]
enum ValueText<'a> {
    /// A number that is in hexadecimal, by its octets.
    Hexadecimal(&'a [u8]),
    /// A text. It may have commas, and be empty, and other members follow it after a comma.
    Quoted(MemberValue<'a>),
    Plain(MemberValue<'a>),
}

impl fmt::Display for ValueText<'_> {
    ghost output = { λ value. Some (value_text value) };

    fn fmt<W: fmt::Write>(&self, f: &mut fmt::Formatter<W>) -> fmt::Result {
        match *self {
            ValueText::Hexadecimal(octets) => write!(f, "0x{}", Hexadecimal(octets)),
            ValueText::Quoted(value) => write!(f, "\"{value}\""),
            ValueText::Plain(value) => write!(f, "{value}"),
        }
    }
}
