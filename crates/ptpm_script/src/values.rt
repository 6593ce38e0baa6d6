//! The values at the keys of a table: if one is of another kind, there is none.

ghost use Rattle.std.specs.Prelude.{◌≡◌, option_map, unwrap_or, take, length, ◌≤◌};
ghost use Rattle.toml.specs.Data.{get_member};
ghost use Rattle.toml.specs.View.{view, table_view};
ghost use Rattle.ptpm_script.specs.Values.{clock_at, description_at, integer_at, natural_at, port_at, signed_at, text_at, flag_at};

use crate::spellings::{clock_identity, port_identity};
use arrayvec::ArrayVec;
use ptpm_codec::{ClockIdentity, PortIdentity};
use toml::{Table, Value};

/// The value at a key.
#[tactic(auto, using(toml::proofs::Views::table_get))]
pub(crate) fn value_at<'a>(table: &'a Table, key: &str) -> Option<&'a Value>
    ensures { option_map (λ v. view v.now) result ≡ get_member key.now (table_view table.now) }
{
    table.get(key)
}

/// The text at a key.
pub(crate) fn text_at<'a>(table: &'a Table, key: &str) -> Option<&'a str>
    ensures { option_map (λ s. s.now) result ≡ text_at key.now (table_view table.now) }
{
    value_at(table, key)?.as_str()
}

pub(crate) fn i64_at(table: &Table, key: &str) -> Option<i64>
    ensures { result ≡ integer_at key.now (table_view table.now) }
{
    value_at(table, key)?.as_integer()
}

#[tactic(auto, unfolding(crate::specs::Values::natural_at))]
pub(crate) fn u8_at(table: &Table, key: &str) -> Option<u8>
    ensures { result ≡ natural_at 255 key.now (table_view table.now) }
{
    u8::try_from(i64_at(table, key)?).ok()
}

/// The number at a key, if it is one from 0 to 65,535.
#[tactic(auto, unfolding(crate::specs::Values::natural_at))]
pub(crate) fn u16_at(table: &Table, key: &str) -> Option<u16>
    ensures { result ≡ natural_at 65535 key.now (table_view table.now) }
{
    u16::try_from(i64_at(table, key)?).ok()
}

pub(crate) fn flag_or(table: &Table, key: &str, default: bool) -> bool
    ensures { result ≡ unwrap_or (flag_at key.now (table_view table.now)) default }
{
    let flag = value_at(table, key).and_then(|value| value.as_bool());
    flag.unwrap_or(default)
}

pub(crate) fn u8_or(table: &Table, key: &str, default: u8) -> u8
    ensures { result ≡ unwrap_or (natural_at 255 key.now (table_view table.now)) default }
{
    u8_at(table, key).unwrap_or(default)
}

pub(crate) fn u16_or(table: &Table, key: &str, default: u16) -> u16
    ensures { result ≡ unwrap_or (natural_at 65535 key.now (table_view table.now)) default }
{
    u16_at(table, key).unwrap_or(default)
}

#[tactic(auto, unfolding(crate::specs::Values::signed_at))]
pub(crate) fn i8_or(table: &Table, key: &str, default: i8) -> i8
    ensures { result ≡ unwrap_or (signed_at 128 key.now (table_view table.now)) default }
{
    let number = i64_at(table, key).and_then(|number| i8::try_from(number).ok());
    number.unwrap_or(default)
}

#[tactic(auto, unfolding(crate::specs::Values::signed_at))]
pub(crate) fn i16_or(table: &Table, key: &str, default: i16) -> i16
    ensures { result ≡ unwrap_or (signed_at 32768 key.now (table_view table.now)) default }
{
    let number = i64_at(table, key).and_then(|number| i16::try_from(number).ok());
    number.unwrap_or(default)
}

#[tactic(auto, unfolding(crate::specs::Values::signed_at))]
pub(crate) fn i32_or(table: &Table, key: &str, default: i32) -> i32
    ensures { result ≡ unwrap_or (signed_at 2147483648 key.now (table_view table.now)) default }
{
    let number = i64_at(table, key).and_then(|number| i32::try_from(number).ok());
    number.unwrap_or(default)
}

pub(crate) fn i64_or(table: &Table, key: &str, default: i64) -> i64
    ensures { result ≡ unwrap_or (integer_at key.now (table_view table.now)) default }
{
    i64_at(table, key).unwrap_or(default)
}

/// The clockIdentity at a key.
pub(crate) fn clock_at(table: &Table, key: &str) -> Option<ClockIdentity>
    ensures { result ≡ clock_at key.now (table_view table.now) }
{
    clock_identity(text_at(table, key)?)
}

/// The portIdentity at a key.
pub(crate) fn port_at(table: &Table, key: &str) -> Option<PortIdentity>
    ensures { result ≡ port_at key.now (table_view table.now) }
{
    port_identity(text_at(table, key)?)
}

/// The first items, at most this number.
pub(crate) fn first_items<T>(items: &[T], most: usize) -> &[T]
    ensures front { result.now ≡ take most items.now }
    ensures few { length result.now ≤ most }
{
    &items[..items.len().min(most)]
}

/// The first 129 octets of a text: one more than a userDescription may have, so that a text too long is refused.
#[tactic(auto, unfolding(crate::specs::Values::description_at))]
pub(crate) fn description_at(table: &Table, key: &str) -> ArrayVec<u8, 129>
    ensures { result.items ≡ description_at key.now (table_view table.now) }
{
    let mut description = ArrayVec::new();
    if let Some(text) = text_at(table, key) {
        let _ = description.try_extend_from_slice(first_items(text.as_bytes(), 129));
    }
    description
}
