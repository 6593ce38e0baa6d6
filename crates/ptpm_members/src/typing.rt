//! What a person types for a member's value.

ghost use Rattle.std.specs.Prelude.{◌≡◌, ◌+◌, ◌<◌, ◌≤◌, ◌≤ℤ◌, ◌^◌, ◌==◌, ◌∷◌, [], IfSome, neg_ℤ, option_map, pos};
ghost use Rattle.std.specs.Result.{result_ok};
ghost use Rattle.hex.specs.Hex.{decode_sized};
ghost use Rattle.ptpm_codec.specs.Layout.{octet};
ghost use Rattle.ptpm_data.specs.DataField.{i16_octets};
ghost use Rattle.ptpm_members.specs.Typed.{flag_of, mechanism_octet, nibble_of, number_up_to, octet_of, signed_number, typed, without_minus};

use crate::forms::Form;
use crate::number_names::Enumeration;
use arrayvec::ArrayVec;
use hex::FromHex;
use ptpm_codec::{put, put_u16};

/// The octets of a value that is typed.
pub(crate) type Octets = ArrayVec<u8, 2>;

/// The octets that a text means as a value of this form. `None` if it is none, or no SET has a member of this form.
#[tactic(auto, unfolding(crate::specs::Typed::typed, ptpm_data::specs::DataField::i8_octet))]
pub(crate) fn typed(form: Form, text: &str) -> Option<Octets>
    ensures { option_map (λ v. v.items) result ≡ typed form text.now }
{
    match form {
        Form::Unsigned(1) | Form::Hexadecimal(1) => Some(one_octet(octet_of(text)?)),
        Form::Signed(1) => Some(one_octet((signed_number(127, text)? as i8).cast_unsigned())),
        Form::Signed(2) => Some(two_octets(signed_number(32767, text)?)),
        Form::Flag(mask) => Some(one_octet(if flag_of(text)? { mask } else { 0 })),
        Form::EitherFlag => Some(one_octet(u8::from(flag_of(text)?))),
        Form::LowNibble => Some(one_octet(nibble_of(text)?)),
        Form::Named(Enumeration::DelayMechanism) => Some(one_octet(mechanism_octet(text)?)),
        _ => None,
    }
}

fn one_octet(octet: u8) -> Octets
    ensures { result.items ≡ octet ∷ [] }
{
    let mut octets = Octets::new();
    put(&mut octets, &[octet]);
    octets
}

/// An Integer16.
#[tactic(auto, unfolding(ptpm_data::specs::DataField::i16_octets))]
fn two_octets(number: i16) -> Octets
    ensures { result.items ≡ i16_octets number }
{
    let mut octets = Octets::new();
    put_u16(&mut octets, number.cast_unsigned());
    octets
}

/// The number that decimal digits, and nothing else, write, if it is at most this.
pub(crate) fn number_up_to(most: u64, text: &str) -> Option<u64>
    ensures value { result ≡ number_up_to most text.now }
    ensures small { IfSome result (λ n. n ≤ most) }
{
    if has_plus(text) {
        return None;
    }
    match u64::from_str_radix(text, 10) {
        Ok(number) => (number <= most).then_some(number),
        Err(_) => None,
    }
}

fn has_plus(text: &str) -> bool
    ensures { result ≡ (octet 0 text.now == 43) }
{
    match text.as_bytes() {
        [first, ..] => *first == b'+',
        [] => false,
    }
}

/// A number of one octet that a person types: in decimal, or `0x` and two hexadecimal digits.
#[tactic(auto, unfolding(crate::specs::Typed::octet_of))]
pub fn octet_of(text: &str) -> Option<u8>
    ensures { result ≡ octet_of text.now }
{
    match text.as_bytes() {
        [b'0', b'x' | b'X', digits @ ..] => hexadecimal_octet(digits),
        _ => Some(number_up_to(255, text)? as u8),
    }
}

/// A number of four bits, typed as one of an octet.
fn nibble_of(text: &str) -> Option<u8>
    ensures { result ≡ nibble_of text.now }
{
    match octet_of(text) {
        Some(octet) => (octet < 16).then_some(octet),
        None => None,
    }
}

/// The octet that two hexadecimal digits write.
fn hexadecimal_octet(digits: &[u8]) -> Option<u8>
    ensures { result ≡ option_map (octet 0) (result_ok (decode_sized digits.now 1)) }
{
    let [octet] = <[u8; 1] as FromHex>::from_hex(digits).ok()?;
    Some(octet)
}

/// A number from minus this, and one less, to this: in decimal, after a minus if it is negative.
#[tactic(auto, unfolding(crate::specs::Typed::signed_number))]
fn signed_number(most: u16, text: &str) -> Option<i16>
    requires { most < 2 ^ 15 }
    ensures value { result ≡ signed_number most text.now }
    ensures low { IfSome result (λ z. neg_ℤ (pos (most + 1)) ≤ℤ z) }
    ensures high { IfSome result (λ z. z ≤ℤ pos most) }
{
    match without_minus(text) {
        Some(digits) => Some(negative(number_up_to(u64::from(most) + 1, digits)?)),
        None => Some(number_up_to(u64::from(most), text)? as i16),
    }
}

/// What follows a minus, if one comes first.
fn without_minus(text: &str) -> Option<&str>
    ensures { option_map (λ s. s.now) result ≡ without_minus text.now }
{
    text.strip_prefix('-')
}

/// The number below zero of this size.
fn negative(size: u64) -> i16
    requires { size ≤ 2 ^ 15 }
    ensures { result ≡ neg_ℤ (pos size) }
{
    (-(size as i32)) as i16
}

/// A flag that a person types: `true` and `false` in either case, or 1 and 0.
#[tactic(auto, unfolding(crate::specs::Typed::flag_of))]
pub fn flag_of(text: &str) -> Option<bool>
    ensures { result ≡ flag_of text.now }
{
    if text.eq_ignore_ascii_case("true") {
        Some(true)
    } else if text.eq_ignore_ascii_case("false") {
        Some(false)
    } else {
        Some(number_up_to(1, text)? == 1)
    }
}

/// A delay mechanism's number: by its name in either case, or a number of one octet.
#[tactic(auto, unfolding(crate::specs::Typed::mechanism_octet))]
fn mechanism_octet(text: &str) -> Option<u8>
    ensures { result ≡ mechanism_octet text.now }
{
    match Enumeration::DelayMechanism.number_of(text) {
        Some(number) => Some(number),
        None => octet_of(text),
    }
}
