//! The text of a member's value.

ghost use Rattle.std.specs.Prelude.{◌≡◌, ◌<◌, [], ◌∷◌, ◌++◌, codes, decimal, false, Some};
ghost use Rattle.std.specs.Fmt.{digit_glyph, sign_text, signed_decimal};
ghost use Rattle.std.specs.Int.{is_negative};
ghost use Rattle.ptpm_members.specs.NumberNames.{enumeration_text};
ghost use Rattle.ptpm_members.specs.Values.{HasValue, said};
ghost use Rattle.ptpm_members.specs.ValueText.{clocks_text, escape, flag_name, fraction_digits, hexadecimal, interval_text, octets_text, quality_text, said_text, shown_octet, shown_text, space_before, value_text};
ghost use Rattle.ptpm_codec.specs.Identity.{clock_identity_text, octet_text, port_identity_text};

use crate::formatted::Formatted;
use crate::forms::Form;
use crate::number_names::Enumeration;
use crate::text_sink::TextSink;
use crate::values::{ClockQuality, MemberValue, value_in};
use itoa::Buffer;
use ptpm_codec::{ClockIdentity, PortIdentity};
use std::fmt;

/// Puts the value of a member whose octets come first.
pub(crate) fn push_value<T: TextSink>(form: Form, octets: &[u8], sink: &mut T)
    requires { HasValue form octets.now }
    ensures { T.pushed sink.old (value_text form octets.now) sink.new }
{
    match form {
        Form::Hexadecimal(size) => push_hexadecimal_number(&octets[..usize::from(size)], sink),
        _ => push_said(value_in(form, octets), sink),
    }
}

/// Puts a value; a number without a sign in decimal.
fn push_said<T: TextSink>(value: MemberValue<'_>, sink: &mut T)
    ensures { T.pushed sink.old (said_text (said value.entry)) sink.new }
{
    match value {
        MemberValue::Unsigned(number) => push_unsigned(number, sink),
        MemberValue::Signed(number) => push_signed(number, sink),
        MemberValue::Flag(flag) => sink.push_str(flag_name(flag)),
        MemberValue::Interval(interval) => push_interval(interval, sink),
        MemberValue::Clock(clock) => push_clock_identity(&clock, sink),
        MemberValue::Port(port) => push_port_identity(&port, sink),
        MemberValue::Named(enumeration, number) => push_named(enumeration, number, sink),
        MemberValue::Quality(quality) => push_quality(quality, sink),
        MemberValue::Text(octets) => push_text(octets, sink),
        MemberValue::Octets(octets) => push_octets_text(octets, sink),
        MemberValue::Clocks(octets) => push_clocks(octets, sink),
    }
}

/// A value without its form: a number is in decimal.
impl fmt::Display for MemberValue<'_> {
    ghost output = { λ value. Some (said_text (said value)) };

    fn fmt<W: fmt::Write>(&self, f: &mut fmt::Formatter<W>) -> fmt::Result {
        let mut sink = Formatted {
            formatter: f,
            result: Ok(()),
        };
        push_said(*self, &mut sink);
        sink.result
    }
}

fn push_unsigned<T: TextSink>(number: u64, sink: &mut T)
    ensures { T.pushed sink.old (decimal number) sink.new }
{
    let mut buffer = Buffer::new();
    sink.push_str(buffer.format(number));
}

fn push_signed<T: TextSink>(number: i64, sink: &mut T)
    ensures { T.pushed sink.old (signed_decimal number) sink.new }
{
    let mut buffer = Buffer::new();
    sink.push_str(buffer.format(number));
}

fn push_hexadecimal_number<T: TextSink>(octets: &[u8], sink: &mut T)
    ensures { T.pushed sink.old (codes "0x" ++ hexadecimal octets.now) sink.new }
{
    sink.push_str("0x");
    push_hexadecimal(octets, sink);
}

/// Each octet in two hexadecimal digits, in lower case.
#[tactic(auto, unfolding(crate::specs::ValueText::hexadecimal))]
pub(crate) fn push_hexadecimal<T: TextSink>(octets: &[u8], sink: &mut T)
    ensures { T.pushed sink.old (hexadecimal octets.now) sink.new }
{
    for octet in octets {
        push_digits(*octet, sink);
    }
}

/// An octet in two hexadecimal digits, in lower case.
fn push_digits<T: TextSink>(octet: u8, sink: &mut T)
    ensures { T.pushed sink.old (octet_text octet) sink.new }
{
    push_digit(octet / 16, sink);
    push_digit(octet % 16, sink);
}

/// A hexadecimal digit in lower case.
fn push_digit<T: TextSink>(digit: u8, sink: &mut T)
    requires { digit < 16 }
    ensures { T.pushed sink.old (digit_glyph false digit ∷ []) sink.new }
{
    sink.push_ascii(if digit < 10 {
        b'0' + digit
    } else {
        b'a' + (digit - 10)
    });
}

#[tactic(auto, unfolding(ptpm_codec::specs::Identity::clock_identity_text, crate::specs::ValueText::hexadecimal))]
fn push_clock_identity<T: TextSink>(clock: &ClockIdentity, sink: &mut T)
    ensures { T.pushed sink.old (clock_identity_text clock.now.0) sink.new }
{
    push_hexadecimal(&clock.0, sink);
}

#[tactic(auto, unfolding(ptpm_codec::specs::Identity::port_identity_text))]
fn push_port_identity<T: TextSink>(identity: &PortIdentity, sink: &mut T)
    ensures { T.pushed sink.old (port_identity_text identity.now) sink.new }
{
    push_clock_identity(&identity.clock, sink);
    sink.push_str("/");
    push_unsigned(u64::from(identity.port), sink);
}

/// A TimeInterval in nanoseconds, with all digits of their fraction.
#[tactic(auto, unfolding(crate::specs::ValueText::interval_text))]
fn push_interval<T: TextSink>(interval: i64, sink: &mut T)
    ensures { T.pushed sink.old (interval_text interval) sink.new }
{
    let size = interval.unsigned_abs();
    push_sign(interval, sink);
    push_unsigned(size / 65536, sink);
    sink.push_str(".");
    push_fraction(16, (size % 65536) as u32, sink);
}

/// A minus before a number below 0.
fn push_sign<T: TextSink>(number: i64, sink: &mut T)
    ensures { T.pushed sink.old (sign_text (is_negative number)) sink.new }
{
    if number < 0 {
        sink.push_str("-");
    }
}

/// The decimal digits of `number` 65536ths, at most `digits` of them.
#[tactic(auto, unfolding(crate::specs::ValueText::fraction_digits))]
fn push_fraction<T: TextSink>(digits: u8, number: u32, sink: &mut T)
    requires { number < 65536 }
    ensures { T.pushed sink.old (fraction_digits digits number) sink.new }
{
    if digits == 0 {
        return;
    }
    push_unsigned(u64::from(number * 10 / 65536), sink);
    match number * 10 % 65536 {
        0 => {}
        rest => push_fraction(digits - 1, rest, sink),
    }
}

/// The name of a number, or the number in hexadecimal if it has none.
#[tactic(auto, unfolding(crate::specs::NumberNames::enumeration_text))]
pub(crate) fn push_named<T: TextSink>(enumeration: Enumeration, number: u8, sink: &mut T)
    ensures { T.pushed sink.old (enumeration_text enumeration number) sink.new }
{
    match enumeration.name_of(number) {
        Some(name) => sink.push_str(name),
        None => push_hexadecimal_octet(number, sink),
    }
}

/// clockClass, clockAccuracy and offsetScaledLogVariance.
fn push_quality<T: TextSink>(quality: ClockQuality, sink: &mut T)
    ensures { T.pushed sink.old (quality_text quality) sink.new }
{
    sink.push_str("class ");
    push_unsigned(u64::from(quality.class), sink);
    sink.push_str(" accuracy 0x");
    push_digits(quality.accuracy, sink);
    sink.push_str(" variance 0x");
    push_digits((quality.variance / 256) as u8, sink);
    push_digits((quality.variance % 256) as u8, sink);
}

/// An octet in hexadecimal, after `0x`.
fn push_hexadecimal_octet<T: TextSink>(number: u8, sink: &mut T)
    ensures { T.pushed sink.old (codes "0x" ++ octet_text number) sink.new }
{
    sink.push_str("0x");
    push_digits(number, sink);
}

/// A text, in which an octet that is no printable character of ASCII, and a backslash, is `\x` and two hexadecimal digits.
#[tactic(auto, unfolding(crate::specs::ValueText::shown_text))]
fn push_text<T: TextSink>(text: &[u8], sink: &mut T)
    ensures { T.pushed sink.old (shown_text text.now) sink.new }
{
    for octet in text {
        push_shown(*octet, sink);
    }
}

fn push_shown<T: TextSink>(octet: u8, sink: &mut T)
    ensures { T.pushed sink.old (shown_octet octet) sink.new }
{
    if (0x20..=0x7e).contains(&octet) && octet != b'\\' {
        sink.push_ascii(octet);
    } else {
        push_escape(octet, sink);
    }
}

/// An octet as an escape: a backslash, an x and two hexadecimal digits.
fn push_escape<T: TextSink>(octet: u8, sink: &mut T)
    ensures { T.pushed sink.old (escape octet) sink.new }
{
    sink.push_str("\\x");
    push_digits(octet, sink);
}

fn flag_name(flag: bool) -> &'static str
    ensures { result.now ≡ flag_name flag }
{
    if flag { "true" } else { "false" }
}

/// Octets in hexadecimal, or a dash if there is none.
pub(crate) fn push_octets_text<T: TextSink>(octets: &[u8], sink: &mut T)
    ensures { T.pushed sink.old (octets_text octets.now) sink.new }
{
    match octets {
        [] => sink.push_str("-"),
        _ => push_hexadecimal(octets, sink),
    }
}

/// The identities of clocks, with a space between two of them.
#[tactic(auto, unfolding(crate::specs::ValueText::clocks_text))]
fn push_clocks<T: TextSink>(octets: &[u8], sink: &mut T)
    ensures { T.pushed sink.old (clocks_text octets.now) sink.new }
{
    if let [_, _, _, _, _, _, _, _, ..] = octets {
        let (clock, more) = octets.split_at(8);
        push_hexadecimal(clock, sink);
        push_space(more, sink);
        push_clocks(more, sink);
    }
}

/// A space before an identity, if there is one.
fn push_space<T: TextSink>(more: &[u8], sink: &mut T)
    ensures { T.pushed sink.old (space_before more.now) sink.new }
{
    if more.len() >= 8 {
        sink.push_str(" ");
    }
}
