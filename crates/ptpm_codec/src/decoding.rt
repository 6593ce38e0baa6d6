//! Octets to messages: what is judged, in its order.

ghost use Rattle.std.specs.Prelude.{◌≡◌, ◌≢◌, ◌≤◌, true, Ok, Err, Some, None, IfErr, IfOk, IfSome, MatchResult, OnOk, OnSome, length};
ghost use Rattle.ptpm_codec.specs.declared.error.DecodeError.{DecodeError};
ghost use Rattle.ptpm_codec.specs.declared.message.Message.{Message};
ghost use Rattle.ptpm_codec.specs.Layout as layout;
ghost use Rattle.ptpm_codec.specs.Layout.{message_length, message_octets};
ghost use Rattle.ptpm_codec.specs.Message.{IsValid};
ghost use Rattle.ptpm_codec.specs.Reading.{IsOkUnlessMemory, IsViewed, IsWellFormed, reading};
ghost use Rattle.ptpm_codec.specs.Refusal.{frame_refusal, is_text, refusal, text_refusal};
ghost use Rattle.ptpm_codec.specs.Spelling.{Spells};

use crate::encoding::MESSAGE_OCTETS;
use crate::error::DecodeError;
use crate::message::{Action, Message};
use crate::places::u16_at;
use crate::ptp_text::is_ptp_text;
use crate::tlv::{TlvKind, management_action, tlv};
use crate::viewing::View;
use std::alloc::Global;

/// The first messageLength octets of a datagram.
#[tactic(auto, unfolding(crate::specs::Refusal::frame_refusal))]
fn message_octets(datagram: &[u8]) -> Result<&[u8], DecodeError>
    ensures refusal { MatchResult result (λ _. frame_refusal datagram.now ≡ None)
        (λ e. frame_refusal datagram.now ≡ Some e) }
    ensures octets { IfOk result (λ m. m.now ≡ message_octets datagram.now) }
    ensures long { IfOk result (λ m. 54 ≤ length m.now) }
    ensures whole { IfOk result (λ m. length m.now ≡ message_length datagram.now) }
{
    if datagram.len() < 54 {
        return Err(DecodeError::TooShort);
    }
    if datagram[0] % 16 != 0xd {
        return Err(DecodeError::NotManagement);
    }
    if datagram[1] % 16 != 2 {
        return Err(DecodeError::BadVersion);
    }
    let length = u16_at(datagram, 2) as usize;
    if length < 54 || datagram.len() < length || MESSAGE_OCTETS < length {
        return Err(DecodeError::BadLength);
    }
    Ok(&datagram[..length])
}

/// Whether displayData is absent or one PTPText with its pad.
fn is_text(display_data: &[u8]) -> bool
    ensures { result ≡ is_text display_data.now }
{
    display_data.is_empty() || is_ptp_text(display_data)
}

/// Judges the displayData of an error status.
#[tactic(auto, unfolding(crate::specs::Refusal::text_refusal))]
fn judge_text(message: &[u8], tlv: TlvKind) -> Result<(), DecodeError>
    requires { tlv ≡ TlvKind.ErrorStatus → 60 ≤ length message.now }
    ensures refusal { MatchResult result
        (λ _. text_refusal tlv (layout.display_data message.now) ≡ None)
        (λ e. text_refusal tlv (layout.display_data message.now) ≡ Some e) }
    ensures text { OnOk result
        (tlv ≡ TlvKind.ErrorStatus → is_text (layout.display_data message.now) ≡ true) }
{
    match tlv {
        TlvKind::Management => Ok(()),
        TlvKind::ErrorStatus => {
            let (_, display_data) = message.split_at(60);
            if is_text(display_data) {
                Ok(())
            } else {
                Err(DecodeError::BadText)
            }
        }
    }
}

/// Reads a datagram in place: the message value that its first messageLength octets spell, or the first refusal that
/// holds. Octets past messageLength are ignored (this project's profile). Takes no memory and copies nothing.
#[inline(always)]
pub fn view(datagram: &[u8]) -> Result<View<'_>, DecodeError>
    ensures exact { result ≡ reading datagram.now }

    // What is read is what the octets spell, and is a message value.
    ensures spelled { IfOk result (λ v. Spells v (message_octets datagram.now)) }
    ensures valid { IfOk result (λ v. IsValid v) }

    ensures well_formed { OnOk result (IsWellFormed datagram.now) }
    ensures refused { IfErr result (λ e. refusal datagram.now ≡ Some e) }
{
    let (action, tlv) = match plain_action(datagram) {
        Some(action) => (action, TlvKind::Management),
        None => any_action(datagram)?,
    };
    Ok(View::of(datagram, action, tlv))
}

/// The action of a well-formed message with a MANAGEMENT TLV, which every message except an error status has; nothing for any other
/// datagram. It does not say which refusal holds, so that most datagrams are read by the fewest tests.
#[inline(always)]
fn plain_action(datagram: &[u8]) -> Option<Action>
    ensures viewed { IfSome result
        (λ action. IsViewed (message_octets datagram.now) action TlvKind.Management) }
    ensures well_formed { OnSome result (IsWellFormed datagram.now) }
{
    let Ok(message) = message_octets(datagram) else {
        return None;
    };
    let tlv_type = u16_at(message, 48);
    let length_field = u16_at(message, 50);
    management_action(message[46] % 16, tlv_type, length_field, message.len())
}

/// The action of a well-formed message and the kind of its TLV, or the refusal that holds. It is never inlined, and its answer is small.
/// So a `View` is made once, in registers.
#[cold]
#[inline(never)]
fn any_action(datagram: &[u8]) -> Result<(Action, TlvKind), DecodeError>
    ensures viewed { IfOk result (λ read. IsViewed (message_octets datagram.now) read.0 read.1) }
    ensures well_formed { OnOk result (IsWellFormed datagram.now) }
    ensures refused { IfErr result (λ e. refusal datagram.now ≡ Some e) }
{
    let message = message_octets(datagram)?;
    let (action, tlv) = tlv(
        message[46] % 16,
        u16_at(message, 48),
        u16_at(message, 50),
        message.len(),
    )?;
    judge_text(message, tlv)?;
    Ok((action, tlv))
}

/// The message value that a datagram's first messageLength octets spell, with octets of its own, or the first refusal
/// that holds. Memory is asked for last, so that `OutOfMemory` is answered only for a well-formed message.
pub fn decode(alloc: Global, datagram: &[u8]) -> Result<Message, DecodeError>
    // What is decoded is what the octets spell, and is a message value.
    ensures spelled { IfOk result (λ v. Spells v (message_octets datagram.now)) }
    ensures valid { IfOk result (λ v. IsValid v) }

    // What is spelled is decoded, unless memory is refused.
    ensures decoded { (v : Message)
        → Spells v (message_octets datagram.now)
        → IsOkUnlessMemory result v }

    ensures well_formed { OnOk result (IsWellFormed datagram.now) }

    // A refusal is the first that holds.
    ensures refused { (e : DecodeError) → refusal datagram.now ≡ Some e → result ≡ Err e }
    ensures no_other { IfErr result
        (λ e. e ≢ DecodeError.OutOfMemory → refusal datagram.now ≡ Some e) }
{
    let view = view(datagram)?;
    match view.to_message(alloc) {
        Ok(message) => Ok(message),
        Err(_) => Err(DecodeError::OutOfMemory),
    }
}
