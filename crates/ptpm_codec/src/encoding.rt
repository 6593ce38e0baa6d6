//! Messages to octets: the canonical spelling, written in place.

ghost use Rattle.std.specs.Prelude.{◌≡◌, ◌+◌, ◌^◌, ◌<◌, ◌≤◌, ◌++◌, List, length, replicate, ℕ};
ghost use Rattle.arrayvec.specs.ArrayVec.{array_vec_len};
ghost use Rattle.byteorder.specs.Endian.{big_bytes};
ghost use Rattle.ptpm_codec.specs.Canonical.{canonical, error_status_octets, header_octets, management_octets, text_octets, tlv_octets};
ghost use Rattle.ptpm_codec.specs.Draft.{body_of};
ghost use Rattle.ptpm_codec.specs.Layout.{message_octets};
ghost use Rattle.ptpm_codec.specs.Message.{BodyFits, Fits, IsValid, IsValidBody, PortIdentityFits};
ghost use Rattle.ptpm_codec.specs.Spelling.{Spells};

use crate::buffers::{ZEROS, fit, put};
use crate::draft::{Draft, DraftBody};
use crate::places::{write_at, write_identity, write_u16};
use crate::ptp_text::{ptp_text_size, write_ptp_text};
use arrayvec::ArrayVec;

/// How many octets a message has at most (this project's profile).
pub const MESSAGE_OCTETS: usize = 1472;

/// How many octets come before the TLV.
pub(crate) const HEADER_OCTETS: usize = 48;

/// How many octets of a MANAGEMENT TLV come before the dataField.
const TLV_HEAD_OCTETS: usize = 6;

/// How many octets of an error status come before displayData.
const ERROR_HEAD_OCTETS: usize = 12;

/// Room for one message.
pub type Buffer = ArrayVec<u8, MESSAGE_OCTETS>;

/// Leaves the canonical spelling of a valid draft in the buffer, and nothing else: 54 to 1,472 octets. Free octets are sent
/// as this project's profile has them: minorVersionPTP 1, controlField 0x04, logMessageInterval 0x7F, all others 0; an empty text has no
/// displayData. Takes no memory.
#[tactic(auto, using(crate::proofs::OctetLaws::refilled))]
pub fn encode(draft: &Draft<'_>, buffer: &mut Buffer)
    requires { IsValid draft.now }
    ensures items { buffer.new.items ≡ canonical draft.now }
    ensures spells { (rest : List ℕ)
        → Spells draft.now (message_octets (buffer.new.items ++ rest)) }
    ensures fits { Fits draft.now }
{
    fit(buffer, HEADER_OCTETS + tlv_size(&draft.body));
    encode_in(draft, buffer.as_mut_slice());
}

/// Appends the canonical spelling of a valid draft; how many octets that is. The buffer has room for them after what it holds.
/// Takes no memory.
pub fn encode_behind<const N: usize>(draft: &Draft<'_>, buffer: &mut ArrayVec<u8, N>) -> usize
    requires valid { IsValid draft.now }
    requires room { array_vec_len buffer.old + 48 + length (tlv_octets draft.now.body) ≤ N }
    ensures items { buffer.new.items ≡ buffer.old.items ++ canonical draft.now }
    ensures size { result ≡ length (canonical draft.now) }
    ensures fits { Fits draft.now }
{
    let start = buffer.len();
    let size = HEADER_OCTETS + tlv_size(&draft.body);
    put(buffer, &ZEROS[..size]);
    encode_in(draft, &mut buffer.as_mut_slice()[start..]);
    size
}

/// Writes the canonical spelling of a valid draft over a place of its size.
#[inline(always)]
fn encode_in(draft: &Draft<'_>, place: &mut [u8])
    requires valid { IsValid draft.now }
    requires size { length place.old ≡ 48 + length (tlv_octets draft.now.body) }
    requires small { length place.old ≤ MESSAGE_OCTETS }
    ensures octets { place.new ≡ canonical draft.now }
    ensures spells { (rest : List ℕ) → Spells draft.now (message_octets (place.new ++ rest)) }
    ensures fits { Fits draft.now }
{
    let size = place.len() as u16;
    let (header, tlv) = place.split_at_mut(HEADER_OCTETS);
    header.copy_from_slice(&[0; HEADER_OCTETS]);
    write_header(header, draft, size);
    write_tlv(tlv, &draft.body);
}

/// Writes octets 0 to 47 of a draft's message, which is to have this size, over as many that are 0.
#[inline(always)]
pub(crate) fn write_header(header: &mut [u8], draft: &Draft<'_>, size: u16)
    requires blank { header.old ≡ replicate 48 0 }
    requires sdo { draft.now.sdo < 4096 }
    ensures octets { header.new ≡ header_octets draft.now size }
    ensures source { PortIdentityFits draft.now.source }
    ensures number { draft.now.number < 2 ^ 16 }
    ensures target { PortIdentityFits draft.now.target }
{
    write_at(header, 0, &[(draft.sdo / 256) as u8 * 16 + 0xd, 0x12]);
    write_u16(header, 2, size);
    write_at(header, 4, &[draft.domain, (draft.sdo % 256) as u8]);
    write_identity(header, 20, &draft.source);
    write_u16(header, 30, draft.number);
    write_u16(header, 32, 0x047f);
    write_identity(header, 34, &draft.target);
    let action = draft.body.action().code();
    write_at(header, 44, &[draft.starting_hops, draft.hops, action, 0]);
}

/// Writes the TLV of a body over as many octets as it takes.
#[inline(always)]
#[tactic(auto, unfolding(crate::specs::Canonical::tlv_octets))]
fn write_tlv(tlv: &mut [u8], body: &DraftBody<'_>)
    requires valid { IsValidBody (body_of body.now) }
    requires length { length tlv.old ≡ length (tlv_octets (body_of body.now)) }
    ensures octets { tlv.new ≡ tlv_octets (body_of body.now) }
    ensures fits { BodyFits (body_of body.now) }
{
    match body {
        DraftBody::Request { id, octets, .. } | DraftBody::Answer { id, octets, .. } => {
            write_management(tlv, *id, octets);
        }
        DraftBody::Fault {
            error,
            id,
            text,
            ..
        } => write_error_status(tlv, *error, *id, text),
    }
}

/// Writes a MANAGEMENT TLV.
#[inline(always)]
fn write_management(tlv: &mut [u8], id: u16, octets: &[u8])
    requires small { length octets.now ≤ 1418 }
    requires length { length tlv.old ≡ 6 + length octets.now }
    ensures octets { tlv.new ≡ management_octets id octets.now }
    ensures id { id < 2 ^ 16 }
{
    let (head, data_field) = tlv.split_at_mut(TLV_HEAD_OCTETS);
    write_management_head(head, id, octets.len() as u16);
    if !octets.is_empty() {
        data_field.copy_from_slice(octets);
    }
}

/// Writes a MANAGEMENT TLV up to its dataField, of this size.
#[inline(always)]
#[tactic(auto, using(crate::proofs::CanonicalLaws::numbers_written))]
pub(crate) fn write_management_head(head: &mut [u8], id: u16, size: u16)
    requires small { size ≤ 1418 }
    requires length { length head.old ≡ 6 }
    ensures octets { head.new ≡ big_bytes 2 0x0001 ++ big_bytes 2 (2 + size) ++ big_bytes 2 id }
    ensures id { id < 2 ^ 16 }
{
    write_u16(head, 0, 0x0001);
    write_u16(head, 2, 2 + size);
    write_u16(head, 4, id);
}

/// Writes a MANAGEMENT_ERROR_STATUS TLV. It is never inlined: most messages have none.
#[inline(never)]
fn write_error_status(tlv: &mut [u8], error: u16, id: u16, text: &[u8])
    requires small { length text.now ≤ 255 }
    requires length { length tlv.old ≡ 12 + length (text_octets text.now) }
    ensures octets { tlv.new ≡ error_status_octets error id text.now }
    ensures error { error < 2 ^ 16 }
    ensures id { id < 2 ^ 16 }
{
    let (head, display_data) = tlv.split_at_mut(ERROR_HEAD_OCTETS);
    write_error_head(head, error, id, text_size(text) as u16);
    write_text(display_data, text);
}

/// Writes an error status up to displayData, of this size.
pub(crate) fn write_error_head(head: &mut [u8], error: u16, id: u16, size: u16)
    requires small { size ≤ 256 }
    requires length { length head.old ≡ 12 }
    ensures octets { head.new
        ≡ big_bytes 2 0x0002 ++ big_bytes 2 (8 + size) ++ big_bytes 2 error ++ big_bytes 2 id
        ++ replicate 4 0 }
    ensures error { error < 2 ^ 16 }
    ensures id { id < 2 ^ 16 }
{
    head.copy_from_slice(&[0, 2, 0, 0, 0, 0, 0, 0, 0, 0, 0, 0]);
    write_u16(head, 2, 8 + size);
    write_u16(head, 4, error);
    write_u16(head, 6, id);
}

/// Writes displayData over as many octets as it takes: none for an empty text.
#[tactic(auto, using(crate::proofs::OctetLaws::ptp_text_size), unfolding(crate::specs::Canonical::text_octets))]
fn write_text(display_data: &mut [u8], text: &[u8])
    requires small { length text.now ≤ 255 }
    requires length { length display_data.old ≡ length (text_octets text.now) }
    ensures { display_data.new ≡ text_octets text.now }
{
    if !text.is_empty() {
        write_ptp_text(display_data, text);
    }
}

/// How many octets the TLV takes.
#[tactic(auto, unfolding(crate::specs::Canonical::tlv_octets))]
fn tlv_size(body: &DraftBody<'_>) -> usize
    requires { IsValidBody (body_of body.now) }
    ensures value { result ≡ length (tlv_octets (body_of body.now)) }
    ensures small { result ≤ 1424 }
{
    match body {
        DraftBody::Request { octets, .. } | DraftBody::Answer { octets, .. } => 6 + octets.len(),
        DraftBody::Fault { text, .. } => 12 + text_size(text),
    }
}

/// How many octets displayData takes.
#[tactic(auto, unfolding(crate::specs::Canonical::text_octets))]
fn text_size(text: &[u8]) -> usize
    requires { length text.now ≤ 255 }
    ensures value { result ≡ length (text_octets text.now) }
    ensures small { result ≤ 256 }
{
    if text.is_empty() {
        0
    } else {
        ptp_text_size(text)
    }
}
