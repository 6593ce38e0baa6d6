//! Buffers of fixed size, appended to and written over.

ghost use Rattle.std.specs.Prelude.{◌≡◌, ◌≤◌, ◌+◌, ◌++◌, length};
ghost use Rattle.arrayvec.specs.ArrayVec.{array_vec_len};
ghost use Rattle.byteorder.specs.Endian.{big_bytes};

use crate::encoding::MESSAGE_OCTETS;
use arrayvec::ArrayVec;
use byteorder::{BigEndian, ByteOrder};

pub(crate) const ZEROS: &[u8; MESSAGE_OCTETS] = &[0; MESSAGE_OCTETS];

/// Appends a copy of these octets. The buffer has room for them after what it holds.
pub fn put<const N: usize>(buffer: &mut ArrayVec<u8, N>, octets: &[u8])
    requires { array_vec_len buffer.old + length octets.now ≤ N }
    ensures items { buffer.new.items ≡ buffer.old.items ++ octets.now }
    ensures len { array_vec_len buffer.new ≡ array_vec_len buffer.old + length octets.now }
{
    let _ = buffer.try_extend_from_slice(octets);
}

/// Appends a number as two octets, the most significant first. The buffer has room for two more.
pub fn put_u16<const N: usize>(buffer: &mut ArrayVec<u8, N>, number: u16)
    requires { array_vec_len buffer.old + 2 ≤ N }
    ensures items { buffer.new.items ≡ buffer.old.items ++ big_bytes 2 number }
    ensures len { array_vec_len buffer.new ≡ array_vec_len buffer.old + 2 }
{
    let mut octets = [0; 2];
    BigEndian::write_u16(&mut octets, number);
    put(buffer, &octets);
}

/// Leaves a copy of these octets in the buffer, and nothing else. They are no more than it has room for. If it has as many
/// octets already, they are written over in place.
pub fn overwrite<const N: usize>(buffer: &mut ArrayVec<u8, N>, octets: &[u8])
    requires { length octets.now ≤ N }
    ensures { buffer.new.items ≡ octets.now }
{
    if buffer.len() == octets.len() {
        buffer.as_mut_slice().copy_from_slice(octets);
    } else {
        resize_over(buffer, octets);
    }
}

/// What `overwrite` does if the size changes. Of what the buffer had, only what would stay past the copy is cleared first.
#[inline(never)]
fn resize_over<const N: usize>(buffer: &mut ArrayVec<u8, N>, octets: &[u8])
    requires { length octets.now ≤ N }
    ensures { buffer.new.items ≡ octets.now }
{
    buffer.truncate(octets.len());
    let (front, back) = octets.split_at(buffer.len());
    if !front.is_empty() {
        buffer.as_mut_slice().copy_from_slice(front);
    }
    if !back.is_empty() {
        let _ = buffer.try_extend_from_slice(back);
    }
}

/// What `overwrite` does, for a message. Most messages have one of a few sizes.
#[inline(always)]
pub fn overwrite_message<const N: usize>(buffer: &mut ArrayVec<u8, N>, message: &[u8])
    requires { length message.now ≤ N }
    ensures { buffer.new.items ≡ message.now }
{
    if buffer.len() == message.len() {
        copy_message(buffer.as_mut_slice(), message);
    } else {
        resize_over(buffer, message);
    }
}

/// Copies a message over as many octets. Most messages have one of these sizes, at which LLVM makes a few moves of the copy.
#[inline(always)]
pub fn copy_message(place: &mut [u8], message: &[u8])
    requires { length place.old ≡ length message.now }
    ensures { place.new ≡ message.now }
{
    match message.len() {
        54 => copy_array::<54>(place, message),
        56 => copy_array::<56>(place, message),
        80 => copy_array::<80>(place, message),
        _ => copy_any(place, message),
    }
}

/// The same of any size. It is never inlined, since its loop would take registers from the others.
#[inline(never)]
fn copy_any(place: &mut [u8], message: &[u8])
    requires { length place.old ≡ length message.now }
    ensures { place.new ≡ message.now }
{
    place.copy_from_slice(message);
}

/// What `copy_any` does, for a size given as a constant. All octets are read before any is written.
#[inline(always)]
fn copy_array<const N: usize>(place: &mut [u8], message: &[u8])
    requires place { length place.old ≡ N }
    requires message { length message.now ≡ N }
    ensures { place.new ≡ message.now }
{
    let Some(octets) = message.as_array::<N>() else {
        unreachable!()
    };
    let Some(place) = place.as_mut_array::<N>() else {
        unreachable!()
    };
    *place = *octets;
}

/// Leaves this number of octets in the buffer, whatever they are. If it had as many, none is written.
#[inline(always)]
pub(crate) fn fit<const N: usize>(buffer: &mut ArrayVec<u8, N>, size: usize)
    requires room { size ≤ N }
    requires small { size ≤ MESSAGE_OCTETS }
    ensures { array_vec_len buffer.new ≡ size }
{
    if buffer.len() != size {
        resize(buffer, size);
    }
}

/// What `fit` does if the size changes.
#[inline(never)]
fn resize<const N: usize>(buffer: &mut ArrayVec<u8, N>, size: usize)
    requires room { size ≤ N }
    requires small { size ≤ MESSAGE_OCTETS }
    ensures { array_vec_len buffer.new ≡ size }
{
    buffer.truncate(size);
    let missing = size - buffer.len();
    let _ = buffer.try_extend_from_slice(&ZEROS[..missing]);
}
