//! The CRC-32 of octets (IEEE 802.3, 3.2.9).

ghost use Rattle.std.specs.Prelude.{◌≡◌, ◌++◌};
ghost use Rattle.ptpm_seal.specs.Crc.{after, after_bit, after_four, after_octet, crc_of};

const POLYNOMIAL: u32 = 0xedb8_8320;

/// The CRC-32 of octets in two parts.
#[tactic(auto, using(crate::proofs::Remainders::after_append))]
pub fn crc32(front: &[u8], rest: &[u8]) -> u32
    ensures { result ≡ crc_of (front.now ++ rest.now) }
{
    u32::MAX - after(after(u32::MAX, front), rest)
}

/// The remainder after these octets too.
#[tactic(auto, unfolding(crate::specs::Crc::after))]
fn after(remainder: u32, octets: &[u8]) -> u32
    ensures { result ≡ after remainder octets.now }
{
    let mut remainder = remainder;
    for octet in octets {
        remainder = after_octet(remainder, *octet);
    }
    remainder
}

#[tactic(auto, unfolding(crate::specs::Crc::after_octet))]
fn after_octet(remainder: u32, octet: u8) -> u32
    ensures { result ≡ after_octet remainder octet }
{
    after_four(after_four(remainder ^ octet as u32))
}

fn after_four(remainder: u32) -> u32
    ensures { result ≡ after_four remainder }
{
    after_bit(after_bit(after_bit(after_bit(remainder))))
}

/// The remainder after one more bit.
#[tactic(auto, unfolding(crate::specs::Crc::after_bit))]
fn after_bit(remainder: u32) -> u32
    ensures { result ≡ after_bit remainder }
{
    if remainder % 2 == 1 {
        remainder >> 1 ^ POLYNOMIAL
    } else {
        remainder >> 1
    }
}
