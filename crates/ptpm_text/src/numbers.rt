//! Numbers as scripts and network files write them.

ghost use Rattle.std.specs.Prelude.{◌≡◌, ◌<◌};
ghost use Rattle.ptpm_text.specs.Numbers.{decimal, decimal_up_to, four_digits};

/// The number that decimal digits write, at least one and at most ten.
#[tactic(auto, unfolding(crate::specs::Numbers::decimal))]
fn decimal(text: &str) -> Option<u64>
    ensures { result ≡ decimal text.now }
{
    if text.is_empty() || text.len() > 10 {
        return None;
    }
    let mut number = 0;
    for octet in text.as_bytes() {
        if !matches!(octet, b'0'..=b'9') {
            return None;
        }
        number = number * 10 + (*octet - b'0') as u64;
    }
    Some(number)
}

/// The number that decimal digits write, if it is at most this limit.
pub fn decimal_up_to(most: u64, text: &str) -> Option<u64>
    ensures { result ≡ decimal_up_to most text.now }
{
    decimal(text).filter(|number| *number <= most)
}

/// A decimal number of one octet.
pub fn decimal_u8(text: &str) -> Option<u8>
    ensures { result ≡ decimal_up_to 255 text.now }
{
    Some(decimal_up_to(0xff, text)? as u8)
}

/// The number below 65,536 that one to ten decimal digits write, for example a portNumber. Nothing may come before them.
pub fn decimal_u16(text: &str) -> Option<u16>
    ensures { result ≡ decimal_up_to 65535 text.now }
{
    Some(decimal_up_to(0xffff, text)? as u16)
}

/// The number that four hexadecimal digits write.
#[tactic(auto, unfolding(crate::specs::Numbers::four_digits))]
pub(crate) fn four_digits(text: &str) -> Option<u16>
    ensures { result ≡ four_digits text.now }
{
    let mut octets = [0, 0];
    hex::decode_to_slice(text, &mut octets).ok()?;
    Some(octets[0] as u16 * 256 + octets[1] as u16)
}
