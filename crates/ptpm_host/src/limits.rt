//! The values that a clock's hardware has (this project's profile), and what they say of what its device is asked.

ghost use Rattle.std.specs.Prelude.{◌≡◌, ◌<◌, ◌==◌, ◌||◌, neg_ℤ, pos, ℕ};
ghost use Rattle.ptpm_host.specs.Limits.{has_first_value, has_none, has_value, is_between, is_beyond, is_denied, is_limit_of, is_of_range, limits_say};

use crate::device::Question;

/// Every port.
const EVERY_PORT: u16 = 0xffff;

/// The actionField of a SET, and of a COMMAND.
const SET: u8 = 1;

const COMMAND: u8 = 3;

/// managementErrorIds (IEEE 1588-2019, 15.5.4.3).
const WRONG_VALUE: u16 = 4;

const NOT_SETABLE: u16 = 5;

const NOT_SUPPORTED: u16 = 6;

/// The values of an id that the hardware has at a port.
#[repr(C)]
#[derive(Clone, Copy)]
pub struct Limit {
    /// managementId.
    pub id: u16,
    /// portNumber. 0xFFFF is every port.
    pub port: u16,
    /// Of the first octet of the dataField of a SET, value n is bit n % 8 of octet n / 8.
    pub values: [u8; 32],
}

const _: () = prove!(size_of::<Limit>() == 36);

impl Limit {
    /// Leaves exactly the values of this range; none if it is not within -128 to 255. A number below 0 has the octet of
    /// an Integer8.
    pub fn set_range(&mut self, least: i32, most: i32)
        ensures id { self.new.id ≡ self.old.id }
        ensures port { self.new.port ≡ self.old.port }
        ensures values { (n : ℕ) → n < 256
            → has_value n self.new.values ≡ is_of_range least most n }
    {
        self.values = [0; 32];
        for octet in 0..256 {
            if is_of_range(least, most, octet) {
                self.put(octet);
            }
        }
    }

    /// Puts a value among its values.
    fn put(&mut self, octet: usize)
        requires { octet < 256 }
        ensures id { self.new.id ≡ self.old.id }
        ensures port { self.new.port ≡ self.old.port }
        ensures values { (n : ℕ) → n < 256
            → has_value n self.new.values ≡ (n == octet || has_value n self.old.values) }
    {
        self.values[octet / 8] |= 1 << (octet % 8);
    }

    fn has_value(&self, octet: u8) -> bool
        ensures { result ≡ has_value octet self.now.values }
    {
        let place = octet as usize;
        self.values[place / 8] >> (place % 8) & 1 == 1
    }

    fn has_none(&self) -> bool
        ensures { result ≡ has_none self.now.values }
    {
        self.values.iter().all(|octet| *octet == 0)
    }

    /// Whether it is of what is asked, and of a port that this names.
    fn is_of(&self, asked: &Question) -> bool
        ensures { result ≡ is_limit_of asked.now self.now }
    {
        self.id == asked.id
            && (self.port == EVERY_PORT || asked.port == EVERY_PORT || self.port == asked.port)
    }
}

/// Whether an octet is of a number of this range, which is within -128 to 255.
fn is_of_range(least: i32, most: i32, octet: usize) -> bool
    requires { octet < 256 }
    ensures { result ≡ is_of_range least most octet }
{
    let number = octet as i32;
    is_number(least)
        && is_number(most)
        && (least <= number && number <= most || least <= number - 256 && number - 256 <= most)
}

/// Whether an octet can be of this number.
fn is_number(number: i32) -> bool
    ensures { result ≡ is_between (neg_ℤ (pos 128)) (pos 255) number }
{
    -128 <= number && number <= 255
}

/// The managementErrorId that these limits say of what a device is asked. It is NOT_SETABLE of a SET, and NOT_SUPPORTED of a COMMAND,
/// if a limit has no value. Otherwise it is WRONG_VALUE if a limit lacks the value of a SET, and 0 if none does.
pub fn limits_say(limits: &[Limit], asked: &Question) -> u16
    ensures { result ≡ limits_say asked.now limits.now }
{
    match asked.action {
        COMMAND if is_denied(limits, asked) => NOT_SUPPORTED,
        SET if is_denied(limits, asked) => NOT_SETABLE,
        SET if has_first_value(asked.id) && is_beyond(limits, asked) => WRONG_VALUE,
        _ => 0,
    }
}

/// Whether a limit of what is asked has no value.
fn is_denied(limits: &[Limit], asked: &Question) -> bool
    ensures { result ≡ is_denied asked.now limits.now }
{
    limits
        .iter()
        .any(|limit| limit.is_of(asked) && limit.has_none())
}

/// Whether a limit of what is asked lacks the value of a SET.
fn is_beyond(limits: &[Limit], asked: &Question) -> bool
    ensures { result ≡ is_beyond asked.now limits.now }
{
    limits.iter().any(|limit| limit.is_of(asked) && !limit.has_value(asked.octets[0]))
}

/// Whether the first octet of a SET of this id is a value. It is none of NULL_PTP_MANAGEMENT, USER_DESCRIPTION and UTC_PROPERTIES.
fn has_first_value(id: u16) -> bool
    ensures { result ≡ has_first_value id }
{
    !matches!(id, 0x0000 | 0x0002 | 0x2011)
}
