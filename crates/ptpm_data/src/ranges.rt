//! What a form of a SET allows: the ranges that a start and a SET keep to (this project's profile).

ghost use Rattle.std.specs.Prelude.{◌≡◌};
ghost use Rattle.std.specs.Str.{is_utf8};
ghost use Rattle.ptpm_data.specs.Ranges.{allows_integer, allows_octet, allows_text};
ghost use Rattle.ptpm_data.specs.SetForm.{set_field};

use crate::port_state::DelayMechanism;
use std::str;

/// The form of a SET's dataField (15.5.3). A reserved octet may follow its octets.
#[derive(Clone, Copy, Debug, PartialEq, Eq)]
pub(crate) enum SetForm {
    /// The id has no SET.
    NoSet,
    /// No octet.
    Empty,
    /// A PTPText of at most this number of octets, which are UTF-8.
    TextUpTo(u8),
    AnyOctet,
    /// An octet of a range.
    FromTo(u8, u8),
    /// An octet of a range, or one value more.
    FromToOr(u8, u8, u8),
    /// The number of a delay mechanism.
    MechanismNumber,
    /// An Integer8, from minus the first number to the second.
    MinusTo(u8, u8),
    /// UTC_PROPERTIES: at most one of its two leap flags is set.
    NotBothLeaps,
}

/// Whether the octets are UTF-8.
#[tactic(auto, using(crate::proofs::DescriptionLaws::is_utf8_laws))]
fn is_utf8(octets: &[u8]) -> bool
    ensures { result ≡ is_utf8 octets.now }
{
    match str::from_utf8(octets) {
        Ok(_) => true,
        Err(_) => false,
    }
}

impl SetForm {
    pub(crate) fn allows_text(self, text: &[u8]) -> bool
        ensures { result ≡ allows_text (set_field self) text.now }
    {
        match self {
            SetForm::TextUpTo(limit) => text.len() <= limit as usize && is_utf8(text),
            _ => false,
        }
    }

    #[inline(always)]
    pub(crate) fn allows_octet(self, octet: u8) -> bool
        ensures { result ≡ allows_octet (set_field self) octet }
    {
        match self {
            SetForm::AnyOctet => true,
            SetForm::FromTo(low, high) => low <= octet && octet <= high,
            SetForm::FromToOr(low, high, other) => {
                low <= octet && octet <= high || octet == other
            }
            SetForm::MechanismNumber => DelayMechanism::from_number(octet).is_some(),
            _ => false,
        }
    }

    #[inline(always)]
    pub(crate) fn allows_integer(self, number: i8) -> bool
        ensures { result ≡ allows_integer (set_field self) number }
    {
        match self {
            SetForm::MinusTo(low, high) => {
                -(low as i16) <= number as i16 && number as i16 <= high as i16
            }
            _ => false,
        }
    }
}
