//! Which domain a clock is in.

use ptpm_codec::View;
use std::fmt;

/// A domain: domainNumber and sdoId (IEEE 1588-2019, 7.1). Clocks of two domains do not hear each other. They are ordered by
/// domainNumber, and then by sdoId.
#[derive(Clone, Copy, PartialEq, Eq, PartialOrd, Ord)]
pub struct Domain(u32);

impl Domain {
    /// The domain with this domainNumber and sdoId.
    pub fn of(number: u8, sdo: u16) -> Domain {
        Domain(u32::from(number) * 65_536 + u32::from(sdo))
    }

    /// The domain that a message is of.
    pub fn of_message(message: &View<'_>) -> Domain {
        Domain::of(message.domain(), message.sdo())
    }

    /// domainNumber.
    pub fn number(self) -> u8 {
        (self.0 / 65_536 % 256) as u8
    }

    /// sdoId: majorSdoId times 256 plus minorSdoId.
    pub fn sdo(self) -> u16 {
        (self.0 % 65_536) as u16
    }
}

impl fmt::Display for Domain {
    /// `4` with sdoId 0, and else `4@0x100`.
    fn fmt<W: fmt::Write>(&self, f: &mut fmt::Formatter<W>) -> fmt::Result {
        write!(f, "{}", self.number())?;
        if self.sdo() != 0 {
            write!(f, "@0x{:03x}", self.sdo())?;
        }
        Ok(())
    }
}
