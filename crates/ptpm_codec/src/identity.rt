//! Who sends a message, and who is meant by it.

ghost use Rattle.std.specs.Prelude.{◌≡◌, Some, bytes_eq};
ghost use Rattle.std.specs.Cmp.{on_per, partial_equiv_from_equiv};
ghost use Rattle.std.specs.Cmp.Lexicographic.{nat_list_eq_equiv};
ghost use Rattle.ptpm_codec.specs.Identity.{clock_identity_text, port_identity_text, same_clock};

use std::fmt;

/// The eight octets that name a clock (5.3.4).
#[derive(Clone, Copy, Debug, Eq, PartialOrd, Ord, Hash)]
pub struct ClockIdentity(pub [u8; 8]);

/// The same eight octets.
impl PartialEq for ClockIdentity {
    ghost eq = { same_clock };

    ghost laws = { on_per (λ c. c.0) (partial_equiv_from_equiv nat_list_eq_equiv) };

    fn eq(&self, other: &ClockIdentity) -> bool {
        same_octets(self.0, other.0)
    }
}

/// Whether eight octets are the same as others. They are read as one number each, so that one step compares them.
fn same_octets(a: [u8; 8], b: [u8; 8]) -> bool
    ensures { result ≡ bytes_eq a b }
{
    u64::from_be_bytes(a) == u64::from_be_bytes(b)
}

impl ClockIdentity {
    /// All ones: every clock is meant (15.3.1).
    pub const EVERY: ClockIdentity = ClockIdentity([0xff; 8]);
}

/// A port of a clock (5.3.5). Port 0xFFFF means every port (15.3.1).
#[derive(Clone, Copy, Debug, PartialEq, Eq, PartialOrd, Ord, Hash)]
pub struct PortIdentity {
    pub clock: ClockIdentity,
    pub port: u16,
}

impl PortIdentity {
    /// The portNumber that means every port.
    pub const EVERY_PORT: u16 = 0xffff;
}

/// Sixteen hexadecimal digits in lower case.
impl fmt::Display for ClockIdentity {
    ghost output = { λ c. Some (clock_identity_text c.0) };

    fn fmt<W: fmt::Write>(&self, f: &mut fmt::Formatter<W>) -> fmt::Result {
        for octet in &self.0 {
            write!(f, "{octet:02x}")?;
        }
        Ok(())
    }
}

/// The clock, a slash, and the port in decimal.
impl fmt::Display for PortIdentity {
    ghost output = { λ p. Some (port_identity_text p) };

    #[tactic(auto, unfolding(crate::specs::Identity::port_identity_text))]
    fn fmt<W: fmt::Write>(&self, f: &mut fmt::Formatter<W>) -> fmt::Result {
        write!(f, "{}/{}", self.clock, self.port)
    }
}
