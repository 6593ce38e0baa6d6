//! A member that a plan asks for.

use crate::change::PlannedId;
use ptpm_codec::ClockIdentity;

/// A member of a clock, or of one of its ports.
#[derive(Clone, Copy)]
pub struct Subject {
    /// domainNumber of the clock.
    pub domain: u8,
    pub clock: ClockIdentity,
    /// The port's number; 0 if the member is of the clock.
    pub port: u16,
    pub id: PlannedId,
}
