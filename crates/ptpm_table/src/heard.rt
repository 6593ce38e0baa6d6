//! What a reply takes from the copy of the request that it answers.

use ptpm_codec::PortIdentity;

/// The fields of a heard request that its reply repeats or counts (15.4.1).
#[derive(Clone, Copy, Debug, PartialEq, Eq)]
pub struct Heard {
    /// domainNumber, which the reply has too.
    pub domain: u8,
    /// sourcePortIdentity, the reply's target.
    pub source: PortIdentity,
    /// sequenceId, which the reply has too.
    pub number: u16,
    /// startingBoundaryHops.
    pub starting_hops: u8,
    /// boundaryHops, as received.
    pub hops: u8,
}
