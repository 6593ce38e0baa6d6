//! How much a network may have (this project's profile).

use ptpm_data::INLINE_PORTS;

/// The octets of a network file.
pub const TEXT_OCTETS: usize = 262_144;

/// The clocks of a network.
pub const CLOCKS: usize = 64;

/// The ports of a clock: as many as `DataSets::new` takes.
pub const CLOCK_PORTS: u16 = INLINE_PORTS as u16;

/// The sessions of a network.
pub const SESSIONS: usize = 256;

/// The links of a network.
pub const LINKS: usize = 256;

/// The sessions whose target is one clock.
pub const MANAGERS: usize = 16;

/// The ends of a link, at least.
pub const LEAST_ENDS: usize = 2;

/// The ends of a link, at most.
pub const MOST_ENDS: usize = 16;
