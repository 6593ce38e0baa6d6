//! What a clock starts with, as a host in C lays it out (clause 8; ranges and defaults are this project's profile).

ghost use Rattle.std.specs.Prelude.{◌≡◌, ◌==◌, IfOk, map, min};
ghost use Rattle.ptpm_codec.specs.declared.identity.ClockIdentity.{ClockIdentity};
ghost use Rattle.ptpm_data.specs.Start.{default_clock, default_port};
ghost use Rattle.ptpm_host.specs.Settings.{clock_start, default_identity, given, manager_of, parent_port, port_start, text};

use arrayvec::ArrayVec;
use ptpm_codec::{ClockIdentity, OutOfMemory, PortIdentity};
use ptpm_data::{ClockStart, PortStart, Rights};
use std::alloc::Global;

/// The clockIdentity that settings have until a host writes one. No clock starts with it. A manager may have it, like `pmc` at a
/// Unix socket.
pub(crate) const NO_IDENTITY: ClockIdentity = ClockIdentity([0; 8]);

/// The start values of a clock's own members, those with the strictest alignment first. A flag is set if it is not 0.
/// A flag `has_..` says whether a value is given: if it is not, the clock has its own value, and for `parent_port` its
/// port 0.
#[repr(C)]
#[derive(Clone, Copy)]
pub struct ClockSettings {
    /// A TimeInterval, in nanoseconds times 2^16.
    pub offset_from_master: i64,
    /// A TimeInterval, in nanoseconds times 2^16.
    pub mean_path_delay: i64,
    /// observedParentClockPhaseChangeRate.
    pub observed_rate: i32,
    /// offsetScaledLogVariance.
    pub variance: u16,
    pub steps_removed: u16,
    /// observedParentOffsetScaledLogVariance.
    pub observed_variance: u16,
    pub grandmaster_variance: u16,
    pub parent_port_number: u16,
    /// currentUtcOffset, in seconds.
    pub utc_offset: i16,
    /// clockIdentity, neither all ones nor all zeros.
    pub identity: [u8; 8],
    pub parent_port_clock: [u8; 8],
    pub grandmaster: [u8; 8],
    /// domainNumber.
    pub domain: u8,
    pub two_step: u8,
    pub priority1: u8,
    pub clock_class: u8,
    /// clockAccuracy: 0x17 to 0x31, or 0xFE.
    pub clock_accuracy: u8,
    pub priority2: u8,
    pub parent_stats: u8,
    pub grandmaster_priority1: u8,
    pub grandmaster_class: u8,
    pub grandmaster_accuracy: u8,
    pub grandmaster_priority2: u8,
    /// Not both `leap61` and `leap59`.
    pub leap61: u8,
    pub leap59: u8,
    pub utc_valid: u8,
    pub ptp_timescale: u8,
    pub time_traceable: u8,
    pub frequency_traceable: u8,
    pub time_source: u8,
    pub has_parent_port: u8,
    pub has_grandmaster: u8,
    pub has_grandmaster_priority1: u8,
    pub has_grandmaster_class: u8,
    pub has_grandmaster_accuracy: u8,
    pub has_grandmaster_variance: u8,
    pub has_grandmaster_priority2: u8,
    /// How many octets of `user_description` count: more than 128 is refused.
    pub user_description_size: u8,
    /// userDescription, of at most 128 octets of UTF-8.
    pub user_description: [u8; 129],
}

const _: () = prove!(size_of::<ClockSettings>() == 216);

/// The start values of a port.
#[repr(C)]
#[derive(Clone, Copy)]
pub struct PortSettings {
    /// A TimeInterval, in nanoseconds times 2^16.
    pub peer_delay: i64,
    /// portState, 1 to 9.
    pub state: u8,
    pub log_min_delay_req: i8,
    /// logAnnounceInterval, -4 to 4.
    pub log_announce: i8,
    /// announceReceiptTimeout, 2 to 10.
    pub receipt_timeout: u8,
    /// logSyncInterval, -8 to 1.
    pub log_sync: i8,
    /// delayMechanism, 1, 2 or 0xFE.
    pub delay_mechanism: u8,
    /// logMinPdelayReqInterval, -8 to 5.
    pub log_min_pdelay: i8,
}

const _: () = prove!(size_of::<PortSettings>() == 16);

/// A configured manager, and what it may change (this project's profile).
#[repr(C)]
#[derive(Clone, Copy)]
pub struct ManagerSettings {
    pub clock: [u8; 8],
    /// portNumber.
    pub port: u16,
    /// 1 CLOCK_SET, 2 PORT_SET, 4 PORT_COMMAND, or a sum of them.
    pub rights: u8,
}

const _: () = prove!(size_of::<ManagerSettings>() == 12);

impl ManagerSettings {
    /// The manager with its rights.
    pub(crate) fn manager(&self) -> (PortIdentity, Rights)
        ensures { result ≡ manager_of self.now }
    {
        let who = PortIdentity {
            clock: ClockIdentity(self.clock),
            port: self.port,
        };
        (who, Rights(self.rights))
    }
}

impl ClockSettings {
    /// A clock of identity 0 in domain 0 that is its own grandmaster, with no text and this profile's defaults.
    pub fn new() -> ClockSettings
        ensures { clock_start result ≡ default_clock default_identity 0 }
    {
        let start = ClockStart::new(NO_IDENTITY, 0);
        ClockSettings {
            offset_from_master: start.offset_from_master,
            mean_path_delay: start.mean_path_delay,
            observed_rate: start.observed_rate,
            variance: start.variance,
            steps_removed: start.steps_removed,
            observed_variance: start.observed_variance,
            grandmaster_variance: 0,
            parent_port_number: 0,
            utc_offset: start.utc_offset,
            identity: [0; 8],
            parent_port_clock: [0; 8],
            grandmaster: [0; 8],
            domain: start.domain,
            two_step: start.two_step as u8,
            priority1: start.priority1,
            clock_class: start.clock_class,
            clock_accuracy: start.clock_accuracy,
            priority2: start.priority2,
            parent_stats: start.parent_stats as u8,
            grandmaster_priority1: 0,
            grandmaster_class: 0,
            grandmaster_accuracy: 0,
            grandmaster_priority2: 0,
            leap61: start.leap61 as u8,
            leap59: start.leap59 as u8,
            utc_valid: start.utc_valid as u8,
            ptp_timescale: start.ptp_timescale as u8,
            time_traceable: start.time_traceable as u8,
            frequency_traceable: start.frequency_traceable as u8,
            time_source: start.time_source,
            has_parent_port: 0,
            has_grandmaster: 0,
            has_grandmaster_priority1: 0,
            has_grandmaster_class: 0,
            has_grandmaster_accuracy: 0,
            has_grandmaster_variance: 0,
            has_grandmaster_priority2: 0,
            user_description_size: 0,
            user_description: [0; 129],
        }
    }

    /// The start that they describe.
    pub(crate) fn start(&self) -> ClockStart
        ensures { result ≡ clock_start self.now }
    {
        ClockStart {
            identity: ClockIdentity(self.identity),
            domain: self.domain,
            user_description: self.text(),
            two_step: self.two_step != 0,
            priority1: self.priority1,
            clock_class: self.clock_class,
            clock_accuracy: self.clock_accuracy,
            variance: self.variance,
            priority2: self.priority2,
            steps_removed: self.steps_removed,
            offset_from_master: self.offset_from_master,
            mean_path_delay: self.mean_path_delay,
            parent_port: self.parent_port(),
            parent_stats: self.parent_stats != 0,
            observed_variance: self.observed_variance,
            observed_rate: self.observed_rate,
            grandmaster_priority1: given(
                self.has_grandmaster_priority1,
                self.grandmaster_priority1,
            ),
            grandmaster_class: given(self.has_grandmaster_class, self.grandmaster_class),
            grandmaster_accuracy: given(self.has_grandmaster_accuracy, self.grandmaster_accuracy),
            grandmaster_variance: given(self.has_grandmaster_variance, self.grandmaster_variance),
            grandmaster_priority2: given(
                self.has_grandmaster_priority2,
                self.grandmaster_priority2,
            ),
            grandmaster: given(self.has_grandmaster, ClockIdentity(self.grandmaster)),
            utc_offset: self.utc_offset,
            leap61: self.leap61 != 0,
            leap59: self.leap59 != 0,
            utc_valid: self.utc_valid != 0,
            ptp_timescale: self.ptp_timescale != 0,
            time_traceable: self.time_traceable != 0,
            frequency_traceable: self.frequency_traceable != 0,
            time_source: self.time_source,
        }
    }

    fn text(&self) -> ArrayVec<u8, 129>
        ensures { result.items ≡ text self.now }
    {
        let size = (self.user_description_size as usize).min(129);
        let mut text = ArrayVec::new();
        let _ = text.try_extend_from_slice(&self.user_description[..size]);
        text
    }

    fn parent_port(&self) -> Option<PortIdentity>
        ensures { result ≡ parent_port self.now }
    {
        given(
            self.has_parent_port,
            PortIdentity {
                clock: ClockIdentity(self.parent_port_clock),
                port: self.parent_port_number,
            },
        )
    }
}

impl PortSettings {
    /// A port that is MASTER, with this profile's defaults.
    pub fn new() -> PortSettings
        ensures { port_start result ≡ default_port }
    {
        let start = PortStart::new();
        PortSettings {
            peer_delay: start.peer_delay,
            state: start.state,
            log_min_delay_req: start.log_min_delay_req,
            log_announce: start.log_announce,
            receipt_timeout: start.receipt_timeout,
            log_sync: start.log_sync,
            delay_mechanism: start.delay_mechanism,
            log_min_pdelay: start.log_min_pdelay,
        }
    }

    /// The start that they describe.
    pub(crate) fn start(&self) -> PortStart
        ensures { result ≡ port_start self.now }
    {
        PortStart {
            state: self.state,
            log_min_delay_req: self.log_min_delay_req,
            peer_delay: self.peer_delay,
            log_announce: self.log_announce,
            receipt_timeout: self.receipt_timeout,
            log_sync: self.log_sync,
            delay_mechanism: self.delay_mechanism,
            log_min_pdelay: self.log_min_pdelay,
        }
    }
}

/// A value, if it is given.
pub(crate) fn given<T: Copy>(flag: u8, value: T) -> Option<T>
    ensures { result ≡ given flag value }
{
    if flag == 0 { None } else { Some(value) }
}

/// The starts of ports.
pub(crate) fn port_starts(
    alloc: Global,
    ports: &[PortSettings],
) -> Result<Vec<PortStart>, OutOfMemory>
    ensures { IfOk result (λ v. v.items ≡ map port_start ports.now) }
{
    let Ok(mut starts) = Vec::with_capacity(alloc, ports.len()) else {
        return Err(OutOfMemory);
    };
    for port in ports {
        starts.push_reserved(port.start());
    }
    Ok(starts)
}
