//! What a survey asks, as a host in C lays it out.

ghost use Rattle.std.specs.Prelude.{◌≡◌};
ghost use Rattle.ptpm_host.specs.SurveySettings.{surveying_port};

use ptpm_codec::{ClockIdentity, PortIdentity};

/// The portNumber that a survey has if its host gives none: 0 is no port's. No session has it (this project's profile).
pub const SURVEY_PORT: u16 = 65_534;

/// One manager, and the GET that it sends to every port of every clock, or of one.
#[repr(C)]
#[derive(Clone, Copy)]
pub struct SurveySettings {
    /// portNumber of the manager; 0 for `SURVEY_PORT`.
    pub port: u16,
    /// The sequenceId of the GET.
    pub number: u16,
    /// managementId.
    pub id: u16,
    /// clockIdentity of the manager, not all ones.
    pub clock: [u8; 8],
    /// domainNumber.
    pub domain: u8,
    /// startingBoundaryHops.
    pub hops: u8,
}

const _: () = prove!(size_of::<SurveySettings>() == 16);

impl SurveySettings {
    /// The manager.
    pub(crate) fn manager(&self) -> PortIdentity
        ensures { result ≡ surveying_port self.now }
    {
        PortIdentity {
            clock: ClockIdentity(self.clock),
            port: if self.port == 0 {
                SURVEY_PORT
            } else {
                self.port
            },
        }
    }
}
