//! What a session is set up with, as a host in C lays it out.

ghost use Rattle.std.specs.Prelude.{◌≡◌, MatchResult, None, OnOk, Some};
ghost use Rattle.ptpm_manager.specs.Setup.{IsSetup};
ghost use Rattle.ptpm_host.specs.SessionSettings.{manager_port, session_refusal, setup_of, target_clock};

use crate::refusal::SessionRefusal;
use crate::settings::NO_IDENTITY;
use ptpm_codec::{ClockIdentity, PortIdentity};
use ptpm_manager::TARGET_PORTS;

/// One manager, the clock that it manages, and how its requests are numbered and sent.
#[repr(C)]
#[derive(Clone, Copy)]
pub struct SessionSettings {
    /// portNumber of the manager.
    pub port: u16,
    /// How many ports the managed clock has at most, 1 to 255.
    pub target_ports: u16,
    /// The sequenceId of the first request.
    pub first: u16,
    /// clockIdentity of the manager, not all ones.
    pub clock: [u8; 8],
    /// clockIdentity of the managed clock, another one, and neither all ones nor all zeros.
    pub target: [u8; 8],
    /// domainNumber.
    pub domain: u8,
    /// startingBoundaryHops of each request.
    pub hops: u8,
    /// How often a request may be sent before it is given up.
    pub attempts: u8,
}

const _: () = prove!(size_of::<SessionSettings>() == 26);

impl SessionSettings {
    /// The manager.
    pub(crate) fn manager(&self) -> PortIdentity
        ensures { result ≡ manager_port self.now }
    {
        PortIdentity {
            clock: ClockIdentity(self.clock),
            port: self.port,
        }
    }

    /// Why no session has these settings, if none has.
    pub(crate) fn judge(&self) -> Result<(), SessionRefusal>
        ensures refusal { MatchResult result (λ _. session_refusal self.now ≡ None)
            (λ e. session_refusal self.now ≡ Some e) }
        ensures setup { OnOk result (IsSetup (setup_of self.now)) }
    {
        let me = self.manager();
        let target = self.target();
        if me.clock == ClockIdentity::EVERY {
            return Err(SessionRefusal::ManagerIsEvery);
        }
        if target == ClockIdentity::EVERY {
            return Err(SessionRefusal::TargetIsEvery);
        }
        if me.clock == target {
            return Err(SessionRefusal::SameClock);
        }
        if self.target_ports < 1 {
            return Err(SessionRefusal::NoPorts);
        }
        if self.target_ports > TARGET_PORTS {
            return Err(SessionRefusal::TooManyPorts);
        }
        if target == NO_IDENTITY {
            return Err(SessionRefusal::TargetIsZero);
        }
        Ok(())
    }

    /// The clock that it manages.
    pub(crate) fn target(&self) -> ClockIdentity
        ensures { result ≡ target_clock self.now }
    {
        ClockIdentity(self.target)
    }
}
