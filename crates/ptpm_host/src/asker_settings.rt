//! What an asker is set up with, as a host in C lays it out.

ghost use Rattle.std.specs.Prelude.{◌≡◌, MatchResult, None, OnOk, Some};
ghost use Rattle.ptpm_asker.specs.Asker.{AreSettings};
ghost use Rattle.ptpm_host.specs.Asker.{asker_refusal, asker_settings};

use crate::refusal::SessionRefusal;
use crate::session_settings::SessionSettings;
use ptpm_asker::Settings;

/// One manager, the clock that it asks, and how long is waited. Times are in milliseconds.
#[repr(C)]
#[derive(Clone, Copy)]
pub struct AskerSettings {
    /// `first` is the number that a session without a file tries first, drawn at random. The domain is not read.
    pub session: SessionSettings,
    /// The portNumber of the manager's clock at which nobody manages, another one than the manager's.
    pub nobody: u16,
    /// How long an answer is waited for before a request is sent again.
    pub timeout: u32,
    /// How long a new session waits, longer than any copy is on its way.
    pub wait: u32,
}

const _: () = prove!(size_of::<AskerSettings>() == 36);

impl AskerSettings {
    /// Why no asker has these settings, if none has.
    pub(crate) fn judge(&self) -> Result<(), SessionRefusal>
        ensures refusal { MatchResult result (λ _. asker_refusal self.now ≡ None)
            (λ e. asker_refusal self.now ≡ Some e) }
        ensures settings { OnOk result (AreSettings (asker_settings self.now)) }
    {
        self.session.judge()?;
        if self.nobody == self.session.port {
            return Err(SessionRefusal::NobodyIsManager);
        }
        Ok(())
    }

    /// What the asker is set up with.
    pub(crate) fn settings(&self) -> Settings
        ensures { result ≡ asker_settings self.now }
    {
        Settings {
            me: self.session.manager(),
            target: self.session.target(),
            ports: self.session.target_ports,
            hops: self.session.hops,
            nobody: self.nobody,
            attempts: self.session.attempts,
            timeout: u64::from(self.timeout),
            wait: u64::from(self.wait),
        }
    }
}
