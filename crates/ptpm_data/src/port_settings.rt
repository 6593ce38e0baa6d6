//! The values of a port's settings, an octet each as PORT_DATA_SET has them. Contracts see them as the value of each.

ghost use Rattle.std.specs.Prelude.{◌≡◌};
ghost use Rattle.ptpm_data.specs.declared.port_setting.PortSetting.{PortSetting};
ghost use Rattle.ptpm_data.specs.PortSetting.{default_settings, octet_of, said_by, said_of, settings_octets, with_setting};
ghost use Rattle.ptpm_data.specs.Ranges.{is_in_range};

use crate::port_setting::PortSetting;
use std::marker::Model;

/// The settings of a port.
#[derive(Clone, Copy, Debug, PartialEq, Eq)]
pub struct PortSettings {
    octets: [u8; 5],
}

impl Model for PortSettings {
    ghost use Rattle.std.specs.Prelude.{ℤ};
    ghost use Rattle.ptpm_data.specs.declared.port_setting.PortSetting.{PortSetting};
    ghost use Rattle.ptpm_data.specs.PortSetting.{settings_code};

    ghost Value = { PortSetting → ℤ };

    ghost coded = { settings_code };

    ghost use Rattle.ptpm_data.specs.PortSettings.{AreFive, inside_back, settings_inside, settings_view};

    ghost view = { settings_view };

    ghost invariant = { AreFive };

    ghost inverse = { settings_inside };

    ghost inverse_ok = { inside_back };
}

impl PortSettings {
    /// Those that five octets say.
    pub(crate) fn of(octets: [u8; 5]) -> PortSettings
        ensures { result ≡ said_by octets }
    {
        PortSettings { octets }
    }

    /// Those of a port that starts with this profile's defaults.
    pub(crate) fn default() -> PortSettings
        ensures { result ≡ default_settings }
    {
        PortSettings::of([
            PortSetting::LogAnnounceInterval.default_octet(),
            PortSetting::AnnounceReceiptTimeout.default_octet(),
            PortSetting::LogSyncInterval.default_octet(),
            PortSetting::DelayMechanism.default_octet(),
            PortSetting::LogMinPdelayReqInterval.default_octet(),
        ])
    }

    /// The octet of one.
    #[inline(always)]
    #[tactic(auto, using(crate::proofs::SettingLemmas::octet_read))]
    pub fn octet(&self, setting: PortSetting) -> u8
        ensures { result ≡ octet_of (self.now setting) }
    {
        self.octets[setting.place()]
    }

    /// The octets of all, in order.
    #[inline(always)]
    #[tactic(auto, using(crate::proofs::SettingLemmas::octets_read))]
    pub(crate) fn octets(&self) -> [u8; 5]
        ensures { result ≡ settings_octets self.now }
    {
        self.octets
    }

    /// The value of one.
    pub fn value(&self, setting: PortSetting) -> i16
        ensures { result ≡ self.now setting }
    {
        setting.said_by(self.octets[setting.place()])
    }

    /// Whether one is in its range.
    pub(crate) fn is_in_range(&self, setting: PortSetting) -> bool
        ensures { result ≡ is_in_range setting (self.now setting) }
    {
        setting.allows(self.octets[setting.place()])
    }

    /// One is what this octet says from now on.
    #[inline(always)]
    pub(crate) fn set(&mut self, setting: PortSetting, octet: u8)
        ensures { self.new ≡ with_setting setting (said_of setting octet) self.old }
    {
        self.octets[setting.place()] = octet;
    }
}

/// An octet says each of a port's settings.
#[tactic(auto, using(crate::proofs::SettingLemmas::said_back))]
pub(crate) fn settings_law(settings: &PortSettings)
    ensures { (s : PortSetting) → said_of s (octet_of (settings.now s)) ≡ settings.now s }
{
    let _octets = &settings.octets;
}
