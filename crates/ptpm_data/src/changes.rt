//! What an accepted request changes (clause 15).

ghost use Rattle.std.specs.Prelude.{◌≡◌, true, length};
ghost use Rattle.ptpm_data.specs.Changes.{IsTargetOf, named_changed, with_utc_properties};
ghost use Rattle.ptpm_data.specs.PortChange.{is_change_in_range, port_after};
ghost use Rattle.ptpm_data.specs.PrecedenceChange.{is_precedence_in_range};
ghost use Rattle.ptpm_data.specs.Ranges.{is_description};

use crate::data_sets::{DataSets, PortDataSet, TimePropertiesDataSet};
use crate::management_id::{Layout, ManagementIdRow};
use crate::port_change::PortChange;
use crate::precedence_change::PrecedenceChange;
use crate::refusals::refusal;
use crate::request::Request;
use crate::rights::Rights;
use crate::set_field::first_i16;
use ptpm_codec::{Action, ErrorId, PortIdentity, text_of_ptp_text};

impl DataSets {
    ghost use Rattle.ptpm_data.specs.ManagementId.{row_value, set_of};
    ghost use Rattle.ptpm_data.specs.Changes.{applied, commanded, IsTargetPort, set_members, unless_refused, with_precedence, with_ports};
    ghost use Rattle.ptpm_data.specs.Refusals.{row_refusal, is_length, is_set_length, is_set_value, is_value};

    /// Carries out a request for an id of the table, unless it is refused; a refused one changes no member. The answer is why
    /// it is refused.
    #[inline(always)]
    #[tactic(auto, using(crate::proofs::Keeping::carry_out_laws))]
    pub(crate) fn carry_out(
        &mut self,
        row: &ManagementIdRow,
        request: &Request<'_>,
        rights: Rights,
    ) -> Option<ErrorId>
        requires { IsTargetPort request.now.port self.old }
        ensures refusal { result ≡ row_refusal (row_value row.now) request.now rights }
        ensures changed { self.new
            ≡ unless_refused result
            (applied row.now.layout request.now request.now.action self.old) self.old }
        ensures ports { length self.new.ports ≡ length self.old.ports }
    {
        let refusal = refusal(row, request, rights);
        if refusal.is_none() {
            self.apply(row.layout, request);
        }
        refusal
    }

    fn apply(&mut self, layout: Layout, request: &Request<'_>)
        requires length { is_length request.now.action (set_of layout) request.now.octets ≡ true }
        requires value { is_value request.now.action (set_of layout) request.now.octets ≡ true }
        requires port { IsTargetPort request.now.port self.old }
        ensures { self.new ≡ applied layout request.now request.now.action self.old }
    {
        match request.action {
            Action::Set => self.set_members(layout, request.port, request.octets),
            Action::Command => self.command(layout, request.port),
            _ => {}
        }
    }

    #[tactic(auto, unfolding(crate::specs::Changes::set_members, crate::specs::Refusals::is_set_length, crate::specs::Refusals::is_set_value, crate::specs::Ranges::is_description, crate::specs::ManagementId::set_of))]
    fn set_members(&mut self, layout: Layout, port: u16, octets: &[u8])
        requires length { is_set_length (set_of layout) octets.now ≡ true }
        requires value { is_set_value (set_of layout) octets.now ≡ true }
        requires port { IsTargetPort port self.old }
        ensures { self.new ≡ set_members layout port octets.now self.old }
    {
        match layout {
            Layout::UserDescription => self.set_description(text_of_ptp_text(octets)),
            Layout::Priority1 => self.change_precedence(PrecedenceChange::Priority1(octets[0])),
            Layout::Priority2 => self.change_precedence(PrecedenceChange::Priority2(octets[0])),
            Layout::ClockAccuracy => self.change_precedence(PrecedenceChange::ClockAccuracy(
                octets[0],
            )),
            Layout::Domain => self.default.domain = octets[0],
            Layout::UtcProperties => set_utc_properties(&mut self.time, octets),
            Layout::Setting(setting) => {
                self.change_ports(port, PortChange::Setting(setting, octets[0]));
            }
            _ => {}
        }
    }

    #[tactic(auto, unfolding(crate::specs::Changes::commanded))]
    fn command(&mut self, layout: Layout, port: u16)
        requires { IsTargetPort port self.old }
        ensures { self.new ≡ commanded layout port self.old }
    {
        match layout {
            Layout::EnablePort => self.change_ports(port, PortChange::Enable),
            Layout::DisablePort => self.change_ports(port, PortChange::Disable),
            _ => {}
        }
    }

    #[tactic(auto, unfolding(crate::specs::Ranges::is_description, crate::specs::ManagementId::set_of))]
    fn set_description(&mut self, text: &[u8])
        requires { is_description text.now ≡ true }
        ensures { self.new ≡ record self.old { description = text.now } }
    {
        self.description.set(text);
    }

    /// In a clock that is its own grandmaster the grandmaster's member changes with its own (9.3.5, table 30).
    fn change_precedence(&mut self, change: PrecedenceChange)
        requires { is_precedence_in_range change ≡ true }
        ensures { self.new ≡ with_precedence self.old change }
    {
        if self.parent.grandmaster == self.default.identity {
            self.parent.precedence.change(change);
        }
        self.default.precedence.change(change);
    }

    fn change_ports(&mut self, port: u16, change: PortChange)
        requires port { IsTargetPort port self.old }
        requires range { is_change_in_range change ≡ true }
        ensures { self.new ≡ with_ports port self.old change }
    {
        self.ports.change(port, change);
    }
}

pub(crate) fn set_utc_properties(time: &mut TimePropertiesDataSet, octets: &[u8])
    requires { length octets.now ≡ 4 }
    ensures { time.new ≡ with_utc_properties time.old octets.now }
{
    let flags = octets[2];
    time.utc_offset = first_i16(octets);
    time.leap61 = flags & 1 == 1;
    time.leap59 = flags & 2 == 2;
    time.utc_valid = flags & 4 == 4;
}

/// Changes one port, or for 0xFFFF every port.
pub(crate) fn change_named(ports: &mut [PortDataSet], port: u16, change: PortChange)
    requires { IsTargetOf port (length ports.old) }
    ensures { ports.new ≡ named_changed port (port_after change) ports.old }
{
    if port == PortIdentity::EVERY_PORT {
        for set in ports {
            set.change(change);
        }
    } else {
        ports[port as usize - 1].change(change);
    }
}
