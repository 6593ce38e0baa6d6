//! Which members a numbered request changes, known before it is carried out (this project's profile). Only the members that
//! its id names are compared, and nothing is copied.

ghost use Rattle.std.specs.Prelude.{◌≡◌, ◌≤◌, ◌<◌, ◌+◌, ◌^◌, ℕ, Some, false, if◌then◌else◌, length, replicate, true};
ghost use Rattle.ptpm_data.specs.Changed.{changed, clock_changed, members_changed};
ghost use Rattle.ptpm_data.specs.Changes.{IsTargetOf, IsTargetPort, applied, changed_by, commanded, is_named, set_members, with_ports, with_precedence, with_utc_properties};
ghost use Rattle.ptpm_data.specs.ManagementId.{set_of};
ghost use Rattle.ptpm_data.specs.PortChange.{port_after};
ghost use Rattle.ptpm_data.specs.Refusals.{is_length, is_set_length};

use crate::changed::{ChangedMembers, ClockMembers, PortMembers, differ, number_of, texts_differ};
use crate::changes::set_utc_properties;
use crate::data_sets::{DataSets, PortDataSet};
use crate::management_id::{Layout, by_id};
use crate::port_change::PortChange;
use crate::ports::PORTS;
use crate::precedence_change::PrecedenceChange;
use crate::refusals::refusal;
use crate::request::Request;
use crate::rights::Rights;
use ptpm_codec::{Action, PortIdentity, text_of_ptp_text};

impl ClockMembers {
    /// These if their values differ, else none.
    fn if_differ(self, differ: bool) -> ClockMembers
        ensures { result.0 ≡ (if differ then self.0 else 0) }
    {
        if differ { self } else { ClockMembers::NONE }
    }

    /// These, with the others if these are shown there too.
    fn and_if(self, is_shown: bool, others: ClockMembers) -> ClockMembers
        requires { self.0 + others.0 < 2 ^ 32 }
        ensures { result.0 ≡ (if is_shown then self.0 + others.0 else self.0) }
    {
        if is_shown {
            ClockMembers(self.0 + others.0)
        } else {
            self
        }
    }
}

impl ChangedMembers {
    /// Members of the clock alone.
    fn of_clock(clock: ClockMembers) -> ChangedMembers
        ensures { result ≡ record { clock = clock; ports = replicate PORTS (record { 0 = 0 }) } }
    {
        ChangedMembers {
            clock,
            ports: [PortMembers::NONE; PORTS],
        }
    }
}

impl PortDataSet {
    /// The members of the port that a change would change.
    fn changes_of(&self, change: PortChange) -> PortMembers
        ensures { result ≡ members_changed (Some self.now) (Some (port_after change self.now)) }
    {
        let mut after = *self;
        after.change(change);
        after.changed_since(self)
    }
}

/// The places of the ports that a target port means, among this number of ports: from the first on, and before the second.
fn named_places(port: u16, count: u16) -> (u16, u16)
    requires { IsTargetOf port count }
    ensures within { (result.0 ≤ result.1) × (result.1 ≤ count) }
    ensures named { (n : ℕ) → result.0 ≤ n → n < result.1 → is_named port (n + 1) ≡ true }
    ensures before { (n : ℕ) → n < result.0 → is_named port (n + 1) ≡ false }
    ensures after { (n : ℕ) → result.1 ≤ n → n < count → is_named port (n + 1) ≡ false }
{
    if port == PortIdentity::EVERY_PORT {
        (0, count)
    } else {
        (port - 1, port)
    }
}

impl DataSets {
    /// Which members a numbered request of a manager with these rights would change: those whose values would differ. Takes no
    /// memory.
    pub fn changes_of(&self, request: &Request<'_>, rights: Rights) -> ChangedMembers
        requires { IsTargetPort request.now.port self.now }
        ensures { result ≡ changed self.now (changed_by request.now rights self.now) }
    {
        match request.action {
            Action::Get => ChangedMembers::NONE,
            _ => self.changes_of_id(request, rights),
        }
    }

    /// The same by what the table says of its id.
    fn changes_of_id(&self, request: &Request<'_>, rights: Rights) -> ChangedMembers
        requires { IsTargetPort request.now.port self.now }
        ensures { result ≡ changed self.now (changed_by request.now rights self.now) }
    {
        let Some(row) = by_id(request.id) else {
            return ChangedMembers::NONE;
        };
        match refusal(&row, request, rights) {
            None => self.changes_at(row.layout, request),
            Some(_) => ChangedMembers::NONE,
        }
    }

    /// The same for a request that is not refused.
    fn changes_at(&self, layout: Layout, request: &Request<'_>) -> ChangedMembers
        requires length { is_length request.now.action (set_of layout) request.now.octets ≡ true }
        requires port { IsTargetPort request.now.port self.now }
        ensures { result ≡ changed self.now (applied layout request.now request.now.action self.now) }
    {
        match request.action {
            Action::Set => self.changes_of_set(layout, request.port, request.octets),
            Action::Command => self.changes_of_command(layout, request.port),
            _ => ChangedMembers::NONE,
        }
    }

    #[tactic(auto, unfolding(crate::specs::Changes::set_members, crate::specs::Refusals::is_set_length, crate::specs::ManagementId::set_of))]
    fn changes_of_set(&self, layout: Layout, port: u16, octets: &[u8]) -> ChangedMembers
        requires length { is_set_length (set_of layout) octets.now ≡ true }
        requires port { IsTargetPort port self.now }
        ensures { result ≡ changed self.now (set_members layout port octets.now self.now) }
    {
        match layout {
            Layout::UserDescription => self.changes_of_description(text_of_ptp_text(octets)),
            Layout::Priority1 => self.changes_of_precedence(PrecedenceChange::Priority1(octets[0])),
            Layout::Priority2 => self.changes_of_precedence(PrecedenceChange::Priority2(octets[0])),
            Layout::ClockAccuracy => self.changes_of_precedence(PrecedenceChange::ClockAccuracy(
                octets[0],
            )),
            Layout::Domain => self.changes_of_domain(octets[0]),
            Layout::UtcProperties => self.changes_of_utc(octets),
            Layout::Setting(setting) => {
                self.changes_of_ports(port, PortChange::Setting(setting, octets[0]))
            }
            _ => ChangedMembers::NONE,
        }
    }

    #[tactic(auto, unfolding(crate::specs::Changes::commanded))]
    fn changes_of_command(&self, layout: Layout, port: u16) -> ChangedMembers
        requires { IsTargetPort port self.now }
        ensures { result ≡ changed self.now (commanded layout port self.now) }
    {
        match layout {
            Layout::EnablePort => self.changes_of_ports(port, PortChange::Enable),
            Layout::DisablePort => self.changes_of_ports(port, PortChange::Disable),
            _ => ChangedMembers::NONE,
        }
    }

    fn changes_of_description(&self, text: &[u8]) -> ChangedMembers
        ensures { result ≡ changed self.now (record self.now { description = text.now }) }
    {
        let differ = texts_differ(self.description.text(), text);
        ChangedMembers::of_clock(ClockMembers::USER_DESCRIPTION.if_differ(differ))
    }

    fn changes_of_domain(&self, domain: u8) -> ChangedMembers
        ensures { result
            ≡ changed self.now (record self.now { default = record self.now.default { domain = domain } }) }
    {
        let differ = differ(&self.domain(), &domain);
        ChangedMembers::of_clock(ClockMembers::DOMAIN.if_differ(differ))
    }

    fn changes_of_precedence(&self, change: PrecedenceChange) -> ChangedMembers
        ensures { result ≡ changed self.now (with_precedence self.now change) }
    {
        ChangedMembers::of_clock(self.precedence_members(change))
    }

    /// In a clock that is its own grandmaster the grandmaster's member has the same value (9.3.5, table 30).
    fn precedence_members(&self, change: PrecedenceChange) -> ClockMembers
        ensures { result ≡ clock_changed self.now (with_precedence self.now change) }
    {
        let own = &self.default.precedence;
        let is_shown = self.parent.grandmaster == self.default.identity;
        match change {
            PrecedenceChange::Priority1(priority) => ClockMembers::PRIORITY1
                .and_if(is_shown, ClockMembers::GRANDMASTER_PRIORITY1)
                .if_differ(differ(&own.priority1, &priority)),
            PrecedenceChange::Priority2(priority) => ClockMembers::PRIORITY2
                .and_if(is_shown, ClockMembers::GRANDMASTER_PRIORITY2)
                .if_differ(differ(&own.priority2, &priority)),
            PrecedenceChange::ClockAccuracy(accuracy) => ClockMembers::CLOCK_ACCURACY
                .and_if(is_shown, ClockMembers::GRANDMASTER_ACCURACY)
                .if_differ(differ(&own.accuracy, &accuracy)),
        }
    }

    fn changes_of_utc(&self, octets: &[u8]) -> ChangedMembers
        requires { length octets.now ≡ 4 }
        ensures { result ≡ changed self.now (record self.now { time = with_utc_properties self.now.time octets.now }) }
    {
        let mut after = self.time;
        set_utc_properties(&mut after, octets);
        let digits = [
            differ(&self.time.utc_offset, &after.utc_offset),
            differ(&self.time.leap61, &after.leap61),
            differ(&self.time.leap59, &after.leap59),
            differ(&self.time.utc_valid, &after.utc_valid),
        ];
        ChangedMembers::of_clock(ClockMembers(number_of(&digits) * ClockMembers::UTC_OFFSET.0))
    }

    fn changes_of_ports(&self, port: u16, change: PortChange) -> ChangedMembers
        requires { IsTargetPort port self.now }
        ensures { result ≡ changed self.now (with_ports port self.now change) }
    {
        let sets = self.port_sets();
        let (first, end) = named_places(port, self.port_count());
        let mut ports = [PortMembers::NONE; PORTS];
        for place in first..end {
            ports[place as usize] = sets[place as usize].changes_of(change);
        }
        ChangedMembers {
            clock: ClockMembers::NONE,
            ports,
        }
    }
}
