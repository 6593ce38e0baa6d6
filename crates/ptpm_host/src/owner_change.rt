//! A change at the device itself, at a clock as a host keeps it.

ghost use Rattle.std.specs.Prelude.{◌≡◌, IfOk, MatchResult, None, OnErr, OnOk, Some};
ghost use Rattle.ptpm_codec.specs.Reading.{message_of};
ghost use Rattle.ptpm_data.specs.Changed.{changed};
ghost use Rattle.ptpm_host.specs.Changing.{IsChangedHere, change_refusal, is_target, moves_domain, moves_domain_in, request_here};

use crate::clock::HostedClock;
use crate::refusal::ChangeRefusal;
use crate::session::asked_action;
use ptpm_codec::{Action, PortIdentity, is_data_field, view};
use ptpm_data::{ChangedMembers, DataSets, Request, Rights};
use ptpm_device::{change_here, is_change};

/// The managementId of the clock's domainNumber (15.5.2.3).
const DOMAIN: u16 = 0x2007;

impl HostedClock {
    /// Carries out a SET or a COMMAND of the device's owner, as one of a manager with every right. Answers which members have
    /// another value after it. What is kept of each manager stays. So a copy of its latest request still gets the reply of its
    /// time. If it is refused, nothing changes. Takes no memory.
    pub fn change_here(
        &mut self,
        action: u8,
        id: u16,
        port: u16,
        octets: &[u8],
    ) -> Result<ChangedMembers, ChangeRefusal>
        ensures changed { OnOk result
            (IsChangedHere (request_here action id port octets.now) self.old self.new) }
        ensures members { IfOk result
            (λ members. members ≡ changed self.old.agent.sets self.new.agent.sets) }
        ensures table { self.new.agent.table ≡ self.old.agent.table }
        ensures under_way { self.new.under_way ≡ self.old.under_way }
        ensures refusal { MatchResult result
            (λ _. change_refusal (request_here action id port octets.now) self.old ≡ None)
            (λ e. change_refusal (request_here action id port octets.now) self.old ≡ Some e) }
        ensures unchanged { OnErr result (self.new ≡ self.old) }
    {
        let action = asked_action(action);
        if !is_target(port, self.agent.sets()) {
            return Err(ChangeRefusal::NoPort);
        }
        if !is_change(action) {
            return Err(ChangeRefusal::NotPermitted);
        }
        if !is_data_field(octets) {
            return Err(ChangeRefusal::BadValue);
        }
        let request = Request {
            action,
            id,
            port,
            octets,
        };
        if self.under_way.is_some() && moves_domain(&request) {
            return Err(ChangeRefusal::UnderWay);
        }
        let members = self.agent.sets().changes_of(&request, Rights::ALL);
        match change_here(&mut self.agent, &request) {
            Ok(()) => Ok(members),
            Err(error) => Err(ChangeRefusal::Refused(error)),
        }
    }
}

/// Whether it is a SET of DOMAIN.
fn moves_domain(request: &Request<'_>) -> bool
    ensures { result ≡ moves_domain request.now }
{
    request.action == Action::Set && request.id == DOMAIN
}

/// Whether a datagram asks for one.
pub(crate) fn asks_to_move(datagram: &[u8]) -> bool
    ensures { result ≡ moves_domain_in (message_of datagram.now) }
{
    let Ok(message) = view(datagram) else {
        return false;
    };
    message.action() == Action::Set && message.id() == DOMAIN
}

/// Whether a target's portNumber means every port, or one of these data sets.
fn is_target(port: u16, sets: &DataSets) -> bool
    ensures { result ≡ is_target port sets.now }
{
    port == PortIdentity::EVERY_PORT || sets.has_port(port)
}
