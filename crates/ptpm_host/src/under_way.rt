//! A change that a clock has its device make once. It is in the clock's image. So the host asks its device after a save, and a
//! restart finds it.

ghost use Rattle.std.specs.Prelude.{◌≡◌, ◌≤◌, Some, length, take, true};
ghost use Rattle.ptpm_codec.specs.Layout.{message_octets};
ghost use Rattle.ptpm_codec.specs.Reading.{IsWellFormed, message_of};
ghost use Rattle.ptpm_codec.specs.declared.message.Message.{Message};
ghost use Rattle.ptpm_agent.specs.Turn.{numbered_from};
ghost use Rattle.ptpm_host.specs.Device.{IsAsked};
ghost use Rattle.ptpm_host.specs.UnderWay.{may_be_under_way};

use crate::device::Question;
use ptpm_codec::{View, message_size, view};
use ptpm_data::Request;
use ptpm_device::{Asked, is_change};

/// How many octets a SET or COMMAND has at most that a clock does not refuse: 54 before the dataField, and 130.
pub(crate) const MOST_OCTETS: usize = 184;

/// The SET or COMMAND that is under way, and the port that it came in at.
#[derive(Clone, Copy)]
pub(crate) struct UnderWay {
    pub port: u16,
    size: u16,
    octets: [u8; MOST_OCTETS],
    ghost inside: { size ≤ 184 },
    ghost change: { may_be_under_way (take size octets) ≡ true },
}

impl UnderWay {
    ghost use Rattle.ptpm_host.specs.SavingClock.{is_of_one_source};

    /// This message.
    #[tactic(auto, unfolding(crate::specs::UnderWay::may_be_under_way))]
    pub fn of(port: u16, message: &[u8]) -> UnderWay
        requires { may_be_under_way message.now ≡ true }
        ensures port { result.port ≡ port }
        ensures message { take result.size result.octets ≡ message.now }
    {
        let mut octets = [0; MOST_OCTETS];
        octets[..message.len()].copy_from_slice(message);
        UnderWay {
            port,
            size: message.len() as u16,
            octets,
        }
    }

    /// The message.
    pub fn message(&self) -> &[u8]
        ensures message { result.now ≡ take self.now.size self.now.octets }
        ensures change { may_be_under_way result.now ≡ true }
        ensures small { length result.now ≤ 184 }
    {
        &self.octets[..self.size as usize]
    }

    /// Whether a datagram has the same sourcePortIdentity.
    pub fn is_of_source(&self, datagram: &[u8]) -> bool
        ensures { result ≡ is_of_one_source (message_of datagram.now)
            (message_of (take self.now.size self.now.octets)) }
    {
        let Ok(message) = view(datagram) else {
            return false;
        };
        let Ok(under_way) = view(self.message()) else {
            return false;
        };
        message.source() == under_way.source()
    }

    /// What the device is asked.
    #[tactic(auto, unfolding(crate::specs::UnderWay::may_be_under_way))]
    pub fn question(&self) -> Question
        ensures { (v : Message) → message_of (take self.now.size self.now.octets) ≡ Some v
            → IsAsked (numbered_from v) result }
    {
        let Ok(message) = view(self.message()) else {
            unreachable!()
        };
        Question::of(&asked_by(&message))
    }
}

/// The message of a datagram, without what follows it.
pub(crate) fn first_message(datagram: &[u8]) -> &[u8]
    requires { IsWellFormed datagram.now }
    ensures { result.now ≡ message_octets datagram.now }
{
    &datagram[..message_size(datagram)]
}

/// Whether it is a SET or COMMAND that may be under way, and nothing after it.
#[tactic(auto, unfolding(crate::specs::UnderWay::may_be_under_way))]
pub(crate) fn may_be_under_way(octets: &[u8]) -> bool
    ensures { result ≡ may_be_under_way octets.now }
{
    if octets.len() > MOST_OCTETS {
        return false;
    }
    match view(octets) {
        Ok(message) => is_change(message.action()) && message_size(octets) == octets.len(),
        Err(_) => false,
    }
}

/// What a message asks, with its number, and of whom it is.
fn asked_by<'a>(message: &View<'a>) -> Asked<'a>
    ensures { result ≡ numbered_from message.now }
{
    Asked {
        manager: message.source(),
        number: message.number(),
        request: Request {
            action: message.action(),
            id: message.id(),
            port: message.target().port,
            octets: message.octets(),
        },
    }
}
