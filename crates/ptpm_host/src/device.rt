//! What a clock's device is asked, and what it says, as a host in C has them.

ghost use Rattle.std.specs.Prelude.{◌≡◌, ◌≤◌, Err, IfOk, MatchResult, Ok, drop, length, take};
ghost use Rattle.ptpm_codec.specs.Message.{IsDataField};
ghost use Rattle.ptpm_device.specs.Saying.{IsGiven, said_value};
ghost use Rattle.ptpm_host.specs.Device.{AsksNothing, IsAsked, IsWanted, error_in, say_in};

use crate::refusal::SaidRefusal;
use ptpm_codec::{DATA_FIELD_OCTETS, ErrorId};
use ptpm_device::{Asked, DeviceSay};

/// The most octets of the dataField of a SET that a clock does not refuse.
const MOST_ASKED: usize = 130;

/// What a device is asked to do, or whose value it is asked for. All zeros if it is nothing.
#[repr(C)]
#[derive(Clone, Copy)]
pub struct Question {
    /// sourcePortIdentity of the request: the clock, and the port.
    pub manager: [u8; 8],
    pub manager_port: u16,
    /// sequenceId.
    pub number: u16,
    /// managementId.
    pub id: u16,
    /// portNumber of the target. 0xFFFF is every port.
    pub port: u16,
    /// How many octets the dataField has; 0 of a GET.
    pub size: u16,
    /// The actionField: that of a SET or of a COMMAND, or of a GET where a value is asked for.
    pub action: u8,
    /// The dataField, and zeros after it.
    pub octets: [u8; MOST_ASKED],
}

const _: () = prove!(size_of::<Question>() == 150);

impl Question {
    /// Nothing.
    pub fn nothing() -> Question
        ensures { AsksNothing result }
    {
        Question {
            manager: [0; 8],
            manager_port: 0,
            number: 0,
            id: 0,
            port: 0,
            size: 0,
            action: 0,
            octets: [0; MOST_ASKED],
        }
    }

    /// This change.
    pub(crate) fn of(change: &Asked<'_>) -> Question
        ensures { IsAsked change.now result }
    {
        let mut octets = [0; MOST_ASKED];
        let size = put_field(&mut octets, change.request.octets);
        Question {
            manager: change.manager.clock.0,
            manager_port: change.manager.port,
            number: change.number,
            id: change.request.id,
            port: change.request.port,
            size,
            action: change.request.action.code(),
            octets,
        }
    }

    /// This GET.
    pub(crate) fn of_value(get: &Asked<'_>) -> Question
        ensures { IsWanted get.now result }
    {
        Question {
            manager: get.manager.clock.0,
            manager_port: get.manager.port,
            number: get.number,
            id: get.request.id,
            port: get.request.port,
            size: 0,
            action: get.request.action.code(),
            octets: [0; MOST_ASKED],
        }
    }
}

/// What a datagram asks a device.
#[derive(Clone, Copy)]
pub enum Asking {
    Nothing,
    /// Whether it carries this out.
    Change(Question),
    /// The value of an id that the clock lacks.
    Value(Question),
}

/// Leaves a dataField at the head of a place, and answers how many octets it has; 0 if it doesn't fit.
fn put_field(place: &mut [u8; MOST_ASKED], field: &[u8]) -> u16
    ensures octets { length field.now ≤ 130 → take result place.new ≡ field.now }
    ensures inside { result ≤ 130 }
    ensures behind { drop result place.new ≡ drop result place.old }
{
    if MOST_ASKED < field.len() {
        return 0;
    }
    place[..field.len()].copy_from_slice(field);
    field.len() as u16
}

/// What a device says of a datagram. All zeros: it agrees, or has nothing to say.
#[repr(C)]
#[derive(Clone, Copy)]
pub struct Say {
    /// The managementErrorId with which it objects.
    pub error: u16,
    /// How many octets it gives: an even number, and 1,418 at most.
    pub size: u16,
    /// 0 if it agrees, 1 if it objects, and 2 if it gives a value. No other kind is taken.
    pub kind: u8,
    /// The octets that it gives: the value of an id that the clock lacks, as it is by now.
    pub octets: [u8; DATA_FIELD_OCTETS],
}

const _: () = prove!(size_of::<Say>() == 1_424);

impl Say {
    /// What it says; refused if it is no say.
    pub(crate) fn said(&self) -> Result<DeviceSay<'_>, SaidRefusal>
        ensures said { MatchResult result
            (λ s. say_in self.now ≡ Ok (said_value s))
            (λ e. say_in self.now ≡ Err e) }
        ensures given { IfOk result IsGiven }
    {
        match self.kind {
            0 => Ok(DeviceSay::Agrees),
            1 => match self.error_id() {
                Some(error) => Ok(DeviceSay::Objects(error)),
                None => Err(SaidRefusal::BadSay),
            },
            2 if self.size % 2 == 0 && self.size as usize <= DATA_FIELD_OCTETS => {
                Ok(DeviceSay::Gives(&self.octets[..self.size as usize]))
            }
            _ => Err(SaidRefusal::BadSay),
        }
    }

    /// The error with which the device objects. It is WRONG_VALUE, NOT_SETABLE, NOT_SUPPORTED or GENERAL_ERROR.
    fn error_id(&self) -> Option<ErrorId>
        ensures { result ≡ error_in self.now.error }
    {
        match self.error {
            4 => Some(ErrorId::WrongValue),
            5 => Some(ErrorId::NotSetable),
            6 => Some(ErrorId::NotSupported),
            0xfffe => Some(ErrorId::GeneralError),
            _ => None,
        }
    }
}
