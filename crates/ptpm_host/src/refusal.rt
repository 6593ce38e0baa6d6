//! Why a call changes nothing.

use crate::clock::HostedClock;
use ptpm_codec::ErrorId;
use ptpm_data::StartError;
use ptpm_manager::SendError;
use ptpm_saved::RestoreError;
use ptpm_table::TableError;

/// Why a clock does not start, in the order in which the reasons are judged. Want of memory can come in place of any other.
#[derive(Clone, Copy)]
pub enum StartRefusal {
    /// Its data sets have no such start.
    Values(StartError),
    /// These can't be its managers.
    Managers(TableError),
    /// Its clockIdentity is all zeros.
    IdentityIsZero,
    OutOfMemory,
}

/// Why a clock does not go on from an image, in the order in which the reasons are judged.
#[derive(Clone, Copy)]
pub enum ClockRestoreRefusal {
    /// These can't be its managers.
    Managers(TableError),
    /// Its clockIdentity is all zeros.
    IdentityIsZero,
    /// It is no image of this clock.
    Image(RestoreError),
    OutOfMemory,
}

/// Why a datagram is not handled, in the order in which the reasons are judged.
#[derive(Clone, Copy)]
pub enum HandleRefusal {
    /// The clock lacks the port.
    NoPort,
    /// There is room for fewer messages than the clock may send.
    NoRoom,
}

/// Why a datagram is not handled with what the device says, in the order in which the reasons are judged.
#[derive(Clone, Copy)]
pub enum SaidRefusal {
    Handle(HandleRefusal),
    /// It is no say: of another kind, or an objection with an error that no device gives.
    BadSay,
}

/// Why a table of a device's own ids is not taken, in the order in which the reasons are judged. After the first the ids are judged one
/// after another.
#[derive(Clone, Copy)]
pub enum RelayRefusal {
    /// It has more than 32.
    TooManyIds,
    /// The clock knows the id.
    ClockHasId,
    /// The id is in the table twice.
    RelayedTwice,
    /// It is neither of the clock nor of a port.
    BadScope,
    /// It has neither SET nor COMMAND, or another action.
    BadActions,
    /// Its dataField has at least more octets than at most, or more than 130.
    BadSizes,
    OutOfMemory,
}

/// Why a change at the device itself is not carried out, in the order in which the reasons are judged.
#[derive(Clone, Copy)]
pub enum ChangeRefusal {
    /// It names neither a port of the clock nor every port.
    NoPort,
    /// It is neither a SET nor a COMMAND.
    NotPermitted,
    /// Its dataField has an odd number of octets, or over 1,418.
    BadValue,
    /// It is a SET of DOMAIN, and a change is under way.
    UnderWay,
    /// A manager with every right would be refused with this error.
    Refused(ErrorId),
}

/// Why a clock that is saved while it goes on takes nothing, in the order in which the reasons are judged.
#[derive(Clone, Copy)]
pub enum TakeRefusal {
    Said(SaidRefusal),
    /// A change is under way. It is of the same manager, this would be another one, or the owner would move the domain.
    UnderWay,
    /// It was never saved, or messages that were released were not taken out, or there are too few free places for those
    /// that may wait.
    Unsaved,
}

/// Why no change is under way after a call that would begin one, in the order in which the reasons are judged.
#[derive(Clone, Copy)]
pub enum UndertakeRefusal {
    /// The clock lacks the port.
    NoPort,
    /// It was never saved, or messages that were released were not taken out.
    Unsaved,
    /// It is a change, and another one is under way.
    UnderWay,
}

/// Why what is under way is not decided, in the order in which the reasons are judged.
#[derive(Clone, Copy)]
pub enum DecideRefusal {
    NothingUnderWay,
    Said(SaidRefusal),
    /// As of `TakeRefusal`.
    Unsaved,
}

/// Why a clock does not go on while it is saved. It is given back as it was.
#[derive(Drop)]
pub enum SavingRefusal {
    /// There are fewer places than messages that it may send.
    NoRoom(Box<HostedClock>),
    OutOfMemory(Box<HostedClock>),
}

/// Why no image is made of a clock that is saved while it goes on.
#[derive(Clone, Copy)]
pub enum ImageRefusal {
    /// There is room for fewer octets than the image has.
    NoRoom,
    OutOfMemory,
}

/// Why a clock does not count as saved.
#[derive(Clone, Copy)]
pub enum SavedRefusal {
    /// The image is of another state.
    OtherImage,
}

/// Why the data sets are not read, in the order in which the reasons are judged.
#[derive(Clone, Copy)]
pub enum ReadRefusal {
    /// The id is not in the table, or permits no GET.
    NotReadable,
    /// The id is of a port, and the clock lacks the port.
    NoPort,
    /// There is room for fewer than 130 octets.
    NoRoom,
}

/// Why an asker does not go on from an image, in the order in which the reasons are judged.
#[derive(Clone, Copy)]
pub enum AskerRefusal {
    /// No asker has these settings.
    Settings(SessionRefusal),
    /// It is no image of this session.
    Image(ptpm_manager::RestoreError),
}

/// Why a session does not start, in the order in which the reasons are judged. A survey of every clock has only the first, and
/// one of one clock has each except the two about ports. The last is an asker's alone.
#[derive(Clone, Copy)]
pub enum SessionRefusal {
    /// The manager's clockIdentity means every clock.
    ManagerIsEvery,
    /// The managed clock's clockIdentity means every clock.
    TargetIsEvery,
    /// The manager's clock would manage itself.
    SameClock,
    /// The managed clock has no port.
    NoPorts,
    /// It has more than eight.
    TooManyPorts,
    /// The managed clock's clockIdentity is all zeros.
    TargetIsZero,
    /// The port at which nobody manages is the manager's own.
    NobodyIsManager,
}

/// Why no request is handed out, in the order in which the reasons are judged. A survey's GET is refused only for the first.
#[derive(Clone, Copy)]
pub enum SendRefusal {
    /// There is room for fewer than 1,472 octets.
    NoRoom,
    /// The session has none to send.
    Session(SendError),
}

/// Why an answer is not given, in the order in which the reasons are judged.
#[derive(Clone, Copy)]
pub enum ReportRefusal {
    /// No request was begun, or the latest is not answered; or a survey has no answer at the place.
    NoReport,
    /// There is room for fewer octets than its dataField has.
    NoRoom,
}

/// Why words are no dataField of a SET, in the order in which the reasons are judged. The members are judged one after another.
#[derive(Clone, Copy)]
pub enum ParseRefusal {
    /// They are no words in UTF-8, each with a zero octet after it, or there are more than any dataField takes.
    NotWords,
    /// The table of ids lacks the id.
    UnknownId,
    /// There are more or fewer than a name and a value for each member.
    WordCount,
    /// A word is not the name of the member at this place, which comes next.
    OtherName(usize),
    /// A word is no value of the member at this place, or no SET has such a member.
    NoValue(usize),
    /// There is room for fewer octets than the dataField has.
    NoRoom,
}
