//! The numbers that calls answer, in one table: 0 if the call was done. 1 to 31 say what became of a datagram or of a request,
//! and those from 32 on why a call changed nothing.
//!
//! 1 to 9 are verdicts. 10 to 15 say why a session or a survey ignores a datagram, and 16 to 24 why it holds no message. 25 and
//! 26 say what became of a request, and 27 and 28 what a survey makes of an answer. 29 and 30 say what a device is asked, and 31
//! that it is asked now. 32 to 47 are refusals of a call, and 48 to 57 those of a start. 64 to 101 are the members that may be
//! out of range, in their order. 104 to 110 are refusals of a restore, and those from 112 on are further refusals of a call.

ghost use Rattle.std.specs.Prelude.{◌≡◌, ◌≤◌};
ghost use Rattle.ptpm_host.specs.Numbers.{asker_number, begin_number, cause_number, change_number, clock_restore_number, decide_number, give_up_number, handle_number, heard_number, image_number, managers_number, member_number, observe_number, parse_number, read_number, reason_number, relay_number, report_number, restore_number, resume_number, said_number, saved_number, send_number, session_number, start_number, surveyed_number, take_number, undertake_number, outcome_number, unseal_number, values_number, verdict_number};

use crate::refusal::{
    AskerRefusal, ChangeRefusal, ClockRestoreRefusal, DecideRefusal, HandleRefusal, ParseRefusal,
    ReadRefusal, RelayRefusal, ReportRefusal, SaidRefusal, SavedRefusal, SendRefusal,
    SessionRefusal, StartRefusal, TakeRefusal, UndertakeRefusal,
};
use crate::reported_outcome::ReportedOutcome;
use crate::session::Heard;
use ptpm_agent::Verdict;
use ptpm_codec::DecodeError;
use ptpm_data::{Member, ObservationError, StartError};
use ptpm_manager::{BeginError, GiveUpRefusal, Reason, RestoreError, SendError, Surveyed};
use ptpm_seal::UnsealError;
use ptpm_table::TableError;

/// A handle holds no clock.
pub const NO_CLOCK: u32 = 32;

/// There is too little room for what is to be left.
pub const NO_ROOM: u32 = 34;

/// Memory was refused.
pub const NO_MEMORY: u32 = 35;

/// A handle holds no session.
pub const NO_SESSION: u32 = 37;

/// A handle holds no survey.
pub const NO_SURVEY: u32 = 46;

/// A struct of the host has another size than this library's.
pub const OTHER_SIZES: u32 = 47;

/// A device is asked whether it carries out a request.
pub const ASKED_CHANGE: u32 = 29;

/// A device is asked for the value of an id that the clock lacks.
pub const ASKED_VALUE: u32 = 30;

/// What is under way is saved, and now the device is asked.
pub const ACT_NOW: u32 = 31;

/// A change is not saved yet.
const UNSAVED: u32 = 118;

/// A change is under way at the device.
const UNDER_WAY: u32 = 123;

/// A handle holds no asker.
pub const NO_ASKER: u32 = 120;

/// What became of a datagram, 1 to 24. A datagram that is no management message is recognized first. The numbers of the other
/// verdicts are in the order of the verdicts, so that LLVM makes no table of them.
pub fn verdict_number(verdict: Verdict) -> u32
    ensures { result ≡ verdict_number verdict }
{
    if let Verdict::Malformed(cause) = verdict {
        return cause_number(cause);
    }
    match verdict {
        Verdict::Malformed(_) => unreachable!(),
        Verdict::OtherDomain => 1,
        Verdict::OwnMessage => 2,
        Verdict::NotAddressed => 3,
        Verdict::NotARequest => 4,
        Verdict::AnsweredNew => 5,
        Verdict::AnsweredRepeat => 6,
        Verdict::DroppedOld => 7,
        Verdict::DroppedConflict => 8,
        Verdict::AnsweredUnnumbered => 9,
    }
}

/// What a session makes of a datagram: 0 for the answer, or 1 and 10 to 24.
pub fn heard_number(heard: Heard) -> u32
    ensures { result ≡ heard_number heard }
{
    match heard {
        Heard::Answered => 0,
        Heard::Ignored(reason) => reason_number(reason),
    }
}

/// Why a datagram is ignored.
fn reason_number(reason: Reason) -> u32
    ensures { result ≡ reason_number reason }
{
    match reason {
        Reason::Malformed(cause) => cause_number(cause),
        Reason::OtherDomain => 1,
        Reason::NotAReply => 10,
        Reason::OtherTarget => 11,
        Reason::OtherSource => 12,
        Reason::NothingAsked => 13,
        Reason::OtherNumber => 14,
        Reason::OtherContent => 15,
    }
}

/// Why a datagram holds no management message, 16 to 24.
fn cause_number(cause: DecodeError) -> u32
    ensures { result ≡ cause_number cause }
{
    match cause {
        DecodeError::TooShort => 16,
        DecodeError::NotManagement => 17,
        DecodeError::BadVersion => 18,
        DecodeError::BadLength => 19,
        DecodeError::BadAction => 20,
        DecodeError::BadTlvType => 21,
        DecodeError::BadTlvLength => 22,
        DecodeError::BadText => 23,
        DecodeError::OutOfMemory => 24,
    }
}

/// What became of a request, 0, 25 or 26.
pub fn outcome_number(outcome: ReportedOutcome) -> u32
    ensures { result ≡ outcome_number outcome }
{
    match outcome {
        ReportedOutcome::Value(_) => 0,
        ReportedOutcome::Done => 25,
        ReportedOutcome::Refused(_) => 26,
    }
}

/// What a survey makes of a datagram: 0, 27 or 28 for an answer, or 1 and 10 to 24.
pub fn surveyed_number(surveyed: Surveyed) -> u32
    ensures { result ≡ surveyed_number surveyed }
{
    match surveyed {
        Surveyed::Taken => 0,
        Surveyed::Again => 27,
        Surveyed::Full => 28,
        Surveyed::Ignored(reason) => reason_number(reason),
    }
}

/// Why a datagram is not handled, 33 or 34.
pub fn handle_number(refusal: HandleRefusal) -> u32
    ensures { result ≡ handle_number refusal }
{
    match refusal {
        HandleRefusal::NoPort => 33,
        HandleRefusal::NoRoom => NO_ROOM,
    }
}

/// Why a datagram is not handled with what the device says, 33, 34 or 121.
pub fn said_number(refusal: SaidRefusal) -> u32
    ensures number { result ≡ said_number refusal }
    ensures some { 1 ≤ result }
{
    match refusal {
        SaidRefusal::Handle(refusal) => handle_number(refusal),
        SaidRefusal::BadSay => 121,
    }
}

/// Why a clock that is saved while it goes on takes nothing, 33, 34, 118, 121 or 123.
pub fn take_number(refusal: TakeRefusal) -> u32
    ensures number { result ≡ take_number refusal }
    ensures some { 1 ≤ result }
{
    match refusal {
        TakeRefusal::Said(refusal) => said_number(refusal),
        TakeRefusal::UnderWay => UNDER_WAY,
        TakeRefusal::Unsaved => UNSAVED,
    }
}

/// Why a table of a device's own ids is not taken, 35 or 133 to 138.
pub fn relay_number(refusal: RelayRefusal) -> u32
    ensures number { result ≡ relay_number refusal }
    ensures some { 1 ≤ result }
{
    match refusal {
        RelayRefusal::TooManyIds => 133,
        RelayRefusal::ClockHasId => 134,
        RelayRefusal::RelayedTwice => 135,
        RelayRefusal::BadScope => 136,
        RelayRefusal::BadActions => 137,
        RelayRefusal::BadSizes => 138,
        RelayRefusal::OutOfMemory => NO_MEMORY,
    }
}

/// Why no change is under way after a call that would begin one, 33, 118 or 123.
pub fn undertake_number(refusal: UndertakeRefusal) -> u32
    ensures number { result ≡ undertake_number refusal }
    ensures some { 1 ≤ result }
{
    match refusal {
        UndertakeRefusal::NoPort => 33,
        UndertakeRefusal::Unsaved => UNSAVED,
        UndertakeRefusal::UnderWay => UNDER_WAY,
    }
}

/// Why what is under way is not decided, 33, 34, 118, 121 or 124.
pub fn decide_number(refusal: DecideRefusal) -> u32
    ensures number { result ≡ decide_number refusal }
    ensures some { 1 ≤ result }
{
    match refusal {
        DecideRefusal::NothingUnderWay => 124,
        DecideRefusal::Said(refusal) => said_number(refusal),
        DecideRefusal::Unsaved => UNSAVED,
    }
}

/// Why a change at the device itself is not carried out, 26, 33, 40, 41 or 123.
pub fn change_number(refusal: ChangeRefusal) -> u32
    ensures number { result ≡ change_number refusal }
    ensures some { 1 ≤ result }
{
    match refusal {
        ChangeRefusal::NoPort => 33,
        ChangeRefusal::NotPermitted => 40,
        ChangeRefusal::BadValue => 41,
        ChangeRefusal::UnderWay => UNDER_WAY,
        ChangeRefusal::Refused(_) => 26,
    }
}

/// Why a clock or a session does not count as saved, 119.
pub fn saved_number(refusal: SavedRefusal) -> u32
    ensures number { result ≡ saved_number refusal }
    ensures some { 1 ≤ result }
{
    match refusal {
        SavedRefusal::OtherImage => 119,
    }
}

/// Why the data sets are not read, 33, 34 or 36.
pub fn read_number(refusal: ReadRefusal) -> u32
    ensures { result ≡ read_number refusal }
{
    match refusal {
        ReadRefusal::NotReadable => 36,
        ReadRefusal::NoPort => 33,
        ReadRefusal::NoRoom => NO_ROOM,
    }
}

/// Why an observation is refused, 33, 50 or 64 to 101.
pub fn observe_number(refusal: ObservationError) -> u32
    ensures number { result ≡ observe_number refusal }
    ensures some { 1 ≤ result }
{
    match refusal {
        ObservationError::NoPort => 33,
        ObservationError::GrandmasterDiffers => 50,
        ObservationError::BadValue(member) => 64 + member_number(member),
    }
}

/// Why a clock does not start, 35 and 48 to 101.
pub fn start_number(refusal: StartRefusal) -> u32
    ensures number { result ≡ start_number refusal }
    ensures some { 1 ≤ result }
{
    match refusal {
        StartRefusal::Values(fault) => values_number(fault),
        StartRefusal::Managers(fault) => managers_number(fault),
        StartRefusal::IdentityIsZero => 56,
        StartRefusal::OutOfMemory => NO_MEMORY,
    }
}

fn values_number(fault: StartError) -> u32
    ensures number { result ≡ values_number fault }
    ensures some { 1 ≤ result }
{
    match fault {
        StartError::NoPorts => 48,
        StartError::TooManyPorts => 49,
        StartError::GrandmasterDiffers => 50,
        StartError::BadValue(member) => 64 + member_number(member),
    }
}

fn managers_number(fault: TableError) -> u32
    ensures number { result ≡ managers_number fault }
    ensures some { 1 ≤ result }
{
    match fault {
        TableError::TooMany => 51,
        TableError::Twice => 52,
        TableError::OutOfMemory => NO_MEMORY,
    }
}

/// The place of a member in the order in which a start judges them.
fn member_number(member: Member) -> u32
    ensures number { result ≡ member_number member }
    ensures few { result ≤ 37 }
{
    u32::from(member.place())
}

/// Why a request is not begun, 35 or 38 to 42.
pub fn begin_number(refusal: BeginError) -> u32
    ensures number { result ≡ begin_number refusal }
    ensures some { 1 ≤ result }
{
    match refusal {
        BeginError::OutOfMemory => NO_MEMORY,
        BeginError::Busy => 38,
        BeginError::NeedsPort => 39,
        BeginError::NotPermitted => 40,
        BeginError::BadValue => 41,
        BeginError::CountAtMaximum => 42,
    }
}

/// Why a request has no further attempts, 43 or 44.
pub fn resume_number(refusal: SendError) -> u32
    ensures { result ≡ resume_number refusal }
{
    match refusal {
        SendError::Idle => 43,
        SendError::GaveUp => 44,
    }
}

/// Why a request is not given up, 43 or 112.
pub fn give_up_number(refusal: GiveUpRefusal) -> u32
    ensures number { result ≡ give_up_number refusal }
    ensures some { 1 ≤ result }
{
    match refusal {
        GiveUpRefusal::Idle => 43,
        GiveUpRefusal::OutOfReach => 112,
    }
}

/// Why no request is handed out, 34, 43 or 44.
pub fn send_number(refusal: SendRefusal) -> u32
    ensures { result ≡ send_number refusal }
{
    match refusal {
        SendRefusal::NoRoom => NO_ROOM,
        SendRefusal::Session(refusal) => resume_number(refusal),
    }
}

/// Why an answer is not given, 34 or 45.
pub fn report_number(refusal: ReportRefusal) -> u32
    ensures { result ≡ report_number refusal }
{
    match refusal {
        ReportRefusal::NoRoom => NO_ROOM,
        ReportRefusal::NoReport => 45,
    }
}

/// Why a session does not start, 48, 49, 52 to 55 or 57.
pub fn session_number(refusal: SessionRefusal) -> u32
    ensures number { result ≡ session_number refusal }
    ensures some { 1 ≤ result }
{
    match refusal {
        SessionRefusal::NoPorts => 48,
        SessionRefusal::TooManyPorts => 49,
        SessionRefusal::ManagerIsEvery => 53,
        SessionRefusal::TargetIsEvery => 54,
        SessionRefusal::SameClock => 55,
        SessionRefusal::TargetIsZero => 57,
        SessionRefusal::NobodyIsManager => 52,
    }
}

/// Why a session is not restored, 35, 104 to 107 or 110.
pub fn restore_number(refusal: RestoreError) -> u32
    ensures number { result ≡ restore_number refusal }
    ensures some { 1 ≤ result }
{
    match refusal {
        RestoreError::OutOfMemory => NO_MEMORY,
        RestoreError::NotAnImage => 104,
        RestoreError::OtherVersion => 105,
        RestoreError::OtherKind => 106,
        RestoreError::Damaged => 107,
        RestoreError::OtherSession => 110,
    }
}

/// Why an asker does not go on from an image, 35, 48, 49, 53 to 55, 57, 104 to 107 or 110.
pub fn asker_number(refusal: AskerRefusal) -> u32
    ensures number { result ≡ asker_number refusal }
    ensures some { 1 ≤ result }
{
    match refusal {
        AskerRefusal::Settings(refusal) => session_number(refusal),
        AskerRefusal::Image(refusal) => restore_number(refusal),
    }
}

/// Why a clock is not restored, 35, 51, 52, 56 or 104 to 109.
pub fn clock_restore_number(refusal: ClockRestoreRefusal) -> u32
    ensures number { result ≡ clock_restore_number refusal }
    ensures some { 1 ≤ result }
{
    match refusal {
        ClockRestoreRefusal::Managers(fault) => managers_number(fault),
        ClockRestoreRefusal::IdentityIsZero => 56,
        ClockRestoreRefusal::Image(fault) => image_number(fault),
        ClockRestoreRefusal::OutOfMemory => NO_MEMORY,
    }
}

fn image_number(fault: ptpm_saved::RestoreError) -> u32
    ensures number { result ≡ image_number fault }
    ensures some { 1 ≤ result }
{
    match fault {
        ptpm_saved::RestoreError::NotAnImage => 104,
        ptpm_saved::RestoreError::OtherVersion => 105,
        ptpm_saved::RestoreError::OtherKind => 106,
        ptpm_saved::RestoreError::Damaged => 107,
        ptpm_saved::RestoreError::OtherClock => 108,
        ptpm_saved::RestoreError::OtherPorts => 109,
    }
}

/// Why octets are no image that is whole, 104 or 107.
pub fn unseal_number(error: UnsealError) -> u32
    ensures number { result ≡ unseal_number error }
    ensures some { 1 ≤ result }
{
    match error {
        UnsealError::NotAnImage => 104,
        UnsealError::Damaged => 107,
    }
}

/// Why words are no dataField of a SET, 34 or 113 to 117.
pub fn parse_number(refusal: ParseRefusal) -> u32
    ensures number { result ≡ parse_number refusal }
    ensures some { 1 ≤ result }
{
    match refusal {
        ParseRefusal::NoRoom => NO_ROOM,
        ParseRefusal::NotWords => 113,
        ParseRefusal::UnknownId => 114,
        ParseRefusal::WordCount => 115,
        ParseRefusal::OtherName(_) => 116,
        ParseRefusal::NoValue(_) => 117,
    }
}
