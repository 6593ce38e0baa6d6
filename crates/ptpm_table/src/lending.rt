//! What a reply table keeps, lent: the entry of one manager after another.

ghost use Rattle.std.specs.Prelude.{◌≡◌, ◌≤◌, ◌<◌, ◌∷◌, [], MatchOption, Some, length, slice_get};
ghost use Rattle.ptpm_codec.specs.Message.{IsValid};
ghost use Rattle.ptpm_codec.specs.Reading.{body_at, message_at, message_of};
ghost use Rattle.ptpm_table.specs.KeptMessages.{AreSizes, answer_in, error_of_number, outcome_of_body, pieces};
ghost use Rattle.ptpm_table.specs.Lending.{lent_answer, lent_outcome};

use crate::in_order::LentEntries;
use crate::managers::MOST_MANAGERS;
use crate::reply_table::ReplyTable;
use crate::slot::Kept;
use ptpm_codec::{Action, ErrorId, HEAD_OCTETS, PortIdentity, View, u16_at, view};
use ptpm_data::Request;
use std::marker::Model;

/// The place of the portNumber of its sourcePortIdentity in a message (13.3).
const SOURCE_PORT: usize = 28;

/// The place of its actionField, in the lower half of an octet (15.4.1).
const ACTION: usize = 46;

/// RESPONSE as an actionField (15.4.1.6).
const RESPONSE: u8 = 2;

/// The place of its tlvType (14.1).
const TLV_TYPE: usize = 48;

/// MANAGEMENT_ERROR_STATUS as a tlvType (14.1.1).
const ERROR_STATUS: u16 = 2;

/// The place of the managementErrorId in a message with an error status (15.5.4).
const ERROR_ID: usize = 52;

/// A table that lends what it keeps, as for an image of it. No octet is copied, and no memory is taken.
pub trait LendingTable: ReplyTable {
    ghost use Rattle.std.specs.Prelude.{◌≤◌, IfSome, IsTrue, MatchOption};
    ghost use Rattle.std.specs.FinMap as fin;
    ghost use Rattle.ptpm_table.specs.Entries.{is_known};
    ghost use Rattle.ptpm_table.specs.Lending.{EntryFits, HasNoneAfter, IsKeepable, IsNext};

    /// How many managers have an entry.
    fn entry_count(&self) -> usize
        ensures count { result ≡ fin.len (Self.entries self.now) }
        ensures few { result ≤ MOST_MANAGERS };

    /// The entry of the first manager after this one that has an entry, by the order of identities. After `None` it is the
    /// first entry of all. `None` if no further manager has one. So a loop from `None` on, and from each manager to the
    /// next, goes over the whole table.
    fn next_entry(&self, after: Option<PortIdentity>) -> Option<LentEntry<'_>>
        ensures next { MatchOption result (HasNoneAfter (Self.entries self.now) after)
            (λ e. IsNext (Self.entries self.now) after e) }
        ensures known { IfSome result
            (λ e. IsTrue (is_known e.manager (Self.owner self.now).managers)) }
        ensures keepable { IfSome result (λ e. IsKeepable e.entry) }
        ensures fits { IfSome result (λ e. EntryFits e) };

    /// The entries, in the order of identities. The order is found once for all of them.
    fn in_order(&self) -> LentEntries<'_>
        ensures { result ≡ fin.entries (Self.entries self.now) };
}

/// An entry where it is kept. Contracts see it with its manager.
#[derive(Drop)]
pub struct LentEntry<'a> {
    pub(crate) kept: &'a Kept,
}

impl<'a> Model for LentEntry<'a> {
    ghost use Rattle.ptpm_table.specs.Lending.{ManagerEntry};

    ghost Value = { ManagerEntry };

    ghost view = { λ e. record { manager = e.kept.now.manager; entry = e.kept.now.entry } };
}

/// An answer of the clock or of one of its ports, as it is kept.
#[derive(Drop)]
pub struct LentAnswer<'a> {
    /// The port that it is of; no port if it is of the clock.
    pub port: Option<u16>,
    pub what: LentWhat<'a>,
}

/// What is answered, the dataField of a RESPONSE lent.
#[derive(Drop)]
pub enum LentWhat<'a> {
    /// The dataField of a RESPONSE.
    Value(&'a [u8]),
    /// The success of a COMMAND.
    Done,
    /// Why the request was refused.
    Refused(ErrorId),
}

impl<'a> LentEntry<'a> {
    /// Whose request it is.
    pub fn manager(&self) -> PortIdentity
        ensures { result ≡ self.now.manager }
    {
        *self.kept.manager()
    }

    /// The number of the request.
    pub fn number(&self) -> u16
        ensures { result ≡ self.now.entry.number }
    {
        self.kept.number()
    }

    /// The request, with its dataField lent.
    pub fn request(&self) -> Request<'a>
        ensures { result ≡ self.now.entry.request }
    {
        self.kept.request()
    }

    /// How many answers the reply has.
    pub fn answer_count(&self) -> usize
        ensures { result ≡ length self.now.entry.reply.answers }
    {
        self.kept.answer_count()
    }

    /// An answer of the reply, by its place from 0 on.
    pub fn answer(&self, place: usize) -> LentAnswer<'a>
        requires { place < length self.now.entry.reply.answers }
        ensures { slice_get self.now.entry.reply.answers place ≡ Some (lent_answer result) }
    {
        self.kept.answer(place)
    }

    /// The answers of the reply, from the first on.
    pub fn answers(&self) -> LentAnswers<'a>
        ensures { result ≡ self.now.entry.reply.answers }
    {
        self.kept.answers()
    }
}

/// The answers of a reply, lent one after the other. Contracts see those that are left.
#[derive(Drop)]
pub struct LentAnswers<'a> {
    /// Whether they are of ports.
    pub(crate) of_port: bool,
    /// How many octets each of their messages has.
    pub(crate) sizes: &'a [u8],
    /// Their messages, one after the other.
    pub(crate) messages: &'a [u8],
}

impl<'a> Model for LentAnswers<'a> {
    ghost use Rattle.std.specs.Prelude.{List, map};
    ghost use Rattle.ptpm_data.specs.Reply.{Answer};
    ghost use Rattle.ptpm_table.specs.KeptMessages.{Envelope, IsKeptReply, answer_in, pieces};

    ghost Value = { List Answer };

    ghost view = { λ l. map (answer_in l.of_port) (pieces l.sizes.now l.messages.now) };

    ghost invariant = { λ l. (e : Envelope) × IsKeptReply e l.of_port l.sizes.now l.messages.now };
}

impl<'a> LentAnswers<'a> {
    /// The next one. `None` if all were lent.
    #[inline(always)]
    pub fn next(&mut self) -> Option<LentAnswer<'a>>
        ensures { MatchOption result (self.old ≡ [])
            (λ a. self.old ≡ lent_answer a ∷ self.new) }
    {
        match self.sizes {
            [] => None,
            [size, sizes @ ..] => {
                let (message, messages) = self.messages.split_at(*size as usize);
                let answer = kept_answer(self.of_port, message);
                self.sizes = sizes;
                self.messages = messages;
                Some(answer)
            }
        }
    }
}

/// The answer of a message that a reply table keeps, whose fields are where a well-formed message has them.
#[inline(always)]
fn kept_answer(of_port: bool, message: &[u8]) -> LentAnswer<'_>
    requires long { 54 ≤ length message.now }
    requires read { message_of message.now ≡ Some (message_at message.now) }
    ensures { lent_answer result ≡ answer_in of_port message.now }
{
    LentAnswer {
        port: if of_port {
            Some(u16_at(message, SOURCE_PORT))
        } else {
            None
        },
        what: kept_what(message),
    }
}

/// What a kept message answers.
#[inline(always)]
#[tactic(auto, unfolding(ptpm_codec::specs::Reading::body_at))]
fn kept_what(message: &[u8]) -> LentWhat<'_>
    requires { 54 ≤ length message.now }
    ensures { lent_outcome result ≡ outcome_of_body (body_at message.now) }
{
    if u16_at(message, TLV_TYPE) == ERROR_STATUS {
        return LentWhat::Refused(error_of_number(u16_at(message, ERROR_ID)));
    }
    if message[ACTION] % 16 == RESPONSE {
        let (_, octets) = message.split_at(HEAD_OCTETS);
        LentWhat::Value(octets)
    } else {
        LentWhat::Done
    }
}

/// The message at a place among messages of these sizes.
pub(crate) fn message_at<'a>(sizes: &[u8], messages: &'a [u8], place: usize) -> &'a [u8]
    requires cut { AreSizes sizes.now (length messages.now) }
    requires place { place < length sizes.now }
    ensures { slice_get (pieces sizes.now messages.now) place ≡ Some result.now }
{
    match sizes {
        [] => unreachable!(),
        [size, sizes @ ..] => {
            let (message, messages) = messages.split_at(*size as usize);
            if place == 0 {
                message
            } else {
                message_at(sizes, messages, place - 1)
            }
        }
    }
}

/// The answer that a kept message gives.
#[tactic(auto, unfolding(ptpm_codec::specs::Reading::message_of))]
pub(crate) fn answer_in(of_port: bool, message: &[u8]) -> LentAnswer<'_>
    ensures { lent_answer result ≡ answer_in of_port message.now }
{
    match view(message) {
        Err(_) => LentAnswer {
            port: if of_port { Some(0) } else { None },
            what: LentWhat::Done,
        },
        Ok(message) => LentAnswer {
            port: if of_port {
                Some(message.source().port)
            } else {
                None
            },
            what: what_in(&message),
        },
    }
}

fn what_in<'a>(message: &View<'a>) -> LentWhat<'a>
    requires { IsValid message.now }
    ensures { lent_outcome result ≡ outcome_of_body message.now.body }
{
    match message.error() {
        Some(number) => LentWhat::Refused(error_of_number(number)),
        None => {
            if message.action() == Action::Response {
                LentWhat::Value(message.octets())
            } else {
                LentWhat::Done
            }
        }
    }
}

fn error_of_number(number: u16) -> ErrorId
    ensures { result ≡ error_of_number number }
{
    ErrorId::from_number(number).unwrap_or(ErrorId::GeneralError)
}
