//! What is found and kept in slots, one for each manager, wherever they lie.

ghost use Rattle.std.specs.Prelude.{◌≡◌, ◌↔◌, ◌≤◌, ℕ, ◌<◌, false, MatchOption, count_by, slice_get, IfSome, IsTrue, All, Some, is_some, length, map, position, true};
ghost use Rattle.std.specs.FinMap as fin;
ghost use Rattle.std.specs.Option.{option_copied};
ghost use Rattle.ptpm_codec.specs.declared.identity.ClockIdentity.{ClockIdentity};
ghost use Rattle.ptpm_codec.specs.Identity.{identity_cmp, same_identity};
ghost use Rattle.ptpm_codec.specs.Message.{IsDataField, IsRequestAction};
ghost use Rattle.ptpm_table.specs.Entries.{CanResend, FitsRequest, is_known, reply_with};
ghost use Rattle.ptpm_table.specs.Lending.{HasNoneAfter, IsKeepable, IsNext};
ghost use Rattle.ptpm_table.specs.Numbering.{look_of};
ghost use Rattle.ptpm_table.specs.declared.slot.Slot.{Slot};
ghost use Rattle.ptpm_data.specs.Reply.{ReplyValue, answer_of};
ghost use Rattle.ptpm_table.specs.Sending.{IsSentReply};
ghost use Rattle.ptpm_table.specs.Managers.{has_twice, identities, rights_in};
ghost use Rattle.ptpm_table.specs.Slots.{AreKeepable, HaveFew, HaveRoom, IsSooner, clocks, configured, entry_in, rights_at, slot_of, used};

use crate::heard::Heard;
use crate::kept::judge;
use crate::outgoing::Outgoing;
use crate::reply_table::Look;
use crate::slot::{Slot, is_before};
use ptpm_codec::PortIdentity;
use ptpm_data::{PortAnswer, Request, Rights};

/// A manager's slot.
pub(crate) fn slot_at<'a>(slots: &'a [Slot], who: &PortIdentity) -> Option<&'a Slot>
    requires { has_twice (identities (configured slots.now)) ≡ false }
    ensures known { is_known who.now (identities (configured slots.now))
        ≡ is_some (option_copied result) }
    ensures rights { rights_in (configured slots.now) who.now ≡ rights_at (option_copied result) }
    ensures kept { fin.get (fin.from_entries {R = identity_cmp} (used slots.now)) who.now
        ≡ entry_in (option_copied result) }
    ensures manager { IfSome result (λ s. s.now.kept.manager ≡ who.now) }
    ensures own { (clock : ClockIdentity)
        → All (λ c. c ≡ clock) (clocks slots.now)
        → IfSome result (λ s. s.now.kept.clock ≡ clock) }
    ensures few { (most : ℕ)
        → HaveFew most slots.now
        → IfSome result (λ s. s.now.taken ≡ true → length s.now.kept.entry.reply.answers ≤ most) }
{
    find_slot(slots, who)
}

fn find_slot<'a>(slots: &'a [Slot], who: &PortIdentity) -> Option<&'a Slot>
    ensures { option_copied result ≡ slot_of who.now slots.now }
{
    slots.iter().find(|s| *who == *s.kept.manager())
}

fn place_of(slots: &[Slot], who: &PortIdentity) -> Option<usize>
    ensures { result ≡ position (λ s. same_identity who.now s.kept.manager) slots.now }
{
    slots.iter().position(|s| *who == *s.kept.manager())
}

/// What a request of this source and number is, and the rights of its manager; none of anyone else.
#[inline(always)]
pub(crate) fn look_at(
    slots: &[Slot],
    who: &PortIdentity,
    number: u16,
    request: &Request<'_>,
) -> (Look, Rights)
    requires { has_twice (identities (configured slots.now)) ≡ false }
    ensures look { result.0 ≡ look_of (is_known who.now (identities (configured slots.now)))
        (fin.get (fin.from_entries {R = identity_cmp} (used slots.now)) who.now) number request.now }
    ensures repeat { (most : ℕ) → HaveFew most slots.now
        → result.0 ≡ Look.Repeat
        → CanResend most (fin.from_entries {R = identity_cmp} (used slots.now)) who.now number }
    ensures rights { result.1 ≡ rights_in (configured slots.now) who.now }
{
    match slot_at(slots, who) {
        None => (Look::Unknown, Rights::NONE),
        Some(slot) => {
            let look = if slot.taken {
                judge(slot.kept.number(), &slot.kept.request(), number, request)
            } else {
                Look::New
            };
            (look, slot.rights)
        }
    }
}

/// The rights of a manager; none of anyone else.
pub(crate) fn rights_of(slots: &[Slot], who: &PortIdentity) -> Rights
    requires { has_twice (identities (configured slots.now)) ≡ false }
    ensures { result ≡ rights_in (configured slots.now) who.now }
{
    match slot_at(slots, who) {
        Some(slot) => slot.rights,
        None => Rights::NONE,
    }
}

/// Keeps a request in its manager's slot.
pub(crate) fn put(
    slots: &mut [Slot],
    who: &PortIdentity,
    number: u16,
    request: &Request<'_>,
    answers: &[PortAnswer],
)
    requires action { IsRequestAction request.now.action }
    requires known { IsTrue (is_known who.now (identities (configured slots.old))) }
    requires distinct { has_twice (identities (configured slots.old)) ≡ false }
    requires octets { IsDataField request.now.octets }
    requires fits { FitsRequest request.now (reply_with request.now (map answer_of answers.now)) }
    requires few { (most : ℕ) × HaveRoom most slots.old × (length answers.now ≤ most) }
    ensures entries { fin.from_entries {R = identity_cmp} (used slots.new)
        ≡ fin.insert (fin.from_entries (used slots.old)) who.now
        (record { number = number; request = request.now; reply = reply_with request.now (map answer_of answers.now) }) }
    ensures configured { configured slots.new ≡ configured slots.old }
    ensures clocks { clocks slots.new ≡ clocks slots.old }
    ensures keepable { AreKeepable slots.old → AreKeepable slots.new }
    ensures few { (most : ℕ) → length answers.now ≤ most → HaveFew most slots.old → HaveFew most slots.new }
    ensures rooms { (most : ℕ) → HaveRoom most slots.old → HaveRoom most slots.new }
{
    if let Some(place) = place_of(slots, who) {
        let slot = &mut slots[place];
        slot.taken = true;
        slot.kept.replace(number, request, answers);
    }
}

/// Keeps a request in its manager's slot, and the messages of its reply as they were sent for the copy that was heard.
#[inline(always)]
pub(crate) fn put_sent<O: Outgoing>(
    slots: &mut [Slot],
    heard: &Heard,
    request: &Request<'_>,
    of_port: bool,
    out: &O,
)
    requires action { IsRequestAction request.now.action }
    requires known { IsTrue (is_known heard.now.source (identities (configured slots.old))) }
    requires distinct { has_twice (identities (configured slots.old)) ≡ false }
    requires octets { IsDataField request.now.octets }
    requires sent { (clock : ClockIdentity) × (r : ReplyValue)
        × All (λ c. c ≡ clock) (clocks slots.old) × IsSentReply clock heard.now
        request.now.action request.now.id of_port (O.sent out.now) r }
    requires few { (most : ℕ) × HaveRoom most slots.old × (length (O.sent out.now) ≤ most) }
    ensures entries { (clock : ClockIdentity) (r : ReplyValue)
        → All (λ c. c ≡ clock) (clocks slots.old)
        → IsSentReply clock heard.now request.now.action request.now.id of_port
        (O.sent out.now) r
        → fin.from_entries {R = identity_cmp} (used slots.new)
        ≡ fin.insert (fin.from_entries (used slots.old)) heard.now.source
        (record { number = heard.now.number; request = request.now; reply = r }) }
    ensures configured { configured slots.new ≡ configured slots.old }
    ensures clocks { clocks slots.new ≡ clocks slots.old }
    ensures keepable { AreKeepable slots.old → AreKeepable slots.new }
    ensures few { (most : ℕ) → length (O.sent out.now) ≤ most → HaveFew most slots.old → HaveFew most slots.new }
    ensures rooms { (most : ℕ) → HaveRoom most slots.old → HaveRoom most slots.new }
{
    if let Some(place) = place_of(slots, &heard.source) {
        let slot = &mut slots[place];
        slot.taken = true;
        slot.kept.keep_sent(heard, request, of_port, out);
    }
}

/// How many slots are in use.
#[tactic(auto, using(crate::proofs::LendingLaws::count_used_laws))]
pub(crate) fn count_used(slots: &[Slot]) -> usize
    requires { has_twice (identities (configured slots.now)) ≡ false }
    ensures count { result ≡ fin.len (fin.from_entries {R = identity_cmp} (used slots.now)) }
    ensures few { result ≤ length slots.now }
{
    count_taken(slots)
}

fn count_taken(slots: &[Slot]) -> usize
    ensures { result ≡ count_by (λ s. s.taken) slots.now }
{
    slots.iter().filter(|slot| slot.taken).count()
}

/// The slot of the first manager after this one whose slot is in use.
pub(crate) fn next_slot<'a>(slots: &'a [Slot], after: Option<PortIdentity>) -> Option<&'a Slot>
    requires distinct { has_twice (identities (configured slots.now)) ≡ false }
    requires keepable { AreKeepable slots.now }
    ensures next { MatchOption result
        (HasNoneAfter (fin.from_entries (used slots.now)) after)
        (λ s. IsNext (fin.from_entries (used slots.now)) after
        (record { manager = s.now.kept.manager; entry = s.now.kept.entry })) }
    ensures known { IfSome result
        (λ s. IsTrue (is_known s.now.kept.manager (identities (configured slots.now)))) }
    ensures keepable { IfSome result (λ s. IsKeepable s.now.kept.entry) }
{
    let mut next = None;
    for place in 0..slots.len() {
        if slots[place].is_used_after(after) && is_sooner(slots, place, next) {
            next = Some(place);
        }
    }
    match next {
        None => None,
        Some(place) => Some(&slots[place]),
    }
}

/// Whether the manager of a slot comes before that of the next one, as far as one was found.
fn is_sooner(slots: &[Slot], place: usize, next: Option<usize>) -> bool
    requires place { place < length slots.now }
    requires next { IfSome next (λ j. j < length slots.now) }
    ensures { (s : Slot) → slice_get slots.now place ≡ Some s
        → IsTrue result ↔ IsSooner slots.now s next }
{
    match next {
        None => true,
        Some(next) => is_before(slots[place].kept.manager(), slots[next].kept.manager()),
    }
}
