//! A reply table in slots, whatever memory they lie in.

ghost use Rattle.std.specs.Prelude.{◌≡◌, ◌≤◌, false, IsOk, IsTrue, OnErr, OnOk, All, length};
ghost use Rattle.std.specs.FinMap as fin;
ghost use Rattle.ptpm_codec.specs.Message.{IsDataField, IsRequestAction};
ghost use Rattle.ptpm_table.specs.Entries.{FitsRequest, is_known};
ghost use Rattle.ptpm_table.specs.Managers.{has_twice, identities};
ghost use Rattle.ptpm_table.specs.declared.managers.TheConstants.{MOST_MANAGERS};
ghost use Rattle.ptpm_table.specs.Slots.{AreKeepable, AreKeepable-prop, HaveFew, HaveRoom, clocks, configured};

use crate::heard::Heard;
use crate::in_order::{LentEntries, in_order};
use crate::lending::{LendingTable, LentEntry};
use crate::outbox::Outbox;
use crate::outgoing::Outgoing;
use crate::reply_table::{Look, ReplyTable, SureTable};
use crate::slot_list::{count_used, look_at, next_slot, put, put_sent, rights_of, slot_at};
use crate::slot_memory::SlotMemory;
use ptpm_codec::{ClockIdentity, OutOfMemory, PortIdentity};
use ptpm_data::{PortAnswer, Reply, Request, Rights};

/// The latest accepted requests, in slots of some memory, one for each manager. A slot has 2,144 octets, and blocks of memory for the messages of more than `INLINE_PORTS` answers. Replies are kept as octets:
/// `keep_sent` copies the messages as they were sent, and `keep` encodes them. `resend` copies them and writes over what depends
/// on the copy that is answered. Once it is made, a table takes no memory, and `keep` is never refused.
#[derive(Drop)]
pub struct TableOver<M: SlotMemory + Drop> {
    pub(crate) clock: ClockIdentity,
    pub(crate) slots: M,
    /// How many answers of a reply it keeps.
    pub(crate) answers: u16,
    ghost distinct: { has_twice (identities (configured (M.slots slots))) ≡ false },
    ghost own: { All (λ c. c ≡ clock) (clocks (M.slots slots)) },
    ghost few: { length (M.slots slots) ≤ MOST_MANAGERS },
    ghost keepable: { AreKeepable (M.slots slots) } by { AreKeepable-prop (M.slots slots) },
    ghost have_room: { HaveRoom answers (M.slots slots) },
    ghost have_few: { HaveFew answers (M.slots slots) },
    ghost no_spare: { M.spare slots ≡ 0 },
}

impl<M: SlotMemory + Drop> TableOver<M> {
    /// How many answers of a reply it keeps.
    #[inline(always)]
    pub fn answers_kept(&self) -> usize
        ensures { result ≡ ⟦<TableOver<M> as ReplyTable>⟧.most self.now }
    {
        self.answers as usize
    }
}

impl<M: SlotMemory + Drop> ReplyTable for TableOver<M> {
    ghost use Rattle.std.specs.FinMap as fin;
    ghost use Rattle.ptpm_table.specs.Managers.{clock_with};
    ghost use Rattle.ptpm_table.specs.Slots.{configured, used};

    ghost owner = { λ t. clock_with t.clock (configured (M.slots t.slots)) };

    ghost entries = { λ t. fin.from_entries (used (M.slots t.slots)) };

    ghost most = { λ t. t.answers };

    fn clock(&self) -> ClockIdentity {
        self.clock
    }

    fn knows(&self, who: &PortIdentity) -> bool {
        slot_at(self.slots.slots(), who).is_some()
    }

    fn rights(&self, who: &PortIdentity) -> Rights {
        rights_of(self.slots.slots(), who)
    }

    fn look(&self, who: &PortIdentity, number: u16, request: &Request<'_>) -> Look {
        self.look_with_rights(who, number, request).0
    }

    fn look_with_rights(
        &self,
        who: &PortIdentity,
        number: u16,
        request: &Request<'_>,
    ) -> (Look, Rights) {
        look_at(self.slots.slots(), who, number, request)
    }

    /// Never refused.
    fn keep(
        &mut self,
        who: &PortIdentity,
        number: u16,
        request: &Request<'_>,
        reply: &Reply,
    ) -> Result<(), OutOfMemory>
        requires known { IsTrue (is_known who.now
            (⟦<TableOver<M> as ReplyTable>⟧.owner self.old).managers) }
        requires action { IsRequestAction request.now.action }
        requires octets { IsDataField request.now.octets }
        requires fits { FitsRequest request.now reply.now }
        requires few { length reply.now.answers ≤ ⟦<TableOver<M> as ReplyTable>⟧.most self.old }
        ensures never_refused { IsOk result }
        ensures ok { OnOk result
            (⟦<TableOver<M> as ReplyTable>⟧.entries self.new
            ≡ fin.insert (⟦<TableOver<M> as ReplyTable>⟧.entries self.old) who.now
            (record { number = number; request = request.now; reply = reply.now })) }
        ensures err { OnErr result
            (⟦<TableOver<M> as ReplyTable>⟧.entries self.new
            ≡ ⟦<TableOver<M> as ReplyTable>⟧.entries self.old) }
        ensures owner { ⟦<TableOver<M> as ReplyTable>⟧.owner self.new
            ≡ ⟦<TableOver<M> as ReplyTable>⟧.owner self.old }
        ensures most { ⟦<TableOver<M> as ReplyTable>⟧.most self.new
            ≡ ⟦<TableOver<M> as ReplyTable>⟧.most self.old }
    {
        self.replace_answers(who, number, request, reply.answers.as_slice());
        Ok(())
    }

    fn resend(&self, heard: &Heard, ingress: u16, out: &mut Outbox) {
        self.send_again(heard, ingress, out);
    }
}

impl<M: SlotMemory + Drop> SureTable for TableOver<M> {
    fn replace_answers(
        &mut self,
        who: &PortIdentity,
        number: u16,
        request: &Request<'_>,
        answers: &[PortAnswer],
    ) {
        let slots = self.slots.slots_mut();
        put(slots, who, number, request, answers);
    }

    #[inline(always)]
    fn keep_sent<O: Outgoing>(
        &mut self,
        heard: &Heard,
        request: &Request<'_>,
        of_port: bool,
        out: &O,
    ) {
        let slots = self.slots.slots_mut();
        put_sent(slots, heard, request, of_port, out);
    }

    #[inline(always)]
    fn send_again<O: Outgoing>(&self, heard: &Heard, ingress: u16, out: &mut O) {
        match slot_at(self.slots.slots(), &heard.source) {
            Some(slot) => slot.kept.resend(heard, ingress, out),
            None => unreachable!(),
        }
    }

    fn few_answers(&self) {}
}

impl<M: SlotMemory + Drop> LendingTable for TableOver<M> {
    fn entry_count(&self) -> usize {
        count_used(self.slots.slots())
    }

    fn next_entry(&self, after: Option<PortIdentity>) -> Option<LentEntry<'_>> {
        next_slot(self.slots.slots(), after).map(|slot| slot.kept.entry())
    }

    fn in_order(&self) -> LentEntries<'_> {
        in_order(self.slots.slots())
    }
}
