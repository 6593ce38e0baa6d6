//! A reply table over a map on the heap.

ghost use Rattle.std.specs.Prelude.{◌≡◌, ◌≢◌, ◌≤◌, IfOk, IfErr, Some, length};
ghost use Rattle.std.specs.FinMap as fin;
ghost use Rattle.std.specs.Option.{option_copied};
ghost use Rattle.ptpm_codec.specs.Identity.{identity_cmp};
ghost use Rattle.ptpm_table.specs.Managers.{IsFresh, identities, table_refusal};

use crate::error::TableError;
use crate::heard::Heard;
use crate::kept::{copy_reply, judge};
use crate::managers::{MANAGERS, is_configured, refusal, rights_of};
use crate::outbox::Outbox;
use crate::rendering::render;
use crate::reply_table::{Look, ReplyTable};
use indexmap::IndexMap;
use ptpm_codec::{Action, ClockIdentity, Octets, OutOfMemory, PortIdentity};
use ptpm_data::{INLINE_PORTS, Reply, Request, Rights};
use std::alloc::Global;
use std::marker::Model;

/// A request with octets of its own, its number and its reply. Contracts see it as the entry of a table.
#[derive(Drop)]
struct Kept {
    number: u16,
    action: Action,
    id: u16,
    port: u16,
    octets: Octets,
    reply: Reply,
}

impl Model for Kept {
    ghost use Rattle.ptpm_table.specs.Entries.{Entry, FitsRequest};

    ghost Value = { Entry };

    ghost view = { λ k. record {
      number = k.number;
      request = record { action = k.action; id = k.id; port = k.port; octets = k.octets };
      reply = k.reply;
    } };

    ghost invariant = { λ k. FitsRequest (record { action = k.action; id = k.id; port = k.port; octets = k.octets }) k.reply };
}

impl Kept {
    /// The request, with its dataField lent. The reply to it has no more answers than have room.
    fn request(&self) -> Request<'_>
        ensures request { result ≡ self.now.request }
        ensures few { length self.now.reply.answers ≤ INLINE_PORTS }
    {
        let _answers = self.reply.answers.as_slice();
        Request {
            action: self.action,
            id: self.id,
            port: self.port,
            octets: self.octets.as_slice(),
        }
    }
}

/// The latest accepted requests in a map, with the memory that they need. `keep` asks for it, and changes nothing if it
/// is refused.
#[derive(Drop)]
pub struct PlainTable {
    clock: ClockIdentity,
    managers: Vec<(PortIdentity, Rights)>,
    kept: IndexMap<PortIdentity, Kept>,
    alloc: Global,
}

impl PlainTable {
    /// A table without entries, of this clock and these managers. At most sixteen managers, and each identity once.
    pub fn new(
        alloc: Global,
        clock: ClockIdentity,
        managers: &[(PortIdentity, Rights)],
    ) -> Result<PlainTable, TableError>
        ensures fresh { IfOk result (λ t. IsFresh clock managers.now
            (⟦<PlainTable as ReplyTable>⟧.owner t) (⟦<PlainTable as ReplyTable>⟧.entries t)) }
        ensures refused { (e : TableError)
            → table_refusal (identities managers.now) ≡ Some e
            → result ≡ Err e }
        ensures no_other { IfErr result
            (λ e. e ≢ TableError.OutOfMemory → table_refusal (identities managers.now) ≡ Some e) }
    {
        if let Some(error) = refusal(managers, MANAGERS) {
            return Err(error);
        }
        match Vec::from_slice(alloc, managers) {
            Ok(managers) => Ok(PlainTable {
                clock,
                managers,
                kept: IndexMap::new(alloc),
                alloc,
            }),
            Err(_) => Err(TableError::OutOfMemory),
        }
    }

    #[tactic(auto, using(crate::proofs::Identities::get_entry))]
    fn find(&self, who: &PortIdentity) -> Option<&Kept>
        ensures { option_copied result
            ≡ fin.get (fin.from_entries {R = identity_cmp} self.now.kept.entries) who.now }
    {
        self.kept.get(who)
    }
}

impl ReplyTable for PlainTable {
    ghost use Rattle.ptpm_data.specs.declared.ports.TheConstants.{INLINE_PORTS};
    ghost use Rattle.std.specs.FinMap as fin;
    ghost use Rattle.ptpm_table.specs.Managers.{clock_with};

    ghost owner = { λ t. clock_with t.clock t.managers.items };

    ghost entries = { λ t. fin.from_entries t.kept.entries };

    ghost most = { λ t. INLINE_PORTS };

    fn clock(&self) -> ClockIdentity {
        self.clock
    }

    fn knows(&self, who: &PortIdentity) -> bool {
        is_configured(self.managers.as_slice(), who)
    }

    fn rights(&self, who: &PortIdentity) -> Rights {
        rights_of(self.managers.as_slice(), who)
    }

    fn look(&self, who: &PortIdentity, number: u16, request: &Request<'_>) -> Look {
        if !self.knows(who) {
            return Look::Unknown;
        }
        match self.find(who) {
            None => Look::New,
            Some(kept) => judge(kept.number, &kept.request(), number, request),
        }
    }

    #[tactic(auto, using(crate::proofs::Identities::one_entry))]
    fn keep(
        &mut self,
        who: &PortIdentity,
        number: u16,
        request: &Request<'_>,
        reply: &Reply,
    ) -> Result<(), OutOfMemory> {
        let octets = Octets::copy_of(self.alloc, request.octets)?;
        let mut copy = Reply::empty();
        copy_reply(reply, &mut copy);
        let kept = Kept {
            number,
            action: request.action,
            id: request.id,
            port: request.port,
            octets,
            reply: copy,
        };
        match self.kept.insert(*who, kept) {
            Ok(_) => Ok(()),
            Err(_) => Err(OutOfMemory),
        }
    }

    #[tactic(auto, using(crate::proofs::Fitting::fitting_action, crate::proofs::Fitting::fitting_even))]
    fn resend(&self, heard: &Heard, ingress: u16, out: &mut Outbox) {
        match self.find(&heard.source) {
            Some(kept) => render(&self.clock, heard, &kept.reply, ingress, out),
            None => unreachable!(),
        }
    }
}
