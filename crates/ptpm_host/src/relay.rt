//! The table of a device's own ids, as a host in C lays it out.

ghost use Rattle.std.specs.Prelude.{◌≡◌, ◌==◌, IfOk, MatchResult, None, OnErr, OnOk, count_by, map};
ghost use Rattle.ptpm_data.specs.Start.{unless};
ghost use Rattle.ptpm_host.specs.Relay.{IsRelayRefusal, id_refusal, ids_refusal, relay_refusal, relayed_id};

use crate::clock::HostedClock;
use crate::refusal::RelayRefusal;
use ptpm_codec::OutOfMemory;
use ptpm_data::{Actions, Rights, Scope, row};
use ptpm_device::RelayedId;
use std::alloc::Global;

/// The most ids of a table.
const MOST_IDS: usize = 32;

/// The most octets of a dataField that reaches the device.
const MOST_OCTETS: u16 = 130;

/// An id that the clock lacks and its device has, and which SETs and COMMANDs of it reach the device.
#[repr(C)]
#[derive(Clone, Copy)]
pub struct RelayedSettings {
    /// managementId.
    pub id: u16,
    /// 0 if it is of the clock, and 1 if it is of a port.
    pub scope: u8,
    /// 2 SET, 4 COMMAND, or their sum.
    pub actions: u8,
    /// What a manager needs of its rights: a sum of those of `ManagerSettings`. 0 if it needs none.
    pub right: u8,
    /// How many octets its dataField has at least, and at most. No more than 130.
    pub least: u16,
    pub most: u16,
}

const _: () = prove!(size_of::<RelayedSettings>() == 10);

impl RelayedSettings {
    /// As a row of the table.
    fn row(&self) -> RelayedId
        ensures { result ≡ relayed_id self.now }
    {
        RelayedId {
            id: self.id,
            scope: if self.scope == 1 {
                Scope::Port
            } else {
                Scope::Clock
            },
            actions: Actions(self.actions),
            right: Rights(self.right),
            least: self.least,
            most: self.most,
        }
    }

    /// Whether it can be a row of a table of all these; if not, why.
    #[tactic(auto, unfolding(crate::specs::Relay::id_refusal))]
    fn judge(&self, all: &[RelayedSettings]) -> Result<(), RelayRefusal>
        ensures { result ≡ unless (id_refusal self.now all.now) tt }
    {
        if row(self.id).is_some() {
            Err(RelayRefusal::ClockHasId)
        } else if count_of(all, self.id) > 1 {
            Err(RelayRefusal::RelayedTwice)
        } else if self.scope > 1 {
            Err(RelayRefusal::BadScope)
        } else if !(self.actions == 2 || self.actions == 4 || self.actions == 6) {
            Err(RelayRefusal::BadActions)
        } else if self.least > self.most || self.most > MOST_OCTETS {
            Err(RelayRefusal::BadSizes)
        } else {
            Ok(())
        }
    }
}

/// How many of these have an id.
fn count_of(all: &[RelayedSettings], id: u16) -> usize
    ensures { result ≡ count_by (λ y. y.id == id) all.now }
{
    all.iter().filter(|other| other.id == id).count()
}

impl HostedClock {
    /// Gives the clock these ids of its device, in place of those that it has. So a host calls it once, before the first datagram. They
    /// are in no image. If it is refused, nothing changes. Memory is asked for once the ids were judged.
    #[tactic(auto, using(crate::proofs::RelayLemmas::handed_refusal, crate::proofs::RelayLemmas::judged_none, crate::proofs::RelayLemmas::lacks_memory))]
    pub fn relay(&mut self, alloc: Global, ids: &[RelayedSettings]) -> Result<(), RelayRefusal>
        ensures relayed { OnOk result (self.new.relayed.items ≡ map relayed_id ids.now) }
        ensures refusal { MatchResult result
            (λ _. relay_refusal ids.now ≡ None)
            (λ e. IsRelayRefusal (relay_refusal ids.now) e) }
        ensures agent { self.new.agent ≡ self.old.agent }
        ensures under_way { self.new.under_way ≡ self.old.under_way }
        ensures unchanged { OnErr result (self.new ≡ self.old) }
    {
        judge(ids)?;
        let Ok(rows) = rows(alloc, ids) else {
            return Err(RelayRefusal::OutOfMemory);
        };
        self.relayed = rows;
        Ok(())
    }
}

/// Whether these can be a table; if not, the first reason of the first id that has one.
fn judge(ids: &[RelayedSettings]) -> Result<(), RelayRefusal>
    ensures { result ≡ unless (relay_refusal ids.now) tt }
{
    if ids.len() > MOST_IDS {
        return Err(RelayRefusal::TooManyIds);
    }
    judge_each(ids)
}

fn judge_each(ids: &[RelayedSettings]) -> Result<(), RelayRefusal>
    ensures { result ≡ unless (ids_refusal ids.now ids.now) tt }
{
    for id in ids {
        id.judge(ids)?;
    }
    Ok(())
}

/// These as rows, in a block of their own.
fn rows(alloc: Global, ids: &[RelayedSettings]) -> Result<Vec<RelayedId>, OutOfMemory>
    ensures { IfOk result (λ rows. rows.items ≡ map relayed_id ids.now) }
{
    let Ok(mut rows) = Vec::with_capacity(alloc, ids.len()) else {
        return Err(OutOfMemory);
    };
    for id in ids {
        rows.push_reserved(id.row());
    }
    Ok(rows)
}
