//! What a clock begins with, before it is made.

ghost use Rattle.std.specs.Prelude.{◌≡◌, ◌≢◌, ◌≤◌, IfErr, IfOk, MatchResult, None, Ok, OnOk, Some, length};
ghost use Rattle.ptpm_table.specs.Managers.{IsFresh, identities, block_refusal};
ghost use Rattle.ptpm_saved.specs.Image.{SavedClock};
ghost use Rattle.ptpm_host.specs.Clock.{start_by, start_refusal};
ghost use Rattle.ptpm_host.specs.Restoring.{CanRestore, HasOwner, IsOwnerRefused, IsRestoreRefused};
ghost use Rattle.ptpm_host.specs.Settings.{configured};

use crate::managers::{judged_table, managers_fault};
use crate::refusal::{ClockRestoreRefusal, StartRefusal};
use crate::settings::{ClockSettings, ManagerSettings, NO_IDENTITY, PortSettings, port_starts};
use ptpm_codec::{ClockIdentity, OutOfMemory};
use ptpm_data::{DataSets, INLINE_PORTS, PortStart, StartFault};
use ptpm_saved::{RestoreFault, judge_into};
use ptpm_table::{HeapTable, ReplyTable};
use std::alloc::Global;

/// The data sets of a clock that may start.
#[derive(Drop)]
pub(crate) struct JudgedStart {
    pub sets: DataSets,
    /// What its ports start with, if they lie in a block. It goes after the clock is made: so what a clock takes lies in one piece
    /// where a host gives memory from one end.
    starts: Option<Vec<PortStart>>,
}

impl JudgedStart {
    /// What these settings describe, or the first reason why no clock starts so. Never inlined: so the stack has what they are judged by
    /// only for this call.
    #[inline(never)]
    pub fn new(
        alloc: Global,
        settings: &ClockSettings,
        ports: &[PortSettings],
        managers: &[ManagerSettings],
    ) -> Result<JudgedStart, StartRefusal>
        ensures sets { IfOk result (λ j. start_by settings.now ports.now ≡ Ok j.sets) }
        ensures identity { IfOk result
            (λ j. j.sets.default.identity ≡ record { 0 = settings.now.identity }) }
        ensures managers { OnOk result (block_refusal (identities (configured managers.now)) ≡ None) }
        ensures permitted { OnOk result (start_refusal settings.now ports.now managers.now ≡ None) }
        ensures refused { IfErr result (λ e. e ≢ StartRefusal.OutOfMemory →
            start_refusal settings.now ports.now managers.now ≡ Some e) }
    {
        let Ok(starts) = port_starts(alloc, ports) else {
            return Err(StartRefusal::OutOfMemory);
        };
        let sets = match DataSets::new_in(alloc, &settings.start(), starts.as_slice()) {
            Ok(sets) => sets,
            Err(StartFault::Refused(error)) => return Err(StartRefusal::Values(error)),
            Err(StartFault::OutOfMemory) => return Err(StartRefusal::OutOfMemory),
        };
        if let Some(fault) = managers_fault(managers) {
            return Err(StartRefusal::Managers(fault));
        }
        if ClockIdentity(settings.identity) == NO_IDENTITY {
            return Err(StartRefusal::IdentityIsZero);
        }
        let starts = if starts.len() <= INLINE_PORTS {
            None
        } else {
            Some(starts)
        };
        Ok(JudgedStart { sets, starts })
    }

    /// The reply table of the clock, without entries. The managers are those that were judged.
    pub fn table(
        &self,
        alloc: Global,
        managers: &[ManagerSettings],
    ) -> Result<HeapTable, OutOfMemory>
        requires { block_refusal (identities (configured managers.now)) ≡ None }
        ensures fresh { IfOk result (λ t. IsFresh self.now.sets.default.identity (configured managers.now)
            (⟦<HeapTable as ReplyTable>⟧.owner t) (⟦<HeapTable as ReplyTable>⟧.entries t)) }
        ensures most { IfOk result (λ t. length self.now.sets.ports ≤ ⟦<HeapTable as ReplyTable>⟧.most t) }
    {
        judged_table(
            alloc,
            self.sets.identity(),
            self.sets.port_count(),
            managers,
        )
    }
}

/// Leaves the data sets of an image in `sets`. Or answers the first reason why no clock of this identity, with this many
/// ports and these managers, goes on from it. Of the managers nothing is left on the stack while the image is judged.
pub(crate) fn judge_image(
    alloc: Global,
    identity: &[u8; 8],
    ports: usize,
    managers: &[ManagerSettings],
    image: &[u8],
    sets: &mut DataSets,
) -> Result<(), ClockRestoreRefusal>
    ensures judged { OnOk result ((c : SavedClock)
        × CanRestore (record { 0 = identity.now }) ports managers.now image.now c
        × (sets.new ≡ c.sets)) }
    ensures refused { IfErr result
        (λ e. IsRestoreRefused (record { 0 = identity.now }) ports managers.now image.now e) }
    ensures found { (c : SavedClock)
        → CanRestore (record { 0 = identity.now }) ports managers.now image.now c
        → MatchResult result (λ _. sets.new ≡ c.sets) (λ e. e ≡ ClockRestoreRefusal.OutOfMemory) }
{
    judge_owner(identity, managers)?;
    match judge_into(alloc, image, &ClockIdentity(*identity), ports, sets) {
        Ok(()) => Ok(()),
        Err(RestoreFault::Refused(refusal)) => Err(ClockRestoreRefusal::Image(refusal)),
        Err(RestoreFault::OutOfMemory) => Err(ClockRestoreRefusal::OutOfMemory),
    }
}

/// Whether a clock can have these managers and this identity.
pub(crate) fn judge_owner(
    identity: &[u8; 8],
    managers: &[ManagerSettings],
) -> Result<(), ClockRestoreRefusal>
    ensures { MatchResult result
        (λ _. HasOwner (record { 0 = identity.now }) managers.now)
        (λ e. IsOwnerRefused (record { 0 = identity.now }) managers.now e) }
{
    if let Some(fault) = managers_fault(managers) {
        return Err(ClockRestoreRefusal::Managers(fault));
    }
    if ClockIdentity(*identity) == NO_IDENTITY {
        return Err(ClockRestoreRefusal::IdentityIsZero);
    }
    Ok(())
}
