//! The managers that a host configures.

ghost use Rattle.std.specs.Prelude.{◌≡◌, ◌≤◌, IfOk, None, length, max, take};
ghost use Rattle.ptpm_table.specs.declared.managers.TheConstants.{MOST_MANAGERS};
ghost use Rattle.ptpm_table.specs.Managers.{IsFresh, block_refusal, identities};
ghost use Rattle.ptpm_host.specs.Settings.{configured};

use crate::settings::{ManagerSettings, NO_IDENTITY};
use ptpm_codec::{ClockIdentity, OutOfMemory, PortIdentity};
use ptpm_data::{INLINE_PORTS, Rights};
use ptpm_table::{HeapTable, MOST_MANAGERS, ReplyTable, TableError, managers_refusal};
use std::alloc::Global;

/// What is in a place that no manager has.
const NOBODY: (PortIdentity, Rights) = (
    PortIdentity {
        clock: NO_IDENTITY,
        port: 0,
    },
    Rights::NONE,
);

/// Why these can't be a clock's managers, if they can't. Takes no memory. Never inlined: so the stack has room for them only for this
/// call.
#[inline(never)]
#[tactic(auto, using(crate::proofs::ManagerLemmas::too_many))]
pub(crate) fn managers_fault(managers: &[ManagerSettings]) -> Option<TableError>
    ensures { result ≡ block_refusal (identities (configured managers.now)) }
{
    if managers.len() > MOST_MANAGERS {
        return Some(TableError::TooMany);
    }
    let mut places = [NOBODY; MOST_MANAGERS];
    place_each(managers, &mut places);
    managers_refusal(&places[..managers.len()])
}

/// The reply table of a clock of this many ports without entries, for managers of whom none is refused. Never inlined: see `managers_fault`.
#[inline(never)]
#[tactic(auto, using(crate::proofs::ManagerLemmas::few, crate::proofs::ManagerLemmas::none_twice))]
pub(crate) fn judged_table(
    alloc: Global,
    clock: ClockIdentity,
    ports: u16,
    managers: &[ManagerSettings],
) -> Result<HeapTable, OutOfMemory>
    requires { block_refusal (identities (configured managers.now)) ≡ None }
    ensures fresh { IfOk result (λ t. IsFresh clock (configured managers.now)
        (⟦<HeapTable as ReplyTable>⟧.owner t) (⟦<HeapTable as ReplyTable>⟧.entries t)) }
    ensures most { IfOk result (λ t. ⟦<HeapTable as ReplyTable>⟧.most t ≡ max INLINE_PORTS ports) }
{
    let mut places = [NOBODY; MOST_MANAGERS];
    place_each(managers, &mut places);
    HeapTable::of_judged(alloc, clock, ports, &places[..managers.len()])
}

/// Puts these managers with their rights into the first places.
fn place_each(managers: &[ManagerSettings], places: &mut [(PortIdentity, Rights); MOST_MANAGERS])
    requires { length managers.now ≤ MOST_MANAGERS }
    ensures { take (length managers.now) places.new ≡ configured managers.now }
{
    for place in 0..managers.len() {
        places[place] = managers[place].manager();
    }
}
