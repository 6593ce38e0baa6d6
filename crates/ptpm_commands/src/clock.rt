//! The clock that `ptpm answer` shows: fresh, with two ports and one configured manager, who has every right.

ghost use Rattle.std.specs.Prelude.{◌≡◌, []};
ghost use Rattle.ptpm_commands.specs.FreshClock.{fresh_sets, managers, shown};
ghost use Rattle.ptpm_data.specs.declared.ports.TheConstants.{INLINE_PORTS};
ghost use Rattle.ptpm_data.specs.Members.{HasPort};
ghost use Rattle.ptpm_table.specs.Managers.{IsFresh};

use ptpm_agent::Agent;
use ptpm_codec::{ClockIdentity, PortIdentity};
use ptpm_data::{ClockStart, DataSets, PortStart, Rights};
use ptpm_table::{BoundTable, ReplyTable};

const CLOCK: ClockIdentity = ClockIdentity([0xaa, 0xbb, 0xcc, 0xff, 0xfe, 0xdd, 0xee, 0x01]);

const MANAGER: PortIdentity = PortIdentity {
    clock: ClockIdentity([0x00, 0x11, 0x22, 0x33, 0x44, 0x55, 0x66, 0x77]),
    port: 1,
};

/// The clock, which has heard nothing yet and does not have its manager yet. It has some 36,000 octets, and is handed on in
/// the place where it is made: `admit_manager` is for whom it is handed to.
#[inline(always)]
pub(crate) fn fresh_clock() -> Agent<BoundTable>
    ensures sets { result.sets ≡ fresh_sets }
    ensures table { IsFresh shown []
        (⟦<BoundTable as ReplyTable>⟧.owner result.table)
        (⟦<BoundTable as ReplyTable>⟧.entries result.table) }
    ensures most { ⟦<BoundTable as ReplyTable>⟧.most result.table ≡ INLINE_PORTS }
    ensures port { HasPort 1 result.sets }
{
    Agent::without_managers(first_sets())
}

/// Gives the clock its manager, in place.
pub(crate) fn admit_manager(clock: &mut Agent<BoundTable>)
    requires table { IsFresh shown []
        (⟦<BoundTable as ReplyTable>⟧.owner clock.old.table)
        (⟦<BoundTable as ReplyTable>⟧.entries clock.old.table) }
    requires most { ⟦<BoundTable as ReplyTable>⟧.most clock.old.table ≡ INLINE_PORTS }
    ensures sets { clock.new.sets ≡ clock.old.sets }
    ensures table { IsFresh shown managers
        (⟦<BoundTable as ReplyTable>⟧.owner clock.new.table)
        (⟦<BoundTable as ReplyTable>⟧.entries clock.new.table) }
    ensures most { ⟦<BoundTable as ReplyTable>⟧.most clock.new.table ≡ INLINE_PORTS }
{
    clock.admit(&[(MANAGER, Rights::ALL)]);
}

/// The data sets that the clock starts with.
#[inline(never)]
fn first_sets() -> DataSets
    ensures { result ≡ fresh_sets }
{
    let ports = [PortStart::new(), PortStart::new()];
    match DataSets::new(&ClockStart::new(CLOCK, 0), &ports) {
        Ok(sets) => sets,
        Err(_) => unreachable!(),
    }
}
