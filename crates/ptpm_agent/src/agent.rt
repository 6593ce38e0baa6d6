//! One clock's management agent, over any reply table.

ghost use Rattle.std.specs.Prelude.{◌≤◌, length};

use ptpm_data::DataSets;
use ptpm_table::ReplyTable;

/// A clock's data sets and its reply table, and what becomes of the datagrams that come in at its ports. The table keeps a reply
/// of all ports.
#[derive(Drop)]
pub struct Agent<T: ReplyTable + Drop> {
    pub(crate) sets: DataSets,
    pub(crate) table: T,
    ghost room: { length sets.ports ≤ T.most table },
}
