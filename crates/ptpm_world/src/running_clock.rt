//! A clock of a network that runs.

ghost use Rattle.std.specs.Prelude.{◌≡◌};
ghost use Rattle.ptpm_data.specs.declared.ports.TheConstants.{INLINE_PORTS};

use ptpm_agent::Agent;
use ptpm_script::Name;
use ptpm_table::BoundTable;

/// A clock at its place. Its table keeps replies of as many answers as a clock of a network file has ports.
#[derive(Drop)]
pub(crate) struct RunningClock {
    pub(crate) name: Name,
    pub(crate) agent: Agent<BoundTable>,
    ghost few_answers: { agent.table.answers ≡ INLINE_PORTS },
}
