//! The clocks of a change.

ghost use Rattle.std.specs.Prelude.{◌≡◌, IfErr, IfOk, OnOk, length};
ghost use Rattle.ptpm_apply.specs.Lanes.{Adds, AreLanesOf, AreRising, IsGapFor, IsPlaceOf, new_lane};

use crate::lane::Lane;
use crate::planned::Planned;
use std::alloc::{AllocError, Global};

impl Lane {
    /// Of a clock nothing is known yet.
    fn new(clock: u64) -> Lane
        ensures { result ≡ new_lane clock }
    {
        Lane {
            clock,
            is_held: false,
            is_left: false,
        }
    }
}

/// The clocks of steps, each once, in the order of their identities.
pub fn lanes_of(alloc: Global, steps: &[Planned]) -> Result<Vec<Lane>, AllocError>
    ensures { IfOk result (λ lanes. AreLanesOf steps.now (length steps.now) lanes.items) }
{
    let mut lanes: Vec<Lane> = Vec::new(alloc);
    for step in steps {
        add(&mut lanes, step.clock)?;
    }
    Ok(lanes)
}

/// Adds a clock, unless it is there.
fn add(lanes: &mut Vec<Lane>, clock: u64) -> Result<(), AllocError>
    requires { AreRising lanes.old.items }
    ensures { OnOk result (Adds clock lanes.old.items lanes.new.items) }
{
    match search(lanes.as_slice(), clock) {
        Ok(_) => Ok(()),
        Err(place) => Ok(lanes.insert(place, Lane::new(clock))?),
    }
}

/// The place of a clock, or the one where it is to be added.
fn search(lanes: &[Lane], clock: u64) -> Result<usize, usize>
    requires { AreRising lanes.now }
    ensures found { IfOk result (IsPlaceOf lanes.now clock) }
    ensures absent { IfErr result (IsGapFor lanes.now clock) }
{
    lanes.binary_search_by_key(&clock, |lane| lane.clock)
}
