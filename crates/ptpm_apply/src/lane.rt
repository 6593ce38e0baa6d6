//! One clock of a change.

ghost use Rattle.std.specs.Prelude.{◌≡◌, ◌≤◌, length};
ghost use Rattle.ptpm_apply.specs.Rollout.{place_from};

/// A clock, and what this run is to do there.
#[derive(Clone, Copy)]
pub struct Lane {
    /// The clockIdentity, as a number.
    pub clock: u64,
    /// It is silent, or has another value: no further step is begun there.
    pub is_held: bool,
    /// Its mark is gone.
    pub is_left: bool,
}

/// The place of a clock; 0 if there is none such.
pub fn place_in(lanes: &[Lane], clock: u64) -> u16
    requires { length lanes.now ≤ 65535 }
    ensures { result ≡ place_from 0 lanes.now clock }
{
    let mut place = 0;
    for lane in lanes {
        if lane.clock == clock {
            return place;
        }
        place += 1;
    }
    0
}
