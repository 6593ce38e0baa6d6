//! Places of a host in which nothing of a message is left.

ghost use Rattle.std.specs.Prelude.{◌≤◌, length};
ghost use Rattle.ptpm_host.specs.Blanks.{AreBlanked};

use crate::sent::Sent;

/// Leaves zeros in the first places.
pub(crate) fn blank(room: &mut [Sent], count: usize)
    requires { count ≤ length room.old }
    ensures { AreBlanked count room.old room.new }
{
    for place in 0..count {
        room[place] = Sent::empty();
    }
}
