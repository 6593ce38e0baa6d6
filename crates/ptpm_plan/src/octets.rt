//! Octets of a dataField, which may have fewer than are asked for, and lines of a text.

ghost use Rattle.std.specs.Prelude.{◌≡◌, ◌+◌, ◌*◌, ◌<◌, ◌≤◌, length};
ghost use Rattle.ptpm_data.specs.SetField.{octet};
ghost use Rattle.ptpm_plan.specs.Octets.{line_after, pair_at};

/// The octet at a place; 0 past the end.
pub(crate) fn octet(octets: &[u8], place: usize) -> u8
    ensures { result ≡ octet place octets.now }
{
    if place < octets.len() {
        octets[place]
    } else {
        0
    }
}

/// The two octets from a place, the higher first.
#[tactic(auto, unfolding(crate::specs::Octets::pair_at))]
pub(crate) fn pair_at(octets: &[u8], place: usize) -> u16
    requires { place < 1000 }
    ensures { result ≡ pair_at place octets.now }
{
    u16::from(octet(octets, place)) * 256 + u16::from(octet(octets, place + 1))
}

/// The line, from 1, that comes after these octets of a text.
pub(crate) fn line_after(before: &[u8]) -> usize
    requires { length before.now ≤ 262144 }
    ensures { result ≡ line_after before.now }
{
    1 + before.iter().filter(|octet| **octet == b'\n').count()
}
