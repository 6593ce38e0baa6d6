//! The members that an inventory may name.

use ptpm_members::Member;
use ptpm_site::reading::asked::{Asked, OF_CLOCK};
use ptpm_site::reading::member::members_of;

/// The member of an id with this name.
fn named(asked: Asked, name: &str) -> Option<Member> {
    members_of(asked)
        .iter()
        .copied()
        .find(|member| member.name() == name)
}

/// The member of a clock with this name.
pub(crate) fn clock_member(name: &str) -> Option<Member> {
    for asked in &OF_CLOCK {
        if let Some(member) = named(*asked, name) {
            return Some(member);
        }
    }
    None
}

/// The member of a port with this name.
pub(crate) fn port_member(name: &str) -> Option<Member> {
    named(Asked::PortDataSet, name)
}
