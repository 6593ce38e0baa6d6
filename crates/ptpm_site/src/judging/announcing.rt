//! Ports whose parent announces too seldom for them (7.7.2, 7.7.3).

use crate::judging::evidence::Evidence;
use crate::looks::stay::{is_another, time_between};
use crate::looks::stay_limits::interval;
use crate::reading::arrival::SourcePort;
use crate::reading::clock::Received;
use crate::reading::data_sets::PortDataSet;
use crate::reading::site::Site;
use crate::reading::source::Source;
use ptpm_codec::PortIdentity;
use ptpm_data::PortState;

/// A port that waits for an Announce less long than its parent takes from one to the next.
#[derive(Clone, Copy)]
pub struct Seldom {
    /// logAnnounceInterval of the port.
    pub log_announce: i8,
    /// announceReceiptTimeout of the port, in its intervals.
    pub timeout: u8,
    /// The port that it follows.
    pub parent: PortIdentity,
    /// logMessageInterval of the last Announce of that port that was heard, or else its logAnnounceInterval.
    pub parent_log: i8,
}

/// Whether 2^n of a port's intervals are more than four of them, or as long as the port waits, or longer.
fn outlasts(n: i16, timeout: u8) -> bool {
    match n {
        0 => timeout <= 1,
        1 => timeout <= 2,
        2 => timeout <= 4,
        _ => 2 < n || timeout == 0,
    }
}

/// Whether a clock has one port, by its DEFAULT_DATA_SET.
fn has_one_port(site: &Site, source: Source) -> bool {
    match site.default(source) {
        Some(default) => default.number_of_ports == 1,
        None => false,
    }
}

/// Whether a port takes time from its parent, is about to, or, as its clock's one port, listens.
pub fn takes_time(site: &Site, source: Source, set: &PortDataSet) -> bool {
    let is_listening = matches!(set.state(), Some(PortState::Listening));
    set.is_following() || is_listening && has_one_port(site, source)
}

/// The port of a clock that another clock of its domain follows.
pub fn port_above(source: Source, parent: PortIdentity) -> SourcePort {
    SourcePort {
        source: source.beside(parent.clock),
        port: parent.port,
    }
}

/// Whether a parent that announces so announces too seldom for the port.
fn is_too_seldom(own: &PortDataSet, parent_log: i8) -> bool {
    outlasts(
        i16::from(parent_log) - i16::from(own.log_announce),
        own.receipt_timeout,
    )
}

/// How often a port announces, by the last of its Announces that was heard, or else by its PORT_DATA_SET.
fn announced_log(evidence: &Evidence, port: SourcePort, set: &PortDataSet) -> i8 {
    match evidence.announced.get(&port) {
        Some(announced) => announced.log,
        None => set.log_announce,
    }
}

/// A port whose parent announces too seldom for it.
fn too_seldom(site: &Site, evidence: &Evidence, source: Source, port: u16) -> Option<Seldom> {
    let parent = site.parent(source)?.parent;
    let own = site.port(source, port)?;
    let above = site.port(source.beside(parent.clock), parent.port)?;
    let above_at = port_above(source, parent);
    if evidence.is_by_unicast(above_at) || !takes_time(site, source, &own) {
        return None;
    }
    let parent_log = announced_log(evidence, above_at, &above);
    if !is_too_seldom(&own, parent_log) {
        return None;
    }
    Some(Seldom {
        log_announce: own.log_announce,
        timeout: own.receipt_timeout,
        parent,
        parent_log,
    })
}

/// Whether it is certain: an Announce of the parent was heard, or the port was seen without a lock.
fn is_certain(
    site: &Site,
    evidence: &Evidence,
    source: Source,
    port: u16,
    parent: PortIdentity,
) -> bool {
    evidence.announced.contains_key(&port_above(source, parent))
        || site.port_answers(source, port).iter().any(|received| !matches!(
            received.state(),
            Some(PortState::Slave)
        ))
}

/// What is said of a port whose parent announces too seldom for it, if it is certain.
pub fn seldom_announced(
    site: &Site,
    evidence: &Evidence,
    source: Source,
    port: u16,
) -> Option<Seldom> {
    let seldom = too_seldom(site, evidence, source, port)?;
    if is_certain(site, evidence, source, port, seldom.parent) {
        Some(seldom)
    } else {
        None
    }
}

/// Whether a port stays as it is for three looks, and two of these intervals. Then one that is in SLAVE is served by unicast.
fn is_served(received: &[Received], log: i8) -> bool {
    let Some(last) = received.last() else {
        return false;
    };
    let Some(first) = received
        .iter()
        .find(|one| is_another(&one.request, &last.request))
    else {
        return false;
    };
    let has_third = received.iter().any(|one| {
        is_another(&one.request, &last.request) && is_another(&one.request, &first.request)
    });
    match time_between(last.at, first.at) {
        Some(time) => has_third && 2 * interval(log) <= time,
        None => false,
    }
}

/// What is said of a port whose parent may announce too seldom for it: by multicast it does, and no Announce was heard.
pub fn open_seldom(site: &Site, evidence: &Evidence, source: Source, port: u16) -> Option<Seldom> {
    let seldom = too_seldom(site, evidence, source, port)?;
    if is_certain(site, evidence, source, port, seldom.parent)
        || is_served(site.port_answers(source, port), seldom.parent_log)
    {
        None
    } else {
        Some(seldom)
    }
}
