//! What a network file without a fault says: its clocks with all their ports, its sessions and its links, by places.
//!
//! Of a file with a fault each value is read as it is there, or another in its place.

ghost use Rattle.std.specs.Prelude.{◌≡◌, ◌≤◌, IfOk, length, map};
ghost use Rattle.toml.specs.View.{view, table_view};
ghost use Rattle.ptpm_script.specs.Heads.{clock_value, clocks_of, session_value, sessions_of};
ghost use Rattle.ptpm_script.specs.Marks.{if_any};
ghost use Rattle.ptpm_script.specs.NetworkText.{clock_of, clock_place, end_in, link_of, network_in, ports_of_clock, session_of, session_place, start_of_port};
ghost use Rattle.ptpm_script.specs.NetworkValue.{link_value, value_of};
ghost use Rattle.ptpm_script.specs.NetworkValue as networks;

use crate::heads::{ClockHead, Heads, SessionHead, number_in};
use crate::limits::LINKS;
use crate::names::Name;
use crate::network::{End, NetworkClock, NetworkLink, NetworkSession};
use crate::rights::rights_at;
use crate::spellings::end_at;
use crate::starts::{SOME_CLOCK, clock_start, port_start};
use crate::tables::{is_name_of, is_number, items_at, items_in, text_or_none};
use crate::values::{first_items, u8_or, u16_or};
use ptpm_codec::PortIdentity;
use ptpm_data::PortStart;
use std::alloc::{AllocError, Global};
use toml::{Table, Value};

/// The identity of a session that has none.
const SOME_PORT: PortIdentity = PortIdentity {
    clock: SOME_CLOCK,
    port: 0,
};

/// The parts of a network.
#[derive(Drop)]
pub(crate) struct Parts {
    pub(crate) clocks: Vec<NetworkClock>,
    pub(crate) sessions: Vec<NetworkSession>,
    pub(crate) links: Vec<NetworkLink>,
}

impl Parts {
    /// The parts of a document.
    #[tactic(auto, unfolding(crate::specs::NetworkText::network_in))]
    pub(crate) fn of(alloc: Global, file: &Table, heads: &Heads<'_>) -> Result<Parts, AllocError>
        requires clocks { map clock_value heads.now.clocks.items ≡ clocks_of (table_view file.now) }
        requires sessions { map session_value heads.now.sessions.items ≡ sessions_of (table_view file.now) }
        ensures { IfOk result
            (λ p. value_of p.clocks.items p.sessions.items p.links.items ≡ network_in (table_view file.now)) }
    {
        let clocks = heads.clocks.as_slice();
        let sessions = heads.sessions.as_slice();
        let links = first_items(items_at(file, "link"), LINKS);
        Ok(Parts {
            clocks: clocks_of(alloc, clocks)?,
            sessions: sessions_of(alloc, clocks, sessions)?,
            links: links_of(alloc, clocks, sessions, links)?,
        })
    }
}

/// The clocks with all their ports.
#[tactic(auto, unfolding(crate::specs::NetworkText::clock_of))]
fn clocks_of(alloc: Global, heads: &[ClockHead<'_>]) -> Result<Vec<NetworkClock>, AllocError>
    ensures { IfOk result
        (λ v. map networks.clock_value v.items ≡ map clock_of (map clock_value heads.now)) }
{
    let mut clocks = Vec::new(alloc);
    for head in heads {
        let table = head.at.table;
        let identity = head.identity.unwrap_or(SOME_CLOCK);
        clocks.push(NetworkClock {
            name: Name::copy_of(alloc, text_or_none(head.name))?,
            start: clock_start(identity, u8_or(table, "domain", 0), table),
            ports: ports_of(alloc, head)?,
        })?;
    }
    Ok(clocks)
}

/// The starts of the ports of a clock, from 1 on.
#[tactic(auto, unfolding(crate::specs::NetworkText::ports_of_clock))]
fn ports_of(alloc: Global, head: &ClockHead<'_>) -> Result<Vec<PortStart>, AllocError>
    ensures { IfOk result (λ v. v.items ≡ ports_of_clock (clock_value head.now)) }
{
    let tables = items_at(head.at.table, "port");
    let mut ports = Vec::new(alloc);
    for place in 0..head.count.unwrap_or(0) {
        ports.push(start_of_port(tables, place + 1))?;
    }
    Ok(ports)
}

/// The start of the port of a number: of its table, or this profile's defaults.
fn start_of_port(tables: &[Value], number: u16) -> PortStart
    ensures { result ≡ start_of_port (map view tables.now) number }
{
    for port in tables {
        if is_number(number_in(port), number) {
            return port.as_table().map_or(PortStart::new(), port_start);
        }
    }
    PortStart::new()
}

/// The sessions, each with the place of its target.
#[tactic(auto, unfolding(crate::specs::NetworkText::session_of))]
fn sessions_of(
    alloc: Global,
    clocks: &[ClockHead<'_>],
    heads: &[SessionHead<'_>],
) -> Result<Vec<NetworkSession>, AllocError>
    requires { length clocks.now ≤ 64 }
    ensures { IfOk result
        (λ v. v.items ≡ map (session_of (map clock_value clocks.now)) (map session_value heads.now)) }
{
    let mut sessions = Vec::new(alloc);
    for head in heads {
        let table = head.at.table;
        sessions.push(NetworkSession {
            name: Name::copy_of(alloc, text_or_none(head.name))?,
            identity: head.identity.unwrap_or(SOME_PORT),
            target: clock_place(clocks, text_or_none(head.target)),
            first: u16_or(table, "first", 0),
            hops: u8_or(table, "hops", 0),
            attempts: u8_or(table, "attempts", 0),
            domain: u8_or(table, "domain", 0),
            rights: rights_at(table),
        })?;
    }
    Ok(sessions)
}

/// The place of the clock of a name.
fn clock_place(clocks: &[ClockHead<'_>], name: &str) -> u8
    requires { length clocks.now ≤ 64 }
    ensures { result ≡ clock_place (map clock_value clocks.now) name.now }
{
    for place in 0..clocks.len() {
        if is_name_of(clocks[place].name, name) {
            return place as u8;
        }
    }
    0
}

/// The place of the session of a name.
fn session_place(sessions: &[SessionHead<'_>], name: &str) -> u16
    requires { length sessions.now ≤ 256 }
    ensures { result ≡ session_place (map session_value sessions.now) name.now }
{
    for place in 0..sessions.len() {
        if is_name_of(sessions[place].name, name) {
            return place as u16;
        }
    }
    0
}

/// The links, with their ends by places.
#[tactic(auto, unfolding(crate::specs::NetworkText::link_of))]
fn links_of(
    alloc: Global,
    clocks: &[ClockHead<'_>],
    sessions: &[SessionHead<'_>],
    values: &[Value],
) -> Result<Vec<NetworkLink>, AllocError>
    requires clocks { length clocks.now ≤ 64 }
    requires sessions { length sessions.now ≤ 256 }
    ensures { IfOk result
        (λ v. map link_value v.items
        ≡ map (link_of (map clock_value clocks.now) (map session_value sessions.now)) (map view values.now)) }
{
    let mut links = Vec::new(alloc);
    for link in values {
        let mut ends = Vec::new(alloc);
        let spelt = items_in(link, "ends");
        for value in spelt {
            if let Some(end) = end_in(clocks, sessions, value) {
                ends.push(end)?;
            }
        }
        links.push(NetworkLink { ends })?;
    }
    Ok(links)
}

/// An end by places, if it is spelt as one.
fn end_in(clocks: &[ClockHead<'_>], sessions: &[SessionHead<'_>], value: &Value) -> Option<End>
    requires clocks { length clocks.now ≤ 64 }
    requires sessions { length sessions.now ≤ 256 }
    ensures { if_any result
        ≡ end_in (map clock_value clocks.now) (map session_value sessions.now) (view value.now) }
{
    let (name, port) = end_at(value)?;
    match port {
        Some(port) => Some(End::Clock(clock_place(clocks, name), port)),
        None => Some(End::Session(session_place(sessions, name))),
    }
}
