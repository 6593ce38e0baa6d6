//! What tables of a network file are known by: names, identities, targets and ends.

ghost use Rattle.std.specs.Prelude.{◌≡◌, ◌++◌, IfOk, OnOk, map};
ghost use Rattle.toml.specs.View.{view, table_view};
ghost use Rattle.ptpm_script.specs.Heads.{clock_head, clock_value, clocks_of, end_head, end_value, ends_of, number_in, session_head, session_value, sessions_of};
ghost use Rattle.ptpm_script.specs.Marks.{each, spot_of};

use crate::limits::{CLOCKS, LINKS, MOST_ENDS, SESSIONS};
use crate::place::{Array, Place, TableAt};
use crate::spellings::end_at;
use crate::tables::{items_at, items_in, name_at};
use crate::values::{clock_at, first_items, port_at, u16_at};
use ptpm_codec::{ClockIdentity, PortIdentity};
use std::alloc::{AllocError, Global};
use toml::{Table, Value};

/// A clock.
#[derive(Clone, Copy)]
pub(crate) struct ClockHead<'a> {
    pub(crate) at: TableAt<'a>,
    /// Its number from 1.
    pub(crate) number: usize,
    pub(crate) name: Option<&'a str>,
    pub(crate) identity: Option<ClockIdentity>,
    /// How many ports it is to have.
    pub(crate) count: Option<u16>,
}

/// A session.
#[derive(Clone, Copy)]
pub(crate) struct SessionHead<'a> {
    pub(crate) at: TableAt<'a>,
    pub(crate) name: Option<&'a str>,
    pub(crate) identity: Option<PortIdentity>,
    pub(crate) target: Option<&'a str>,
}

/// An end of a link.
#[derive(Clone, Copy)]
pub(crate) struct EndHead<'a> {
    pub(crate) place: Place<'a>,
    /// Its number in its link, from 1.
    pub(crate) number: usize,
    pub(crate) value: &'a Value,
    pub(crate) name: &'a str,
    pub(crate) port: Option<u16>,
}

/// The tables of a network file; of more than a network may have, as many as it may.
#[derive(Drop)]
pub(crate) struct Heads<'a> {
    pub(crate) clocks: Vec<ClockHead<'a>>,
    pub(crate) sessions: Vec<SessionHead<'a>>,
    pub(crate) ends: Vec<EndHead<'a>>,
}

impl<'a> Heads<'a> {
    pub(crate) fn of(alloc: Global, file: &'a Table) -> Result<Heads<'a>, AllocError>
        ensures clocks { IfOk result
            (λ h. map clock_value h.clocks.items ≡ clocks_of (table_view file.now)) }
        ensures sessions { IfOk result
            (λ h. map session_value h.sessions.items ≡ sessions_of (table_view file.now)) }
        ensures ends { IfOk result
            (λ h. map end_value h.ends.items ≡ ends_of (table_view file.now)) }
    {
        Ok(Heads {
            clocks: clocks_of(alloc, file)?,
            sessions: sessions_of(alloc, file)?,
            ends: ends_of(alloc, file)?,
        })
    }
}

#[tactic(auto, unfolding(crate::specs::Heads::clock_head))]
fn clocks_of<'a>(alloc: Global, file: &'a Table) -> Result<Vec<ClockHead<'a>>, AllocError>
    ensures { IfOk result (λ v. map clock_value v.items ≡ clocks_of (table_view file.now)) }
{
    let values = first_items(items_at(file, "clock"), CLOCKS);
    let mut clocks = Vec::new(alloc);
    for index in 0..values.len() {
        if let Some(table) = values[index].as_table() {
            let name = name_at(table, "name");
            let place = Place::Table(Array::Clock, index + 1, name);
            clocks.push(ClockHead {
                at: TableAt { place, table },
                number: index + 1,
                name,
                identity: clock_at(table, "identity"),
                count: u16_at(table, "ports"),
            })?;
        }
    }
    Ok(clocks)
}

#[tactic(auto, unfolding(crate::specs::Heads::session_head))]
fn sessions_of<'a>(alloc: Global, file: &'a Table) -> Result<Vec<SessionHead<'a>>, AllocError>
    ensures { IfOk result (λ v. map session_value v.items ≡ sessions_of (table_view file.now)) }
{
    let values = first_items(items_at(file, "session"), SESSIONS);
    let mut sessions = Vec::new(alloc);
    for index in 0..values.len() {
        if let Some(table) = values[index].as_table() {
            let name = name_at(table, "name");
            let place = Place::Table(Array::Session, index + 1, name);
            sessions.push(SessionHead {
                at: TableAt { place, table },
                name,
                identity: port_at(table, "identity"),
                target: name_at(table, "target"),
            })?;
        }
    }
    Ok(sessions)
}

fn ends_of<'a>(alloc: Global, file: &'a Table) -> Result<Vec<EndHead<'a>>, AllocError>
    ensures { IfOk result (λ v. map end_value v.items ≡ ends_of (table_view file.now)) }
{
    let links = first_items(items_at(file, "link"), LINKS);
    let mut ends = Vec::new(alloc);
    for index in 0..links.len() {
        let place = Place::Table(Array::Link, index + 1, None);
        let values = items_in(&links[index], "ends");
        add_ends(&mut ends, place, first_items(values, MOST_ENDS))?;
    }
    Ok(ends)
}

fn add_ends<'a>(
    ends: &mut Vec<EndHead<'a>>,
    place: Place<'a>,
    values: &'a [Value],
) -> Result<(), AllocError>
    ensures { OnOk result
        (map end_value ends.new.items
        ≡ map end_value ends.old.items ++ each (end_head (spot_of place.entry)) 1 (map view values.now)) }
{
    for index in 0..values.len() {
        let (number, value) = (index + 1, &values[index]);
        if let Some((name, port)) = end_at(value) {
            ends.push(EndHead {
                place,
                number,
                value,
                name,
                port,
            })?;
        }
    }
    Ok(())
}

/// The number of a port's table.
pub(crate) fn number_in(port: &Value) -> Option<u16>
    ensures { result ≡ number_in (view port.now) }
{
    u16_at(port.as_table()?, "number")
}
