//! What later looks need of the lines of earlier ones. Of a clock these are answers with the offset that it still has. If something
//! is decided over time, it is also since when each port is in its state.

use crate::change_time::{CURRENT_DATA_SET, PORT_DATA_SET};
use crate::line::Line;
use crate::message::{Head, field_of};
use ptpm_codec::{PortIdentity, port_identity_at};
use ptpm_site::reading::domain::Domain;
use std::alloc::{AllocError, Global};
use std::collections::{BTreeMap, BTreeSet};

/// How many answers of a port that stays in a state are kept, to different requests. A site needs the first, and of a port in SLAVE
/// three, with that of the look itself (this project's profile).
const MOST_OF_PORT: usize = 2;

/// How many of the last answers of a clock with the same offset are kept beside the first (this project's profile).
const LAST_EQUAL: usize = 11;

/// Whose answers these are.
#[derive(Clone, Copy, PartialEq, Eq, PartialOrd, Ord)]
struct Answerer {
    domain: Domain,
    /// That of a clock has portNumber 0.
    port: PortIdentity,
}

/// An answer: the place of its line, its sequenceId, and what it says.
#[derive(Clone, Copy)]
struct Said<V> {
    place: usize,
    number: u16,
    value: V,
}

/// A state: one that a port is to leave, the state in which it may be served by unicast, or another (table 20).
#[derive(Clone, Copy, PartialEq, Eq)]
enum State {
    OnTheWay,
    Served,
    Other,
}

/// stepsRemoved, and offsetFromMaster.
#[derive(Clone, Copy, PartialEq, Eq)]
struct Offset {
    steps: [u8; 2],
    offset: [u8; 8],
}

/// Leaves of earlier lines those that are needed after a look.
pub(crate) fn keep_needed(
    alloc: Global,
    earlier: &mut Vec<Line>,
    look: &[Line],
    is_over_time: bool,
) -> Result<(), AllocError> {
    let mut needed = needed_offsets(alloc, earlier.as_slice(), look)?;
    if is_over_time {
        add_states(alloc, earlier.as_slice(), look, &mut needed)?;
    }
    let mut place = 0usize;
    earlier.retain(|_| {
        let is_needed = needed.contains(&place);
        place = place.saturating_add(1);
        is_needed
    });
    Ok(())
}

/// The places of the lines that have the offset which a clock still has.
fn needed_offsets(
    alloc: Global,
    earlier: &[Line],
    look: &[Line],
) -> Result<BTreeSet<usize>, AllocError> {
    let mut all = BTreeMap::new(alloc);
    for (place, line) in earlier.iter().chain(look.iter()).enumerate() {
        if let Some((answerer, number, value)) = offset_in(line.octets.as_slice()) {
            let said: &mut Vec<Said<Offset>> = all.entry(answerer)?.or_insert(Vec::new(alloc));
            said.push(Said {
                place,
                number,
                value,
            })?;
        }
    }
    let mut needed = BTreeSet::new(alloc);
    for said in all.values() {
        add_offsets(said.as_slice(), &mut needed)?;
    }
    Ok(needed)
}

fn offset_in(octets: &[u8]) -> Option<(Answerer, u16, Offset)> {
    let (head, field) = field_of(octets, CURRENT_DATA_SET, 10)?;
    let (steps, rest) = field.split_first_chunk()?;
    let (offset, _) = rest.split_first_chunk()?;
    let port = PortIdentity {
        clock: head.source.clock,
        port: 0,
    };
    Some((
        answerer_of(head, port),
        head.number,
        Offset {
            steps: *steps,
            offset: *offset,
        },
    ))
}

fn answerer_of(head: Head, port: PortIdentity) -> Answerer {
    Answerer {
        domain: head.source.domain,
        port,
    }
}

/// Adds the last answer to each request, of these the first and the last ones. A clock that is not off may be one that says nothing.
fn add_offsets(said: &[Said<Offset>], needed: &mut BTreeSet<usize>) -> Result<(), AllocError> {
    let latest = latest_of(said);
    let Some(first) = latest.first() else {
        return Ok(());
    };
    if first.value.offset == [0; 8] {
        return Ok(());
    }
    let (mut kept, mut later) = (0usize, None);
    for one in latest.iter().rev() {
        if later == Some(one.number) {
            continue;
        }
        later = Some(one.number);
        if kept < LAST_EQUAL || one.number == first.number {
            let _ = needed.insert(one.place)?;
        }
        kept = kept.saturating_add(1);
    }
    Ok(())
}

/// Adds the places of the first lines since a port came to its latest state.
fn add_states(
    alloc: Global,
    earlier: &[Line],
    look: &[Line],
    needed: &mut BTreeSet<usize>,
) -> Result<(), AllocError> {
    let mut all = BTreeMap::new(alloc);
    for (place, line) in earlier.iter().chain(look.iter()).enumerate() {
        if let Some((answerer, number, value)) = state_in(line.octets.as_slice()) {
            let said: &mut Vec<Said<State>> = all.entry(answerer)?.or_insert(Vec::new(alloc));
            said.push(Said {
                place,
                number,
                value,
            })?;
        }
    }
    for said in all.values() {
        add_port(said.as_slice(), needed)?;
    }
    Ok(())
}

fn state_in(octets: &[u8]) -> Option<(Answerer, u16, State)> {
    let (head, field) = field_of(octets, PORT_DATA_SET, 21)?;
    if field.len() < 11 {
        return None;
    }
    let state = match field[10] {
        1 | 4 | 5 | 8 => State::OnTheWay,
        9 => State::Served,
        _ => State::Other,
    };
    Some((
        answerer_of(head, port_identity_at(field, 0)),
        head.number,
        state,
    ))
}

fn add_port(said: &[Said<State>], needed: &mut BTreeSet<usize>) -> Result<(), AllocError> {
    let (mut kept, mut before) = (0usize, None);
    for one in latest_of(said) {
        if one.value == State::Other || MOST_OF_PORT <= kept {
            break;
        }
        if before != Some(one.number) {
            let _ = needed.insert(one.place)?;
            kept = kept.saturating_add(1);
        }
        before = Some(one.number);
    }
    Ok(())
}

/// Those at the end that say the same.
fn latest_of<V: PartialEq + Drop>(said: &[Said<V>]) -> &[Said<V>] {
    let Some(last) = said.last() else {
        return said;
    };
    match said.iter().rposition(|one| one.value != last.value) {
        Some(place) => said.get(place.saturating_add(1)..).unwrap_or(&[]),
        None => said,
    }
}
