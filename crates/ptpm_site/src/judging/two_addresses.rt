//! Two clocks with one identity, which answer from two addresses.

use crate::reading::arrival::{Arrival, Passage};
use crate::reading::heard::Heard;
use crate::reading::site::Site;
use crate::reading::source::Source;
use crate::reading::words::Words;
use std::alloc::{AllocError, Global};
use std::collections::BTreeMap;

/// An address. They are ordered by their texts.
#[derive(Clone, Copy, PartialEq, Eq, PartialOrd, Ord)]
pub struct Address {
    /// The place of its text in the order of all texts.
    place: usize,
    number: usize,
}

/// Two addresses from which answers of a clock came.
#[derive(Clone, Copy, PartialEq, Eq, PartialOrd, Ord)]
pub struct Twins {
    source: Source,
    first: Address,
    second: Address,
}

/// The two addresses, the lesser text first.
#[derive(Clone, Copy)]
pub struct TwoAddresses<'a> {
    pub first: &'a str,
    pub second: &'a str,
}

impl Words {
    /// The texts of two addresses.
    pub fn two_addresses(&self, twins: &Twins) -> TwoAddresses<'_> {
        TwoAddresses {
            first: self.text(twins.first.number),
            second: self.text(twins.second.number),
        }
    }
}

/// All answers that came from another address than the least one with their passage, in order of the clock and the addresses. So the order
/// of the lines does not matter.
pub fn all_twins(alloc: Global, site: &Site) -> Result<Vec<Twins>, AllocError> {
    let places = site.words.places(alloc)?;
    let places = places.as_slice();
    let least = least_addresses(alloc, site.all_heard(), places)?;
    let mut found = Vec::new(alloc);
    for one in site.all_heard() {
        if let Heard::Came(arrival) = one {
            if let Some(twins) = twins_by(&least, places, arrival) {
                found.push(twins)?;
            }
        }
    }
    found.sort()?;
    Ok(found)
}

/// The address of an answer. `places` has those of all texts, by their numbers.
fn address_of(places: &[usize], arrival: &Arrival) -> Address {
    let number = arrival.from;
    Address {
        place: places.get(number).copied().unwrap_or(0),
        number,
    }
}

/// The least address from which answers came, for each passage.
fn least_addresses(
    alloc: Global,
    heard: &[Heard],
    places: &[usize],
) -> Result<BTreeMap<Passage, Address>, AllocError> {
    let mut least = BTreeMap::new(alloc);
    for one in heard {
        if let Heard::Came(arrival) = one {
            let address = address_of(places, arrival);
            let kept = match least.get(&arrival.passage) {
                Some(kept) => address.min(*kept),
                None => address,
            };
            least.insert(arrival.passage, kept)?;
        }
    }
    Ok(least)
}

/// The least address with the passage of an answer, and that of the answer, if they are two.
fn twins_by(
    least: &BTreeMap<Passage, Address>,
    places: &[usize],
    arrival: &Arrival,
) -> Option<Twins> {
    let first = *least.get(&arrival.passage)?;
    let second = address_of(places, arrival);
    if first == second {
        return None;
    }
    Some(Twins {
        source: arrival.passage.port.source,
        first,
        second,
    })
}

/// The first of these of a clock.
pub fn twins_of(twins: &[Twins], source: Source) -> Option<&Twins> {
    twins.iter().find(|twins| twins.source == source)
}
