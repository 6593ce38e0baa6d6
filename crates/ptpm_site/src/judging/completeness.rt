//! What a clock did not answer.

use crate::judging::evidence::Evidence;
use crate::reading::asked::{Asked, six};
use crate::reading::site::Site;
use crate::reading::source::Source;
use std::alloc::{AllocError, Global};

impl Site {
    /// How many answers came to an id. For PORT_DATA_SET, how many ports answered.
    fn answers_to(&self, source: Source, asked: Asked) -> usize {
        match asked {
            Asked::PortDataSet => self.count_ports(source),
            _ => self.answers(source, asked).len(),
        }
    }

    /// Whether an id was neither answered nor refused.
    pub fn lacks(&self, source: Source, asked: Asked) -> bool {
        self.answers_to(source, asked) == 0 && !self.refuses(source, asked)
    }

    /// The highest port that has to answer: numberPorts, if some port of the clock answered and PORT_DATA_SET was not
    /// refused. Otherwise 0, for none has to.
    fn last_port(&self, source: Source) -> u16 {
        if self.count_ports(source) == 0 || self.refuses(source, Asked::PortDataSet) {
            return 0;
        }
        match self.default(source) {
            Some(default) => default.number_of_ports,
            None => 0,
        }
    }
}

/// What a clock was asked for, and neither answered nor refused.
#[derive(Drop)]
pub struct Missing {
    pub asked: Vec<Asked>,
    /// Ports, as runs: the first and the last of each.
    pub ports: Vec<(u16, u16)>,
}

/// What a clock was asked for, and neither answered nor refused, or `None` if there is nothing. `ports` are its ports that answered.
pub fn missing_answers(
    alloc: Global,
    site: &Site,
    evidence: &Evidence,
    source: Source,
    ports: &[u16],
) -> Result<Option<Missing>, AllocError> {
    let asked = missing_ids(alloc, site, evidence, source, &six())?;
    let last = if evidence.was_asked_for(source, Asked::PortDataSet) {
        site.last_port(source)
    } else {
        0
    };
    let ports = missing_ports(alloc, ports, last)?;
    if asked.as_slice().is_empty() && ports.as_slice().is_empty() {
        return Ok(None);
    }
    Ok(Some(Missing { asked, ports }))
}

/// Those of these ids that the clock was asked for, and neither answered nor refused.
fn missing_ids(
    alloc: Global,
    site: &Site,
    evidence: &Evidence,
    source: Source,
    ids: &[Asked],
) -> Result<Vec<Asked>, AllocError> {
    let mut missing = Vec::new(alloc);
    for id in ids {
        if evidence.was_asked_for(source, *id) && site.lacks(source, *id) {
            missing.push(*id)?;
        }
    }
    Ok(missing)
}

/// The gaps between these ports, up to the last port that has to answer.
fn missing_ports(alloc: Global, ports: &[u16], last: u16) -> Result<Vec<(u16, u16)>, AllocError> {
    let mut runs = Vec::new(alloc);
    let mut before: u16 = 0;
    for port in ports {
        put_gap(&mut runs, before, port.saturating_sub(1).min(last))?;
        before = *port;
    }
    put_gap(&mut runs, before, last)?;
    Ok(runs)
}

/// Adds the ports above `low` and up to `high` as a gap, if there are any.
fn put_gap(runs: &mut Vec<(u16, u16)>, low: u16, high: u16) -> Result<(), AllocError> {
    if low < high {
        runs.push((low + 1, high))?;
    }
    Ok(())
}
