//! What the answers say of one clock.

use crate::judging::port_groups::PortGroup;
use crate::reading::answer::Request;
use crate::reading::answer_content::AnswerContent;
use crate::reading::asked::Asked;
use crate::reading::data_sets::{
    CurrentDataSet, DefaultDataSet, ParentDataSet, PortDataSet, TimePropertiesDataSet,
};
use ptpm_codec::ClockIdentity;
use ptpm_data::PortState;
use std::alloc::{AllocError, Global};
use std::collections::BTreeMap;

/// An answer to an id: its octets, the request that it came to, and when it came.
#[derive(Drop)]
pub struct Received {
    pub request: Request,
    /// When it came, in nanoseconds since 1970. `None` if that is not known.
    pub at: Option<u64>,
    /// The dataField; of USER_DESCRIPTION its text, in UTF-8.
    pub octets: Vec<u8>,
}

impl Received {
    /// What it says if it answers DEFAULT_DATA_SET.
    pub fn default(&self) -> Option<DefaultDataSet> {
        DefaultDataSet::read(self.octets.as_slice())
    }

    /// What it says if it answers CURRENT_DATA_SET.
    pub fn current(&self) -> Option<CurrentDataSet> {
        CurrentDataSet::read(self.octets.as_slice())
    }

    /// What it says if it answers PARENT_DATA_SET.
    pub fn parent(&self) -> Option<ParentDataSet> {
        ParentDataSet::read(self.octets.as_slice())
    }

    /// What it says if it answers TIME_PROPERTIES_DATA_SET.
    pub fn time(&self) -> Option<TimePropertiesDataSet> {
        TimePropertiesDataSet::read(self.octets.as_slice())
    }

    /// What it says if it answers PORT_DATA_SET.
    pub fn port(&self) -> Option<PortDataSet> {
        let (_, set) = PortDataSet::read(self.octets.as_slice())?;
        Some(set)
    }

    /// The state of the port of a PORT_DATA_SET. `None` if its number is reserved.
    pub fn state(&self) -> Option<PortState> {
        self.port()?.state()
    }

    /// The text of a USER_DESCRIPTION.
    pub fn text(&self) -> Option<&str> {
        match str::from_utf8(self.octets.as_slice()) {
            Ok(text) => Some(text),
            Err(_) => None,
        }
    }

    /// The grandmaster that a PARENT_DATA_SET names.
    pub fn grandmaster(&self) -> Option<ClockIdentity> {
        Some(self.parent()?.grandmaster)
    }
}

/// What a clock answered, for each id and each port in the order of the lines. The last one counts.
#[derive(Drop)]
pub struct Clock {
    /// By managementId; of all but PORT_DATA_SET.
    pub answers: BTreeMap<u16, Vec<Received>>,
    /// By portNumber.
    pub ports: BTreeMap<u16, Vec<Received>>,
    /// The ids that an error came for.
    pub refused: Vec<Asked>,
}

impl Clock {
    /// A clock that has said nothing yet.
    pub fn new(alloc: Global) -> Clock {
        Clock {
            answers: BTreeMap::new(alloc),
            ports: BTreeMap::new(alloc),
            refused: Vec::new(alloc),
        }
    }

    /// Takes what an answer of the clock says, after all earlier ones.
    pub fn take(
        &mut self,
        alloc: Global,
        request: Request,
        at: Option<u64>,
        content: AnswerContent,
    ) -> Result<(), AllocError> {
        match content {
            AnswerContent::Clock(asked, octets) => {
                let received = Received {
                    request,
                    at,
                    octets,
                };
                put_answer(alloc, &mut self.answers, asked.number(), received)
            }
            AnswerContent::Port(number, octets) => {
                let received = Received {
                    request,
                    at,
                    octets,
                };
                put_answer(alloc, &mut self.ports, number, received)
            }
            AnswerContent::Refused(asked) => {
                self.refused.push(asked)?;
                Ok(())
            }
            AnswerContent::Nothing => Ok(()),
        }
    }

    /// All that was answered to an id, in the order of the lines.
    pub fn answers_to(&self, asked: Asked) -> &[Received] {
        answers_for(&self.answers, asked.number())
    }

    /// All that was answered for a port, in the order of the lines.
    pub fn port_answers(&self, number: u16) -> &[Received] {
        answers_for(&self.ports, number)
    }

    /// The last PORT_DATA_SET that was answered for a port, if there is one.
    fn port(&self, number: u16) -> Option<PortDataSet> {
        self.port_answers(number).last()?.port()
    }

    /// Whether a port that answered is in a state of a group.
    pub fn has_port_of(&self, group: PortGroup) -> bool {
        self.ports.keys().any(|number| {
            match self.port(*number) {
                Some(set) => group.has(set.state()),
                None => false,
            }
        })
    }

    /// How many ports answered. Each has a number of its own, so there are no more of them than numbers up to the last.
    pub fn count_ports(&self) -> usize {
        match self.ports.last_key_value() {
            Some((last, _)) => self.ports.len().min(usize::from(*last) + 1),
            None => 0,
        }
    }

    /// Keeps at most `room` ports, those with the lowest numbers.
    pub fn keep_first_ports(&mut self, room: usize) {
        let over = self.ports.len().saturating_sub(room);
        for dropped in 0..over {
            let _ = self.ports.pop_last();
        }
    }

    /// Whether an error came for an id.
    pub fn refuses(&self, asked: Asked) -> bool {
        self.refused.iter().any(|refused| refused.is(asked))
    }
}

/// The answers of a number, in the order of the lines.
fn answers_for(answers: &BTreeMap<u16, Vec<Received>>, number: u16) -> &[Received] {
    match answers.get(&number) {
        Some(received) => received.as_slice(),
        None => &[],
    }
}

/// Adds an answer of a number, after all earlier ones.
fn put_answer(
    alloc: Global,
    answers: &mut BTreeMap<u16, Vec<Received>>,
    number: u16,
    received: Received,
) -> Result<(), AllocError> {
    let all = answers.entry(number)?.or_insert(Vec::new(alloc));
    all.push(received)?;
    Ok(())
}
