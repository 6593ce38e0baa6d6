//! The clocks of a site, by the answers that were taken.

use crate::judging::lacks::Shown;
use crate::judging::port_groups::PortGroup;
use crate::reading::answer::Answer;
use crate::reading::asked::Asked;
use crate::reading::clock::{Clock, Received};
use crate::reading::data_sets::{
    CurrentDataSet, DefaultDataSet, ParentDataSet, PortDataSet, TimePropertiesDataSet,
};
use crate::reading::heard::Heard;
use crate::reading::source::Source;
use crate::reading::words::Words;
use std::alloc::{AllocError, Global};
use std::collections::BTreeMap;

/// The clocks that are seen. Each gave an answer or an error to one of the six ids in its domain.
#[derive(Drop)]
pub struct Site {
    pub clocks: BTreeMap<Source, Clock>,
    /// What the datagrams show beside, in the order of the lines.
    pub heard: Vec<Heard>,
    /// What some line shows.
    pub shown: Shown,
    /// The addresses and the interfaces of the lines.
    pub words: Words,
    /// The last userDescription of each clock that is gone and answered one.
    pub gone_descriptions: BTreeMap<Source, String>,
}

impl Site {
    /// A site without answers.
    pub fn new(alloc: Global) -> Site {
        Site {
            clocks: BTreeMap::new(alloc),
            heard: Vec::new(alloc),
            shown: Shown::nothing(),
            words: Words::new(alloc),
            gone_descriptions: BTreeMap::new(alloc),
        }
    }

    /// Takes an answer, after all earlier ones.
    pub fn take(&mut self, alloc: Global, answer: Answer) -> Result<(), AllocError> {
        let Answer {
            source,
            request,
            at,
            content,
        } = answer;
        let clock = self.clocks.entry(source)?.or_insert(Clock::new(alloc));
        clock.take(alloc, request, at, content)
    }

    /// What the datagrams show beside, in the order of the lines.
    pub fn all_heard(&self) -> &[Heard] {
        self.heard.as_slice()
    }

    pub fn is_empty(&self) -> bool {
        self.clocks.is_empty()
    }

    /// The clocks that are seen, by domain and then by identity.
    pub fn sources(&self, alloc: Global) -> Result<Vec<Source>, AllocError> {
        self.clocks.keys().copied().collect(alloc)
    }

    /// The numbers of a clock's ports that answered, ascending.
    pub fn ports(&self, alloc: Global, source: Source) -> Result<Vec<u16>, AllocError> {
        match self.clocks.get(&source) {
            Some(clock) => clock.ports.keys().copied().collect(alloc),
            None => Ok(Vec::new(alloc)),
        }
    }

    /// Whether a port of a clock that answered is in a state of a group.
    pub fn has_port_of(&self, source: Source, group: PortGroup) -> bool {
        match self.clocks.get(&source) {
            Some(clock) => clock.has_port_of(group),
            None => false,
        }
    }

    /// Whether each port of a clock from 1 to a number answered.
    pub fn has_ports_to(&self, source: Source, last: u16) -> bool {
        for before in 0..last {
            if self.port(source, before + 1).is_none() {
                return false;
            }
        }
        true
    }

    /// All that a clock answered to an id, in the order of the lines.
    pub fn answers(&self, source: Source, asked: Asked) -> &[Received] {
        match self.clocks.get(&source) {
            Some(clock) => clock.answers_to(asked),
            None => &[],
        }
    }

    /// The last userDescription that a clock answered, if there is one, also of a clock that is gone.
    pub fn description(&self, source: Source) -> Option<&str> {
        match self.last_description(source) {
            Some(text) => Some(text),
            None => Some(self.gone_descriptions.get(&source)?.as_str()),
        }
    }

    /// The same, of a clock that is seen.
    pub fn last_description(&self, source: Source) -> Option<&str> {
        self.answers(source, Asked::UserDescription).last()?.text()
    }

    /// Whether a clock refused an id.
    pub fn refuses(&self, source: Source, asked: Asked) -> bool {
        match self.clocks.get(&source) {
            Some(clock) => clock.refuses(asked),
            None => false,
        }
    }

    /// All that was answered for a port of a clock, in the order of the lines.
    pub fn port_answers(&self, source: Source, port: u16) -> &[Received] {
        match self.clocks.get(&source) {
            Some(clock) => clock.port_answers(port),
            None => &[],
        }
    }

    /// Whether a clock is seen.
    pub fn is_seen(&self, source: Source) -> bool {
        self.clocks.contains_key(&source)
    }

    /// The last DEFAULT_DATA_SET that a clock answered, if there is one.
    pub fn default(&self, source: Source) -> Option<DefaultDataSet> {
        self.answers(source, Asked::DefaultDataSet)
            .last()?
            .default()
    }

    /// The last CURRENT_DATA_SET that a clock answered, if there is one.
    pub fn current(&self, source: Source) -> Option<CurrentDataSet> {
        self.answers(source, Asked::CurrentDataSet)
            .last()?
            .current()
    }

    /// The last PARENT_DATA_SET that a clock answered, if there is one.
    pub fn parent(&self, source: Source) -> Option<ParentDataSet> {
        self.answers(source, Asked::ParentDataSet).last()?.parent()
    }

    /// The last TIME_PROPERTIES_DATA_SET that a clock answered, if there is one.
    pub fn time(&self, source: Source) -> Option<TimePropertiesDataSet> {
        self.answers(source, Asked::TimePropertiesDataSet)
            .last()?
            .time()
    }

    /// The last PORT_DATA_SET that was answered for a port of a clock, if there is one.
    pub fn port(&self, source: Source, number: u16) -> Option<PortDataSet> {
        self.port_answers(source, number).last()?.port()
    }
}
