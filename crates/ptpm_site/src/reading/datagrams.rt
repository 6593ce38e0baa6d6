//! What is taken of datagrams.

use crate::reading::announces::announced_in;
use crate::reading::answer::Answer;
use crate::reading::arrival::{Way, arrival_in};
use crate::reading::heard::{Heard, Travel};
use crate::reading::origin::origin_in;
use crate::reading::site::Site;
use crate::reading::untaken::{Untaken, untaken_in};
use ptpm_codec::{ClockIdentity, view};
use std::alloc::{AllocError, Global};

impl Site {
    /// Takes the answer that a datagram has, and what it shows beside. It came at a time, in nanoseconds since 1970. A datagram
    /// that shows nothing is passed over.
    pub fn take_datagram_at(
        &mut self,
        alloc: Global,
        at: Option<u64>,
        datagram: &[u8],
    ) -> Result<(), AllocError> {
        self.shown.add_time(at);
        self.take_answer(alloc, at, datagram)?;
        self.hear(at, datagram)
    }

    /// Takes a datagram that the collector did not take: only its time counts, and which clock answered. A line says why it was not
    /// taken, by a word, and it may say from which address it came.
    pub fn take_untaken(
        &mut self,
        alloc: Global,
        at: Option<u64>,
        why: &str,
        from: Option<&str>,
        datagram: &[u8],
    ) -> Result<(), AllocError> {
        self.shown.add_time(at);
        let Some(why) = Untaken::of_word(why) else {
            return Ok(());
        };
        let from = match from {
            Some(text) => Some(self.words.number_of(alloc, text)?),
            None => None,
        };
        self.keep(untaken_in(why, from, at, datagram).map(Heard::Untaken))
    }

    /// Takes a clockIdentity that an interface of the host that asks would have.
    pub fn take_host(&mut self, clock: ClockIdentity) -> Result<(), AllocError> {
        self.keep(Some(Heard::Host(clock)))
    }

    /// Takes what a datagram shows beside what an answer says.
    fn hear(&mut self, at: Option<u64>, datagram: &[u8]) -> Result<(), AllocError> {
        let heard = Heard::of(at, datagram);
        self.shown.add(&heard);
        self.keep(heard)?;
        self.keep(origin_in(at, datagram).map(Heard::Timed))?;
        self.keep(announced_in(datagram).map(Heard::Announces))
    }

    /// Keeps from which address the answer came that a datagram is, and at which interface. If the line of the datagram says no
    /// interface it is the empty one. An address with a slash is a Unix socket: that clock is of the host that asks, unless a
    /// boundary clock passed the answer on.
    pub fn take_arrival(
        &mut self,
        alloc: Global,
        from: &str,
        on: &str,
        datagram: &[u8],
    ) -> Result<(), AllocError> {
        if let Some(answer) = answer_on_its_way(datagram) {
            self.shown.sources = true;
            if from.contains('/') && answer.hops == answer.starting_hops {
                self.take_host(answer.source.clock)?;
            }
        }
        let from = self.words.number_of(alloc, from)?;
        let on = self.words.number_of(alloc, on)?;
        self.keep_arrival(Way { from, on }, datagram)
    }

    /// The same, by the numbers of both.
    fn keep_arrival(&mut self, way: Way, datagram: &[u8]) -> Result<(), AllocError> {
        self.keep(arrival_in(way, datagram).map(Heard::Came))
    }

    /// Keeps what was shown, if there is anything.
    fn keep(&mut self, shown: Option<Heard>) -> Result<(), AllocError> {
        if let Some(heard) = shown {
            self.heard.push(heard)?;
        }
        Ok(())
    }

    /// Takes the answer that a datagram has. A datagram that is no answer to one of the six ids is passed over.
    fn take_answer(
        &mut self,
        alloc: Global,
        at: Option<u64>,
        datagram: &[u8],
    ) -> Result<(), AllocError> {
        let Ok(message) = view(datagram) else {
            return Ok(());
        };
        match Answer::of(alloc, at, &message)? {
            Some(answer) => self.take(alloc, answer),
            None => Ok(()),
        }
    }
}

/// An answer, as it travelled.
fn answer_on_its_way(datagram: &[u8]) -> Option<Travel> {
    match Heard::of(None, datagram) {
        Some(Heard::Answered(travel)) => Some(travel),
        _ => None,
    }
}
