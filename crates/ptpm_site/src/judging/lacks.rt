//! What the lines of a site lack, so that not all of it can be judged.

use crate::reading::heard::Heard;
use crate::reading::site::Site;
use std::alloc::{AllocError, Global};

/// What some of all lines show.
#[derive(Clone, Copy)]
pub struct Shown {
    /// A GET of one of the six ids.
    pub requests: bool,
    /// When the last datagram came or was sent, in nanoseconds since 1970. `None` if no line says it.
    pub latest: Option<u64>,
    /// The address that an answer to one of the six ids came from.
    pub sources: bool,
    /// An Announce, Sync, Follow_Up or Delay_Req.
    pub senders: bool,
}

/// What no line shows.
#[derive(Clone, Copy, PartialEq, Eq)]
pub enum Lack {
    Requests,
    Times,
    Sources,
    Senders,
}

impl Lack {
    /// The name, which scripts read.
    pub fn name(self) -> &'static str {
        match self {
            Lack::Requests => "requests",
            Lack::Times => "times",
            Lack::Sources => "sources",
            Lack::Senders => "senders",
        }
    }

    /// Whether it is worth a word where nothing is found. A look that hears no sender is usual.
    pub fn is_worth_a_word(self) -> bool {
        !matches!(self, Lack::Senders)
    }
}

impl Shown {
    /// No line shows anything.
    pub fn nothing() -> Shown {
        Shown {
            requests: false,
            latest: None,
            sources: false,
            senders: false,
        }
    }

    /// Adds what a datagram shows.
    pub fn add(&mut self, heard: &Option<Heard>) {
        match heard {
            Some(Heard::Asked(_)) => self.requests = true,
            Some(Heard::Sent(_)) => self.senders = true,
            _ => {}
        }
    }

    /// Adds when a datagram came or was sent.
    pub fn add_time(&mut self, at: Option<u64>) {
        self.latest = match (self.latest, at) {
            (Some(latest), Some(at)) => Some(latest.max(at)),
            (latest, None) => latest,
            (None, at) => at,
        };
    }

    fn has(self, lack: Lack) -> bool {
        match lack {
            Lack::Requests => self.requests,
            Lack::Times => self.latest.is_some(),
            Lack::Sources => self.sources,
            Lack::Senders => self.senders,
        }
    }
}

/// What the lines of a site lack, in the order in which it is reported: nothing if no clock is seen.
pub fn lacks_of(alloc: Global, site: &Site) -> Result<Vec<Lack>, AllocError> {
    let mut found = Vec::new(alloc);
    for lack in [Lack::Requests, Lack::Times, Lack::Sources, Lack::Senders] {
        if !site.is_empty() && !site.shown.has(lack) {
            found.push(lack)?;
        }
    }
    Ok(found)
}
