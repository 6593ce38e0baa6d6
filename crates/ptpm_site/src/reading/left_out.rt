//! How much of a site is shown, and how much is left out.

use crate::reading::site::Site;
use crate::reading::source::Source;

/// At most this many clocks are shown (this project's profile).
pub const CLOCKS: usize = 4_096;

/// At most this many ports are shown (this project's profile).
pub const PORTS: usize = 16_384;

/// How much of a site is not shown.
#[derive(Clone, Copy)]
pub struct LeftOut {
    pub clocks: usize,
    pub ports: usize,
}

impl Site {
    /// Keeps the first clocks, by domain and identity, and the first of their ports. The others are as if they had not
    /// answered, and what datagrams show beside is dropped. If there is room for all, nothing changes.
    pub fn keep_first(&mut self) -> LeftOut {
        if self.is_shown_whole() {
            return LeftOut {
                clocks: 0,
                ports: 0,
            };
        }
        let clocks = self.drop_clocks();
        let answered = self.count_all_ports();
        self.drop_ports();
        let kept = self.count_all_ports();
        self.heard.truncate(0);
        LeftOut {
            clocks,
            ports: answered.saturating_sub(kept),
        }
    }

    /// Drops the last clocks if there are too many. Answers how many it dropped.
    fn drop_clocks(&mut self) -> usize {
        let over = self.clocks.len().saturating_sub(CLOCKS);
        for dropped in 0..over {
            let _ = self.clocks.pop_last();
        }
        over
    }

    /// Drops the last ports if there are too many. All clocks stay: `retain` says what it leaves of each.
    fn drop_ports(&mut self) {
        let mut room = PORTS;
        self.clocks.retain(move |_, clock| -> bool {
            clock.keep_first_ports(room);
            room = room.saturating_sub(clock.ports.len());
            true
        });
    }

    /// Whether the site has no more clocks and ports than are shown.
    fn is_shown_whole(&self) -> bool {
        if CLOCKS < self.clocks.len() {
            return false;
        }
        self.count_all_ports() <= PORTS
    }

    /// How many ports of all clocks answered.
    fn count_all_ports(&self) -> usize {
        let mut ports = 0;
        for source in self.clocks.keys() {
            ports = self.count_ports(*source).saturating_add(ports);
        }
        ports
    }

    /// How many ports of a clock answered.
    pub fn count_ports(&self, source: Source) -> usize {
        match self.clocks.get(&source) {
            Some(clock) => clock.count_ports(),
            None => 0,
        }
    }
}
