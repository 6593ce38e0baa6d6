//! How many messages a clock sends for a datagram at most.

ghost use Rattle.std.specs.Prelude.{◌≡◌, ◌-◌, ◌*◌, length, max, nat_le};
ghost use Rattle.std.specs.FinMap as fin;
ghost use Rattle.ptpm_data.specs.RequestLaws.{IsSized};
ghost use Rattle.ptpm_table.specs.Entries.{HaveAnswers};
ghost use Rattle.ptpm_host.specs.Clock.{state_in};
ghost use Rattle.ptpm_host.specs.Answers.{most_replied};
ghost use Rattle.ptpm_host.specs.MostSent.{most_answers, most_sent};

use crate::clock::HostedClock;
use ptpm_data::data_sets_law;
use ptpm_table::{LendingTable, SureTable};

impl HostedClock {
    /// The most messages that the clock sends for a datagram, or after a save. A copy goes out at each port but one, and each port
    /// answers. It is more only if a kept reply has more answers. No reply of the clock's own does, so only an image of another
    /// hand can bring one. Takes no memory.
    pub fn most_sent(&self) -> usize
        ensures { result ≡ most_sent (state_in self.now) }
    {
        let sets = self.agent.sets();
        data_sets_law(sets);
        let alone = 2 * sets.port_count() as usize - 1;
        alone.max(self.most_answers())
    }

    /// The most answers that it sends for a datagram: one of each port, or as many as a kept reply has.
    fn most_replied(&self) -> usize
        ensures { result ≡ most_replied (state_in self.now) }
    {
        let ports = self.agent.sets().port_count() as usize;
        ports.max(self.most_answers())
    }

    /// The most answers that one of its kept replies has.
    fn most_answers(&self) -> usize
        ensures { result ≡ most_answers (fin.entries (state_in self.now).entries) }
    {
        let entries = self.agent.table().in_order();
        let mut most = 0;
        for place in 0..entries.count() {
            let answers = entries.entry(place).answer_count();
            if answers > most {
                most = answers;
            }
        }
        most
    }

    /// Whether this many places are enough for what the clock sends for a datagram, or after a save. No entry is looked at if they are
    /// enough for as many answers as the table keeps.
    #[inline(always)]
    #[tactic(auto, using(crate::proofs::MostSent::most_few, std::proofs::lemmas::Bool::Decides::nat_tests))]
    pub(crate) fn has_room(&self, places: usize) -> bool
        ensures { result ≡ nat_le (most_sent (state_in self.now)) places }
    {
        self.sent_law();
        places >= self.most_kept() || places >= self.most_sent()
    }

    /// Whether this many places are enough for the answers to a datagram. No entry is looked at if they are enough for as many answers
    /// as the table keeps.
    #[tactic(auto, using(crate::proofs::MostSent::replied_few, std::proofs::lemmas::Bool::Decides::nat_tests))]
    pub(crate) fn has_answer_room(&self, places: usize) -> bool
        ensures { result ≡ nat_le (most_replied (state_in self.now)) places }
    {
        self.sent_law();
        places >= self.replies_kept() || places >= self.most_replied()
    }

    /// The most answers of a clock with these ports and this table.
    fn replies_kept(&self) -> usize
        ensures { result ≡ max (length self.now.agent.sets.ports) self.now.agent.table.answers }
    {
        let ports = self.agent.sets().port_count() as usize;
        ports.max(self.agent.table().answers_kept())
    }

    /// The most messages that a clock with these ports and this table sends.
    #[inline(always)]
    fn most_kept(&self) -> usize
        ensures { result ≡ max (2 * length self.now.agent.sets.ports - 1) self.now.agent.table.answers }
    {
        let sets = self.agent.sets();
        data_sets_law(sets);
        let alone = 2 * sets.port_count() as usize - 1;
        alone.max(self.agent.table().answers_kept())
    }

    /// Its data sets have their sizes, and no kept reply has more answers than its table keeps: a law, and nothing is done.
    #[inline(always)]
    pub(crate) fn sent_law(&self)
        ensures sized { IsSized self.now.agent.sets }
        ensures few { HaveAnswers self.now.agent.table.answers (fin.entries (state_in self.now).entries) }
    {
        data_sets_law(self.agent.sets());
        self.agent.table().few_answers();
    }
}
