//! How much a network may have.

ghost use Rattle.std.specs.Prelude.{◌≡◌, [], codes, is_some, map, option_and_then};
ghost use Rattle.toml.specs.Data.{as_array, get_member};
ghost use Rattle.toml.specs.View.{view, table_view};
ghost use Rattle.ptpm_script.specs.Spellings.{passes};
ghost use Rattle.ptpm_script.specs.Heads.{session_value};
ghost use Rattle.ptpm_script.specs.LimitFaults.{count_marks, has_bad_size, limit_marks, link_size_marks, manager_marks, managers_of};
ghost use Rattle.ptpm_script.specs.Marks.{Adds, each, each_after};

use crate::fault::{Found, Wanted};
use crate::faults::{Added, Faults};
use crate::heads::SessionHead;
use crate::limits::{CLOCKS, LEAST_ENDS, LINKS, MANAGERS, MOST_ENDS, SESSIONS};
use crate::net_error::NetError;
use crate::place::{Array, Place, TableAt};
use crate::tables::{array_at, is_name_of, items_at};
use toml::{Table, Value};

impl<'a> Faults<'a> {
    /// Adds a fault for each limit that is passed.
    #[tactic(auto, unfolding(crate::specs::LimitFaults::limit_marks))]
    pub(crate) fn add_limit_faults(
        &mut self,
        file: &'a Table,
        sessions: &[SessionHead<'a>],
    ) -> Added
        ensures { Adds result self.old self.new (limit_marks (table_view file.now) (map session_value sessions.now)) }
    {
        self.add_count(items_at(file, "clock"), "clocks", CLOCKS)?;
        self.add_count(items_at(file, "session"), "sessions", SESSIONS)?;
        self.add_count(items_at(file, "link"), "links", LINKS)?;
        self.add_link_sizes(items_at(file, "link"))?;
        self.add_crowded(sessions)
    }

    fn add_count(&mut self, items: &'a [Value], of: &'static str, most: usize) -> Added
        ensures { Adds result self.old self.new (count_marks of.now most (map view items.now)) }
    {
        if items.len() <= most {
            return Ok(());
        }
        let found = Found::Count(items.len(), of);
        self.add(NetError::TooMany, Place::File, found, Wanted::AtMost(most))
    }

    /// Adds a fault for each link of too few ends or of too many.
    #[tactic(auto, unfolding(crate::specs::LimitFaults::link_size_marks))]
    fn add_link_sizes(&mut self, links: &'a [Value]) -> Added
        ensures { Adds result self.old self.new (each link_size_marks 1 (map view links.now)) }
    {
        for index in 0..links.len() {
            if let Some(table) = links[index].as_table() {
                let place = Place::Table(Array::Link, index + 1, None);
                let at = TableAt { place, table };
                self.add_at(NetError::TooMany, at, "ends", other_size(table))?;
            }
        }
        Ok(())
    }

    /// Adds a fault for the first session of each target that has too many.
    #[tactic(auto, unfolding(crate::specs::LimitFaults::manager_marks))]
    fn add_crowded(&mut self, sessions: &[SessionHead<'a>]) -> Added
        ensures { let all = map session_value sessions.now in
            Adds result self.old self.new (each_after (manager_marks all) [] all) }
    {
        for index in 0..sessions.len() {
            let session = &sessions[index];
            let Some(target) = session.target else {
                continue;
            };
            let count = managers_of(target, sessions);
            if MANAGERS < count && managers_of(target, &sessions[..index]) == 0 {
                let wanted = Wanted::Managers(count);
                self.add_at(NetError::TooMany, session.at, "target", Some(wanted))?;
            }
        }
        Ok(())
    }
}

/// How many ends a link is to have, if they are an array and too few or too many.
fn other_size(link: &Table) -> Option<Wanted<'static>>
    ensures { is_some result
        ≡ passes has_bad_size (option_and_then as_array (get_member (codes "ends") (table_view link.now))) }
{
    let count = array_at(link, "ends")?.len();
    let is_bad = count < LEAST_ENDS || MOST_ENDS < count;
    is_bad.then_some(Wanted::Ends(count))
}

/// How many sessions have this target.
#[tactic(auto, unfolding(crate::specs::LimitFaults::managers_of))]
fn managers_of(target: &str, sessions: &[SessionHead<'_>]) -> usize
    ensures { result ≡ managers_of target.now (map session_value sessions.now) }
{
    sessions
        .iter()
        .filter(|session| is_name_of(session.target, target))
        .count()
}
