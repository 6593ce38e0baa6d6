//! The shape of a network file: the keys of its tables, and what they hold.

ghost use Rattle.std.specs.Prelude.{◌≡◌, ◌==◌, [], codes, map};
ghost use Rattle.std.specs.List.{list_any};
ghost use Rattle.toml.specs.Data.{get_member};
ghost use Rattle.toml.specs.View.{view, table_view};
ghost use Rattle.ptpm_script.specs.Spellings.{passes};
ghost use Rattle.ptpm_script.specs.Marks.{Adds, each, each_after, spot_of};
ghost use Rattle.ptpm_script.specs.Rights.{right_in};
ghost use Rattle.ptpm_script.specs.ShapeFaults.{clock_marks, end_marks, link_marks, ports_marks, right_marks, session_marks, shape_marks, version_marks};

use crate::fault::{Found, Wanted};
use crate::faults::{Added, Faults};
use crate::place::{Array, Place, TableAt};
use crate::rights::right_of;
use crate::rules::{LINK_RULES, clock_rules, file_rules, port_rules, session_rules};
use crate::spellings::end_at;
use crate::tables::{items_at, items_in, name_in};
use crate::values::{u16_at, value_at};
use ptpm_data::Rights;
use toml::{Table, Value};

impl<'a> Faults<'a> {
    /// Adds a fault for each key of the file that is missing, unknown, or holds what it may not.
    #[tactic(auto, unfolding(crate::specs::ShapeFaults::shape_marks))]
    pub(crate) fn add_shape_faults(&mut self, table: &'a Table) -> Added
        ensures { Adds result self.old self.new (shape_marks (table_view table.now)) }
    {
        let place = Place::File;
        self.add_keys(TableAt { place, table }, file_rules())?;
        self.add_clock_shapes(items_at(table, "clock"))?;
        self.add_session_shapes(u16_at(table, "version"), items_at(table, "session"))?;
        self.add_link_shapes(items_at(table, "link"))
    }

    #[tactic(auto, unfolding(crate::specs::ShapeFaults::clock_marks))]
    fn add_clock_shapes(&mut self, clocks: &'a [Value]) -> Added
        ensures { Adds result self.old self.new (each clock_marks 1 (map view clocks.now)) }
    {
        for index in 0..clocks.len() {
            let clock = &clocks[index];
            let place = Place::Table(Array::Clock, index + 1, name_in(clock));
            self.add_table(place, clock, clock_rules())?;
            self.add_port_shapes(index + 1, clock)?;
        }
        Ok(())
    }

    /// Adds the faults of the tables of a clock's ports.
    fn add_port_shapes(&mut self, number: usize, clock: &'a Value) -> Added
        ensures { Adds result self.old self.new (ports_marks number (view clock.now)) }
    {
        let name = name_in(clock);
        let ports = items_in(clock, "port");
        for index in 0..ports.len() {
            let place = Place::Port(number, name, index + 1);
            self.add_table(place, &ports[index], port_rules())?;
        }
        Ok(())
    }

    #[tactic(auto, unfolding(crate::specs::ShapeFaults::session_marks))]
    fn add_session_shapes(&mut self, version: Option<u16>, sessions: &'a [Value]) -> Added
        ensures { Adds result self.old self.new (each (session_marks version) 1 (map view sessions.now)) }
    {
        for index in 0..sessions.len() {
            let session = &sessions[index];
            let place = Place::Table(Array::Session, index + 1, name_in(session));
            self.add_table(place, session, session_rules())?;
            if let Some(table) = session.as_table() {
                self.add_version(version, TableAt { place, table })?;
                self.add_bad_rights(place, items_at(table, "rights"))?;
            }
        }
        Ok(())
    }

    /// Adds a fault if a session has no rights in version 2, or some in version 1.
    #[tactic(auto, unfolding(crate::specs::ShapeFaults::version_marks))]
    fn add_version(&mut self, version: Option<u16>, session: TableAt<'a>) -> Added
        ensures { Adds result self.old self.new
            (version_marks (spot_of session.entry.place) version (get_member (codes "rights") (table_view session.entry.table.now))) }
    {
        let place = session.place;
        match (version, value_at(session.table, "rights")) {
            (Some(2), None) => self.add_shape(place, Found::Missing("rights"), Wanted::Rights),
            (Some(1), Some(rights)) => {
                self.add_shape(place, Found::Value("rights", rights), Wanted::NoRights)
            }
            _ => Ok(()),
        }
    }

    /// Adds a fault for each item that is no right, or one that was given before it.
    #[tactic(auto, unfolding(crate::specs::ShapeFaults::right_marks))]
    fn add_bad_rights(&mut self, place: Place<'a>, items: &'a [Value]) -> Added
        ensures { Adds result self.old self.new (each_after (right_marks (spot_of place.entry)) [] (map view items.now)) }
    {
        for index in 0..items.len() {
            let found = Found::Item("rights", index + 1, &items[index]);
            match right_of(&items[index]) {
                None => self.add_shape(place, found, Wanted::Right)?,
                Some(right) if has_right(&items[..index], right) => {
                    self.add_shape(place, found, Wanted::OtherRight)?
                }
                Some(_) => {}
            }
        }
        Ok(())
    }

    #[tactic(auto, unfolding(crate::specs::ShapeFaults::link_marks))]
    fn add_link_shapes(&mut self, links: &'a [Value]) -> Added
        ensures { Adds result self.old self.new (each link_marks 1 (map view links.now)) }
    {
        for index in 0..links.len() {
            let link = &links[index];
            let place = Place::Table(Array::Link, index + 1, name_in(link));
            self.add_table(place, link, &LINK_RULES)?;
            self.add_end_shapes(place, items_in(link, "ends"))?;
        }
        Ok(())
    }

    /// Adds a fault for each item that is no end.
    fn add_end_shapes(&mut self, place: Place<'a>, items: &'a [Value]) -> Added
        ensures { Adds result self.old self.new (each (end_marks (spot_of place.entry)) 1 (map view items.now)) }
    {
        for index in 0..items.len() {
            if end_at(&items[index]).is_none() {
                let found = Found::Item("ends", index + 1, &items[index]);
                self.add_shape(place, found, Wanted::End)?;
            }
        }
        Ok(())
    }
}

fn has_right(items: &[Value], wanted: Rights) -> bool
    ensures { result
        ≡ list_any (λ d. passes (λ r. r == wanted.0) (right_in d)) (map view items.now) }
{
    for item in items {
        if right_of(item).is_some_and(|right| right == wanted) {
            return true;
        }
    }
    false
}
