//! The keys of one table, judged by its rules.

ghost use Rattle.std.specs.Prelude.{◌≡◌, IfOk, is_none, map};
ghost use Rattle.toml.specs.View.{view, table_view};
ghost use Rattle.ptpm_script.specs.Rules.{key_rule};
ghost use Rattle.ptpm_script.specs.KeyFaults.{holds, key_marks, missing_marks, table_marks, wrong_marks};
ghost use Rattle.ptpm_script.specs.Marks.{Adds, spot_of};

use crate::fault::{Found, Names, Wanted};
use crate::faults::{Added, Faults};
use crate::nearest::nearest;
use crate::place::{Place, TableAt};
use crate::rules::{Rule, kind_of};
use crate::values::value_at;
use std::alloc::{AllocError, Global};
use toml::Value;

impl<'a> Faults<'a> {
    /// Adds the faults of a value that is to be a table: those of its keys, or one if it is none.
    #[tactic(auto, unfolding(crate::specs::KeyFaults::table_marks))]
    pub(crate) fn add_table(
        &mut self,
        place: Place<'a>,
        value: &'a Value,
        rules: &'static [Rule],
    ) -> Added
        ensures { Adds result self.old self.new
            (table_marks (spot_of place.entry) (map key_rule rules.now) (view value.now)) }
    {
        match value.as_table() {
            Some(table) => self.add_keys(TableAt { place, table }, rules),
            None => self.add_shape(place, Found::Whole(value), Wanted::Table),
        }
    }

    /// Adds a fault for each key that is missing, unknown, or holds what it may not.
    #[tactic(auto, unfolding(crate::specs::KeyFaults::key_marks))]
    pub(crate) fn add_keys(&mut self, at: TableAt<'a>, rules: &'static [Rule]) -> Added
        ensures { Adds result self.old self.new
            (key_marks (spot_of at.entry.place) (map key_rule rules.now) (table_view at.entry.table.now)) }
    {
        self.add_missing(at, rules)?;
        self.add_wrong(at, rules)
    }

    /// Adds a fault for each required key that a table has not.
    fn add_missing(&mut self, at: TableAt<'a>, rules: &'static [Rule]) -> Added
        ensures { Adds result self.old self.new
            (missing_marks (spot_of at.entry.place) (map key_rule rules.now) (table_view at.entry.table.now)) }
    {
        for rule in rules {
            if rule.is_required && value_at(at.table, rule.key).is_none() {
                self.add_shape(at.place, Found::Missing(rule.key), Wanted::Kind(rule.kind))?;
            }
        }
        Ok(())
    }

    /// Adds a fault for each key of a table that no rule knows, or whose value is not of its kind.
    fn add_wrong(&mut self, at: TableAt<'a>, rules: &'static [Rule]) -> Added
        ensures { Adds result self.old self.new
            (wrong_marks (spot_of at.entry.place) (map key_rule rules.now) (table_view at.entry.table.now)) }
    {
        for (key, value) in at.table {
            if let Some(wanted) = wrong(self.alloc, key.as_str(), value, rules)? {
                self.add_shape(at.place, Found::Value(key.as_str(), value), wanted)?;
            }
        }
        Ok(())
    }
}

/// What a key may hold that holds something else, or which key it may be.
fn wrong(
    alloc: Global,
    key: &str,
    value: &Value,
    rules: &'static [Rule],
) -> Result<Option<Wanted<'static>>, AllocError>
    ensures { IfOk result
        (λ wanted. is_none wanted ≡ holds (map key_rule rules.now) key.now (view value.now)) }
{
    match kind_of(rules, key) {
        Some(kind) if kind.fits(value) => Ok(None),
        Some(kind) => Ok(Some(Wanted::Kind(kind))),
        None => {
            let keys: Vec<&'static str> = rules.iter().map(|rule| rule.key).collect(alloc)?;
            Ok(Some(Wanted::Known(Names::Key, nearest(alloc, key, keys.as_slice())?)))
        }
    }
}
