//! The faults that are found in a network file. Contracts see them as their marks.

ghost use Rattle.std.specs.Prelude.{◌≡◌, ◌∷◌, [], is_some};
ghost use Rattle.toml.specs.View.{table_view};
ghost use Rattle.ptpm_script.specs.Faults.{first_refusal};
ghost use Rattle.ptpm_script.specs.KeyFaults.{shape_mark};
ghost use Rattle.ptpm_script.specs.Marks.{Adds, marked, marks_in, part_of, spot_of, value_mark_if};

use crate::fault::{Fault, Found, Wanted};
use crate::net_error::NetError;
use crate::place::{Place, TableAt};
use crate::values::value_at;
use std::alloc::{AllocError, Global};
use std::marker::Model;

/// Whether faults were added: not if memory is refused.
pub(crate) type Added = Result<(), AllocError>;

/// The faults so far.
#[derive(Drop)]
pub(crate) struct Faults<'a> {
    pub(crate) alloc: Global,
    found: Vec<Fault<'a>>,
}

impl<'a> Model for Faults<'a> {
    ghost use Rattle.std.specs.Prelude.{List};
    ghost use Rattle.ptpm_script.specs.Marks.{Mark, marks_in};

    ghost Value = { List Mark };

    ghost view = { λ faults. marks_in faults.found.items };
}

impl<'a> Faults<'a> {
    pub(crate) fn new(alloc: Global) -> Faults<'a>
        ensures { result ≡ [] }
    {
        Faults {
            alloc,
            found: Vec::new(alloc),
        }
    }

    pub(crate) fn into_vec(self) -> Vec<Fault<'a>>
        ensures { marks_in result.items ≡ self.entry }
    {
        self.found
    }

    /// The refusal that the first of them is of.
    pub(crate) fn refusal(&self) -> Option<NetError>
        ensures { result ≡ first_refusal self.now }
    {
        match self.found.as_slice() {
            [fault, ..] => Some(fault.class),
            [] => None,
        }
    }

    /// Adds a fault.
    pub(crate) fn add(
        &mut self,
        class: NetError,
        place: Place<'a>,
        found: Found<'a>,
        wanted: Wanted<'a>,
    ) -> Added
        ensures { Adds result self.old self.new (marked class (spot_of place.entry) (part_of found.entry) ∷ []) }
    {
        self.found.push(Fault {
            class,
            place,
            found,
            wanted,
        })?;
        Ok(())
    }

    /// Adds a fault of shape.
    pub(crate) fn add_shape(
        &mut self,
        place: Place<'a>,
        found: Found<'a>,
        wanted: Wanted<'a>,
    ) -> Added
        ensures { Adds result self.old self.new (shape_mark (spot_of place.entry) (part_of found.entry) ∷ []) }
    {
        self.add(NetError::BadShape, place, found, wanted)
    }

    /// Adds a fault of the value at a key, if there is one, and something else is wanted there.
    #[tactic(auto, unfolding(crate::specs::Marks::value_mark))]
    pub(crate) fn add_at(
        &mut self,
        class: NetError,
        at: TableAt<'a>,
        key: &'static str,
        wanted: Option<Wanted<'a>>,
    ) -> Added
        ensures { Adds result self.old self.new
            (value_mark_if (is_some wanted.entry) class (spot_of at.entry.place) key.now (table_view at.entry.table.now)) }
    {
        match (wanted, value_at(at.table, key)) {
            (Some(wanted), Some(value)) => {
                self.add(class, at.place, Found::Value(key, value), wanted)
            }
            _ => Ok(()),
        }
    }
}
