//! What is promised of the ids of a plan, and of its order.

ghost use Rattle.std.specs.Prelude.{◌≡◌, ℕ, ◌≤◌, ◌==◌, List, Some, find, length};
ghost use Rattle.std.specs.List.Sorted.{IsNonDecreasingBy, IsPermutation, IsSortedByKey};
ghost use Rattle.ptpm_plan.specs.declared.change.Change.{Change};
ghost use Rattle.ptpm_plan.specs.declared.change.PlannedId.{PlannedId};
ghost use Rattle.ptpm_plan.specs.declared.surveyed.Surveyed.{Surveyed};
ghost use Rattle.ptpm_plan.specs.BestClock.{alterations, AreApart, HaveOneEach, ranks_of};
ghost use Rattle.ptpm_plan.specs.Order.{group, order_key};
ghost use Rattle.ptpm_plan.specs.PlannedId.{number_of};

use crate::change::PlannedId;
use crate::order::OrderKey;

/// Each id that a plan may set is found by its number.
pub fn planned_ids_law()
    ensures { (id : PlannedId) → find (λ other. number_of other == number_of id) PlannedId.ALL ≡ Some id }
{}

/// The six groups are asked one after the other.
pub fn groups_law()
    ensures { (s : Surveyed) (given asked : List Change) → IsSortedByKey (order_key s given) ⟦<OrderKey as Ord>⟧.cmp asked
        → IsNonDecreasingBy (λ (c : Change). group (order_key s given c).turn) asked }
{}

/// If each clock of a domain has one change of its rank at most, its best clock changes once at most along the order.
/// So it changes from the present one straight to the final one.
pub fn best_clock_once_law()
    ensures { (s : Surveyed) (given asked : List Change) (domain : ℕ)
        → IsPermutation given asked → IsSortedByKey (order_key s given) ⟦<OrderKey as Ord>⟧.cmp asked
        → AreApart (ranks_of s) → HaveOneEach domain (ranks_of s) given
        → length (alterations domain asked (ranks_of s) (length asked)) ≤ 1 }
{}
