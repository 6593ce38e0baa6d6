//! The tree while it grows. Each clock gets its row in it once.

ghost use Rattle.std.specs.Prelude.{◌≡◌, true, false, ℕ, ◌<◌, ◌≤◌, ◌++◌, ◌∷◌, [], slice_index_or, slice_set, vec_len, OnOk, IfOk};
ghost use Rattle.std.specs.List.{All};
ghost use Rattle.ptpm_site.specs.Growing.{AreTrue, AreWaiting, MayStand, StaysAbove, WaitBelow};
ghost use Rattle.ptpm_site.specs.Tree.{IsGrown, StandsOnce, StaysMarked, rows_at};

use crate::reading::domain::Domain;
use crate::tree::TreeRow;
use crate::tree::forest::Forest;
use crate::tree::marks::is_marked;
use ptpm_codec::PortIdentity;
use std::alloc::{AllocError, Global};

/// A tree that grows.
#[derive(Drop)]
pub struct TreeBuilder {
    rows: Vec<TreeRow>,
    /// Whether a clock has its row, by its place. A clock past the last mark has none.
    marks: Vec<bool>,
    /// Places and depths of clocks that follow one that has its row. The next one is the last.
    waiting: Vec<(usize, u32)>,
    ghost grown: { IsGrown marks.items rows.items },
}

impl TreeBuilder {
    /// A tree without rows.
    pub fn new(alloc: Global) -> TreeBuilder
        ensures { result.rows.items ≡ [] }
    {
        TreeBuilder {
            rows: Vec::new(alloc),
            marks: Vec::new(alloc),
            waiting: Vec::new(alloc),
        }
    }

    /// Gives a clock its row at this depth, and all that follow it their rows below. A clock that has a row keeps
    /// it.
    pub fn add_subtree(
        &mut self,
        forest: &Forest,
        place: usize,
        depth: u32,
    ) -> Result<(), AllocError>
        requires stands { MayStand forest.now self.old.rows.items (TreeRow.Clock place depth) }
        requires below { AreTrue forest.now self.old.rows.items }
        ensures marked { OnOk result (slice_index_or self.new.marks.items place false ≡ true) }
        ensures stays { OnOk result (StaysMarked self.old.marks.items self.new.marks.items) }
        ensures below { OnOk result (AreTrue forest.now self.new.rows.items) }
        ensures above { OnOk result (StaysAbove depth self.old.rows.items self.new.rows.items) }
    {
        // What waits belongs below the rows of this subtree, so none is taken over from another.
        self.waiting.clear();
        self.put(forest, place, depth)?;
        // Each clock waits at most once, below the one that it follows.
        'grow: for _ in 0..forest.followed.len() {
            let Some((below, deeper)) = self.waiting.pop() else {
                break 'grow;
            };
            self.put(forest, below, deeper)?;
        }
        Ok(())
    }

    /// Gives a clock its row at this depth, unless it has one. Then those that follow it are next, the first of
    /// them last.
    fn put(&mut self, forest: &Forest, place: usize, depth: u32) -> Result<(), AllocError>
        requires stands { MayStand forest.now self.old.rows.items (TreeRow.Clock place depth) }
        requires below { AreTrue forest.now self.old.rows.items }
        requires shallow { All (λ w. w.1 ≤ depth) self.old.waiting.items }
        ensures marked { OnOk result (slice_index_or self.new.marks.items place false ≡ true) }
        ensures stays { OnOk result (StaysMarked self.old.marks.items self.new.marks.items) }
        ensures below { OnOk result (AreTrue forest.now self.new.rows.items) }
        ensures above { OnOk result (StaysAbove depth self.old.rows.items self.new.rows.items) }
        ensures waiting { OnOk result ((from : ℕ) → from ≤ depth → AreWaiting forest.now self.old.rows.items from self.old.waiting.items → AreWaiting forest.now self.new.rows.items from self.new.waiting.items) }
    {
        if is_marked(self.marks.as_slice(), place) {
            return Ok(());
        }
        add_clock(&mut self.rows, &mut self.marks, place, depth)?;
        wait_below(&mut self.waiting, forest, place, depth)
    }

    /// A row that names a port whose clock is not seen.
    pub fn add_not_seen(&mut self, domain: Domain, parent: PortIdentity) -> Result<(), AllocError>
        ensures { OnOk result (self.new.rows.items ≡ self.old.rows.items ++ TreeRow.NotSeen domain parent ∷ []) }
    {
        add_port(&mut self.rows, domain, parent)
    }

    /// The rows. Each clock has one: those of before lead to each clock, and one without a row would be a root.
    pub fn finish(mut self, forest: &Forest) -> Result<Vec<TreeRow>, AllocError>
        requires below { AreTrue forest.now self.rows.items }
        ensures once { IfOk result (λ rows. StandsOnce (vec_len forest.now.sources) rows.items) }
        ensures below { IfOk result (λ rows. AreTrue forest.now rows.items) }
    {
        for place in 0..forest.sources.len() {
            self.add_subtree(forest, place, 0)?;
        }
        let TreeBuilder { rows, .. } = self;
        Ok(rows)
    }
}

/// Puts those that follow a clock next, the first of them last.
fn wait_below(
    waiting: &mut Vec<(usize, u32)>,
    forest: &Forest,
    place: usize,
    depth: u32,
) -> Result<(), AllocError>
    ensures { OnOk result (WaitBelow forest.now place depth waiting.old.items waiting.new.items) }
{
    // No memory holds a tree with such a depth.
    let deeper = depth.checked_add(1).ok_or(AllocError)?;
    let followers = forest.followers_of(place);
    for index in (0..followers.len()).rev() {
        waiting.push((followers[index].place, deeper))?;
    }
    Ok(())
}

/// Adds a row for a clock that has none, and marks it.
fn add_clock(
    rows: &mut Vec<TreeRow>,
    marks: &mut Vec<bool>,
    place: usize,
    depth: u32,
) -> Result<(), AllocError>
    requires grown { IsGrown marks.old.items rows.old.items }
    requires none { slice_index_or marks.old.items place false ≡ false }
    ensures grown { IsGrown marks.new.items rows.new.items }
    ensures marked { OnOk result (slice_index_or marks.new.items place false ≡ true) }
    ensures stays { StaysMarked marks.old.items marks.new.items }
    ensures row { OnOk result (rows.new.items ≡ rows.old.items ++ TreeRow.Clock place depth ∷ []) }
{
    cover(marks, place)?;
    rows.push(TreeRow::Clock { place, depth })?;
    mark(marks, place);
    Ok(())
}

/// Marks a place for which there is room.
fn mark(marks: &mut Vec<bool>, place: usize)
    requires { place < vec_len marks.old }
    ensures { marks.new.items ≡ slice_set marks.old.items place true }
{
    marks[place] = true;
}

/// A row that names a port.
fn add_port(rows: &mut Vec<TreeRow>, domain: Domain, parent: PortIdentity) -> Result<(), AllocError>
    ensures same { (p : ℕ) → rows_at p rows.new.items ≡ rows_at p rows.old.items }
    ensures row { OnOk result (rows.new.items ≡ rows.old.items ++ TreeRow.NotSeen domain parent ∷ []) }
{
    rows.push(TreeRow::NotSeen { domain, parent })?;
    Ok(())
}

/// Makes room for the mark of a place. Marks that are set stay set.
fn cover(marks: &mut Vec<bool>, place: usize) -> Result<(), AllocError>
    ensures room { OnOk result (place < vec_len marks.new) }
    ensures same { (p : ℕ) → slice_index_or marks.new.items p false ≡ slice_index_or marks.old.items p false }
{
    while marks.len() <= place {
        marks.push(false)?;
    }
    Ok(())
}
