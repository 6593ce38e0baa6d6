//! Walks along the clocks, from each to the one that it follows, by their places. Each place is passed once.

ghost use Rattle.std.specs.Prelude.{◌≡◌, ℕ, ◌<◌, ◌≤◌, ◌++◌, [], ◌∷◌, None, OnOk, IfOk, length, slice_index, slice_index_or, slice_set, vec_len};
ghost use Rattle.ptpm_site.specs.Loops.{AreWithin};
ghost use Rattle.ptpm_site.specs.Walks.{AreNumbered, IsPassed, Walked};

use std::alloc::{AllocError, Global};

/// The places that walks passed.
#[derive(Drop)]
pub struct Walks {
    /// In the order in which they were passed.
    passed: Vec<usize>,
    /// For each place its index among these.
    indices: Vec<Option<usize>>,
    ghost numbered: { AreNumbered indices.items passed.items },
}

impl Walks {
    /// No walk yet, over this many places.
    pub fn new(alloc: Global, count: usize) -> Result<Walks, AllocError>
        ensures none { IfOk result (λ walks. walks.passed.items ≡ []) }
        ensures count { IfOk result (λ walks. vec_len walks.indices ≡ count) }
    {
        let indices = vec![in alloc; None; count]?;
        Ok(Walks {
            passed: Vec::new(alloc),
            indices,
        })
    }

    /// Walks from a place to the one that it follows, and on, until it comes to one that was passed before. If this walk itself
    /// passed that one, answers its index: all places from there on are a loop.
    pub fn walk(
        &mut self,
        followed: &[Option<usize>],
        start: usize,
    ) -> Result<Option<usize>, AllocError>
        requires count { vec_len self.old.indices ≡ length followed.now }
        requires within { AreWithin followed.now }
        requires start { start < length followed.now }
        ensures count { OnOk result (vec_len self.new.indices ≡ length followed.now) }
        ensures walked { IfOk result (λ back. Walked followed.now self.old.passed.items self.new.passed.items back) }
        ensures reached { OnOk result (IsPassed self.new.indices.items start) }
    {
        let first = self.passed.len();
        let mut here = start;
        'step: loop {
            if let Some(index) = self.index_of(here) {
                return Ok(if index < first { None } else { Some(index) });
            }
            self.pass(here)?;
            match next(followed, here) {
                Some(place) => here = place,
                None => return Ok(None),
            }
        }
    }

    /// The index of a place that was passed.
    fn index_of(&self, place: usize) -> Option<usize>
        ensures { result ≡ slice_index_or self.now.indices.items place None }
    {
        match self.indices.get(place) {
            Some(index) => *index,
            None => None,
        }
    }

    /// Passes a place that was not passed.
    fn pass(&mut self, place: usize) -> Result<(), AllocError>
        requires within { place < vec_len self.old.indices }
        requires new { slice_index_or self.old.indices.items place None ≡ None }
        ensures passed { OnOk result (self.new.passed.items ≡ self.old.passed.items ++ place ∷ []) }
        ensures indices { OnOk result (self.new.indices.items ≡ slice_set self.old.indices.items place (Some (vec_len self.old.passed))) }
    {
        let index = self.passed.len();
        self.passed.push(place)?;
        self.indices[place] = Some(index);
        Ok(())
    }

    /// The least of the places that were passed from an index on.
    pub fn least_from(&self, first: usize) -> usize
        requires { first < vec_len self.now.passed }
        ensures among { (k : ℕ) × (first ≤ k) × (k < vec_len self.now.passed) × (slice_index self.now.passed.items k ≡ result) }
        ensures least { (k : ℕ) → first ≤ k → k < vec_len self.now.passed → result ≤ slice_index self.now.passed.items k }
    {
        let mut least = first;
        for index in first..self.passed.len() {
            if self.passed[index] < self.passed[least] {
                least = index;
            }
        }
        self.passed[least]
    }
}

/// The place that a place follows.
pub fn next(followed: &[Option<usize>], place: usize) -> Option<usize>
    ensures { result ≡ slice_index_or followed.now place None }
{
    match followed.get(place) {
        Some(next) => *next,
        None => None,
    }
}
