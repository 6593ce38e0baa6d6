//! Loops of clocks that follow each other. Each is known by its least place.

ghost use Rattle.std.specs.Prelude.{◌≡◌, ℕ, ◌<◌, ◌++◌, false, None, OnOk, IfOk, length, slice_index_or, vec_len};
ghost use Rattle.ptpm_site.specs.Loops.{AreWithin, is_least};

use crate::tree::walks::Walks;
use std::alloc::{AllocError, Global};

/// For each place whether it is the least of a loop. `followed` has the place that each one
/// follows.
pub fn least_of_loops(alloc: Global, followed: &[Option<usize>]) -> Result<Vec<bool>, AllocError>
    requires { AreWithin followed.now }
    ensures { IfOk result (λ marks. (p : ℕ) → p < length followed.now
        → slice_index_or marks.items p false ≡ is_least followed.now p) }
{
    let mut marks = vec![in alloc; false; followed.len()]?;
    let mut walks = Walks::new(alloc, followed.len())?;
    for start in 0..followed.len() {
        if let Some(index) = walks.walk(followed, start)? {
            let least = walks.least_from(index);
            marks[least] = true;
        }
    }
    Ok(marks)
}
