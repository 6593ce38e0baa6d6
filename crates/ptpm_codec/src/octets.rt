//! An owned list of octets.

ghost use Rattle.std.specs.Prelude.{◌≡◌, IfOk};

use crate::error::OutOfMemory;
use std::alloc::Global;
use std::marker::Model;

/// A list of octets on the heap. Contracts see it as the list.
#[derive(Debug, Drop)]
pub struct Octets {
    items: Vec<u8>,
}

impl Model for Octets {
    ghost use Rattle.std.specs.Prelude.{List, ℕ};

    ghost Value = { List ℕ };

    ghost view = { λ o. o.items.items };
}

impl Octets {
    /// A copy of these octets. Nothing is made if memory is refused.
    pub fn copy_of(alloc: Global, octets: &[u8]) -> Result<Octets, OutOfMemory>
        ensures { IfOk result (λ o. o ≡ octets.now) }
    {
        match Vec::from_slice(alloc, octets) {
            Ok(items) => Ok(Octets { items }),
            Err(_) => Err(OutOfMemory),
        }
    }

    /// The octets, lent.
    pub fn as_slice(&self) -> &[u8]
        ensures { result.now ≡ self.now }
    {
        self.items.as_slice()
    }
}
