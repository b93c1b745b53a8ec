//! Room for the values of the open binders.
ghost use Rattle.std.specs.Prelude.{◌≡◌, IfOk};

use std::alloc::{AllocError, Global};
use std::marker::Model;

/// Room for the values of binders that nest, seen as how many there may be. The values that it holds
/// between two calls mean nothing.
#[derive(Drop)]
pub struct Scratch {
    pub(crate) values: Vec<i64>,
}

impl Model for Scratch {
    ghost use Rattle.std.specs.Prelude.{ℕ, ◌<◌, ◌^◌, length};

    ghost Value = { ℕ };

    ghost view = { λ s. length s.values.items };

    ghost invariant = { λ s. length s.values.items < 2 ^ 32 };
}

impl Scratch {
    /// Room for so many binders: eight bytes each.
    pub fn new(alloc: Global, binders: u32) -> Result<Scratch, AllocError>
        ensures { IfOk result (λ scratch. scratch ≡ binders) }
    {
        Ok(Scratch {
            values: vec![in alloc; 0i64; binders as usize]?,
        })
    }
}
