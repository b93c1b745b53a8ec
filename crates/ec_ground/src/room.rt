//! Room for the values of open binders.
ghost use Rattle.std.specs.Prelude.{◌≡◌, ◌≤◌, ◌<◌, ◌^◌, length, IfOk};
ghost use Rattle.ec_logic.specs.Axiom.{release_axioms};
ghost use Rattle.ec_logic.specs.Reach.{nesting_of};
ghost use Rattle.ec_logic.specs.TreeList.{formulas_of};
ghost use Rattle.ec_logic.specs.ValidTheory.{binder_limit};

use ec_theory::Signature;
use std::alloc::{AllocError, Global};

/// So many binders may nest in a sentence of a file; DEC5 to DEC12 nest fewer.
const BINDERS: u32 = 16;

/// A place for each binder that may be open in what is asserted. Linear in the fluents.
pub(crate) fn room_for_binders(alloc: Global, signature: &Signature) -> Result<Vec<i64>, AllocError>
    ensures file { IfOk result (λ room. binder_limit ≤ length room.items) }
    ensures release { IfOk result (λ room. nesting_of (formulas_of (release_axioms signature.now)) ≤ length room.items) }
    ensures depth { IfOk result (λ room. length room.items < 2 ^ 32) }
{
    let deepest = deepest_nesting(signature) as usize;
    vec![in alloc; 0; deepest]
}

// A release axiom has a binder for each argument of its fluent and one for time.
fn deepest_nesting(signature: &Signature) -> u32
    ensures file { binder_limit ≤ result }
    ensures release { nesting_of (formulas_of (release_axioms signature.now)) ≤ result }
{
    let mut deepest = BINDERS;
    for fluent in 0..signature.fluents() {
        deepest = deepest.max(signature.fluent_sorts(fluent).len() as u32 + 1);
    }
    deepest
}
