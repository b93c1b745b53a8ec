//! All axioms of the discrete event calculus.
ghost use Rattle.std.specs.Prelude.{◌≡◌, IfOk, map};
ghost use Rattle.ec_logic.specs.Axiom.{dec_axioms};
ghost use Rattle.ec_theory.specs.View.{formula_tree};

use crate::changing::{dec9, dec10, dec11, dec12};
use crate::staying::{dec5, dec6, dec7, dec8};
use ec_theory::{Formula, Signature};
use std::alloc::{AllocError, Global};

/// The axioms DEC5 to DEC12 in order, which are the same for all signatures: every signature has the sorts
/// and predicates that they speak of. Constant time.
pub fn dec_axioms(alloc: Global, _signature: &Signature) -> Result<Vec<Formula>, AllocError>
    ensures { IfOk result (λ axioms. map formula_tree axioms.items ≡ dec_axioms) }
{
    let holding = dec5(alloc)?;
    let failing = dec6(alloc)?;
    let released = dec7(alloc)?;
    let unreleased = dec8(alloc)?;
    let initiated = dec9(alloc)?;
    let terminated = dec10(alloc)?;
    let freed = dec11(alloc)?;
    let caught = dec12(alloc)?;
    Ok(vec![in alloc;
        holding, failing, released, unreleased, initiated, terminated, freed, caught,
    ]?)
}
