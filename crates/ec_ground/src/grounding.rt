//! The grounding of a theory.
ghost use Rattle.std.specs.Prelude.{◌≡◌, ◌≤◌, ◌<◌, length, IfOk, IsErrOf};
ghost use Rattle.ec_logic.specs.Universe.{universe_of};
ghost use Rattle.ec_logic.specs.Atom.{visible_atoms};
ghost use Rattle.ec_logic.specs.ValidTheory.{IsValidTheory};
ghost use Rattle.ec_theory.specs.Theories.{theory_of};
ghost use Rattle.ec_weight.specs.Weight.{weight_of};
ghost use Rattle.ec_grounding.specs.Grounded.{sentence_trees, definitions, variables};
ghost use Rattle.ec_prop.specs.Grounded.{IsGrounded, sentences_of, definitions_of};
ghost use Rattle.ec_ground.specs.declared.grounding.GroundFault.TheVariants.{Memory};

use crate::constants::constants;
use crate::listing::{list_definitions, list_variables};
use crate::sentences::asserted_trees;
use ec_atom::Atoms;
use ec_fold::Reader;
use ec_gather::scopes;
use ec_prop::Grounded;
use ec_theory::Theory;
use ec_weight::weight_of;
use std::alloc::{AllocError, Global};

/// The greatest weight of a theory that is grounded.
const WEIGHT_LIMIT: u64 = 4_000_000;

/// Why a theory was not grounded.
#[derive(Clone, Copy, Debug, PartialEq, Eq)]
pub enum GroundFault {
    /// Its weight is over 4,000,000.
    TooHeavy,
    /// There was no memory.
    Memory,
}

impl From<AllocError> for GroundFault {
    ghost from_gives = { λ _ fault. fault ≡ Memory };

    fn from(_: AllocError) -> GroundFault {
        GroundFault::Memory
    }
}

/// What a theory says of its atoms: the trees of its sentences and axioms, those of the atoms of its groups, and the atoms that have a
/// variable, each list in its order.
///
/// Time and memory grow with the weight, which is at most 4,000,000; all trees together have at most 2^27 nodes.
pub fn ground(alloc: Global, theory: &Theory, atoms: &Atoms) -> Result<Grounded, GroundFault>
    requires valid { IsValidTheory (theory_of theory.now) }
    requires of { atoms.now ≡ theory.now.signature }
    ensures sentences { IfOk result (λ grounded. sentences_of grounded ≡ sentence_trees (theory_of theory.now)) }
    ensures definitions { IfOk result (λ grounded. definitions_of grounded.definitions.items ≡ definitions (theory_of theory.now)) }
    ensures variables { IfOk result (λ grounded. grounded.variables.items ≡ variables (theory_of theory.now)) }

    // Why it is refused.
    ensures heavy { IsErrOf result GroundFault.TooHeavy → 4000000 < weight_of (theory_of theory.now) }
    ensures light { IfOk result (λ _. weight_of (theory_of theory.now) ≤ 4000000) }

    // What clauses can be made of: nothing is missing, and it isn't too much.
    ensures grounded { IfOk result (λ grounded. IsGrounded grounded (length (visible_atoms (universe_of theory.now.signature)))) }
{
    if weight_of(alloc, theory)? > WEIGHT_LIMIT {
        return Err(GroundFault::TooHeavy);
    }
    Ok(grounded(alloc, theory, atoms)?)
}

// The effect atoms come first, since their constants stand wherever else they occur.
fn grounded(alloc: Global, theory: &Theory, atoms: &Atoms) -> Result<Grounded, AllocError>
    requires valid { IsValidTheory (theory_of theory.now) }
    requires of { atoms.now ≡ theory.now.signature }
    ensures sentences { IfOk result (λ grounded. sentences_of grounded ≡ sentence_trees (theory_of theory.now)) }
    ensures definitions { IfOk result (λ grounded. definitions_of grounded.definitions.items ≡ definitions (theory_of theory.now)) }
    ensures variables { IfOk result (λ grounded. grounded.variables.items ≡ variables (theory_of theory.now)) }
    ensures few { IfOk result (λ _. length (visible_atoms (universe_of theory.now.signature)) ≤ 262144) }
{
    let signature = &theory.signature;
    let reader = Reader {
        signature,
        atoms,
        known: &[],
    };
    let mut effects = scopes(alloc, reader, &theory.groups[..1])?;
    let known = constants(alloc, &effects)?;
    let reader = Reader {
        signature,
        atoms,
        known: &known,
    };
    let mut others = scopes(alloc, reader, &theory.groups[1..])?;
    let sentences = asserted_trees(alloc, reader, &theory.remaining)?;
    let variables = list_variables(alloc, atoms.visible() as usize, &known)?;
    let definitions = list_definitions(alloc, &known, &mut effects, &mut others)?;
    Ok(Grounded {
        sentences,
        definitions,
        variables,
    })
}
