//! The effects filled from the rest.
ghost use Rattle.std.specs.Prelude.{◌≡◌, ℕ, List, ℤ, OnErr, OnOk, length};
ghost use Rattle.ec_logic.specs.Universe.{universe_of};
ghost use Rattle.ec_logic.specs.Atom.{all_atoms, structure_of};
ghost use Rattle.ec_logic.specs.ValidTheory.{IsValidTheory};
ghost use Rattle.ec_theory.specs.Theories.{theory_of};
ghost use Rattle.ec_minimal.specs.Effects.{with_effects};

use crate::fill::fill_group;
use ec_atom::Atoms;
use ec_eval::Structure;
use ec_theory::Theory;
use std::alloc::{AllocError, Global};

/// Makes the atoms of Initiates, Terminates and Releases those that the effect group supports in the
/// structure, and leaves all others. Time is that of going over the group's sentences and atoms once; the
/// memory is a byte for each atom. A refusal changes nothing.
pub fn least_effects(
    alloc: Global,
    theory: &Theory,
    atoms: &Atoms,
    structure: &mut Structure,
) -> Result<(), AllocError>
    requires of { atoms.now ≡ theory.now.signature }
    requires valid { IsValidTheory (theory_of theory.now) }
    requires all { length structure.old ≡ length (all_atoms (universe_of theory.now.signature)) }
    ensures filled { OnOk result ((p : ℕ) (vs : List ℤ) → structure_of (universe_of theory.now.signature) structure.new p vs ≡ with_effects (theory_of theory.now) (structure_of (universe_of theory.now.signature) structure.old) p vs) }
    ensures same { OnErr result (structure.new ≡ structure.old) }
    ensures size { length structure.new ≡ length structure.old }
{
    let effects = &theory.groups[0];
    fill_group(alloc, &theory.signature, atoms, structure, effects)
}
