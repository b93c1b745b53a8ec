//! A structure whose group extents follow from the rest.
ghost use Rattle.std.specs.Prelude.{◌≡◌, ◌<◌, ℕ, List, ℤ, All, OnErr, OnOk, length};
ghost use Rattle.ec_logic.specs.Universe.{universe_of};
ghost use Rattle.ec_logic.specs.Atom.{all_atoms, structure_of};
ghost use Rattle.ec_logic.specs.Completed.{filled};
ghost use Rattle.ec_logic.specs.ValidTheory.{IsValidGroup};
ghost use Rattle.ec_theory.specs.Theories.{group_of};
ghost use Rattle.ec_minimal.specs.Agrees.{TakesExtent, TakesExtents};

use crate::supported::supported_atoms;
use ec_atom::Atoms;
use ec_eval::Structure;
use ec_theory::{Group, Signature, tuples_of};
use std::alloc::{AllocError, Global};

/// Gives a predicate's atoms the truth that they have in another structure.
fn take_extent(
    signature: &Signature,
    atoms: &Atoms,
    source: &Structure,
    target: &mut Structure,
    predicate: u32,
)
    requires of { atoms.now ≡ signature.now }
    requires known { predicate < length signature.now.predicates }
    requires source { length source.now ≡ length (all_atoms (universe_of signature.now)) }
    requires target { length target.old ≡ length (all_atoms (universe_of signature.now)) }
    ensures takes { TakesExtent (universe_of signature.now) source.now target.old target.new predicate }
    ensures size { length target.new ≡ length target.old }
{
    // These calls tell the proof what a signature and its atoms always keep.
    let _sorts = signature.sorts();
    let _visible = atoms.visible();
    let first = atoms.first_of(predicate);
    let count = tuples_of(signature, signature.predicate_sorts(predicate));
    for place in 0..count {
        let truth = source.get(first + place);
        target.set(first + place, truth);
    }
}

/// The same of several predicates.
fn take_extents(
    signature: &Signature,
    atoms: &Atoms,
    source: &Structure,
    target: &mut Structure,
    predicates: &[u32],
)
    requires of { atoms.now ≡ signature.now }
    requires known { All (λ p. p < length signature.now.predicates) predicates.now }
    requires source { length source.now ≡ length (all_atoms (universe_of signature.now)) }
    requires target { length target.old ≡ length (all_atoms (universe_of signature.now)) }
    ensures takes { TakesExtents (universe_of signature.now) source.now target.old target.new predicates.now }
    ensures size { length target.new ≡ length target.old }
{
    for predicate in predicates {
        take_extent(signature, atoms, source, target, *predicate);
    }
}

/// Makes a group's atoms those that its sentences support in the structure, and leaves all others: the
/// filled structure, which is the one minimal in the group with the rest as it is. Time is that of going over
/// the group's sentences and atoms once; the memory is a byte for each atom. A refusal changes nothing.
pub fn fill_group(
    alloc: Global,
    signature: &Signature,
    atoms: &Atoms,
    structure: &mut Structure,
    group: &Group,
) -> Result<(), AllocError>
    requires of { atoms.now ≡ signature.now }
    requires valid { IsValidGroup signature.now (group_of group.now) }
    requires all { length structure.old ≡ length (all_atoms (universe_of signature.now)) }
    ensures filled { OnOk result ((p : ℕ) (vs : List ℤ) → structure_of (universe_of signature.now) structure.new p vs ≡ filled (universe_of signature.now) (group_of group.now) (structure_of (universe_of signature.now) structure.old) p vs) }
    ensures same { OnErr result (structure.new ≡ structure.old) }
    ensures size { length structure.new ≡ length structure.old }
{
    let supported = supported_atoms(alloc, signature, atoms, structure, &group.sentences)?;
    take_extents(signature, atoms, &supported, structure, &group.predicates);
    Ok(())
}
