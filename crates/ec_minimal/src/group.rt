//! Whether a group is minimal in a structure.
ghost use Rattle.std.specs.Prelude.{◌≡◌, ◌<◌, ◌↔◌, All, false, true, IfOk, length, slice_get};
ghost use Rattle.ec_logic.specs.Universe.{universe_of};
ghost use Rattle.ec_logic.specs.Atom.{all_atoms, structure_of};
ghost use Rattle.ec_logic.specs.Minimal.{IsMinimalIn};
ghost use Rattle.ec_logic.specs.ValidTheory.{IsValidGroup};
ghost use Rattle.ec_theory.specs.Theories.{group_of};
ghost use Rattle.ec_minimal.specs.Agrees.{Agrees, same_truth};

use crate::supported::supported_atoms;
use ec_atom::Atoms;
use ec_eval::Structure;
use ec_theory::{Group, Signature, tuples_of};
use std::alloc::{AllocError, Global};

/// Whether an atom has the same truth in both structures.
fn same_at(a: &Structure, b: &Structure, atom: u64) -> bool
    requires left { atom < length a.now }
    requires right { atom < length b.now }
    ensures { result ≡ same_truth (slice_get a.now atom) (slice_get b.now atom) }
{
    a.get(atom) == b.get(atom)
}

/// Whether two structures agree on the atoms of a predicate.
fn agree_on(
    signature: &Signature,
    atoms: &Atoms,
    a: &Structure,
    b: &Structure,
    predicate: u32,
) -> bool
    requires of { atoms.now ≡ signature.now }
    requires known { predicate < length signature.now.predicates }
    requires left { length a.now ≡ length (all_atoms (universe_of signature.now)) }
    requires right { length b.now ≡ length (all_atoms (universe_of signature.now)) }
    ensures same { result ≡ true → Agrees (universe_of signature.now) a.now b.now predicate }
    ensures other { result ≡ false → Agrees (universe_of signature.now) a.now b.now predicate → ⊥ }
{
    // These calls tell the proof what a signature and its atoms always keep.
    let _sorts = signature.sorts();
    let _visible = atoms.visible();
    let first = atoms.first_of(predicate);
    let count = tuples_of(signature, signature.predicate_sorts(predicate));
    for place in 0..count {
        if !same_at(a, b, first + place) {
            return false;
        }
    }
    true
}

/// Whether two structures agree on the atoms of each of these predicates.
fn agree_on_all(
    signature: &Signature,
    atoms: &Atoms,
    a: &Structure,
    b: &Structure,
    predicates: &[u32],
) -> bool
    requires of { atoms.now ≡ signature.now }
    requires known { All (λ p. p < length signature.now.predicates) predicates.now }
    requires left { length a.now ≡ length (all_atoms (universe_of signature.now)) }
    requires right { length b.now ≡ length (all_atoms (universe_of signature.now)) }
    ensures same { result ≡ true → All (Agrees (universe_of signature.now) a.now b.now) predicates.now }
    ensures other { result ≡ false → All (Agrees (universe_of signature.now) a.now b.now) predicates.now → ⊥ }
{
    for predicate in predicates {
        if !agree_on(signature, atoms, a, b, *predicate) {
            return false;
        }
    }
    true
}

/// Whether a group is minimal in a structure: its sentences are true, and in no structure below it that
/// differs in the group's predicates alone. It is so exactly where each of the group's atoms is true where
/// the sentences support it. Time is that of going over the group's sentences and atoms once; the memory is
/// a byte for each atom.
pub fn is_group_minimal(
    alloc: Global,
    signature: &Signature,
    atoms: &Atoms,
    structure: &Structure,
    group: &Group,
) -> Result<bool, AllocError>
    requires of { atoms.now ≡ signature.now }
    requires valid { IsValidGroup signature.now (group_of group.now) }
    requires all { length structure.now ≡ length (all_atoms (universe_of signature.now)) }
    ensures { IfOk result (λ is. (is ≡ true) ↔ IsMinimalIn (universe_of signature.now) (group_of group.now) (structure_of (universe_of signature.now) structure.now)) }
{
    let supported = supported_atoms(alloc, signature, atoms, structure, &group.sentences)?;
    let same = agree_on_all(signature, atoms, structure, &supported, &group.predicates);
    Ok(same)
}
