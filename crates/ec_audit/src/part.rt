//! The first untrue part of a theory in the structure that a visible truth gives.
ghost use Rattle.std.specs.Prelude.{◌≡◌, ℕ, false, IfOk, length, slice_index_or};
ghost use Rattle.ec_logic.specs.Universe.{universe_of};
ghost use Rattle.ec_logic.specs.Atom.{all_atoms, visible_atoms};
ghost use Rattle.ec_logic.specs.ValidTheory.{IsValidTheory};
ghost use Rattle.ec_theory.specs.Theories.{theory_of};
ghost use Rattle.ec_audit.specs.Untrue.{TellsPart};

use ec_atom::Atoms;
use ec_eval::Structure;
use ec_minimal::{Part, Verdict, is_minimal, least_effects};
use ec_row::Row;
use ec_theory::Theory;
use std::alloc::{AllocError, Global};

// The structure in which the visible atoms have these truths and no other atom is true.
fn structure_with(alloc: Global, atoms: &Atoms, truth: &Row) -> Result<Structure, AllocError>
    requires { length truth.now ≡ length (visible_atoms (universe_of atoms.now)) }
    ensures size { IfOk result (λ structure. length structure ≡ length (all_atoms (universe_of atoms.now))) }
    ensures same { IfOk result (λ structure. (k : ℕ) → slice_index_or structure k false ≡ slice_index_or truth.now k false) }
{
    let mut structure = Structure::empty(alloc, atoms)?;
    for atom in 0..atoms.visible() {
        structure.set(u64::from(atom), truth.get(atom as usize));
    }
    Ok(structure)
}

/// The first untrue part of a theory in the structure that has this visible truth and the effects that follow from it, or none where that
/// structure is a minimal model. The parts are the remaining sentences, DEC5 to DEC12, the release axioms and the groups, in this order.
///
/// Time is that of evaluating all sentences, and of going over each group's sentences and atoms once; the memory is a few bytes for each atom.
pub fn untrue_part(
    alloc: Global,
    theory: &Theory,
    atoms: &Atoms,
    truth: &Row,
) -> Result<Option<Part>, AllocError>
    requires of { atoms.now ≡ theory.now.signature }
    requires valid { IsValidTheory (theory_of theory.now) }
    requires whole { length truth.now ≡ length (visible_atoms (universe_of theory.now.signature)) }
    ensures { IfOk result (TellsPart (theory_of theory.now) truth.now) }
{
    let mut structure = structure_with(alloc, atoms, truth)?;
    least_effects(alloc, theory, atoms, &mut structure)?;
    match is_minimal(alloc, theory, atoms, &structure)? {
        Verdict::Minimal => Ok(None),
        Verdict::Untrue(part) => Ok(Some(part)),
    }
}
