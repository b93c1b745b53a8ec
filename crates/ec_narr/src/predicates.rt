//! The true atoms of the declared predicates.
ghost use Rattle.std.specs.Prelude.{◌≡◌, ◌++◌, ◌<◌, codes, drop, length, OnOk, Some, slice_get};
ghost use Rattle.std.specs.List.{flat_map};
ghost use Rattle.ec_logic.specs.Atom.{GroundAtom as LogicAtom};
ghost use Rattle.ec_logic.specs.Atom.{atoms_of, declared, structure_of, visible_atoms};
ghost use Rattle.ec_logic.specs.Narrative.{atom_line, atom_text, line};
ghost use Rattle.ec_logic.specs.Universe.{universe_of};
ghost use Rattle.ec_logic.specs.Valid.{IsSignature};

use crate::ground::push_atom;
use crate::truths::bit_at;
use ec_atom::Atoms;
use ec_row::Row;
use ec_theory::Signature;
use std::alloc::AllocError;

// The first declared predicate, behind the built-in ones.
const DECLARED: u32 = 6;

/// The number of the first atom of a declared predicate, or of visible atoms where there is none.
pub fn first_declared(signature: &Signature, atoms: &Atoms) -> u64
    requires valid { IsSignature signature.now }
    requires same { atoms.now ≡ signature.now }
    ensures { drop result (visible_atoms (universe_of signature.now)) ≡ flat_map (atoms_of (universe_of signature.now)) (declared (universe_of signature.now)) }
{
    if signature.predicates() > DECLARED {
        atoms.first_of(DECLARED)
    } else {
        atoms.visible() as u64
    }
}

fn push_true_atom(
    out: &mut Vec<u8>,
    signature: &Signature,
    atoms: &Atoms,
    index: u64,
) -> Result<(), AllocError>
    requires valid { IsSignature signature.now }
    requires same { atoms.now ≡ signature.now }
    requires within { index < length (visible_atoms (universe_of signature.now)) }
    ensures { OnOk result ((atom : LogicAtom) → slice_get (visible_atoms (universe_of signature.now)) index ≡ Some atom → out.new.items ≡ out.old.items ++ line (atom_text signature.now atom ++ codes ".")) }
{
    let atom = atoms.atom_at(index)?;
    push_atom(out, signature, atoms, &atom)?;
    out.extend_from_slice(b".\n")?;
    Ok(())
}

// Adds the line of the visible atom with a number, if it is true.
fn push_atom_line(
    out: &mut Vec<u8>,
    signature: &Signature,
    atoms: &Atoms,
    truth: &Row,
    index: u64,
) -> Result<(), AllocError>
    requires valid { IsSignature signature.now }
    requires same { atoms.now ≡ signature.now }
    requires within { index < length (visible_atoms (universe_of signature.now)) }
    ensures { OnOk result ((atom : LogicAtom) → slice_get (visible_atoms (universe_of signature.now)) index ≡ Some atom → out.new.items ≡ out.old.items ++ atom_line signature.now (structure_of (universe_of signature.now) truth.now) atom) }
{
    if !bit_at(truth, index) {
        return Ok(());
    }
    push_true_atom(out, signature, atoms, index)
}

/// Adds a line for each true atom of a declared predicate.
pub fn push_predicates(
    out: &mut Vec<u8>,
    signature: &Signature,
    atoms: &Atoms,
    truth: &Row,
) -> Result<(), AllocError>
    requires valid { IsSignature signature.now }
    requires same { atoms.now ≡ signature.now }
    ensures { OnOk result (out.new.items ≡ out.old.items ++ flat_map (atom_line signature.now (structure_of (universe_of signature.now) truth.now)) (flat_map (atoms_of (universe_of signature.now)) (declared (universe_of signature.now)))) }
{
    for index in first_declared(signature, atoms)..atoms.visible() as u64 {
        push_atom_line(out, signature, atoms, truth, index)?;
    }
    Ok(())
}
