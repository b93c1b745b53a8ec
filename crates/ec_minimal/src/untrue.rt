//! The first untrue one of a list of formulas, sentences or groups.
ghost use Rattle.std.specs.Prelude.{◌≡◌, ◌≤◌, ◌<◌, ◌^◌, All, IfOk, length, map};
ghost use Rattle.ec_logic.specs.Universe.{universe_of};
ghost use Rattle.ec_logic.specs.Atom.{all_atoms, structure_of};
ghost use Rattle.ec_logic.specs.Reach.{nesting_of};
ghost use Rattle.ec_logic.specs.ValidTheory.{IsSentence, AreValidSentences, IsValidGroup, binder_limit};
ghost use Rattle.ec_theory.specs.Theories.{group_of, sentence_trees};
ghost use Rattle.ec_theory.specs.View.{formula_tree, formula_trees};
ghost use Rattle.ec_minimal.specs.Firsts.{TellsFirstFalse, TellsFirstUnminimal};

use crate::group::is_group_minimal;
use ec_atom::Atoms;
use ec_eval::{Scratch, Structure, holds};
use ec_theory::{Formula, Group, Sentence, Signature};
use std::alloc::{AllocError, Global};

/// The place of the first of these formulas that is false in the structure.
pub(crate) fn first_false_formula(
    signature: &Signature,
    atoms: &Atoms,
    structure: &Structure,
    formulas: &[Formula],
    scratch: &mut Scratch,
) -> Option<u32>
    requires of { atoms.now ≡ signature.now }
    requires sentences { All (IsSentence signature.now) (map formula_tree formulas.now) }
    requires room { nesting_of (formula_trees formulas.now) ≤ scratch.old }
    requires few { length formulas.now < 2 ^ 32 }
    ensures first { TellsFirstFalse (universe_of signature.now) (structure_of (universe_of signature.now) structure.now) (map formula_tree formulas.now) result }
    ensures same { scratch.new ≡ scratch.old }
{
    for (place, formula) in formulas.iter().enumerate() {
        if !holds(signature, atoms, structure, formula, scratch) {
            return Some(place as u32);
        }
    }
    None
}

/// The place of the first of these sentences that is false in the structure.
pub(crate) fn first_false_sentence(
    signature: &Signature,
    atoms: &Atoms,
    structure: &Structure,
    sentences: &[Sentence],
    scratch: &mut Scratch,
) -> Option<u32>
    requires of { atoms.now ≡ signature.now }
    requires sentences { AreValidSentences signature.now (sentence_trees sentences.now) }
    requires room { binder_limit ≤ scratch.old }
    requires few { length sentences.now < 2 ^ 32 }
    ensures first { TellsFirstFalse (universe_of signature.now) (structure_of (universe_of signature.now) structure.now) (sentence_trees sentences.now) result }
    ensures same { scratch.new ≡ scratch.old }
{
    for (place, sentence) in sentences.iter().enumerate() {
        if !holds(signature, atoms, structure, &sentence.formula, scratch) {
            return Some(place as u32);
        }
    }
    None
}

/// The place of the first of these groups that isn't minimal in the structure.
pub(crate) fn first_unminimal_group(
    alloc: Global,
    signature: &Signature,
    atoms: &Atoms,
    structure: &Structure,
    groups: &[Group],
) -> Result<Option<u32>, AllocError>
    requires of { atoms.now ≡ signature.now }
    requires valid { All (IsValidGroup signature.now) (map group_of groups.now) }
    requires all { length structure.now ≡ length (all_atoms (universe_of signature.now)) }
    requires few { length groups.now < 2 ^ 32 }
    ensures { IfOk result (TellsFirstUnminimal (universe_of signature.now) (structure_of (universe_of signature.now) structure.now) (map group_of groups.now)) }
{
    for (place, group) in groups.iter().enumerate() {
        if !is_group_minimal(alloc, signature, atoms, structure, group)? {
            return Ok(Some(place as u32));
        }
    }
    Ok(None)
}
