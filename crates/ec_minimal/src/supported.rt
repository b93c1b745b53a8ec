//! What a group's sentences support.
ghost use Rattle.std.specs.Prelude.{◌≡◌, ℕ, List, ℤ, IfOk, length};
ghost use Rattle.ec_logic.specs.Universe.{universe_of};
ghost use Rattle.ec_logic.specs.Atom.{all_atoms, structure_of};
ghost use Rattle.ec_logic.specs.ClauseTree.{is_supported};
ghost use Rattle.ec_logic.specs.ValidTheory.{AreValidSentences};
ghost use Rattle.ec_theory.specs.Theories.{sentence_trees};

use ec_atom::Atoms;
use ec_eval::{Scratch, Structure, mark_supported};
use ec_theory::{Sentence, Signature};
use std::alloc::{AllocError, Global};

/// How many binders may nest in a sentence of a file.
pub(crate) const BINDERS: u32 = 16;

/// The structure in which exactly those atoms are true that one of these sentences supports in another
/// structure: the heads of the instances of their paths whose bodies are all true. Each sentence is gone
/// over once, each instance of its paths once; the memory is a byte for each atom.
pub fn supported_atoms(
    alloc: Global,
    signature: &Signature,
    atoms: &Atoms,
    structure: &Structure,
    sentences: &[Sentence],
) -> Result<Structure, AllocError>
    requires of { atoms.now ≡ signature.now }
    requires sentences { AreValidSentences signature.now (sentence_trees sentences.now) }
    ensures supported { IfOk result (λ marks. (p : ℕ) (vs : List ℤ) → structure_of (universe_of signature.now) marks p vs ≡ is_supported (universe_of signature.now) (structure_of (universe_of signature.now) structure.now) (sentence_trees sentences.now) p vs) }
    ensures size { IfOk result (λ marks. length marks ≡ length (all_atoms (universe_of signature.now))) }
{
    // This call tells the proof what a signature always keeps.
    let _sorts = signature.sorts();
    let mut marks = Structure::empty(alloc, atoms)?;
    let mut scratch = Scratch::new(alloc, BINDERS)?;
    for sentence in sentences {
        mark_supported(
            signature,
            atoms,
            structure,
            &mut marks,
            &sentence.formula,
            &mut scratch,
        );
    }
    Ok(marks)
}
