//! The trees of what is asserted.
ghost use Rattle.std.specs.Prelude.{◌≡◌, ◌≤◌, ◌<◌, ◌^◌, ◌++◌, All, [], true, length, map, IfOk, OnOk};
ghost use Rattle.ec_logic.specs.Axiom.{dec_axioms, release_axioms};
ghost use Rattle.ec_logic.specs.Reach.{nesting_of};
ghost use Rattle.ec_logic.specs.Universe.{universe_of};
ghost use Rattle.ec_logic.specs.Valid.{IsSignature};
ghost use Rattle.ec_logic.specs.ValidTheory.{IsSentence, AreValidSentences, binder_limit};
ghost use Rattle.ec_theory.specs.Theories.{sentence_trees};
ghost use Rattle.ec_theory.specs.View.{formula_tree, formula_trees};
ghost use Rattle.ec_grounding.specs.Folded.{folded};
ghost use Rattle.ec_fold.specs.Known.{read_with};
ghost use Rattle.ec_prop.specs.Prop.{trees_of};

use crate::room::room_for_binders;
use ec_axiom::{dec_axioms, release_axioms};
use ec_fold::{Reader, fold_sentence};
use ec_prop::Prop;
use ec_theory::{Formula, Sentence};
use std::alloc::{AllocError, Global};

/// The trees of these sentences, of DEC5 to DEC12 and of the release axioms, in this order. Linear in the trees.
pub(crate) fn asserted_trees(
    alloc: Global,
    reader: Reader<'_>,
    remaining: &[Sentence],
) -> Result<Vec<Prop>, AllocError>
    requires of { reader.atoms.now ≡ reader.signature.now }
    requires signature { IsSignature reader.signature.now }
    requires sentences { AreValidSentences reader.signature.now (sentence_trees remaining.now) }
    ensures trees { IfOk result (λ trees. trees_of trees.items ≡ map (folded (universe_of reader.entry.signature.now) (read_with (universe_of reader.entry.signature.now) reader.entry.known.now) [] true) (sentence_trees remaining.now ++ dec_axioms ++ release_axioms reader.entry.signature.now)) }
{
    let signature = reader.signature;
    let mut room = room_for_binders(alloc, signature)?;
    let dec = dec_axioms(alloc, signature)?;
    let release = release_axioms(alloc, signature)?;
    let mut trees = Vec::new(alloc);
    add_sentences(alloc, reader, &mut room, remaining, &mut trees)?;
    add_formulas(alloc, reader, &mut room, &dec, &mut trees)?;
    add_formulas(alloc, reader, &mut room, &release, &mut trees)?;
    Ok(trees)
}

// Adds the trees of sentences of a file.
fn add_sentences(
    alloc: Global,
    reader: Reader<'_>,
    room: &mut [i64],
    sentences: &[Sentence],
    trees: &mut Vec<Prop>,
) -> Result<(), AllocError>
    requires of { reader.atoms.now ≡ reader.signature.now }
    requires sentences { AreValidSentences reader.signature.now (sentence_trees sentences.now) }
    requires room { binder_limit ≤ length room.old }
    requires depth { length room.old < 2 ^ 32 }
    ensures trees { OnOk result (trees_of trees.new.items ≡ trees_of trees.old.items ++ map (folded (universe_of reader.entry.signature.now) (read_with (universe_of reader.entry.signature.now) reader.entry.known.now) [] true) (sentence_trees sentences.now)) }
    ensures room { length room.new ≡ length room.old }
{
    for sentence in sentences {
        trees.push(fold_sentence(alloc, reader, room, &sentence.formula)?)?;
    }
    Ok(())
}

// Adds the trees of axioms.
fn add_formulas(
    alloc: Global,
    reader: Reader<'_>,
    room: &mut [i64],
    formulas: &[Formula],
    trees: &mut Vec<Prop>,
) -> Result<(), AllocError>
    requires of { reader.atoms.now ≡ reader.signature.now }
    requires sentences { All (IsSentence reader.signature.now) (map formula_tree formulas.now) }
    requires room { nesting_of (formula_trees formulas.now) ≤ length room.old }
    requires depth { length room.old < 2 ^ 32 }
    ensures trees { OnOk result (trees_of trees.new.items ≡ trees_of trees.old.items ++ map (folded (universe_of reader.entry.signature.now) (read_with (universe_of reader.entry.signature.now) reader.entry.known.now) [] true) (map formula_tree formulas.now)) }
    ensures room { length room.new ≡ length room.old }
{
    for formula in formulas {
        trees.push(fold_sentence(alloc, reader, room, formula)?)?;
    }
    Ok(())
}
