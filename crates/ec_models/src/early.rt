//! What can be tested before effects are filled.
ghost use Rattle.std.specs.Prelude.{◌≡◌, ◌≤◌, IfOk, map};
ghost use Rattle.std.specs.List.{AllByRecursion};
ghost use Rattle.ec_logic.specs.Universe.{universe_of};
ghost use Rattle.ec_logic.specs.Atom.{structure_of};
ghost use Rattle.ec_logic.specs.ClauseTree.{only_has, only_have};
ghost use Rattle.ec_logic.specs.Reach.{nesting_of};
ghost use Rattle.ec_logic.specs.Theory.{all_hold};
ghost use Rattle.ec_logic.specs.ValidTheory.{IsSentence, IsValidSentence, binder_limit};
ghost use Rattle.ec_theory.specs.Theories.{sentence_trees};
ghost use Rattle.ec_theory.specs.View.{formula_tree, formula_trees};
ghost use Rattle.ec_models.specs.Early.{is_effect, is_no_effect, early_of, trees_behind};

use ec_atom::Atoms;
use ec_eval::{Scratch, Structure, holds};
use ec_theory::{Formula, Sentence, Signature};
use std::alloc::{AllocError, Global};

/// Whether a predicate is Initiates, Terminates or Releases.
fn is_effect_predicate(predicate: u32) -> bool
    ensures { result ≡ is_effect predicate }
{
    (3..=5).contains(&predicate)
}

/// Whether no effect predicate occurs in a formula. Linear in the formula.
#[cycle(effects)]
fn has_no_effects(f: &Formula) -> bool
    ensures { result ≡ only_has is_no_effect (formula_tree f.now) }
{
    match f {
        Formula::True | Formula::False => true,
        Formula::Atom { predicate, args: _ } => !is_effect_predicate(*predicate),
        Formula::Equal(_, _) | Formula::Less(_, _) => true,
        Formula::Not(g) => has_no_effects(g),
        Formula::And(fs) | Formula::Or(fs) => have_no_effects(fs),
        Formula::Implies(g, h) | Formula::Iff(g, h) => has_no_effects(g) && has_no_effects(h),
        Formula::ForAll { sort: _, scope } | Formula::Exists { sort: _, scope } => has_no_effects(
            scope,
        ),
    }
}

#[cycle(effects)]
fn have_no_effects(fs: &[Formula]) -> bool
    ensures { result ≡ only_have is_no_effect (formula_trees fs.now) }
{
    for f in fs {
        if !has_no_effects(f) {
            return false;
        }
    }
    true
}

/// The sentences in which no effect predicate occurs, in their order. Linear in the sentences.
pub(crate) fn early_sentences<'a>(
    alloc: Global,
    sentences: &'a [Sentence],
) -> Result<Vec<&'a Formula>, AllocError>
    ensures { IfOk result (λ early. trees_behind early.items ≡ early_of (sentence_trees sentences.now)) }
{
    let mut early = Vec::new(alloc);
    for sentence in sentences {
        if has_no_effects(&sentence.formula) {
            early.push(&sentence.formula)?;
        }
    }
    Ok(early)
}

/// Whether these axioms are all true in the structure, up to the first that isn't.
pub(crate) fn axioms_hold(
    signature: &Signature,
    atoms: &Atoms,
    structure: &Structure,
    axioms: &[Formula],
    scratch: &mut Scratch,
) -> bool
    requires of { atoms.now ≡ signature.now }
    requires sentences { AllByRecursion (IsSentence signature.now) (map formula_tree axioms.now) }
    requires room { nesting_of (formula_trees axioms.now) ≤ scratch.old }
    ensures answer { result ≡ all_hold (universe_of signature.now) (structure_of (universe_of signature.now) structure.now) (map formula_tree axioms.now) }
    ensures same { scratch.new ≡ scratch.old }
{
    for formula in axioms {
        if !holds(signature, atoms, structure, formula, scratch) {
            return false;
        }
    }
    true
}

/// Whether these sentences of a file are all true in the structure, up to the first that isn't.
pub(crate) fn sentences_hold(
    signature: &Signature,
    atoms: &Atoms,
    structure: &Structure,
    sentences: &[&Formula],
    scratch: &mut Scratch,
) -> bool
    requires of { atoms.now ≡ signature.now }
    requires sentences { AllByRecursion (IsValidSentence signature.now) (trees_behind sentences.now) }
    requires room { binder_limit ≤ scratch.old }
    ensures answer { result ≡ all_hold (universe_of signature.now) (structure_of (universe_of signature.now) structure.now) (trees_behind sentences.now) }
    ensures same { scratch.new ≡ scratch.old }
{
    for sentence in sentences {
        if !holds(signature, atoms, structure, sentence, scratch) {
            return false;
        }
    }
    true
}
