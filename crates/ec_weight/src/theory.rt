//! The weight of a theory.
ghost use Rattle.std.specs.Prelude.{◌≡◌, ◌+◌, ◌^◌, min, map, IfOk};
ghost use Rattle.ec_logic.specs.TreeList.{formulas_of};
ghost use Rattle.ec_logic.specs.Axiom.{dec_axioms, release_axioms};
ghost use Rattle.ec_logic.specs.Universe.{universe_of};
ghost use Rattle.ec_theory.specs.Sizes.{stopped};
ghost use Rattle.ec_theory.specs.Theories.{group_of, sentence_trees, theory_of};
ghost use Rattle.ec_weight.specs.Weight.{weights, clause_weights, group_weights, weight_of};

use crate::clause::clause_tree;
use crate::formula::{weight, weights};
use crate::stopping::sum;
use ec_axiom::{dec_axioms, release_axioms};
use ec_theory::{Group, Sentence, Signature, Theory};
use std::alloc::{AllocError, Global};

/// The weight of a theory, or 2^62 where it is greater: what the remaining sentences, the sentences of the
/// groups, DEC5 to DEC12 and the release axioms weigh together. Linear in these, whatever the sizes of the
/// sorts; the axioms are made for it, and let go.
pub fn weight_of(alloc: Global, theory: &Theory) -> Result<u64, AllocError>
    ensures { IfOk result (λ n. n ≡ min (weight_of (theory_of theory.now)) (2 ^ 62)) }
{
    let signature = &theory.signature;
    let remaining = sentence_weights(signature, &theory.remaining);
    let groups = group_weights(signature, &theory.groups);
    let axioms = axiom_weights(alloc, signature)?;
    Ok(sum(sum(remaining, groups), axioms))
}

fn sentence_weights(signature: &Signature, sentences: &[Sentence]) -> u64
    ensures { result ≡ stopped (weights (universe_of signature.now) (formulas_of (sentence_trees sentences.now))) }
{
    let mut total = 0;
    for sentence in sentences {
        total = sum(total, weight(signature, &sentence.formula));
    }
    total
}

// Each sentence of a group is weighed as a clause tree.
fn group_weight(signature: &Signature, sentences: &[Sentence]) -> u64
    ensures { result ≡ stopped (clause_weights (universe_of signature.now) (formulas_of (sentence_trees sentences.now))) }
{
    let mut total = 0;
    for sentence in sentences {
        total = sum(total, clause_tree(signature, &sentence.formula).weight);
    }
    total
}

fn group_weights(signature: &Signature, groups: &[Group]) -> u64
    ensures { result ≡ stopped (group_weights (universe_of signature.now) (map group_of groups.now)) }
{
    let mut total = 0;
    for group in groups {
        total = sum(total, group_weight(signature, &group.sentences));
    }
    total
}

// DEC5 to DEC12 and the release axioms.
fn axiom_weights(alloc: Global, signature: &Signature) -> Result<u64, AllocError>
    ensures { IfOk result (λ n. n ≡ stopped (weights (universe_of signature.now) (formulas_of dec_axioms) + weights (universe_of signature.now) (formulas_of (release_axioms signature.now)))) }
{
    let dec = dec_axioms(alloc, signature)?;
    let release = release_axioms(alloc, signature)?;
    Ok(sum(weights(signature, &dec), weights(signature, &release)))
}
