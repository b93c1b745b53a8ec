//! The weight of a clause tree.
ghost use Rattle.std.specs.Prelude.{◌≡◌, ◌+◌, ◌*◌};
ghost use Rattle.ec_logic.specs.Universe.{universe_of};
ghost use Rattle.ec_theory.specs.Sizes.{stopped};
ghost use Rattle.ec_theory.specs.View.{formula_tree, formula_trees};
ghost use Rattle.ec_weight.specs.Weight.{weight, head_instances, head_instances_of, clause_weight, clause_weights};

use crate::formula::{over_values, size, weight};
use crate::stopping::{product, sum};
use ec_theory::{Formula, Signature};

/// The head instances of a clause tree and its weight, each stopping at 2^62.
#[derive(Clone, Copy, Drop)]
pub(crate) struct Weighed {
    heads: u64,
    pub(crate) weight: u64,
}

// A body that is copied to each head instance of a clause tree.
fn under_body(body: u64, tree: Weighed) -> Weighed
    ensures heads { result.heads ≡ tree.heads }
    ensures weight { result.weight ≡ stopped (1 + (tree.heads * body + tree.weight)) }
{
    let copies = product(tree.heads, body);
    Weighed {
        heads: tree.heads,
        weight: sum(1, sum(copies, tree.weight)),
    }
}

// A clause tree for all values of a sort.
fn under_binder(size: u64, tree: Weighed) -> Weighed
    ensures heads { result.heads ≡ stopped (size * tree.heads) }
    ensures weight { result.weight ≡ stopped (1 + size * tree.weight) }
{
    Weighed {
        heads: product(size, tree.heads),
        weight: over_values(size, tree.weight),
    }
}

// A formula that is no clause tree.
fn no_clause_tree(signature: &Signature, f: &Formula) -> Weighed
    ensures heads { result.heads ≡ 0 }
    ensures weight { result.weight ≡ stopped (weight (universe_of signature.now) (formula_tree f.now)) }
{
    Weighed {
        heads: 0,
        weight: weight(signature, f),
    }
}

/// What a clause tree comes to. A part that is no clause tree has no head and weighs what it does elsewhere.
/// Linear in the tree.
#[cycle(clauses)]
pub(crate) fn clause_tree(signature: &Signature, f: &Formula) -> Weighed
    ensures heads { result.heads ≡ stopped (head_instances (universe_of signature.now) (formula_tree f.now)) }
    ensures weight { result.weight ≡ stopped (clause_weight (universe_of signature.now) (formula_tree f.now)) }
{
    match f {
        Formula::Atom {
            predicate: _,
            args: _,
        } => Weighed {
            heads: 1,
            weight: 1,
        },
        Formula::Implies(g, h) => under_body(weight(signature, g), clause_tree(signature, h)),
        Formula::And(fs) => {
            let parts = clause_trees(signature, fs);
            Weighed {
                heads: parts.heads,
                weight: sum(1, parts.weight),
            }
        }
        Formula::ForAll { sort, scope } => {
            under_binder(size(signature, *sort), clause_tree(signature, scope))
        }
        Formula::True
        | Formula::False
        | Formula::Equal(_, _)
        | Formula::Less(_, _)
        | Formula::Not(_)
        | Formula::Or(_)
        | Formula::Iff(_, _)
        | Formula::Exists { sort: _, scope: _ } => no_clause_tree(signature, f),
    }
}

// What the parts of a conjunction come to together.
#[cycle(clauses)]
fn clause_trees(signature: &Signature, fs: &[Formula]) -> Weighed
    ensures heads { result.heads ≡ stopped (head_instances_of (universe_of signature.now) (formula_trees fs.now)) }
    ensures weight { result.weight ≡ stopped (clause_weights (universe_of signature.now) (formula_trees fs.now)) }
{
    let mut heads = 0;
    let mut total = 0;
    for f in fs {
        let part = clause_tree(signature, f);
        heads = sum(heads, part.heads);
        total = sum(total, part.weight);
    }
    Weighed {
        heads,
        weight: total,
    }
}
