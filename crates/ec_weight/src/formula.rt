//! The weight of a formula.
ghost use Rattle.std.specs.Prelude.{◌≡◌, ◌+◌, ◌*◌};
ghost use Rattle.ec_logic.specs.Universe.{universe_of};
ghost use Rattle.ec_theory.specs.Sizes.{stopped};
ghost use Rattle.ec_theory.specs.View.{formula_tree, formula_trees};
ghost use Rattle.ec_weight.specs.Weight.{size, weight, weights};

use crate::stopping::{product, sum};
use ec_theory::{Formula, Signature, tuples_of};

/// The number of values of a sort, which is that of tuples of this one sort. A sort that isn't there has none.
pub(crate) fn size(signature: &Signature, sort: u32) -> u64
    ensures { result ≡ stopped (size (universe_of signature.now) sort) }
{
    tuples_of(signature, &[sort])
}

// One more than what two parts weigh together.
fn over_two(left: u64, right: u64) -> u64
    ensures { result ≡ stopped (1 + (left + right)) }
{
    sum(1, sum(left, right))
}

/// One more than a scope weighs for all values of a sort together.
pub(crate) fn over_values(size: u64, scope: u64) -> u64
    ensures { result ≡ stopped (1 + size * scope) }
{
    sum(1, product(size, scope))
}

/// The weight of a formula, stopping at 2^62. Linear in the formula.
#[cycle(weights)]
pub(crate) fn weight(signature: &Signature, f: &Formula) -> u64
    ensures { result ≡ stopped (weight (universe_of signature.now) (formula_tree f.now)) }
{
    match f {
        Formula::True | Formula::False => 1,
        Formula::Atom {
            predicate: _,
            args: _,
        } => 1,
        Formula::Equal(_, _) | Formula::Less(_, _) => 1,
        Formula::Not(g) => sum(1, weight(signature, g)),
        Formula::And(fs) | Formula::Or(fs) => sum(1, weights(signature, fs)),
        Formula::Implies(g, h) => over_two(weight(signature, g), weight(signature, h)),
        Formula::Iff(g, h) => {
            let sides = sum(weight(signature, g), weight(signature, h));
            over_values(2, sides)
        }
        Formula::ForAll { sort, scope } => {
            over_values(size(signature, *sort), weight(signature, scope))
        }
        Formula::Exists { sort, scope } => {
            over_values(size(signature, *sort), weight(signature, scope))
        }
    }
}

/// What formulas weigh together, stopping at 2^62. Linear in them.
#[cycle(weights)]
pub(crate) fn weights(signature: &Signature, fs: &[Formula]) -> u64
    ensures { result ≡ stopped (weights (universe_of signature.now) (formula_trees fs.now)) }
{
    let mut total = 0;
    for f in fs {
        total = sum(total, weight(signature, f));
    }
    total
}
