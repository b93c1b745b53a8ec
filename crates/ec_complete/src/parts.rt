//! Formulas that the building crate has no call for.
ghost use Rattle.std.specs.Prelude.{◌≡◌};
ghost use Rattle.ec_logic.specs.Tree as tree;
ghost use Rattle.ec_theory.specs.View.{formula_tree, formula_trees, term_tree};

use ec_theory::{Formula, Term};

pub(crate) fn equal(a: Term, b: Term) -> Formula
    ensures { formula_tree result ≡ tree.equal (term_tree a) (term_tree b) }
{
    Formula::Equal(a, b)
}

pub(crate) fn less(a: Term, b: Term) -> Formula
    ensures { formula_tree result ≡ tree.less (term_tree a) (term_tree b) }
{
    Formula::Less(a, b)
}

pub(crate) fn all_of(formulas: Vec<Formula>) -> Formula
    ensures { formula_tree result ≡ tree.all_of (formula_trees formulas.items) }
{
    Formula::And(formulas)
}

pub(crate) fn any_of(formulas: Vec<Formula>) -> Formula
    ensures { formula_tree result ≡ tree.any_of (formula_trees formulas.items) }
{
    Formula::Or(formulas)
}
