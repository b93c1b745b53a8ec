//! Formulas.
ghost use Rattle.std.specs.Prelude.{◌≡◌, IfOk};
ghost use Rattle.ec_logic.specs.Tree as tree;
ghost use Rattle.ec_theory.specs.View.{formula_tree, term_trees};

use ec_theory::{Formula, Term};
use std::alloc::{AllocError, Global};

/// A predicate of its arguments.
pub fn atom(predicate: u32, args: Vec<Term>) -> Formula
    ensures { formula_tree result ≡ tree.atom predicate (term_trees args.items) }
{
    Formula::Atom { predicate, args }
}

/// That the formula isn't the case.
pub fn not(alloc: Global, f: Formula) -> Result<Formula, AllocError>
    ensures { IfOk result (λ r. formula_tree r ≡ tree.negation (formula_tree f)) }
{
    Ok(Formula::Not(Box::new(alloc, f)?))
}

/// The conjunction of two formulas.
pub fn all_of_two(alloc: Global, f: Formula, g: Formula) -> Result<Formula, AllocError>
    ensures { IfOk result (λ r. formula_tree r ≡ tree.all_of (tree.formula (formula_tree f) (tree.formula (formula_tree g) tree.no_formulas))) }
{
    Ok(Formula::And(vec![in alloc; f, g]?))
}

/// The conjunction of three formulas.
pub fn all_of_three(
    alloc: Global,
    f: Formula,
    g: Formula,
    h: Formula,
) -> Result<Formula, AllocError>
    ensures { IfOk result (λ r. formula_tree r ≡ tree.all_of (tree.formula (formula_tree f) (tree.formula (formula_tree g) (tree.formula (formula_tree h) tree.no_formulas)))) }
{
    Ok(Formula::And(vec![in alloc; f, g, h]?))
}

/// The disjunction of two formulas.
pub fn any_of_two(alloc: Global, f: Formula, g: Formula) -> Result<Formula, AllocError>
    ensures { IfOk result (λ r. formula_tree r ≡ tree.any_of (tree.formula (formula_tree f) (tree.formula (formula_tree g) tree.no_formulas))) }
{
    Ok(Formula::Or(vec![in alloc; f, g]?))
}

/// That the second formula is the case where the first is.
pub fn implies(alloc: Global, f: Formula, g: Formula) -> Result<Formula, AllocError>
    ensures { IfOk result (λ r. formula_tree r ≡ tree.implies (formula_tree f) (formula_tree g)) }
{
    Ok(Formula::Implies(Box::new(alloc, f)?, Box::new(alloc, g)?))
}

/// That the formula is the case for all values of one binder.
pub fn for_all(alloc: Global, sort: u32, scope: Formula) -> Result<Formula, AllocError>
    ensures { IfOk result (λ r. formula_tree r ≡ tree.for_all sort (formula_tree scope)) }
{
    Ok(Formula::ForAll {
        sort,
        scope: Box::new(alloc, scope)?,
    })
}

/// That the formula is the case for some value of one binder.
pub fn exists(alloc: Global, sort: u32, scope: Formula) -> Result<Formula, AllocError>
    ensures { IfOk result (λ r. formula_tree r ≡ tree.exists sort (formula_tree scope)) }
{
    Ok(Formula::Exists {
        sort,
        scope: Box::new(alloc, scope)?,
    })
}
