//! Formulas with a term in place of a variable.
ghost use Rattle.std.specs.Prelude.{◌≡◌, suc, ◌≤◌, ◌<◌, ◌+◌, ◌^◌, max, IfOk};
ghost use Rattle.ec_logic.specs.Shift.{shifted_term};
ghost use Rattle.ec_logic.specs.Substitute.{substituted, substituted_each, substituted_term, substituted_terms, substituted_variable, PutsValue};
ghost use Rattle.ec_logic.specs.Reach.{reach, nesting, nesting_of};
ghost use Rattle.ec_theory.specs.View.{term_tree, term_trees, formula_tree, formula_trees};

use crate::formula::Formula;
use crate::shifting::shift_term;
use crate::term::Term;
use std::alloc::{AllocError, Global};

/// The formula with a term in place of the free variable `at`, which is bound no longer: the free variables
/// above it are lowered by one. The term reads its variables outside the formula's binders, so it is raised
/// under each of them.
#[tactic(auto, using(ec_logic::proofs::Substituting::substituted_puts_value, ec_logic::proofs::Shifting::shifted_term_by_none))]
pub fn substitute(
    alloc: Global,
    formula: &Formula,
    at: u32,
    term: &Term,
) -> Result<Formula, AllocError>
    requires place { at + nesting (formula_tree formula.now) < 2 ^ 32 }
    requires room { reach (term_tree term.now) + nesting (formula_tree formula.now) ≤ 2 ^ 32 }
    ensures tree { IfOk result (λ r. formula_tree r ≡ substituted at (term_tree term.now) (formula_tree formula.now)) }

    // Its truth is that of the formula with the term's value put in at the place.
    ensures truth { IfOk result (λ r. PutsValue at (term_tree term.now) (formula_tree formula.now) (formula_tree r)) }
{
    substitute_in_formula(alloc, formula, at, term, 0)
}

// The place is that under the binders passed, and the term is raised by their number where it is put.
#[cycle(substitute)]
fn substitute_in_formula(
    alloc: Global,
    formula: &Formula,
    at: u32,
    term: &Term,
    passed: u32,
) -> Result<Formula, AllocError>
    requires place { at + nesting (formula_tree formula.now) < 2 ^ 32 }
    requires within { passed ≤ at }
    requires room { reach (term_tree term.now) + (passed + nesting (formula_tree formula.now)) ≤ 2 ^ 32 }
    ensures { IfOk result (λ r. formula_tree r ≡ substituted at (shifted_term 0 passed (term_tree term.now)) (formula_tree formula.now)) }
{
    Ok(match formula {
        Formula::True => Formula::True,
        Formula::False => Formula::False,
        Formula::Atom { predicate, args } => Formula::Atom {
            predicate: *predicate,
            args: substitute_in_terms(alloc, args, at, term, passed)?,
        },
        Formula::Equal(a, b) => {
            let (a, b) = substitute_in_both_terms(alloc, a, b, at, term, passed)?;
            Formula::Equal(a, b)
        }
        Formula::Less(a, b) => {
            let (a, b) = substitute_in_both_terms(alloc, a, b, at, term, passed)?;
            Formula::Less(a, b)
        }
        Formula::Not(f) => Formula::Not(substitute_in_boxed(alloc, f, at, term, passed)?),
        Formula::And(fs) => Formula::And(substitute_in_each(alloc, fs, at, term, passed)?),
        Formula::Or(fs) => Formula::Or(substitute_in_each(alloc, fs, at, term, passed)?),
        Formula::Implies(f, g) => {
            let (f, g) = substitute_in_both(alloc, f, g, at, term, passed)?;
            Formula::Implies(f, g)
        }
        Formula::Iff(f, g) => {
            let (f, g) = substitute_in_both(alloc, f, g, at, term, passed)?;
            Formula::Iff(f, g)
        }
        Formula::ForAll { sort, scope } => Formula::ForAll {
            sort: *sort,
            scope: substitute_under(alloc, scope, at, term, passed)?,
        },
        Formula::Exists { sort, scope } => Formula::Exists {
            sort: *sort,
            scope: substitute_under(alloc, scope, at, term, passed)?,
        },
    })
}

#[cycle(substitute)]
fn substitute_in_boxed(
    alloc: Global,
    formula: &Formula,
    at: u32,
    term: &Term,
    passed: u32,
) -> Result<Box<Formula>, AllocError>
    requires place { at + nesting (formula_tree formula.now) < 2 ^ 32 }
    requires within { passed ≤ at }
    requires room { reach (term_tree term.now) + (passed + nesting (formula_tree formula.now)) ≤ 2 ^ 32 }
    ensures { IfOk result (λ r. formula_tree r.value ≡ substituted at (shifted_term 0 passed (term_tree term.now)) (formula_tree formula.now)) }
{
    Ok(Box::new(
        alloc,
        substitute_in_formula(alloc, formula, at, term, passed)?,
    )?)
}

#[cycle(substitute)]
fn substitute_in_both(
    alloc: Global,
    f: &Formula,
    g: &Formula,
    at: u32,
    term: &Term,
    passed: u32,
) -> Result<(Box<Formula>, Box<Formula>), AllocError>
    requires place { at + max (nesting (formula_tree f.now)) (nesting (formula_tree g.now)) < 2 ^ 32 }
    requires within { passed ≤ at }
    requires room { reach (term_tree term.now) + (passed + max (nesting (formula_tree f.now)) (nesting (formula_tree g.now))) ≤ 2 ^ 32 }
    ensures first { IfOk result (λ r. formula_tree r.0.value ≡ substituted at (shifted_term 0 passed (term_tree term.now)) (formula_tree f.now)) }
    ensures second { IfOk result (λ r. formula_tree r.1.value ≡ substituted at (shifted_term 0 passed (term_tree term.now)) (formula_tree g.now)) }
{
    Ok((
        substitute_in_boxed(alloc, f, at, term, passed)?,
        substitute_in_boxed(alloc, g, at, term, passed)?,
    ))
}

// In the scope of one more binder.
#[cycle(substitute)]
fn substitute_under(
    alloc: Global,
    scope: &Formula,
    at: u32,
    term: &Term,
    passed: u32,
) -> Result<Box<Formula>, AllocError>
    requires place { at + (nesting (formula_tree scope.now) + 1) < 2 ^ 32 }
    requires within { passed ≤ at }
    requires room { reach (term_tree term.now) + (passed + (nesting (formula_tree scope.now) + 1)) ≤ 2 ^ 32 }
    ensures { IfOk result (λ r. formula_tree r.value ≡ substituted (suc at) (shifted_term 0 1 (shifted_term 0 passed (term_tree term.now))) (formula_tree scope.now)) }
{
    substitute_in_boxed(alloc, scope, at + 1, term, passed + 1)
}

#[cycle(substitute)]
fn substitute_in_each(
    alloc: Global,
    formulas: &[Formula],
    at: u32,
    term: &Term,
    passed: u32,
) -> Result<Vec<Formula>, AllocError>
    requires place { at + nesting_of (formula_trees formulas.now) < 2 ^ 32 }
    requires within { passed ≤ at }
    requires room { reach (term_tree term.now) + (passed + nesting_of (formula_trees formulas.now)) ≤ 2 ^ 32 }
    ensures { IfOk result (λ r. formula_trees r.items ≡ substituted_each at (shifted_term 0 passed (term_tree term.now)) (formula_trees formulas.now)) }
{
    let mut each = Vec::with_capacity(alloc, formulas.len())?;
    for formula in formulas {
        each.push(substitute_in_formula(alloc, formula, at, term, passed)?)?;
    }
    Ok(each)
}

#[cycle(substitute_in_term)]
fn substitute_in_term(
    alloc: Global,
    inner: &Term,
    at: u32,
    term: &Term,
    passed: u32,
) -> Result<Term, AllocError>
    requires { reach (term_tree term.now) + passed ≤ 2 ^ 32 }
    ensures { IfOk result (λ r. term_tree r ≡ substituted_term at (shifted_term 0 passed (term_tree term.now)) (term_tree inner.now)) }
{
    Ok(match inner {
        Term::Variable(k) => substitute_for_variable(alloc, *k, at, term, passed)?,
        Term::Int(z) => Term::Int(*z),
        Term::Constant(c) => Term::Constant(*c),
        Term::Event { symbol, args } => Term::Event {
            symbol: *symbol,
            args: substitute_in_terms(alloc, args, at, term, passed)?,
        },
        Term::Fluent { symbol, args } => Term::Fluent {
            symbol: *symbol,
            args: substitute_in_terms(alloc, args, at, term, passed)?,
        },
        Term::Sum(a, b) => {
            let (a, b) = substitute_in_both_boxed_terms(alloc, a, b, at, term, passed)?;
            Term::Sum(a, b)
        }
        Term::Difference(a, b) => {
            let (a, b) = substitute_in_both_boxed_terms(alloc, a, b, at, term, passed)?;
            Term::Difference(a, b)
        }
        Term::Product(a, b) => {
            let (a, b) = substitute_in_both_boxed_terms(alloc, a, b, at, term, passed)?;
            Term::Product(a, b)
        }
    })
}

#[tactic(auto, using(ec_logic::proofs::Shifting::reach_can_shift))]
fn substitute_for_variable(
    alloc: Global,
    k: u32,
    at: u32,
    term: &Term,
    passed: u32,
) -> Result<Term, AllocError>
    requires { reach (term_tree term.now) + passed ≤ 2 ^ 32 }
    ensures { IfOk result (λ r. term_tree r ≡ substituted_variable at (shifted_term 0 passed (term_tree term.now)) k) }
{
    if k < at {
        return Ok(Term::Variable(k));
    }
    if k == at {
        return shift_term(alloc, term, 0, passed);
    }
    Ok(Term::Variable(k - 1))
}

#[cycle(substitute_in_term)]
fn substitute_in_boxed_term(
    alloc: Global,
    inner: &Term,
    at: u32,
    term: &Term,
    passed: u32,
) -> Result<Box<Term>, AllocError>
    requires { reach (term_tree term.now) + passed ≤ 2 ^ 32 }
    ensures { IfOk result (λ r. term_tree r.value ≡ substituted_term at (shifted_term 0 passed (term_tree term.now)) (term_tree inner.now)) }
{
    Ok(Box::new(alloc, substitute_in_term(alloc, inner, at, term, passed)?)?)
}

#[cycle(substitute_in_term)]
fn substitute_in_both_boxed_terms(
    alloc: Global,
    a: &Term,
    b: &Term,
    at: u32,
    term: &Term,
    passed: u32,
) -> Result<(Box<Term>, Box<Term>), AllocError>
    requires { reach (term_tree term.now) + passed ≤ 2 ^ 32 }
    ensures first { IfOk result (λ r. term_tree r.0.value ≡ substituted_term at (shifted_term 0 passed (term_tree term.now)) (term_tree a.now)) }
    ensures second { IfOk result (λ r. term_tree r.1.value ≡ substituted_term at (shifted_term 0 passed (term_tree term.now)) (term_tree b.now)) }
{
    Ok((
        substitute_in_boxed_term(alloc, a, at, term, passed)?,
        substitute_in_boxed_term(alloc, b, at, term, passed)?,
    ))
}

fn substitute_in_both_terms(
    alloc: Global,
    a: &Term,
    b: &Term,
    at: u32,
    term: &Term,
    passed: u32,
) -> Result<(Term, Term), AllocError>
    requires { reach (term_tree term.now) + passed ≤ 2 ^ 32 }
    ensures first { IfOk result (λ r. term_tree r.0 ≡ substituted_term at (shifted_term 0 passed (term_tree term.now)) (term_tree a.now)) }
    ensures second { IfOk result (λ r. term_tree r.1 ≡ substituted_term at (shifted_term 0 passed (term_tree term.now)) (term_tree b.now)) }
{
    Ok((
        substitute_in_term(alloc, a, at, term, passed)?,
        substitute_in_term(alloc, b, at, term, passed)?,
    ))
}

#[cycle(substitute_in_term)]
fn substitute_in_terms(
    alloc: Global,
    terms: &[Term],
    at: u32,
    term: &Term,
    passed: u32,
) -> Result<Vec<Term>, AllocError>
    requires { reach (term_tree term.now) + passed ≤ 2 ^ 32 }
    ensures { IfOk result (λ r. term_trees r.items ≡ substituted_terms at (shifted_term 0 passed (term_tree term.now)) (term_trees terms.now)) }
{
    let mut each = Vec::with_capacity(alloc, terms.len())?;
    for inner in terms {
        each.push(substitute_in_term(alloc, inner, at, term, passed)?)?;
    }
    Ok(each)
}
