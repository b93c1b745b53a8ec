//! Formulas under more binders.
ghost use Rattle.std.specs.Prelude.{◌≡◌, suc, ◌<◌, ◌^◌, IfOk};
ghost use Rattle.ec_logic.specs.Tree.{variable};
ghost use Rattle.ec_logic.specs.Shift.{shifted, shifted_each, shifted_term, shifted_terms, shifted_variable, KeepsTruth, KeepsPlaces};
ghost use Rattle.ec_logic.specs.Reach.{CanShift, CanShiftEach, CanShiftTerm, CanShiftTerms};
ghost use Rattle.ec_theory.specs.View.{term_tree, term_trees, formula_tree, formula_trees};

use crate::formula::Formula;
use crate::term::Term;
use std::alloc::{AllocError, Global};

/// The formula as it reads under `by` more binders, which stand outside its free variables `0` to `from - 1`:
/// each free variable numbered `from` or more is raised by `by`.
#[tactic(auto, using(ec_logic::proofs::Shifting::shifted_keeps_truth, ec_logic::proofs::Shifting::shifted_keeps_places))]
pub fn shift(alloc: Global, formula: &Formula, from: u32, by: u32) -> Result<Formula, AllocError>
    requires { CanShift from by (formula_tree formula.now) }
    ensures tree { IfOk result (λ r. formula_tree r ≡ shifted from by (formula_tree formula.now)) }

    // With any values put in at the place, its truth is that of the formula.
    ensures truth { IfOk result (λ r. KeepsTruth from by (formula_tree formula.now) (formula_tree r)) }

    // The places that belong to binders further out still belong to them.
    ensures places { IfOk result (λ r. KeepsPlaces from by (formula_tree formula.now) (formula_tree r)) }
{
    shift_formula(alloc, formula, from, by)
}

#[cycle(shift_formula)]
fn shift_formula(
    alloc: Global,
    formula: &Formula,
    from: u32,
    by: u32,
) -> Result<Formula, AllocError>
    requires { CanShift from by (formula_tree formula.now) }
    ensures { IfOk result (λ r. formula_tree r ≡ shifted from by (formula_tree formula.now)) }
{
    Ok(match formula {
        Formula::True => Formula::True,
        Formula::False => Formula::False,
        Formula::Atom { predicate, args } => Formula::Atom {
            predicate: *predicate,
            args: shift_terms(alloc, args, from, by)?,
        },
        Formula::Equal(a, b) => {
            let (a, b) = shift_both_terms(alloc, a, b, from, by)?;
            Formula::Equal(a, b)
        }
        Formula::Less(a, b) => {
            let (a, b) = shift_both_terms(alloc, a, b, from, by)?;
            Formula::Less(a, b)
        }
        Formula::Not(f) => Formula::Not(shift_boxed(alloc, f, from, by)?),
        Formula::And(fs) => Formula::And(shift_each(alloc, fs, from, by)?),
        Formula::Or(fs) => Formula::Or(shift_each(alloc, fs, from, by)?),
        Formula::Implies(f, g) => {
            let (f, g) = shift_both(alloc, f, g, from, by)?;
            Formula::Implies(f, g)
        }
        Formula::Iff(f, g) => {
            let (f, g) = shift_both(alloc, f, g, from, by)?;
            Formula::Iff(f, g)
        }
        Formula::ForAll { sort, scope } => Formula::ForAll {
            sort: *sort,
            scope: shift_under(alloc, scope, from, by)?,
        },
        Formula::Exists { sort, scope } => Formula::Exists {
            sort: *sort,
            scope: shift_under(alloc, scope, from, by)?,
        },
    })
}

#[cycle(shift_formula)]
fn shift_boxed(
    alloc: Global,
    formula: &Formula,
    from: u32,
    by: u32,
) -> Result<Box<Formula>, AllocError>
    requires { CanShift from by (formula_tree formula.now) }
    ensures { IfOk result (λ r. formula_tree r.value ≡ shifted from by (formula_tree formula.now)) }
{
    Ok(Box::new(alloc, shift_formula(alloc, formula, from, by)?)?)
}

#[cycle(shift_formula)]
fn shift_both(
    alloc: Global,
    f: &Formula,
    g: &Formula,
    from: u32,
    by: u32,
) -> Result<(Box<Formula>, Box<Formula>), AllocError>
    requires first { CanShift from by (formula_tree f.now) }
    requires second { CanShift from by (formula_tree g.now) }
    ensures first { IfOk result (λ r. formula_tree r.0.value ≡ shifted from by (formula_tree f.now)) }
    ensures second { IfOk result (λ r. formula_tree r.1.value ≡ shifted from by (formula_tree g.now)) }
{
    Ok((
        shift_boxed(alloc, f, from, by)?,
        shift_boxed(alloc, g, from, by)?,
    ))
}

// In the scope of one more binder.
#[cycle(shift_formula)]
fn shift_under(
    alloc: Global,
    scope: &Formula,
    from: u32,
    by: u32,
) -> Result<Box<Formula>, AllocError>
    requires room { suc from < 2 ^ 32 }
    requires scope { CanShift (suc from) by (formula_tree scope.now) }
    ensures { IfOk result (λ r. formula_tree r.value ≡ shifted (suc from) by (formula_tree scope.now)) }
{
    shift_boxed(alloc, scope, from + 1, by)
}

#[cycle(shift_formula)]
fn shift_each(
    alloc: Global,
    formulas: &[Formula],
    from: u32,
    by: u32,
) -> Result<Vec<Formula>, AllocError>
    requires { CanShiftEach from by (formula_trees formulas.now) }
    ensures { IfOk result (λ r. formula_trees r.items ≡ shifted_each from by (formula_trees formulas.now)) }
{
    let mut each = Vec::with_capacity(alloc, formulas.len())?;
    for formula in formulas {
        each.push(shift_formula(alloc, formula, from, by)?)?;
    }
    Ok(each)
}

/// The term as it reads under `by` more binders outside its variables `0` to `from - 1`.
#[cycle(shift_term)]
pub fn shift_term(alloc: Global, term: &Term, from: u32, by: u32) -> Result<Term, AllocError>
    requires { CanShiftTerm from by (term_tree term.now) }
    ensures { IfOk result (λ r. term_tree r ≡ shifted_term from by (term_tree term.now)) }
{
    Ok(match term {
        Term::Variable(k) => Term::Variable(shift_variable(*k, from, by)),
        Term::Int(z) => Term::Int(*z),
        Term::Constant(c) => Term::Constant(*c),
        Term::Event { symbol, args } => Term::Event {
            symbol: *symbol,
            args: shift_terms(alloc, args, from, by)?,
        },
        Term::Fluent { symbol, args } => Term::Fluent {
            symbol: *symbol,
            args: shift_terms(alloc, args, from, by)?,
        },
        Term::Sum(a, b) => {
            let (a, b) = shift_both_boxed_terms(alloc, a, b, from, by)?;
            Term::Sum(a, b)
        }
        Term::Difference(a, b) => {
            let (a, b) = shift_both_boxed_terms(alloc, a, b, from, by)?;
            Term::Difference(a, b)
        }
        Term::Product(a, b) => {
            let (a, b) = shift_both_boxed_terms(alloc, a, b, from, by)?;
            Term::Product(a, b)
        }
    })
}

fn shift_variable(k: u32, from: u32, by: u32) -> u32
    requires { CanShiftTerm from by (variable k) }
    ensures { result ≡ shifted_variable from by k }
{
    if k < from { k } else { k + by }
}

#[cycle(shift_term)]
fn shift_boxed_term(alloc: Global, term: &Term, from: u32, by: u32) -> Result<Box<Term>, AllocError>
    requires { CanShiftTerm from by (term_tree term.now) }
    ensures { IfOk result (λ r. term_tree r.value ≡ shifted_term from by (term_tree term.now)) }
{
    Ok(Box::new(alloc, shift_term(alloc, term, from, by)?)?)
}

#[cycle(shift_term)]
fn shift_both_boxed_terms(
    alloc: Global,
    a: &Term,
    b: &Term,
    from: u32,
    by: u32,
) -> Result<(Box<Term>, Box<Term>), AllocError>
    requires first { CanShiftTerm from by (term_tree a.now) }
    requires second { CanShiftTerm from by (term_tree b.now) }
    ensures first { IfOk result (λ r. term_tree r.0.value ≡ shifted_term from by (term_tree a.now)) }
    ensures second { IfOk result (λ r. term_tree r.1.value ≡ shifted_term from by (term_tree b.now)) }
{
    Ok((
        shift_boxed_term(alloc, a, from, by)?,
        shift_boxed_term(alloc, b, from, by)?,
    ))
}

fn shift_both_terms(
    alloc: Global,
    a: &Term,
    b: &Term,
    from: u32,
    by: u32,
) -> Result<(Term, Term), AllocError>
    requires first { CanShiftTerm from by (term_tree a.now) }
    requires second { CanShiftTerm from by (term_tree b.now) }
    ensures first { IfOk result (λ r. term_tree r.0 ≡ shifted_term from by (term_tree a.now)) }
    ensures second { IfOk result (λ r. term_tree r.1 ≡ shifted_term from by (term_tree b.now)) }
{
    Ok((
        shift_term(alloc, a, from, by)?,
        shift_term(alloc, b, from, by)?,
    ))
}

#[cycle(shift_term)]
fn shift_terms(alloc: Global, terms: &[Term], from: u32, by: u32) -> Result<Vec<Term>, AllocError>
    requires { CanShiftTerms from by (term_trees terms.now) }
    ensures { IfOk result (λ r. term_trees r.items ≡ shifted_terms from by (term_trees terms.now)) }
{
    let mut each = Vec::with_capacity(alloc, terms.len())?;
    for term in terms {
        each.push(shift_term(alloc, term, from, by)?)?;
    }
    Ok(each)
}
