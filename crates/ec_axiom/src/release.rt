//! The release axioms of a signature.
ghost use Rattle.std.specs.Prelude.{◌≡◌, ◌<◌, ◌+◌, ◌≤◌, ◌^◌, length, map, option_map, slice_get, Some, IfOk};
ghost use Rattle.ec_logic.specs.Tree.{variable as variable_tree, int as int_tree, fluent as fluent_tree, term, no_terms, atom as atom_tree, negation, for_all as for_all_tree};
ghost use Rattle.ec_logic.specs.Signature.{time_sort, released_at};
ghost use Rattle.ec_logic.specs.Axiom.{variables_from, for_each, first_time, release_axiom, release_axioms};
ghost use Rattle.ec_theory.specs.View.{formula_tree, term_tree, term_trees};
ghost use Rattle.ec_axiom.specs.Optional.{trees_of};

use crate::parts::{RELEASED_AT, TIME_SORT};
use ec_building::{atom, fluent, for_all, int, not, two_terms, variable};
use ec_theory::{Formula, Signature, Term};
use std::alloc::{AllocError, Global};

/// The release axioms of the fluents, in the order of their declaration: a noninertial fluent is released at
/// all times, and an inertial one isn't at the least time, unless manual release is on. Linear in the fluents
/// and their arguments.
pub fn release_axioms(alloc: Global, signature: &Signature) -> Result<Vec<Formula>, AllocError>
    ensures { IfOk result (λ formulas. map formula_tree formulas.items ≡ release_axioms signature.now) }
{
    let mut formulas = Vec::new(alloc);
    for number in 0..signature.fluents() {
        if let Some(formula) = release_axiom(alloc, signature, number)? {
            formulas.push(formula)?;
        }
    }
    Ok(formulas)
}

// The axiom of one fluent, if it has one.
#[tactic(auto, using(crate::proofs::ReleaseLemmas::axiom_always, crate::proofs::ReleaseLemmas::axiom_open, crate::proofs::ReleaseLemmas::axiom_first))]
fn release_axiom(
    alloc: Global,
    signature: &Signature,
    number: u32,
) -> Result<Option<Formula>, AllocError>
    requires { number < length signature.now.fluents }
    ensures { IfOk result (λ found. option_map (λ row. release_axiom signature.now number row row.noninertial signature.now.manual_release) (slice_get signature.now.fluents number) ≡ Some (trees_of found)) }
{
    let sorts = signature.fluent_sorts(number);
    if signature.noninertial(number) {
        return Ok(Some(always_released(alloc, number, sorts)?));
    }
    if signature.manual_release() {
        return Ok(None);
    }
    let first = first_time(signature);
    Ok(Some(not_released_first(alloc, number, sorts, first)?))
}

fn always_released(alloc: Global, number: u32, sorts: &[u32]) -> Result<Formula, AllocError>
    requires { length sorts.now < 2 ^ 31 }
    ensures { IfOk result (λ f. formula_tree f ≡ for_each sorts.now (for_all_tree time_sort (atom_tree released_at (term (fluent_tree number (variables_from 1 (length sorts.now))) (term (variable_tree 0) no_terms))))) }
{
    let args = variables_from(alloc, 1, sorts.len() as u32)?;
    let released = released(alloc, fluent(number, args), variable(0))?;
    let always = for_all(alloc, TIME_SORT, released)?;
    for_each(alloc, sorts, always)
}

fn not_released_first(
    alloc: Global,
    number: u32,
    sorts: &[u32],
    first: i64,
) -> Result<Formula, AllocError>
    requires { length sorts.now < 2 ^ 31 }
    ensures { IfOk result (λ f. formula_tree f ≡ for_each sorts.now (negation (atom_tree released_at (term (fluent_tree number (variables_from 0 (length sorts.now))) (term (int_tree first) no_terms))))) }
{
    let args = variables_from(alloc, 0, sorts.len() as u32)?;
    let released = released(alloc, fluent(number, args), int(first))?;
    let unreleased = not(alloc, released)?;
    for_each(alloc, sorts, unreleased)
}

fn released(alloc: Global, fluent: Term, time: Term) -> Result<Formula, AllocError>
    ensures { IfOk result (λ f. formula_tree f ≡ atom_tree released_at (term (term_tree fluent) (term (term_tree time) no_terms))) }
{
    let args = two_terms(alloc, fluent, time)?;
    Ok(atom(RELEASED_AT, args))
}

fn first_time(signature: &Signature) -> i64
    ensures { result ≡ first_time signature.now }
{
    match signature.range(signature.time_sort()) {
        Some((least, _)) => least,
        None => 0,
    }
}

// The variables of so many binders, the outermost first.
#[tactic(auto, using(crate::proofs::ReleaseLemmas::variables_none, crate::proofs::ReleaseLemmas::variables_more, crate::proofs::ReleaseLemmas::variables_all))]
fn variables_from(alloc: Global, innermost: u32, count: u32) -> Result<Vec<Term>, AllocError>
    requires { innermost + count ≤ 2 ^ 32 }
    ensures { IfOk result (λ args. term_trees args.items ≡ variables_from innermost count) }
{
    let mut args = Vec::with_capacity(alloc, count as usize)?;
    for passed in 0..count {
        args.push(variable(innermost + (count - 1 - passed)))?;
    }
    Ok(args)
}

// A binder for each sort, the first outermost.
#[tactic(auto, using(crate::proofs::ReleaseLemmas::binders_none, crate::proofs::ReleaseLemmas::binders_more, crate::proofs::ReleaseLemmas::binders_all))]
fn for_each(alloc: Global, sorts: &[u32], scope: Formula) -> Result<Formula, AllocError>
    ensures { IfOk result (λ f. formula_tree f ≡ for_each sorts.now (formula_tree scope)) }
{
    let mut formula = scope;
    for passed in 0..sorts.len() {
        formula = for_all(alloc, sorts[sorts.len() - 1 - passed], formula)?;
    }
    Ok(formula)
}
