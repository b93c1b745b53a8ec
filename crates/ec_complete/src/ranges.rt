//! The places of a binder, as comparisons.
ghost use Rattle.std.specs.Prelude.{◌≡◌, ◌<◌, ◌+◌, ◌^◌, ◌++◌, map, slice_get, IfOk, OnOk};
ghost use Rattle.ec_logic.specs.Universe.{universe_of};
ghost use Rattle.ec_logic.specs.Place.{innermost, innermost_of, is_at, nearer};
ghost use Rattle.ec_logic.specs.Reach.{nesting, nesting_of};
ghost use Rattle.ec_theory.specs.View.{formula_tree, formula_trees, term_tree, term_trees};
ghost use Rattle.ec_complete.specs.View.{ranges_with};
ghost use Rattle.ec_complete.specs.Completion.{comparisons, lowered, ranges, ranges_of, term_ranges, terms_ranges};

use crate::bounds::bounds;
use crate::parts::less;
use crate::rows::{event_row, fluent_row, predicate_row};
use crate::terms::lower;
use ec_building::{int, not};
use ec_theory::{Formula, Signature, Term};
use std::alloc::{AllocError, Global};

/// That each place of a binder with this scope is in range, as it reads right under the binder. Linear in the scope, and in the terms of the
/// places.
pub(crate) fn ranges(
    alloc: Global,
    signature: &Signature,
    scope: &Formula,
) -> Result<Vec<Formula>, AllocError>
    requires { nesting (formula_tree scope.now) < 2 ^ 32 }
    ensures { IfOk result (λ found. map formula_tree found.items ≡ ranges (universe_of signature.now) 0 (formula_tree scope.now)) }
{
    let mut found = Vec::new(alloc);
    add_ranges(alloc, signature, 0, scope, &mut found)?;
    Ok(found)
}

// Those of the binder `depth` binders out.
#[cycle(ranges)]
fn add_ranges(
    alloc: Global,
    signature: &Signature,
    depth: u32,
    formula: &Formula,
    found: &mut Vec<Formula>,
) -> Result<(), AllocError>
    requires { depth + nesting (formula_tree formula.now) < 2 ^ 32 }
    ensures { OnOk result (map formula_tree found.new.items ≡ map formula_tree found.old.items ++ ranges (universe_of signature.now) depth (formula_tree formula.now)) }
{
    match formula {
        Formula::True | Formula::False => Ok(()),
        Formula::Atom { predicate, args } => {
            let sorts = predicate_row(signature, *predicate);
            add_ranges_of_args(alloc, signature, depth, sorts, args, found)
        }
        Formula::Equal(a, b) | Formula::Less(a, b) => add_ranges_of_two(
            alloc, signature, depth, a, b, found,
        ),
        Formula::Not(f) => add_ranges(alloc, signature, depth, f, found),
        Formula::And(fs) | Formula::Or(fs) => add_ranges_of_each(
            alloc, signature, depth, fs, found,
        ),
        Formula::Implies(f, g) | Formula::Iff(f, g) => {
            add_ranges(alloc, signature, depth, f, found)?;
            add_ranges(alloc, signature, depth, g, found)
        }
        Formula::ForAll { sort: _, scope } | Formula::Exists { sort: _, scope } => add_ranges(
            alloc,
            signature,
            depth + 1,
            scope,
            found,
        ),
    }
}

#[cycle(ranges)]
fn add_ranges_of_each(
    alloc: Global,
    signature: &Signature,
    depth: u32,
    formulas: &[Formula],
    found: &mut Vec<Formula>,
) -> Result<(), AllocError>
    requires { depth + nesting_of (formula_trees formulas.now) < 2 ^ 32 }
    ensures { OnOk result (map formula_tree found.new.items ≡ map formula_tree found.old.items ++ ranges_of (universe_of signature.now) depth (formula_trees formulas.now)) }
{
    for formula in formulas {
        add_ranges(alloc, signature, depth, formula, found)?;
    }
    Ok(())
}

fn add_ranges_of_two(
    alloc: Global,
    signature: &Signature,
    depth: u32,
    a: &Term,
    b: &Term,
    found: &mut Vec<Formula>,
) -> Result<(), AllocError>
    ensures { OnOk result (map formula_tree found.new.items ≡ map formula_tree found.old.items ++ (term_ranges (universe_of signature.now) depth (term_tree a.now) ++ term_ranges (universe_of signature.now) depth (term_tree b.now))) }
{
    add_ranges_of_term(alloc, signature, depth, a, found)?;
    add_ranges_of_term(alloc, signature, depth, b, found)
}

#[cycle(term_ranges)]
fn add_ranges_of_term(
    alloc: Global,
    signature: &Signature,
    depth: u32,
    term: &Term,
    found: &mut Vec<Formula>,
) -> Result<(), AllocError>
    ensures { OnOk result (map formula_tree found.new.items ≡ map formula_tree found.old.items ++ term_ranges (universe_of signature.now) depth (term_tree term.now)) }
{
    match term {
        Term::Variable(_) | Term::Int(_) | Term::Constant(_) => Ok(()),
        Term::Event { symbol, args } => {
            let sorts = event_row(signature, *symbol);
            add_ranges_of_args(alloc, signature, depth, sorts, args, found)
        }
        Term::Fluent { symbol, args } => {
            let sorts = fluent_row(signature, *symbol);
            add_ranges_of_args(alloc, signature, depth, sorts, args, found)
        }
        Term::Sum(a, b) | Term::Difference(a, b) | Term::Product(a, b) => {
            add_ranges_of_term(alloc, signature, depth, a, found)?;
            add_ranges_of_term(alloc, signature, depth, b, found)
        }
    }
}

#[cycle(term_ranges)]
fn add_ranges_of_args(
    alloc: Global,
    signature: &Signature,
    depth: u32,
    sorts: &[u32],
    args: &[Term],
    found: &mut Vec<Formula>,
) -> Result<(), AllocError>
    ensures { OnOk result (map formula_tree found.new.items ≡ map formula_tree found.old.items ++ terms_ranges (universe_of signature.now) depth sorts.now (term_trees args.now)) }
{
    for (place, arg) in args.iter().enumerate() {
        let sort = sort_at(sorts, place);
        add_place(alloc, signature, depth, sort, arg, found)?;
        add_ranges_of_term(alloc, signature, depth, arg, found)?;
    }
    Ok(())
}

fn sort_at(sorts: &[u32], place: usize) -> Option<u32>
    ensures { result ≡ slice_get sorts.now place }
{
    if place < sorts.len() {
        Some(sorts[place])
    } else {
        None
    }
}

// That an argument with this sort, if it is a place of the binder, is in range.
fn add_place(
    alloc: Global,
    signature: &Signature,
    depth: u32,
    sort: Option<u32>,
    arg: &Term,
    found: &mut Vec<Formula>,
) -> Result<(), AllocError>
    ensures { OnOk result (map formula_tree found.new.items ≡ map formula_tree found.old.items ++ ranges_with (universe_of signature.now) depth sort (term_tree arg.now)) }
{
    match sort {
        Some(sort) => {
            if is_place(depth, arg) {
                compare(alloc, bounds(signature, sort), depth, arg, found)
            } else {
                Ok(())
            }
        }
        None => Ok(()),
    }
}

fn is_place(depth: u32, term: &Term) -> bool
    ensures { result ≡ is_at depth (innermost (term_tree term.now)) }
{
    match innermost_variable(term) {
        Some(k) => k == depth,
        None => false,
    }
}

fn compare(
    alloc: Global,
    bounds: Option<(i64, i64)>,
    depth: u32,
    term: &Term,
    found: &mut Vec<Formula>,
) -> Result<(), AllocError>
    ensures { OnOk result (map formula_tree found.new.items ≡ map formula_tree found.old.items ++ comparisons bounds (lowered depth (term_tree term.now))) }
{
    match bounds {
        Some((least, end)) => {
            let below = less(lower(alloc, term, depth)?, int(least));
            found.push(not(alloc, below)?)?;
            found.push(less(lower(alloc, term, depth)?, int(end)))?;
            Ok(())
        }
        None => Ok(()),
    }
}

#[cycle(inner)]
fn innermost_variable(term: &Term) -> Option<u32>
    ensures { result ≡ innermost (term_tree term.now) }
{
    match term {
        Term::Variable(k) => Some(*k),
        Term::Int(_) | Term::Constant(_) => None,
        Term::Event { symbol: _, args } | Term::Fluent { symbol: _, args } => innermost_variable_of(
            args,
        ),
        Term::Sum(a, b) | Term::Difference(a, b) | Term::Product(a, b) => nearer_of(
            innermost_variable(a),
            innermost_variable(b),
        ),
    }
}

#[cycle(inner)]
fn innermost_variable_of(args: &[Term]) -> Option<u32>
    ensures { result ≡ innermost_of (term_trees args.now) }
{
    let mut innermost = None;
    for arg in args {
        innermost = nearer_of(innermost, innermost_variable(arg));
    }
    innermost
}

fn nearer_of(a: Option<u32>, b: Option<u32>) -> Option<u32>
    ensures { result ≡ nearer a b }
{
    match (a, b) {
        (Some(x), Some(y)) => Some(x.min(y)),
        (Some(x), None) => Some(x),
        (None, y) => y,
    }
}
