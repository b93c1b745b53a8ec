//! The first fault of a formula.
ghost use Rattle.std.specs.Prelude.{◌≡◌, IfOk, length};
ghost use Rattle.ec_syntax.specs.View.{term_of, terms_of, formula_of, formulas_of};
ghost use Rattle.ec_syntax.specs.Written as written;
ghost use Rattle.ec_walk.specs.Faults as spec;
ghost use Rattle.ec_walk.specs.Faults.{◌before◌, opened};
ghost use Rattle.ec_walk.specs.Scopes.{words};

use crate::fault::{Code, Fault, of_word};
use crate::faults::{
    arguments_fault, binders_fault, comparison_fault, sorts_of_arguments, symbol_fault, term_fault,
};
use crate::scope::inside;
use ec_lex::word::Word;
use ec_names::Names;
use ec_syntax::tree::{Arg, Op, Tree};
use std::alloc::{AllocError, Global};

fn atom_fault(
    alloc: Global,
    names: &Names,
    scope: &[&Word],
    name: &Word,
    args: &[Arg],
) -> Result<Option<Fault>, AllocError>
    ensures { IfOk result (λ f. f ≡ spec.formula_fault names.now (words scope.now) (written.atom name.now (terms_of args.now))) }
{
    let Some(symbol) = names.symbol(name) else {
        return of_word(Code::UnknownName, name);
    };
    if let Some(fault) = symbol_fault(symbol, name, args.len(), true)? {
        return Ok(Some(fault));
    }
    arguments_fault(alloc, names, scope, sorts_of_arguments(symbol), args)
}

// A comparison with its sides.
fn compared_fault(
    alloc: Global,
    names: &Names,
    scope: &[&Word],
    op: Op,
    left: &Arg,
    right: &Arg,
) -> Result<Option<Fault>, AllocError>
    ensures { IfOk result (λ f. f ≡ spec.formula_fault names.now (words scope.now) (written.compare op (term_of left.now) (term_of right.now))) }
{
    if let Some(fault) = term_fault(alloc, names, scope, left)? {
        return Ok(Some(fault));
    }
    if let Some(fault) = term_fault(alloc, names, scope, right)? {
        return Ok(Some(fault));
    }
    comparison_fault(alloc, names, op, left, right)
}

/// The first fault of a formula in whose place these variables are bound.
#[cycle(formula_fault)]
pub(crate) fn formula_fault<'a>(
    alloc: Global,
    names: &Names,
    scope: &[&'a Word],
    tree: &'a Tree,
) -> Result<Option<Fault>, AllocError>
    ensures { IfOk result (λ f. f ≡ spec.formula_fault names.now (words scope.now) (formula_of tree.now)) }
{
    match tree {
        Tree::Atom { name, args } => atom_fault(alloc, names, scope, name, args),
        Tree::Compare { op, left, right } => {
            compared_fault(alloc, names, scope, *op, left, right)
        }
        Tree::Not(a) => formula_fault(alloc, names, scope, a),
        Tree::And(parts) | Tree::Or(parts) => formulas_fault(alloc, names, scope, parts),
        Tree::Implies(a, b) | Tree::Iff(a, b) => {
            if let Some(fault) = formula_fault(alloc, names, scope, a)? {
                return Ok(Some(fault));
            }
            formula_fault(alloc, names, scope, b)
        }
        Tree::ForAll {
            names: variables,
            scope: body,
        }
        | Tree::Exists {
            names: variables,
            scope: body,
        } => { quantified_fault(alloc, names, scope, variables, body) }
    }
}

#[cycle(formula_fault)]
fn formulas_fault<'a>(
    alloc: Global,
    names: &Names,
    scope: &[&'a Word],
    trees: &'a [Tree],
) -> Result<Option<Fault>, AllocError>
    ensures { IfOk result (λ f. f ≡ spec.formulas_fault names.now (words scope.now) (formulas_of trees.now)) }
{
    for tree in trees {
        if let Some(fault) = formula_fault(alloc, names, scope, tree)? {
            return Ok(Some(fault));
        }
    }
    Ok(None)
}

// The binders, then the scope.
#[cycle(formula_fault)]
#[tactic(auto, using(crate::proofs::ScopeLemmas::length_words))]
fn quantified_fault<'a>(
    alloc: Global,
    names: &Names,
    scope: &[&'a Word],
    variables: &'a [Word],
    body: &'a Tree,
) -> Result<Option<Fault>, AllocError>
    ensures { IfOk result (λ f. f ≡ (spec.binders_fault names.now (length (words scope.now)) variables.now before spec.formula_fault names.now (opened (words scope.now) variables.now) (formula_of body.now))) }
{
    if let Some(fault) = binders_fault(alloc, names, scope.len(), variables)? {
        return Ok(Some(fault));
    }
    let inner = inside(alloc, scope, variables)?;
    formula_fault(alloc, names, &inner, body)
}
