//! The free variables of a sentence.
ghost use Rattle.std.specs.Prelude.{◌≡◌, IfOk, OnOk};
ghost use Rattle.ec_syntax.specs.View.{term_of, terms_of, formula_of, formulas_of};
ghost use Rattle.ec_walk.specs.Faults.{opened};
ghost use Rattle.ec_walk.specs.Scopes.{words, met, met_in_term, met_in_terms, met_in, met_in_each};
ghost use Rattle.ec_walk.specs.Variables.{closed_variables};

use crate::scope::{LIMIT, contains, inside};
use ec_lex::word::Word;
use ec_syntax::tree::{Arg, Tree};
use std::alloc::{AllocError, Global};

/// The free variables of a sentence in the order of their first free use, the first sixteen of them.
/// Linear in the tree.
#[tactic(auto, using(crate::proofs::Meeting::closed_met))]
pub fn closed_variables(alloc: Global, tree: &Tree) -> Result<Vec<&Word>, AllocError>
    ensures { IfOk result (λ v. words v.items ≡ closed_variables (formula_of tree.now)) }
{
    let mut found = Vec::new(alloc);
    collect(&[], &mut found, tree)?;
    Ok(found)
}

fn meet<'a>(found: &mut Vec<&'a Word>, variable: &'a Word) -> Result<(), AllocError>
    ensures { OnOk result (words found.new.items ≡ met (words found.old.items) variable.now) }
{
    if contains(found, variable) || found.len() >= LIMIT {
        return Ok(());
    }
    Ok(found.push(variable)?)
}

#[cycle(collect_in_term)]
fn collect_in_term<'a>(
    scope: &[&'a Word],
    found: &mut Vec<&'a Word>,
    term: &'a Arg,
) -> Result<(), AllocError>
    ensures { OnOk result (words found.new.items ≡ met_in_term (words scope.now) (words found.old.items) (term_of term.now)) }
{
    match term {
        Arg::Name { name: _, args } => collect_in_terms(scope, found, args),
        Arg::Variable(name) => {
            if contains(scope, name) {
                return Ok(());
            }
            meet(found, name)
        }
        Arg::Number(_) => Ok(()),
        Arg::Sum(a, b) | Arg::Difference(a, b) | Arg::Product(a, b) => {
            collect_in_term(scope, found, a)?;
            collect_in_term(scope, found, b)
        }
        Arg::Negative(a) => collect_in_term(scope, found, a),
    }
}

#[cycle(collect_in_term)]
fn collect_in_terms<'a>(
    scope: &[&'a Word],
    found: &mut Vec<&'a Word>,
    terms: &'a [Arg],
) -> Result<(), AllocError>
    ensures { OnOk result (words found.new.items ≡ met_in_terms (words scope.now) (words found.old.items) (terms_of terms.now)) }
{
    for term in terms {
        collect_in_term(scope, found, term)?;
    }
    Ok(())
}

#[cycle(collect)]
fn collect<'a>(
    scope: &[&'a Word],
    found: &mut Vec<&'a Word>,
    tree: &'a Tree,
) -> Result<(), AllocError>
    ensures { OnOk result (words found.new.items ≡ met_in (words scope.now) (words found.old.items) (formula_of tree.now)) }
{
    match tree {
        Tree::Atom { name: _, args } => collect_in_terms(scope, found, args),
        Tree::Compare { op: _, left, right } => {
            collect_in_term(scope, found, left)?;
            collect_in_term(scope, found, right)
        }
        Tree::Not(a) => collect(scope, found, a),
        Tree::And(parts) | Tree::Or(parts) => collect_in_each(scope, found, parts),
        Tree::Implies(a, b) | Tree::Iff(a, b) => {
            collect(scope, found, a)?;
            collect(scope, found, b)
        }
        Tree::ForAll { names, scope: body } | Tree::Exists { names, scope: body } => collect_under(
            scope, found, names, body,
        ),
    }
}

#[cycle(collect)]
fn collect_in_each<'a>(
    scope: &[&'a Word],
    found: &mut Vec<&'a Word>,
    trees: &'a [Tree],
) -> Result<(), AllocError>
    ensures { OnOk result (words found.new.items ≡ met_in_each (words scope.now) (words found.old.items) (formulas_of trees.now)) }
{
    for tree in trees {
        collect(scope, found, tree)?;
    }
    Ok(())
}

// In the scope of more binders.
#[cycle(collect)]
fn collect_under<'a>(
    scope: &[&'a Word],
    found: &mut Vec<&'a Word>,
    binders: &'a [Word],
    body: &'a Tree,
) -> Result<(), AllocError>
    ensures { OnOk result (words found.new.items ≡ met_in (opened (words scope.now) binders.now) (words found.old.items) (formula_of body.now)) }
{
    let inner = inside(*found.allocator(), scope, binders)?;
    collect(&inner, found, body)
}
