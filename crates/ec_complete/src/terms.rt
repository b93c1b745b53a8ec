//! Terms as they read outside of binders that they have no variable of.
ghost use Rattle.std.specs.Prelude.{◌≡◌, IfOk};
ghost use Rattle.ec_theory.specs.View.{term_tree, term_trees};
ghost use Rattle.ec_complete.specs.Completion.{lowered, lowered_terms};

use ec_theory::Term;
use std::alloc::{AllocError, Global};

/// A copy of a term in which each variable has so many binders fewer between itself and its own.
#[cycle(lower)]
pub(crate) fn lower(alloc: Global, term: &Term, by: u32) -> Result<Term, AllocError>
    ensures { IfOk result (λ r. term_tree r ≡ lowered by (term_tree term.now)) }
{
    Ok(match term {
        Term::Variable(k) => Term::Variable(k.saturating_sub(by)),
        Term::Int(z) => Term::Int(*z),
        Term::Constant(c) => Term::Constant(*c),
        Term::Event { symbol, args } => Term::Event {
            symbol: *symbol,
            args: lower_each(alloc, args, by)?,
        },
        Term::Fluent { symbol, args } => Term::Fluent {
            symbol: *symbol,
            args: lower_each(alloc, args, by)?,
        },
        Term::Sum(a, b) => Term::Sum(lower_boxed(alloc, a, by)?, lower_boxed(alloc, b, by)?),
        Term::Difference(a, b) => Term::Difference(
            lower_boxed(alloc, a, by)?,
            lower_boxed(alloc, b, by)?,
        ),
        Term::Product(a, b) => Term::Product(
            lower_boxed(alloc, a, by)?,
            lower_boxed(alloc, b, by)?,
        ),
    })
}

#[cycle(lower)]
fn lower_boxed(alloc: Global, term: &Term, by: u32) -> Result<Box<Term>, AllocError>
    ensures { IfOk result (λ r. term_tree r.value ≡ lowered by (term_tree term.now)) }
{
    Ok(Box::new(alloc, lower(alloc, term, by)?)?)
}

#[cycle(lower)]
fn lower_each(alloc: Global, terms: &[Term], by: u32) -> Result<Vec<Term>, AllocError>
    ensures { IfOk result (λ r. term_trees r.items ≡ lowered_terms by (term_trees terms.now)) }
{
    let mut each = Vec::with_capacity(alloc, terms.len())?;
    for term in terms {
        each.push(lower(alloc, term, by)?)?;
    }
    Ok(each)
}
