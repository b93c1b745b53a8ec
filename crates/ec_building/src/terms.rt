//! Terms and lists of terms.
ghost use Rattle.std.specs.Prelude.{◌≡◌, IfOk};
ghost use Rattle.ec_logic.specs.Tree as tree;
ghost use Rattle.ec_theory.specs.View.{term_tree, term_trees};

use ec_theory::Term;
use std::alloc::{AllocError, Global};

/// The variable with so many binders between itself and its own.
pub fn variable(number: u32) -> Term
    ensures { term_tree result ≡ tree.variable number }
{
    Term::Variable(number)
}

/// A whole number.
pub fn int(number: i64) -> Term
    ensures { term_tree result ≡ tree.int number }
{
    Term::Int(number)
}

/// The constant of this number.
pub fn constant(number: u32) -> Term
    ensures { term_tree result ≡ tree.constant number }
{
    Term::Constant(number)
}

/// An event of its arguments.
pub fn event(symbol: u32, args: Vec<Term>) -> Term
    ensures { term_tree result ≡ tree.event symbol (term_trees args.items) }
{
    Term::Event { symbol, args }
}

/// A fluent of its arguments.
pub fn fluent(symbol: u32, args: Vec<Term>) -> Term
    ensures { term_tree result ≡ tree.fluent symbol (term_trees args.items) }
{
    Term::Fluent { symbol, args }
}

/// The sum of two terms.
pub fn sum(alloc: Global, a: Term, b: Term) -> Result<Term, AllocError>
    ensures { IfOk result (λ t. term_tree t ≡ tree.sum (term_tree a) (term_tree b)) }
{
    Ok(Term::Sum(Box::new(alloc, a)?, Box::new(alloc, b)?))
}

/// One term as arguments.
pub fn one_term(alloc: Global, a: Term) -> Result<Vec<Term>, AllocError>
    ensures { IfOk result (λ ts. term_trees ts.items ≡ tree.term (term_tree a) tree.no_terms) }
{
    Ok(vec![in alloc; a]?)
}

/// Two terms as arguments.
pub fn two_terms(alloc: Global, a: Term, b: Term) -> Result<Vec<Term>, AllocError>
    ensures { IfOk result (λ ts. term_trees ts.items ≡ tree.term (term_tree a) (tree.term (term_tree b) tree.no_terms)) }
{
    Ok(vec![in alloc; a, b]?)
}

/// Three terms as arguments.
pub fn three_terms(alloc: Global, a: Term, b: Term, c: Term) -> Result<Vec<Term>, AllocError>
    ensures { IfOk result (λ ts. term_trees ts.items ≡ tree.term (term_tree a) (tree.term (term_tree b) (tree.term (term_tree c) tree.no_terms))) }
{
    Ok(vec![in alloc; a, b, c]?)
}
