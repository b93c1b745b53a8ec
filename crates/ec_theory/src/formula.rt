//! Formulas.

use crate::term::Term;

/// A formula of many-sorted first-order logic. Predicates and sorts are numbers.
#[derive(Drop)]
pub enum Formula {
    True,
    False,
    /// A predicate of its arguments.
    Atom { predicate: u32, args: Vec<Term> },
    /// The two terms have the same value.
    Equal(Term, Term),
    /// The first term's value is below the second's.
    Less(Term, Term),
    Not(Box<Formula>),
    And(Vec<Formula>),
    Or(Vec<Formula>),
    Implies(Box<Formula>, Box<Formula>),
    /// Either both hold or neither.
    Iff(Box<Formula>, Box<Formula>),
    /// One binder, over the values of its sort for which its places are in range.
    ForAll { sort: u32, scope: Box<Formula> },
    /// One binder, over the values of its sort for which its places are in range.
    Exists { sort: u32, scope: Box<Formula> },
}
