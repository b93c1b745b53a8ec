//! Terms.

/// A term of a formula. Symbols, constants and variables are numbers.
#[derive(Drop)]
pub enum Term {
    /// The variable with so many binders between itself and its own.
    Variable(u32),
    /// A whole number.
    Int(i64),
    /// The constant of this number.
    Constant(u32),
    /// An event with its arguments.
    Event { symbol: u32, args: Vec<Term> },
    /// A fluent with its arguments.
    Fluent { symbol: u32, args: Vec<Term> },
    /// The sum of two terms.
    Sum(Box<Term>, Box<Term>),
    /// The first term less the second.
    Difference(Box<Term>, Box<Term>),
    /// The product of two terms.
    Product(Box<Term>, Box<Term>),
}
