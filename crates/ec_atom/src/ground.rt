//! Symbols applied to values.

use ec_theory::Value;

/// A predicate and the values of its arguments.
#[derive(Drop)]
pub struct GroundAtom {
    pub predicate: u32,
    pub args: Vec<Value>,
}

/// An event or a fluent, by the number of its symbol, and the values of its arguments.
#[derive(Drop)]
pub struct GroundTerm {
    pub symbol: u32,
    pub args: Vec<Value>,
}
