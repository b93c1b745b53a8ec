//! Values.

/// A value of a sort: a whole number itself, a constant's number, or the place of a ground event or fluent in its domain.
#[derive(Clone, Copy, Debug, PartialEq, Eq)]
pub struct Value(pub i64);
