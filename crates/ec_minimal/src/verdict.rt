//! What is said of a structure.

/// A part of a theory that is judged by itself, by its place in its list, from 0.
#[derive(Clone, Copy, PartialEq, Eq, Debug)]
pub enum Part {
    /// A remaining sentence.
    Remaining(u32),
    /// An axiom of DEC5 to DEC12.
    Axiom(u32),
    /// A release axiom.
    Release(u32),
    /// A group.
    Group(u32),
}

/// What is said of a structure.
#[derive(Clone, Copy, PartialEq, Eq, Debug)]
pub enum Verdict {
    /// It is a minimal model.
    Minimal,
    /// This is its first untrue part.
    Untrue(Part),
}
