//! A grounded theory: its sentences and definitions as trees.

use crate::tree::Prop;

/// An atom and the tree that it stands for.
#[derive(Debug, PartialEq, Eq, Drop)]
pub struct Defined {
    pub atom: u64,
    pub scope: Prop,
}

/// What a theory says of its atoms: each sentence is true, and each defined atom has the truth of its scope.
#[derive(Debug, PartialEq, Eq, Drop)]
pub struct Grounded {
    pub sentences: Vec<Prop>,
    pub definitions: Vec<Defined>,
    /// The atoms that have a variable, in order: the first has variable 1.
    pub variables: Vec<u64>,
}
