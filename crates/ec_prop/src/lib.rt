//! Folded trees as values: made by `conj` and `disj`, read by `true_in`, and handed on with definitions of atoms.
//!
//! Each tree that is made is, part for part, the one that the definition of joining gives; it is true where all its parts are, or where one is.
//! The types of a grounded theory stand here too, so that what makes clauses of it needs nothing that made it.
//! It stands on `ec_folding`, which defines trees, truth and joining.
#![tactic(auto)]

pub mod ground;
pub mod join;
pub mod tree;

pub use ground::{Defined, Grounded};
pub use join::{Joining, conj, disj};
pub use tree::{Prop, constant, true_in};
