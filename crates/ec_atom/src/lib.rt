//! The ground atoms of a theory and their numbers.
//!
//! Atoms are numbered from 0 without a gap: those of HoldsAt, ReleasedAt, Happens and the declared
//! predicates, which are visible, then those of Initiates, Terminates and Releases; within a predicate by
//! its arguments, the first slowest. Ground events and fluents are numbered in the same way, by symbol and
//! then by arguments, which gives their places in their domains. [`Atoms`] goes both ways, with a step for
//! each argument, by strides that it makes once. It is seen as the signature whose atoms it numbers. The
//! crate stands on `ec_logic` for its words and on `ec_theory` for signatures and values.
#![tactic(auto)]

mod applications;
mod atoms;
mod blocks;
mod fault;
mod ground;
mod kinds;
mod making;
mod order;
mod symbols;
mod table;
mod tuples;

pub use atoms::Atoms;
pub use fault::AtomFault;
pub use ground::{GroundAtom, GroundTerm};
