//! Grounding: a valid theory as trees of its atoms.
//!
//! `ground` gives the folded trees of the remaining sentences, of DEC5 to DEC12 and of the release axioms, the tree of each atom of a group,
//! and the atoms that have a variable: the very lists that `ec_grounding` defines, in their order. An effect atom whose tree is a constant
//! is that constant wherever it stands. A theory of too great a weight is refused before any work.
//! It stands on `ec_weight` for weights, on `ec_fold` and `ec_gather` for trees, and on `ec_axiom` for the axioms.
#![tactic(auto)]

mod constants;
mod grounding;
mod listing;
mod room;
mod sentences;

pub use grounding::{GroundFault, ground};
