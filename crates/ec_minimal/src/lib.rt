//! Whether a structure is a minimal model of a theory, what a group's sentences support in it, and the effects
//! filled from the rest.
//!
//! A group is minimal where its sentences are true and no structure below makes them true: equal outside
//! the group's predicates, each extent included, one smaller. [`is_group_minimal`] answers that by going over
//! each sentence once, marking the atoms that it supports ([`supported_atoms`]), and comparing the marks with
//! the group's atoms: in a group of the clause form the two conditions are one, as `ec_logic` proves.
//! [`fill_group`] takes the marks as the group's atoms instead, and [`least_effects`] does that in a theory's
//! first group, which is that of Initiates, Terminates and Releases.
//!
//! A minimal model is a structure in which the remaining sentences, DEC5 to DEC12 and the release axioms are
//! true and each group is minimal. [`Judge::verdict`] says that a structure is one, or names the first part
//! that is untrue in it. A [`Judge`] is made once for a signature and serves all its structures;
//! [`is_minimal`] judges a single one.
//!
//! That no support is lost between tuples and atoms rests on this: a valid sentence supports tuples of its
//! predicates' domains alone (proofs/SupportedTuples.antt). No instance is kept and no structure per atom is
//! made. The crate stands on `ec_eval` for truth and for the walk over a clause tree, on `ec_axiom` for the
//! axioms and on `ec_atom` for the numbers of atoms.
#![tactic(auto)]

mod effects;
mod fill;
mod group;
mod judge;
mod supported;
mod untrue;
mod verdict;

pub use effects::least_effects;
pub use fill::fill_group;
pub use group::is_group_minimal;
pub use judge::{Judge, is_minimal};
pub use supported::supported_atoms;
pub use verdict::{Part, Verdict};
