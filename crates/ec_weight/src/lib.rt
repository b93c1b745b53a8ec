//! The weight of a theory, which bounds the work of grounding it.
//!
//! The weight follows from the trees and from the sizes of the sorts alone: no value of a sort is counted out.
//! It is exactly that of the definitions in specs/Weight.antt up to 2^62, where it stops; no theory is asked to
//! be valid for it. The crate stands on `ec_axiom` for the axioms, which have their part in the weight, and on
//! `ec_theory` for theories and the sizes of sorts.
#![tactic(auto)]

mod clause;
mod formula;
mod stopping;
mod theory;

pub use theory::weight_of;
