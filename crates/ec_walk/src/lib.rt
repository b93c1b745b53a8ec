//! The walk over a sentence: its first fault, or its formula.
//!
//! A sentence is walked over its tree, its parts in the order written. The first name, variable, argument,
//! operand or comparison that doesn't fit the declarations refuses it. A sentence without a fault is
//! translated: names and variables become numbers, and its free variables are closed by for all. What a
//! first fault is stands in `specs/Faults.antt`, the translation in `specs/Trees.antt`, both over what the
//! declarations say (`Names` of `ec_names`).
#![tactic(auto)]

mod fault;
mod faults;
mod formula_faults;
mod kinds;
mod measure;
mod scope;
mod sentence;
mod trees;
mod variables;

pub use fault::{Code, Fault};
pub use sentence::{Walked, walk};
