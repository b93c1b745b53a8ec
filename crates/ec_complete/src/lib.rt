//! The completion of a group: for each of its predicates a formula that says when the predicate is true.
//!
//! `complete` gives, for each predicate, a disjunction over the paths of the group's sentences that have it as head. In every structure the
//! formula is true of a tuple exactly where the sentences support it. The crate stands on `ec_path` for the paths of a sentence, on
//! `ec_building` for the parts of a formula, on `ec_theory` for groups and signatures, and on `ec_logic` for what is true.
#![tactic(auto)]

mod bounds;
mod completion;
mod parts;
mod path_formula;
mod ranges;
mod rows;
mod terms;

pub use completion::{Definition, complete};
