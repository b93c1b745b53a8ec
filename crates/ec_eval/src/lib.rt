//! Truth of formulas in a structure, and what clause trees support in it, by the definitions of `ec_logic`
//! and nothing faster.
//!
//! `holds` evaluates a sentence lazily and takes no memory. `mark_supported` goes over a clause tree and
//! marks the heads of the instances of its paths whose bodies are true, each instance once. The crate
//! stands on `ec_theory` for trees and signatures, on `ec_atom` for structures' atoms and on `ec_values` for
//! the values of terms and the ranges of binders.
#![tactic(auto)]

mod marking;
mod scratch;
mod structure;
mod truth;

pub use marking::mark_supported;
pub use scratch::Scratch;
pub use structure::Structure;
pub use truth::holds;
