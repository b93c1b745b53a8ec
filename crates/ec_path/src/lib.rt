//! The paths of a clause tree: each head, with the binders and bodies above it.
//!
//! `paths` gives them in reading order, over borrowed parts of the tree. It stands on `ec_logic` for the definition and on `ec_theory` for
//! formulas.
#![tactic(auto)]

mod path;

pub use path::{Path, Step, paths};
