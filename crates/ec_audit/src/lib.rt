//! Whether a truth of the visible atoms is that of a minimal model, and which part of the theory is untrue in it.
//!
//! An [`Audit`] works out the truth of each other atom from its tree, and looks whether the trees of all sentences are true and each visible
//! atom with a tree has its truth: [`Audit::passes`] answers exactly where there is such a minimal model. Nothing is searched, and no
//! sentence is read. [`untrue_part`] fills the effects from the rest, and judges the structure by the definition of a minimal model, so that
//! it can name the first part of the theory that is untrue. [`first_untrue`] audits a list of truths by the first, and asks the second of
//! the first truth that fails alone.
//!
//! It stands on `ec_prop` for trees and their truth and on `ec_minimal` for filling and judging; the laws that carry its promise are those of
//! `ec_grounding`, which says that the models of the trees are the completed models, and of `ec_logic`, which says that these are the
//! minimal ones.
#![tactic(auto)]

mod audit;
mod first;
mod part;
mod trees;

pub use audit::Audit;
pub use ec_minimal::Part;
pub use first::{Failing, first_untrue};
pub use part::untrue_part;
