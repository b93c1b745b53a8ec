//! Terms and formulas built part by part.
//!
//! Each call gives exactly the tree that its name says, of the trees of its parts, which it takes over. It
//! takes room for the new node alone. A variable is the number of binders between itself and its own. The
//! crate stands on `ec_theory` for the types and on `ec_logic` for their trees.
#![tactic(auto)]

mod formulas;
mod terms;

pub use formulas::{all_of_three, all_of_two, any_of_two, atom, exists, for_all, implies, not};
pub use terms::{constant, event, fluent, int, one_term, sum, three_terms, two_terms, variable};
