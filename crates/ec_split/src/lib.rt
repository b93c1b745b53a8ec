//! Puts the sentences of a book into the groups that its completion statements make.
//!
//! The effect group, of Initiates, Terminates and Releases, always stands first. A completion with a label
//! puts its predicate into that label's group, one without a label makes a group of the predicate alone. A
//! sentence belongs to the group of its label, where a completion names it, or else to the group that the
//! heads of its clause tree tell; all others remain. [`split`] answers the theory, or the first fault: a
//! completion of no predicate (18), of a predicate that is in another group (17), or a group's sentence that
//! isn't a clause tree with heads of the group and bodies free of it (16).
//!
//! What the answer is to be is said apart from the tables of the code by specs/Groups.antt,
//! specs/Form.antt and specs/Split.antt. The crate stands on `ec_theory` for sentences and theories, on
//! `ec_syntax` for refusals and on `ec_logic` for its words.
#![tactic(auto)]

mod fault;
mod form;
mod heads;
mod names;
mod plan;
mod shares;
mod splitting;

pub use fault::SplitFault;
pub use splitting::split;
