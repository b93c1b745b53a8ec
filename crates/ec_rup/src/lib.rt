//! A checker of derivations: whether a clause follows from earlier clauses by unit propagation.
//!
//! A [`Checker`] keeps a list of clauses that grows by two kinds of clause: those that forbid a
//! truth, which are taken as they are, and steps, which are tested. It promises that it accepts
//! exactly the steps, names what is wrong first with anything else, and is as it was after each
//! refusal. From that follows that a checker which accepted the clause without a literal leaves
//! no truth of the clause list that it began with but those that were forbidden.
//!
//! It stands on `ec_clause`, whose words say what a step is.
#![tactic(auto)]

mod assumed;
mod checker;
mod fault;
mod law;
mod propagation;

pub use checker::Checker;
pub use fault::StepFault;
pub use law::closed_leaves_none_out;
