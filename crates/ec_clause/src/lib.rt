//! Literals, clauses and partial truths, and what it means that a clause follows from others.
//!
//! The crate says what a clause is under a partial truth (satisfied, false, unit), and when a
//! clause is a step: its hints, one after the other, lead from its negation to a clause that is
//! false. It promises that a step is true wherever the clauses that its hints name are true.
//! Those who search, those who write a log and those who check one share these words.
//!
//! It stands on std alone.
#![tactic(auto)]

pub mod assign;
pub mod clauses;
pub mod ending;
pub mod lit;
pub mod look;
pub mod notes;
pub mod step;
