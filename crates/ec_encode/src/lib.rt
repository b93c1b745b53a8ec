//! The clause list of a grounded theory, in the numbering that everybody can check.
//!
//! `encode` writes the list that the definition of naming gives, number for number: names for the Ands and Ors, the sentences
//! asserted, the definitions given, each clause tidied. Each truth of the atoms has exactly one extension to the names that meets the
//! naming clauses, and a truth of all variables meets the list exactly where it is that extension and the theory is true.
//! It stands on `ec_prop` for grounded theories, on `ec_clause` for clauses and on `ec_naming` for the definitions and the law.
#![tactic(auto)]

mod count;
pub mod list;
mod listing;
mod names;
mod numbering;
mod tidy;

pub use list::{Cnf, encode};
