//! The trail of a search: the literals that it made true, in order.
//!
//! A trail keeps of each literal its decision level and its reason, the clause that implied it,
//! and answers for each variable its value, its level and its reason in constant time. All memory
//! is taken when a trail is made. A literal stands on it at most once, and levels rise along it.
//!
//! It stands on `ec_clause`, for literals and partial truths.
#![tactic(auto)]

pub mod trail;
