//! What the sentences of a group support: tuples of the domains alone. Laws alone.
//!
//! A head of a valid sentence is a tuple of its predicate's domains under all values over which the binders above it range
//! (proofs/SupportedTuples.antt, `supported_tuple`), and so the groups of a valid theory support tuples of the domains alone
//! (proofs/GroupTuples.antt, `groups_support_tuples`). It stands on `ec_logic`.
#![tactic(auto)]
