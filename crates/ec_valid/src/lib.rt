//! A sentence without a fault is a valid one: laws alone, no code.
//!
//! Where the declarations of a book have no fault, its names and the numbers of its signature are tied
//! (proofs/Ties.antt, `faultless_ties` of proofs/Tying.antt). Under these ties a sentence whose walk meets no fault is well sorted, nests at most
//! sixteen binders, has no bound over the limit, and each of its places without a variable is in range
//! (proofs/Sentences.antt, `faultless_sentence`). The crate stands on `ec_walk` and `ec_declare` for faults
//! and on `ec_logic` for what a valid sentence is.
#![tactic(auto)]
