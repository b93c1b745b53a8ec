//! Weights of small theories, worked out by hand.
//!
//! No code stands here. What `ec_weight` promises is exact by the definition, so a row is a lemma about the definition,
//! over the signatures of `theory_tables`.
#![tactic(auto)]
