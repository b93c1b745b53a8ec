//! How large what a theory is grounded to can be. Laws alone.
//!
//! The trees of a theory have at most three times its weight of nodes, and one more for each visible atom.
//! It stands on `ec_grounding` for grounded theories and on `ec_weight` for weights.
#![tactic(auto)]
