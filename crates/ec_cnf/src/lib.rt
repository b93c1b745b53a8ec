//! The clause list of a theory, and what it says. Definitions and laws alone.
//!
//! The list is that of the theory's trees, number for number. Its law: the visible part of each truth that meets the list is the truth
//! of a minimal model, and the truth of each minimal model is the visible part of exactly one truth that meets the list.
//! It stands on `ec_grounding` for the trees of a theory, on `ec_naming` for the clauses of trees and on `ec_logic` for minimal models.
#![tactic(auto)]
