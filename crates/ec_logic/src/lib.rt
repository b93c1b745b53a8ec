//! The logic of the discrete event calculus: definitions alone, and their laws.
//!
//! What a domain, a value, a place, truth, an axiom, a theory, a minimal model, a narrative and a list
//! of narratives are. Every other crate speaks of its own trees and tables through a view to these. No
//! code stands here, nothing is read or searched, and the crate stands on the standard library alone.
#![tactic(auto)]
