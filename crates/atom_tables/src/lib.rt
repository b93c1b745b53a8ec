//! The numbers of atoms, the places of ground events and fluents, and the limit of the visible atoms, worked out
//! by hand.
//!
//! No code stands here. What `ec_atom` promises is exact by the definitions, so a row is a lemma about the definition
//! that a promise names, over the signatures of `theory_tables`.
#![tactic(auto)]
