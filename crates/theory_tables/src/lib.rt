//! Signatures that are written out, and rows of what is defined over them, worked out by hand.
//!
//! No code stands here. What `ec_theory` and `ec_axiom` promise is exact by the definitions, so a row is a lemma about the
//! definition that a promise names: proofs/Signatures for sorts, sizes, domains and names, proofs/Trees for shifted and
//! substituted formulas, proofs/Axioms for the axioms as text. The signatures of specs/Samples are shown to be ones that a
//! file can declare, by a test that other written signatures may take as well (proofs/SignatureTest).
#![tactic(auto)]
