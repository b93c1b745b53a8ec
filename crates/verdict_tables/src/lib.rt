//! Structures with effects that no theory gives, which no narrative tells, and what is said of them, worked by hand.
//!
//! No code stands here. What `ec_minimal` promises of a verdict is said by its definitions, so a row is a lemma: this
//! verdict, and no other one (proofs/OneVerdict), is what may be said of the structure.
#![tactic(auto)]
