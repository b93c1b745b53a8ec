//! Folded trees: what a formula is once its terms, quantifiers and known atoms are worked out. Definitions and laws alone.
//!
//! A tree is a constant, a literal of an atom, or an And or an Or of trees. `conj` and `disj` join trees into one.
//! The laws say that a join is true where all its parts are, or where one is, and that it has constants only at its top where its parts have.
//! It stands on nothing but std.
#![tactic(auto)]
