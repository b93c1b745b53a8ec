//! Grounded theories: what a theory says of its atoms, worked out as folded trees. Definitions and laws alone.
//!
//! Each sentence is folded into a tree of literals of atoms, and each atom of a group has the tree of the instances whose head it is.
//! The laws say that a folded formula has the formula's truth, that the tree of an atom of a group is true exactly where the group
//! supports the atom, and that a structure is a completed model of a valid theory exactly where its atoms' truths make the sentences'
//! trees true and give each defined atom the truth of its tree.
//! It stands on `ec_folding` for trees and on `ec_logic` for formulas and theories.
#![tactic(auto)]
