//! Names for trees, and the clause list of a grounded theory. Definitions and laws alone.
//!
//! Each And and each Or below the top of a tree is named by a variable, and clauses say that the name is true exactly where the tree is.
//! The clause list is a function of the trees, number for number. The law of this room: each truth of the atoms has exactly one
//! extension to the names that meets the naming clauses, and a truth of all variables meets the list exactly where it is that extension,
//! each sentence is true and each definition holds.
//! It stands on `ec_folding` for trees and on `ec_clause` for literals and clauses.
#![tactic(auto)]
