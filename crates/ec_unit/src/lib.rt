//! Unit propagation: what a partial truth implies through the clauses.
//!
//! `settle` makes the one literal left of a unit clause true, again and again, until a clause is
//! false or none is false or unit. It promises that each literal added was implied by its reason
//! when it was added, and that its answer is exact.
//!
//! Each clause of two or more literals watches two of them. A clause is looked at when one of the
//! two became false: then the other is true, or the watch moves to a literal that is not false, or
//! the clause is unit or false. Work at a place of the trail leans on the true literals that it
//! found. Where one of those is gone the next time, the work is taken back to that place: so the
//! answer is right for every trail, and going back by levels costs nothing.
//!
//! It stands on `ec_clause` for what a clause is under a partial truth, and on `ec_trail`.
#![tactic(auto)]

mod chains;
mod seen;
mod table;
mod visit;
pub mod watch;
