//! Conflict-driven search with clause learning, every step of which is noted and proved.
//!
//! A `Solver` looks for truths that satisfy all clauses of its list. At a conflict it learns the
//! clause of the first unique implication point, shortened by the reasons of its literals, and goes
//! back to its assertion level, or to level 0 where derived clauses have become long. It promises
//! that each clause it derives is a step by its hints, that one with a literal contains no clause
//! that stands before it, that a model satisfies all clauses, and that the search is exhausted
//! exactly where the empty clause was derived. What is decided next is free of all this.
//!
//! It stands on `ec_clause` (clauses, steps, notes), `ec_restarts`, `ec_trail` and `ec_unit`.
#![tactic(auto)]

pub mod answer;
mod heap;
mod known;
mod learn;
mod level;
mod order;
mod search;
pub mod solver;
