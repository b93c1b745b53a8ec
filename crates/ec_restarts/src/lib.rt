//! When a search for truths starts anew: where the clauses that it derives have become long.
//!
//! It promises nothing, and a search needs nothing of it, which is right whatever is answered here. A test
//! and the benchmark show what it answers.
#![tactic(auto)]

pub mod restarts;
#[cfg(test)]
mod tests;
