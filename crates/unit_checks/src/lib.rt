//! Settling beside a plain scan of all clauses, on the same random clauses and trails.
//!
//! Unit propagation has one end, in whatever order it goes: where `settle` answers Quiet the scan
//! does too, with the same values, and where it finds a false clause so does the scan.
#![tactic(auto)]

#[cfg(test)]
mod beside;
#[cfg(test)]
mod draw;
#[cfg(test)]
mod scan;
