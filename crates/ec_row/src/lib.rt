//! Rows of truth values, packed in words.
//!
//! A [`Row`] is seen as its list of truth values, packed with the first place in the highest bit of its first
//! word. Only the making of a row takes memory. The crate stands on no other.
#![tactic(auto)]

mod bits;
mod row;
#[cfg(test)]
mod tests;

pub use row::Row;
