//! A valid input of any size, made from a number.
//!
//! The sample of n steps says that the steps are done in order, one at a time, over n + 2 times: it has n + 1 narratives, one for each
//! time that may stay idle. It stands on `ec_edge` for numbers in a text.
#![tactic(auto)]

mod text;

pub use text::sample;
