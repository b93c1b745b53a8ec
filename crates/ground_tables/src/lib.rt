//! The clause lists of whole files, number for number, written out by hand. It holds tests alone.
#![tactic(auto)]

#[cfg(test)]
mod clause_lists;
#[cfg(test)]
mod spelling;
