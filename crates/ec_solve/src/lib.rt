//! The search for the truths of a theory, with its log.
//!
//! `search` grounds a theory, makes its clause list, and finds one truth after another, each by a model of the list that is then blocked,
//! until none is left or a bound is reached. It answers the truths in rising order, and a log that anybody can check: each truth is that of
//! a minimal model, and where the search came to its end there are no others. `clauses_of` is the list alone, and
//! `list_of` that of a theory that is grounded already. It stands on `ec_ground` and `ec_encode` for the list, on
//! `ec_sat` for the search, and on `ec_log` for the log; the laws that carry its promise are those of `ec_cnf` and `ec_certificate`.
#![tactic(auto)]

mod listing;
mod progress;
mod searching;

pub use listing::{clauses_of, list_of};
pub use searching::{Bounds, Found, search};
