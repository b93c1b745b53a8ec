//! Whether the log of a search is accepted, or which of its lines is the first at fault.
//!
//! `check_log` reads a log line by line and judges each line by those before it, for a clause
//! list, for the truths that a list told, and for the ending that it told. It answers that the log
//! is accepted exactly where it is an accepted log as `ec_certificate` defines it, and the line at
//! fault exactly where it is not. So a log that is closed and accepted shows that no truth of the
//! clause list was left out, whoever wrote the log.
//!
//! It holds the clauses, one line of the log, and a table of the truths that are still to be
//! blocked. It stands on `ec_certificate` for what is accepted, on `ec_log` for the lines, on
//! `ec_rup` for the steps, on `ec_row` for the truths and on `ec_edge` for the files.
#![tactic(auto)]

mod check;
mod end;
mod left;
mod truth;
mod walk;

pub use check::check_log;
pub use end::LogEnd;
