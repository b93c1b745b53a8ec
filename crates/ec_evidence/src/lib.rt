//! What a list and a log show of a theory.
//!
//! [`find`] reads a list text that a name holds, audits the truth of each of its narratives, and checks the log that another name holds, line
//! by line. It answers Yes exactly where the list is one of truths of minimal models and the log is accepted for it, whoever wrote them, and
//! else the first thing that is wrong. Where the answer is Yes and the list is ended as complete, the list has the truth of every minimal
//! model (specs/Found.antt): a closed log leaves no truth of the clause list out, and the clause list says what the minimal models are.
//!
//! Nothing is searched for and nothing is put. The crate stands on `ec_narr` for list texts, on `ec_audit` for truths, on `ec_ground` and
//! `ec_solve` for the clause list, on `ec_checking` for logs, and on `ec_edge` for files.
#![tactic(auto)]

mod finding;
mod list;
mod log;

pub use ec_audit::Part;
pub use finding::{Finding, Reason, find};
