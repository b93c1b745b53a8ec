//! The commands, over any files and any sink.
//!
//! Each command puts the text that is due for what the files hold, or the line of its refusal. What is due is said apart from the code, over
//! the theory or the refusal of `ec_accept` and the minimal models of `ec_logic`:
//!
//! - [`list`] puts the narratives of a file, one for each minimal model of what it says (specs/List.antt).
//! - [`solve`] finds them by a search, up to bounds, and writes a log by which anybody can check what it found (specs/Solve.antt).
//! - [`check`] puts whether a list, whoever wrote it, is one of a file's narratives, and whether a log shows that it ends as it says; or what
//!   is wrong first with the list or the log (specs/Check.antt, and specs/PartTexts.antt for the names of a theory's parts).
//! - [`show`] puts how large the file's theory is (specs/Show.antt).
//!
//! The crate stands on `ec_accept` for the theory of a file, on `ec_models` and `ec_solve` for the truths of its minimal models, on
//! `ec_evidence` for what a list and a log show, on `ec_narr` for the text of a narrative, on `ec_log` for the log, on `ec_weight` and
//! `ec_solve` for what `show` counts, and on `ec_edge` for files and sinks.
#![tactic(auto)]

mod checking;
mod listing;
mod narratives;
mod reasons;
mod refusals;
mod showing;
mod solving;

pub use checking::{CheckEnd, check};
pub use ec_evidence::{Part, Reason};
pub use ec_solve::Bounds;
pub use listing::{ListEnd, list};
pub use refusals::refuse;
pub use showing::{Counts, ShowEnd, push_count, show};
pub use solving::{SolveEnd, solve};
