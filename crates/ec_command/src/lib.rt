//! The command line, over any files and any sink: the words, the statuses, and the top call.
//!
//! [`read_words`] reads the job from the words: `list FILE`, `solve FILE LOG` with its options,
//! `check FILE OUT LOG`, `show FILE`, or `sample N`. [`run`] does it, and answers a status. Its contract is
//! the product's promise: what is put for each status, over what the files hold, what the log of a `solve`
//! holds then, that a `check` says Complete only of a list that is exactly the file's narratives, and
//! the cause of each fault. [`sample_run`] makes a valid input from a number, solves it and checks what was
//! found. The crate stands on `ec_engine` for the commands, and on `ec_sample` for the text of a sample.
#![tactic(auto)]

mod call;
mod ends;
mod last_line;
mod making;
mod options;
mod reporting;
mod sampling;
mod status;
mod words;

pub use call::run;
pub use sampling::sample_run;
pub use status::Status;
pub use words::{Job, JobFault, read_words};
