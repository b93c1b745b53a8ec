//! One run of the top call over files and a sink in memory.
use crate::case::{Failing, Held};
use crate::files::TrialFiles;
use crate::sink::TrialSink;
use ec_command::run;
use std::alloc::{AllocError, Global};

/// What a run came to.
#[derive(Drop)]
pub struct Outcome {
    pub status: u8,
    pub put: Vec<u8>,
    /// What the names hold afterwards.
    pub held: Held,
    /// Whether the call that was set to fail was made.
    pub failed: bool,
}

/// How a run is tried: how many bytes a piece of a file has at most, and which call fails.
#[derive(Clone, Copy)]
pub struct Trial {
    pub most: usize,
    pub failing: Option<Failing>,
}

/// Files give all that they are asked for, and no call fails.
pub const PLAIN: Trial = Trial {
    most: usize::MAX,
    failing: None,
};

/// Runs the words over files that hold this.
pub fn tried(
    alloc: Global,
    words: &[String],
    held: &Held,
    trial: Trial,
) -> Result<Outcome, AllocError> {
    let mut files = TrialFiles::new(alloc, held.clone()?, trial.most, trial.failing);
    let mut out = TrialSink::new(alloc, trial.failing);
    let status = run(alloc, words, &mut files, &mut out).number();
    let failed = files.has_failed() || out.has_failed();
    Ok(Outcome {
        status,
        put: out.into_bytes(),
        held: files.into_held(),
        failed,
    })
}
