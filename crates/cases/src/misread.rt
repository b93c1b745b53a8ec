//! Why a case file can't be read.
use std::alloc::{AllocError, AllocFailed};
use thiserror::Error;

/// What is wrong with a directive.
#[derive(Clone, Copy, Debug, Error)]
pub enum Misread {
    /// No directive has this form.
    #[error("no such directive")]
    Directive,
    /// It stands before the first case and before what is given.
    #[error("no case is open")]
    NoCase,
    /// A number is missing or isn't one.
    #[error("no number")]
    Number,
    /// No text was given this name.
    #[error("no such text")]
    Text,
    /// A line of pieces has no such form.
    #[error("no such piece")]
    Piece,
    /// A run has no words, no text that is to be printed, or no status.
    #[error("a run without words, prints or status")]
    Unsaid,
    /// There was no memory.
    #[error("out of memory")]
    Memory,
}

impl From<AllocError> for Misread {
    fn from(_e: AllocError) -> Misread {
        Misread::Memory
    }
}

impl<T: Drop> From<AllocFailed<T>> for Misread {
    fn from(_e: AllocFailed<T>) -> Misread {
        Misread::Memory
    }
}
