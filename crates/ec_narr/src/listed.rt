//! What a list text tells, and why a text is none.

use ec_clause::ending::Ending;
use ec_row::Row;
use thiserror::Error;

/// The truths and the ending of a list.
#[derive(Drop)]
pub struct Listed {
    /// The truth of each narrative, in rising order: a bit for each visible atom.
    pub models: Vec<Row>,
    /// What the last line tells.
    pub ending: Ending,
}

/// Why bytes were not read as a list.
#[derive(Clone, Copy, Debug, PartialEq, Eq, Error)]
pub enum ListFault {
    /// The first faulty line, counted from 1. It is the line after the last where the bytes end early.
    #[error("line {0} is faulty")]
    Line(u64),
    /// There was no memory for the list.
    #[error("out of memory")]
    Memory,
}
