//! What asking a log for its next line answers.

use crate::line::Line;

/// The next line of a log, or why there is none.
#[derive(Debug, Drop, PartialEq, Eq)]
pub enum NextLine {
    /// The next line.
    Line(Line),
    /// The bytes that are left begin with no line: byte 10 is lacking, or what stands before it is
    /// no line of a log.
    Form,
    /// The log goes past 268,435,456 bytes within this line.
    Past,
    /// No byte is left.
    End,
    /// No file has the name.
    Absent,
    /// The files failed.
    Failed,
    /// There was no memory for the line, or for the files.
    Memory,
}
