//! How the check of a log ends.

/// Whether a log is accepted, or why it is not.
#[derive(Clone, Copy, Debug, PartialEq, Eq)]
pub enum LogEnd {
    /// It is accepted.
    Accepted,
    /// This line, counted from 1, is the first at fault. Where the log ends early, it is the line
    /// behind the last; where the log is too long, it is no later than the line that passes
    /// 268,435,456 bytes.
    Line(u64),
    /// No file has the name.
    Absent,
    /// The files failed.
    Files,
    /// There was no memory.
    Memory,
}
