//! Ranges of sorts.

/// The least and the greatest number of a sort, as they are written.
#[derive(Clone, Copy, Debug, PartialEq, Eq)]
pub struct Range {
    pub low: i64,
    pub high: i64,
}
