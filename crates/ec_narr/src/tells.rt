//! What a fluent's line tells.

/// What is told of a fluent at a time.
#[derive(Clone, Copy)]
pub enum Tells {
    Nothing,
    Holds,
    Begins,
    Ends,
}
