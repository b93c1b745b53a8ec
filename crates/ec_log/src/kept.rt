//! What is kept of a search, and what a log is made of.

use ec_clause::ending::Ending;
use ec_clause::lit::Lit;

/// A note, kept until it is written.
#[derive(Drop)]
pub(crate) enum Kept {
    Derived(Vec<Lit>, Vec<u32>),
    Blocked(Vec<Lit>),
}

/// What one line of a log tells.
#[derive(Clone, Copy)]
pub(crate) enum Entry<'a> {
    Header { variables: u32, clauses: u32 },
    Note(&'a Kept),
    End(&'a Ending),
}
