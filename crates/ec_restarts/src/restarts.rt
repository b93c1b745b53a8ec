//! When a search starts anew. A search is right whatever is answered here.

/// A literal in the mean lengths, which are kept in parts of it.
const LITERAL: u64 = 1 << 16;

/// No search starts anew before it has derived this many clauses more.
const GAP: u32 = 10;

/// How long the derived clauses are: all of them, and those of late.
#[derive(Drop)]
pub struct Restarts {
    clauses: u64,
    literals: u64,
    // The mean length of late: each clause counts a part in 16, and less with each that follows.
    lately: u64,
    // How many clauses were derived since the last start.
    since: u32,
}

impl Restarts {
    /// No clause was derived.
    pub fn new() -> Restarts {
        Restarts {
            clauses: 0,
            literals: 0,
            lately: 0,
            since: 0,
        }
    }

    /// Counts a derived clause of this many literals. Answers whether the search is to start anew:
    /// where the clauses of late are longer by three tenths than all are on average.
    pub fn count(&mut self, len: usize) -> bool {
        let len = (len as u64).saturating_mul(LITERAL);
        self.clauses = self.clauses.saturating_add(1);
        self.literals = self.literals.saturating_add(len);
        self.lately = (self.lately - self.lately / 16).saturating_add(len / 16);
        self.since = self.since.saturating_add(1);
        let mean = self.literals / self.clauses.max(1);
        if self.since < GAP || self.lately / 13 <= mean / 10 {
            return false;
        }
        self.since = 0;
        true
    }
}
