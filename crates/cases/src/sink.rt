//! A sink in memory of which one call can be set to fail.
ghost use Rattle.std.specs.Prelude.{[], false};

use crate::case::{Call, Failing};
use ec_edge::{Sink, SinkFault};
use std::alloc::Global;

/// A sink in memory. It tells nothing to whom is tried on it.
#[derive(Drop)]
pub struct TrialSink {
    bytes: Vec<u8>,
    failing: Option<Failing>,
    calls: u64,
    faults: u64,
}

impl TrialSink {
    pub fn new(alloc: Global, failing: Option<Failing>) -> TrialSink {
        TrialSink {
            bytes: Vec::new(alloc),
            failing,
            calls: 0,
            faults: 0,
        }
    }

    /// Whether the call that is set to fail was made.
    pub fn has_failed(&self) -> bool {
        self.faults > 0
    }

    /// What was put.
    pub fn into_bytes(self) -> Vec<u8> {
        self.bytes
    }

    /// Whether this is the call that is set to fail.
    fn is_failing(&self) -> bool {
        match self.failing {
            Some(failing) => failing.call == Call::Put && failing.number == self.calls,
            None => false,
        }
    }
}

impl Sink for TrialSink {
    ghost tells = { λ _. false };

    ghost bytes = { λ _. [] };

    ghost faults = { λ s. s.faults };

    /// A call that is set to fail adds the first half of the piece, rounded down.
    fn put(&mut self, piece: &[u8]) -> Result<(), SinkFault> {
        self.calls = self.calls.saturating_add(1);
        if self.is_failing() {
            self.bytes.extend_from_slice(&piece[..piece.len() / 2])?;
            self.faults = self.faults.saturating_add(1);
            return Err(SinkFault::Failed);
        }
        self.bytes.extend_from_slice(piece)?;
        Ok(())
    }
}
