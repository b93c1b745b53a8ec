//! A sink in memory that never fails.
ghost use Rattle.std.specs.Prelude.{◌≡◌, ◌++◌, [], true, IsErrOf, OnOk};

use crate::{Sink, SinkFault};
use std::alloc::Global;
use std::marker::Model;

/// A sink in memory that never fails, for a text that the program itself uses.
#[derive(Drop)]
pub struct KeptSink {
    bytes: Vec<u8>,
}

impl Model for KeptSink {
    ghost use Rattle.std.specs.Prelude.{List, ℕ};

    ghost Value = { List ℕ };

    ghost view = { λ s. s.bytes.items };
}

impl KeptSink {
    /// A sink that has no bytes.
    pub fn new(alloc: Global) -> KeptSink
        ensures { result ≡ [] }
    {
        KeptSink {
            bytes: Vec::new(alloc),
        }
    }

    /// The bytes that were put.
    pub fn bytes(&self) -> &[u8]
        ensures { result.now ≡ self.now }
    {
        &self.bytes
    }
}

impl Sink for KeptSink {
    ghost tells = { λ _. true };

    ghost bytes = { λ s. s };

    // No fault is counted, so no call answers Failed.
    ghost faults = { λ _. 0 };

    fn put(&mut self, piece: &[u8]) -> Result<(), SinkFault>
        ensures ok { OnOk result (self.new ≡ self.old ++ piece.now) }
        ensures never_failed { IsErrOf result SinkFault.Failed → ⊥ }
        ensures memory { IsErrOf result SinkFault.Memory → self.new ≡ self.old }
    {
        self.bytes.extend_from_slice(piece)?;
        Ok(())
    }
}
