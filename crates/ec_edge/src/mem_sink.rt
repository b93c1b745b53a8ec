//! A sink in memory, of which single calls can be set to fail.
ghost use Rattle.std.specs.Prelude.{◌≡◌, ◌≤◌, ◌<◌, ◌^◌, ◌-◌, ◌++◌, true, IsErrOf, OnOk, OnErr};
ghost use Rattle.ec_edge.specs.Causes.{Rose};
ghost use Rattle.ec_edge.specs.Memory.{first_half, new_sink, faults_after};
ghost use Rattle.ec_edge.specs.Pieces.{AppendsPrefix};
ghost use Rattle.ec_edge.specs.Plan.{after_call, failing_too, FailsNext};

use crate::calls::Calls;
use crate::half::first_half;
use crate::{Sink, SinkFault};
use std::alloc::{AllocError, Global};
use std::marker::Model;

/// A sink in memory, which tells its bytes, and of which single calls can be set to fail.
#[derive(Drop)]
pub struct MemSink {
    bytes: Vec<u8>,
    puts: Calls,
    faults: u64,
}

impl Model for MemSink {
    ghost use Rattle.ec_edge.specs.Memory.{SinkState};

    ghost Value = { SinkState };

    ghost view = { λ s. record { bytes = s.bytes.items; puts = s.puts; faults = s.faults } };
}

impl MemSink {
    /// A sink that has no bytes, and of which no call is set to fail.
    pub fn new(alloc: Global) -> MemSink
        ensures { result ≡ new_sink }
    {
        MemSink {
            bytes: Vec::new(alloc),
            puts: Calls::new(alloc),
            faults: 0,
        }
    }

    /// The bytes that were put.
    pub fn bytes(&self) -> &[u8]
        ensures { result.now ≡ self.now.bytes }
    {
        &self.bytes
    }

    /// Sets the n-th call of `put` since `new`, counted from 1, to fail.
    pub fn fail_put(&mut self, n: u64) -> Result<(), AllocError>
        requires { n < 2 ^ 64 - 1 }
        ensures set { OnOk result (self.new ≡ record self.old { puts = failing_too self.old.puts n }) }
        ensures err { OnErr result (self.new ≡ self.old) }
    {
        self.puts.fail(n)
    }
}

impl Sink for MemSink {
    ghost tells = { λ _. true };

    ghost bytes = { λ s. s.bytes };

    ghost faults = { λ s. s.faults };

    /// A call that is set to fail adds the first half of the piece, rounded down.
    fn put(&mut self, piece: &[u8]) -> Result<(), SinkFault>
        ensures ok { OnOk result (self.new.bytes ≡ self.old.bytes ++ piece.now) }
        ensures half { IsErrOf result SinkFault.Failed → self.new.bytes ≡ self.old.bytes ++ first_half piece.now }
        ensures memory { IsErrOf result SinkFault.Memory → self.new.bytes ≡ self.old.bytes }

        // A call fails only where it is set to, and a call that is set to fail is not answered by Ok.
        ensures only_set { IsErrOf result SinkFault.Failed → FailsNext self.old.puts }
        ensures fails { OnOk result (¬ FailsNext self.old.puts) }
        ensures counted { self.new.puts ≡ after_call self.old.puts }
        ensures counts { self.new.faults ≡ faults_after self.old.faults result }

        ensures failed { IsErrOf result SinkFault.Failed → Rose self.old.faults self.new.faults }
        ensures part { IsErrOf result SinkFault.Failed → AppendsPrefix piece.now self.old.bytes self.new.bytes }
        ensures faults { self.old.faults ≤ self.new.faults }
    {
        if self.puts.next_fails() {
            self.bytes.extend_from_slice(first_half(piece))?;
            self.faults = self.faults.saturating_add(1);
            return Err(SinkFault::Failed);
        }
        self.bytes.extend_from_slice(piece)?;
        Ok(())
    }
}
