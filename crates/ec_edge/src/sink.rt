//! A sink, by the bytes that it has and by what has gone wrong with it.
ghost use Rattle.std.specs.Prelude.{◌≡◌, ◌≤◌, ◌++◌, List, ℕ, Bool, IsTrue, OnOk, IsErrOf};
ghost use Rattle.ec_edge.specs.Causes.{Rose};
ghost use Rattle.ec_edge.specs.Pieces.{AppendsPrefix};

use crate::SinkFault;

/// A place to which bytes are put, one piece after another.
///
/// An implementation says whether it tells its bytes. Where it does not, as standard output, the
/// clauses on its bytes are empty, and the same code runs.
pub trait Sink {
    /// Whether it tells its bytes.
    ghost tells: { Self → Bool };

    /// The bytes that it has.
    ghost bytes: { Self → List ℕ };

    /// How often it has failed, up to 2^64 - 1.
    ghost faults: { Self → ℕ };

    /// Adds a piece at the end.
    fn put(&mut self, piece: &[u8]) -> Result<(), SinkFault>
        ensures ok { IsTrue (tells self.old) → OnOk result (bytes self.new ≡ bytes self.old ++ piece.now) }
        ensures failed { IsErrOf result SinkFault.Failed → Rose (faults self.old) (faults self.new) }
        ensures part { IsTrue (tells self.old) → IsErrOf result SinkFault.Failed →
            AppendsPrefix piece.now (bytes self.old) (bytes self.new) }
        ensures memory { IsErrOf result SinkFault.Memory → bytes self.new ≡ bytes self.old }

        ensures tells { tells self.new ≡ tells self.old }
        ensures faults { faults self.old ≤ faults self.new };
}
