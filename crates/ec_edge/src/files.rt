//! Files, by what each name holds and by what has gone wrong with them.
ghost use Rattle.std.specs.Prelude.{◌≡◌, ◌≢◌, ◌≤◌, [], List, ℕ, Bool, Option, Some, None, length, IsTrue, IfOk, IsSomeAnd, OnOk, IsErrOf};
ghost use Rattle.ec_edge.specs.Causes.{Rose};
ghost use Rattle.ec_edge.specs.Pieces.{IsPiece, AllStay, OthersStay, appended, AppendsHeldPrefix};

use crate::FileFault;

/// Files that are read and written in pieces, by name.
///
/// An implementation says whether it tells what the names hold. Where it does not, as the files of
/// the operating system, the clauses on what is held are empty, and the same code runs.
pub trait Files {
    /// Whether it tells what the names hold.
    ghost tells: { Self → Bool };

    /// The bytes that a name holds, if it is held. A name is its bytes.
    ghost held: { Self → List ℕ → Option (List ℕ) };

    /// How often it has failed, up to 2^64 - 1.
    ghost faults: { Self → ℕ };

    /// How often a name was not held, up to 2^64 - 1.
    ghost absences: { Self → ℕ };

    /// How often `start` has failed, up to 2^64 - 1.
    ghost failed_starts: { Self → ℕ };

    /// Copies bytes of a file, from an offset on, to the front of the buffer, and gives their
    /// number: 0 exactly at the end of the file or past it, or for an empty buffer. It may copy
    /// fewer than there are.
    fn piece(&mut self, name: &str, at: u64, buf: &mut [u8]) -> Result<usize, FileFault>
        ensures bound { IfOk result (λ n. n ≤ length buf.new) }
        ensures bytes { IsTrue (tells self.old) → IfOk result (λ n.
            IsSomeAnd (held self.old name.now) (λ bytes. IsPiece bytes at buf.new n)) }

        ensures absent { IsErrOf result FileFault.Absent → Rose (absences self.old) (absences self.new) }
        ensures missing { IsTrue (tells self.old) → IsErrOf result FileFault.Absent →
            held self.old name.now ≡ None }
        ensures failed { IsErrOf result FileFault.Failed → Rose (faults self.old) (faults self.new) }

        ensures stays { AllStay (held self.old) (held self.new) }
        ensures failed_starts { failed_starts self.new ≡ failed_starts self.old }
        ensures tells { tells self.new ≡ tells self.old }
        ensures faults { faults self.old ≤ faults self.new }
        ensures absences { absences self.old ≤ absences self.new };

    /// Makes a name hold no bytes, whatever it held. After `Failed` nothing is said of this name.
    fn start(&mut self, name: &str) -> Result<(), FileFault>
        ensures ok { IsTrue (tells self.old) → OnOk result (held self.new name.now ≡ Some []) }
        ensures never_absent { IsErrOf result FileFault.Absent → ⊥ }
        ensures failed { IsErrOf result FileFault.Failed → Rose (faults self.old) (faults self.new) }
        ensures memory { IsErrOf result FileFault.Memory → AllStay (held self.old) (held self.new) }

        // A call that failed is told apart from all others by this count.
        ensures counted { IsErrOf result FileFault.Failed → Rose (failed_starts self.old) (failed_starts self.new) }
        ensures uncounted { OnOk result (failed_starts self.new ≡ failed_starts self.old) }
        ensures uncounted_memory { IsErrOf result FileFault.Memory → failed_starts self.new ≡ failed_starts self.old }
        ensures failed_starts { failed_starts self.old ≤ failed_starts self.new }

        ensures others { OthersStay name.now (held self.old) (held self.new) }
        ensures tells { tells self.new ≡ tells self.old }
        ensures faults { faults self.old ≤ faults self.new }
        ensures absences { absences self.old ≤ absences self.new };

    /// Adds a piece at the end of the bytes of a name.
    fn append(&mut self, name: &str, piece: &[u8]) -> Result<(), FileFault>
        requires { IsTrue (tells self.old) → held self.old name.now ≢ None }
        ensures ok { IsTrue (tells self.old) →
            OnOk result (held self.new name.now ≡ appended (held self.old name.now) piece.now) }
        ensures never_absent { IsErrOf result FileFault.Absent → ⊥ }
        ensures failed { IsErrOf result FileFault.Failed → Rose (faults self.old) (faults self.new) }
        ensures part { IsTrue (tells self.old) → IsErrOf result FileFault.Failed →
            AppendsHeldPrefix piece.now (held self.old name.now) (held self.new name.now) }
        ensures memory { IsErrOf result FileFault.Memory → AllStay (held self.old) (held self.new) }

        ensures others { OthersStay name.now (held self.old) (held self.new) }
        ensures failed_starts { failed_starts self.new ≡ failed_starts self.old }
        ensures tells { tells self.new ≡ tells self.old }
        ensures faults { faults self.old ≤ faults self.new }
        ensures absences { absences self.old ≤ absences self.new };
}
