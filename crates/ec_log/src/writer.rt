//! The notes of a search, kept until its log is written.
ghost use Rattle.std.specs.Prelude.{◌≡◌, ◌≤◌, ◌<◌, ◌+◌, ◌^◌, ◌⊎◌, [], Some, All, length, IsTrue, IsErrOf, OnOk, OnErr};
ghost use Rattle.ec_edge.specs.Causes.{Rose};
ghost use Rattle.ec_edge.specs.Pieces.{AllStay, OthersStay, AppendsHeldPrefix};
ghost use Rattle.std.specs.List.{AllByRecursion};
ghost use Rattle.ec_log.specs.Line.{IsLine};
ghost use Rattle.ec_log.specs.Log.{IsNote, HasLimit, HasRanges, log_lines, log_text};

use crate::append::{append_entry, append_notes};
use crate::kept::{Entry, Kept};
use ec_clause::ending::Ending;
use ec_clause::lit::Lit;
use ec_clause::notes::Notes;
use ec_edge::{FileFault, Files};
use std::alloc::{AllocError, Global};
use std::marker::Model;
use thiserror::Error;

/// Why a log was not written whole.
#[derive(Clone, Copy, Debug, PartialEq, Eq, Error)]
pub enum WriteFault {
    /// The files failed.
    #[error("the files failed")]
    Failed,
    /// There was no memory for a line, or for the files.
    #[error("out of memory")]
    Memory,
}

/// A keeper of notes that writes them as a log, seen as its two numbers and its notes. It takes
/// memory for the literals and hints of all notes.
#[derive(Drop)]
pub struct Writer {
    alloc: Global,
    variables: u32,
    clauses: u32,
    kept: Vec<Kept>,
}

impl Model for Writer {
    ghost use Rattle.std.specs.Prelude.{map};
    ghost use Rattle.ec_log.specs.Log.{Log};
    ghost use Rattle.ec_log.specs.Kept.{note_of};

    ghost Value = { Log };

    ghost view = { λ a. record { numbers = (a.variables, a.clauses); notes = map note_of a.kept.items } };
}

impl Writer {
    /// A writer without notes, for a list of this many clauses over this many variables.
    pub fn new(alloc: Global, variables: u32, clauses: u32) -> Writer
        ensures { result ≡ record { numbers = (variables, clauses); notes = [] } }
    {
        Writer {
            alloc,
            variables,
            clauses,
            kept: Vec::new(alloc),
        }
    }

    /// Makes the name hold the log: the header, a line for each note in order, and the end line,
    /// each line by one call of `append`.
    ///
    /// Each hint is at least 1, a blocked clause has the variables from 1 on in order, the number of
    /// a limit is at least 1, and each clause has a number below 2^32. After a refusal the name holds
    /// what it held or a prefix of the log; where `start` failed, as its count tells, nothing is said
    /// of it.
    pub fn write<F: Files>(
        &self,
        files: &mut F,
        name: &str,
        ending: &Ending,
    ) -> Result<(), WriteFault>
        requires notes { All IsNote self.now.notes }
        requires few { self.now.numbers.1 + length self.now.notes < 2 ^ 32 }
        requires limit { HasLimit ending.now }
        ensures ok { IsTrue (F.tells files.old) →
            OnOk result (F.held files.new name.now ≡ Some (log_text self.now ending.now)) }
        ensures memory { IsTrue (F.tells files.old) → IsErrOf result WriteFault.Memory →
            AllStay (F.held files.old) (F.held files.new)
            ⊎ AppendsHeldPrefix (log_text self.now ending.now) (Some []) (F.held files.new name.now) }
        ensures failed { IsErrOf result WriteFault.Failed → Rose (F.faults files.old) (F.faults files.new) }

        // Either the start failed, which its count tells, or an `append`, which leaves that count and a prefix of the log.
        ensures part { IsErrOf result WriteFault.Failed → Rose (F.failed_starts files.old) (F.failed_starts files.new)
            ⊎ ((F.failed_starts files.new ≡ F.failed_starts files.old)
            × (IsTrue (F.tells files.old) → AppendsHeldPrefix (log_text self.now ending.now) (Some []) (F.held files.new name.now))) }
        ensures started { OnOk result (F.failed_starts files.new ≡ F.failed_starts files.old) }
        ensures started_memory { IsErrOf result WriteFault.Memory → F.failed_starts files.new ≡ F.failed_starts files.old }

        ensures others { OthersStay name.now (F.held files.old) (F.held files.new) }
        ensures tells { F.tells files.new ≡ F.tells files.old }
        ensures faults { F.faults files.old ≤ F.faults files.new }
        ensures absences { F.absences files.old ≤ F.absences files.new }
        ensures failed_starts { F.failed_starts files.old ≤ F.failed_starts files.new }

        // Each line that was written is a line of a log, which `read_line` gives back.
        ensures lines { OnOk result (AllByRecursion IsLine (log_lines self.now ending.now)) }
    {
        match files.start(name) {
            Ok(()) => self.write_lines(files, name, ending),
            Err(FileFault::Absent) => unreachable!(),
            Err(FileFault::Failed) => Err(WriteFault::Failed),
            Err(FileFault::Memory) => Err(WriteFault::Memory),
        }
    }

    // Appends the lines to a name that holds no bytes.
    fn write_lines<F: Files>(
        &self,
        files: &mut F,
        name: &str,
        ending: &Ending,
    ) -> Result<(), WriteFault>
        requires { IsTrue (F.tells files.old) → F.held files.old name.now ≡ Some [] }
        ensures ok { IsTrue (F.tells files.old) →
            OnOk result (F.held files.new name.now ≡ Some (log_text self.now ending.now)) }
        ensures range { OnOk result (HasRanges self.now ending.now) }
        ensures part { IsTrue (F.tells files.old) → OnErr result
            (AppendsHeldPrefix (log_text self.now ending.now) (Some []) (F.held files.new name.now)) }
        ensures failed { IsErrOf result WriteFault.Failed → Rose (F.faults files.old) (F.faults files.new) }
        ensures others { OthersStay name.now (F.held files.old) (F.held files.new) }
        ensures tells { F.tells files.new ≡ F.tells files.old }
        ensures faults { F.faults files.old ≤ F.faults files.new }
        ensures absences { F.absences files.old ≤ F.absences files.new }
        ensures failed_starts { F.failed_starts files.new ≡ F.failed_starts files.old }
    {
        let header = Entry::Header {
            variables: self.variables,
            clauses: self.clauses,
        };
        append_entry(self.alloc, files, name, &header)?;
        append_notes(self.alloc, files, name, &self.kept)?;
        append_entry(self.alloc, files, name, &Entry::End(ending))
    }
}

impl Notes for Writer {
    ghost notes = { λ a. a.notes };

    ghost numbers = { λ a. a.numbers };

    fn derived(&mut self, lits: &[Lit], hints: &[u32]) -> Result<(), AllocError> {
        let lits = Vec::from_slice(self.alloc, lits)?;
        let hints = Vec::from_slice(self.alloc, hints)?;
        self.kept.push(Kept::Derived(lits, hints))?;
        Ok(())
    }

    fn blocked(&mut self, lits: &[Lit]) -> Result<(), AllocError> {
        let lits = Vec::from_slice(self.alloc, lits)?;
        self.kept.push(Kept::Blocked(lits))?;
        Ok(())
    }
}
