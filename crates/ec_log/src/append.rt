//! The entries of a log, appended to a file line by line.
ghost use Rattle.std.specs.Prelude.{◌≡◌, ◌≢◌, ◌≤◌, All, None, map, IsTrue, IsErrOf, OnOk, OnErr};
ghost use Rattle.std.specs.List.{flat_map};
ghost use Rattle.ec_edge.specs.Causes.{Rose};
ghost use Rattle.ec_edge.specs.Pieces.{OthersStay, appended, AppendsHeldPrefix};
ghost use Rattle.ec_log.specs.Kept.{entry_line, note_of, EntryHasRange};
ghost use Rattle.ec_log.specs.Log.{line_text, noted, HasRange};

use crate::kept::{Entry, Kept};
use crate::spell::entry_text;
use crate::writer::WriteFault;
use ec_edge::{FileFault, Files};
use std::alloc::Global;

// Each of these appends its text to what the name holds. After a refusal a prefix of the text was
// added, and all other names hold what they held.

fn append_line<F: Files>(files: &mut F, name: &str, line: &[u8]) -> Result<(), WriteFault>
    requires { IsTrue (F.tells files.old) → F.held files.old name.now ≢ None }
    ensures ok { IsTrue (F.tells files.old) →
        OnOk result (F.held files.new name.now ≡ appended (F.held files.old name.now) line.now) }
    ensures part { IsTrue (F.tells files.old) →
        OnErr result (AppendsHeldPrefix line.now (F.held files.old name.now) (F.held files.new name.now)) }
    ensures failed { IsErrOf result WriteFault.Failed → Rose (F.faults files.old) (F.faults files.new) }
    ensures others { OthersStay name.now (F.held files.old) (F.held files.new) }
    ensures tells { F.tells files.new ≡ F.tells files.old }
    ensures faults { F.faults files.old ≤ F.faults files.new }
    ensures absences { F.absences files.old ≤ F.absences files.new }
    ensures failed_starts { F.failed_starts files.new ≡ F.failed_starts files.old }
{
    match files.append(name, line) {
        Ok(()) => Ok(()),
        Err(FileFault::Absent) => unreachable!(),
        Err(FileFault::Failed) => Err(WriteFault::Failed),
        Err(FileFault::Memory) => Err(WriteFault::Memory),
    }
}

pub(crate) fn append_entry<F: Files>(
    alloc: Global,
    files: &mut F,
    name: &str,
    entry: &Entry,
) -> Result<(), WriteFault>
    requires { IsTrue (F.tells files.old) → F.held files.old name.now ≢ None }
    ensures ok { IsTrue (F.tells files.old) → OnOk result
        (F.held files.new name.now ≡ appended (F.held files.old name.now) (line_text (entry_line entry.now))) }
    ensures range { OnOk result (EntryHasRange entry.now) }
    ensures part { IsTrue (F.tells files.old) → OnErr result
        (AppendsHeldPrefix (line_text (entry_line entry.now)) (F.held files.old name.now) (F.held files.new name.now)) }
    ensures failed { IsErrOf result WriteFault.Failed → Rose (F.faults files.old) (F.faults files.new) }
    ensures others { OthersStay name.now (F.held files.old) (F.held files.new) }
    ensures tells { F.tells files.new ≡ F.tells files.old }
    ensures faults { F.faults files.old ≤ F.faults files.new }
    ensures absences { F.absences files.old ≤ F.absences files.new }
    ensures failed_starts { F.failed_starts files.new ≡ F.failed_starts files.old }
{
    match entry_text(alloc, entry) {
        Ok(line) => append_line(files, name, line.as_slice()),
        Err(_) => Err(WriteFault::Memory),
    }
}

pub(crate) fn append_notes<F: Files>(
    alloc: Global,
    files: &mut F,
    name: &str,
    notes: &[Kept],
) -> Result<(), WriteFault>
    requires { IsTrue (F.tells files.old) → F.held files.old name.now ≢ None }
    ensures ok { IsTrue (F.tells files.old) → OnOk result (F.held files.new name.now
        ≡ appended (F.held files.old name.now) (flat_map line_text (map noted (map note_of notes.now)))) }
    ensures range { OnOk result (All HasRange (map note_of notes.now)) }
    ensures part { IsTrue (F.tells files.old) → OnErr result (AppendsHeldPrefix
        (flat_map line_text (map noted (map note_of notes.now))) (F.held files.old name.now) (F.held files.new name.now)) }
    ensures failed { IsErrOf result WriteFault.Failed → Rose (F.faults files.old) (F.faults files.new) }
    ensures others { OthersStay name.now (F.held files.old) (F.held files.new) }
    ensures tells { F.tells files.new ≡ F.tells files.old }
    ensures faults { F.faults files.old ≤ F.faults files.new }
    ensures absences { F.absences files.old ≤ F.absences files.new }
    ensures failed_starts { F.failed_starts files.new ≡ F.failed_starts files.old }
{
    for kept in notes {
        append_entry(alloc, files, name, &Entry::Note(kept))?;
    }
    Ok(())
}
