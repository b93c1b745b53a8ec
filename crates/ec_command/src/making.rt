//! The names of a sample, and how a text is written under one of them.
ghost use Rattle.std.specs.Prelude.{◌≡◌, ◌≤◌, Some, Err, IsTrue, IsErrOf, OnOk, MatchResult};
ghost use Rattle.ec_edge.specs.Causes.{Rose};
ghost use Rattle.ec_edge.specs.Pieces.{OthersStay};
ghost use Rattle.ec_command.specs.Faults.{IsLeft};
ghost use Rattle.ec_command.specs.Sample.{sample_file};
ghost use Rattle.ec_command.specs.Stages.{HasMade, IsStop};
ghost use Rattle.ec_command.specs.Words.{IsSteps};

use ec_edge::{FileFault, Files};
use ec_sample::sample;
use ec_syntax::book::Refusal;
use std::alloc::Global;

/// The text of the sample.
pub const FILE: &str = "sample.e";

/// The list of its narratives.
pub const LIST: &str = "sample.out";

/// The log of the search for them.
pub const LOG: &str = "sample.log";

/// Why the run of a sample ends before its report.
#[derive(Debug, PartialEq, Eq, Drop)]
pub enum Stop {
    /// A command refused what the files gave.
    Refused(Refusal),
    /// The files failed.
    Files,
    /// There was no memory.
    Memory,
}

/// Starts a name and appends a text to it.
fn append_text<F: Files>(files: &mut F, name: &str, text: &[u8]) -> Result<(), FileFault>
    ensures ok { IsTrue (F.tells files.old) → OnOk result (F.held files.new name.now ≡ Some text.now) }
    ensures never_absent { IsErrOf result FileFault.Absent → ⊥ }
    ensures failed { IsErrOf result FileFault.Failed → Rose (F.faults files.old) (F.faults files.new) }
    ensures left { IsTrue (F.tells files.old) → IsErrOf result FileFault.Failed →
        IsLeft (Rose (F.failed_starts files.old) (F.failed_starts files.new)) text.now (F.held files.old name.now) (F.held files.new name.now) }
    ensures left_memory { IsTrue (F.tells files.old) → IsErrOf result FileFault.Memory →
        IsLeft ⊥ text.now (F.held files.old name.now) (F.held files.new name.now) }
    ensures others { OthersStay name.now (F.held files.old) (F.held files.new) }
    ensures tells { F.tells files.new ≡ F.tells files.old }
    ensures faults { F.faults files.old ≤ F.faults files.new }
    ensures absences { F.absences files.old ≤ F.absences files.new }
    ensures failed_starts { F.failed_starts files.old ≤ F.failed_starts files.new }
{
    files.start(name)?;
    files.append(name, text)
}

/// Makes a name hold exactly this text. After a fault it holds what it held or a prefix of the text; where `start` failed, as its count
/// tells, nothing is said of it.
pub fn write_text<F: Files>(files: &mut F, name: &str, text: &[u8]) -> Result<(), Stop>
    ensures ok { IsTrue (F.tells files.old) → OnOk result (F.held files.new name.now ≡ Some text.now) }
    ensures never_refused { (r : Refusal) → result ≡ Err (Stop.Refused r) → ⊥ }
    ensures failed { result ≡ Err Stop.Files → Rose (F.faults files.old) (F.faults files.new) }
    ensures left { IsTrue (F.tells files.old) → result ≡ Err Stop.Files →
        IsLeft (Rose (F.failed_starts files.old) (F.failed_starts files.new)) text.now (F.held files.old name.now) (F.held files.new name.now) }
    ensures left_memory { IsTrue (F.tells files.old) → result ≡ Err Stop.Memory →
        IsLeft ⊥ text.now (F.held files.old name.now) (F.held files.new name.now) }
    ensures others { OthersStay name.now (F.held files.old) (F.held files.new) }
    ensures tells { F.tells files.new ≡ F.tells files.old }
    ensures faults { F.faults files.old ≤ F.faults files.new }
    ensures absences { F.absences files.old ≤ F.absences files.new }
    ensures failed_starts { F.failed_starts files.old ≤ F.failed_starts files.new }
{
    match append_text(files, name, text) {
        Ok(()) => Ok(()),
        Err(FileFault::Absent) => unreachable!(),
        Err(FileFault::Failed) => Err(Stop::Files),
        Err(FileFault::Memory) => Err(Stop::Memory),
    }
}

/// Makes the file of the sample.
pub fn make<F: Files>(alloc: Global, n: u32, files: &mut F) -> Result<(), Stop>
    requires { IsSteps n }
    ensures put { IsTrue (F.tells files.old) → MatchResult result (λ _. HasMade n (F.held files.old) (F.held files.new))
        (λ why. IsStop n (F.held files.old) (F.held files.new) (Rose (F.failed_starts files.old) (F.failed_starts files.new)) why) }
    ensures never_refused { (r : Refusal) → result ≡ Err (Stop.Refused r) → ⊥ }
    ensures failed { result ≡ Err Stop.Files → Rose (F.faults files.old) (F.faults files.new) }
    ensures others { OthersStay sample_file (F.held files.old) (F.held files.new) }
    ensures tells { F.tells files.new ≡ F.tells files.old }
    ensures faults { F.faults files.old ≤ F.faults files.new }
    ensures absences { F.absences files.old ≤ F.absences files.new }
    ensures failed_starts { F.failed_starts files.old ≤ F.failed_starts files.new }
{
    match sample(alloc, n) {
        Ok(text) => write_text(files, FILE, &text),
        Err(_) => Err(Stop::Memory),
    }
}
