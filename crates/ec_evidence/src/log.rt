//! The log, checked for the list.
ghost use Rattle.std.specs.Prelude.{◌≡◌, ◌≤◌, ◌^◌, IsTrue, length};
ghost use Rattle.ec_checking.specs.Checked.{AreTruthsOver};
ghost use Rattle.ec_edge.specs.Causes.{Rose};
ghost use Rattle.ec_edge.specs.Pieces.{AllStay};
ghost use Rattle.ec_evidence.specs.Steps.{ChecksTo};

use crate::finding::{Finding, Reason};
use ec_checking::{LogEnd, check_log};
use ec_clause::clauses::Clauses;
use ec_edge::Files;
use ec_narr::Listed;
use std::alloc::Global;

/// A log is read through a buffer of so many bytes.
const BUFFER: u32 = 65_536;

/// What a log shows of a list that has passed, for this clause list.
pub(crate) fn checked<F: Files>(
    alloc: Global,
    files: &mut F,
    log: &str,
    clauses: Clauses,
    listed: &Listed,
) -> Finding
    requires few { length clauses.clauses ≤ 2 ^ 30 }
    requires truths { AreTruthsOver clauses.variables listed.now.models.items }
    ensures found { IsTrue (F.tells files.old) → ChecksTo (F.held files.old) log.now clauses listed.now result }
    ensures failed { result ≡ Finding.Files → Rose (F.faults files.old) (F.faults files.new) }
    ensures no_list { result ≡ Finding.NoList → ⊥ }
    ensures no_log { result ≡ Finding.NoLog → Rose (F.absences files.old) (F.absences files.new) }
    ensures stays { AllStay (F.held files.old) (F.held files.new) }

    ensures tells { F.tells files.new ≡ F.tells files.old }
    ensures faults { F.faults files.old ≤ F.faults files.new }
    ensures absences { F.absences files.old ≤ F.absences files.new }
    ensures failed_starts { F.failed_starts files.new ≡ F.failed_starts files.old }
{
    match check_log(
        alloc,
        files,
        log,
        BUFFER,
        clauses,
        &listed.models,
        &listed.ending,
    ) {
        LogEnd::Accepted => Finding::Yes(listed.ending),
        LogEnd::Line(line) => Finding::No(Reason::Log(line)),
        LogEnd::Absent => Finding::NoLog,
        LogEnd::Files => Finding::Files,
        LogEnd::Memory => Finding::Memory,
    }
}
