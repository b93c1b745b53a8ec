//! The check of a log, line by line.
ghost use Rattle.std.specs.Prelude.{◌≡◌, ◌≤◌, ◌<◌, ◌^◌, ◌↔◌, [], length, IsTrue, IsErrOf, IfOk, IsSomeAnd};
ghost use Rattle.ec_checking.specs.Checked.{AreTruthsOver, HasCome, HasLog, IsChecked, IsDue, IsNextLine, IsBehindEnd};
ghost use Rattle.ec_checking.specs.Walk.{Keeps};
ghost use Rattle.ec_edge.specs.Causes.{Rose};
ghost use Rattle.ec_edge.specs.Pieces.{AllStay};
ghost use Rattle.ec_log.specs.Reader.{FitsHeld, IsUsed, largest_log};
ghost use Rattle.ec_log.specs.Line as spelling;
ghost use Rattle.ec_log.specs.Reading.{view};

use crate::end::LogEnd;
use crate::walk::{Turn, Walk};
use ec_clause::clauses::Clauses;
use ec_clause::ending::Ending;
use ec_edge::Files;
use ec_log::{Line, LogReader, NextLine};
use ec_row::Row;
use std::alloc::Global;

// As many bytes as a log may have.
const LARGEST_LOG: u64 = 268_435_456;

/// Checks the log that a name holds, for a clause list, for the truths that a list told, each as
/// its row of the variables from 1 on, and for the ending that it told. A log of more than
/// 268,435,456 bytes is not accepted.
///
/// The log is read through a buffer of `size` bytes, from 1 to 1,048,576. It takes time linear in
/// the bytes of the log, and in the clauses that its hints name; and memory for the clauses, one
/// line, and a table of the truths' digits.
pub fn check_log<F: Files>(
    alloc: Global,
    files: &mut F,
    log: &str,
    size: u32,
    clauses: Clauses,
    truths: &[Row],
    ending: &Ending,
) -> LogEnd
    requires least { 1 ≤ size }
    requires most { size ≤ 1048576 }
    requires few { length clauses.clauses ≤ 2 ^ 30 }
    requires truths { AreTruthsOver clauses.variables truths.now }
    ensures checked { IsTrue (F.tells files.old) →
        IsChecked clauses truths.now ending.now (F.held files.old log.now) result }
    // No other answer but for a fault of the files or want of memory.
    ensures due { IsTrue (F.tells files.old) →
        IsDue clauses truths.now ending.now (F.held files.old log.now) result }
    // Whatever the files tell, the lines that were read are those of an accepted log.
    ensures shown { result ≡ LogEnd.Accepted → HasLog clauses truths.now ending.now }
    ensures absent { result ≡ LogEnd.Absent → Rose (F.absences files.old) (F.absences files.new) }
    ensures failed { result ≡ LogEnd.Files → Rose (F.faults files.old) (F.faults files.new) }

    ensures stays { AllStay (F.held files.old) (F.held files.new) }
    ensures failed_starts { F.failed_starts files.new ≡ F.failed_starts files.old }
    ensures tells { F.tells files.new ≡ F.tells files.old }
    ensures faults { F.faults files.old ≤ F.faults files.new }
    ensures absences { F.absences files.old ≤ F.absences files.new }
{
    check_lines(alloc, files, log, size, clauses, truths, ending)
}

// Checks the header, and then what stands behind it.
fn check_lines<F: Files>(
    alloc: Global,
    files: &mut F,
    log: &str,
    size: u32,
    clauses: Clauses,
    truths: &[Row],
    ending: &Ending,
) -> LogEnd
    requires least { 1 ≤ size }
    requires most { size ≤ 1048576 }
    requires few { length clauses.clauses ≤ 2 ^ 30 }
    requires truths { AreTruthsOver clauses.variables truths.now }
    ensures checked { IsTrue (F.tells files.old) →
        IsChecked clauses truths.now ending.now (F.held files.old log.now) result }
    ensures shown { result ≡ LogEnd.Accepted → HasLog clauses truths.now ending.now }
    ensures absent { result ≡ LogEnd.Absent → Rose (F.absences files.old) (F.absences files.new) }
    ensures failed { result ≡ LogEnd.Files → Rose (F.faults files.old) (F.faults files.new) }

    ensures stays { AllStay (F.held files.old) (F.held files.new) }
    ensures failed_starts { F.failed_starts files.new ≡ F.failed_starts files.old }
    ensures tells { F.tells files.new ≡ F.tells files.old }
    ensures faults { F.faults files.old ≤ F.faults files.new }
    ensures absences { F.absences files.old ≤ F.absences files.new }
{
    let variables = clauses.variables();
    let count = clauses.len();
    let Ok(mut reader) = LogReader::new(alloc, size) else {
        return LogEnd::Memory;
    };
    let Ok(mut walk) = Walk::new(alloc, clauses, truths) else {
        return LogEnd::Memory;
    };
    match next_line(&mut reader, files, log, 1) {
        Ok(line) => {
            if is_header(&line, variables, count) {
                check_notes(alloc, &mut walk, &mut reader, files, log, truths, ending)
            } else {
                LogEnd::Line(1)
            }
        }
        Err(end) => end,
    }
}

fn is_header(line: &Line, variables: u32, clauses: u32) -> bool
    ensures { IsTrue result ↔ (view line.now ≡ spelling.Header variables clauses) }
{
    match line {
        Line::Header {
            variables: own_variables,
            clauses: own_clauses,
        } => *own_variables == variables && *own_clauses == clauses,
        Line::Derived { .. } | Line::Blocked { .. } | Line::End(_) => false,
    }
}

// The next line, which has this number, or how the check ends where there is none.
fn next_line<F: Files>(
    reader: &mut LogReader,
    files: &mut F,
    log: &str,
    number: u64,
) -> Result<Line, LogEnd>
    requires fits { IsTrue (F.tells files.old) → FitsHeld reader.old (F.held files.old log.now) }
    requires place { reader.old.place ≤ largest_log }
    ensures read { IsTrue (F.tells files.old) →
        IsNextLine reader.old (F.held files.old log.now) number result reader.new }
    ensures used { IfOk result (λ line. IsUsed reader.old (view line) reader.new) }
    ensures never_accepted { IsErrOf result LogEnd.Accepted → ⊥ }
    ensures absent { IsErrOf result LogEnd.Absent → Rose (F.absences files.old) (F.absences files.new) }
    ensures failed { IsErrOf result LogEnd.Files → Rose (F.faults files.old) (F.faults files.new) }

    ensures stays { AllStay (F.held files.old) (F.held files.new) }
    ensures failed_starts { F.failed_starts files.new ≡ F.failed_starts files.old }
    ensures tells { F.tells files.new ≡ F.tells files.old }
    ensures faults { F.faults files.old ≤ F.faults files.new }
    ensures absences { F.absences files.old ≤ F.absences files.new }
{
    match reader.next(files, log) {
        NextLine::Line(line) => Ok(line),
        NextLine::Form => Err(LogEnd::Line(number)),
        NextLine::Past => Err(LogEnd::Line(number)),
        NextLine::End => Err(LogEnd::Line(number)),
        NextLine::Absent => Err(LogEnd::Absent),
        NextLine::Failed => Err(LogEnd::Files),
        NextLine::Memory => Err(LogEnd::Memory),
    }
}

// Checks what stands behind the header.
fn check_notes<F: Files>(
    alloc: Global,
    walk: &mut Walk,
    reader: &mut LogReader,
    files: &mut F,
    log: &str,
    truths: &[Row],
    ending: &Ending,
) -> LogEnd
    requires few { length walk.old.checker.list.clauses ≤ 2 ^ 30 }
    requires over { AreTruthsOver walk.old.checker.list.variables truths.now }
    requires small { walk.old.checker.list.variables < 2 ^ 31 }
    requires begun { Keeps walk.old.checker.list truths.now [] walk.old }
    requires low { 1 ≤ reader.old.place }
    requires high { reader.old.place ≤ largest_log }
    requires read { IsTrue (F.tells files.old) → IsSomeAnd (F.held files.old log.now)
        (HasCome walk.old.checker.list truths.now [] reader.old) }
    ensures checked { IsTrue (F.tells files.old) →
        IsChecked walk.old.checker.list truths.now ending.now (F.held files.old log.now) result }
    ensures shown { result ≡ LogEnd.Accepted → HasLog walk.old.checker.list truths.now ending.now }
    ensures absent { result ≡ LogEnd.Absent → Rose (F.absences files.old) (F.absences files.new) }
    ensures failed { result ≡ LogEnd.Files → Rose (F.faults files.old) (F.faults files.new) }

    ensures stays { AllStay (F.held files.old) (F.held files.new) }
    ensures failed_starts { F.failed_starts files.new ≡ F.failed_starts files.old }
    ensures tells { F.tells files.new ≡ F.tells files.old }
    ensures faults { F.faults files.old ≤ F.faults files.new }
    ensures absences { F.absences files.old ≤ F.absences files.new }
{
    for number in 2..LARGEST_LOG + 2 {
        let line = match next_line(reader, files, log, number) {
            Ok(line) => line,
            Err(end) => return end,
        };
        match walk.take(alloc, truths, ending, &line) {
            Ok(Turn::Note) => {}
            Ok(Turn::End) => return check_end(reader, files, log, number + 1),
            Ok(Turn::Fault) => return LogEnd::Line(number),
            Err(_) => return LogEnd::Memory,
        }
    }
    // Each line takes a byte at least, and they lie within the largest log.
    unreachable!()
}

// Checks that nothing stands behind the end line, where the line of this number would be.
fn check_end<F: Files>(reader: &mut LogReader, files: &mut F, log: &str, number: u64) -> LogEnd
    requires fits { IsTrue (F.tells files.old) → FitsHeld reader.old (F.held files.old log.now) }
    requires place { reader.old.place ≤ largest_log }
    ensures read { IsTrue (F.tells files.old) →
        IsBehindEnd reader.old.place (F.held files.old log.now) number result }
    ensures absent { result ≡ LogEnd.Absent → Rose (F.absences files.old) (F.absences files.new) }
    ensures failed { result ≡ LogEnd.Files → Rose (F.faults files.old) (F.faults files.new) }

    ensures stays { AllStay (F.held files.old) (F.held files.new) }
    ensures failed_starts { F.failed_starts files.new ≡ F.failed_starts files.old }
    ensures tells { F.tells files.new ≡ F.tells files.old }
    ensures faults { F.faults files.old ≤ F.faults files.new }
    ensures absences { F.absences files.old ≤ F.absences files.new }
{
    match reader.next(files, log) {
        NextLine::End => LogEnd::Accepted,
        NextLine::Line(_) => LogEnd::Line(number),
        NextLine::Form => LogEnd::Line(number),
        NextLine::Past => LogEnd::Line(number),
        NextLine::Absent => LogEnd::Absent,
        NextLine::Failed => LogEnd::Files,
        NextLine::Memory => LogEnd::Memory,
    }
}
