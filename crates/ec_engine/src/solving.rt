//! The command `solve`.
ghost use Rattle.std.specs.Prelude.{◌≡◌, ◌≢◌, ◌≤◌, ◌<◌, ◌+◌, ◌*◌, ◌^◌, ◌++◌, List, ℕ, Option, Ok, length, All, Contains, true, IsTrue};
ghost use Rattle.std.specs.Bool.{OnTrue, OnFalse};
ghost use Rattle.ec_clause.specs.Ending.{is_complete};
ghost use Rattle.ec_logic.specs.Theory.{Theory};
ghost use Rattle.ec_logic.specs.ValidTheory.{IsValidTheory};
ghost use Rattle.ec_edge.specs.Causes.{Rose};
ghost use Rattle.ec_edge.specs.Pieces.{AllStay, OthersStay};
ghost use Rattle.ec_log.specs.Log.{IsNote, HasLimit};
ghost use Rattle.ec_theory.specs.Theories.{theory_of};
ghost use Rattle.ec_weight.specs.Weight.{weight_of};
ghost use Rattle.ec_accept.specs.Accepted.{IsAccepted, HasFiles, visible_count};
ghost use Rattle.ec_solve.specs.Found.{IsFound};
ghost use Rattle.ec_engine.specs.Answers.{end_of};
ghost use Rattle.ec_engine.specs.Refusals.{refusal_line};
ghost use Rattle.ec_engine.specs.Solve.{AreBounds, CanComplete, IsSolvable, IsSolveAnswered, IsWholeUnlessFailed};

use crate::narratives::put_list;
use crate::refusals::{refuse, refuse_file};
use ec_accept::{AcceptFault, Accepted, accept};
use ec_clause::ending::Ending;
use ec_edge::{Files, Sink, SinkFault};
use ec_lex::word::Word;
use ec_log::WriteFault;
use ec_solve::{Bounds, Found, search};
use ec_syntax::book::Refusal;
use std::alloc::Global;

/// How `solve` ended.
#[derive(Debug, PartialEq, Eq, Drop)]
pub enum SolveEnd {
    /// The list was put, ended so, and the log was written.
    Done(Ending),
    /// The line of the refusal was put; the log holds what it held.
    Refused(Refusal),
    /// The files failed, and nothing was put.
    Files,
    /// The sink failed, and a prefix of the text due was put.
    Out,
    /// There was no memory, and a prefix of a text due was put.
    Memory,
}

/// The truths that a search may find have at most so many values together, since all of them are held.
const MOST_VALUES: u64 = 1 << 28;

/// How `solve` ends with a refusal whose line was put, or wasn't.
fn refused(put: Result<Refusal, SinkFault>) -> SolveEnd
    ensures { result ≡ end_of SolveEnd.Refused SolveEnd.Out SolveEnd.Memory put }
{
    match put {
        Ok(refusal) => SolveEnd::Refused(refusal),
        Err(SinkFault::Failed) => SolveEnd::Out,
        Err(SinkFault::Memory) => SolveEnd::Memory,
    }
}

/// How `solve` ends with a list that was put, or wasn't.
fn done(put: Result<(), SinkFault>, ending: Ending) -> SolveEnd
    ensures { result ≡ end_of (λ _. SolveEnd.Done ending) SolveEnd.Out SolveEnd.Memory put }
{
    match put {
        Ok(()) => SolveEnd::Done(ending),
        Err(SinkFault::Failed) => SolveEnd::Out,
        Err(SinkFault::Memory) => SolveEnd::Memory,
    }
}

/// Whether a file is one of these.
fn is_among(file: &str, files: &[Word]) -> bool
    ensures yes { OnTrue result (Contains files.now file.now) }
    ensures no { OnFalse result (All (λ (name : List ℕ). name ≢ file.now) files.now) }
{
    for name in files {
        if name.text() == file {
            return true;
        }
    }
    false
}

/// Writes the log of what was found, and then puts its list.
fn tell<F: Files, O: Sink>(
    alloc: Global,
    files: &mut F,
    log: &str,
    accepted: &Accepted,
    found: &Found,
    out: &mut O,
) -> SolveEnd
    requires numbered { accepted.now.atoms ≡ accepted.now.theory.signature }
    requires few { length found.now.truths.items < 2 ^ 32 }
    requires notes { All IsNote found.now.log.notes }
    requires limit { HasLimit found.now.ending }
    requires few_notes { found.now.log.numbers.1 + length found.now.log.notes < 2 ^ 32 }
    ensures put { IsTrue (F.tells files.old) → (held : List ℕ → Option (List ℕ)) (file : List ℕ) (bounds : Bounds) → AllStay held (F.held files.old) →
        IsSolvable held file log.now bounds (theory_of accepted.now.theory) → IsFound (theory_of accepted.now.theory) bounds found.now.truths.items found.now.ending found.now.log →
        IsSolveAnswered held file log.now bounds (O.tells out.old) (O.bytes out.old) (O.bytes out.new) (F.held files.new log.now)
        (Rose (F.failed_starts files.old) (F.failed_starts files.new)) result }
    ensures nothing { result ≡ SolveEnd.Files → O.bytes out.new ≡ O.bytes out.old }
    ensures files { result ≡ SolveEnd.Files → Rose (F.faults files.old) (F.faults files.new) }
    ensures failed { result ≡ SolveEnd.Out → Rose (O.faults out.old) (O.faults out.new) }
    ensures refused { (r : Refusal) → result ≡ SolveEnd.Refused r → ⊥ }
    ensures others { OthersStay log.now (F.held files.old) (F.held files.new) }
    ensures tells { F.tells files.new ≡ F.tells files.old }
    ensures faults { F.faults files.old ≤ F.faults files.new }
    ensures absences { F.absences files.old ≤ F.absences files.new }
    ensures failed_starts { F.failed_starts files.old ≤ F.failed_starts files.new }
    ensures out_tells { O.tells out.new ≡ O.tells out.old }
    ensures out_faults { O.faults out.old ≤ O.faults out.new }
    ensures completes { is_complete found.now.ending ≡ true → IsWholeUnlessFailed result }
{
    match found.log.write(files, log, &found.ending) {
        Ok(()) => {
            let put = put_list(alloc, out, accepted, &found.truths, found.ending);
            done(put, found.ending)
        }
        Err(WriteFault::Failed) => SolveEnd::Files,
        Err(WriteFault::Memory) => SolveEnd::Memory,
    }
}

/// Searches for the truths of a theory, and tells what was found.
fn search_accepted<F: Files, O: Sink>(
    alloc: Global,
    files: &mut F,
    log: &str,
    bounds: Bounds,
    accepted: &Accepted,
    out: &mut O,
) -> SolveEnd
    requires bounds { AreBounds bounds }
    requires valid { IsValidTheory (theory_of accepted.now.theory) }
    requires numbered { accepted.now.atoms ≡ accepted.now.theory.signature }
    requires light { weight_of (theory_of accepted.now.theory) ≤ 4000000 }
    ensures put { IsTrue (F.tells files.old) → (held : List ℕ → Option (List ℕ)) (file : List ℕ) → AllStay held (F.held files.old) →
        IsSolvable held file log.now bounds (theory_of accepted.now.theory) →
        IsSolveAnswered held file log.now bounds (O.tells out.old) (O.bytes out.old) (O.bytes out.new) (F.held files.new log.now)
        (Rose (F.failed_starts files.old) (F.failed_starts files.new)) result }
    ensures nothing { result ≡ SolveEnd.Files → O.bytes out.new ≡ O.bytes out.old }
    ensures files { result ≡ SolveEnd.Files → Rose (F.faults files.old) (F.faults files.new) }
    ensures failed { result ≡ SolveEnd.Out → Rose (O.faults out.old) (O.faults out.new) }
    ensures refused { (r : Refusal) → result ≡ SolveEnd.Refused r → ⊥ }
    ensures others { OthersStay log.now (F.held files.old) (F.held files.new) }
    ensures tells { F.tells files.new ≡ F.tells files.old }
    ensures faults { F.faults files.old ≤ F.faults files.new }
    ensures absences { F.absences files.old ≤ F.absences files.new }
    ensures failed_starts { F.failed_starts files.old ≤ F.failed_starts files.new }
    ensures out_tells { O.tells out.new ≡ O.tells out.old }
    ensures out_faults { O.faults out.old ≤ O.faults out.new }
    ensures completes { CanComplete bounds (theory_of accepted.now.theory) → IsWholeUnlessFailed result }
{
    match search(alloc, &accepted.theory, &accepted.atoms, bounds) {
        Ok(found) => tell(alloc, files, log, accepted, &found, out),
        Err(_) => SolveEnd::Memory,
    }
}

/// Solves a theory, unless too many truths would have to be held, or the log would be written over a file that was read.
fn solve_accepted<F: Files, O: Sink>(
    alloc: Global,
    files: &mut F,
    file: &str,
    log: &str,
    bounds: Bounds,
    accepted: &Accepted,
    out: &mut O,
) -> SolveEnd
    requires bounds { AreBounds bounds }
    requires valid { IsValidTheory (theory_of accepted.now.theory) }
    requires numbered { accepted.now.atoms ≡ accepted.now.theory.signature }
    requires light { weight_of (theory_of accepted.now.theory) ≤ 4000000 }
    ensures put { IsTrue (F.tells files.old) → (held : List ℕ → Option (List ℕ)) → AllStay held (F.held files.old) →
        IsAccepted held file.now (Ok (theory_of accepted.now.theory)) → HasFiles held file.now accepted.now.files.items →
        IsSolveAnswered held file.now log.now bounds (O.tells out.old) (O.bytes out.old) (O.bytes out.new) (F.held files.new log.now)
        (Rose (F.failed_starts files.old) (F.failed_starts files.new)) result }
    ensures nothing { result ≡ SolveEnd.Files → O.bytes out.new ≡ O.bytes out.old }
    ensures files { result ≡ SolveEnd.Files → Rose (F.faults files.old) (F.faults files.new) }
    ensures failed { result ≡ SolveEnd.Out → Rose (O.faults out.old) (O.faults out.new) }
    ensures present { (r : Refusal) → result ≡ SolveEnd.Refused r → r.code ≡ 1 → ⊥ }
    ensures line { IsTrue (O.tells out.old) → (r : Refusal) → result ≡ SolveEnd.Refused r → O.bytes out.new ≡ O.bytes out.old ++ refusal_line r }
    ensures others { OthersStay log.now (F.held files.old) (F.held files.new) }
    ensures tells { F.tells files.new ≡ F.tells files.old }
    ensures faults { F.faults files.old ≤ F.faults files.new }
    ensures absences { F.absences files.old ≤ F.absences files.new }
    ensures failed_starts { F.failed_starts files.old ≤ F.failed_starts files.new }
    ensures out_tells { O.tells out.new ≡ O.tells out.old }
    ensures out_faults { O.faults out.old ≤ O.faults out.new }
    ensures completes { bounds.models * visible_count (theory_of accepted.now.theory) ≤ 2 ^ 28 → (Contains accepted.now.files.items log.now → ⊥) → CanComplete bounds (theory_of accepted.now.theory) →
        IsWholeUnlessFailed result }
{
    let values = bounds.models * u64::from(accepted.atoms.visible());
    if values > MOST_VALUES {
        return refused(refuse_file(alloc, out, 23, file, "models"));
    }
    if is_among(log, &accepted.files) {
        return refused(refuse_file(alloc, out, 24, file, log));
    }
    search_accepted(alloc, files, log, bounds, accepted, out)
}

/// Lists the narratives of a file by a search: the visible truths of the minimal models of what it says, in rising order, all of them or up to
/// the bounds; or its refusal. When the search has ended, the log of it is written, and then the list is put.
///
/// Memory grows with the weight of the file's theory, the derived clauses, and the truths times the visible atoms; time has no bound but that
/// of the conflicts.
pub fn solve<F: Files, O: Sink>(
    alloc: Global,
    files: &mut F,
    file: &str,
    log: &str,
    bounds: Bounds,
    out: &mut O,
) -> SolveEnd
    requires { AreBounds bounds }
    ensures put { IsTrue (F.tells files.old) →
        IsSolveAnswered (F.held files.old) file.now log.now bounds (O.tells out.old) (O.bytes out.old) (O.bytes out.new) (F.held files.new log.now)
        (Rose (F.failed_starts files.old) (F.failed_starts files.new)) result }
    ensures nothing { IsTrue (O.tells out.old) → result ≡ SolveEnd.Files → O.bytes out.new ≡ O.bytes out.old }
    ensures files { result ≡ SolveEnd.Files → Rose (F.faults files.old) (F.faults files.new) }
    ensures failed { result ≡ SolveEnd.Out → Rose (O.faults out.old) (O.faults out.new) }
    ensures absent { (r : Refusal) → result ≡ SolveEnd.Refused r → r.code ≡ 1 → Rose (F.absences files.old) (F.absences files.new) }
    ensures line { IsTrue (O.tells out.old) → (r : Refusal) → result ≡ SolveEnd.Refused r → O.bytes out.new ≡ O.bytes out.old ++ refusal_line r }
    ensures others { OthersStay log.now (F.held files.old) (F.held files.new) }

    // What told its bytes still does, and no count falls.
    ensures tells { F.tells files.new ≡ F.tells files.old }
    ensures faults { F.faults files.old ≤ F.faults files.new }
    ensures absences { F.absences files.old ≤ F.absences files.new }
    ensures failed_starts { F.failed_starts files.old ≤ F.failed_starts files.new }
    ensures out_tells { O.tells out.new ≡ O.tells out.old }
    ensures out_faults { O.faults out.old ≤ O.faults out.new }

    // The bounds don't cut a search short that can come to its end.
    ensures completes { IsTrue (F.tells files.old) → (theory : Theory) → IsSolvable (F.held files.old) file.now log.now bounds theory → CanComplete bounds theory → IsWholeUnlessFailed result }
{
    match accept(alloc, files, file) {
        Ok(accepted) => solve_accepted(alloc, files, file, log, bounds, &accepted, out),
        Err(AcceptFault::Refused(refusal)) => refused(refuse(alloc, out, refusal)),
        Err(AcceptFault::Files) => SolveEnd::Files,
        Err(AcceptFault::Memory) => SolveEnd::Memory,
    }
}
