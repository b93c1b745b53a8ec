//! The command `check`.
ghost use Rattle.std.specs.Prelude.{◌≡◌, ◌≤◌, ◌⊎◌, ◌++◌, List, ℕ, Option, Ok, OnOk, OnErr, IsErrOf, IsTrue};
ghost use Rattle.ec_edge.specs.Causes.{Rose};
ghost use Rattle.ec_edge.specs.Pieces.{AllStay, AppendsPrefix};
ghost use Rattle.ec_logic.specs.Listing.{ending_text};
ghost use Rattle.ec_logic.specs.Narrative.{line};
ghost use Rattle.ec_logic.specs.ValidTheory.{IsValidTheory};
ghost use Rattle.ec_listing.specs.Endings.{list_ending};
ghost use Rattle.ec_theory.specs.Theories.{theory_of};
ghost use Rattle.ec_split.specs.Parts.{parts_of};
ghost use Rattle.ec_weight.specs.Weight.{weight_of};
ghost use Rattle.ec_accept.specs.Accepted.{IsAccepted, HasParts};
ghost use Rattle.ec_evidence.specs.Found.{IsFound};
ghost use Rattle.ec_engine.specs.Answers.{end_of};
ghost use Rattle.ec_engine.specs.Check.{reason_line, IsCheckAnswered};
ghost use Rattle.ec_engine.specs.Refusals.{refusal_line};

use crate::narratives::last_line;
use crate::reasons::reason_line;
use crate::refusals::{refuse, refuse_file};
use ec_accept::{AcceptFault, Accepted, accept};
use ec_clause::ending::Ending;
use ec_edge::{Files, Sink, SinkFault, put_text};
use ec_evidence::{Finding, Reason, find};
use ec_syntax::book::Refusal;
use ec_theory::Theory;
use std::alloc::Global;

/// How `check` ended.
#[derive(Debug, PartialEq, Eq, Drop)]
pub enum CheckEnd {
    /// The list is one of the file's narratives, and the log is accepted for it; the list's last line was put. A list that is ended as
    /// complete has all of them.
    Yes(Ending),
    /// The line that says what is wrong first was put.
    No(Reason),
    /// The line of the refusal was put: that of the file, or of a list or a log that isn't there.
    Refused(Refusal),
    /// The files failed, and nothing was put.
    Files,
    /// The sink failed, and a prefix of the text due was put.
    Out,
    /// There was no memory, and a prefix of a text due was put.
    Memory,
}

/// How `check` ends with a refusal whose line was put, or wasn't.
fn refused(put: Result<Refusal, SinkFault>) -> CheckEnd
    ensures { result ≡ end_of CheckEnd.Refused CheckEnd.Out CheckEnd.Memory put }
{
    match put {
        Ok(refusal) => CheckEnd::Refused(refusal),
        Err(SinkFault::Failed) => CheckEnd::Out,
        Err(SinkFault::Memory) => CheckEnd::Memory,
    }
}

/// How `check` ends with a list that is shown, once its last line was put, or wasn't.
fn shown(put: Result<(), SinkFault>, ending: Ending) -> CheckEnd
    ensures { result ≡ end_of (λ _. CheckEnd.Yes ending) CheckEnd.Out CheckEnd.Memory put }
{
    match put {
        Ok(()) => CheckEnd::Yes(ending),
        Err(SinkFault::Failed) => CheckEnd::Out,
        Err(SinkFault::Memory) => CheckEnd::Memory,
    }
}

/// How `check` ends with something wrong, once its line was put, or wasn't.
fn wrong(put: Result<(), SinkFault>, why: Reason) -> CheckEnd
    ensures { result ≡ end_of (λ _. CheckEnd.No why) CheckEnd.Out CheckEnd.Memory put }
{
    match put {
        Ok(()) => CheckEnd::No(why),
        Err(SinkFault::Failed) => CheckEnd::Out,
        Err(SinkFault::Memory) => CheckEnd::Memory,
    }
}

/// Puts the last line of a list that ends so.
fn put_ending<O: Sink>(alloc: Global, out: &mut O, ending: Ending) -> Result<(), SinkFault>
    ensures ok { IsTrue (O.tells out.old) → OnOk result (O.bytes out.new ≡ O.bytes out.old ++ line (ending_text (list_ending ending))) }
    ensures part { IsTrue (O.tells out.old) → OnErr result (AppendsPrefix (line (ending_text (list_ending ending))) (O.bytes out.old) (O.bytes out.new)) }
    ensures failed { IsErrOf result SinkFault.Failed → Rose (O.faults out.old) (O.faults out.new) }
    ensures tells { O.tells out.new ≡ O.tells out.old }
    ensures faults { O.faults out.old ≤ O.faults out.new }
{
    let text = last_line(alloc, ending)?;
    put_text(out, &text)
}

/// Puts the line that says what is wrong.
fn put_reason<O: Sink>(
    alloc: Global,
    out: &mut O,
    theory: &Theory,
    why: Reason,
) -> Result<(), SinkFault>
    ensures ok { IsTrue (O.tells out.old) → OnOk result (O.bytes out.new ≡ O.bytes out.old ++ reason_line (parts_of theory.now) why) }
    ensures part { IsTrue (O.tells out.old) → OnErr result (AppendsPrefix (reason_line (parts_of theory.now) why) (O.bytes out.old) (O.bytes out.new)) }
    ensures failed { IsErrOf result SinkFault.Failed → Rose (O.faults out.old) (O.faults out.new) }
    ensures tells { O.tells out.new ≡ O.tells out.old }
    ensures faults { O.faults out.old ≤ O.faults out.new }
{
    let text = reason_line(alloc, theory, why)?;
    put_text(out, &text)
}

/// Tells what was found of a list and a log.
fn tell<O: Sink>(
    alloc: Global,
    list: &str,
    log: &str,
    theory: &Theory,
    finding: Finding,
    out: &mut O,
) -> CheckEnd
    ensures put { (held : List ℕ → Option (List ℕ)) (file : List ℕ) → IsAccepted held file (Ok (theory_of theory.now)) → HasParts held file (parts_of theory.now) →
        IsFound held list.now log.now (theory_of theory.now) finding →
        IsCheckAnswered held file list.now log.now (O.tells out.old) (O.bytes out.old) (O.bytes out.new) result }
    ensures nothing { result ≡ CheckEnd.Files → O.bytes out.new ≡ O.bytes out.old }
    ensures files { result ≡ CheckEnd.Files → finding ≡ Finding.Files }
    ensures failed { result ≡ CheckEnd.Out → Rose (O.faults out.old) (O.faults out.new) }
    ensures absent { (r : Refusal) → result ≡ CheckEnd.Refused r → (finding ≡ Finding.NoList) ⊎ (finding ≡ Finding.NoLog) }
    ensures line { IsTrue (O.tells out.old) → (r : Refusal) → result ≡ CheckEnd.Refused r → O.bytes out.new ≡ O.bytes out.old ++ refusal_line r }
    ensures out_tells { O.tells out.new ≡ O.tells out.old }
    ensures out_faults { O.faults out.old ≤ O.faults out.new }
{
    match finding {
        Finding::Yes(ending) => shown(put_ending(alloc, out, ending), ending),
        Finding::No(why) => wrong(put_reason(alloc, out, theory, why), why),
        Finding::NoList => refused(refuse_file(alloc, out, 1, list, list)),
        Finding::NoLog => refused(refuse_file(alloc, out, 1, log, log)),
        Finding::Files => CheckEnd::Files,
        Finding::Memory => CheckEnd::Memory,
    }
}

/// Checks a list and a log of a theory.
fn check_accepted<F: Files, O: Sink>(
    alloc: Global,
    files: &mut F,
    list: &str,
    log: &str,
    accepted: &Accepted,
    out: &mut O,
) -> CheckEnd
    requires valid { IsValidTheory (theory_of accepted.now.theory) }
    requires numbered { accepted.now.atoms ≡ accepted.now.theory.signature }
    requires light { weight_of (theory_of accepted.now.theory) ≤ 4000000 }
    ensures put { IsTrue (F.tells files.old) → (held : List ℕ → Option (List ℕ)) (file : List ℕ) → AllStay held (F.held files.old) →
        IsAccepted held file (Ok (theory_of accepted.now.theory)) → HasParts held file (parts_of accepted.now.theory) →
        IsCheckAnswered held file list.now log.now (O.tells out.old) (O.bytes out.old) (O.bytes out.new) result }
    ensures nothing { result ≡ CheckEnd.Files → O.bytes out.new ≡ O.bytes out.old }
    ensures files { result ≡ CheckEnd.Files → Rose (F.faults files.old) (F.faults files.new) }
    ensures failed { result ≡ CheckEnd.Out → Rose (O.faults out.old) (O.faults out.new) }
    ensures absent { (r : Refusal) → result ≡ CheckEnd.Refused r → Rose (F.absences files.old) (F.absences files.new) }
    ensures line { IsTrue (O.tells out.old) → (r : Refusal) → result ≡ CheckEnd.Refused r → O.bytes out.new ≡ O.bytes out.old ++ refusal_line r }
    ensures stays { AllStay (F.held files.old) (F.held files.new) }
    ensures tells { F.tells files.new ≡ F.tells files.old }
    ensures faults { F.faults files.old ≤ F.faults files.new }
    ensures absences { F.absences files.old ≤ F.absences files.new }
    ensures failed_starts { F.failed_starts files.new ≡ F.failed_starts files.old }
    ensures out_tells { O.tells out.new ≡ O.tells out.old }
    ensures out_faults { O.faults out.old ≤ O.faults out.new }
{
    let finding = find(alloc, files, &accepted.theory, &accepted.atoms, list, log);
    tell(alloc, list, log, &accepted.theory, finding, out)
}

/// Checks a list and a log of a file, whoever wrote them: whether each narrative of the list is one of the file's, and whether the log shows
/// that the list ends as it says. A list that is ended as complete then has all narratives of the file, and no other. One line is put: the
/// list's last line, or what is wrong first with the list or the log, or a refusal, that of the file or of a list or a log that isn't there.
///
/// Nothing is searched for. Time is that of grounding the theory, linear in the bytes of the list and of the log, and for each narrative at
/// most linear in the visible atoms and the theory's trees. Memory grows with the weight of the theory, the list, and the log's clauses.
pub fn check<F: Files, O: Sink>(
    alloc: Global,
    files: &mut F,
    file: &str,
    list: &str,
    log: &str,
    out: &mut O,
) -> CheckEnd
    ensures put { IsTrue (F.tells files.old) →
        IsCheckAnswered (F.held files.old) file.now list.now log.now (O.tells out.old) (O.bytes out.old) (O.bytes out.new) result }
    ensures nothing { IsTrue (O.tells out.old) → result ≡ CheckEnd.Files → O.bytes out.new ≡ O.bytes out.old }
    ensures files { result ≡ CheckEnd.Files → Rose (F.faults files.old) (F.faults files.new) }
    ensures failed { result ≡ CheckEnd.Out → Rose (O.faults out.old) (O.faults out.new) }
    ensures absent { (r : Refusal) → result ≡ CheckEnd.Refused r → r.code ≡ 1 → Rose (F.absences files.old) (F.absences files.new) }
    ensures line { IsTrue (O.tells out.old) → (r : Refusal) → result ≡ CheckEnd.Refused r → O.bytes out.new ≡ O.bytes out.old ++ refusal_line r }
    ensures stays { AllStay (F.held files.old) (F.held files.new) }

    // What told its bytes still does, and no count falls.
    ensures tells { F.tells files.new ≡ F.tells files.old }
    ensures faults { F.faults files.old ≤ F.faults files.new }
    ensures absences { F.absences files.old ≤ F.absences files.new }
    ensures failed_starts { F.failed_starts files.new ≡ F.failed_starts files.old }
    ensures out_tells { O.tells out.new ≡ O.tells out.old }
    ensures out_faults { O.faults out.old ≤ O.faults out.new }
{
    match accept(alloc, files, file) {
        Ok(accepted) => check_accepted(alloc, files, list, log, &accepted, out),
        Err(AcceptFault::Refused(refusal)) => refused(refuse(alloc, out, refusal)),
        Err(AcceptFault::Files) => CheckEnd::Files,
        Err(AcceptFault::Memory) => CheckEnd::Memory,
    }
}
