//! The command `list`.
ghost use Rattle.std.specs.Prelude.{◌≡◌, ◌≤◌, ◌<◌, ◌^◌, ◌++◌, length, List, ℕ, Option, Ok, IsTrue};
ghost use Rattle.ec_edge.specs.Causes.{Rose};
ghost use Rattle.ec_edge.specs.Pieces.{AllStay};
ghost use Rattle.ec_logic.specs.Listing.{complete, list_text};
ghost use Rattle.ec_logic.specs.ValidTheory.{IsValidTheory};
ghost use Rattle.ec_theory.specs.Theories.{theory_of};
ghost use Rattle.ec_accept.specs.Accepted.{IsAccepted};
ghost use Rattle.ec_engine.specs.List.{IsAnswered, IsListed};
ghost use Rattle.ec_engine.specs.Refusals.{refusal_line};
ghost use Rattle.ec_engine.specs.Answers.{end_of};

use crate::narratives::put_list;
use crate::refusals::{refuse, refuse_file};
use ec_accept::{AcceptFault, Accepted, accept};
use ec_clause::ending::Ending;
use ec_edge::{Files, Sink, SinkFault};
use ec_models::models;
use ec_row::Row;
use ec_syntax::book::Refusal;
use std::alloc::Global;

/// How `list` ended.
#[derive(Debug, PartialEq, Eq, Drop)]
pub enum ListEnd {
    /// The list was put; it has so many narratives.
    Complete(u64),
    /// The line of the refusal was put.
    Refused(Refusal),
    /// The files failed, and nothing was put.
    Files,
    /// The sink failed, and a prefix of the text due was put.
    Out,
    /// There was no memory, and a prefix of a text due was put.
    Memory,
}

/// A list has at most so many visible atoms, since each of their truths is tried.
const MOST_ATOMS: u32 = 16;

/// How `list` ends with a refusal whose line was put, or wasn't.
fn refused(put: Result<Refusal, SinkFault>) -> ListEnd
    ensures { result ≡ end_of ListEnd.Refused ListEnd.Out ListEnd.Memory put }
{
    match put {
        Ok(refusal) => ListEnd::Refused(refusal),
        Err(SinkFault::Failed) => ListEnd::Out,
        Err(SinkFault::Memory) => ListEnd::Memory,
    }
}

/// How `list` ends with a list of so many narratives that was put, or wasn't.
fn listed(put: Result<(), SinkFault>, count: u64) -> ListEnd
    ensures { result ≡ end_of (λ _. ListEnd.Complete count) ListEnd.Out ListEnd.Memory put }
{
    match put {
        Ok(()) => ListEnd::Complete(count),
        Err(SinkFault::Failed) => ListEnd::Out,
        Err(SinkFault::Memory) => ListEnd::Memory,
    }
}

/// Puts the list of the truths of a theory's minimal models.
fn list_truths<O: Sink>(alloc: Global, out: &mut O, accepted: &Accepted, truths: &[Row]) -> ListEnd
    requires numbered { accepted.now.atoms ≡ accepted.now.theory.signature }
    requires few { length truths.now < 2 ^ 32 }
    ensures put { (held : List ℕ → Option (List ℕ)) (file : List ℕ) →
        IsListed held file (length truths.now) (list_text accepted.now.theory.signature truths.now (complete (length truths.now))) →
        IsAnswered held file (O.tells out.old) (O.bytes out.old) (O.bytes out.new) result }
    ensures files { result ≡ ListEnd.Files → ⊥ }
    ensures failed { result ≡ ListEnd.Out → Rose (O.faults out.old) (O.faults out.new) }
    ensures refused { (r : Refusal) → result ≡ ListEnd.Refused r → ⊥ }
    ensures out_tells { O.tells out.new ≡ O.tells out.old }
    ensures out_faults { O.faults out.old ≤ O.faults out.new }
{
    let count = truths.len() as u64;
    let put = put_list(alloc, out, accepted, truths, Ending::Complete(count));
    listed(put, count)
}

/// Lists the narratives of a theory, unless it has too many visible atoms.
fn list_accepted<O: Sink>(alloc: Global, file: &str, accepted: &Accepted, out: &mut O) -> ListEnd
    requires valid { IsValidTheory (theory_of accepted.now.theory) }
    requires numbered { accepted.now.atoms ≡ accepted.now.theory.signature }
    ensures put { (held : List ℕ → Option (List ℕ)) → IsAccepted held file.now (Ok (theory_of accepted.now.theory)) →
        IsAnswered held file.now (O.tells out.old) (O.bytes out.old) (O.bytes out.new) result }
    ensures files { result ≡ ListEnd.Files → ⊥ }
    ensures failed { result ≡ ListEnd.Out → Rose (O.faults out.old) (O.faults out.new) }
    ensures refused { (r : Refusal) → result ≡ ListEnd.Refused r → r.code ≡ 21 }
    ensures line { IsTrue (O.tells out.old) → (r : Refusal) → result ≡ ListEnd.Refused r → O.bytes out.new ≡ O.bytes out.old ++ refusal_line r }
    ensures out_tells { O.tells out.new ≡ O.tells out.old }
    ensures out_faults { O.faults out.old ≤ O.faults out.new }
{
    if accepted.atoms.visible() > MOST_ATOMS {
        return refused(refuse_file(alloc, out, 21, file, "atoms"));
    }
    match models(alloc, &accepted.theory, &accepted.atoms) {
        Ok(truths) => list_truths(alloc, out, accepted, &truths),
        Err(_) => ListEnd::Memory,
    }
}

/// Lists the narratives of a file: the visible truths of all minimal models of what it says, in
/// rising order, or its refusal.
///
/// It tries each truth of the visible atoms, at most 2^16, and holds those found and one narrative.
pub fn list<F: Files, O: Sink>(alloc: Global, files: &mut F, file: &str, out: &mut O) -> ListEnd
    ensures put { IsTrue (F.tells files.old) →
        IsAnswered (F.held files.old) file.now (O.tells out.old) (O.bytes out.old) (O.bytes out.new) result }
    ensures nothing { IsTrue (O.tells out.old) → result ≡ ListEnd.Files → O.bytes out.new ≡ O.bytes out.old }
    ensures files { result ≡ ListEnd.Files → Rose (F.faults files.old) (F.faults files.new) }
    ensures failed { result ≡ ListEnd.Out → Rose (O.faults out.old) (O.faults out.new) }
    ensures absent { (r : Refusal) → result ≡ ListEnd.Refused r → r.code ≡ 1 → Rose (F.absences files.old) (F.absences files.new) }
    ensures line { IsTrue (O.tells out.old) → (r : Refusal) → result ≡ ListEnd.Refused r → O.bytes out.new ≡ O.bytes out.old ++ refusal_line r }
    ensures stays { AllStay (F.held files.old) (F.held files.new) }

    // What told its bytes still does, and no count falls.
    ensures tells { F.tells files.new ≡ F.tells files.old }
    ensures faults { F.faults files.old ≤ F.faults files.new }
    ensures absences { F.absences files.old ≤ F.absences files.new }
    ensures failed_starts { F.failed_starts files.new ≡ F.failed_starts files.old }
    ensures out_tells { O.tells out.new ≡ O.tells out.old }
    ensures out_faults { O.faults out.old ≤ O.faults out.new }
{
    match accept(alloc, files, file) {
        Ok(accepted) => list_accepted(alloc, file, &accepted, out),
        Err(AcceptFault::Refused(refusal)) => refused(refuse(alloc, out, refusal)),
        Err(AcceptFault::Files) => ListEnd::Files,
        Err(AcceptFault::Memory) => ListEnd::Memory,
    }
}
