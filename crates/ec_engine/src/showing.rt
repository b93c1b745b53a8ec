//! The command `show`.
ghost use Rattle.std.specs.Prelude.{◌≡◌, ◌≤◌, ◌++◌, List, ℕ, Option, Ok, length, IfOk, OnOk, OnErr, IsErrOf, IsTrue};
ghost use Rattle.ec_edge.specs.Causes.{Rose};
ghost use Rattle.ec_edge.specs.Pieces.{AllStay, AppendsPrefix};
ghost use Rattle.ec_logic.specs.ValidTheory.{IsValidTheory};
ghost use Rattle.ec_theory.specs.Theories.{theory_of};
ghost use Rattle.ec_weight.specs.Weight.{weight_of};
ghost use Rattle.ec_accept.specs.Accepted.{IsAccepted, HasFiles};
ghost use Rattle.ec_engine.specs.Answers.{end_of};
ghost use Rattle.ec_engine.specs.Refusals.{refusal_line};
ghost use Rattle.ec_engine.specs.Show.{AreCountsOf, count_line, counts_text, IsShowAnswered};

use crate::refusals::refuse;
use ec_accept::{AcceptFault, Accepted, accept};
use ec_edge::{Files, Sink, SinkFault, push_number, put_text};
use ec_solve::clauses_of;
use ec_syntax::book::Refusal;
use ec_weight::weight_of;
use std::alloc::{AllocError, Global};

/// How large a file's theory is.
#[derive(Clone, Copy, Debug, PartialEq, Eq)]
pub struct Counts {
    /// The files that are read, the root among them.
    pub files: u32,
    pub groups: u32,
    pub weight: u64,
    /// The visible atoms.
    pub atoms: u32,
    /// The variables of its clause list.
    pub variables: u32,
    pub clauses: u32,
}

/// How `show` ended.
#[derive(Debug, PartialEq, Eq, Drop)]
pub enum ShowEnd {
    /// A line for each count was put.
    Shown(Counts),
    /// The line of the refusal was put.
    Refused(Refusal),
    /// The files failed, and nothing was put.
    Files,
    /// The sink failed, and a prefix of the text due was put.
    Out,
    /// There was no memory, and a prefix of a text due was put.
    Memory,
}

/// How `show` ends with a refusal whose line was put, or wasn't.
fn refused(put: Result<Refusal, SinkFault>) -> ShowEnd
    ensures { result ≡ end_of ShowEnd.Refused ShowEnd.Out ShowEnd.Memory put }
{
    match put {
        Ok(refusal) => ShowEnd::Refused(refusal),
        Err(SinkFault::Failed) => ShowEnd::Out,
        Err(SinkFault::Memory) => ShowEnd::Memory,
    }
}

/// How `show` ends with counts that were put, or weren't.
fn shown(put: Result<(), SinkFault>, counts: Counts) -> ShowEnd
    ensures { result ≡ end_of (λ _. ShowEnd.Shown counts) ShowEnd.Out ShowEnd.Memory put }
{
    match put {
        Ok(()) => ShowEnd::Shown(counts),
        Err(SinkFault::Failed) => ShowEnd::Out,
        Err(SinkFault::Memory) => ShowEnd::Memory,
    }
}

/// Adds a line with a name and a number to a text.
pub fn push_count(out: &mut Vec<u8>, name: &[u8], n: u64) -> Result<(), AllocError>
    ensures { OnOk result (out.new.items ≡ out.old.items ++ count_line name.now n) }
{
    out.extend_from_slice(name)?;
    push_number(out, n)?;
    out.push(b'\n')?;
    Ok(())
}

/// A line for each count.
fn counts_text(alloc: Global, counts: &Counts) -> Result<Vec<u8>, AllocError>
    ensures { IfOk result (λ text. text.items ≡ counts_text counts.now) }
{
    let mut out = Vec::new(alloc);
    push_count(&mut out, b"files: ", u64::from(counts.files))?;
    push_count(&mut out, b"groups: ", u64::from(counts.groups))?;
    push_count(&mut out, b"weight: ", counts.weight)?;
    push_count(&mut out, b"atoms: ", u64::from(counts.atoms))?;
    push_count(&mut out, b"variables: ", u64::from(counts.variables))?;
    push_count(&mut out, b"clauses: ", u64::from(counts.clauses))?;
    Ok(out)
}

/// Puts a line for each count.
fn put_counts<O: Sink>(alloc: Global, out: &mut O, counts: &Counts) -> Result<(), SinkFault>
    ensures ok { IsTrue (O.tells out.old) → OnOk result (O.bytes out.new ≡ O.bytes out.old ++ counts_text counts.now) }
    ensures part { IsTrue (O.tells out.old) → OnErr result (AppendsPrefix (counts_text counts.now) (O.bytes out.old) (O.bytes out.new)) }
    ensures failed { IsErrOf result SinkFault.Failed → Rose (O.faults out.old) (O.faults out.new) }
    ensures tells { O.tells out.new ≡ O.tells out.old }
    ensures faults { O.faults out.old ≤ O.faults out.new }
{
    let text = counts_text(alloc, counts)?;
    put_text(out, &text)
}

/// How large a theory is.
fn counted(alloc: Global, accepted: &Accepted) -> Result<Counts, AllocError>
    requires valid { IsValidTheory (theory_of accepted.now.theory) }
    requires numbered { accepted.now.atoms ≡ accepted.now.theory.signature }
    requires light { weight_of (theory_of accepted.now.theory) ≤ 4000000 }
    requires few_files { length accepted.now.files.items ≤ 64 }
    ensures { IfOk result (AreCountsOf (theory_of accepted.now.theory) accepted.now.files.items) }
{
    let weight = weight_of(alloc, &accepted.theory)?;
    let list = clauses_of(alloc, &accepted.theory, &accepted.atoms)?;
    Ok(Counts {
        files: accepted.files.len() as u32,
        groups: accepted.theory.groups.len() as u32,
        weight,
        atoms: accepted.atoms.visible(),
        variables: list.clauses.variables(),
        clauses: list.clauses.len(),
    })
}

/// Shows how large a theory is.
fn show_accepted<O: Sink>(alloc: Global, accepted: &Accepted, out: &mut O) -> ShowEnd
    requires valid { IsValidTheory (theory_of accepted.now.theory) }
    requires numbered { accepted.now.atoms ≡ accepted.now.theory.signature }
    requires light { weight_of (theory_of accepted.now.theory) ≤ 4000000 }
    requires few_files { length accepted.now.files.items ≤ 64 }
    ensures put { (held : List ℕ → Option (List ℕ)) (file : List ℕ) → IsAccepted held file (Ok (theory_of accepted.now.theory)) → HasFiles held file accepted.now.files.items →
        IsShowAnswered held file (O.tells out.old) (O.bytes out.old) (O.bytes out.new) result }
    ensures files { result ≡ ShowEnd.Files → ⊥ }
    ensures failed { result ≡ ShowEnd.Out → Rose (O.faults out.old) (O.faults out.new) }
    ensures refused { (r : Refusal) → result ≡ ShowEnd.Refused r → ⊥ }
    ensures out_tells { O.tells out.new ≡ O.tells out.old }
    ensures out_faults { O.faults out.old ≤ O.faults out.new }
{
    match counted(alloc, accepted) {
        Ok(counts) => shown(put_counts(alloc, out, &counts), counts),
        Err(_) => ShowEnd::Memory,
    }
}

/// Shows how large a file's theory is: how many files it stands in, its groups, weight and visible atoms, and the variables and clauses of its
/// clause list, each on a line; or its refusal.
///
/// Time and memory grow with the weight.
pub fn show<F: Files, O: Sink>(alloc: Global, files: &mut F, file: &str, out: &mut O) -> ShowEnd
    ensures put { IsTrue (F.tells files.old) →
        IsShowAnswered (F.held files.old) file.now (O.tells out.old) (O.bytes out.old) (O.bytes out.new) result }
    ensures nothing { IsTrue (O.tells out.old) → result ≡ ShowEnd.Files → O.bytes out.new ≡ O.bytes out.old }
    ensures files { result ≡ ShowEnd.Files → Rose (F.faults files.old) (F.faults files.new) }
    ensures failed { result ≡ ShowEnd.Out → Rose (O.faults out.old) (O.faults out.new) }
    ensures absent { (r : Refusal) → result ≡ ShowEnd.Refused r → r.code ≡ 1 → Rose (F.absences files.old) (F.absences files.new) }
    ensures line { IsTrue (O.tells out.old) → (r : Refusal) → result ≡ ShowEnd.Refused r → O.bytes out.new ≡ O.bytes out.old ++ refusal_line r }
    ensures stays { AllStay (F.held files.old) (F.held files.new) }

    // What told its bytes still does, and no count falls.
    ensures tells { F.tells files.new ≡ F.tells files.old }
    ensures faults { F.faults files.old ≤ F.faults files.new }
    ensures absences { F.absences files.old ≤ F.absences files.new }
    ensures failed_starts { F.failed_starts files.new ≡ F.failed_starts files.old }
    ensures out_tells { O.tells out.new ≡ O.tells out.old }
    ensures out_faults { O.faults out.old ≤ O.faults out.new }
{
    match accept(alloc, files, file) {
        Ok(accepted) => show_accepted(alloc, &accepted, out),
        Err(AcceptFault::Refused(refusal)) => refused(refuse(alloc, out, refusal)),
        Err(AcceptFault::Files) => ShowEnd::Files,
        Err(AcceptFault::Memory) => ShowEnd::Memory,
    }
}
