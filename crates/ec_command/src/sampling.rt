//! The run of a sample: a valid input is made, solved and checked, stage by stage.
ghost use Rattle.std.specs.Prelude.{◌≡◌, ◌≤◌, List, ℕ, Err, IsTrue, MatchResult, OnOk, IfOk};
ghost use Rattle.ec_edge.specs.Causes.{Rose};
ghost use Rattle.ec_edge.specs.Pieces.{AllStay, OthersStay};
ghost use Rattle.ec_engine.specs.Answers.{end_of};
ghost use Rattle.ec_command.specs.Run.{PutsRefusal};
ghost use Rattle.ec_command.specs.Sample.{Held, IsListedSample, IsSampleName, sample_list, sample_log};
ghost use Rattle.ec_command.specs.SampleRun.{IsSampleRun};
ghost use Rattle.ec_command.specs.Stages.{HasChecked, HasMade, HasSolved, IsSize, IsStop, IsWorked};
ghost use Rattle.ec_command.specs.Words.{IsSteps};

use crate::making::{FILE, LIST, LOG, Stop, make, write_text};
use crate::options::default_bounds;
use crate::reporting::{put_report, reported};
use crate::status::Status;
use ec_accept::{AcceptFault, accept};
use ec_clause::ending::Ending;
use ec_edge::{Files, KeptSink, Sink, SinkFault};
use ec_engine::{CheckEnd, SolveEnd, check, refuse, solve};
use ec_syntax::book::Refusal;
use ec_weight::weight_of;
use std::alloc::Global;

/// How large the theory of a sample is.
#[derive(Clone, Copy, Debug, PartialEq, Eq)]
pub struct Size {
    pub weight: u64,
    /// The visible atoms.
    pub atoms: u32,
}

/// What the search put, and how it ended.
#[derive(Drop)]
pub struct Solved {
    pub ending: Ending,
    pub list: KeptSink,
}

/// What the report of a sample tells.
#[derive(Drop)]
pub struct Sampled {
    pub size: Size,
    pub solved: Solved,
    /// What the check put.
    pub verdict: KeptSink,
}

/// The size of the sample's theory.
fn measure<F: Files>(alloc: Global, files: &mut F) -> Result<Size, Stop>
    ensures put { IsTrue (F.tells files.old) → (n : ℕ) (held : Held) (starts : ℕ) → IsSteps n → HasMade n held (F.held files.old) →
        MatchResult result (λ size. IsSize n size) (λ why. IsStop n held (F.held files.new) (Rose starts (F.failed_starts files.new)) why) }
    ensures failed { result ≡ Err Stop.Files → Rose (F.faults files.old) (F.faults files.new) }
    ensures absent { (r : Refusal) → result ≡ Err (Stop.Refused r) → r.code ≡ 1 → Rose (F.absences files.old) (F.absences files.new) }
    ensures stays { AllStay (F.held files.old) (F.held files.new) }
    ensures tells { F.tells files.new ≡ F.tells files.old }
    ensures faults { F.faults files.old ≤ F.faults files.new }
    ensures absences { F.absences files.old ≤ F.absences files.new }
    ensures failed_starts { F.failed_starts files.old ≤ F.failed_starts files.new }
{
    match accept(alloc, files, FILE) {
        Ok(accepted) => match weight_of(alloc, &accepted.theory) {
            Ok(weight) => Ok(Size {
                weight,
                atoms: accepted.atoms.visible(),
            }),
            Err(_) => Err(Stop::Memory),
        },
        Err(AcceptFault::Refused(refusal)) => Err(Stop::Refused(refusal)),
        Err(AcceptFault::Files) => Err(Stop::Files),
        Err(AcceptFault::Memory) => Err(Stop::Memory),
    }
}

/// Solves the sample with the default bounds.
fn search<F: Files>(alloc: Global, files: &mut F) -> Result<Solved, Stop>
    ensures put { IsTrue (F.tells files.old) → (n : ℕ) (held : Held) (starts : ℕ) → starts ≤ F.failed_starts files.old → IsSteps n → HasMade n held (F.held files.old) →
        MatchResult result (λ solved. HasSolved n held (F.held files.new) solved.ending solved.list)
        (λ why. IsStop n held (F.held files.new) (Rose starts (F.failed_starts files.new)) why) }
    ensures failed { result ≡ Err Stop.Files → Rose (F.faults files.old) (F.faults files.new) }
    ensures absent { (r : Refusal) → result ≡ Err (Stop.Refused r) → r.code ≡ 1 → Rose (F.absences files.old) (F.absences files.new) }
    ensures others { OthersStay sample_log (F.held files.old) (F.held files.new) }
    ensures tells { F.tells files.new ≡ F.tells files.old }
    ensures faults { F.faults files.old ≤ F.faults files.new }
    ensures absences { F.absences files.old ≤ F.absences files.new }
    ensures failed_starts { F.failed_starts files.old ≤ F.failed_starts files.new }
{
    let mut list = KeptSink::new(alloc);
    match solve(alloc, files, FILE, LOG, default_bounds(), &mut list) {
        SolveEnd::Done(ending) => Ok(Solved { ending, list }),
        SolveEnd::Refused(refusal) => Err(Stop::Refused(refusal)),
        SolveEnd::Files => Err(Stop::Files),
        SolveEnd::Out => unreachable!(),
        SolveEnd::Memory => Err(Stop::Memory),
    }
}

/// Writes the list that the search put.
fn write_list<F: Files>(files: &mut F, solved: &Solved) -> Result<(), Stop>
    ensures put { IsTrue (F.tells files.old) → (n : ℕ) (held : Held) (starts : ℕ) → starts ≤ F.failed_starts files.old → IsSteps n →
        HasSolved n held (F.held files.old) solved.now.ending solved.now.list →
        MatchResult result (λ _. IsListedSample n (F.held files.new) solved.now.ending solved.now.list)
        (λ why. IsStop n held (F.held files.new) (Rose starts (F.failed_starts files.new)) why) }
    ensures never_refused { (r : Refusal) → result ≡ Err (Stop.Refused r) → ⊥ }
    ensures failed { result ≡ Err Stop.Files → Rose (F.faults files.old) (F.faults files.new) }
    ensures others { OthersStay sample_list (F.held files.old) (F.held files.new) }
    ensures tells { F.tells files.new ≡ F.tells files.old }
    ensures faults { F.faults files.old ≤ F.faults files.new }
    ensures absences { F.absences files.old ≤ F.absences files.new }
    ensures failed_starts { F.failed_starts files.old ≤ F.failed_starts files.new }
{
    write_text(files, LIST, solved.list.bytes())
}

/// Checks the list and the log of the sample, and gives what was put.
fn judge<F: Files>(alloc: Global, files: &mut F) -> Result<KeptSink, Stop>
    ensures put { IsTrue (F.tells files.old) → (n : ℕ) (held : Held) (starts : ℕ) (ending : Ending) (list : List ℕ) → IsSteps n → IsListedSample n (F.held files.old) ending list →
        MatchResult result (λ verdict. HasChecked n (F.held files.new) ending list verdict)
        (λ why. IsStop n held (F.held files.new) (Rose starts (F.failed_starts files.new)) why) }
    ensures failed { result ≡ Err Stop.Files → Rose (F.faults files.old) (F.faults files.new) }
    ensures absent { (r : Refusal) → result ≡ Err (Stop.Refused r) → r.code ≡ 1 → Rose (F.absences files.old) (F.absences files.new) }
    ensures stays { AllStay (F.held files.old) (F.held files.new) }
    ensures tells { F.tells files.new ≡ F.tells files.old }
    ensures faults { F.faults files.old ≤ F.faults files.new }
    ensures absences { F.absences files.old ≤ F.absences files.new }
    ensures failed_starts { F.failed_starts files.old ≤ F.failed_starts files.new }
{
    let mut verdict = KeptSink::new(alloc);
    match check(alloc, files, FILE, LIST, LOG, &mut verdict) {
        CheckEnd::Yes(_) | CheckEnd::No(_) => Ok(verdict),
        CheckEnd::Refused(refusal) => Err(Stop::Refused(refusal)),
        CheckEnd::Files => Err(Stop::Files),
        CheckEnd::Out => unreachable!(),
        CheckEnd::Memory => Err(Stop::Memory),
    }
}

/// Makes the sample, solves it, writes the list, and checks it.
fn work<F: Files>(alloc: Global, n: u32, files: &mut F) -> Result<Sampled, Stop>
    requires { IsSteps n }
    ensures put { IsTrue (F.tells files.old) →
        MatchResult result (λ sampled. IsWorked n (F.held files.new) sampled)
        (λ why. IsStop n (F.held files.old) (F.held files.new) (Rose (F.failed_starts files.old) (F.failed_starts files.new)) why) }
    ensures failed { result ≡ Err Stop.Files → Rose (F.faults files.old) (F.faults files.new) }
    ensures absent { (r : Refusal) → result ≡ Err (Stop.Refused r) → r.code ≡ 1 → Rose (F.absences files.old) (F.absences files.new) }
    ensures stays { (name : List ℕ) → (IsSampleName name → ⊥) → F.held files.new name ≡ F.held files.old name }
    ensures tells { F.tells files.new ≡ F.tells files.old }
    ensures faults { F.faults files.old ≤ F.faults files.new }
    ensures absences { F.absences files.old ≤ F.absences files.new }
    ensures failed_starts { F.failed_starts files.old ≤ F.failed_starts files.new }
{
    make(alloc, n, files)?;
    let size = measure(alloc, files)?;
    let solved = search(alloc, files)?;
    write_list(files, &solved)?;
    let verdict = judge(alloc, files)?;
    Ok(Sampled {
        size,
        solved,
        verdict,
    })
}

/// How the run ends with a refusal whose line was put, or wasn't.
fn refused(put: &Result<Refusal, SinkFault>) -> Status
    ensures { result ≡ end_of (λ _. Status.Refused) Status.OutFault Status.NoMemory put.now }
{
    match put {
        Ok(_) => Status::Refused,
        Err(SinkFault::Failed) => Status::OutFault,
        Err(SinkFault::Memory) => Status::NoMemory,
    }
}

/// Makes the sample of n steps under `sample.e`, solves it with the default bounds and the log `sample.log`, writes the list under
/// `sample.out`, checks both, and puts four lines: `weight: n` and `atoms: n` of its theory, and `solve: ` and `check: ` with the last line
/// of each command. n is from 1 to 40. What the three names held before is lost.
///
/// The status is that of the search, Complete or Limit, unless something failed. Clause `put` says, where the files tell what they hold, that
/// the three names then hold the text, the list and the log, and what is due for the search and the check holds of them; and after a fault
/// or want of memory, which of them hold their text, a prefix of it, or what they held. Over files that don't tell what they hold a command
/// may refuse the sample: then the line of the refusal is put alone. All other names hold what they held.
///
/// Time and memory are those of `solve` and `check` on a theory whose weight grows with the fourth power of n.
pub fn sample_run<F: Files, O: Sink>(alloc: Global, n: u32, files: &mut F, out: &mut O) -> Status
    requires { IsSteps n }
    ensures put { IsTrue (F.tells files.old) →
        IsSampleRun n (F.held files.old) (F.held files.new) (O.tells out.old) (O.bytes out.old) (O.bytes out.new)
        (Rose (F.failed_starts files.old) (F.failed_starts files.new)) result }
    ensures nothing { IsTrue (O.tells out.old) → result ≡ Status.FilesFault → O.bytes out.new ≡ O.bytes out.old }
    ensures files_fault { result ≡ Status.FilesFault → Rose (F.faults files.old) (F.faults files.new) }
    ensures out_fault { result ≡ Status.OutFault → Rose (O.faults out.old) (O.faults out.new) }
    ensures no_usage { result ≡ Status.Usage → ⊥ }
    ensures never_no { result ≡ Status.No → ⊥ }
    ensures refused { result ≡ Status.Refused →
        PutsRefusal (O.tells out.old) (O.bytes out.old) (O.bytes out.new) (F.absences files.old) (F.absences files.new) }

    // All other names hold what they held, whatever the status.
    ensures stays { (name : List ℕ) → (IsSampleName name → ⊥) → F.held files.new name ≡ F.held files.old name }

    // What told what it holds or has still does, and no count falls.
    ensures tells { F.tells files.new ≡ F.tells files.old }
    ensures faults { F.faults files.old ≤ F.faults files.new }
    ensures absences { F.absences files.old ≤ F.absences files.new }
    ensures failed_starts { F.failed_starts files.old ≤ F.failed_starts files.new }
    ensures out_tells { O.tells out.new ≡ O.tells out.old }
    ensures out_faults { O.faults out.old ≤ O.faults out.new }
{
    match work(alloc, n, files) {
        Ok(sampled) => {
            let put = put_report(alloc, out, &sampled);
            reported(put, sampled.solved.ending)
        }
        Err(Stop::Refused(refusal)) => refused(&refuse(alloc, out, refusal)),
        Err(Stop::Files) => Status::FilesFault,
        Err(Stop::Memory) => Status::NoMemory,
    }
}
