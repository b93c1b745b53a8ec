//! The top call.
ghost use Rattle.std.specs.Prelude.{◌≡◌, ◌≤◌, List, ℕ, Option, Some, None, map, IsTrue};
ghost use Rattle.std.specs.String.{string_bytes};
ghost use Rattle.ec_edge.specs.Causes.{Rose};
ghost use Rattle.ec_command.specs.Run.{Completes, IsRun, IsNoJobAnswer, PutsRefusal, Writes};
ghost use Rattle.ec_command.specs.Words.{job_of, HasBounds};

use crate::ends::{check_status, list_status, show_status, solve_status};
use crate::sampling::sample_run;
use crate::status::Status;
use crate::words::{Job, JobFault, read_words};
use ec_edge::{Files, Sink, SinkFault, put_text};
use ec_engine::{check, list, show, solve};
use std::alloc::Global;

/// Says that the words are no job.
fn usage<O: Sink>(out: &mut O) -> Status
    ensures put { IsNoJobAnswer (O.tells out.old) (O.bytes out.old) (O.bytes out.new) result }
    ensures out_fault { result ≡ Status.OutFault → Rose (O.faults out.old) (O.faults out.new) }
    ensures out_tells { O.tells out.new ≡ O.tells out.old }
    ensures out_faults { O.faults out.old ≤ O.faults out.new }
{
    match put_text(out, b"usage\n") {
        Ok(()) => Status::Usage,
        Err(SinkFault::Failed) => Status::OutFault,
        Err(SinkFault::Memory) => Status::NoMemory,
    }
}

fn do_job<F: Files, O: Sink>(alloc: Global, job: &Job, files: &mut F, out: &mut O) -> Status
    requires { HasBounds job.now }
    ensures put { IsTrue (F.tells files.old) → (words : List (List ℕ)) → job_of words ≡ Some job.now →
        IsRun words (F.held files.old) (F.held files.new) (O.tells out.old) (O.bytes out.old) (O.bytes out.new)
        (Rose (F.failed_starts files.old) (F.failed_starts files.new)) result }
    ensures nothing { IsTrue (O.tells out.old) → result ≡ Status.FilesFault → O.bytes out.new ≡ O.bytes out.old }
    ensures files_fault { result ≡ Status.FilesFault → Rose (F.faults files.old) (F.faults files.new) }
    ensures out_fault { result ≡ Status.OutFault → Rose (O.faults out.old) (O.faults out.new) }
    ensures no_usage { result ≡ Status.Usage → ⊥ }
    ensures refused { result ≡ Status.Refused →
        PutsRefusal (O.tells out.old) (O.bytes out.old) (O.bytes out.new) (F.absences files.old) (F.absences files.new) }
    ensures stays { (name : List ℕ) → (Writes (Some job.now) name → ⊥) → F.held files.new name ≡ F.held files.old name }
    ensures tells { F.tells files.new ≡ F.tells files.old }
    ensures faults { F.faults files.old ≤ F.faults files.new }
    ensures absences { F.absences files.old ≤ F.absences files.new }
    ensures failed_starts { F.failed_starts files.old ≤ F.failed_starts files.new }
    ensures out_tells { O.tells out.new ≡ O.tells out.old }
    ensures out_faults { O.faults out.old ≤ O.faults out.new }
    ensures completes { IsTrue (F.tells files.old) → (words : List (List ℕ)) → job_of words ≡ Some job.now → Completes words (F.held files.old) result }
{
    match job {
        Job::List { file } => list_status(&list(alloc, files, file.text(), out)),
        Job::Solve { file, log, bounds } => {
            let end = solve(alloc, files, file.text(), log.text(), *bounds, out);
            solve_status(&end)
        }
        Job::Check { file, list, log } => {
            let end = check(alloc, files, file.text(), list.text(), log.text(), out);
            check_status(&end)
        }
        Job::Show { file } => show_status(&show(alloc, files, file.text(), out)),
        Job::Sample { n } => sample_run(alloc, *n, files, out),
    }
}

/// Does what the words say, and answers how it ended.
///
/// Where the files tell what they hold, clause `put` says which status is due for the words and the
/// files, and what the log of a `solve` holds then; and where the sink tells its bytes, what was put:
/// the text that is due with the status, and the log that is due with it; a prefix of the text and
/// the whole log; or nothing and a prefix of the log, unless a start of it failed, which the count of
/// failed starts tells. For a `check`, Complete comes only where the
/// list is exactly the file's narratives, whoever wrote it: each is that of a minimal model of what the
/// file says, and each minimal model has its narrative there. Limit comes only where all of its
/// narratives are those of minimal models, and No tells what is wrong first with the list or the log.
///
/// A `sample` is done by [`sample_run`](crate::sample_run), and what that says of it is said here too:
/// Complete and Limit are the endings of its search, the three names that it writes hold the text of the
/// number, a list and a log, and what is due for the search and for the check holds of them; after a fault
/// or want of memory each holds its text, a prefix of it, or what it held, unless a start of it failed.
///
/// All names but the log of a `solve` and the three names of a `sample` hold what they held. The other
/// clauses give the cause of each fault, and what is put for words that are no job, over any files and sink.
pub fn run<F: Files, O: Sink>(alloc: Global, words: &[String], files: &mut F, out: &mut O) -> Status
    ensures put { IsTrue (F.tells files.old) →
        IsRun (map string_bytes words.now) (F.held files.old) (F.held files.new) (O.tells out.old) (O.bytes out.old) (O.bytes out.new)
        (Rose (F.failed_starts files.old) (F.failed_starts files.new)) result }
    ensures nothing { IsTrue (O.tells out.old) → result ≡ Status.FilesFault → O.bytes out.new ≡ O.bytes out.old }
    ensures files_fault { result ≡ Status.FilesFault → Rose (F.faults files.old) (F.faults files.new) }
    ensures out_fault { result ≡ Status.OutFault → Rose (O.faults out.old) (O.faults out.new) }
    ensures usage { result ≡ Status.Usage → job_of (map string_bytes words.now) ≡ None }
    ensures no_job { job_of (map string_bytes words.now) ≡ None →
        IsNoJobAnswer (O.tells out.old) (O.bytes out.old) (O.bytes out.new) result }
    ensures refused { result ≡ Status.Refused →
        PutsRefusal (O.tells out.old) (O.bytes out.old) (O.bytes out.new) (F.absences files.old) (F.absences files.new) }

    // Every name but the log of a `solve` and the three names of a `sample` holds what it held.
    ensures stays { (name : List ℕ) → (Writes (job_of (map string_bytes words.now)) name → ⊥) → F.held files.new name ≡ F.held files.old name }

    // What told what it holds or has still does, and no count falls, so that another call can follow.
    ensures tells { F.tells files.new ≡ F.tells files.old }
    ensures faults { F.faults files.old ≤ F.faults files.new }
    ensures absences { F.absences files.old ≤ F.absences files.new }
    ensures failed_starts { F.failed_starts files.old ≤ F.failed_starts files.new }
    ensures out_tells { O.tells out.new ≡ O.tells out.old }
    ensures out_faults { O.faults out.old ≤ O.faults out.new }

    // The bounds don't cut a search short that can come to its end.
    ensures completes { IsTrue (F.tells files.old) → Completes (map string_bytes words.now) (F.held files.old) result }
{
    match read_words(alloc, words) {
        Ok(job) => do_job(alloc, &job, files, out),
        Err(JobFault::Usage) => usage(out),
        Err(JobFault::Memory) => Status::NoMemory,
    }
}
