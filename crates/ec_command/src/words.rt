//! The words of the command line.
ghost use Rattle.std.specs.Prelude.{◌≡◌, Some, None, map, IfOk, MatchResult};
ghost use Rattle.std.specs.String.{string_bytes};
ghost use Rattle.ec_command.specs.Words.{check_of, job_of, HasBounds, IsNoJob};

use crate::options::{read_bounds, read_steps};
use ec_engine::Bounds;
use ec_lex::word::Word;
use std::alloc::Global;

/// What the words ask for.
#[derive(Debug, PartialEq, Eq, Drop)]
pub enum Job {
    /// The narratives of a file, by a trial of each truth.
    List {
        file: Word,
    },
    /// The narratives of a file, by a search that is written to a log.
    Solve {
        file: Word,
        log: Word,
        bounds: Bounds,
    },
    /// Whether a list is one of a file's narratives, and a log shows that it ends as it says.
    Check {
        file: Word,
        list: Word,
        log: Word,
    },
    /// How large the theory of a file is.
    Show {
        file: Word,
    },
    /// A valid input of so many steps, from 1 to 40, solved and checked.
    Sample {
        n: u32,
    },
}

/// Why words give no job.
#[derive(Debug, PartialEq, Eq, Drop)]
pub enum JobFault {
    /// They are no job.
    Usage,
    /// There was no memory.
    Memory,
}

/// A file's name, as it stands.
fn name(alloc: Global, word: &str) -> Result<Word, JobFault>
    ensures { MatchResult result (λ name. name ≡ word.now) (λ fault. fault ≡ JobFault.Memory) }
{
    Word::of(alloc, word.as_bytes()).map_err(|_| JobFault::Memory)
}

/// The job of the words of `check`: a command, a file, a list, and the words behind them, which are the log alone.
fn read_check(
    alloc: Global,
    command: &str,
    file: &str,
    list: &str,
    rest: &[String],
) -> Result<Job, JobFault>
    ensures job { MatchResult result (λ job. check_of command.now file.now list.now (map string_bytes rest.now) ≡ Some job)
        (λ fault. fault ≡ JobFault.Usage → check_of command.now file.now list.now (map string_bytes rest.now) ≡ None) }
    ensures bounds { IfOk result (λ job. HasBounds job) }
{
    match rest {
        [log] if command == "check" => Ok(Job::Check {
            file: name(alloc, file)?,
            list: name(alloc, list)?,
            log: name(alloc, log)?,
        }),
        _ => Err(JobFault::Usage),
    }
}

/// The job of the words behind the program's name: `list FILE`, `solve FILE LOG` and then
/// `--models N` and `--conflicts N`, each at most once and in any order, `check FILE OUT LOG`,
/// `show FILE`, or `sample N`.
///
/// The names of files are taken as they stand. A number is a plain decimal without a sign or a
/// leading zero.
pub fn read_words(alloc: Global, words: &[String]) -> Result<Job, JobFault>
    ensures job { MatchResult result (λ job. job_of (map string_bytes words.now) ≡ Some job) (λ fault. IsNoJob (map string_bytes words.now) fault) }
    ensures bounds { IfOk result (λ job. HasBounds job) }
{
    match words {
        [command, file] if command.as_str() == "list" => Ok(Job::List {
            file: name(alloc, file)?,
        }),
        [command, file] if command.as_str() == "show" => Ok(Job::Show {
            file: name(alloc, file)?,
        }),
        [command, steps] if command.as_str() == "sample" => {
            let n = read_steps(steps).ok_or(JobFault::Usage)?;
            Ok(Job::Sample { n })
        }
        [command, file, log, options @ ..] if command.as_str() == "solve" => {
            let bounds = read_bounds(options).ok_or(JobFault::Usage)?;
            Ok(Job::Solve {
                file: name(alloc, file)?,
                log: name(alloc, log)?,
                bounds,
            })
        }
        [command, file, list, rest @ ..] => read_check(alloc, command, file, list, rest),
        _ => Err(JobFault::Usage),
    }
}
