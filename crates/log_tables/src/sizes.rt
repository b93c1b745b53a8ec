//! What the check of a log answers for each size of its buffer.
ghost use Rattle.std.specs.Prelude.{◌≤◌};

use crate::lists::{clause_list, truth};
use differences::push_difference;
use ec_checking::{LogEnd, check_log};
use ec_clause::ending::Ending;
use ec_edge::MemFiles;
use std::alloc::{AllocError, Global};
use std::process::Abort;
use std::test::Fail;

/// Logs for a list of the truths 010010 and 010011, ended as complete.
const LOGS: &[(&str, LogEnd)] = &[
    (
        "log 1 6 9\nb 48\nb 4c\nd 0 1 2 9 6 4 10 11 0\nend complete: 2\n",
        LogEnd::Accepted,
    ),
    ("log 1 6 9\nb 48\nb 4c\nend complete: 2\n", LogEnd::Line(4)),
    (
        "log 1 6 9\nb 48\nb 4c\nd 0 1 2 9 6 10 11 0\nend complete: 2\n",
        LogEnd::Line(4),
    ),
    ("log 1 6 9\nb 48\nb 4c\nd 0 1 2 9", LogEnd::Line(4)),
    ("log 1 6 9\nb 48\nb 4c\n", LogEnd::Line(4)),
    (
        "log 1 6 9\nb 48\nb 4e\nd 0 1 2 9 6 4 10 11 0\nend complete: 2\n",
        LogEnd::Line(3),
    ),
    (
        "log 1 6 9\nb 48\nb 4c\nd 0 1 2 9 6 4 10 11 0\nend complete: 2",
        LogEnd::Line(5),
    ),
    (
        "log 1 6 9\nb 48\nb 4c\nd 0 1 2 9 6 4 10 11 0\nend complete: 2\n\n",
        LogEnd::Line(6),
    ),
    ("", LogEnd::Line(1)),
];

/// The sizes of the buffer.
const SIZES: &[u32] = &[1, 2, 3, 4096];

/// What the check of a log answers through a buffer of this size.
fn answer(rt: &impl Abort, alloc: Global, log: &str, size: u32) -> Result<LogEnd, AllocError>
    requires least { 1 ≤ size }
    requires most { size ≤ 1048576 }
{
    let mut files = MemFiles::new(alloc);
    files.hold("g", log.as_bytes())?;
    let truths = [truth(rt, alloc, &[1, 4]), truth(rt, alloc, &[1, 4, 5])];
    let clauses = clause_list(rt, alloc);
    Ok(check_log(
        alloc,
        &mut files,
        "g",
        size,
        clauses,
        &truths,
        &Ending::Complete(2),
    ))
}

/// The logs with another answer than the one that is wanted.
fn differing(rt: &impl Abort, alloc: Global, size: u32) -> Result<String, AllocError>
    requires least { 1 ≤ size }
    requires most { size ≤ 1048576 }
{
    let mut out = String::new(alloc);
    for (log, want) in LOGS {
        let got = format!(in alloc; "{:?}", answer(rt, alloc, log, size)?)?;
        let want = format!(in alloc; "{want:?}")?;
        push_difference(&mut out, log, &want, &got)?;
    }
    Ok(out)
}

#[test]
fn each_size(rt: HostRuntime) -> Result<(), Fail> {
    for size in SIZES {
        assert!(rt; *size >= 1 && *size <= 4096);
        assert_eq!(rt; differing(&rt, rt.alloc(), *size)?.as_str(), "");
    }
    Ok(())
}
