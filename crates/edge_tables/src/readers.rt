//! Logs that are read line by line, through buffers of several sizes and pieces of few bytes.
use crate::cut_file::{CutFile, push_lines};
use ec_edge::MemFiles;
use std::alloc::{AllocError, Global};
use std::test::Fail;

/// The bytes of a log, and what its reader answers.
const LOGS: &[(&str, &str)] = &[
    ("", "End\n"),
    ("\n", "Form\n"),
    ("b ", "Form\n"),
    (
        "log 1 0 1\nd 0 1 0\nend complete: 0\n",
        "Line(Header { variables: 0, clauses: 1 })\nLine(Derived { lits: [], hints: [1] })\nLine(End(Complete(0)))\nEnd\n",
    ),
    (
        "b \nend limit: models 2",
        "Line(Blocked { digits: [] })\nForm\n",
    ),
    (
        "b a8\nb A8\nb \n",
        "Line(Blocked { digits: [97, 56] })\nForm\n",
    ),
];

/// The sizes of the buffer, and how many bytes a call gives at most.
const SIZES: &[(u32, u32)] = &[
    (1, 1),
    (2, 2),
    (3, 1),
    (3, 2),
    (5, 1),
    (5, 2),
    (5, 5),
    (4096, 1),
    (4096, 2),
    (4096, 4096),
];

/// Whether the answers are these for this size.
fn is_read(alloc: Global, log: &str, size: u32, most: u32, want: &str) -> Result<bool, AllocError> {
    if size < 1 || size > 4096 {
        return Ok(false);
    }
    let mut files = CutFile {
        bytes: log.as_bytes(),
        most: most as usize,
    };
    let mut out = String::new(alloc);
    push_lines(&mut out, alloc, &mut files, "t.log", size)?;
    Ok(out.as_str() == want)
}

/// How many logs are read as they are to for this size, up to the first that isn't.
fn right_logs(alloc: Global, size: u32, most: u32) -> Result<usize, AllocError> {
    for (place, (log, want)) in LOGS.iter().enumerate() {
        if !is_read(alloc, log, size, most, want)? {
            return Ok(place);
        }
    }
    Ok(LOGS.len())
}

/// The first size for which a log isn't read as it is to be, and which log.
fn wrong_size(alloc: Global) -> Result<Option<(u32, u32, usize)>, AllocError> {
    for (size, most) in SIZES {
        let right = right_logs(alloc, *size, *most)?;
        if right < LOGS.len() {
            return Ok(Some((*size, *most, right)));
        }
    }
    Ok(None)
}

/// The pieces that fail: the first that a reader asks for, the second that the next one asks for, and so on. A log of 21 bytes is
/// read by four pieces of eight.
const FAILING: &[u32] = &[1, 3, 6, 10];

/// The names that are read, one after another, and the answers.
const FAILURES: &[(&str, &str)] = &[
    ("t.log", "Failed\n"),
    ("t.log", "Line(Blocked { digits: [97, 56] })\nFailed\n"),
    ("t.log", "Line(Blocked { digits: [97, 56] })\nFailed\n"),
    (
        "t.log",
        "Line(Blocked { digits: [97, 56] })\nLine(End(Complete(1)))\nFailed\n",
    ),
    (
        "t.log",
        "Line(Blocked { digits: [97, 56] })\nLine(End(Complete(1)))\nEnd\n",
    ),
    ("u.log", "Absent\n"),
];

/// Whether a reader of this name answers so.
fn answers(
    alloc: Global,
    files: &mut MemFiles,
    name: &str,
    want: &str,
) -> Result<bool, AllocError> {
    let mut out = String::new(alloc);
    push_lines(&mut out, alloc, files, name, 8)?;
    Ok(out.as_str() == want)
}

/// How many reads are answered as they are to, up to the first that isn't.
fn right_failures(alloc: Global) -> Result<usize, AllocError> {
    let mut files = MemFiles::new(alloc);
    files.hold("t.log", b"b a8\nend complete: 1\n")?;
    for failing in FAILING {
        files.fail_piece(u64::from(*failing))?;
    }
    for (place, (name, want)) in FAILURES.iter().enumerate() {
        if !answers(alloc, &mut files, name, want)? {
            return Ok(place);
        }
    }
    Ok(FAILURES.len())
}

#[test]
fn logs_are_read(rt: HostRuntime) -> Result<(), Fail> {
    let alloc = rt.alloc();
    assert_eq!(rt; wrong_size(alloc)?, None);
    assert_eq!(rt; right_failures(alloc)?, FAILURES.len());
    Ok(())
}
