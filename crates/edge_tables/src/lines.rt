//! Lines of a log and endings, both ways.
use ec_clause::ending::Ending;
use ec_clause::lit::Lit;
use ec_log::{Line, LineFault, push_ending, read_ending, read_line};
use std::alloc::{AllocError, Global};
use std::process::Abort;
use std::test::Fail;

fn lit(rt: &impl Abort, number: i32) -> Lit {
    assert!(rt; number != 0 && number > i32::MIN);
    Lit::new(number.unsigned_abs(), number > 0)
}

/// A line in a table.
enum Row {
    Header(u32, u32),
    Derived(&'static [i32], &'static [u32]),
    Blocked(&'static [u8]),
    End(Ending),
}

fn derived(rt: &impl Abort, alloc: Global, numbers: &[i32], hints: &[u32]) -> Line {
    let mut lits = Vec::new(alloc);
    for number in numbers {
        lits.push(lit(rt, *number)).expect(rt, "memory");
    }
    let hints = Vec::from_slice(alloc, hints).expect(rt, "memory");
    Line::Derived { lits, hints }
}

fn blocked(rt: &impl Abort, alloc: Global, digits: &[u8]) -> Line {
    let digits = Vec::from_slice(alloc, digits).expect(rt, "memory");
    Line::Blocked { digits }
}

fn line_of(rt: &impl Abort, alloc: Global, row: &Row) -> Line {
    match row {
        Row::Header(variables, clauses) => Line::Header {
            variables: *variables,
            clauses: *clauses,
        },
        Row::Derived(numbers, hints) => derived(rt, alloc, numbers, hints),
        Row::Blocked(digits) => blocked(rt, alloc, digits),
        Row::End(ending) => Line::End(*ending),
    }
}

fn reads(rt: &impl Abort, alloc: Global, bytes: &str, row: &Row) -> bool {
    match read_line(alloc, bytes.as_bytes()) {
        Ok(line) => line == line_of(rt, alloc, row),
        Err(_) => false,
    }
}

const LINES: &[(&str, Row)] = &[
    ("log 1 0 4294967295", Row::Header(0, u32::MAX)),
    ("d 0 0", Row::Derived(&[], &[])),
    ("d 0 1 0", Row::Derived(&[], &[1])),
    (
        "d 1 -2147483647 0 3 4294967295 0",
        Row::Derived(&[1, -2147483647], &[3, u32::MAX]),
    ),
    ("b ", Row::Blocked(b"")),
    ("b 09af", Row::Blocked(b"09af")),
    ("end complete: 0", Row::End(Ending::Complete(0))),
    (
        "end limit: models 18446744073709551615",
        Row::End(Ending::Models(u64::MAX)),
    ),
    ("end limit: conflicts 1", Row::End(Ending::Conflicts(1))),
];

/// How many lines are read as they are to, up to the first that isn't.
fn right_lines(rt: &impl Abort, alloc: Global) -> usize {
    for (place, (bytes, row)) in LINES.iter().enumerate() {
        if !reads(rt, alloc, bytes, row) {
            return place;
        }
    }
    LINES.len()
}

const OTHER_BYTES: &[&str] = &[
    "",
    "log 1 0",
    "log 1 00 1",
    "log 1 0 4294967296",
    "log 1 0 1 ",
    "log 1 +1 0",
    "log 2 0 0",
    "d",
    "d 0",
    "d 1 0 2",
    "d 01 0 2 0",
    "d -0 0 2 0",
    "d +1 0 2 0",
    "d 2147483648 0 2 0",
    "d 1 0 -2 0",
    "d 1 0 4294967296 0",
    "d 1 0 0 0",
    "d  1 0 2 0",
    "d 1 0 2 0 ",
    "b",
    "b 0F",
    "b 0 ",
    "end",
    "end complete: ",
    "end complete: 18446744073709551616",
    "end limit: models 0",
    "end limit: conflicts 0",
    "end done: 1",
];

fn fault_of(alloc: Global, bytes: &str) -> Option<LineFault> {
    read_line(alloc, bytes.as_bytes()).err()
}

/// The first bytes that are no line but aren't refused so.
fn wrong_bytes(alloc: Global) -> Option<&'static str> {
    for bytes in OTHER_BYTES {
        if fault_of(alloc, bytes) != Some(LineFault::Form) {
            return Some(*bytes);
        }
    }
    None
}

const ENDINGS: &[(Ending, &str)] = &[
    (Ending::Complete(0), "complete: 0"),
    (Ending::Models(10), "limit: models 10"),
    (Ending::Conflicts(7), "limit: conflicts 7"),
];

/// How many endings are told in these words and read from them, up to the first that isn't.
fn right_endings(out: &mut Vec<u8>) -> Result<usize, AllocError> {
    for (place, (ending, words)) in ENDINGS.iter().enumerate() {
        out.clear();
        push_ending(out, ending)?;
        if out.as_slice() != words.as_bytes() || read_ending(words.as_bytes()) != Some(*ending) {
            return Ok(place);
        }
    }
    Ok(ENDINGS.len())
}

#[test]
fn lines_and_endings(rt: HostRuntime) -> Result<(), Fail> {
    let alloc = rt.alloc();
    assert_eq!(rt; right_lines(&rt, alloc), LINES.len());
    assert_eq!(rt; wrong_bytes(alloc), None);
    assert_eq!(rt; right_endings(&mut Vec::new(alloc))?, ENDINGS.len());
    Ok(())
}
