//! Files in memory, with a fault at each call in turn.
use ec_edge::{FileFault, Files, MemFiles, read_whole};
use std::alloc::{AllocError, Global};
use std::test::Fail;

/// Whether a read under this limit ends so: in a fault, or in these bytes and whether there are more behind them.
fn reads(
    alloc: Global,
    files: &mut MemFiles,
    name: &str,
    limit: u32,
    end: Result<bool, FileFault>,
    bytes: &[u8],
) -> bool {
    if limit > 268_435_456 {
        return false;
    }
    match read_whole(alloc, files, name, limit) {
        Ok(whole) => end == Ok(whole.past) && whole.bytes.as_slice() == bytes,
        Err(fault) => end == Err(fault),
    }
}

// A file of two pieces and the piece of no bytes behind them.
const SIZE: usize = 5000;

/// The pieces that fail: the first of a read, the second of the next one, and the third of that after it.
const FAILING_PIECES: &[u32] = &[1, 3, 6];

/// How four reads end, one after another.
const READS: &[Result<bool, FileFault>] = &[
    Err(FileFault::Failed),
    Err(FileFault::Failed),
    Err(FileFault::Failed),
    Ok(false),
];

/// How many reads end as they are to, up to the first that doesn't.
fn right_reads(alloc: Global, text: &[u8]) -> Result<usize, AllocError> {
    let mut files = MemFiles::new(alloc);
    files.hold("t.e", text)?;
    for failing in FAILING_PIECES {
        files.fail_piece(u64::from(*failing))?;
    }
    for (place, end) in READS.iter().enumerate() {
        if !reads(alloc, &mut files, "t.e", 5000, *end, text) {
            return Ok(place);
        }
    }
    Ok(READS.len())
}

/// A name, a limit, and how a read under it ends.
const LIMITS: &[(&str, u32, Result<bool, FileFault>, &str)] = &[
    ("t.e", 0, Ok(true), "P"),
    ("t.e", 4, Ok(true), "P().\n"),
    ("t.e", 5, Ok(true), "P().\nQ"),
    ("t.e", 6, Ok(false), "P().\nQ"),
    ("t.e", 268_435_456, Ok(false), "P().\nQ"),
    ("u.e", 6, Err(FileFault::Absent), ""),
];

/// How many limits are kept, up to the first that isn't.
fn right_limits(alloc: Global) -> Result<usize, AllocError> {
    let mut files = MemFiles::new(alloc);
    files.hold("t.e", b"P().\nQ")?;
    for (place, (name, limit, end, bytes)) in LIMITS.iter().enumerate() {
        if !reads(alloc, &mut files, name, *limit, *end, bytes.as_bytes()) {
            return Ok(place);
        }
    }
    Ok(LIMITS.len())
}

/// What is appended, or none where the file is started; the answer, and what the file holds then.
const WRITES: &[(Option<&str>, Result<(), FileFault>, &str)] = &[
    (None, Ok(()), ""),
    (Some("abc"), Ok(()), "abc"),
    (Some("defgh"), Err(FileFault::Failed), "abcde"),
    (None, Err(FileFault::Failed), "abcde"),
];

fn write(files: &mut MemFiles, piece: Option<&str>) -> Result<(), FileFault> {
    if files.bytes_of("o").is_none() {
        return Err(FileFault::Absent);
    }
    match piece {
        Some(piece) => files.append("o", piece.as_bytes()),
        None => files.start("o"),
    }
}

/// How many calls are answered as they are to, up to the first that isn't, where the second start and the second append fail.
fn right_writes(alloc: Global) -> Result<usize, AllocError> {
    let mut files = MemFiles::new(alloc);
    files.hold("o", b"old")?;
    files.fail_start(2)?;
    files.fail_append(2)?;
    for (place, (piece, answer, bytes)) in WRITES.iter().enumerate() {
        if write(&mut files, *piece) != *answer || files.bytes_of("o") != Some(bytes.as_bytes()) {
            return Ok(place);
        }
    }
    Ok(if files.bytes_of("p").is_none() {
        WRITES.len()
    } else {
        0
    })
}

#[test]
fn files_in_memory(rt: HostRuntime) -> Result<(), Fail> {
    let alloc = rt.alloc();
    assert_eq!(rt; right_limits(alloc)?, LIMITS.len());
    assert_eq!(rt; right_writes(alloc)?, WRITES.len());
    let text = vec![in alloc; b'a'; SIZE]?;
    assert_eq!(rt; right_reads(alloc, &text)?, READS.len());
    Ok(())
}
