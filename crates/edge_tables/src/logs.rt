//! Logs that are written, with a fault at each call in turn.
use ec_clause::ending::Ending;
use ec_clause::lit::Lit;
use ec_clause::notes::Notes;
use ec_edge::{Files, MemFiles};
use ec_log::{WriteFault, Writer};
use std::alloc::{AllocError, Global};
use std::test::Fail;

/// The appends that fail: the first of a log, the second of the next one, and so on. A log is written by five of them.
const FAILING: &[u32] = &[1, 3, 6, 10, 15];

/// How the log is written, one time after another, and what the file holds then.
const LOGS: &[(Result<(), WriteFault>, &str)] = &[
    (Err(WriteFault::Failed), "log 1"),
    (Err(WriteFault::Failed), "log 1 5 2\nd 1 -2 "),
    (Err(WriteFault::Failed), "log 1 5 2\nd 1 -2 0 1 2 0\nb "),
    (
        Err(WriteFault::Failed),
        "log 1 5 2\nd 1 -2 0 1 2 0\nb a8\nd 0 ",
    ),
    (
        Err(WriteFault::Failed),
        "log 1 5 2\nd 1 -2 0 1 2 0\nb a8\nd 0 3 0\nend comp",
    ),
    (
        Ok(()),
        "log 1 5 2\nd 1 -2 0 1 2 0\nb a8\nd 0 3 0\nend complete: 1\n",
    ),
];

/// Files that hold an old log.
fn old_log(alloc: Global) -> Result<MemFiles, AllocError> {
    let mut files = MemFiles::new(alloc);
    files.hold("t.log", b"old")?;
    Ok(files)
}

/// How many logs are written as they are to, up to the first that isn't.
fn right_logs(alloc: Global, files: &mut MemFiles) -> Result<usize, AllocError> {
    for failing in FAILING {
        files.fail_append(u64::from(*failing))?;
    }
    let mut writer = Writer::new(alloc, 5, 2);
    writer.derived(&[Lit::new(1, true), Lit::new(2, false)], &[1, 2])?;
    writer.blocked(&[
        Lit::new(1, false),
        Lit::new(2, true),
        Lit::new(3, false),
        Lit::new(4, true),
        Lit::new(5, false),
    ])?;
    writer.derived(&[], &[3])?;
    for (place, (answer, bytes)) in LOGS.iter().enumerate() {
        let got = writer.write(files, "t.log", &Ending::Complete(1));
        if got != *answer || files.bytes_of("t.log") != Some(bytes.as_bytes()) {
            return Ok(place);
        }
    }
    Ok(LOGS.len())
}

/// Whether a log that can't be started leaves what the file held.
fn is_not_started(alloc: Global, files: &mut MemFiles) -> Result<bool, AllocError> {
    files.fail_start(1)?;
    let writer = Writer::new(alloc, 0, 1);
    let got = writer.write(files, "t.log", &Ending::Models(1));
    Ok(got == Err(WriteFault::Failed) && files.bytes_of("t.log") == Some(b"old".as_slice()))
}

#[test]
fn logs_are_written(rt: HostRuntime) -> Result<(), Fail> {
    let alloc = rt.alloc();
    let mut files = old_log(alloc)?;
    assert!(rt; is_not_started(alloc, &mut files)?);
    assert_eq!(rt; right_logs(alloc, &mut files)?, LOGS.len());
    Ok(())
}
