//! Hostile use: a row once more for each small harm of a kind, with what must hold then.
use crate::bytes::{count, exchanged, line_behind, up_to_half};
use crate::case::{Call, Failing, Held, Part, Verb};
use crate::comparing::{compare_others, text_of};
use crate::report::Report;
use crate::trial::{Outcome, PLAIN, Trial, tried};
use std::alloc::AllocError;

/// More calls of one kind no run makes.
const MOST_CALLS: u64 = 100_000;

const NO: u8 = 3;

const FILES_FAULT: u8 = 4;

const OUT_FAULT: u8 = 5;

/// A row: what is run, over what, and what it comes to without harm.
#[derive(Drop)]
pub struct Row<'s> {
    pub step: &'s [Part],
    pub words: Vec<String>,
    pub held: Held,
    pub whole: Outcome,
}

/// Whether a name that may be written is as it should be after a call that failed: where it was on the sink, all is
/// written, and else it holds what it did, or a first part of what it holds in the end.
fn is_left(row: &Row<'_>, name: &str, call: Call, outcome: &Outcome) -> bool {
    let whole = row.whole.held.get(name);
    let now = outcome.held.get(name);
    match (call, now, whole) {
        (Call::Put, _, _) => now == whole,
        (_, Some(now), Some(whole)) if whole.starts_with(now) => true,
        _ => now == row.held.get(name),
    }
}

/// Tells of a name that isn't as it should be after a call that failed.
fn compare_left(
    report: &mut Report,
    row: &Row<'_>,
    name: &str,
    call: Call,
    outcome: &Outcome,
) -> Result<(), AllocError> {
    if is_left(row, name, call, outcome) {
        return Ok(());
    }
    let what = format!(in report.alloc; "{name} isn't left as it should be")?;
    report.note(&what)
}

/// Tells of all in which a run with a failed call differs from what must hold then.
fn compare_failed(
    report: &mut Report,
    row: &Row<'_>,
    failing: Failing,
    outcome: &Outcome,
) -> Result<(), AllocError> {
    let (status, put) = match failing.call {
        Call::Put => (OUT_FAULT, up_to_half(&row.whole.put, failing.number)),
        _ => (FILES_FAULT, b"".as_slice()),
    };
    report.compare_status(status, outcome.status)?;
    report.compare("prints", put, &outcome.put)?;
    compare_others(report, row.step, &row.held, &outcome.held)?;
    for part in row.step {
        if part.is_left() {
            compare_left(report, row, &part.name, failing.call, outcome)?;
        }
    }
    Ok(())
}

/// The row with a call that fails, or none where there is no such call.
fn failed(report: &mut Report, row: &Row<'_>, failing: Failing) -> Result<bool, AllocError> {
    let trial = Trial {
        failing: Some(failing),
        ..PLAIN
    };
    let outcome = tried(report.alloc, &row.words, &row.held, trial)?;
    if !outcome.failed {
        return Ok(false);
    }
    let Failing { call, number } = failing;
    report.begin_run(format!(in report.alloc; ", {call:?} {number} fails")?);
    compare_failed(report, row, failing, &outcome)?;
    Ok(true)
}

/// The row with the first call of a kind failing, the second one, and so on, until none fails.
fn each_call(report: &mut Report, row: &Row<'_>, call: Call) -> Result<(), AllocError> {
    for number in 1..=MOST_CALLS {
        if !failed(report, row, Failing { call, number })? {
            break;
        }
    }
    Ok(())
}

/// The row with other bytes in a file, which is answered by No and one line. Nothing is written.
fn harmed(
    report: &mut Report,
    row: &Row<'_>,
    name: &str,
    bytes: Vec<u8>,
) -> Result<Vec<u8>, AllocError> {
    let mut held = row.held.clone()?;
    held.insert(String::from_str(report.alloc, name)?, bytes)?;
    let outcome = tried(report.alloc, &row.words, &held, PLAIN)?;
    report.compare_status(NO, outcome.status)?;
    compare_others(report, &[], &held, &outcome.held)?;
    Ok(outcome.put)
}

/// The row with other bytes in a file, of which a line is at fault.
fn harmed_line(
    report: &mut Report,
    row: &Row<'_>,
    part: &Part,
    bytes: Vec<u8>,
    line: usize,
) -> Result<(), AllocError> {
    let put = harmed(report, row, &part.name, bytes)?;
    let mut wanted = Vec::from_slice(report.alloc, part.line())?;
    wanted.extend_from_slice(format!(in report.alloc; " {line}\n")?.as_bytes())?;
    report.compare("prints", &wanted, &put)
}

/// The row with a file cut after each number of bytes: the line that it ends in is at fault.
fn each_cut(report: &mut Report, row: &Row<'_>, part: &Part) -> Result<(), AllocError> {
    let bytes = text_of(&row.held, &part.name);
    for length in 0..bytes.len() {
        let (left, _) = bytes.split_at(length);
        let harm = format!(in report.alloc; ", {} cut after {length} bytes", part.name)?;
        report.begin_run(harm);
        let text = Vec::from_slice(report.alloc, left)?;
        harmed_line(report, row, part, text, line_behind(left))?;
    }
    Ok(())
}

fn begin_exchanged(report: &mut Report, name: &str, number: usize) -> Result<(), AllocError> {
    report.begin_run(format!(in report.alloc; ", {name} with line {number} behind the next")?);
    Ok(())
}

/// The row with two neighbouring lines of a list exchanged: it is no list, or not that of the file.
fn swap(report: &mut Report, row: &Row<'_>, name: &str, number: usize) -> Result<(), AllocError> {
    let old = text_of(&row.held, name);
    let bytes = exchanged(report.alloc, old, number)?;
    if bytes.as_slice() == old {
        return Ok(());
    }
    begin_exchanged(report, name, number)?;
    let put = harmed(report, row, name, bytes)?;
    if put.starts_with(b"no list line ") || put.starts_with(b"no model ") {
        return Ok(());
    }
    report.differ("prints", b"no list line, or no model", &put)
}

/// The row with each two neighbouring lines of a list exchanged.
fn each_swap(report: &mut Report, row: &Row<'_>, name: &str) -> Result<(), AllocError> {
    for number in 1..count(text_of(&row.held, name)) {
        swap(report, row, name, number)?;
    }
    Ok(())
}

/// The row with two neighbouring lines of a log exchanged: the first of them is at fault.
fn exchange(
    report: &mut Report,
    row: &Row<'_>,
    part: &Part,
    number: usize,
) -> Result<(), AllocError> {
    let old = text_of(&row.held, &part.name);
    let bytes = exchanged(report.alloc, old, number)?;
    if bytes.as_slice() == old {
        return report.note("no two lines to exchange");
    }
    begin_exchanged(report, &part.name, number)?;
    harmed_line(report, row, part, bytes, number)
}

/// Does all harms of a kind to a row.
fn harm_each(report: &mut Report, row: &Row<'_>, part: &Part) -> Result<(), AllocError> {
    match part.verb {
        Verb::Sweep(call) => each_call(report, row, call),
        Verb::Cut => each_cut(report, row, part),
        Verb::Swap => each_swap(report, row, &part.name),
        _ => {
            let count = count(text_of(&row.held, &part.name));
            exchange(report, row, part, 1)?;
            exchange(report, row, part, count.saturating_sub(1))
        }
    }
}

/// Does all harms of a kind to a row, and tells where there is none to do.
pub fn sweep(report: &mut Report, row: &Row<'_>, part: &Part) -> Result<(), AllocError> {
    let before = report.counts.runs;
    harm_each(report, row, part)?;
    if report.counts.runs == before {
        report.note("a sweep that does no harm")?;
    }
    Ok(())
}
