//! What a run came to beside what is wanted.
use crate::case::{Held, Part, Run, Verb};
use crate::report::Report;
use crate::trial::Outcome;
use std::alloc::AllocError;

/// The text that a name holds, or an empty one.
pub fn text_of<'h>(held: &'h Held, name: &str) -> &'h [u8] {
    match held.get(name) {
        Some(text) => text,
        None => b"",
    }
}

/// Whether the lines of a text that begin so are one.
fn has_one(bytes: &[u8], start: &[u8]) -> bool {
    let mut count = 0u32;
    for line in bytes.split(|byte| *byte == b'\n') {
        if line.starts_with(start) {
            count = count.saturating_add(1);
        }
    }
    count == 1
}

fn is_as_wanted(bytes: &[u8], part: &Part) -> bool {
    match part.verb {
        Verb::Holds => bytes == part.text.as_slice(),
        Verb::Starts => bytes.starts_with(&part.text),
        Verb::Ends => bytes.ends_with(&part.text),
        Verb::Once => has_one(bytes, part.line()),
        _ => true,
    }
}

fn wanted(part: &Part) -> &[u8] {
    match part.verb {
        Verb::Once => part.line(),
        Verb::Writes => b"",
        _ => &part.text,
    }
}

/// Compares what a name holds, if anything, with what a part says of it.
fn compare_part(report: &mut Report, part: &Part, now: Option<&Vec<u8>>) -> Result<(), AllocError> {
    match now {
        Some(bytes) if is_as_wanted(bytes, part) => Ok(()),
        Some(bytes) => report.differ(&part.name, wanted(part), bytes),
        None => report.differ(&part.name, wanted(part), b""),
    }
}

/// Whether a step says what a name holds after the run.
fn is_left(step: &[Part], name: &str) -> bool {
    for part in step {
        if part.is_left() && part.name.as_str() == name {
            return true;
        }
    }
    false
}

/// Tells of each name that doesn't hold what it held, other than those that the step speaks of.
pub fn compare_others(
    report: &mut Report,
    step: &[Part],
    before: &Held,
    after: &Held,
) -> Result<(), AllocError> {
    for (name, now) in after.iter() {
        if !is_left(step, name) {
            match before.get(name.as_str()) {
                Some(old) => report.compare(name, old, now)?,
                None => report.differ(name, b"", now)?,
            }
        }
    }
    Ok(())
}

/// Whether one of the texts that may be printed is this one.
fn is_printed(step: &[Part], put: &[u8]) -> bool {
    let mut found = false;
    for part in step {
        match part.verb {
            Verb::Prints => found = part.text.as_slice() == put,
            Verb::Or => found = found || part.text.as_slice() == put,
            _ => {}
        }
    }
    found
}

/// Tells of all in which a run differs from what its step says.
pub fn compare(
    report: &mut Report,
    step: &[Part],
    before: &Held,
    outcome: &Outcome,
) -> Result<(), AllocError> {
    let run = Run::of(step);
    report.compare_status(run.status.unwrap_or(0), outcome.status)?;
    if !is_printed(step, &outcome.put) {
        report.differ("prints", run.prints.unwrap_or(b""), &outcome.put)?;
    }
    for part in step {
        if part.is_left() {
            compare_part(report, part, outcome.held.get(part.name.as_str()))?;
        }
    }
    compare_others(report, step, before, &outcome.held)
}
