//! Cases run one after another, each over files of its own.
use crate::bytes::{count, replaced};
use crate::case::{Case, Held, Part, Run, Verb};
use crate::comparing::{compare, text_of};
use crate::report::Report;
use crate::sweeps::{Row, sweep};
use crate::trial::{Outcome, PLAIN, Trial, tried};
use std::alloc::{AllocError, Global};
use std::collections::BTreeMap;

/// Lets names that have a number in place of `{}` hold a text.
fn hold_each(
    alloc: Global,
    held: &mut Held,
    part: &Part,
    first: u32,
    last: u32,
) -> Result<(), AllocError> {
    let (front, back) = part.name.split_once("{}").unwrap_or((&part.name, ""));
    for number in first..=last {
        let name = format!(in alloc; "{front}{number}{back}")?;
        held.insert(name, part.text.clone()?)?;
    }
    Ok(())
}

/// Puts a text in place of a line of a file.
fn hold_line(
    report: &mut Report,
    held: &mut Held,
    part: &Part,
    number: usize,
) -> Result<(), AllocError> {
    let old = text_of(held, &part.name);
    if number == 0 || number > count(old) {
        let what = format!(in report.alloc; "{} has no line {number}", part.name)?;
        return report.note(&what);
    }
    let text = replaced(report.alloc, old, number, &part.text)?;
    held.insert(part.name.clone()?, text)?;
    Ok(())
}

/// Makes the change of the files that a part asks for.
fn change(report: &mut Report, held: &mut Held, part: &Part) -> Result<(), AllocError> {
    match part.verb {
        Verb::File => {
            held.insert(part.name.clone()?, part.text.clone()?)?;
            Ok(())
        }
        Verb::Files { first, last } => hold_each(report.alloc, held, part, first, last),
        Verb::Line(number) => hold_line(report, held, part, number),
        _ => Ok(()),
    }
}

/// The row once more with pieces of at most so many bytes.
fn run_size(report: &mut Report, row: &Row<'_>, size: usize) -> Result<(), AllocError> {
    let trial = Trial {
        most: size,
        failing: None,
    };
    let outcome = tried(report.alloc, &row.words, &row.held, trial)?;
    report.begin_run(format!(in report.alloc; ", in pieces of {size}")?);
    compare(report, row.step, &row.held, &outcome)
}

/// The row once more for each size of the pieces that files give.
fn run_sizes(report: &mut Report, row: &Row<'_>, sizes: &str) -> Result<(), AllocError> {
    for size in sizes.split_whitespace() {
        if let Ok(size) = size.parse::<usize>() {
            run_size(report, row, size)?;
        }
    }
    Ok(())
}

fn run_pieces(report: &mut Report, row: &Row<'_>) -> Result<(), AllocError> {
    for part in row.step {
        if let Verb::Pieces = part.verb {
            run_sizes(report, row, &part.name)?;
        }
    }
    Ok(())
}

fn run_sweeps(report: &mut Report, row: &Row<'_>) -> Result<(), AllocError> {
    for part in row.step {
        match part.verb {
            Verb::Sweep(_) | Verb::Cut | Verb::Swap | Verb::Exchange => sweep(report, row, part)?,
            _ => {}
        }
    }
    Ok(())
}

fn words(alloc: Global, line: &str) -> Result<Vec<String>, AllocError> {
    let mut words = Vec::new(alloc);
    for word in line.split_whitespace() {
        words.push(String::from_str(alloc, word)?)?;
    }
    Ok(words)
}

/// A run without harm.
fn run_plain<'s>(
    report: &mut Report,
    step: &'s [Part],
    run: Run<'_>,
    held: Held,
) -> Result<Row<'s>, AllocError> {
    let words = words(report.alloc, run.words.unwrap_or(""))?;
    let trial = Trial {
        failing: run.failing,
        ..PLAIN
    };
    let whole = tried(report.alloc, &words, &held, trial)?;
    Ok(Row {
        step,
        words,
        held,
        whole,
    })
}

/// Compares a row with what its step says of it.
fn compare_row(report: &mut Report, row: &Row<'_>, has_failing: bool) -> Result<(), AllocError> {
    report.begin_run(String::new(report.alloc));
    compare(report, row.step, &row.held, &row.whole)?;
    if has_failing && !row.whole.failed {
        report.note("the call that is to fail isn't made")?;
    }
    Ok(())
}

/// What the files hold after a row, of which one may keep what was printed.
fn held_after(alloc: Global, row: Row<'_>, into: Option<&str>) -> Result<Held, AllocError> {
    let Row { whole, .. } = row;
    let Outcome { mut held, put, .. } = whole;
    if let Some(name) = into {
        held.insert(String::from_str(alloc, name)?, put)?;
    }
    Ok(held)
}

/// A run with all harms that are done to it, and what the files hold after it.
fn run_step(report: &mut Report, step: &[Part], held: Held) -> Result<Held, AllocError> {
    let run = Run::of(step);
    let row = run_plain(report, step, run, held)?;
    run_pieces(report, &row)?;
    compare_row(report, &row, run.failing.is_some())?;
    run_sweeps(report, &row)?;
    held_after(report.alloc, row, run.into)
}

fn run_case(report: &mut Report, case: &Case) -> Result<(), AllocError> {
    let mut held = BTreeMap::new(report.alloc);
    for step in &case.steps {
        for part in step {
            change(report, &mut held, part)?;
        }
        held = run_step(report, step, held)?;
    }
    Ok(())
}

/// Runs the cases, and adds to the report what differs.
pub fn run_cases(report: &mut Report, file: &str, cases: &[Case]) -> Result<(), AllocError> {
    for case in cases {
        report.begin(file, case)?;
        run_case(report, case)?;
    }
    Ok(())
}
