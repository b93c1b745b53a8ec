//! Runs the cases of case files: words over files in memory, and what must come of them.
//!
//! Its words are the names of the case files. It prints each case that differs, with what was wanted and what came,
//! and then how many cases and runs each file has. docs/CONTRIBUTING.md says how a case is written.
#![tactic(auto)]

mod bytes;
mod case;
mod comparing;
mod files;
mod lines;
mod misread;
mod pieces;
mod reading;
mod report;
mod runner;
mod sink;
mod sweeps;
mod trial;

use crate::reading::{Misplaced, cases};
use crate::report::{Counts, Report};
use crate::runner::run_cases;
use std::alloc::{AllocError, Global};
use std::rt::{Env, Files};
use std::{env, fs, io};

/// What the cases of a file's text come to.
fn reported(alloc: Global, name: &str, text: &str) -> Result<Report, AllocError> {
    let mut report = Report::new(alloc);
    match cases(alloc, text) {
        Ok(cases) => run_cases(&mut report, name, &cases)?,
        Err(Misplaced { line, why }) => report.misread(name, line, why)?,
    }
    Ok(report)
}

/// Runs the cases of one file, and prints what differs, and the counts.
fn run_file<R: Files + Print + AllocGlobal>(rt: &R, name: &str) -> io::Result<Counts> {
    let text = fs::read_to_string(rt, name)?;
    let report = reported(rt.alloc(), name, &text)?;
    let Counts { cases, runs } = report.counts;
    println!(rt; "{}{name}: {cases} cases, {runs} runs", report.differences)?;
    Ok(report.counts)
}

fn main(rt: HostRuntime) -> io::Result<()> {
    let mut all = Counts { cases: 0, runs: 0 };
    for name in env::args(&rt)?.skip(1) {
        let counts = run_file(&rt, &name)?;
        all.cases = all.cases.saturating_add(counts.cases);
        all.runs = all.runs.saturating_add(counts.runs);
    }
    let Counts { cases, runs } = all;
    println!(rt; "{cases} cases, {runs} runs")
}
