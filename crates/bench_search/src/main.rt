//! Measures the search: makes a clause list from a few words, searches it, and prints what came of it.
//!
//! `pigeons N` has N pigeons for one hole less, `random V S` is a random list of clauses of three
//! literals over V variables from the number S, and `free V` has V variables and no clause. The
//! program prints how the search ended, and how many models and derived clauses there were. With the
//! word `dimacs` before these, it prints the clause list for another solver instead. No clause speaks
//! of it; it stands on `ec_clause` and `ec_sat`.
#![tactic(auto)]

mod dimacs;
mod draw;
mod instance;
mod kept;

use crate::dimacs::print_dimacs;
use crate::instance::Instance;
use crate::kept::Kept;
use ec_clause::clauses::Clauses;
use ec_sat::answer::{Next, Phase};
use ec_sat::solver::Solver;
use std::alloc::{AllocError, Global};
use std::io::Print;
use std::rt::Env;
use std::{env, io};

/// No search derives more clauses than this.
const LIMIT: u64 = 1_000_000_000;

/// The words behind the program's name.
fn words<R: Env + AllocGlobal>(rt: &R, alloc: Global) -> io::Result<Vec<String>> {
    let mut words = Vec::new(alloc);
    for word in env::args(rt)?.skip(1) {
        words.push(word)?;
    }
    Ok(words)
}

/// The solver of a list, all variables of which are visible; none where the list is too long.
fn solver_of(alloc: Global, clauses: Clauses) -> Result<Option<Solver>, AllocError> {
    let variables = clauses.variables();
    if variables > 1 << 30 || clauses.len() > 1 << 30 {
        return Ok(None);
    }
    Ok(Some(Solver::new(alloc, clauses, variables)?))
}

/// Finds models, and blocks each, until there are as many as asked for or none is left.
fn search(alloc: Global, solver: &mut Solver, models: u32) -> Result<Phase, AllocError> {
    let mut notes = Kept::new(alloc);
    for _ in 0..models {
        if solver.phase() != Phase::Ready || solver.derived() >= LIMIT {
            break;
        }
        if solver.next(&mut notes, LIMIT) != Next::Model {
            break;
        }
        if solver.blocked() >= 1 << 20 {
            break;
        }
        solver.block(&mut notes)?;
    }
    Ok(solver.phase())
}

/// The words behind `dimacs`, if it stands first.
fn words_of_dimacs(words: &[String]) -> Option<&[String]> {
    match words.split_first() {
        Some((first, rest)) if first.as_str() == "dimacs" => Some(rest),
        _ => None,
    }
}

/// Searches an instance, and prints what came of it.
fn measure<R: Print>(rt: &R, alloc: Global, instance: Instance) -> io::Result<()> {
    let Some(mut solver) = solver_of(alloc, instance.clauses(alloc)?)? else {
        return println!(rt; "too many clauses");
    };
    let phase = search(alloc, &mut solver, instance.models())?;
    let end = if phase == Phase::Ready {
        "models"
    } else {
        "exhausted"
    };
    println!(rt;
        "{end}: {} models, {} derived",
        solver.blocked(),
        solver.derived()
    )
}

fn main(rt: HostRuntime) -> io::Result<()> {
    let alloc = rt.alloc();
    let words = words(&rt, alloc)?;
    let list = words_of_dimacs(&words);
    let Some(instance) = Instance::read(list.unwrap_or(&words)) else {
        return println!(rt; "bench_search [dimacs] (pigeons N | random V S | free V)");
    };
    match list {
        Some(_) => print_dimacs(&rt, &instance.clauses(alloc)?),
        None => measure(&rt, alloc, instance),
    }
}
