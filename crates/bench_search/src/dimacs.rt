//! Clause lists in the DIMACS form, which other solvers read.

ghost use Rattle.std.specs.Prelude.{◌≤◌, length};

use ec_clause::clauses::Clauses;
use ec_clause::lit::Lit;
use std::io;
use std::io::Print;

/// Prints a literal and a blank, with `-` before a negative one.
fn print_literal<R: Print>(rt: &R, lit: Lit) -> io::Result<()> {
    let sign = if lit.positive() { "" } else { "-" };
    print!(rt; "{sign}{} ", lit.variable())
}

/// Prints a clause on a line, ended by 0.
fn print_clause<R: Print>(rt: &R, lits: &[Lit]) -> io::Result<()> {
    for lit in lits {
        print_literal(rt, *lit)?;
    }
    println!(rt; "0")
}

/// Prints a clause list: its header, and each clause.
pub fn print_dimacs<R: Print>(rt: &R, clauses: &Clauses) -> io::Result<()> {
    println!(rt; "p cnf {} {}", clauses.variables(), clauses.len())?;
    for place in 0..clauses.len() {
        print_clause(rt, clauses.get(place + 1))?;
    }
    Ok(())
}
