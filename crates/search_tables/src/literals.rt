//! Literals and clause lists of tables, where a literal is written as its number.

ghost use Rattle.std.specs.Prelude.{◌≡◌};

use ec_clause::clauses::{Clauses, is_clause};
use ec_clause::lit::Lit;
use std::alloc::Global;
use std::process::Abort;

/// The literal with this number: its variable, below zero where it is negative.
pub fn literal(rt: &impl Abort, number: i32) -> Lit {
    assert!(rt; number != 0 && number > i32::MIN);
    Lit::new(number.unsigned_abs(), number > 0)
}

/// The literals with these numbers.
pub fn literals(rt: &impl Abort, alloc: Global, numbers: &[i32]) -> Vec<Lit> {
    let mut lits = Vec::new(alloc);
    for number in numbers {
        lits.push(literal(rt, *number)).expect(rt, "memory");
    }
    lits
}

/// Adds a clause to a list, and answers its number.
pub fn add(rt: &impl Abort, clauses: &mut Clauses, lits: &[Lit]) -> u32
    ensures { clauses.new.variables ≡ clauses.old.variables }
{
    assert!(rt; is_clause(clauses.variables(), lits));
    assert!(rt; clauses.len() < u32::MAX);
    clauses.push(lits).expect(rt, "memory")
}

/// The list of these clauses.
pub fn list_of(rt: &impl Abort, alloc: Global, variables: u32, rows: &[&[i32]]) -> Clauses {
    assert!(rt; variables < 1000);
    let mut clauses = Clauses::new(alloc, variables);
    for numbers in rows {
        add(rt, &mut clauses, &literals(rt, alloc, numbers));
    }
    clauses
}
