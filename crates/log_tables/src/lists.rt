//! A clause list over six variables, and two truths of it.
ghost use Rattle.std.specs.Prelude.{◌≡◌, ◌≤◌, ◌^◌, length};

use ec_clause::clauses::{Clauses, is_clause};
use ec_clause::lit::Lit;
use ec_row::Row;
use std::alloc::Global;
use std::process::Abort;

/// James is asleep, and awake one time later: he is awake at 0 and 1, that is released at 0 and 1, and he wakes up at 0 and 1.
const CLAUSES: &[&[i32]] = &[
    &[-1],
    &[2],
    &[-1, 4, 2],
    &[1, 4, 5, -2],
    &[-3, 5, 4],
    &[3, -4],
    &[-5, 2],
    &[-5, -4],
    &[-3],
];

fn literals(rt: &impl Abort, alloc: Global, numbers: &[i32]) -> Vec<Lit> {
    let mut lits = Vec::new(alloc);
    for number in numbers {
        assert!(rt; *number != 0 && *number > i32::MIN);
        lits.push(Lit::new(number.unsigned_abs(), *number > 0))
            .expect(rt, "memory");
    }
    lits
}

fn add(rt: &impl Abort, clauses: &mut Clauses, lits: &[Lit])
    ensures { clauses.new.variables ≡ clauses.old.variables }
{
    assert!(rt; is_clause(clauses.variables(), lits));
    assert!(rt; clauses.len() < u32::MAX);
    clauses.push(lits).expect(rt, "memory");
}

/// The clause list.
pub fn clause_list(rt: &impl Abort, alloc: Global) -> Clauses
    ensures variables { result.variables ≡ 6 }
    ensures few { length result.clauses ≤ 2 ^ 30 }
{
    let mut clauses = Clauses::new(alloc, 6);
    for numbers in CLAUSES {
        let lits = literals(rt, alloc, numbers);
        add(rt, &mut clauses, &lits);
    }
    assert!(rt; clauses.variables() == 6 && clauses.len() <= 100);
    clauses
}

/// The truth of six atoms in which these alone are true.
pub fn truth(rt: &impl Abort, alloc: Global, places: &[usize]) -> Row
    ensures { length result ≡ 6 }
{
    let mut row = Row::of_len(alloc, 6).expect(rt, "memory");
    for place in places {
        assert!(rt; *place < row.len());
        row.set(*place, true);
    }
    assert!(rt; row.len() == 6);
    row
}
