//! Tables of literals, clauses and looks, with the answers worked out by hand.

ghost use Rattle.std.specs.Prelude.{◌≡◌, IfOk, length};

use crate::literals::{add, literal, literals};
use ec_clause::assign::Assign;
use ec_clause::clauses::{Clauses, is_clause};
use ec_clause::ending::Ending;
use ec_clause::lit::Lit;
use ec_clause::look::{Look, look_at};
use std::alloc::{AllocError, Global};
use std::process::Abort;
use std::test::Fail;

const LITERALS: &[(u32, bool)] = &[
    (1, true),
    (1, false),
    (2147483647, true),
    (2147483647, false),
];

/// Whether the literal has this variable and this sign, and its opposite the other one.
fn is_literal(variable: u32, positive: bool) -> bool {
    if variable < 1 || variable >= 1 << 31 {
        return false;
    }
    let lit = Lit::new(variable, positive);
    let opposite = lit.opposite();
    lit.variable() == variable
        && lit.positive() == positive
        && opposite == Lit::new(variable, !positive)
        && opposite != lit
}

/// The first of the literals that has another variable or another sign.
fn wrong_literal() -> Option<(u32, bool)> {
    for &(variable, positive) in LITERALS {
        if !is_literal(variable, positive) {
            return Some((variable, positive));
        }
    }
    None
}

const CLAUSES: &[&[i32]] = &[&[], &[-3], &[1, -2], &[4, -1, 3, 2]];

/// How many of the clauses are added with the numbers from 1 on, up to the first that isn't.
fn added(rt: &impl Abort, alloc: Global, clauses: &mut Clauses) -> usize {
    for (place, numbers) in CLAUSES.iter().enumerate() {
        if add(rt, clauses, &literals(rt, alloc, numbers)) as usize != place + 1 {
            return place;
        }
    }
    CLAUSES.len()
}

/// Whether the list has this clause under this number.
fn has(rt: &impl Abort, alloc: Global, clauses: &Clauses, number: u32, numbers: &[i32]) -> bool {
    1 <= number
        && number <= clauses.len()
        && clauses.get(number) == literals(rt, alloc, numbers).as_slice()
}

/// How many of the clauses have the numbers from 1 on, up to the first that hasn't.
fn numbered(rt: &impl Abort, alloc: Global, clauses: &Clauses) -> usize {
    let mut number = 0;
    for numbers in CLAUSES {
        if number >= 9 || !has(rt, alloc, clauses, number + 1, numbers) {
            break;
        }
        number += 1;
    }
    number as usize
}

/// How many clauses are left where the list is cut to this length.
fn truncated(clauses: &mut Clauses, len: u32) -> u32 {
    clauses.truncate(len);
    clauses.len()
}

const CLAUSES_OF_THREE: &[(&[i32], bool)] = &[
    (&[], true),
    (&[3], true),
    (&[4], false),
    (&[2, -1, 3], true),
    (&[2, 2], false),
    (&[1, 2, -1], false),
    (&[-4, 1], false),
];

/// How many of the rows are a clause or none as they are to, up to the first that isn't.
fn right_clauses(rt: &impl Abort, alloc: Global) -> usize {
    for (place, &(numbers, expected)) in CLAUSES_OF_THREE.iter().enumerate() {
        if is_clause(3, &literals(rt, alloc, numbers)) != expected {
            return place;
        }
    }
    CLAUSES_OF_THREE.len()
}

/// Whether a list of no clause takes the clauses under the numbers from 1 on, and is cut where it is longer.
fn takes_clauses(rt: &impl Abort, alloc: Global, clauses: &mut Clauses) -> bool {
    added(rt, alloc, clauses) == CLAUSES.len()
        && clauses.variables() == 4
        && clauses.len() == 4
        && numbered(rt, alloc, clauses) == CLAUSES.len()
        && truncated(clauses, 9) == 4
        && truncated(clauses, 2) == 2
        && has(rt, alloc, clauses, 2, &[-3])
}

#[test]
fn literals_and_clauses(rt: HostRuntime) {
    let alloc = rt.alloc();
    assert_eq!(rt; size_of::<Lit>(), 4);
    assert_eq!(rt; wrong_literal(), None);
    assert_eq!(rt; right_clauses(&rt, alloc), CLAUSES_OF_THREE.len());
    assert!(rt; takes_clauses(&rt, alloc, &mut Clauses::new(alloc, 4)));
}

/// A look in a table, with the number of the literal that is left.
#[derive(Clone, Copy)]
enum Seen {
    False,
    OneLeft(i32),
    Other,
}

fn look_of(rt: &impl Abort, seen: Seen) -> Look {
    match seen {
        Seen::False => Look::False,
        Seen::OneLeft(number) => Look::OneLeft(literal(rt, number)),
        Seen::Other => Look::Other,
    }
}

const LOOKS: &[(&[i32], Seen)] = &[
    (&[], Seen::False),
    (&[-1], Seen::False),
    (&[2, -1], Seen::False),
    (&[1], Seen::Other),
    (&[-5], Seen::OneLeft(-5)),
    (&[-1, 3, 2], Seen::OneLeft(3)),
    (&[3, 4], Seen::Other),
    (&[-3, 1, 4], Seen::Other),
    (&[-1, 2, 4, -3], Seen::Other),
];

/// The truth of five variables in which 1 is true, 2 is false, and 5 has lost its value.
fn truth_of(alloc: Global) -> Result<Assign, AllocError>
    ensures { IfOk result (λ truth. length truth ≡ 6) }
{
    let mut truth = Assign::new(alloc, 5)?;
    truth.set(Lit::new(1, true));
    truth.set(Lit::new(2, false));
    truth.set(Lit::new(5, true));
    truth.unset(5);
    Ok(truth)
}

/// A literal by its variable and its sign, and its value.
const VALUES: &[(u32, bool, Option<bool>)] = &[
    (1, false, Some(false)),
    (2, false, Some(true)),
    (5, true, None),
];

/// How many literals have the value that they are to have, up to the first that hasn't.
fn right_values(truth: &Assign) -> usize
    requires { length truth.now ≡ 6 }
{
    for (place, &(variable, positive, value)) in VALUES.iter().enumerate() {
        if variable < 1 || variable > 5 || truth.value(Lit::new(variable, positive)) != value {
            return place;
        }
    }
    VALUES.len()
}

/// Whether a literal has no value where none was set.
fn starts_without_values(alloc: Global) -> Result<bool, AllocError> {
    let truth = Assign::new(alloc, 5)?;
    Ok(truth.value(Lit::new(1, true)).is_none())
}

/// Whether a look at the clause sees this.
fn sees(rt: &impl Abort, alloc: Global, truth: &Assign, numbers: &[i32], seen: Seen) -> bool
    requires { length truth.now ≡ 6 }
{
    let clause = literals(rt, alloc, numbers);
    is_clause(5, &clause) && look_at(&clause, truth) == look_of(rt, seen)
}

/// How many looks see what they are to see, up to the first that doesn't.
fn right_looks(rt: &impl Abort, alloc: Global, truth: &Assign) -> usize
    requires { length truth.now ≡ 6 }
{
    for (place, &(numbers, seen)) in LOOKS.iter().enumerate() {
        if !sees(rt, alloc, truth, numbers, seen) {
            return place;
        }
    }
    LOOKS.len()
}

const ENDINGS: &[(Ending, u64, bool)] = &[
    (Ending::Complete(3), 3, true),
    (Ending::Models(0), 0, false),
    (Ending::Conflicts(7), 7, false),
];

/// How many endings tell their number, up to the first that doesn't.
fn right_endings() -> usize {
    for (place, &(ending, number, complete)) in ENDINGS.iter().enumerate() {
        if ending.number() != number || ending.is_complete() != complete {
            return place;
        }
    }
    ENDINGS.len()
}

#[test]
fn values_looks_and_endings(rt: HostRuntime) -> Result<(), Fail> {
    let alloc = rt.alloc();
    assert_eq!(rt; right_endings(), ENDINGS.len());
    assert!(rt; starts_without_values(alloc)?);
    let truth = truth_of(alloc)?;
    assert_eq!(rt; right_values(&truth), VALUES.len());
    assert_eq!(rt; right_looks(&rt, alloc, &truth), LOOKS.len());
    Ok(())
}
