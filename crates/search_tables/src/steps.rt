//! Tables of steps, with the answers worked out by hand.

use crate::literals::{list_of, literals};
use ec_clause::clauses::is_clause;
use ec_rup::{Checker, StepFault};
use std::alloc::Global;
use std::process::Abort;

// Whatever makes these true makes 3 true, and nothing makes all of them true.
const CLAUSES: &[&[i32]] = &[&[1, 2], &[-1, 3], &[-2, 3], &[-3, 4], &[-3, -4]];

// The literals come before the hints, and the hints in order.
const REFUSED: &[(&[i32], &[u32], StepFault)] = &[
    (&[5], &[0], StepFault::Lits),
    (&[3, 3], &[2, 3, 1], StepFault::Lits),
    (&[3, 1, -3], &[2, 3, 1], StepFault::Lits),
    (&[3], &[], StepFault::NotFalse),
    (&[3], &[0], StepFault::Unknown { at: 0 }),
    (&[3], &[2, 6, 1], StepFault::Unknown { at: 1 }),
    (&[3], &[2, 3, 6], StepFault::Unknown { at: 2 }),
    (&[3], &[1, 2, 3], StepFault::NotUnit { at: 0 }),
    (&[3], &[2, 2, 3, 1], StepFault::NotUnit { at: 1 }),
    (&[3], &[2, 3, 1, 4], StepFault::NotUnit { at: 2 }),
    (&[3], &[2, 1], StepFault::NotFalse),
    (&[3], &[2, 3, 4], StepFault::NotFalse),
    (&[], &[4, 5], StepFault::NotUnit { at: 0 }),
];

// Each stands on those before it.
const ACCEPTED: &[(&[i32], &[u32])] = &[(&[3], &[2, 3, 1]), (&[4, -1], &[2, 4]), (&[], &[6, 4, 5])];

fn fault_of(
    rt: &impl Abort,
    alloc: Global,
    checker: &mut Checker,
    lits: &[i32],
    hints: &[u32],
) -> Option<StepFault> {
    assert!(rt; checker.len() < u32::MAX);
    checker.step(&literals(rt, alloc, lits), hints).err()
}

/// How many steps are refused for what is wrong first, up to the first that isn't. None of them adds a clause.
fn right_refusals(rt: &impl Abort, alloc: Global, checker: &mut Checker) -> usize {
    for (place, &(lits, hints, fault)) in REFUSED.iter().enumerate() {
        if fault_of(rt, alloc, checker, lits, hints) != Some(fault) || checker.len() != 5 {
            return place;
        }
    }
    REFUSED.len()
}

/// How many steps are accepted, up to the first that isn't. Only the last of them closes the list.
fn accepted(rt: &impl Abort, alloc: Global, checker: &mut Checker) -> usize {
    for (place, &(lits, hints)) in ACCEPTED.iter().enumerate() {
        if checker.closed() || fault_of(rt, alloc, checker, lits, hints).is_some() {
            return place;
        }
    }
    ACCEPTED.len()
}

/// Whether a blocked clause stands among those that a step may lean on.
fn leans_on_a_blocked_clause(rt: &impl Abort, alloc: Global) -> bool {
    let clauses = list_of(rt, alloc, 2, &[&[1]]);
    let blocked = literals(rt, alloc, &[-1, 2]);
    assert!(rt; is_clause(clauses.variables(), &blocked));
    let mut checker = Checker::new(alloc, clauses).expect(rt, "memory");
    assert!(rt; checker.len() == 1);
    checker.block(&blocked).expect(rt, "memory");
    let fault = fault_of(rt, alloc, &mut checker, &[2], &[1, 2]);
    fault.is_none() && checker.len() == 3 && !checker.closed()
}

#[test]
fn steps_are_accepted_or_refused_for_what_is_wrong_first(rt: HostRuntime) {
    let alloc = rt.alloc();
    let mut checker = Checker::new(alloc, list_of(&rt, alloc, 4, CLAUSES)).expect(&rt, "memory");
    assert_eq!(rt; right_refusals(&rt, alloc, &mut checker), REFUSED.len());
    assert_eq!(rt; accepted(&rt, alloc, &mut checker), ACCEPTED.len());
    assert!(rt; checker.closed());
    assert_eq!(rt; checker.len(), 8);
    assert!(rt; leans_on_a_blocked_clause(&rt, alloc));
}
