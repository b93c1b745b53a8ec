//! Settling to the end and to a conflict, with the trails worked out by hand.

ghost use Rattle.std.specs.Prelude.{◌≡◌};
ghost use Rattle.ec_unit.specs.Watching.{Watches};

use crate::literals::{list_of, literal};
use ec_clause::clauses::{Clauses, is_clause};
use ec_clause::lit::Lit;
use ec_trail::trail::Trail;
use ec_unit::watch::{Settled, Watch};
use std::alloc::Global;
use std::process::Abort;

/// A literal's number, its level and its reason.
type Row = (i32, u32, Option<u32>);

/// Adds a clause to the list and to those watched over.
fn add_watched(rt: &impl Abort, clauses: &mut Clauses, watch: &mut Watch, lits: &[Lit])
    requires watched { Watches clauses.old watch.old }
    ensures watched { Watches clauses.new watch.new }
    ensures variables { clauses.new.variables ≡ clauses.old.variables }
{
    assert!(rt; is_clause(clauses.variables(), lits));
    assert!(rt; clauses.len() < u32::MAX);
    let number = clauses.push(lits).expect(rt, "memory");
    watch.add(clauses, number).expect(rt, "memory");
}

fn decide(rt: &impl Abort, trail: &mut Trail, number: i32)
    ensures { trail.new.variables ≡ trail.old.variables }
{
    let lit = literal(rt, number);
    assert!(rt; lit.variable() <= trail.variables());
    assert!(rt; trail.level_of(lit.variable()).is_none());
    trail.decide(lit);
}

fn stands(rt: &impl Abort, trail: &Trail, rows: &[Row]) -> bool {
    let mut place = 0;
    for (number, level, reason) in rows {
        if place >= trail.len() {
            return false;
        }
        let entry = trail.entry(place);
        if entry.lit != literal(rt, *number) || entry.level != *level || entry.reason != *reason {
            return false;
        }
        place += 1;
    }
    trail.len() as usize == rows.len()
}

/// Whether settling comes to this, with this trail.
fn settles(
    rt: &impl Abort,
    clauses: &Clauses,
    watch: &mut Watch,
    trail: &mut Trail,
    settled: Settled,
    rows: &[Row],
) -> bool
    requires watched { Watches clauses.now watch.old }
    requires trail { clauses.now.variables ≡ trail.old.variables }
    ensures watched { Watches clauses.now watch.new }
    ensures trail { trail.new.variables ≡ trail.old.variables }
{
    watch.settle(clauses, trail) == settled && stands(rt, trail, rows)
}

/// Clauses, what comes of settling them, and the trail then.
const AT_LEVEL_ZERO: &[(&[&[i32]], Settled, &[Row])] = &[
    (&[], Settled::Quiet, &[]),
    (&[&[1, 2], &[-3, 4, 1]], Settled::Quiet, &[]),
    (&[&[1, 2], &[]], Settled::Conflict(2), &[]),
    (
        &[&[3, -2], &[-1, 2], &[1]],
        Settled::Quiet,
        &[(1, 0, Some(3)), (2, 0, Some(2)), (3, 0, Some(1))],
    ),
    (
        &[&[1], &[-1, 2], &[-1, -2]],
        Settled::Conflict(3),
        &[(1, 0, Some(1)), (2, 0, Some(2))],
    ),
    (&[&[-4], &[4]], Settled::Conflict(2), &[(-4, 0, Some(1))]),
];

/// How many rows settle as they are to, up to the first that doesn't.
fn right_rows(rt: &impl Abort, alloc: Global) -> usize {
    for (place, &(clauses, settled, rows)) in AT_LEVEL_ZERO.iter().enumerate() {
        let clauses = list_of(rt, alloc, 4, clauses);
        let mut trail = Trail::new(alloc, clauses.variables()).expect(rt, "memory");
        let mut watch = Watch::new(alloc, &clauses).expect(rt, "memory");
        if !settles(rt, &clauses, &mut watch, &mut trail, settled, rows) {
            return place;
        }
    }
    AT_LEVEL_ZERO.len()
}

#[test]
fn settles_at_level_zero(rt: HostRuntime) {
    assert_eq!(rt; right_rows(&rt, rt.alloc()), AT_LEVEL_ZERO.len());
}

/// The clauses of the decisions, and the trails after 1 and after -3 is decided.
const DECIDED: &[&[i32]] = &[&[-1, 2], &[-2, 3], &[1, 3, 4]];

const AFTER_ONE: &[Row] = &[(1, 1, None), (2, 1, Some(1)), (3, 1, Some(2))];

const AFTER_NOT_THREE: &[Row] = &[
    (-3, 1, None),
    (-2, 1, Some(2)),
    (-1, 1, Some(1)),
    (4, 1, Some(3)),
];

#[test]
fn settles_after_decisions_and_steps_back(rt: HostRuntime) {
    let alloc = rt.alloc();
    let mut clauses = list_of(&rt, alloc, 4, DECIDED);
    let mut trail = Trail::new(alloc, clauses.variables()).expect(&rt, "memory");
    let mut watch = Watch::new(alloc, &clauses).expect(&rt, "memory");
    decide(&rt, &mut trail, 1);
    assert!(rt;
        settles(
            &rt,
            &clauses,
            &mut watch,
            &mut trail,
            Settled::Quiet,
            AFTER_ONE
        )
    );
    trail.back_to(0);
    assert!(rt; settles(&rt, &clauses, &mut watch, &mut trail, Settled::Quiet, &[]));
    decide(&rt, &mut trail, -3);
    assert!(rt;
        settles(
            &rt,
            &clauses,
            &mut watch,
            &mut trail,
            Settled::Quiet,
            AFTER_NOT_THREE
        )
    );
    let lits = [literal(&rt, 2), literal(&rt, -4)];
    add_watched(&rt, &mut clauses, &mut watch, &lits);
    assert!(rt; watch.settle(&clauses, &mut trail) == Settled::Conflict(4));
    assert!(rt; clauses.len() == 4);
    assert!(rt; watch.watched(4) == Some((lits[0], lits[1])));
}
