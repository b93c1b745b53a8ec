//! A trail through decisions, implications and steps back, read at each stage.

use crate::literals::literal;
use ec_clause::lit::Lit;
use ec_trail::trail::Trail;
use std::process::Abort;

fn decide(rt: &impl Abort, trail: &mut Trail, number: i32) {
    let lit = literal(rt, number);
    assert!(rt; lit.variable() <= trail.variables());
    assert!(rt; trail.level_of(lit.variable()).is_none());
    trail.decide(lit);
}

fn imply(rt: &impl Abort, trail: &mut Trail, number: i32, reason: u32) {
    let lit = literal(rt, number);
    assert!(rt; lit.variable() <= trail.variables());
    assert!(rt; trail.level_of(lit.variable()).is_none());
    trail.imply(lit, reason);
}

fn back_to(rt: &impl Abort, trail: &mut Trail, level: u32) {
    assert!(rt; level <= trail.level());
    trail.back_to(level);
}

/// A literal's number, its level and its reason.
type Row = (i32, u32, Option<u32>);

fn stands_at(rt: &impl Abort, trail: &Trail, place: u32, row: Row) -> bool {
    let (number, level, reason) = row;
    let lit = literal(rt, number);
    place < trail.len()
        && lit.variable() <= trail.variables()
        && trail.at(place) == lit
        && trail.entry(place).lit == lit
        && trail.level_of(lit.variable()) == Some(level)
        && trail.reason_of(lit.variable()) == reason
        && trail.value(lit) == Some(true)
        && trail.value(lit.opposite()) == Some(false)
}

/// Whether the trail is at this level and has these literals.
fn stands(rt: &impl Abort, trail: &Trail, level: u32, rows: &[Row]) -> bool {
    let mut place = 0;
    for row in rows {
        if place >= trail.len() || !stands_at(rt, trail, place, *row) {
            return false;
        }
        place += 1;
    }
    trail.level() == level && trail.len() as usize == rows.len()
}

fn is_free(trail: &Trail, variable: u32) -> bool {
    1 <= variable
        && variable <= trail.variables()
        && trail.variables() < 9
        && trail.level_of(variable).is_none()
        && trail.reason_of(variable).is_none()
        && trail.value(Lit::new(variable, true)).is_none()
}

fn are_free(trail: &Trail, variables: &[u32]) -> bool {
    for variable in variables {
        if !is_free(trail, *variable) {
            return false;
        }
    }
    true
}

/// A step forth or back.
enum Step {
    Decide(i32),
    Imply(i32, u32),
    BackTo(u32),
    Clear,
}

fn take(rt: &impl Abort, trail: &mut Trail, steps: &[Step]) {
    for step in steps {
        match step {
            Step::Decide(number) => decide(rt, trail, *number),
            Step::Imply(number, reason) => imply(rt, trail, *number, *reason),
            Step::BackTo(level) => back_to(rt, trail, *level),
            Step::Clear => trail.clear(),
        }
    }
}

const THREE_LEVELS: &[Row] = &[
    (-6, 0, Some(9)),
    (2, 1, None),
    (-1, 1, Some(4)),
    (3, 2, None),
    (-4, 3, None),
    (5, 3, Some(7)),
];

/// Steps, and then the level, the literals and the variables without a value.
const STAGES: &[(&[Step], u32, &[Row], &[u32])] = &[
    (&[], 0, &[], &[1, 2, 3, 4, 5, 6]),
    (
        &[
            Step::Imply(-6, 9),
            Step::Decide(2),
            Step::Imply(-1, 4),
            Step::Decide(3),
            Step::Decide(-4),
            Step::Imply(5, 7),
        ],
        3,
        THREE_LEVELS,
        &[],
    ),
    (&[Step::BackTo(3)], 3, THREE_LEVELS, &[]),
    (
        &[Step::BackTo(2)],
        2,
        &[
            (-6, 0, Some(9)),
            (2, 1, None),
            (-1, 1, Some(4)),
            (3, 2, None),
        ],
        &[4, 5],
    ),
    (
        &[Step::BackTo(1)],
        1,
        &[(-6, 0, Some(9)), (2, 1, None), (-1, 1, Some(4))],
        &[3, 4, 5],
    ),
    (
        &[Step::Imply(4, 8)],
        1,
        &[
            (-6, 0, Some(9)),
            (2, 1, None),
            (-1, 1, Some(4)),
            (4, 1, Some(8)),
        ],
        &[3, 5],
    ),
    (&[Step::BackTo(0)], 0, &[(-6, 0, Some(9))], &[1, 2, 3, 4, 5]),
    (&[Step::Decide(1), Step::Clear], 0, &[], &[1, 2, 3, 4, 5, 6]),
];

/// How many stages are as they are to be, up to the first that isn't.
fn right_stages(rt: &impl Abort, trail: &mut Trail) -> usize {
    for (place, (steps, level, rows, free)) in STAGES.iter().enumerate() {
        take(rt, trail, steps);
        if !stands(rt, trail, *level, rows) || !are_free(trail, free) {
            return place;
        }
    }
    STAGES.len()
}

#[test]
fn goes_forth_and_back(rt: HostRuntime) {
    let mut trail = Trail::new(rt.alloc(), 6).expect(&rt, "memory");
    assert_eq!(rt; right_stages(&rt, &mut trail), STAGES.len());
    let none = Trail::new(rt.alloc(), 0).expect(&rt, "memory");
    assert!(rt; stands(&rt, &none, 0, &[]));
}
