//! Searches to the end, each note of which a checker written for these tests accepts.

ghost use Rattle.std.specs.Prelude.{◌≡◌};

use crate::literals::{add, list_of};
use crate::replays::{Kept, no_notes, replay};
use ec_clause::clauses::Clauses;
use ec_clause::lit::Lit;
use ec_sat::answer::{Next, Phase};
use ec_sat::solver::Solver;
use std::alloc::Global;
use std::process::Abort;

/// Each of five pigeons sits in one of four holes, and no two in one.
fn pigeons(rt: &impl Abort, alloc: Global) -> Clauses {
    let mut clauses = Clauses::new(alloc, 20);
    for pigeon in 0..5u32 {
        let mut lits = Vec::new(alloc);
        for hole in 0..4 {
            lits.push(Lit::new(4 * pigeon + hole + 1, true))
                .expect(rt, "memory");
        }
        add(rt, &mut clauses, &lits);
    }
    for hole in 0..4u32 {
        for pigeon in 0..5 {
            for other in 0..pigeon {
                let lits = [
                    Lit::new(4 * pigeon + hole + 1, false),
                    Lit::new(4 * other + hole + 1, false),
                ];
                add(rt, &mut clauses, &lits);
            }
        }
    }
    clauses
}

/// The truth of the visible variables in the model that was found, as a number in binary.
fn model_of(rt: &impl Abort, solver: &Solver, visible: u32) -> u32
    requires { visible ≡ solver.now.visible }
{
    let mut model = 0u32;
    for place in 0..visible {
        assert!(rt; solver.phase() == Phase::Found && model < 1 << 20);
        model = 2 * model + solver.truth(place + 1) as u32;
    }
    model
}

/// The models on the visible variables, as numbers in binary, in the order in which they come.
fn models(
    rt: &impl Abort,
    alloc: Global,
    solver: &mut Solver,
    notes: &mut Kept,
    visible: u32,
) -> Vec<u32>
    requires { visible ≡ solver.old.visible }
{
    let mut models = Vec::new(alloc);
    for _ in 0..1000 {
        assert!(rt; solver.phase() == Phase::Ready && solver.derived() < 10_000);
        match solver.next(notes, 10_000) {
            Next::Model => {
                models
                    .push(model_of(rt, solver, visible))
                    .expect(rt, "memory");
                assert!(rt; solver.blocked() < 1 << 20 && solver.phase() == Phase::Found);
                solver.block(notes).expect(rt, "memory");
            }
            Next::Exhausted => return models,
            Next::Conflicts | Next::Memory => panic!(rt; "no end"),
        }
    }
    panic!(rt; "too many models")
}

fn solver_of(rt: &impl Abort, alloc: Global, clauses: Clauses, visible: u32) -> Solver
    ensures visible { result.visible ≡ visible }
{
    assert!(rt; visible <= clauses.variables() && clauses.variables() <= 1 << 30);
    assert!(rt; clauses.len() <= 1 << 30);
    Solver::new(alloc, clauses, visible).expect(rt, "memory")
}

/// No truth of two variables satisfies all of these.
const CONTRADICTION: &[&[i32]] = &[&[1, 2], &[1, -2], &[-1, 2], &[-1, -2]];

/// A bound on conflicts, how the search ends under it, and how many clauses are derived.
const LIMITS: &[(u64, Next, u64)] = &[(1, Next::Conflicts, 1), (9, Next::Exhausted, 1)];

/// How a search under this bound ends, its phase then, and how many clauses are derived.
fn ended(
    rt: &impl Abort,
    alloc: Global,
    clauses: Clauses,
    limit: u64,
    notes: &mut Kept,
) -> (Next, Phase, u64) {
    let variables = clauses.variables();
    let mut solver = solver_of(rt, alloc, clauses, variables);
    assert!(rt;
        1 <= limit && limit <= 9 && solver.phase() == Phase::Ready && solver.derived() == 0
    );
    let next = solver.next(notes, limit);
    (next, solver.phase(), solver.derived())
}

fn ends(rt: &impl Abort, alloc: Global, limit: u64, answer: Next, derived: u64) -> bool {
    let mut notes = no_notes(alloc);
    let clauses = list_of(rt, alloc, 2, CONTRADICTION);
    let end = ended(rt, alloc, clauses, limit, &mut notes);
    replay(rt, alloc, list_of(rt, alloc, 2, CONTRADICTION), &notes);
    end == (answer, Phase::Ended, derived)
}

#[test]
fn limits_and_ends(rt: HostRuntime) {
    for &(limit, answer, derived) in LIMITS {
        assert!(rt; ends(&rt, rt.alloc(), limit, answer, derived));
    }
}

const IMPLICATIONS: &[&[i32]] = &[&[1, 2], &[-2, 3], &[-2, 4], &[-3, -4]];

/// The search decides -1 and implies 2, 3 and 4; the last clause is false then. 2 is the first
/// unique implication point, and the decision another one. The clauses that imply 3 and 4 may come
/// in either order, and the one that is false comes last.
fn learns_the_opposite_of_two(notes: &Kept) -> bool {
    let [noted] = notes.notes.as_slice() else {
        return false;
    };
    let Some(hints) = &noted.hints else {
        return false;
    };
    let hints = hints.as_slice();
    noted.lits.as_slice() == [Lit::new(2, false)].as_slice()
        && (hints == [2, 3, 4].as_slice() || hints == [3, 2, 4].as_slice())
}

#[test]
fn learns_at_the_first_implication_point(rt: HostRuntime) {
    let alloc = rt.alloc();
    let mut notes = no_notes(alloc);
    let clauses = list_of(&rt, alloc, 4, IMPLICATIONS);
    let (next, _, _) = ended(&rt, alloc, clauses, 1, &mut notes);
    assert_eq!(rt; next, Next::Conflicts);
    assert!(rt; learns_the_opposite_of_two(&notes));
}

/// The numbers of variables and of visible ones, clauses, and the models on the visible ones.
const MODELS: &[(u32, u32, &[&[i32]], &[u32])] = &[
    (2, 2, &[&[1, 2], &[-1, -2]], &[1, 2]),
    (3, 1, &[&[1, 2], &[-1, 3], &[-2, -3]], &[0, 1]),
    (3, 2, &[&[-1], &[1, 2, 3]], &[0, 1]),
    (2, 0, &[&[1, 2]], &[0]),
    (0, 0, &[], &[0]),
    (1, 0, &[&[1], &[-1]], &[]),
    (3, 3, &[&[2], &[]], &[]),
];

/// The models of a list, in order, of which as many are blocked.
fn listed(
    rt: &impl Abort,
    alloc: Global,
    clauses: Clauses,
    visible: u32,
    notes: &mut Kept,
) -> Vec<u32> {
    let mut solver = solver_of(rt, alloc, clauses, visible);
    let mut found = models(rt, alloc, &mut solver, notes, visible);
    assert_eq!(rt; solver.blocked() as usize, found.len());
    found.sort_unstable();
    found
}

/// Whether these are the models of a list, with notes that can be gone through.
fn lists(
    rt: &impl Abort,
    alloc: Global,
    variables: u32,
    visible: u32,
    rows: &[&[i32]],
    expected: &[u32],
) -> bool {
    let mut notes = no_notes(alloc);
    let clauses = list_of(rt, alloc, variables, rows);
    let found = listed(rt, alloc, clauses, visible, &mut notes);
    replay(rt, alloc, list_of(rt, alloc, variables, rows), &notes);
    found.as_slice() == expected
}

#[test]
fn lists_all_models(rt: HostRuntime) {
    for &(variables, visible, rows, expected) in MODELS {
        assert!(rt;
            lists(&rt, rt.alloc(), variables, visible, rows, expected),
            "of {rows:?}"
        );
    }
}

fn counts_no_pigeons(rt: &impl Abort, alloc: Global) -> bool {
    let mut notes = no_notes(alloc);
    let found = listed(rt, alloc, pigeons(rt, alloc), 20, &mut notes);
    replay(rt, alloc, pigeons(rt, alloc), &notes);
    found.is_empty()
}

/// Whether these are the numbers from 0 to 63.
fn are_all_of_six(found: &[u32]) -> bool {
    for (place, model) in found.iter().enumerate() {
        if *model as usize != place {
            return false;
        }
    }
    found.len() == 64
}

fn lists_all_of_six(rt: &impl Abort, alloc: Global) -> bool {
    let mut notes = no_notes(alloc);
    let clauses = list_of(rt, alloc, 6, &[]);
    let found = listed(rt, alloc, clauses, 6, &mut notes);
    replay(rt, alloc, list_of(rt, alloc, 6, &[]), &notes);
    are_all_of_six(&found)
}

#[test]
fn no_place_for_five_pigeons_and_all_of_six_variables(rt: HostRuntime) {
    assert!(rt; counts_no_pigeons(&rt, rt.alloc()));
    assert!(rt; lists_all_of_six(&rt, rt.alloc()));
}
