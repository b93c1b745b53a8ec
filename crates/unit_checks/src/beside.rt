//! Random steps on a list, one Watch and two trails that share nothing, each with its own twin
//! that a plain scan settles.

ghost use Rattle.std.specs.Prelude.{◌≡◌, ◌≤◌};
ghost use Rattle.ec_unit.specs.Watching.{Watches};

use crate::draw::Draw;
use crate::scan;
use ec_clause::clauses::{Clauses, is_clause};
use ec_clause::lit::Lit;
use ec_trail::trail::Trail;
use ec_unit::watch::{Settled, Watch};
use std::alloc::Global;
use std::process::Abort;

const VARIABLES: u32 = 12;

/// A random literal.
fn literal(draw: &mut Draw) -> Lit
    ensures low { 1 ≤ result.variable }
    ensures high { result.variable ≤ 12 }
{
    let variable = draw.below(VARIABLES) + 1;
    Lit::new(variable, draw.below(2) == 1)
}

/// Adds a random clause of up to four literals to the list and to those watched over, if no
/// variable repeats; mostly one of three.
fn add(rt: &impl Abort, alloc: Global, clauses: &mut Clauses, watch: &mut Watch, draw: &mut Draw)
    requires watched { Watches clauses.old watch.old }
    ensures watched { Watches clauses.new watch.new }
    ensures variables { clauses.new.variables ≡ clauses.old.variables }
{
    let mut lits = Vec::new(alloc);
    let len = if draw.below(8) == 0 { draw.below(5) } else { 3 };
    for _ in 0..len {
        lits.push(literal(draw)).expect(rt, "memory");
    }
    if is_clause(clauses.variables(), &lits) && clauses.len() < 1000 {
        let number = clauses.push(&lits).expect(rt, "memory");
        watch.add(clauses, number).expect(rt, "memory");
    }
}

/// Decides the literal on both trails, where its variable has no value on either.
fn decide(trail: &mut Trail, twin: &mut Trail, lit: Lit)
    requires low { 1 ≤ lit.variable }
    requires trail { lit.variable ≤ trail.old.variables }
    requires twin { lit.variable ≤ twin.old.variables }
    ensures trail { trail.new.variables ≡ trail.old.variables }
    ensures twin { twin.new.variables ≡ twin.old.variables }
{
    if trail.level_of(lit.variable()).is_none() && twin.level_of(lit.variable()).is_none() {
        trail.decide(lit);
        twin.decide(lit);
    }
}

/// Goes back to a random lower level, or clears both trails.
fn go_back(rt: &impl Abort, trail: &mut Trail, twin: &mut Trail, draw: &mut Draw)
    ensures trail { trail.new.variables ≡ trail.old.variables }
    ensures twin { twin.new.variables ≡ twin.old.variables }
{
    let top = trail.level();
    assert_eq!(rt; twin.level(), top);
    if top == 0 {
        trail.clear();
        twin.clear();
    } else {
        let level = draw.below(top);
        trail.back_to(level);
        twin.back_to(level);
    }
}

/// Settles both trails, and compares what came of it.
fn compare(
    rt: &impl Abort,
    clauses: &Clauses,
    watch: &mut Watch,
    trail: &mut Trail,
    twin: &mut Trail,
) -> bool
    requires watched { Watches clauses.now watch.old }
    requires trail { clauses.now.variables ≡ trail.old.variables }
    requires twin { clauses.now.variables ≡ twin.old.variables }
    ensures watched { Watches clauses.now watch.new }
    ensures trail { trail.new.variables ≡ trail.old.variables }
    ensures twin { twin.new.variables ≡ twin.old.variables }
{
    let settled = watch.settle(clauses, trail);
    let scanned = scan::settle(clauses, twin);
    let quiet = settled == Settled::Quiet;
    assert_eq!(rt; quiet, scanned == Settled::Quiet);
    if quiet {
        for index in 0..clauses.variables() {
            assert_eq!(rt; trail.level_of(index + 1), twin.level_of(index + 1));
            assert_eq!(rt;
                trail.value(Lit::new(index + 1, true)),
                twin.value(Lit::new(index + 1, true))
            );
        }
    }
    quiet
}

/// One random step: a clause more, a few decisions, or a step back; then both are settled.
fn step(
    rt: &impl Abort,
    clauses: &Clauses,
    watch: &mut Watch,
    trail: &mut Trail,
    twin: &mut Trail,
    draw: &mut Draw,
)
    requires watched { Watches clauses.now watch.old }
    requires variables { clauses.now.variables ≡ 12 }
    requires trail { clauses.now.variables ≡ trail.old.variables }
    requires twin { clauses.now.variables ≡ twin.old.variables }
    ensures watched { Watches clauses.now watch.new }
    ensures trail { trail.new.variables ≡ trail.old.variables }
    ensures twin { twin.new.variables ≡ twin.old.variables }
{
    if draw.below(3) == 0 {
        go_back(rt, trail, twin, draw);
    }
    for _ in 0..draw.below(4) {
        decide(trail, twin, literal(draw));
    }
    if !compare(rt, clauses, watch, trail, twin) {
        go_back(rt, trail, twin, draw);
    }
}

#[test]
fn settles_as_a_scan_does(rt: HostRuntime) {
    let alloc = rt.alloc();
    let mut draw = Draw::new(7);
    for _ in 0..40 {
        let mut clauses = Clauses::new(alloc, VARIABLES);
        let mut watch = Watch::new(alloc, &clauses).expect(&rt, "memory");
        let mut first = Trail::new(alloc, VARIABLES).expect(&rt, "memory");
        let mut first_twin = Trail::new(alloc, VARIABLES).expect(&rt, "memory");
        let mut second = Trail::new(alloc, VARIABLES).expect(&rt, "memory");
        let mut second_twin = Trail::new(alloc, VARIABLES).expect(&rt, "memory");
        for _ in 0..60 {
            add(&rt, alloc, &mut clauses, &mut watch, &mut draw);
            step(
                &rt,
                &clauses,
                &mut watch,
                &mut first,
                &mut first_twin,
                &mut draw,
            );
            step(
                &rt,
                &clauses,
                &mut watch,
                &mut first,
                &mut first_twin,
                &mut draw,
            );
            step(
                &rt,
                &clauses,
                &mut watch,
                &mut second,
                &mut second_twin,
                &mut draw,
            );
        }
    }
}
