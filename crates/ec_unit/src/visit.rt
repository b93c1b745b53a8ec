//! The walk over the watches of a literal that became false.

ghost use Rattle.std.specs.Prelude.{◌≡◌, ◌≢◌, ℕ, ◌+◌, ◌-◌, ◌*◌, ◌/◌, ◌^◌, ◌<◌, ◌≤◌, true, false, None, Some, IfSome, IfNone, length, vec_capacity, slice_get, slice_index_or, All, Contains};
ghost use Rattle.ec_clause.specs.Literal.{Literal, opposite};
ghost use Rattle.ec_clause.specs.ClauseList.{clause_at};
ghost use Rattle.ec_clause.specs.Truth.{literal_value};
ghost use Rattle.ec_trail.specs.TrailList.{truth_of};
ghost use Rattle.ec_unit.specs.Settling.{AddsImplied, IsFalseAt};
ghost use Rattle.ec_unit.specs.Chained.{lit_at};
ghost use Rattle.ec_unit.specs.Leaning.{Follows, Grows, AreHeld, AreOf, seen_at};
ghost use Rattle.ec_unit.specs.Working.{AreChained, IsWorking};
ghost use Rattle.ec_unit.specs.Visiting.{Inspects, IsVisiting, IsOther};

use crate::chains::index;
use crate::seen::{Seen, imply, rest_on, true_at};
use crate::table::Table;
use ec_clause::clauses::Clauses;
use ec_clause::lit::Lit;
use ec_trail::trail::Trail;

/// What is to be done with a watch of a false literal.
#[derive(Clone, Copy)]
pub enum Step {
    /// It stays.
    Stay,
    /// It moves to this literal.
    Move(Lit),
    /// It stays, and its clause is false.
    Conflict,
}

/// A walk over the chain of a literal: the watch that stayed last, the one that it has come to, and
/// how many are left from there on.
#[derive(Clone, Copy)]
pub struct Walk {
    pub lit: Lit,
    pub last: Option<usize>,
    pub head: usize,
    pub left: usize,
}

/// The place of a literal of the clause, not the one given, that is not false: the first from a
/// place on, or else the first of all.
pub fn replacement(clause: &[Lit], other: Lit, trail: &Trail, start: usize) -> Option<usize>
    requires range { All (λ (l : Literal). l.variable ≤ trail.now.variables) clause.now }
    requires other { 1 ≤ other.variable }
    ensures within { IfSome result (λ i. i < length clause.now) }
    ensures some { IfSome result (λ i. (d : Literal) → IsOther (truth_of trail.now) clause.now other (slice_index_or clause.now i d)) }
    ensures none { IfNone result (All (λ (l : Literal). l ≢ other → literal_value (truth_of trail.now) l ≡ Some false) clause.now) }
{
    let start = start.min(clause.len());
    match replacement_in(clause, other, trail, start, clause.len()) {
        Some(place) => Some(place),
        None => replacement_in(clause, other, trail, 0, start),
    }
}

/// The first such place from one on and before another.
fn replacement_in(
    clause: &[Lit],
    other: Lit,
    trail: &Trail,
    from: usize,
    to: usize,
) -> Option<usize>
    requires range { All (λ (l : Literal). l.variable ≤ trail.now.variables) clause.now }
    requires other { 1 ≤ other.variable }
    requires to { to ≤ length clause.now }
    ensures within { IfSome result (λ i. i < length clause.now) }
    ensures some { IfSome result (λ i. (d : Literal) → IsOther (truth_of trail.now) clause.now other (slice_index_or clause.now i d)) }
    ensures none { IfNone result ((i : ℕ) (d : Literal) → from ≤ i → i < to → slice_index_or clause.now i d ≢ other → literal_value (truth_of trail.now) (slice_index_or clause.now i d) ≡ Some false) }
{
    for place in from..to {
        let lit = clause[place];
        match trail.value(lit) {
            Some(false) => {}
            Some(true) | None => {
                if lit != other {
                    return Some(place);
                }
            }
        }
    }
    None
}

/// Where the look for a literal of the clause of this number begins.
fn start_of(starts: &[u32], number: u32) -> usize
    requires { 1 ≤ number }
{
    match starts.get(number as usize - 1) {
        Some(start) => *start as usize,
        None => 0,
    }
}

/// Lets the next look at the clause of this number begin at a place.
fn start_at(starts: &mut [u32], number: u32, place: usize)
    requires { 1 ≤ number }
{
    if let Some(start) = starts.get_mut(number as usize - 1) {
        *start = u32::try_from(place).unwrap_or(0);
    }
}

/// Looks at the clause of this number, of which the literal watched beside `other` became false at
/// this place of the trail.
pub fn inspect(
    seen: &mut Vec<Seen>,
    starts: &mut Vec<u32>,
    clauses: &Clauses,
    trail: &mut Trail,
    place: u32,
    number: u32,
    other: Lit,
) -> Step
    requires low { 1 ≤ number }
    requires high { number ≤ length clauses.now.clauses }
    requires list { clauses.now.variables ≡ trail.old.variables }
    requires room { trail.old.variables ≤ vec_capacity seen.old }
    requires follows { Follows seen.old.items trail.old.entries }
    requires other { Contains (clause_at clauses.now number) other }
    ensures adds { AddsImplied clauses.now trail.old trail.new }
    ensures room { vec_capacity seen.new ≡ vec_capacity seen.old }
    ensures follows { Follows seen.new.items trail.new.entries }
    ensures grows { Grows seen.old.items seen.new.items }
    ensures step { Inspects clauses.now number other place (truth_of trail.new) seen.new.items result }
{
    let _known = clauses.len();
    if let Some(base) = true_at(trail, other) {
        rest_on(seen, base, place);
        return Step::Stay;
    }
    let clause = clauses.get(number);
    if let Some(at) = replacement(clause, other, trail, start_of(starts, number)) {
        start_at(starts, number, at);
        return Step::Move(clause[at]);
    }
    if trail.value(other).is_some() {
        return Step::Conflict;
    }
    imply(seen, trail, other, number, place);
    Step::Stay
}

/// The place of a clause's other watch.
pub fn twin(place: usize) -> usize
    requires { place < 2 ^ 40 }
    ensures { AreOf (place / 2 + 1) place result }
{
    if place % 2 == 0 { place + 1 } else { place - 1 }
}

/// Takes the next watch of a walk, and moves it, or sees to it that the other literal of its clause
/// is true. Answers the number of the clause if that is false.
pub fn pass(table: &mut Table, clauses: &Clauses, trail: &mut Trail, walk: &mut Walk) -> Option<u32>
    requires visiting { IsVisiting clauses.now table.old trail.old walk.old None }
    requires more { 0 < walk.old.left }
    ensures visiting { IsVisiting clauses.now table.new trail.new walk.new result }
    ensures left { walk.new.left + 1 ≡ walk.old.left }
    ensures lit { walk.new.lit ≡ walk.old.lit }
    ensures worked { table.new.worked ≡ table.old.worked }
    ensures short { table.new.short.items ≡ table.old.short.items }
    ensures grows { Grows table.old.seen.items table.new.seen.items }
    ensures adds { AddsImplied clauses.now trail.old trail.new }
{
    let _known = clauses.len();
    let place = walk.head;
    let Some(other) = table.chains.cells[twin(place)].lit else {
        unreachable!()
    };
    let number = (place / 2) as u32 + 1;
    walk.head = table.chains.cells[place].next;
    walk.left -= 1;
    let step = inspect(
        &mut table.seen,
        &mut table.chains.starts,
        clauses,
        trail,
        table.worked,
        number,
        other,
    );
    match step {
        Step::Stay => {
            walk.last = Some(place);
            None
        }
        Step::Move(lit) => {
            let _trail = trail.len();
            table.chains.unlink(walk.lit, walk.last, place);
            table.chains.attach(place, lit);
            None
        }
        Step::Conflict => {
            walk.last = Some(place);
            Some(number)
        }
    }
}

/// Walks over the watches of a literal that became false at the place that is to be worked next,
/// until a clause is false or all others are true or have moved.
pub fn visit(table: &mut Table, clauses: &Clauses, trail: &mut Trail, lit: Lit) -> Option<u32>
    requires working { IsWorking clauses.now table.old trail.old }
    requires chained { AreChained table.old }
    requires all { table.old.chained ≡ length clauses.now.clauses }
    requires range { lit.variable ≤ table.old.variables }
    requires here { table.old.worked < length table.old.seen.items }
    requires lit { seen_at table.old.seen.items table.old.worked ≡ opposite lit }
    ensures working { IsWorking clauses.now table.new trail.new }
    ensures chained { AreChained table.new }
    ensures all { table.new.chained ≡ table.old.chained }
    ensures worked { table.new.worked ≡ table.old.worked }
    ensures short { table.new.short.items ≡ table.old.short.items }
    ensures grows { Grows table.old.seen.items table.new.seen.items }
    ensures adds { AddsImplied clauses.now trail.old trail.new }
    ensures some { IfSome result (IsFalseAt clauses.now (truth_of trail.new)) }
    ensures none { IfNone result (AreHeld table.new.chains.cells.items table.new.chained table.new.seen.items (table.new.worked + 1)) }
{
    let chain = table.chains.chains[index(lit)];
    let mut walk = Walk {
        lit,
        last: None,
        head: chain.head,
        left: chain.len,
    };
    while walk.left > 0 {
        if let Some(number) = pass(table, clauses, trail, &mut walk) {
            return Some(number);
        }
    }
    None
}
