//! What is learned of a conflict: a walk down the trail from the false clause, which puts the
//! reasons of literals in their place.

ghost use Rattle.std.specs.Prelude.{◌≡◌, ℕ, ◌+◌, ◌-◌, ◌<◌, ◌≤◌, length, All, IfOk, OnOk, take, true, false, slice_index_or, slice_set, reverse, List, Option, Some};
ghost use Rattle.std.specs.Bool.{OnTrue};
ghost use Rattle.std.specs.List.Sorted.{IsNonDecreasingBy};
ghost use Rattle.ec_clause.specs.Literal.{Literal};
ghost use Rattle.ec_clause.specs.Step.{IsStep};
ghost use Rattle.ec_trail.specs.TrailList.{truth_of, top_level, IsTrail};
ghost use Rattle.ec_trail.specs.declared.trail.Entry.{Entry as TrailEntry};
ghost use Rattle.ec_unit.specs.Settling.{IsFalseAt};
ghost use Rattle.ec_sat.specs.Reasons.{AreReasons, AreQuietBelow, ContainsNone, mark_all, left_of};
ghost use Rattle.ec_sat.specs.Stops.{Walked, IsLeftBelow, StopsAt, IsAsserting, AllMarked, AreListed, AreListedUpTo, StayListed};

use ec_clause::clauses::Clauses;
use ec_clause::lit::Lit;
use ec_trail::trail::Trail;
use std::alloc::{AllocError, Global};

/// A clause and the hints by which it follows.
#[derive(Drop)]
pub struct Learned {
    pub lits: Vec<Lit>,
    pub hints: Vec<u32>,
}

/// What follows from the false clause of this number: above level 0 the clause of the first unique
/// implication point, and at level 0 the empty clause. It takes time linear in the clauses that it
/// resolves and in the literals of the highest level, and at level 0 in the trail.
pub fn learn(
    alloc: Global,
    clauses: &Clauses,
    trail: &Trail,
    marks: &mut [bool],
    number: u32,
) -> Result<Learned, AllocError>
    requires marks { length marks.old ≡ trail.now.variables + 1 }
    requires variables { clauses.now.variables ≡ trail.now.variables }
    requires reasons { AreReasons clauses.now trail.now.variables trail.now.entries }
    requires quiet { AreQuietBelow clauses.now trail.now.variables trail.now.entries }
    requires conflict { IsFalseAt clauses.now (truth_of trail.now) number }
    ensures step { IfOk result (λ l. IsStep clauses.now l.lits.items l.hints.items) }
    ensures none { IfOk result (λ l. 0 < length l.lits.items → ContainsNone clauses.now l.lits.items) }
{
    let _known = clauses.len();
    let _values = trail.values();
    let level = trail.level();
    let hints = vec![in alloc; number; 1]?;
    let mut lower = Vec::new(alloc);
    marks.fill(false);
    let open = mark(trail, marks, &mut lower, clauses.get(number), level)?;
    if level == 0 {
        return refute(alloc, clauses, trail, marks, hints);
    }
    cut(alloc, clauses, trail, marks, lower, hints, open)
}

/// Puts reasons in place of all literals, down to the empty clause.
fn refute(
    alloc: Global,
    clauses: &Clauses,
    trail: &Trail,
    marks: &mut [bool],
    mut hints: Vec<u32>,
) -> Result<Learned, AllocError>
    requires variables { clauses.now.variables ≡ trail.now.variables }
    requires reasons { AreReasons clauses.now trail.now.variables trail.now.entries }
    requires low { top_level trail.now.entries ≡ 0 }
    requires walked { Walked clauses.now trail.now.variables trail.now.entries marks.old (reverse hints.items) (length trail.now.entries) }
    ensures step { IfOk result (λ l. IsStep clauses.now l.lits.items l.hints.items) }
    ensures empty { IfOk result (λ l. length l.lits.items ≡ 0) }
{
    let mut count = trail.len();
    while count > 0 {
        count -= 1;
        let entry = trail.entry(count);
        let variable = entry.lit.variable();
        if marks[variable as usize] {
            match entry.reason {
                None => unreachable!(),
                Some(reason) => {
                    let _known = clauses.len();
                    mark_each(marks, clauses.get(reason));
                    marks[variable as usize] = false;
                    hints.push(reason)?;
                }
            }
        }
    }
    hints.reverse();
    Ok(Learned {
        lits: Vec::new(alloc),
        hints,
    })
}

/// Puts reasons in place of literals of the highest level until one is left of it.
fn cut(
    alloc: Global,
    clauses: &Clauses,
    trail: &Trail,
    marks: &mut [bool],
    mut lower: Vec<u32>,
    mut hints: Vec<u32>,
    open: u32,
) -> Result<Learned, AllocError>
    requires variables { clauses.now.variables ≡ trail.now.variables }
    requires reasons { AreReasons clauses.now trail.now.variables trail.now.entries }
    requires quiet { AreQuietBelow clauses.now trail.now.variables trail.now.entries }
    requires high { 0 < top_level trail.now.entries }
    requires walked { Walked clauses.now trail.now.variables trail.now.entries marks.old (reverse hints.items) (length trail.now.entries) }
    requires left { IsLeftBelow trail.now.entries marks.old (length trail.now.entries) }
    requires listed { AreListed trail.now.entries marks.old (top_level trail.now.entries) lower.items }
    ensures step { IfOk result (λ l. IsStep clauses.now l.lits.items l.hints.items) }
    ensures none { IfOk result (λ l. ContainsNone clauses.now l.lits.items) }
{
    let _known = clauses.len();
    let _few = trail.level();
    let place = walk(clauses, trail, marks, &mut lower, &mut hints, open)?;
    lower.push(place)?;
    lower.sort_unstable();
    shorten(clauses, trail, marks, &mut hints, &lower, place)?;
    let lits = left(alloc, trail, marks, &lower, place + 1)?;
    hints.reverse();
    Ok(Learned { lits, hints })
}

/// Goes down to the place of the first unique implication point. `lower` gets the places of the
/// literals below the highest level that are marked on the way. `open` is the number of marked ones
/// of that level: it tells when a look is worth its time, and nothing rests on it.
fn walk(
    clauses: &Clauses,
    trail: &Trail,
    marks: &mut [bool],
    lower: &mut Vec<u32>,
    hints: &mut Vec<u32>,
    mut open: u32,
) -> Result<u32, AllocError>
    requires variables { clauses.now.variables ≡ trail.now.variables }
    requires reasons { AreReasons clauses.now trail.now.variables trail.now.entries }
    requires quiet { AreQuietBelow clauses.now trail.now.variables trail.now.entries }
    requires high { 0 < top_level trail.now.entries }
    requires walked { Walked clauses.now trail.now.variables trail.now.entries marks.old (reverse hints.old.items) (length trail.now.entries) }
    requires left { IsLeftBelow trail.now.entries marks.old (length trail.now.entries) }
    requires listed { AreListed trail.now.entries marks.old (top_level trail.now.entries) lower.old.items }
    ensures stops { IfOk result (StopsAt clauses.now trail.now.variables trail.now.entries marks.new hints.new.items) }
    ensures listed { OnOk result (AreListed trail.now.entries marks.new (top_level trail.now.entries) lower.new.items) }
{
    let level = trail.level();
    let mut count = trail.len();
    while count > 0 {
        count -= 1;
        let entry = trail.entry(count);
        let variable = entry.lit.variable();
        if marks[variable as usize] {
            match entry.reason {
                None => return Ok(count),
                Some(reason) => {
                    if is_alone(trail, marks, count, entry.level, open) {
                        return Ok(count);
                    }
                    let _known = clauses.len();
                    let more = mark(trail, marks, lower, clauses.get(reason), level)?;
                    open = open.saturating_sub(1).saturating_add(more);
                    marks[variable as usize] = false;
                    hints.push(reason)?;
                }
            }
        }
    }
    unreachable!()
}

/// Drops each literal below the first unique implication point whose reason's other literals are
/// all in the clause, the highest first. `lower` has their places, rising.
fn shorten(
    clauses: &Clauses,
    trail: &Trail,
    marks: &mut [bool],
    hints: &mut Vec<u32>,
    lower: &[u32],
    place: u32,
) -> Result<(), AllocError>
    requires marks { length marks.old ≡ trail.now.variables + 1 }
    requires variables { clauses.now.variables ≡ trail.now.variables }
    requires reasons { AreReasons clauses.now trail.now.variables trail.now.entries }
    requires stops { StopsAt clauses.now trail.now.variables trail.now.entries marks.old hints.old.items place }
    ensures asserts { OnOk result (IsAsserting clauses.now trail.now.variables trail.now.entries marks.new hints.new.items place 0) }
    ensures listed { OnOk result (StayListed trail.now.entries marks.old marks.new) }
{
    let mut count = place;
    let mut ahead = lower.len();
    while ahead > 0 {
        ahead -= 1;
        let below = lower[ahead];
        if below < count {
            drop_implied(clauses, trail, marks, hints, below, place)?;
            count = below;
        }
    }
    Ok(())
}

/// Drops the literal of a place if it is marked and its reason's other literals are all in the
/// clause. The reason joins the hints in its place.
fn drop_implied(
    clauses: &Clauses,
    trail: &Trail,
    marks: &mut [bool],
    hints: &mut Vec<u32>,
    below: u32,
    place: u32,
) -> Result<(), AllocError>
    requires marks { length marks.old ≡ trail.now.variables + 1 }
    requires variables { clauses.now.variables ≡ trail.now.variables }
    requires reasons { AreReasons clauses.now trail.now.variables trail.now.entries }
    requires below { below < place }
    requires asserts { IsAsserting clauses.now trail.now.variables trail.now.entries marks.old hints.old.items place (below + 1) }
    ensures asserts { OnOk result (IsAsserting clauses.now trail.now.variables trail.now.entries marks.new hints.new.items place below) }
    ensures listed { OnOk result (StayListed trail.now.entries marks.old marks.new) }
{
    let _known = clauses.len();
    let _trail = trail.len();
    let entry = trail.entry(below);
    let Some(number) = entry.reason else {
        return Ok(());
    };
    let variable = entry.lit.variable();
    if !marks[variable as usize] {
        return Ok(());
    }
    if !are_marked(marks, clauses.get(number)) {
        return Ok(());
    }
    marks[variable as usize] = false;
    hints.push(number)?;
    Ok(())
}

/// Whether the variables of all literals are marked.
fn are_marked(marks: &[bool], lits: &[Lit]) -> bool
    requires { All (λ (l : Literal). l.variable < length marks.now) lits.now }
    ensures { OnTrue result (AllMarked marks.now lits.now) }
{
    for lit in lits {
        if !marks[lit.variable() as usize] {
            return false;
        }
    }
    true
}

/// Marks the variables of a clause.
fn mark_each(marks: &mut [bool], lits: &[Lit])
    requires { All (λ (l : Literal). l.variable < length marks.old) lits.now }
    ensures { marks.new ≡ mark_all marks.old lits.now }
{
    for lit in lits {
        marks[lit.variable() as usize] = true;
    }
}

/// Marks the variables of a clause, and counts those of a level or above that were not marked.
/// `lower` gets the places of those below it.
fn mark(
    trail: &Trail,
    marks: &mut [bool],
    lower: &mut Vec<u32>,
    lits: &[Lit],
    level: u32,
) -> Result<u32, AllocError>
    requires marks { length marks.old ≡ trail.now.variables + 1 }
    requires in_range { All (λ (l : Literal). l.variable ≤ trail.now.variables) lits.now }
    requires listed { AreListed trail.now.entries marks.old level lower.old.items }
    ensures marks { OnOk result (marks.new ≡ mark_all marks.old lits.now) }
    ensures listed { OnOk result (AreListed trail.now.entries marks.new level lower.new.items) }
{
    let mut open = 0u32;
    for lit in lits {
        if mark_variable(trail, marks, lower, lit.variable(), level)? {
            open = open.saturating_add(1);
        }
    }
    Ok(open)
}

/// Marks a variable. Answers whether it was not marked and is of a level or above; the place of one
/// below it joins `lower`.
fn mark_variable(
    trail: &Trail,
    marks: &mut [bool],
    lower: &mut Vec<u32>,
    variable: u32,
    level: u32,
) -> Result<bool, AllocError>
    requires marks { length marks.old ≡ trail.now.variables + 1 }
    requires in_range { variable ≤ trail.now.variables }
    requires listed { AreListed trail.now.entries marks.old level lower.old.items }
    ensures marks { marks.new ≡ slice_set marks.old variable true }
    ensures listed { OnOk result (AreListed trail.now.entries marks.new level lower.new.items) }
{
    let _trail = trail.len();
    let fresh = !marks[variable as usize];
    marks[variable as usize] = true;
    if !fresh {
        return Ok(false);
    }
    let Some(place) = trail.place(variable) else {
        return Ok(false);
    };
    if trail.entry(place).level >= level {
        return Ok(true);
    }
    lower.push(place)?;
    Ok(false)
}

/// Whether no literal below a place is marked at its level or above; false without a look where
/// more than one is open.
fn is_alone(trail: &Trail, marks: &[bool], place: u32, level: u32, open: u32) -> bool
    requires place { place ≤ length trail.now.entries }
    requires marks { length marks.now ≡ trail.now.variables + 1 }
    ensures { OnTrue result ((i : ℕ) (d : TrailEntry) → i < place → slice_index_or marks.now (slice_index_or trail.now.entries i d).lit.variable false ≡ true → (slice_index_or trail.now.entries i d).level < level) }
{
    if open > 1 {
        return false;
    }
    let _count = trail.len();
    let mut below = place;
    while below > 0 {
        below -= 1;
        let entry = trail.entry(below);
        if entry.level < level {
            return true;
        }
        if marks[entry.lit.variable() as usize] {
            return false;
        }
    }
    true
}

/// The opposites of the literals that are marked, up to a place. `places` has the places of all of
/// them, rising.
fn left(
    alloc: Global,
    trail: &Trail,
    marks: &[bool],
    places: &[u32],
    count: u32,
) -> Result<Vec<Lit>, AllocError>
    requires count { count ≤ length trail.now.entries }
    requires marks { length marks.now ≡ trail.now.variables + 1 }
    requires rising { IsNonDecreasingBy (λ n. n) places.now }
    requires listed { AreListedUpTo trail.now.entries marks.now count places.now }
    ensures { IfOk result (λ v. v.items ≡ left_of marks.now (take count trail.now.entries)) }
{
    let _count = trail.len();
    let mut lits = Vec::new(alloc);
    let mut next = 0;
    for place in places {
        if next <= *place && *place < count {
            let entry = trail.entry(*place);
            next = *place + 1;
            if marks[entry.lit.variable() as usize] {
                lits.push(entry.lit.opposite())?;
            }
        }
    }
    Ok(lits)
}
