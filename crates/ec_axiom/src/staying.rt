//! The axioms of what stays where no event changes it.
ghost use Rattle.std.specs.Prelude.{◌≡◌, IfOk};
ghost use Rattle.ec_logic.specs.Tree.{negation, implies};
ghost use Rattle.ec_logic.specs.Axiom.{next, ReleasedAt, Effect, both, each_of_three, no_event, every_fluent, DEC5, DEC6, DEC7, DEC8};
ghost use Rattle.ec_theory.specs.View.{formula_tree};
ghost use Rattle.ec_axiom.specs.Later.{is_later};

use crate::later::{Later, is_later};
use crate::parts::{
    EVENT_SORT, INITIATES, RELEASES, TERMINATES, effect, every_fluent, happens, holds_now,
    initiates_or_terminates, released_now,
};
use ec_building::{all_of_three, all_of_two, exists, implies, not};
use ec_theory::Formula;
use std::alloc::{AllocError, Global};

// That no event happens with such an effect.
fn no_event(alloc: Global, effect: Formula) -> Result<Formula, AllocError>
    ensures { IfOk result (λ f. formula_tree f ≡ no_event (formula_tree effect)) }
{
    let happens = happens(alloc, 0, 1)?;
    let both = all_of_two(alloc, happens, effect)?;
    let some = exists(alloc, EVENT_SORT, both)?;
    not(alloc, some)
}

// That no event happens with an effect on fluent 2 by this predicate.
fn no_effect(alloc: Global, predicate: u32) -> Result<Formula, AllocError>
    ensures { IfOk result (λ f. formula_tree f ≡ no_event (Effect predicate 0 2 1)) }
{
    let effect = effect(alloc, predicate, 0, 2, 1)?;
    no_event(alloc, effect)
}

// This is the case now of fluent 1, it isn't released next, and no event has this effect on it.
fn undisturbed(alloc: Global, now: Formula, predicate: u32) -> Result<Formula, AllocError>
    ensures { IfOk result (λ f. formula_tree f ≡ each_of_three (formula_tree now) (negation (ReleasedAt 1 (next 0))) (no_event (Effect predicate 0 2 1))) }
{
    let unreleased = is_later(alloc, Later::Unreleased)?;
    let quiet = no_effect(alloc, predicate)?;
    all_of_three(alloc, now, unreleased, quiet)
}

// Of all fluents and times: where the premise is the case, this is so later.
fn of_each_fluent(alloc: Global, premise: Formula, later: Later) -> Result<Formula, AllocError>
    ensures { IfOk result (λ f. formula_tree f ≡ every_fluent (implies (formula_tree premise) (is_later later))) }
{
    let later = is_later(alloc, later)?;
    let scope = implies(alloc, premise, later)?;
    every_fluent(alloc, scope)
}

// Of all fluents and times: what is so now, where no event has an effect on it, is so later.
fn unless_changed(
    alloc: Global,
    now: Formula,
    quiet: Formula,
    later: Later,
) -> Result<Formula, AllocError>
    ensures { IfOk result (λ f. formula_tree f ≡ every_fluent (implies (both (formula_tree now) (formula_tree quiet)) (is_later later))) }
{
    let premise = all_of_two(alloc, now, quiet)?;
    of_each_fluent(alloc, premise, later)
}

/// What holds goes on.
pub(crate) fn dec5(alloc: Global) -> Result<Formula, AllocError>
    ensures { IfOk result (λ f. formula_tree f ≡ DEC5) }
{
    let now = holds_now(alloc)?;
    let premise = undisturbed(alloc, now, TERMINATES)?;
    of_each_fluent(alloc, premise, Later::Holds)
}

/// What doesn't hold goes on so.
pub(crate) fn dec6(alloc: Global) -> Result<Formula, AllocError>
    ensures { IfOk result (λ f. formula_tree f ≡ DEC6) }
{
    let holds = holds_now(alloc)?;
    let now = not(alloc, holds)?;
    let premise = undisturbed(alloc, now, INITIATES)?;
    of_each_fluent(alloc, premise, Later::Fails)
}

/// What is released stays so.
pub(crate) fn dec7(alloc: Global) -> Result<Formula, AllocError>
    ensures { IfOk result (λ f. formula_tree f ≡ DEC7) }
{
    let effect = initiates_or_terminates(alloc, 0, 2, 1)?;
    let quiet = no_event(alloc, effect)?;
    let now = released_now(alloc)?;
    unless_changed(alloc, now, quiet, Later::Released)
}

/// What isn't released stays so.
pub(crate) fn dec8(alloc: Global) -> Result<Formula, AllocError>
    ensures { IfOk result (λ f. formula_tree f ≡ DEC8) }
{
    let released = released_now(alloc)?;
    let now = not(alloc, released)?;
    let quiet = no_effect(alloc, RELEASES)?;
    unless_changed(alloc, now, quiet, Later::Unreleased)
}
