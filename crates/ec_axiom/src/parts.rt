//! The atoms of the axioms. A variable is the number of binders between itself and its own.
ghost use Rattle.std.specs.Prelude.{◌≡◌, IfOk};
ghost use Rattle.ec_logic.specs.Tree.{variable as variable_tree};
ghost use Rattle.ec_logic.specs.Axiom.{next, HoldsAt, ReleasedAt, Happens, Effect, either, every_fluent, every_event};
ghost use Rattle.ec_logic.specs.Signature.{initiates, terminates};
ghost use Rattle.ec_theory.specs.View.{formula_tree, term_tree};

use ec_building::{any_of_two, atom, for_all, int, sum, three_terms, two_terms, variable};
use ec_theory::{Formula, Term};
use std::alloc::{AllocError, Global};

const HOLDS_AT: u32 = 0;

/// The number of `ReleasedAt`.
pub(crate) const RELEASED_AT: u32 = 1;

const HAPPENS: u32 = 2;

/// The number of `Initiates`.
pub(crate) const INITIATES: u32 = 3;

/// The number of `Terminates`.
pub(crate) const TERMINATES: u32 = 4;

/// The number of `Releases`.
pub(crate) const RELEASES: u32 = 5;

/// The number of the sort `time`.
pub(crate) const TIME_SORT: u32 = 2;

/// The number of the sort `event`.
pub(crate) const EVENT_SORT: u32 = 4;

const FLUENT_SORT: u32 = 5;

/// The time after a time.
pub(crate) fn next(alloc: Global, time: u32) -> Result<Term, AllocError>
    ensures { IfOk result (λ t. term_tree t ≡ next time) }
{
    sum(alloc, variable(time), int(1))
}

/// That a fluent holds at a time.
pub(crate) fn holds_at(alloc: Global, fluent: u32, time: Term) -> Result<Formula, AllocError>
    ensures { IfOk result (λ f. formula_tree f ≡ HoldsAt fluent (term_tree time)) }
{
    let args = two_terms(alloc, variable(fluent), time)?;
    Ok(atom(HOLDS_AT, args))
}

/// That a fluent is released at a time.
pub(crate) fn released_at(alloc: Global, fluent: u32, time: Term) -> Result<Formula, AllocError>
    ensures { IfOk result (λ f. formula_tree f ≡ ReleasedAt fluent (term_tree time)) }
{
    let args = two_terms(alloc, variable(fluent), time)?;
    Ok(atom(RELEASED_AT, args))
}

/// That fluent 1 holds at time 0.
pub(crate) fn holds_now(alloc: Global) -> Result<Formula, AllocError>
    ensures { IfOk result (λ f. formula_tree f ≡ HoldsAt 1 (variable_tree 0)) }
{
    holds_at(alloc, 1, variable(0))
}

/// That fluent 1 is released at time 0.
pub(crate) fn released_now(alloc: Global) -> Result<Formula, AllocError>
    ensures { IfOk result (λ f. formula_tree f ≡ ReleasedAt 1 (variable_tree 0)) }
{
    released_at(alloc, 1, variable(0))
}

/// That an event happens at a time.
pub(crate) fn happens(alloc: Global, event: u32, time: u32) -> Result<Formula, AllocError>
    ensures { IfOk result (λ f. formula_tree f ≡ Happens event time) }
{
    let args = two_terms(alloc, variable(event), variable(time))?;
    Ok(atom(HAPPENS, args))
}

/// That an event has an effect on a fluent at a time, by the predicate of that effect.
pub(crate) fn effect(
    alloc: Global,
    predicate: u32,
    event: u32,
    fluent: u32,
    time: u32,
) -> Result<Formula, AllocError>
    ensures { IfOk result (λ f. formula_tree f ≡ Effect predicate event fluent time) }
{
    let args = three_terms(alloc, variable(event), variable(fluent), variable(time))?;
    Ok(atom(predicate, args))
}

/// That an event initiates or terminates a fluent at a time.
pub(crate) fn initiates_or_terminates(
    alloc: Global,
    event: u32,
    fluent: u32,
    time: u32,
) -> Result<Formula, AllocError>
    ensures { IfOk result (λ f. formula_tree f ≡ either (Effect initiates event fluent time) (Effect terminates event fluent time)) }
{
    let starts = effect(alloc, INITIATES, event, fluent, time)?;
    let ends = effect(alloc, TERMINATES, event, fluent, time)?;
    any_of_two(alloc, starts, ends)
}

/// For all fluents and times.
pub(crate) fn every_fluent(alloc: Global, scope: Formula) -> Result<Formula, AllocError>
    ensures { IfOk result (λ f. formula_tree f ≡ every_fluent (formula_tree scope)) }
{
    let times = for_all(alloc, TIME_SORT, scope)?;
    for_all(alloc, FLUENT_SORT, times)
}

/// For all events, fluents and times.
pub(crate) fn every_event(alloc: Global, scope: Formula) -> Result<Formula, AllocError>
    ensures { IfOk result (λ f. formula_tree f ≡ every_event (formula_tree scope)) }
{
    let fluents = every_fluent(alloc, scope)?;
    for_all(alloc, EVENT_SORT, fluents)
}
