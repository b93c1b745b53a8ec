//! The axioms of what events change.
ghost use Rattle.std.specs.Prelude.{◌≡◌, IfOk};
ghost use Rattle.ec_logic.specs.Tree.{implies};
ghost use Rattle.ec_logic.specs.Axiom.{Happens, both, every_event, DEC9, DEC10, DEC11, DEC12};
ghost use Rattle.ec_theory.specs.View.{formula_tree};
ghost use Rattle.ec_axiom.specs.Later.{is_later};

use crate::later::{Later, is_later};
use crate::parts::{
    INITIATES, RELEASES, TERMINATES, effect, every_event, happens, initiates_or_terminates,
};
use ec_building::{all_of_two, implies};
use ec_theory::Formula;
use std::alloc::{AllocError, Global};

// That event 2 happens at time 0 and has this effect.
fn happens_with(alloc: Global, effect: Formula) -> Result<Formula, AllocError>
    ensures { IfOk result (λ f. formula_tree f ≡ both (Happens 2 0) (formula_tree effect)) }
{
    let happens = happens(alloc, 2, 0)?;
    all_of_two(alloc, happens, effect)
}

// Of all events, fluents and times: where the premise is the case, this is so later.
fn of_each_event(alloc: Global, premise: Formula, later: Later) -> Result<Formula, AllocError>
    ensures { IfOk result (λ f. formula_tree f ≡ every_event (implies (formula_tree premise) (is_later later))) }
{
    let later = is_later(alloc, later)?;
    let scope = implies(alloc, premise, later)?;
    every_event(alloc, scope)
}

/// What is initiated holds next.
pub(crate) fn dec9(alloc: Global) -> Result<Formula, AllocError>
    ensures { IfOk result (λ f. formula_tree f ≡ DEC9) }
{
    let effect = effect(alloc, INITIATES, 2, 1, 0)?;
    let premise = happens_with(alloc, effect)?;
    of_each_event(alloc, premise, Later::Holds)
}

/// What is terminated doesn't hold next.
pub(crate) fn dec10(alloc: Global) -> Result<Formula, AllocError>
    ensures { IfOk result (λ f. formula_tree f ≡ DEC10) }
{
    let effect = effect(alloc, TERMINATES, 2, 1, 0)?;
    let premise = happens_with(alloc, effect)?;
    of_each_event(alloc, premise, Later::Fails)
}

/// What is released by an event is released next.
pub(crate) fn dec11(alloc: Global) -> Result<Formula, AllocError>
    ensures { IfOk result (λ f. formula_tree f ≡ DEC11) }
{
    let effect = effect(alloc, RELEASES, 2, 1, 0)?;
    let premise = happens_with(alloc, effect)?;
    of_each_event(alloc, premise, Later::Released)
}

/// What is initiated or terminated isn't released next.
pub(crate) fn dec12(alloc: Global) -> Result<Formula, AllocError>
    ensures { IfOk result (λ f. formula_tree f ≡ DEC12) }
{
    let effect = initiates_or_terminates(alloc, 2, 1, 0)?;
    let premise = happens_with(alloc, effect)?;
    of_each_event(alloc, premise, Later::Unreleased)
}
