//! What is so of a fluent at the next time.
ghost use Rattle.std.specs.Prelude.{◌≡◌, IfOk};
ghost use Rattle.ec_logic.specs.Tree.{negation};
ghost use Rattle.ec_logic.specs.Axiom.{next, HoldsAt, ReleasedAt};
ghost use Rattle.ec_theory.specs.View.{formula_tree};
ghost use Rattle.ec_axiom.specs.Later.{is_later};

use crate::parts::{holds_at, next, released_at};
use ec_building::not;
use ec_theory::Formula;
use std::alloc::{AllocError, Global};

/// What fluent 1 is at the time after time 0.
#[derive(Clone, Copy)]
pub(crate) enum Later {
    Holds,
    Fails,
    Released,
    Unreleased,
}

fn holds(alloc: Global) -> Result<Formula, AllocError>
    ensures { IfOk result (λ f. formula_tree f ≡ HoldsAt 1 (next 0)) }
{
    let time = next(alloc, 0)?;
    holds_at(alloc, 1, time)
}

fn fails(alloc: Global) -> Result<Formula, AllocError>
    ensures { IfOk result (λ f. formula_tree f ≡ negation (HoldsAt 1 (next 0))) }
{
    let holds = holds(alloc)?;
    not(alloc, holds)
}

fn released(alloc: Global) -> Result<Formula, AllocError>
    ensures { IfOk result (λ f. formula_tree f ≡ ReleasedAt 1 (next 0)) }
{
    let time = next(alloc, 0)?;
    released_at(alloc, 1, time)
}

fn unreleased(alloc: Global) -> Result<Formula, AllocError>
    ensures { IfOk result (λ f. formula_tree f ≡ negation (ReleasedAt 1 (next 0))) }
{
    let released = released(alloc)?;
    not(alloc, released)
}

/// That it is so.
pub(crate) fn is_later(alloc: Global, later: Later) -> Result<Formula, AllocError>
    ensures { IfOk result (λ f. formula_tree f ≡ is_later later) }
{
    match later {
        Later::Holds => holds(alloc),
        Later::Fails => fails(alloc),
        Later::Released => released(alloc),
        Later::Unreleased => unreleased(alloc),
    }
}
