//! The formula of a path: that the arguments are the head of an instance whose bodies are all true.
ghost use Rattle.std.specs.Prelude.{◌≡◌, ◌≤◌, ◌<◌, ◌+◌, ◌^◌, ◌++◌, ◌∷◌, [], map, IfOk, OnOk};
ghost use Rattle.ec_logic.specs.Universe.{universe_of};
ghost use Rattle.ec_logic.specs.Shift.{shifted};
ghost use Rattle.ec_logic.specs.Reach.{CanShiftEach};
ghost use Rattle.ec_logic.specs.ValidTheory.{binder_limit};
ghost use Rattle.ec_logic.specs.Paths.{binders, bodies};
ghost use Rattle.ec_theory.specs.View.{formula_tree, formula_trees, term_trees};
ghost use Rattle.ec_path.specs.View.{path_of, step_of};
ghost use Rattle.ec_complete.specs.Completion.{count_of, equations, path_formula, step_ranges, within};
ghost use Rattle.ec_complete.specs.Room.{AreLow, HasRoom};

use crate::parts::{all_of, equal};
use crate::ranges::ranges;
use crate::terms::lower;
use ec_building::{exists, variable};
use ec_path::{Path, Step};
use ec_theory::{Formula, Signature, Term, shift};
use std::alloc::{AllocError, Global};

/// For some values of the path's binders, each argument equals the head's term at its place, the places of each binder are in range, and
/// each body is true.
pub(crate) fn path_formula(
    alloc: Global,
    signature: &Signature,
    path: &Path,
) -> Result<Formula, AllocError>
    requires { HasRoom (path_of path.now) }
    ensures { IfOk result (λ f. formula_tree f ≡ path_formula (universe_of signature.now) (path_of path.now)) }
{
    let steps = path.steps.as_slice();
    let mut parts = equations(alloc, path.args, count_binders(steps))?;
    add_ranges(alloc, signature, steps, &mut parts)?;
    add_bodies(alloc, steps, &mut parts)?;
    within(alloc, steps, all_of(parts))
}

fn count_binders(steps: &[Step]) -> u32
    requires { binders (map step_of steps.now) ≤ binder_limit }
    ensures { result ≡ binders (map step_of steps.now) }
{
    let mut count = 0;
    for step in steps {
        match step {
            Step::Binder { sort: _, scope: _ } => count += 1,
            Step::Body(_) => {}
        }
    }
    count
}

// That each argument equals its term, under so many binders. The first argument is outermost.
fn equations(alloc: Global, terms: &[Term], binders: u32) -> Result<Vec<Formula>, AllocError>
    requires binders { binders ≤ binder_limit }
    requires terms { count_of (term_trees terms.now) < 2 ^ 31 }
    ensures { IfOk result (λ found. map formula_tree found.items ≡ equations binders (term_trees terms.now)) }
{
    let mut found = Vec::with_capacity(alloc, terms.len())?;
    let mut argument = binders + terms.len() as u32;
    for term in terms {
        argument -= 1;
        found.push(equal(lower(alloc, term, 0)?, variable(argument)))?;
    }
    Ok(found)
}

// That the places of each binder are in range, each read under all of the binders.
fn add_ranges(
    alloc: Global,
    signature: &Signature,
    steps: &[Step],
    parts: &mut Vec<Formula>,
) -> Result<(), AllocError>
    requires low { AreLow (map step_of steps.now) }
    requires binders { binders (map step_of steps.now) ≤ binder_limit }
    ensures { OnOk result (map formula_tree parts.new.items ≡ map formula_tree parts.old.items ++ step_ranges (universe_of signature.now) (map step_of steps.now)) }
{
    let mut inner = count_binders(steps);
    for step in steps {
        match step {
            Step::Binder { sort: _, scope } => {
                inner -= 1;
                let found = ranges(alloc, signature, scope)?;
                add_shifted(alloc, &found, inner, parts)?;
            }
            Step::Body(_) => {}
        }
    }
    Ok(())
}

fn add_shifted(
    alloc: Global,
    formulas: &[Formula],
    by: u32,
    parts: &mut Vec<Formula>,
) -> Result<(), AllocError>
    requires { CanShiftEach 0 by (formula_trees formulas.now) }
    ensures { OnOk result (map formula_tree parts.new.items ≡ map formula_tree parts.old.items ++ map (shifted 0 by) (map formula_tree formulas.now)) }
{
    for formula in formulas {
        parts.push(shift(alloc, formula, 0, by)?)?;
    }
    Ok(())
}

// The bodies, each read under all of the binders.
fn add_bodies(alloc: Global, steps: &[Step], parts: &mut Vec<Formula>) -> Result<(), AllocError>
    requires low { AreLow (map step_of steps.now) }
    requires binders { binders (map step_of steps.now) ≤ binder_limit }
    ensures { OnOk result (map formula_tree parts.new.items ≡ map formula_tree parts.old.items ++ bodies (map step_of steps.now)) }
{
    let mut inner = count_binders(steps);
    for step in steps {
        match step {
            Step::Binder { sort: _, scope: _ } => inner -= 1,
            Step::Body(body) => parts.push(shift(alloc, body, 0, inner)?)?,
        }
    }
    Ok(())
}

// That some values of the steps' binders make a formula true.
fn within(alloc: Global, steps: &[Step], scope: Formula) -> Result<Formula, AllocError>
    ensures { IfOk result (λ f. formula_tree f ≡ within (map step_of steps.now) (formula_tree scope)) }
{
    let mut formula = scope;
    let mut outer = steps.len();
    while outer > 0 {
        outer -= 1;
        formula = under(alloc, &steps[outer], formula)?;
    }
    Ok(formula)
}

fn under(alloc: Global, step: &Step, scope: Formula) -> Result<Formula, AllocError>
    ensures { IfOk result (λ f. formula_tree f ≡ within (step_of step.now ∷ []) (formula_tree scope)) }
{
    match step {
        Step::Binder { sort, scope: _ } => exists(alloc, *sort, scope),
        Step::Body(_) => Ok(scope),
    }
}
