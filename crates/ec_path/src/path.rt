//! Paths of a clause tree.
ghost use Rattle.std.specs.Prelude.{◌≡◌, ◌++◌, map, IfOk};
ghost use Rattle.ec_logic.specs.Paths.{paths, paths_of, under};
ghost use Rattle.ec_theory.specs.View.{formula_tree, formula_trees};
ghost use Rattle.ec_path.specs.View.{below, path_of, step_of};

use ec_theory::{Formula, Term};
use std::alloc::{AllocError, Global};

/// What stands above a head.
#[derive(Clone, Copy)]
pub enum Step<'a> {
    /// A for all, with its sort and its scope.
    Binder { sort: u32, scope: &'a Formula },
    /// The left side of an implication.
    Body(&'a Formula),
}

/// A head, with what stands above it, the outermost first.
#[derive(Drop)]
pub struct Path<'a> {
    pub steps: Vec<Step<'a>>,
    pub predicate: u32,
    pub args: &'a [Term],
}

/// The paths of a clause tree, in reading order. Any other formula has none.
///
/// Time and memory grow with the heads times their depth.
#[tactic(auto, using(crate::proofs::GatherLemmas::gathered_whole))]
pub fn paths<'a>(alloc: Global, formula: &'a Formula) -> Result<Vec<Path<'a>>, AllocError>
    ensures { IfOk result (λ found. map path_of found.items ≡ paths (formula_tree formula.now)) }
{
    let mut found = Vec::new(alloc);
    let mut above = Vec::new(alloc);
    gather(alloc, formula, &mut above, &mut found)?;
    Ok(found)
}

// Puts the paths of a formula behind those found before, each below the steps that stand above the formula.
#[cycle(paths)]
#[tactic(auto, using(crate::proofs::GatherLemmas::gathered_atom))]
fn gather<'a>(
    alloc: Global,
    formula: &'a Formula,
    above: &mut Vec<Step<'a>>,
    found: &mut Vec<Path<'a>>,
) -> Result<(), AllocError>
    ensures paths { IfOk result (λ _. map path_of found.new.items ≡ map path_of found.old.items ++ below (map step_of above.old.items) (paths (formula_tree formula.now))) }
    ensures above { IfOk result (λ _. above.new.items ≡ above.old.items) }
{
    match formula {
        Formula::Atom { predicate, args } => {
            let steps = copied(alloc, above)?;
            found.push(Path {
                steps,
                predicate: *predicate,
                args,
            })?;
            Ok(())
        }
        Formula::Implies(body, head) => {
            gather_under(alloc, Step::Body(body), head, above, found)
        }
        Formula::ForAll { sort, scope } => gather_under(
            alloc,
            Step::Binder { sort: *sort, scope },
            scope,
            above,
            found,
        ),
        Formula::And(parts) => gather_each(alloc, parts, above, found),
        Formula::True
        | Formula::False
        | Formula::Equal(_, _)
        | Formula::Less(_, _)
        | Formula::Not(_)
        | Formula::Or(_)
        | Formula::Iff(_, _)
        | Formula::Exists { sort: _, scope: _ } => Ok(()),
    }
}

// The same with one more step above.
#[cycle(paths)]
#[tactic(auto, using(crate::proofs::GatherLemmas::gathered_pushed))]
fn gather_under<'a>(
    alloc: Global,
    step: Step<'a>,
    formula: &'a Formula,
    above: &mut Vec<Step<'a>>,
    found: &mut Vec<Path<'a>>,
) -> Result<(), AllocError>
    ensures paths { IfOk result (λ _. map path_of found.new.items ≡ map path_of found.old.items ++ below (map step_of above.old.items) (map (under (step_of step.entry)) (paths (formula_tree formula.now)))) }
    ensures above { IfOk result (λ _. above.new.items ≡ above.old.items) }
{
    above.push(step)?;
    gather(alloc, formula, above, found)?;
    above.pop();
    Ok(())
}

#[cycle(paths)]
fn gather_each<'a>(
    alloc: Global,
    formulas: &'a [Formula],
    above: &mut Vec<Step<'a>>,
    found: &mut Vec<Path<'a>>,
) -> Result<(), AllocError>
    ensures paths { IfOk result (λ _. map path_of found.new.items ≡ map path_of found.old.items ++ below (map step_of above.old.items) (paths_of (formula_trees formulas.now))) }
    ensures above { IfOk result (λ _. above.new.items ≡ above.old.items) }
{
    for formula in formulas {
        gather(alloc, formula, above, found)?;
    }
    Ok(())
}

fn copied<'a>(alloc: Global, steps: &[Step<'a>]) -> Result<Vec<Step<'a>>, AllocError>
    ensures { IfOk result (λ copy. map step_of copy.items ≡ map step_of steps.now) }
{
    Vec::from_slice(alloc, steps)
}
