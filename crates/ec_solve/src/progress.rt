//! A search under way.
ghost use Rattle.std.specs.Prelude.{◌≡◌, ℕ, ◌+◌, ◌≤◌, ◌<◌, ◌^◌, [], ◌∷◌, ◌++◌, length, map, IfOk, OnOk};
ghost use Rattle.std.specs.List.Sorted.{IsPermutation, IsSorted};
ghost use Rattle.std.specs.Cmp.Lexicographic.{slice_cmp};
ghost use Rattle.std.specs.Ordering.{bool_cmp};
ghost use Rattle.std.specs.List.{range_with_len};
ghost use Rattle.ec_clause.specs.ClauseList.{ClauseList};
ghost use Rattle.ec_sat.specs.Run.{value_in};

use crate::searching::{Bounds, Found};
use ec_clause::ending::Ending;
use ec_encode::Cnf;
use ec_log::Writer;
use ec_row::Row;
use ec_sat::answer::{Next, Phase};
use ec_sat::solver::Solver;
use std::alloc::{AllocError, Global};

/// A search under way: the truths that it found so far, and the log of how.
#[derive(Drop)]
pub struct Progress {
    alloc: Global,
    visible: u32,
    solver: Solver,
    truths: Vec<Row>,
    log: Writer,
}

impl Progress {
    ghost use Rattle.ec_certificate.specs.Shown.{visible_part};
    ghost use Rattle.ec_sat.specs.Searched.{Blocks};
    ghost use Rattle.ec_solve.specs.Progress.{IsGoing, IsDone, Steps};

    /// A search of a clause list that has found nothing yet. It takes memory linear in the number of variables.
    pub fn new(alloc: Global, list: Cnf) -> Result<Progress, AllocError>
        requires visible { list.visible ≤ list.clauses.variables }
        requires few_variables { list.clauses.variables ≤ 2 ^ 29 }
        requires few_clauses { length list.clauses.clauses ≤ 2 ^ 29 }
        ensures visible { IfOk result (λ progress. progress.visible ≡ list.visible) }
        ensures list { IfOk result (λ progress. progress.solver.list ≡ list.clauses) }
        ensures truths { IfOk result (λ progress. progress.truths.items ≡ []) }
        ensures going { IfOk result (λ progress. (conflicts : ℕ) → 1 ≤ conflicts → IsGoing list.clauses conflicts progress.visible progress.truths.items progress.log progress.solver) }
    {
        let log = Writer::new(alloc, list.clauses.variables(), list.clauses.len());
        let solver = Solver::new(alloc, list.clauses, list.visible)?;
        Ok(Progress {
            alloc,
            visible: list.visible,
            solver,
            truths: Vec::new(alloc),
            log,
        })
    }

    /// Finds truths until none is left or a bound is reached, and answers which.
    pub fn run(&mut self, bounds: Bounds) -> Result<Ending, AllocError>
        ghost list: { ClauseList }
        requires going { IsGoing list bounds.conflicts self.old.visible self.old.truths.items self.old.log self.old.solver }
        requires none { self.old.truths.items ≡ [] }
        requires models { bounds.models ≤ 10000 }
        requires conflicts { bounds.conflicts ≤ 2000000000 }
        ensures visible { self.new.visible ≡ self.old.visible }
        ensures done { IfOk result (λ ending. IsDone list bounds self.new.visible self.new.truths.items self.new.log ending) }
    {
        while (self.truths.len() as u64) < bounds.models {
            if let Some(ending) = self.step(bounds)? {
                return Ok(ending);
            }
        }
        Ok(Ending::Models(bounds.models))
    }

    // Finds one truth more, and answers nothing, or how the search ended without.
    fn step(&mut self, bounds: Bounds) -> Result<Option<Ending>, AllocError>
        ghost list: { ClauseList }
        requires going { IsGoing list bounds.conflicts self.old.visible self.old.truths.items self.old.log self.old.solver }
        requires room { length self.old.truths.items < bounds.models }
        requires models { bounds.models ≤ 10000 }
        requires conflicts { bounds.conflicts ≤ 2000000000 }
        ensures visible { self.new.visible ≡ self.old.visible }
        ensures steps { IfOk result (λ ending. Steps list bounds self.old self.new ending) }
    {
        match self.solver.next(&mut self.log, bounds.conflicts) {
            Next::Model => {
                self.keep_model()?;
                Ok(None)
            }
            Next::Exhausted => Ok(Some(Ending::Complete(self.truths.len() as u64))),
            Next::Conflicts => Ok(Some(Ending::Conflicts(bounds.conflicts))),
            Next::Memory => Err(AllocError),
        }
    }

    // Keeps the truth of the model that was found, and blocks it.
    fn keep_model(&mut self) -> Result<(), AllocError>
        requires found { self.old.solver.phase ≡ Phase.Found }
        requires seen { self.old.solver.visible ≡ self.old.visible }
        requires few { self.old.solver.blocked < 2 ^ 20 }
        ensures visible { self.new.visible ≡ self.old.visible }
        ensures numbers { self.new.log.numbers ≡ self.old.log.numbers }
        ensures truths { OnOk result (self.new.truths.items ≡ self.old.truths.items ++ visible_part self.old.visible (value_in self.old.solver.assignment) ∷ []) }
        ensures blocks { OnOk result (Blocks self.old.solver self.new.solver self.old.log.notes self.new.log.notes) }
    {
        let truth = visible_truth(self.alloc, &self.solver, self.visible)?;
        self.truths.push(truth)?;
        self.solver.block(&mut self.log)
    }

    /// What was found, with the truths in rising order. Sorting takes no memory.
    pub fn finish(self, ending: Ending) -> Found
        ensures ending { result.ending ≡ ending }
        ensures log { result.log ≡ self.log }
        ensures permutation { IsPermutation self.truths.items result.truths.items }
        ensures sorted { IsSorted (slice_cmp bool_cmp) result.truths.items }
    {
        let mut truths = self.truths;
        truths.sort_unstable();
        Found {
            truths,
            ending,
            log: self.log,
        }
    }
}

// The truth of the visible variables in the model that was found.
fn visible_truth(alloc: Global, solver: &Solver, visible: u32) -> Result<Row, AllocError>
    requires found { solver.now.phase ≡ Phase.Found }
    requires seen { solver.now.visible ≡ visible }
    ensures { IfOk result (λ truth. truth ≡ map (value_in solver.now.assignment) (range_with_len 1 visible)) }
{
    let mut truth = Row::of_len(alloc, visible as usize)?;
    for place in 0..visible {
        truth.set(place as usize, solver.truth(place + 1));
    }
    Ok(truth)
}
