//! A walk through the lines of a log, each judged by those before it.
ghost use Rattle.std.specs.Prelude.{◌≡◌, ◌≤◌, ◌<◌, ◌^◌, ◌-◌, ◌↔◌, [], ℕ, Bool, List, length, IfOk, IsTrue};
ghost use Rattle.ec_certificate.specs.Accepted.{IsEndedBy};
ghost use Rattle.ec_checking.specs.Checked.{AreTruthsOver};
ghost use Rattle.ec_checking.specs.Left.{Blocks};
ghost use Rattle.ec_checking.specs.Walk.{Keeps, HasWalked, IsTurn};
ghost use Rattle.ec_clause.specs.ClauseList.{ClauseList};
ghost use Rattle.ec_clause.specs.Note.{Note};
ghost use Rattle.ec_clause.specs.declared.ending.Ending.{Ending};
ghost use Rattle.ec_log.specs.Line as log;
ghost use Rattle.ec_log.specs.Reading.{view};

use crate::left::Left;
use crate::truth::forbidding;
use ec_clause::clauses::Clauses;
use ec_clause::ending::Ending;
use ec_clause::lit::Lit;
use ec_log::Line;
use ec_row::Row;
use ec_rup::{Checker, StepFault};
use std::alloc::{AllocError, Global};

/// What a line comes to, by those before it.
#[derive(Clone, Copy, Debug, PartialEq, Eq)]
pub(crate) enum Turn {
    /// It is that of a note that may follow.
    Note,
    /// It is the end line, which may follow.
    End,
    /// It is neither.
    Fault,
}

/// The clauses that stand so far, the truths that are still to be blocked, and how many lines were
/// derived.
#[derive(Drop)]
pub(crate) struct Walk {
    checker: Checker,
    left: Left,
    derived: u64,
}

impl Walk {
    /// Before the first note of a log for these clauses and truths.
    pub(crate) fn new(alloc: Global, clauses: Clauses, truths: &[Row]) -> Result<Walk, AllocError>
        requires over { AreTruthsOver clauses.variables truths.now }
        requires small { clauses.variables < 2 ^ 31 }
        ensures { IfOk result (λ walk. Keeps clauses truths.now [] walk) }
    {
        Ok(Walk {
            checker: Checker::new(alloc, clauses)?,
            left: Left::new(alloc, truths)?,
            derived: 0,
        })
    }

    /// Judges the next line, and comes past it where it is that of a note. It takes time linear in
    /// the line and in the clauses that its hints name. After an `Err` it is of no further use.
    pub(crate) fn take(
        &mut self,
        alloc: Global,
        truths: &[Row],
        ending: &Ending,
        line: &Line,
    ) -> Result<Turn, AllocError>
        requires walked { HasWalked truths.now self.old }
        requires few { length self.old.checker.list.clauses < 2 ^ 32 - 1 }
        requires over { AreTruthsOver self.old.checker.list.variables truths.now }
        requires small { self.old.checker.list.variables < 2 ^ 31 }
        ensures { (list : ClauseList) (notes : List Note) → Keeps list truths.now notes self.old
            → IfOk result (IsTurn list truths.now ending.now notes (view line.now) self.new) }
    {
        match line {
            Line::Header { .. } => Ok(Turn::Fault),
            Line::Derived { lits, hints } => self.derive(lits, hints),
            Line::Blocked { digits } => self.block(alloc, truths, digits),
            Line::End(found) => Ok(self.end(found, ending)),
        }
    }

    fn derive(&mut self, lits: &[Lit], hints: &[u32]) -> Result<Turn, AllocError>
        requires few { length self.old.checker.list.clauses < 2 ^ 32 - 1 }
        requires counted { self.old.derived ≤ length self.old.checker.list.clauses }
        ensures { (list : ClauseList) (truths : List (List Bool)) (ending : Ending) (notes : List Note) → Keeps list truths notes self.old
            → IfOk result (IsTurn list truths ending notes (log.Derived lits.now hints.now) self.new) }
    {
        // Nothing but the end line follows a clause without a literal.
        if self.checker.closed() {
            return Ok(Turn::Fault);
        }
        match self.checker.step(lits, hints) {
            Ok(()) => {
                self.derived += 1;
                Ok(Turn::Note)
            }
            Err(StepFault::Memory) => Err(AllocError),
            Err(_) => Ok(Turn::Fault),
        }
    }

    fn block(&mut self, alloc: Global, truths: &[Row], digits: &Vec<u8>) -> Result<Turn, AllocError>
        requires walked { HasWalked truths.now self.old }
        requires few { length self.old.checker.list.clauses < 2 ^ 32 - 1 }
        requires over { AreTruthsOver self.old.checker.list.variables truths.now }
        requires small { self.old.checker.list.variables < 2 ^ 31 }
        ensures { (list : ClauseList) (ending : Ending) (notes : List Note) → Keeps list truths.now notes self.old
            → IfOk result (IsTurn list truths.now ending notes (log.Blocked digits.now.items) self.new) }
    {
        if self.checker.closed() {
            return Ok(Turn::Fault);
        }
        let Some(place) = self.left.take(digits) else {
            // No truth with these digits is left.
            return Ok(Turn::Fault);
        };
        let Some(truth) = truths.get(place) else {
            unreachable!()
        };
        let lits = forbidding(alloc, truth)?;
        self.checker.block(&lits)?;
        Ok(Turn::Note)
    }

    fn end(&self, found: &Ending, ending: &Ending) -> Turn
        ensures { (list : ClauseList) (truths : List (List Bool)) (notes : List Note) → Keeps list truths notes self.now
            → IsTurn list truths ending.now notes (log.End found.now) self.now result }
    {
        if found != ending {
            return Turn::Fault;
        }
        if !self.left.is_empty() {
            return Turn::Fault;
        }
        if self.is_ended_by(ending) {
            Turn::End
        } else {
            Turn::Fault
        }
    }

    // Whether the notes are in keeping with the ending.
    fn is_ended_by(&self, ending: &Ending) -> bool
        ensures { (list : ClauseList) (truths : List (List Bool)) (notes : List Note) → Keeps list truths notes self.now
            → IsTrue result ↔ IsEndedBy notes ending.now }
    {
        match ending {
            Ending::Complete(_) => self.checker.closed(),
            Ending::Models(_) => !self.checker.closed(),
            Ending::Conflicts(count) => !self.checker.closed() && self.derived == *count,
        }
    }
}
