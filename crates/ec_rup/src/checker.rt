//! A list of clauses that grows by steps.

ghost use Rattle.std.specs.Prelude.{◌≡◌, ◌-◌, ◌^◌, ◌<◌, length, IfOk, IfErr, OnOk, OnErr};

use crate::assumed::Assumed;
use crate::fault::StepFault;
use crate::propagation::judge;
use ec_clause::clauses::Clauses;
use ec_clause::lit::Lit;
use std::alloc::{AllocError, Global};
use std::marker::Model;

/// The clauses that were accepted so far, numbered from 1 behind those of the list that it began
/// with, and whether the clause without a literal is one of the steps.
#[derive(Drop)]
pub struct Checker {
    clauses: Clauses,
    assumed: Assumed,
    closed: bool,
}

impl Model for Checker {
    ghost use Rattle.std.specs.Prelude.{◌≡◌, ◌+◌, None, replicate};
    ghost use Rattle.ec_rup.specs.Checked.{Checked};

    ghost Value = { Checked };

    ghost view = { λ a. record { list = a.clauses; closed = a.closed } };

    ghost invariant = { λ a. a.assumed ≡ replicate (a.clauses.variables + 1) None };
}

impl Checker {
    ghost use Rattle.ec_clause.specs.ClauseList.{IsClause};
    ghost use Rattle.ec_clause.specs.Step.{IsStep};
    ghost use Rattle.ec_rup.specs.Checked.{fresh, with_block, with_step};
    ghost use Rattle.ec_rup.specs.Refused.{IsRefused};

    /// Begins with these clauses. It takes two bytes a variable, and later four bytes more for
    /// each variable that one step gives a value.
    pub fn new(alloc: Global, clauses: Clauses) -> Result<Checker, AllocError>
        ensures { IfOk result (λ c. c ≡ fresh clauses) }
    {
        let assumed = Assumed::new(alloc, clauses.variables())?;
        Ok(Checker {
            clauses,
            assumed,
            closed: false,
        })
    }

    /// The number of clauses, which is the last clause's number.
    pub fn len(&self) -> u32
        ensures { result ≡ length self.now.list.clauses }
    {
        self.clauses.len()
    }

    /// Whether a step without a literal was accepted.
    pub fn closed(&self) -> bool
        ensures { result ≡ self.now.closed }
    {
        self.closed
    }

    /// Adds a clause that forbids a truth, under the next number, untested. It takes time linear in
    /// its literals.
    pub fn block(&mut self, lits: &[Lit]) -> Result<(), AllocError>
        requires clause { IsClause self.old.list.variables lits.now }
        requires few { length self.old.list.clauses < 2 ^ 32 - 1 }
        ensures ok { OnOk result (self.new ≡ with_block self.old lits.now) }
        ensures err { OnErr result (self.new ≡ self.old) }
    {
        self.clauses.push(lits)?;
        Ok(())
    }

    /// Adds a clause under the next number if its hints show that it follows from the clauses so
    /// far, and answers what is wrong first otherwise. It takes time linear in its literals and in
    /// those of the clauses that its hints name.
    pub fn step(&mut self, lits: &[Lit], hints: &[u32]) -> Result<(), StepFault>
        requires few { length self.old.list.clauses < 2 ^ 32 - 1 }
        ensures step { OnOk result (IsStep self.old.list lits.now hints.now) }
        ensures ok { OnOk result (self.new ≡ with_step self.old lits.now) }
        ensures fault { IfErr result (IsRefused self.old.list lits.now hints.now) }
        ensures err { OnErr result (self.new ≡ self.old) }
    {
        let judged = judge(&self.clauses, &mut self.assumed, lits, hints);
        self.assumed.clear();
        judged?;
        self.clauses.push(lits)?;
        if lits.is_empty() {
            self.closed = true;
        }
        Ok(())
    }
}
