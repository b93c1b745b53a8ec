//! Whether a clause is a step, by the literals and then by the hints.

ghost use Rattle.std.specs.Prelude.{◌≡◌, ◌+◌, None, length, replicate, IfOk, OnOk, IfErr};
ghost use Rattle.std.specs.Bool.{OnTrue, OnFalse};
ghost use Rattle.ec_clause.specs.ClauseList.{IsClause};
ghost use Rattle.ec_clause.specs.Step.{all_false, hints_fault, IsStep};
ghost use Rattle.ec_rup.specs.Refused.{Says, IsRefused};

use crate::assumed::Assumed;
use crate::fault::StepFault;
use ec_clause::clauses::Clauses;
use ec_clause::lit::Lit;
use ec_clause::look::{Look, look_at};
use std::alloc::AllocError;

/// What is wrong first with a step. Some variables have a value after it.
pub fn judge(
    clauses: &Clauses,
    assumed: &mut Assumed,
    lits: &[Lit],
    hints: &[u32],
) -> Result<(), StepFault>
    requires { assumed.old ≡ replicate (clauses.now.variables + 1) None }
    ensures places { length assumed.new ≡ length assumed.old }
    ensures ok { OnOk result (IsStep clauses.now lits.now hints.now) }
    ensures err { IfErr result (IsRefused clauses.now lits.now hints.now) }
{
    if !make_false(assumed, clauses.variables(), lits)? {
        return Err(StepFault::Lits);
    }
    follow(clauses, assumed, hints)
}

/// Makes each literal false, or answers that they are no clause over this number of variables.
fn make_false(assumed: &mut Assumed, variables: u32, lits: &[Lit]) -> Result<bool, AllocError>
    requires { assumed.old ≡ replicate (variables + 1) None }
    ensures places { length assumed.new ≡ length assumed.old }
    ensures clause { IfOk result (λ b. OnTrue b (IsClause variables lits.now)) }
    ensures truth { IfOk result (λ b. OnTrue b (assumed.new ≡ all_false variables lits.now)) }
    ensures none { IfOk result (λ b. OnFalse b (IsClause variables lits.now → ⊥)) }
{
    for lit in lits {
        if lit.variable() > variables {
            return Ok(false);
        }
        // A literal before it is of this variable.
        if assumed.values().value(*lit).is_some() {
            return Ok(false);
        }
        assumed.make_true(lit.opposite())?;
    }
    Ok(true)
}

/// What is wrong first with the hints.
fn follow(clauses: &Clauses, assumed: &mut Assumed, hints: &[u32]) -> Result<(), StepFault>
    requires { length assumed.old ≡ clauses.now.variables + 1 }
    ensures places { length assumed.new ≡ length assumed.old }
    ensures ok { OnOk result (hints_fault clauses.now hints.now assumed.old 0 ≡ None) }
    ensures err { IfErr result (Says (hints_fault clauses.now hints.now assumed.old 0)) }
{
    for (at, &hint) in hints.iter().enumerate() {
        if hint == 0 || hint > clauses.len() {
            return Err(StepFault::Unknown { at });
        }
        let look = look_at(clauses.get(hint), assumed.values());
        if at + 1 == hints.len() {
            return match look {
                Look::False => Ok(()),
                Look::OneLeft(_) | Look::Other => Err(StepFault::NotFalse),
            };
        }
        match look {
            Look::OneLeft(lit) => assumed.make_true(lit)?,
            Look::False | Look::Other => return Err(StepFault::NotUnit { at }),
        }
    }
    Err(StepFault::NotFalse)
}
