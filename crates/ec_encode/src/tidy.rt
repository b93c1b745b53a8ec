//! Clauses tidied: no literal twice, none with two opposite literals.
//!
//! A mark for each variable says with which sign it was seen, so that a clause is tidied in time linear in its length.
//! The marks are taken away after each clause.

ghost use Rattle.std.specs.Prelude.{◌≡◌, ℕ, ◌+◌, ◌-◌, ◌<◌, ◌^◌, length, [], ◌∷◌, ◌++◌, IfOk, OnOk, OnErr, IsTrue, not, if◌then◌else◌};
ghost use Rattle.ec_clause.specs.ClauseList.{IsClause};
ghost use Rattle.ec_naming.specs.Tidy.{tidied};
ghost use Rattle.ec_naming.specs.Marks.{kept_after, clash_after, marks_after, unmarked, blank, AreInRange};

use ec_clause::assign::Assign;
use ec_clause::clauses::Clauses;
use ec_clause::lit::Lit;
use std::alloc::{AllocError, Global};
use std::marker::Model;

// Keeps each literal at its first place, and says whether two are opposite.
fn mark(marks: &mut Assign, kept: &mut Vec<Lit>, raw: &[Lit]) -> Result<bool, AllocError>
    requires range { AreInRange (length marks.old - 1) raw.now }
    ensures clash { IfOk result (λ clash. clash ≡ clash_after marks.old raw.now) }
    ensures kept { OnOk result (kept.new.items ≡ kept_after marks.old raw.now) }
    ensures marks { OnOk result (marks.new ≡ marks_after marks.old raw.now) }
    ensures err { OnErr result (marks.new ≡ marks.old) }
{
    kept.clear();
    kept.reserve(raw.len())?;
    let mut clash = false;
    for lit in raw {
        match marks.value(*lit) {
            None => {
                marks.set(*lit);
                kept.push_reserved(*lit);
            }
            Some(true) => {}
            Some(false) => clash = true,
        }
    }
    Ok(clash)
}

// Takes away the marks of a clause's variables.
fn unmark(marks: &mut Assign, raw: &[Lit])
    requires { AreInRange (length marks.old - 1) raw.now }
    ensures { marks.new ≡ unmarked marks.old raw.now }
{
    for lit in raw {
        marks.unset(lit.variable());
    }
}

// What is kept of a clause, and whether it has opposite literals; the marks are taken away again.
#[tactic(auto, using(ec_naming::proofs::Keeping::range_marks, ec_naming::proofs::Keeping::range_after, ec_naming::proofs::Keeping::unmarked_after))]
fn sift(
    variables: u32,
    marks: &mut Assign,
    kept: &mut Vec<Lit>,
    raw: &[Lit],
) -> Result<bool, AllocError>
    requires blank { marks.old ≡ blank variables }
    requires range { AreInRange variables raw.now }
    ensures clash { IfOk result (λ clash. clash ≡ clash_after (blank variables) raw.now) }
    ensures kept { OnOk result (kept.new.items ≡ kept_after (blank variables) raw.now) }
    ensures marks { marks.new ≡ blank variables }
{
    let clash = mark(marks, kept, raw)?;
    unmark(marks, raw);
    Ok(clash)
}

// Adds a clause, unless there is a clash.
fn add_unless(clauses: &mut Clauses, clash: bool, kept: &[Lit]) -> Result<(), AllocError>
    requires clause { IsTrue (not clash) → IsClause clauses.old.variables kept.now }
    requires few { length clauses.old.clauses < 2 ^ 32 - 1 }
    ensures variables { clauses.new.variables ≡ clauses.old.variables }
    ensures ok { OnOk result (clauses.new.clauses ≡ (if clash then clauses.old.clauses else clauses.old.clauses ++ kept.now ∷ [])) }
{
    if !clash {
        clauses.push(kept)?;
    }
    Ok(())
}

/// A mark for each variable, none set between clauses, and room for what is kept of a clause.
#[derive(Drop)]
pub struct Tidy {
    variables: u32,
    marks: Assign,
    kept: Vec<Lit>,
}

impl Model for Tidy {
    ghost use Rattle.std.specs.Prelude.{◌≡◌, ℕ};
    ghost use Rattle.ec_naming.specs.Marks.{blank};

    ghost Value = { ℕ };

    ghost view = { λ a. a.variables };

    ghost invariant = { λ a. a.marks ≡ blank a.variables };
}

impl Tidy {
    /// Room for clauses over the variables from 1 to `variables`.
    pub fn new(alloc: Global, variables: u32) -> Result<Tidy, AllocError>
        ensures { IfOk result (λ a. a ≡ variables) }
    {
        Ok(Tidy {
            variables,
            marks: Assign::new(alloc, variables)?,
            kept: Vec::new(alloc),
        })
    }

    /// Adds a clause, tidied, unless two of its literals are opposite.
    pub fn push(&mut self, clauses: &mut Clauses, raw: &[Lit]) -> Result<(), AllocError>
        requires variables { clauses.old.variables ≡ self.old }
        requires range { AreInRange self.old raw.now }
        requires few { length clauses.old.clauses < 2 ^ 32 - 1 }
        ensures same { self.new ≡ self.old }
        ensures variables { clauses.new.variables ≡ clauses.old.variables }
        ensures ok { OnOk result (clauses.new.clauses ≡ clauses.old.clauses ++ tidied (raw.now ∷ [])) }
    {
        let clash = sift(self.variables, &mut self.marks, &mut self.kept, raw)?;
        add_unless(clauses, clash, &self.kept)
    }
}
