//! A numbered list of clauses.

ghost use Rattle.std.specs.Prelude.{◌≡◌, ℕ, [], ◌∷◌, ◌++◌, ◌+◌, ◌-◌, ◌^◌, ◌<◌, ◌≤◌, length, take, All, IfOk, OnOk, OnErr};

use crate::lit::Lit;
use std::alloc::{AllocError, Global};
use std::marker::Model;

/// Where a clause's literals stand in the vector of all literals.
#[derive(Clone, Copy)]
struct Span {
    start: usize,
    len: usize,
}

/// Clauses over the variables from 1 to a number, themselves numbered from 1. The literals of
/// all clauses lie in one vector, so that a clause is one slice of it.
#[derive(Drop)]
pub struct Clauses {
    variables: u32,
    lits: Vec<Lit>,
    spans: Vec<Span>,
}

impl Model for Clauses {
    ghost use Rattle.ec_clause.specs.ClauseList.{ClauseList, pieces, AreSpans};

    ghost Value = { ClauseList };

    ghost view = { λ a. record { variables = a.variables; clauses = pieces a.lits.items a.spans.items } };

    ghost invariant = { λ a. AreSpans a.variables a.lits.items a.spans.items };
}

impl Clauses {
    ghost use Rattle.ec_clause.specs.ClauseList.{IsClause, clause_at};

    /// No clause over the variables from 1 to `variables`.
    pub fn new(alloc: Global, variables: u32) -> Clauses
        requires { variables < 2 ^ 31 }
        ensures variables { result.variables ≡ variables }
        ensures clauses { result.clauses ≡ [] }
    {
        Clauses {
            variables,
            lits: Vec::new(alloc),
            spans: Vec::new(alloc),
        }
    }

    /// The number of variables.
    pub fn variables(&self) -> u32
        ensures value { result ≡ self.now.variables }
        ensures small { result < 2 ^ 31 }
    {
        self.variables
    }

    /// The number of clauses, which is the last clause's number.
    pub fn len(&self) -> u32
        ensures value { result ≡ length self.now.clauses }
        ensures clauses { All (IsClause self.now.variables) self.now.clauses }
    {
        self.spans.len() as u32
    }

    /// The clause of a number, in constant time.
    pub fn get(&self, number: u32) -> &[Lit]
        requires low { 1 ≤ number }
        requires high { number ≤ length self.now.clauses }
        ensures value { result.now ≡ clause_at self.now number }
        ensures clause { IsClause self.now.variables result.now }
    {
        let span = self.spans[number as usize - 1];
        &self.lits[span.start..span.start + span.len]
    }

    /// Adds a clause under the next number, and answers that number.
    pub fn push(&mut self, lits: &[Lit]) -> Result<u32, AllocError>
        requires clause { IsClause self.old.variables lits.now }
        requires few { length self.old.clauses < 2 ^ 32 - 1 }
        ensures variables { self.new.variables ≡ self.old.variables }
        ensures ok { OnOk result (self.new.clauses ≡ self.old.clauses ++ lits.now ∷ []) }
        ensures number { IfOk result (λ n. n ≡ length self.old.clauses + 1) }
        ensures err { OnErr result (self.new.clauses ≡ self.old.clauses) }
    {
        self.spans.reserve(1)?;
        let start = self.lits.len();
        self.lits.extend_from_slice(lits)?;
        self.spans.push_reserved(Span {
            start,
            len: lits.len(),
        });
        Ok(self.spans.len() as u32)
    }

    /// Keeps the first `len` clauses, or all where there are no more.
    pub fn truncate(&mut self, len: u32)
        ensures variables { self.new.variables ≡ self.old.variables }
        ensures clauses { self.new.clauses ≡ take len self.old.clauses }
    {
        if (len as usize) < self.spans.len() {
            let span = self.spans[len as usize];
            self.lits.truncate(span.start);
            self.spans.truncate(len as usize);
        }
    }
}

ghost use Rattle.std.specs.Prelude.{◌↔◌, ◌≢◌, IsTrue};
ghost use Rattle.std.specs.Bool.{OnTrue, OnFalse};
ghost use Rattle.ec_clause.specs.Literal.{Literal};
ghost use Rattle.ec_clause.specs.ClauseList.{IsClause};

/// Whether `push` takes these literals into a list over this number of variables. It takes no
/// memory, and time quadratic in the number of literals.
pub fn is_clause(variables: u32, lits: &[Lit]) -> bool
    ensures { IsTrue result ↔ IsClause variables lits.now }
{
    for (place, lit) in lits.iter().enumerate() {
        if lit.variable() > variables {
            return false;
        }
        if has_variable(&lits[..place], lit.variable()) {
            return false;
        }
    }
    true
}

fn has_variable(lits: &[Lit], variable: u32) -> bool
    ensures yes { OnTrue result (All (λ (l : Literal). l.variable ≢ variable) lits.now → ⊥) }
    ensures no { OnFalse result (All (λ (l : Literal). l.variable ≢ variable) lits.now) }
{
    for lit in lits {
        if lit.variable() == variable {
            return true;
        }
    }
    false
}
