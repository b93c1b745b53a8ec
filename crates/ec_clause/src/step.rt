//! A step is true wherever the clauses that it names are.

ghost use Rattle.std.specs.Prelude.{◌≡◌, ℕ, List, Bool, true};
ghost use Rattle.ec_clause.specs.Literal.{Literal};
ghost use Rattle.ec_clause.specs.ClauseList.{ClauseList};
ghost use Rattle.ec_clause.specs.Step.{IsStep, NamedHold, clause_holds};

/// Whatever makes all clauses true that a step's hints name makes its clause true.
pub fn steps_are_sound()
    ensures { (c : ClauseList) (lits : List Literal) (hints : List ℕ) (v : ℕ → Bool) → IsStep c lits hints → NamedHold v c hints → clause_holds v lits ≡ true }
{}
