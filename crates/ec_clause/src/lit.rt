//! A variable, as it is or negated.

ghost use Rattle.std.specs.Prelude.{◌≡◌, ℕ, ◌^◌, ◌<◌, ◌≤◌};
ghost use Rattle.ec_clause.specs.Literal.{opposite};

use std::marker::Model;

/// A literal: a propositional variable, or its negation. It takes four bytes.
#[derive(Clone, Copy, Debug, PartialEq, Eq)]
pub struct Lit(i32);

impl Model for Lit {
    ghost use Rattle.ec_clause.specs.Literal.{Literal, literal_code, literal_of, number_of, IsNumber};

    ghost Value = { Literal };

    ghost coded = { literal_code };

    ghost view = { λ a. literal_of a.0 };

    ghost invariant = { λ a. IsNumber a.0 };

    ghost inverse = { λ l. record { 0 = number_of l } };
}

impl Lit {
    /// The variable where `positive`, and its negation otherwise.
    pub fn new(variable: u32, positive: bool) -> Lit
        requires low { 1 ≤ variable }
        requires high { variable < 2 ^ 31 }
        ensures variable { result.variable ≡ variable }
        ensures positive { result.positive ≡ positive }
    {
        let number = variable as i32;
        if positive { Lit(number) } else { Lit(-number) }
    }

    /// The variable, from 1 to 2^31 - 1.
    pub fn variable(self) -> u32
        ensures variable { result ≡ self.variable }
        ensures low { 1 ≤ result }
        ensures high { result < 2 ^ 31 }
    {
        self.0.unsigned_abs()
    }

    /// Whether the variable stands as it is.
    pub fn positive(self) -> bool
        ensures { result ≡ self.positive }
    {
        self.0 > 0
    }

    /// The literal of the same variable with the other sign.
    pub fn opposite(self) -> Lit
        ensures { result ≡ opposite self }
    {
        Lit(-self.0)
    }
}
