//! A partial truth in memory.

ghost use Rattle.std.specs.Prelude.{◌≡◌, ℕ, ◌+◌, ◌-◌, ◌^◌, ◌<◌, ◌≤◌, length, IfOk, Option, None, Bool, replicate, slice_index_or, slice_set};
ghost use Rattle.ec_clause.specs.Truth.{literal_value, with_true};

use crate::lit::Lit;
use std::alloc::{AllocError, Global};
use std::marker::Model;

/// A value, or none, for each variable from 1 to the number of `new`.
#[derive(Drop)]
pub struct Assign {
    // The place 0 stands for no variable.
    values: Vec<Option<bool>>,
}

impl Model for Assign {
    ghost use Rattle.ec_clause.specs.Truth.{Truth};

    ghost Value = { Truth };

    ghost view = { λ a. a.values.items };
}

impl Assign {
    /// No variable has a value. It takes two bytes a variable.
    pub fn new(alloc: Global, variables: u32) -> Result<Assign, AllocError>
        ensures { IfOk result (λ a. a ≡ replicate (variables + 1) None) }
    {
        Ok(Assign {
            values: vec![in alloc; None; variables as usize + 1]?,
        })
    }

    /// The literal's value: that of its variable, or the other one where it is negative.
    pub fn value(&self, lit: Lit) -> Option<bool>
        requires { lit.variable < length self.now }
        ensures { result ≡ literal_value self.now lit }
    {
        match self.values[lit.variable() as usize] {
            None => None,
            Some(value) => Some(value == lit.positive()),
        }
    }

    /// Makes the literal true.
    pub fn set(&mut self, lit: Lit)
        requires range { lit.variable < length self.old }
        requires no_value { slice_index_or self.old lit.variable None ≡ None }
        ensures { self.new ≡ with_true self.old lit }
    {
        self.values[lit.variable() as usize] = Some(lit.positive());
    }

    /// Takes the variable's value away, if it has one.
    pub fn unset(&mut self, variable: u32)
        requires { variable < length self.old }
        ensures { self.new ≡ slice_set self.old variable None }
    {
        self.values[variable as usize] = None;
    }
}
