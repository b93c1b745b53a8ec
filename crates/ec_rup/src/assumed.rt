//! A partial truth whose values are taken back one by one.

ghost use Rattle.std.specs.Prelude.{◌≡◌, ◌+◌, ◌^◌, ◌<◌, None, length, replicate, slice_index_or, IfOk, OnOk, OnErr};
ghost use Rattle.ec_clause.specs.Truth.{with_true};

use ec_clause::assign::Assign;
use ec_clause::lit::Lit;
use std::alloc::{AllocError, Global};
use std::marker::Model;

/// The values that one step assumes.
#[derive(Drop)]
pub struct Assumed {
    values: Assign,
    // The variables that have a value.
    marked: Vec<u32>,
}

impl Model for Assumed {
    ghost use Rattle.ec_clause.specs.Truth.{Truth};
    ghost use Rattle.ec_rup.specs.Marked.{AreMarked};

    ghost Value = { Truth };

    ghost view = { λ a. a.values };

    ghost invariant = { λ a. AreMarked a.values a.marked.items };
}

impl Assumed {
    /// No variable from 1 to `variables` has a value.
    pub fn new(alloc: Global, variables: u32) -> Result<Assumed, AllocError>
        ensures { IfOk result (λ a. a ≡ replicate (variables + 1) None) }
    {
        Ok(Assumed {
            values: Assign::new(alloc, variables)?,
            marked: Vec::new(alloc),
        })
    }

    /// The values.
    pub fn values(&self) -> &Assign
        ensures { result.now ≡ self.now }
    {
        &self.values
    }

    /// Makes the literal true.
    pub fn make_true(&mut self, lit: Lit) -> Result<(), AllocError>
        requires range { lit.variable < length self.old }
        requires no_value { slice_index_or self.old lit.variable None ≡ None }
        ensures ok { OnOk result (self.new ≡ with_true self.old lit) }
        ensures err { OnErr result (self.new ≡ self.old) }
    {
        self.marked.push(lit.variable())?;
        self.values.set(lit);
        Ok(())
    }

    /// Takes all values back, in time linear in the number of variables that have one.
    pub fn clear(&mut self)
        ensures { self.new ≡ replicate (length self.old) None }
    {
        while let Some(variable) = self.marked.pop() {
            self.values.unset(variable);
        }
    }
}
