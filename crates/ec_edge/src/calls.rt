//! The calls of one kind: how many there were, and which of them are set to fail.
ghost use Rattle.std.specs.Prelude.{◌≡◌, ◌↔◌, IsTrue, OnOk, OnErr};
ghost use Rattle.ec_edge.specs.Plan.{no_calls, after_call, failing_too, FailsNext};

use std::alloc::{AllocError, Global};
use std::marker::Model;

#[derive(Drop)]
pub(crate) struct Calls {
    made: u64,
    failing: Vec<u64>,
}

impl Model for Calls {
    ghost use Rattle.ec_edge.specs.Plan.{CallPlan};

    ghost Value = { CallPlan };

    ghost view = { λ c. record { made = c.made; failing = c.failing.items } };
}

impl Calls {
    pub(crate) fn new(alloc: Global) -> Calls
        ensures { result ≡ no_calls }
    {
        Calls {
            made: 0,
            failing: Vec::new(alloc),
        }
    }

    // Sets the n-th call to fail, besides those that are set already.
    pub(crate) fn fail(&mut self, n: u64) -> Result<(), AllocError>
        ensures set { OnOk result (self.new ≡ failing_too self.old n) }
        ensures err { OnErr result (self.new ≡ self.old) }
    {
        self.failing.push(n)?;
        Ok(())
    }

    // Counts a call, and answers whether it is set to fail.
    pub(crate) fn next_fails(&mut self) -> bool
        ensures counted { self.new ≡ after_call self.old }
        ensures fails { IsTrue result ↔ FailsNext self.old }
    {
        self.made = self.made.saturating_add(1);
        self.failing.contains(&self.made)
    }
}
