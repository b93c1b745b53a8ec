//! What a solver answers, and where it stands.

/// What a call of `next` found.
#[derive(Clone, Copy, Debug, PartialEq, Eq)]
pub enum Next {
    /// A truth that satisfies all clauses.
    Model,
    /// No truth is left: the empty clause was derived.
    Exhausted,
    /// The limit on derived clauses was reached.
    Conflicts,
    /// Memory was refused.
    Memory,
}

/// Where a solver stands.
#[derive(Clone, Copy, Debug, PartialEq, Eq)]
pub enum Phase {
    /// It can search.
    Ready,
    /// It holds a model, which can be blocked.
    Found,
    /// It is done with.
    Ended,
}

impl Next {
    ghost use Rattle.std.specs.Prelude.{◌≡◌};
    ghost use Rattle.ec_sat.specs.Searched.{phase_after};

    /// Where the answer leaves a solver.
    pub fn phase(self) -> Phase
        ensures { result ≡ phase_after self }
    {
        match self {
            Next::Model => Phase::Found,
            Next::Exhausted | Next::Conflicts | Next::Memory => Phase::Ended,
        }
    }
}
