//! How a search ended.

ghost use Rattle.std.specs.Prelude.{◌≡◌};

/// How a search ended, with the number that it tells.
#[derive(Clone, Copy, Debug, PartialEq, Eq)]
pub enum Ending {
    /// All models were found, this many.
    Complete(u64),
    /// The bound on models was reached, this one.
    Models(u64),
    /// The bound on conflicts was reached, this one.
    Conflicts(u64),
}

impl Ending {
    ghost use Rattle.ec_clause.specs.Ending.{is_complete, number_of};

    /// The number of models found, or the bound that was reached.
    pub fn number(self) -> u64
        ensures { result ≡ number_of self }
    {
        match self {
            Ending::Complete(number) | Ending::Models(number) | Ending::Conflicts(number) => number,
        }
    }

    /// Whether no model is left to be found.
    pub fn is_complete(self) -> bool
        ensures { result ≡ is_complete self }
    {
        matches!(self, Ending::Complete(_))
    }
}
