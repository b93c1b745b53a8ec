//! Who is told what a search derives and blocks.

ghost use Rattle.std.specs.Prelude.{◌≡◌, ℕ, List, [], ◌∷◌, ◌++◌, OnOk, OnErr};
ghost use Rattle.ec_clause.specs.Note.{Note, Derived, Blocked};

use crate::lit::Lit;
use std::alloc::AllocError;

/// A keeper of notes.
pub trait Notes {
    /// The notes that it keeps, in order.
    ghost notes: { Self → List Note };

    /// Two numbers that no call changes.
    ghost numbers: { Self → ℕ × ℕ };

    /// Notes a derived clause with the numbers of the clauses that it follows from.
    fn derived(&mut self, lits: &[Lit], hints: &[u32]) -> Result<(), AllocError>
        ensures ok { OnOk result (notes self.new ≡ notes self.old ++ Derived lits.now hints.now ∷ []) }
        ensures err { OnErr result (notes self.new ≡ notes self.old) }
        ensures numbers { numbers self.new ≡ numbers self.old };

    /// Notes a clause that forbids a truth that was found.
    fn blocked(&mut self, lits: &[Lit]) -> Result<(), AllocError>
        ensures ok { OnOk result (notes self.new ≡ notes self.old ++ Blocked lits.now ∷ []) }
        ensures err { OnErr result (notes self.new ≡ notes self.old) }
        ensures numbers { numbers self.new ≡ numbers self.old };
}
