//! The truths of a list that are still to be blocked.
ghost use Rattle.std.specs.Prelude.{◌≡◌, ◌++◌, ◌∷◌, ◌↔◌, [], ℕ, Bool, List, length, All, IfOk, MatchOption, IsTrue};
ghost use Rattle.ec_certificate.specs.Accepted.{forbids};
ghost use Rattle.ec_checking.specs.Left.{AreLeft, IsOpen, table_of, truth_at, HasShort, Blocks, IsBlocked};
ghost use Rattle.ec_clause.specs.Note.{Note, Blocked};

use crate::truth::digits_of;
use ec_row::Row;
use indexmap::IndexMap;
use std::alloc::{AllocError, Global};

/// The places in the list of the truths that no line has blocked yet, by the digits of their lines.
#[derive(Drop)]
pub(crate) struct Left {
    places: IndexMap<Vec<u8>, usize>,
}

impl Left {
    /// All truths of the list. It takes a place and a digit for four truth values for each truth.
    pub(crate) fn new(alloc: Global, truths: &[Row]) -> Result<Left, AllocError>
        requires { HasShort truths.now }
        ensures { IfOk result (λ left. AreLeft truths.now [] (table_of left)) }
    {
        let mut places = IndexMap::new(alloc);
        for (place, truth) in truths.iter().enumerate() {
            places.insert(digits_of(alloc, truth)?, place)?;
        }
        Ok(Left { places })
    }

    /// Takes out the truth with these digits, and answers its place, if it is still to be blocked.
    pub(crate) fn take(&mut self, digits: &Vec<u8>) -> Option<usize>
        ensures { (visible : ℕ) (truths : List (List Bool)) (notes : List Note) → All (λ truth. length truth ≡ visible) truths
            → AreLeft truths notes (table_of self.old)
            → MatchOption result (IsBlocked truths notes digits.now.items)
            (λ place. IsOpen truths notes digits.now.items place
            × AreLeft truths (notes ++ Blocked (forbids (truth_at truths place)) ∷ []) (table_of self.new)) }
    {
        // A truth is blocked once.
        self.places.swap_remove(digits)
    }

    /// Whether no truth is still to be blocked.
    pub(crate) fn is_empty(&self) -> bool
        ensures { (truths : List (List Bool)) (notes : List Note) → AreLeft truths notes (table_of self.now)
            → IsTrue result ↔ Blocks notes truths }
    {
        self.places.is_empty()
    }
}
