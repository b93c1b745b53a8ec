//! Rows.
ghost use Rattle.std.specs.Prelude.{◌≡◌, ◌<◌, false, length, refl, replicate, set, slice_get, IfOk, Some};
ghost use Rattle.std.specs.Cmp.{bool_cmp_total, bool_eq_equiv, partial_equiv_from_equiv, partial_order_from_agreeing_total};
ghost use Rattle.std.specs.Cmp.Lexicographic.{lists_equiv, lists_ties, lists_total, pointwise, slice_cmp};
ghost use Rattle.std.specs.Bool.{beq};
ghost use Rattle.std.specs.Ordering.{as_partial_cmp, bool_cmp};
ghost use Rattle.std.proofs.Common.{rules};

use crate::bits::{WORD, bit_at, clear_words, has_same_bits, order_of_bits, set_bit};
use std::alloc::{AllocError, Global};
use std::cmp::Ordering;
use std::marker::Model;

/// A list of truth values. It takes a bit for each.
///
/// Two rows are equal where they have the same truth values in the same order. They are ordered by the first place
/// in which they differ, false before true, and a row stands before each longer one that it begins.
#[derive(Drop)]
pub struct Row {
    words: Vec<u64>,
    len: usize,
}

impl Model for Row {
    ghost use Rattle.std.specs.Prelude.{List, Bool};
    ghost use Rattle.ec_row.specs.Bits.{bits_in, IsPacked};

    ghost Value = { List Bool };

    ghost view = { λ r. bits_in r.words.items r.len };

    ghost invariant = { λ r. IsPacked r.words.items r.len };
}

impl Row {
    /// So many truth values, all false.
    pub fn of_len(alloc: Global, len: usize) -> Result<Row, AllocError>
        ensures { IfOk result (λ row. row ≡ replicate len false) }
    {
        let words = clear_words(alloc, len.div_ceil(WORD))?;
        Ok(Row { words, len })
    }

    /// The number of places.
    pub fn len(&self) -> usize
        ensures { result ≡ length self.now }
    {
        self.len
    }

    /// The truth value at a place.
    pub fn get(&self, i: usize) -> bool
        requires { i < length self.now }
        ensures { slice_get self.now i ≡ Some result }
    {
        bit_at(&self.words, i)
    }

    /// Gives a place this truth value, and leaves all others.
    pub fn set(&mut self, i: usize, bit: bool)
        requires { i < length self.old }
        ensures { self.new ≡ set self.old i bit }
    {
        set_bit(&mut self.words, i, bit);
    }
}

/// Whether the two have the same truth values in the same order. Takes a step for each word, at most, and no
/// memory.
impl PartialEq for Row {
    ghost eq = { pointwise beq };

    ghost laws = { partial_equiv_from_equiv (lists_equiv bool_eq_equiv) };

    fn eq(&self, other: &Row) -> bool {
        has_same_bits(&self.words, self.len, &other.words, other.len)
    }
}

impl Eq for Row {
    ghost laws = { lists_equiv bool_eq_equiv };
}

/// The same order as that of `Ord`, which answers always.
impl PartialOrd for Row {
    ghost partial_cmp = { as_partial_cmp (slice_cmp bool_cmp) };

    ghost laws = { partial_order_from_agreeing_total (slice_cmp bool_cmp) (lists_total bool_cmp_total) (λ _ _. refl) (lists_ties bool_cmp (Prim.search rules)) };

    fn partial_cmp(&self, other: &Row) -> Option<Ordering> {
        Some(self.cmp(other))
    }
}

/// False before true at the first place in which the two differ, and a row before each longer one that it begins.
/// Takes a step for each word up to the first that differs, and no memory.
impl Ord for Row {
    ghost cmp = { slice_cmp bool_cmp };

    ghost total = { lists_total bool_cmp_total };

    ghost matches_partial_cmp = { λ _ _. refl };

    ghost matches_eq = { lists_ties bool_cmp (Prim.search rules) };

    fn cmp(&self, other: &Row) -> Ordering {
        order_of_bits(&self.words, self.len, &other.words, other.len)
    }
}
