//! Bits of words, the first place in the highest bit of the first word.
ghost use Rattle.std.specs.Prelude.{◌≡◌, ◌-◌, ◌<◌, ◌/◌, ◌%◌, length, replicate, set, slice_index_or, IfOk};
ghost use Rattle.std.specs.Cmp.Lexicographic.{pointwise, slice_cmp};
ghost use Rattle.std.specs.Bool.{beq};
ghost use Rattle.std.specs.Ordering.{bool_cmp, nat_cmp};
ghost use Rattle.ec_row.specs.Bits.{bit_in, bits_in, with_bit, IsPacked};

use std::alloc::{AllocError, Global};
use std::cmp::Ordering;

/// The bits of a word.
pub const WORD: usize = 64;

/// So many words with no bit set.
pub fn clear_words(alloc: Global, count: usize) -> Result<Vec<u64>, AllocError>
    ensures { IfOk result (λ words. words.items ≡ replicate count 0) }
{
    vec![in alloc; 0; count]
}

/// The bit at a place.
pub fn bit_at(words: &[u64], place: usize) -> bool
    requires { place / 64 < length words.now }
    ensures { result ≡ bit_in words.now place }
{
    words[place / WORD] >> (WORD - 1 - place % WORD) & 1 == 1
}

/// Gives a place this bit, and leaves all others.
pub fn set_bit(words: &mut Vec<u64>, place: usize, bit: bool)
    requires { place / 64 < length words.old.items }
    ensures { words.new.items ≡ set words.old.items (place / 64) (with_bit (slice_index_or words.old.items (place / 64) 0) (63 - place % 64) bit) }
{
    let mask = 1 << (WORD - 1 - place % WORD);
    if bit {
        words[place / WORD] |= mask;
    } else {
        words[place / WORD] &= !mask;
    }
}

/// Whether the bits of the one, so many, are those of the other, so many.
pub fn has_same_bits(left: &[u64], left_len: usize, right: &[u64], right_len: usize) -> bool
    requires left_packed { IsPacked left.now left_len }
    requires right_packed { IsPacked right.now right_len }
    ensures { result ≡ pointwise beq (bits_in left.now left_len) (bits_in right.now right_len) }
{
    left_len == right_len && order_of_words(left, right).is_eq()
}

/// Which bits come first, so many of the one or so many of the other. The first word that differs decides, since
/// its highest bit that differs does, and no bit is set behind the last place.
pub fn order_of_bits(left: &[u64], left_len: usize, right: &[u64], right_len: usize) -> Ordering
    requires left_packed { IsPacked left.now left_len }
    requires right_packed { IsPacked right.now right_len }
    ensures { result ≡ slice_cmp bool_cmp (bits_in left.now left_len) (bits_in right.now right_len) }
{
    order_of_words(left, right).then(left_len.cmp(&right_len))
}

// The first word that differs decides, and else the lengths do.
fn order_of_words(left: &[u64], right: &[u64]) -> Ordering
    ensures { result ≡ slice_cmp nat_cmp left.now right.now }
{
    left.cmp(right)
}
