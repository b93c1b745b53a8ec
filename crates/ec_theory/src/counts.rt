//! How many constants each sort has, counted in one pass over the constants.
ghost use Rattle.std.specs.Prelude.{ℕ, ◌≡◌, ◌<◌, ◌+◌, ◌^◌, IfOk, length, get_or, option_map, slice_get, Some};
ghost use Rattle.ec_logic.specs.Signature.{is_within};
ghost use Rattle.ec_logic.specs.Valid.{IsSignature};
ghost use Rattle.ec_theory.specs.Rows.{signature_of};
ghost use Rattle.ec_theory.specs.Counts.{one_if, AreCounts};

use crate::parents::parent_of_sort;
use crate::rows::SignatureRows;
use std::alloc::{AllocError, Global};

fn sort_of_constant(rows: &SignatureRows, constant: u32) -> u32
    requires { constant < length rows.now.constants.items }
    ensures { option_map (λ row. row.sort) (slice_get (signature_of rows.now).constants constant) ≡ Some result }
{
    rows.constants[constant as usize].sort
}

// Counts one constant at its sort and at each ancestor of it. No row of parents is longer than the sorts are
// many.
fn count_upwards(rows: &SignatureRows, counts: &mut Vec<u64>, sort: u32)
    requires valid { IsSignature (signature_of rows.now) }
    requires sort { sort < length (signature_of rows.now).sorts }
    requires each_sort { length counts.old.items ≡ length (signature_of rows.now).sorts }
    requires few { (s : ℕ) → s < length (signature_of rows.now).sorts → get_or counts.old.items s 0 < 2 ^ 32 }
    ensures each_sort { length counts.new.items ≡ length counts.old.items }
    ensures counted { (s : ℕ) → s < length (signature_of rows.now).sorts → get_or counts.new.items s 0 ≡ get_or counts.old.items s 0 + one_if (is_within (signature_of rows.now) sort s) }
{
    let mut at = sort;
    for _passed in 0..rows.sorts.len() {
        counts[at as usize] += 1;
        match parent_of_sort(rows, at) {
            Some(parent) => at = parent,
            None => return,
        }
    }
    counts[at as usize] += 1;
}

/// For each sort, how many constants are of it or of one of its subsorts. Linear in the sorts, in the constants
/// and in the ancestors of each constant's sort.
pub(crate) fn constants_of_sorts(
    alloc: Global,
    rows: &SignatureRows,
) -> Result<Vec<u64>, AllocError>
    requires { IsSignature (signature_of rows.now) }
    ensures { IfOk result (λ counts. AreCounts (signature_of rows.now) (length (signature_of rows.now).constants) counts.items) }
{
    let mut counts = vec![in alloc; 0; rows.sorts.len()]?;
    for constant in 0..rows.constants.len() as u32 {
        count_upwards(rows, &mut counts, sort_of_constant(rows, constant));
    }
    Ok(counts)
}
