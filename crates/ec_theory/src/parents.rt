//! Sorts and their parents.
ghost use Rattle.std.specs.Prelude.{◌≡◌};
ghost use Rattle.ec_logic.specs.Signature.{parent_of, is_within};
ghost use Rattle.ec_logic.specs.Universe.{is_constant_in};
ghost use Rattle.ec_theory.specs.Rows.{signature_of};

use crate::rows::SignatureRows;

/// The sort whose subsort a sort is, if there is one.
pub(crate) fn parent_of_sort(rows: &SignatureRows, sort: u32) -> Option<u32>
    ensures { result ≡ parent_of (signature_of rows.now) sort }
{
    match rows.sorts.get(sort as usize) {
        Some(row) => row.parent,
        None => None,
    }
}

// Whether a sort is another or has it as an ancestor. No row of parents is longer than the sorts are many.
#[tactic(auto, using(crate::proofs::ParentLemmas::descends_found, crate::proofs::ParentLemmas::descends_ends, crate::proofs::ParentLemmas::descends_next, crate::proofs::ParentLemmas::descends_last))]
fn is_within_sort(rows: &SignatureRows, sort: u32, ancestor: u32) -> bool
    ensures { result ≡ is_within (signature_of rows.now) sort ancestor }
{
    let mut at = sort;
    for _passed in 0..rows.sorts.len() {
        if at == ancestor {
            return true;
        }
        match parent_of_sort(rows, at) {
            Some(parent) => at = parent,
            None => return false,
        }
    }
    at == ancestor
}

/// Whether a constant is of a sort or of one of its subsorts.
pub(crate) fn is_constant_of(rows: &SignatureRows, constant: u32, sort: u32) -> bool
    ensures { result ≡ is_constant_in (signature_of rows.now) sort constant }
{
    match rows.constants.get(constant as usize) {
        Some(row) => is_within_sort(rows, row.sort, sort),
        None => false,
    }
}
