//! The table of the sorts' sizes, made once for a signature.
ghost use Rattle.std.specs.Prelude.{◌≡◌, ◌≤◌, ◌<◌, ◌+◌, ◌*◌, ◌^◌, true, IfOk, IfSome, IfNone, length, map, option_map, slice_get, unwrap_or, pos, neg_ℤ, ◌+ℤ◌, ◌≤ℤ◌};
ghost use Rattle.ec_logic.specs.Extent.{size_of};
ghost use Rattle.ec_logic.specs.Universe.{extent_of, extent_of_range};
ghost use Rattle.ec_logic.specs.Valid.{IsSignature, EachSort, is_range, range_limit};
ghost use Rattle.ec_theory.specs.Counts.{AreCounts};
ghost use Rattle.ec_theory.specs.Rows.{signature_of, sort_of, symbol_of};
ghost use Rattle.ec_theory.specs.Sizes.{stopped, sizes_with, product_of_sizes as size_product, sum_of_products, IsSized};

use crate::counts::constants_of_sorts;
use crate::rows::{SignatureRows, SortKind, SortRow, SymbolRow};
use std::alloc::{AllocError, Global};

// The size at which counting stops.
const SIZE_LIMIT: u64 = 1 << 62;

const EVENT_SORT: usize = 4;

const FLUENT_SORT: usize = 5;

fn product_of(a: u64, b: u64) -> u64
    ensures { result ≡ stopped (a * b) }
{
    a.saturating_mul(b).min(SIZE_LIMIT)
}

fn sum_of(a: u64, b: u64) -> u64
    ensures { result ≡ stopped (a + b) }
{
    a.saturating_add(b).min(SIZE_LIMIT)
}

pub(crate) fn numbers_between(least: i64, greatest: i64) -> u64
    requires low { neg_ℤ (pos range_limit) ≤ℤ least }
    requires order { least ≤ℤ greatest }
    requires high { greatest ≤ℤ pos range_limit }
    ensures count { pos result ≡ greatest +ℤ neg_ℤ least +ℤ pos 1 }
    ensures small { result < 2 ^ 32 }
{
    (greatest - least + 1) as u64
}

#[tactic(auto, using(crate::proofs::SizeLemmas::range_low, crate::proofs::SizeLemmas::range_order, crate::proofs::SizeLemmas::range_high, crate::proofs::SizeLemmas::range_count))]
fn range_size(range: Option<(i64, i64)>) -> u64
    requires { is_range range ≡ true }
    ensures size { result ≡ size_of (extent_of_range range) }
    ensures small { result < 2 ^ 32 }
{
    match range {
        Some((least, greatest)) => numbers_between(least, greatest),
        None => 0,
    }
}

fn sort_row(rows: &SignatureRows, sort: u32) -> Option<&SortRow>
    ensures found { IfSome result (λ row. slice_get (signature_of rows.now).sorts sort ≡ Some (sort_of row.now)) }
    ensures none { IfNone result (slice_get (signature_of rows.now).sorts sort ≡ None) }
    ensures past { IfNone result (length rows.now.sorts.items ≤ sort) }
{
    rows.sorts.get(sort as usize)
}

/// The range of a sort, if it has one.
pub(crate) fn range_at(rows: &SignatureRows, sort: u32) -> Option<(i64, i64)>
    requires known { sort < length rows.now.sorts.items }
    requires ranges { EachSort (signature_of rows.now) (λ s row. is_range row.range ≡ true) }
    ensures range { option_map (λ row. row.range) (slice_get (signature_of rows.now).sorts sort) ≡ Some result }
    ensures small { is_range result ≡ true }
{
    match sort_row(rows, sort) {
        Some(row) => row.range,
        None => None,
    }
}

// The size of a sort as long as no event and no fluent is counted, where the constants of each sort are counted.
#[tactic(auto, using(crate::proofs::TableLemmas::size_integer, crate::proofs::TableLemmas::size_event, crate::proofs::TableLemmas::size_fluent, crate::proofs::TableLemmas::size_none, crate::proofs::TableLemmas::sort_counted))]
fn size_in(rows: &SignatureRows, counts: &[u64], sort: u32) -> u64
    requires few { length rows.now.constants.items < 2 ^ 31 }
    requires counts { AreCounts (signature_of rows.now) (length (signature_of rows.now).constants) counts.now }
    requires ranges { EachSort (signature_of rows.now) (λ s row. is_range row.range ≡ true) }
    ensures { result ≡ stopped (size_of (extent_of (signature_of rows.now) 0 0 sort)) }
{
    match sort_row(rows, sort) {
        Some(row) => match row.kind {
            SortKind::Plain => counts[sort as usize],
            SortKind::Integer => range_size(row.range),
            SortKind::Event => 0,
            SortKind::Fluent => 0,
        },
        None => 0,
    }
}

fn sizes_before_symbols(alloc: Global, rows: &SignatureRows) -> Result<Vec<u64>, AllocError>
    requires { IsSignature (signature_of rows.now) }
    ensures { IfOk result (λ v. v.items ≡ sizes_with (signature_of rows.now) 0 0) }
{
    let counts = constants_of_sorts(alloc, rows)?;
    let mut sizes = Vec::with_capacity(alloc, rows.sorts.len())?;
    for sort in 0..rows.sorts.len() as u32 {
        sizes.push(size_in(rows, &counts, sort))?;
    }
    Ok(sizes)
}

/// The size of a sort in the table.
pub(crate) fn size_at(sizes: &[u64], sort: u32) -> u64
    ensures { result ≡ unwrap_or (slice_get sizes.now sort) 0 }
{
    match sizes.get(sort as usize) {
        Some(size) => *size,
        None => 0,
    }
}

/// The product of the sizes of these sorts, stopping at the limit.
#[tactic(auto, using(crate::proofs::SizeLemmas::product_step, crate::proofs::SizeLemmas::product_ends))]
pub(crate) fn product_of_sizes(sizes: &[u64], sorts: &[u32]) -> u64
    ensures count { result ≡ stopped (size_product sizes.now sorts.now) }
    ensures small { result ≤ 2 ^ 62 }
{
    let mut product = 1;
    for sort in sorts {
        product = product_of(product, size_at(sizes, *sort));
    }
    product
}

// How many ground terms these symbols have, stopping at the limit.
#[tactic(auto, using(crate::proofs::SizeLemmas::sum_step, crate::proofs::SizeLemmas::sum_ends))]
fn ground_terms_of(sizes: &[u64], symbols: &[SymbolRow]) -> u64
    ensures { result ≡ stopped (sum_of_products sizes.now (map symbol_of symbols.now)) }
{
    let mut sum = 0;
    for symbol in symbols {
        sum = sum_of(sum, product_of_sizes(sizes, &symbol.sorts));
    }
    sum
}

/// The sizes of a signature's sorts, stopping at the limit.
pub(crate) fn sizes_of(alloc: Global, rows: &SignatureRows) -> Result<Vec<u64>, AllocError>
    requires { IsSignature (signature_of rows.now) }
    ensures { IfOk result (λ v. IsSized (signature_of rows.now) v.items) }
{
    let mut sizes = sizes_before_symbols(alloc, rows)?;
    let events = ground_terms_of(&sizes, &rows.events);
    let fluents = ground_terms_of(&sizes, &rows.fluents);
    sizes[EVENT_SORT] = events;
    sizes[FLUENT_SORT] = fluents;
    Ok(sizes)
}
