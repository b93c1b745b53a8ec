//! The values of a sort.
ghost use Rattle.std.specs.Prelude.{◌≡◌, ◌≤◌, ◌<◌, ◌^◌, ◌+ℤ◌, neg_ℤ, ◌≤ℤ◌, pos, true, min, IfOk, length, map, filter};
ghost use Rattle.std.specs.List.{range_with_len};
ghost use Rattle.ec_logic.specs.Extent.{domain_of, size_of as extent_size};
ghost use Rattle.ec_logic.specs.Universe.{domain, extent_at, extent_of_range, is_constant_in, tuples, universe_of};
ghost use Rattle.ec_logic.specs.Valid.{is_plain_sort, is_range, range_limit};
ghost use Rattle.ec_theory.specs.Values.{numbers_of};

use crate::rows::SortKind;
use crate::signature::Signature;
use crate::sizes::numbers_between;
use crate::value::Value;
use std::alloc::{AllocError, Global};

/// The number of values of a sort, or 2^62 where it is greater. Constant time.
pub fn size_of(signature: &Signature, sort: u32) -> u64
    requires { sort < length signature.now.sorts }
    ensures { result ≡ min (extent_size (extent_at (universe_of signature.now) sort)) (2 ^ 62) }
{
    signature.size(sort)
}

/// The number of tuples of values of these sorts, or 2^62 where it is greater. Linear in the sorts.
pub fn tuples_of(signature: &Signature, sorts: &[u32]) -> u64
    ensures { result ≡ min (tuples (universe_of signature.now) sorts.now) (2 ^ 62) }
{
    signature.tuples(sorts)
}

/// The values of a sort, in order. Linear in their number, and for a plain sort in that of all constants.
#[tactic(auto, using(crate::proofs::DomainLemmas::domain_plain, crate::proofs::DomainLemmas::domain_integer, crate::proofs::DomainLemmas::domain_event, crate::proofs::DomainLemmas::domain_fluent, crate::proofs::DomainLemmas::plain_by_kind))]
pub fn domain(alloc: Global, signature: &Signature, sort: u32) -> Result<Vec<Value>, AllocError>
    requires known { sort < length signature.now.sorts }
    requires small { extent_size (extent_at (universe_of signature.now) sort) < 2 ^ 32 }
    ensures { IfOk result (λ values. numbers_of values.items ≡ domain (universe_of signature.now) sort) }
{
    match signature.kind(sort) {
        SortKind::Plain => constants_of(alloc, signature, sort),
        SortKind::Integer => range_values(alloc, signature.range(sort)),
        SortKind::Event => places_below(alloc, size_of(signature, sort)),
        SortKind::Fluent => places_below(alloc, size_of(signature, sort)),
    }
}

fn constants_of(alloc: Global, signature: &Signature, sort: u32) -> Result<Vec<Value>, AllocError>
    requires { is_plain_sort signature.now sort ≡ true }
    ensures { IfOk result (λ values. numbers_of values.items ≡ map pos (filter (is_constant_in signature.now sort) (range_with_len 0 (length signature.now.constants)))) }
{
    let mut values = Vec::new(alloc);
    for constant in 0..signature.constants() {
        if !signature.constant_in(constant, sort) {
            continue;
        }
        values.push(value_from(0, constant as u64))?;
    }
    Ok(values)
}

#[tactic(auto, using(crate::proofs::SizeLemmas::range_low, crate::proofs::SizeLemmas::range_order, crate::proofs::SizeLemmas::range_high, crate::proofs::DomainLemmas::range_domain))]
fn range_values(alloc: Global, range: Option<(i64, i64)>) -> Result<Vec<Value>, AllocError>
    requires { is_range range ≡ true }
    ensures { IfOk result (λ values. numbers_of values.items ≡ domain_of (extent_of_range range)) }
{
    match range {
        Some((least, greatest)) => numbers_from(alloc, least, numbers_between(least, greatest)),
        None => Ok(Vec::new(alloc)),
    }
}

fn value_from(least: i64, place: u64) -> Value
    requires low { neg_ℤ (pos range_limit) ≤ℤ least }
    requires high { least ≤ℤ pos range_limit }
    requires few { place < 2 ^ 32 }
    ensures { result.0 ≡ least +ℤ pos place }
{
    Value(least + place as i64)
}

fn numbers_from(alloc: Global, least: i64, count: u64) -> Result<Vec<Value>, AllocError>
    requires low { neg_ℤ (pos range_limit) ≤ℤ least }
    requires high { least ≤ℤ pos range_limit }
    requires few { count < 2 ^ 32 }
    ensures { IfOk result (λ values. numbers_of values.items ≡ map (λ k. least +ℤ pos k) (range_with_len 0 count)) }
{
    let mut values = Vec::with_capacity(alloc, count as usize)?;
    for place in 0..count {
        values.push(value_from(least, place))?;
    }
    Ok(values)
}

fn places_below(alloc: Global, count: u64) -> Result<Vec<Value>, AllocError>
    requires { count < 2 ^ 32 }
    ensures { IfOk result (λ values. numbers_of values.items ≡ map pos (range_with_len 0 count)) }
{
    let mut values = Vec::with_capacity(alloc, count as usize)?;
    for place in 0..count {
        values.push(value_from(0, place))?;
    }
    Ok(values)
}
