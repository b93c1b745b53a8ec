//! The tables of a numbering.
ghost use Rattle.std.specs.Prelude.{◌≡◌, ◌≤◌, ◌<◌, ◌^◌, ◌+◌, ◌-◌, ◌+ℤ◌, min, map, true, pos, IfOk, length, take, drop, filter};
ghost use Rattle.std.specs.List.{range_with_len};
ghost use Rattle.ec_logic.specs.Atom.{visible_predicates, tuples_of as atoms_of};
ghost use Rattle.ec_logic.specs.Extent.{members, passing, size_of as extent_size};
ghost use Rattle.ec_logic.specs.Signature.{event_sort, fluent_sort};
ghost use Rattle.ec_logic.specs.Total.{total};
ghost use Rattle.ec_logic.specs.Universe.{universe_of, before, extent_at, extent_of_range, is_constant_in};
ghost use Rattle.ec_logic.specs.Valid.{IsSignature, is_plain_sort, is_range};
ghost use Rattle.ec_logic.proofs.AtomOrder.{predicate_at as at_place};
ghost use Rattle.ec_atom.specs.Blocks.{with_strides, AreBlocksOf};
ghost use Rattle.ec_atom.specs.Listing.{place_if};
ghost use Rattle.ec_atom.specs.Numbering.{AreTables, IsTableOf};
ghost use Rattle.ec_atom.specs.Symbols.{rows_of};
ghost use Rattle.ec_atom.specs.Table.{extent_of_values, IsTable};

use crate::blocks::{Argument, Blocks};
use crate::kinds::Symbols;
use crate::order::predicate_at;
use crate::symbols::{count_of, sorts_at};
use crate::table::Values;
use ec_theory::{Signature, SortKind, size_of, tuples_of};
use std::alloc::{AllocError, Global};

const COUNT_LIMIT: u64 = 1 << 62;

// How many atoms the predicate at a place has, stopping at 2^62.
#[tactic(auto, using(crate::proofs::NumberLemmas::row_is))]
fn atoms_at(signature: &Signature, place: u32) -> u64
    requires many { 6 ≤ length signature.now.predicates }
    requires within { place < length signature.now.predicates }
    ensures { result ≡ min (atoms_of (universe_of signature.now) (at_place (length signature.now.predicates) place)) (2 ^ 62) }
{
    let predicate = predicate_at(signature.predicates(), place);
    tuples_of(signature, signature.predicate_sorts(predicate))
}

fn sum_of(a: u64, b: u64) -> u64
    ensures { result ≡ min (a + b) (2 ^ 62) }
{
    a.saturating_add(b).min(COUNT_LIMIT)
}

/// How many visible atoms there are, stopping at 2^62.
#[tactic(auto, using(crate::proofs::NumberLemmas::visible_next, crate::proofs::NumberLemmas::visible_end))]
pub fn count_visible(signature: &Signature) -> u64
    ensures { result ≡ min (total (universe_of signature.now) (visible_predicates (universe_of signature.now))) (2 ^ 62) }
{
    let mut sum = 0;
    for place in 0..signature.predicates() - 3 {
        sum = sum_of(sum, atoms_at(signature, place));
    }
    sum
}

fn from_place(sorts: &[u32], place: usize) -> &[u32]
    requires { place ≤ length sorts.now }
    ensures { result.now ≡ drop place sorts.now }
{
    &sorts[place..]
}

// The arguments of these sorts, each with its stride.
#[tactic(auto, using(crate::proofs::BlockLemmas::stride_next, crate::proofs::BlockLemmas::stride_end))]
fn arguments_of(
    alloc: Global,
    signature: &Signature,
    sorts: &[u32],
) -> Result<Vec<Argument>, AllocError>
    ensures { IfOk result (λ row. row.items ≡ with_strides (universe_of signature.now) sorts.now) }
{
    let mut row = Vec::with_capacity(alloc, sorts.len())?;
    for (i, sort) in sorts.iter().enumerate() {
        row.push(Argument {
            sort: *sort,
            stride: tuples_of(signature, from_place(sorts, i + 1)),
        })?;
    }
    Ok(row)
}

/// The tuples of symbols, by number. Linear in the symbols, and for each in the square of its arguments.
pub fn blocks_of(
    alloc: Global,
    signature: &Signature,
    symbols: Symbols,
) -> Result<Blocks, AllocError>
    requires { before (universe_of signature.now) (rows_of (universe_of signature.now) symbols) (length (rows_of (universe_of signature.now) symbols)) < 2 ^ 62 }
    ensures { IfOk result (λ blocks. AreBlocksOf (universe_of signature.now) (rows_of (universe_of signature.now) symbols) blocks) }
{
    let count = count_of(signature, symbols);
    let mut firsts = Vec::with_capacity(alloc, count as usize + 1)?;
    let mut rows = Vec::with_capacity(alloc, count as usize)?;
    let mut sum: u64 = 0;
    firsts.push(sum)?;
    for place in 0..count {
        let sorts = sorts_at(signature, symbols, place);
        rows.push(arguments_of(alloc, signature, sorts)?)?;
        sum += tuples_of(signature, sorts);
        firsts.push(sum)?;
    }
    Ok(Blocks { firsts, rows })
}

fn values_of_range(range: Option<(i64, i64)>, size: u64) -> Values
    requires range { is_range range ≡ true }
    requires size { size ≡ min (extent_size (extent_of_range range)) (2 ^ 62) }
    ensures { IsTableOf (extent_of_range range) result }
{
    match range {
        Some((least, _)) => Values::Numbers { least, size },
        None => Values::Numbers { least: 0, size: 0 },
    }
}

fn values_of_constants(
    alloc: Global,
    signature: &Signature,
    sort: u32,
) -> Result<Values, AllocError>
    requires { is_plain_sort signature.now sort ≡ true }
    ensures { IfOk result (λ values. IsTableOf (members (length signature.now.constants) (is_constant_in signature.now sort)) values) }
{
    let mut places = Vec::with_capacity(alloc, signature.constants() as usize)?;
    let mut constants = Vec::new(alloc);
    let mut count: u32 = 0;
    for constant in 0..signature.constants() {
        if !signature.constant_in(constant, sort) {
            places.push(None)?;
            continue;
        }
        places.push(Some(count))?;
        constants.push(constant)?;
        count += 1;
    }
    Ok(Values::Constants { places, constants })
}

fn values_of_places(size: u64) -> Values
    requires { size < 2 ^ 62 }
    ensures { IsTableOf (members size (λ k. true)) result }
{
    Values::Places { size }
}

fn values_of(alloc: Global, signature: &Signature, sort: u32) -> Result<Values, AllocError>
    requires known { sort < length signature.now.sorts }
    requires events { extent_size (extent_at (universe_of signature.now) event_sort) < 2 ^ 62 }
    requires fluents { extent_size (extent_at (universe_of signature.now) fluent_sort) < 2 ^ 62 }
    ensures { IfOk result (λ values. IsTableOf (extent_at (universe_of signature.now) sort) values) }
{
    let size = size_of(signature, sort);
    match signature.kind(sort) {
        SortKind::Plain => values_of_constants(alloc, signature, sort),
        SortKind::Integer => Ok(values_of_range(signature.range(sort), size)),
        SortKind::Event => Ok(values_of_places(size)),
        SortKind::Fluent => Ok(values_of_places(size)),
    }
}

/// The values of each sort.
pub fn tables_of(alloc: Global, signature: &Signature) -> Result<Vec<Values>, AllocError>
    requires events { extent_size (extent_at (universe_of signature.now) event_sort) < 2 ^ 62 }
    requires fluents { extent_size (extent_at (universe_of signature.now) fluent_sort) < 2 ^ 62 }
    ensures { IfOk result (λ v. AreTables signature.now v.items) }
{
    let mut tables = Vec::with_capacity(alloc, signature.sorts() as usize)?;
    for sort in 0..signature.sorts() {
        tables.push(values_of(alloc, signature, sort)?)?;
    }
    Ok(tables)
}
