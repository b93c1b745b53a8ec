//! Signatures.
ghost use Rattle.std.specs.Prelude.{◌≡◌, ◌≤◌, ◌<◌, ◌^◌, true, min, map, IfOk, length, Some, slice_get, option_map};
ghost use Rattle.ec_logic.specs.Signature.{time_sort};
ghost use Rattle.ec_logic.specs.Extent.{size_of};
ghost use Rattle.ec_logic.specs.Universe.{extent_at, is_constant_in, tuples, universe_of};
ghost use Rattle.ec_logic.specs.Valid.{IsSignature, EachSymbol, is_plain_sort, is_range};
ghost use Rattle.ec_theory.specs.Rows.{kind_of, signature_of, symbol_of};

use crate::copies::copy_rows;
use crate::parents::is_constant_of;
use crate::rows::{SignatureRows, SortKind, SymbolRow};
use crate::sizes::{product_of_sizes, range_at, size_at, sizes_of};
use ec_lex::word::Word;
use std::alloc::{AllocError, Global};
use std::marker::Model;

/// The sorts, constants, events, fluents and predicates of a file, by number in the order of their declaration.
#[derive(Drop)]
pub struct Signature {
    rows: SignatureRows,
    sizes: Vec<u64>,
}

impl Model for Signature {
    ghost use Rattle.ec_logic.specs.Signature as logic;
    ghost use Rattle.ec_theory.specs.Rows.{signature_of};
    ghost use Rattle.ec_theory.specs.Sizes.{IsSized};

    ghost Value = { logic.Signature };

    ghost view = { λ s. signature_of s.rows };

    ghost invariant = { λ s. IsSized (signature_of s.rows) s.sizes.items };
}

impl Signature {
    /// The signature of these rows. Memory is linear in the rows, and time in the rows and in the ancestors of
    /// each constant's sort.
    pub fn new(alloc: Global, rows: SignatureRows) -> Result<Signature, AllocError>
        requires { IsSignature (signature_of rows) }
        ensures { IfOk result (λ s. s ≡ signature_of rows) }
    {
        let sizes = sizes_of(alloc, &rows)?;
        Ok(Signature { rows, sizes })
    }

    /// The same signature in memory of its own. Linear in its rows.
    pub fn copied(&self, alloc: Global) -> Result<Signature, AllocError>
        ensures { IfOk result (λ s. s ≡ self.now) }
    {
        let rows = copy_rows(alloc, &self.rows)?;
        Signature::new(alloc, rows)
    }

    /// The number of sorts.
    pub fn sorts(&self) -> u32
        ensures count { result ≡ length self.now.sorts }
        ensures valid { IsSignature self.now }
    {
        self.rows.sorts.len() as u32
    }

    /// What the values of a sort are.
    pub fn kind(&self, sort: u32) -> SortKind
        requires { sort < length self.now.sorts }
        ensures kind { option_map (λ row. row.kind) (slice_get self.now.sorts sort) ≡ Some (kind_of result) }
        ensures valid { IsSignature self.now }
    {
        self.rows.sorts[sort as usize].kind
    }

    /// The least and the greatest number of a sort of whole numbers, if it has a range.
    pub fn range(&self, sort: u32) -> Option<(i64, i64)>
        requires { sort < length self.now.sorts }
        ensures range { option_map (λ row. row.range) (slice_get self.now.sorts sort) ≡ Some result }
        ensures small { is_range result ≡ true }
    {
        range_at(&self.rows, sort)
    }

    /// The number of predicates.
    #[tactic(auto, using(crate::proofs::TableLemmas::six_predicates))]
    pub fn predicates(&self) -> u32
        ensures count { result ≡ length self.now.predicates }
        ensures built_in { 6 ≤ result }
        ensures valid { IsSignature self.now }
    {
        self.rows.predicates.len() as u32
    }

    /// The name of a predicate.
    pub fn predicate_name(&self, p: u32) -> &Word
        requires { p < length self.now.predicates }
        ensures { option_map (λ row. row.name) (slice_get self.now.predicates p) ≡ Some result.now }
    {
        &self.rows.predicates[p as usize].name
    }

    /// The sorts of the arguments of a predicate, in order.
    pub fn predicate_sorts(&self, p: u32) -> &[u32]
        requires { p < length self.now.predicates }
        ensures sorts { option_map (λ row. row.sorts) (slice_get self.now.predicates p) ≡ Some result.now }
        ensures few { length result.now < 2 ^ 31 }
    {
        sorts_at(&self.rows.predicates, p)
    }

    /// The number of events.
    pub fn events(&self) -> u32
        ensures count { result ≡ length self.now.events }
        ensures valid { IsSignature self.now }
    {
        self.rows.events.len() as u32
    }

    /// The name of an event.
    pub fn event_name(&self, e: u32) -> &Word
        requires { e < length self.now.events }
        ensures { option_map (λ row. row.name) (slice_get self.now.events e) ≡ Some result.now }
    {
        &self.rows.events[e as usize].name
    }

    /// The sorts of the arguments of an event, in order.
    pub fn event_sorts(&self, e: u32) -> &[u32]
        requires { e < length self.now.events }
        ensures sorts { option_map (λ row. row.sorts) (slice_get self.now.events e) ≡ Some result.now }
        ensures few { length result.now < 2 ^ 31 }
    {
        sorts_at(&self.rows.events, e)
    }

    /// The number of fluents.
    pub fn fluents(&self) -> u32
        ensures count { result ≡ length self.now.fluents }
        ensures valid { IsSignature self.now }
    {
        self.rows.fluents.len() as u32
    }

    /// The name of a fluent.
    pub fn fluent_name(&self, f: u32) -> &Word
        requires { f < length self.now.fluents }
        ensures { option_map (λ row. row.name) (slice_get self.now.fluents f) ≡ Some result.now }
    {
        &self.rows.fluents[f as usize].name
    }

    /// The sorts of the arguments of a fluent, in order.
    pub fn fluent_sorts(&self, f: u32) -> &[u32]
        requires { f < length self.now.fluents }
        ensures sorts { option_map (λ row. row.sorts) (slice_get self.now.fluents f) ≡ Some result.now }
        ensures few { length result.now < 2 ^ 31 }
    {
        sorts_at(&self.rows.fluents, f)
    }

    /// Whether a fluent is noninertial.
    pub fn noninertial(&self, f: u32) -> bool
        requires { f < length self.now.fluents }
        ensures { option_map (λ row. row.noninertial) (slice_get self.now.fluents f) ≡ Some result }
    {
        self.rows.fluents[f as usize].noninertial
    }

    /// The number of constants.
    pub fn constants(&self) -> u32
        ensures count { result ≡ length self.now.constants }
        ensures valid { IsSignature self.now }
    {
        self.rows.constants.len() as u32
    }

    /// The name of a constant.
    pub fn constant_name(&self, c: u32) -> &Word
        requires { c < length self.now.constants }
        ensures { option_map (λ row. row.name) (slice_get self.now.constants c) ≡ Some result.now }
    {
        &self.rows.constants[c as usize].name
    }

    /// Whether a constant is of a plain sort or of one of its subsorts. It goes from the constant's sort
    /// to its ancestors.
    pub fn constant_in(&self, c: u32, sort: u32) -> bool
        requires constant { c < length self.now.constants }
        requires plain { is_plain_sort self.now sort ≡ true }
        ensures { result ≡ is_constant_in self.now sort c }
    {
        is_constant_of(&self.rows, c, sort)
    }

    /// The number of the sort `time`.
    #[tactic(auto, using(crate::proofs::TableLemmas::six_sorts))]
    pub fn time_sort(&self) -> u32
        ensures number { result ≡ time_sort }
        ensures known { result < length self.now.sorts }
    {
        let _ = &self.sizes;
        2
    }

    /// Whether the release of inertial fluents at the least time is left open.
    pub fn manual_release(&self) -> bool
        ensures { result ≡ self.now.manual_release }
    {
        self.rows.manual_release
    }

    /// Whether narratives tell changes.
    pub fn time_diff(&self) -> bool
        ensures { result ≡ self.now.time_diff }
    {
        self.rows.time_diff
    }

    // The number of values of a sort, stopping at 2^62.
    pub(crate) fn size(&self, sort: u32) -> u64
        ensures { result ≡ min (size_of (extent_at (universe_of self.now) sort)) (2 ^ 62) }
    {
        size_at(&self.sizes, sort)
    }

    // How many tuples these sorts have, stopping at 2^62.
    pub(crate) fn tuples(&self, sorts: &[u32]) -> u64
        ensures { result ≡ min (tuples (universe_of self.now) sorts.now) (2 ^ 62) }
    {
        product_of_sizes(&self.sizes, sorts)
    }
}

// The argument sorts of a symbol.
fn sorts_at(symbols: &Vec<SymbolRow>, symbol: u32) -> &[u32]
    requires known { symbol < length symbols.now.items }
    requires few { EachSymbol (map symbol_of symbols.now.items) (λ row. length row.sorts < 2 ^ 31) }
    ensures sorts { option_map (λ row. row.sorts) (slice_get (map symbol_of symbols.now.items) symbol) ≡ Some result.now }
    ensures few { length result.now < 2 ^ 31 }
{
    symbol_row(symbols, symbol).sorts.as_slice()
}

fn symbol_row(symbols: &Vec<SymbolRow>, symbol: u32) -> &SymbolRow
    requires { symbol < length symbols.now.items }
    ensures { slice_get (map symbol_of symbols.now.items) symbol ≡ Some (symbol_of result.now) }
{
    &symbols[symbol as usize]
}
