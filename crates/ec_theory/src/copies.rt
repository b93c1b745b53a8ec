//! Copies of rows.
ghost use Rattle.std.specs.Prelude.{◌≡◌, IfOk, map};
ghost use Rattle.ec_theory.specs.Rows.{sort_of, constant_of, symbol_of, signature_of};

use crate::rows::{ConstantRow, SignatureRows, SortRow, SymbolRow};
use ec_lex::word::Word;
use std::alloc::{AllocError, Global};

fn copy_word(alloc: Global, word: &Word) -> Result<Word, AllocError>
    ensures { IfOk result (λ w. w ≡ word.now) }
{
    Word::of(alloc, word.text().as_bytes())
}

fn copy_sort(alloc: Global, row: &SortRow) -> Result<SortRow, AllocError>
    ensures { IfOk result (λ r. sort_of r ≡ sort_of row.now) }
{
    let name = copy_word(alloc, &row.name)?;
    Ok(SortRow {
        name,
        kind: row.kind,
        parent: row.parent,
        range: row.range,
    })
}

fn copy_constant(alloc: Global, row: &ConstantRow) -> Result<ConstantRow, AllocError>
    ensures { IfOk result (λ r. constant_of r ≡ constant_of row.now) }
{
    let name = copy_word(alloc, &row.name)?;
    Ok(ConstantRow {
        name,
        sort: row.sort,
    })
}

fn copy_symbol(alloc: Global, row: &SymbolRow) -> Result<SymbolRow, AllocError>
    ensures { IfOk result (λ r. symbol_of r ≡ symbol_of row.now) }
{
    let name = copy_word(alloc, &row.name)?;
    let sorts = Vec::from_slice(alloc, row.sorts.as_slice())?;
    Ok(SymbolRow {
        name,
        sorts,
        noninertial: row.noninertial,
    })
}

fn copy_sorts(alloc: Global, rows: &[SortRow]) -> Result<Vec<SortRow>, AllocError>
    ensures { IfOk result (λ v. map sort_of v.items ≡ map sort_of rows.now) }
{
    let mut copies = Vec::with_capacity(alloc, rows.len())?;
    for row in rows {
        copies.push(copy_sort(alloc, row)?)?;
    }
    Ok(copies)
}

fn copy_constants(alloc: Global, rows: &[ConstantRow]) -> Result<Vec<ConstantRow>, AllocError>
    ensures { IfOk result (λ v. map constant_of v.items ≡ map constant_of rows.now) }
{
    let mut copies = Vec::with_capacity(alloc, rows.len())?;
    for row in rows {
        copies.push(copy_constant(alloc, row)?)?;
    }
    Ok(copies)
}

fn copy_symbols(alloc: Global, rows: &[SymbolRow]) -> Result<Vec<SymbolRow>, AllocError>
    ensures { IfOk result (λ v. map symbol_of v.items ≡ map symbol_of rows.now) }
{
    let mut copies = Vec::with_capacity(alloc, rows.len())?;
    for row in rows {
        copies.push(copy_symbol(alloc, row)?)?;
    }
    Ok(copies)
}

/// The same rows in memory of their own.
pub(crate) fn copy_rows(alloc: Global, rows: &SignatureRows) -> Result<SignatureRows, AllocError>
    ensures { IfOk result (λ r. signature_of r ≡ signature_of rows.now) }
{
    let sorts = copy_sorts(alloc, &rows.sorts)?;
    let constants = copy_constants(alloc, &rows.constants)?;
    let events = copy_symbols(alloc, &rows.events)?;
    let fluents = copy_symbols(alloc, &rows.fluents)?;
    let predicates = copy_symbols(alloc, &rows.predicates)?;
    Ok(SignatureRows {
        sorts,
        constants,
        events,
        fluents,
        predicates,
        manual_release: rows.manual_release,
        time_diff: rows.time_diff,
    })
}
