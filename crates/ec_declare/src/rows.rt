//! The rows of the signature that a book declares.
ghost use Rattle.std.specs.Prelude.{◌≡◌, ◌&&◌, IfOk, List, map, option_map};
ghost use Rattle.std.specs.Option.{option_copied};
ghost use Rattle.ec_logic.specs.Valid.{IsSignature};
ghost use Rattle.ec_syntax.specs.Written.{Placed};
ghost use Rattle.ec_theory.specs.Rows as rows;
ghost use Rattle.ec_names.specs.Names.{fluent_role, is_noninertial, is_role, names_of, range_named, sort_entry, sort_number};
ghost use Rattle.ec_names.specs.View.{named_symbol, role_of};
ghost use Rattle.ec_declare.specs.Signatures as def;
ghost use Rattle.ec_declare.specs.Sound.{IsFaultless};
ghost use Rattle.ec_declare.specs.Signatures.{constants_of, ends_of, only_number, rows_of, signature_of};

use ec_lex::word::Word;
use ec_names::{Names, Role, Symbol};
use ec_theory::{ConstantRow, SignatureRows, SortRow, SymbolRow};
use std::alloc::{AllocError, Global};

// ---- sorts

fn sort_number(names: &Names, sort: &Word) -> u32
    ensures { result ≡ sort_number names.now sort.now }
{
    match names.sort(sort) {
        Some(number) => number,
        None => names.sorts(),
    }
}

fn sort_numbers(alloc: Global, names: &Names, sorts: &[Word]) -> Result<Vec<u32>, AllocError>
    ensures { IfOk result (λ numbers. numbers.items ≡ map (sort_number names.now) sorts.now) }
{
    let mut numbers = Vec::with_capacity(alloc, sorts.len())?;
    for sort in sorts {
        numbers.push(sort_number(names, sort))?;
    }
    Ok(numbers)
}

fn parent_number(names: &Names, parent: Option<&Word>) -> Option<u32>
    ensures { result ≡ option_map (sort_number names.now) (option_copied parent.entry) }
{
    match parent {
        Some(parent) => Some(sort_number(names, parent)),
        None => None,
    }
}

fn ends(names: &Names, sort: &Word) -> Option<(i64, i64)>
    ensures { result ≡ option_map ends_of (range_named names.now sort.now) }
{
    match names.range(sort) {
        Some(range) => Some((range.low, range.high)),
        None => None,
    }
}

fn sort_row(names: &Names, name: &Word, parent: Option<&Word>) -> Result<SortRow, AllocError>
    ensures { IfOk result (λ row. rows.sort_of row ≡ def.sort_row names.now (sort_entry name.now (option_copied parent.entry))) }
{
    let kind = names.kind(name);
    let parent = parent_number(names, parent);
    let range = ends(names, name);
    Ok(SortRow {
        name: name.clone()?,
        kind,
        parent,
        range,
    })
}

fn sort_rows(alloc: Global, names: &Names) -> Result<Vec<SortRow>, AllocError>
    ensures { IfOk result (λ found. map rows.sort_of found.items ≡ map (def.sort_row names.now) names.now.sorts) }
{
    let mut found = Vec::with_capacity(alloc, names.sorts() as usize)?;
    for sort in 0..names.sorts() {
        let (name, parent) = names.sort_at(sort);
        found.push(sort_row(names, name, parent)?)?;
    }
    Ok(found)
}

// ---- symbols

fn only_number(names: &Names, sorts: &[Word]) -> u32
    ensures { result ≡ only_number names.now sorts.now }
{
    match sorts.split_first() {
        Some((sort, _)) => sort_number(names, sort),
        None => names.sorts(),
    }
}

fn constant_row(names: &Names, name: &Word, symbol: &Symbol) -> Result<ConstantRow, AllocError>
    ensures { IfOk result (λ row. rows.constant_of row ≡ def.constant_row names.now (named_symbol name.now symbol.now)) }
{
    let sort = only_number(names, &symbol.sorts);
    Ok(ConstantRow {
        name: name.clone()?,
        sort,
    })
}

fn has_role(symbol: &Symbol, role: Role) -> bool
    ensures { result ≡ is_role (role_of role) (role_of symbol.now.role) }
{
    role == symbol.role
}

fn constant_rows(alloc: Global, names: &Names) -> Result<Vec<ConstantRow>, AllocError>
    ensures { IfOk result (λ found. map rows.constant_of found.items ≡ constants_of names.now) }
{
    let mut found = Vec::new(alloc);
    for place in 0..names.symbols() {
        let (name, symbol) = names.symbol_at(place);
        if has_role(symbol, Role::Constant) {
            found.push(constant_row(names, name, symbol)?)?;
        }
    }
    Ok(found)
}

fn is_noninertial(names: &Names, name: &Word, role: Role) -> bool
    ensures { result ≡ (is_role (role_of role) fluent_role && is_noninertial names.now name.now) }
{
    role == Role::Fluent && names.is_noninertial(name)
}

fn symbol_row(
    alloc: Global,
    names: &Names,
    name: &Word,
    symbol: &Symbol,
) -> Result<SymbolRow, AllocError>
    ensures { IfOk result (λ row. rows.symbol_of row ≡ def.symbol_row names.now (named_symbol name.now symbol.now)) }
{
    let sorts = sort_numbers(alloc, names, &symbol.sorts)?;
    let noninertial = is_noninertial(names, name, symbol.role);
    Ok(SymbolRow {
        name: name.clone()?,
        sorts,
        noninertial,
    })
}

fn symbol_rows(alloc: Global, names: &Names, role: Role) -> Result<Vec<SymbolRow>, AllocError>
    ensures { IfOk result (λ found. map rows.symbol_of found.items ≡ rows_of names.now (role_of role)) }
{
    let mut found = Vec::new(alloc);
    for place in 0..names.symbols() {
        let (name, symbol) = names.symbol_at(place);
        if has_role(symbol, role) {
            found.push(symbol_row(alloc, names, name, symbol)?)?;
        }
    }
    Ok(found)
}

fn gathered_rows(alloc: Global, names: &Names) -> Result<SignatureRows, AllocError>
    ensures { IfOk result (λ found. rows.signature_of found ≡ signature_of names.now) }
{
    let sorts = sort_rows(alloc, names)?;
    let constants = constant_rows(alloc, names)?;
    let events = symbol_rows(alloc, names, Role::Event)?;
    let fluents = symbol_rows(alloc, names, Role::Fluent)?;
    let predicates = symbol_rows(alloc, names, Role::Predicate)?;
    Ok(SignatureRows {
        sorts,
        constants,
        events,
        fluents,
        predicates,
        manual_release: names.manual_release(),
        time_diff: names.time_diff(),
    })
}

/// The rows of the signature that the names of a book stand for: the sorts and the symbols of each role, the
/// built-in ones first, in the order of their first declaration. Where no declaration of the book has a
/// fault, a signature can be made of them.
///
/// Linear in the names and their argument sorts, where each sort is followed to its ancestors.
pub fn signature_rows(alloc: Global, names: &Names) -> Result<SignatureRows, AllocError>
    ensures rows { IfOk result (λ found. rows.signature_of found ≡ signature_of names.now) }
    ensures valid { IfOk result (λ found. (statements : List Placed) → names.now ≡ names_of statements → IsFaultless statements → IsSignature (rows.signature_of found)) }
{
    let found = gathered_rows(alloc, names)?;
    Ok(found)
}
