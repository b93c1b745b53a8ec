//! The declarations of a book's statements, collected.
ghost use Rattle.std.specs.Prelude.{◌≡◌, ◌<◌, ◌^◌, ◌∷◌, ◌++◌, [], None, Some, IfOk, OnOk, map, length};
ghost use Rattle.ec_syntax.specs.View.{content_of, placed_of, shape_of};
ghost use Rattle.ec_names.specs.Names.{built_in_sorts, built_in_symbols, constant_entry, item_entry, itself, joined, last_choice, noninertial_in, placed_content, predicate_role, range_sort, ranges_in, shape_entry, sort_entry, sort_name, sorts_in, symbol_entry, symbol_name, symbols_in, word_integer};
ghost use Rattle.ec_names.specs.View.{continued, ranges_of, role_of, sorts_of, with_first, IsFew};

use crate::range::Range;
use crate::symbol::{Role, Symbols};
use crate::words::{copied, copied_words, word, words};
use ec_lex::word::Word;
use ec_syntax::book::Placed;
use ec_syntax::statement::{Content, Shape, SortItem};
use indexmap::{IndexMap, IndexSet};
use std::alloc::{AllocError, Global};

// ---- sorts

fn add_built_in_sort(
    alloc: Global,
    sorts: &mut IndexMap<Word, Option<Word>>,
    name: &str,
    parent: Option<Word>,
) -> Result<(), AllocError>
    ensures { OnOk result (sorts_of sorts.new.entries ≡ with_first sort_name (sorts_of sorts.old.entries) (sort_entry name.now parent)) }
{
    let name = word(alloc, name)?;
    if !sorts.contains_key(&name) {
        sorts.insert(name, parent)?;
    }
    Ok(())
}

fn add_top_sort(
    alloc: Global,
    sorts: &mut IndexMap<Word, Option<Word>>,
    name: &str,
) -> Result<(), AllocError>
    ensures { OnOk result (sorts_of sorts.new.entries ≡ with_first sort_name (sorts_of sorts.old.entries) (sort_entry name.now None)) }
{
    add_built_in_sort(alloc, sorts, name, None)
}

fn add_integer_sort(
    alloc: Global,
    sorts: &mut IndexMap<Word, Option<Word>>,
    name: &str,
) -> Result<(), AllocError>
    ensures { OnOk result (sorts_of sorts.new.entries ≡ with_first sort_name (sorts_of sorts.old.entries) (sort_entry name.now (Some word_integer))) }
{
    let integer = word(alloc, "integer")?;
    add_built_in_sort(alloc, sorts, name, Some(integer))
}

fn add_built_in_sorts(
    alloc: Global,
    sorts: &mut IndexMap<Word, Option<Word>>,
) -> Result<(), AllocError>
    requires { sorts_of sorts.old.entries ≡ [] }
    ensures { OnOk result (sorts_of sorts.new.entries ≡ built_in_sorts) }
{
    add_top_sort(alloc, sorts, "boolean")?;
    add_top_sort(alloc, sorts, "integer")?;
    add_integer_sort(alloc, sorts, "time")?;
    add_integer_sort(alloc, sorts, "offset")?;
    add_top_sort(alloc, sorts, "event")?;
    add_top_sort(alloc, sorts, "fluent")
}

fn built_in_sorts(alloc: Global) -> Result<IndexMap<Word, Option<Word>>, AllocError>
    ensures { IfOk result (λ sorts. sorts_of sorts.entries ≡ built_in_sorts) }
{
    let mut sorts = IndexMap::new(alloc);
    add_built_in_sorts(alloc, &mut sorts)?;
    Ok(sorts)
}

fn copied_parent(item: &SortItem) -> Result<Option<Word>, AllocError>
    ensures { IfOk result (λ parent. parent ≡ item.now.parent) }
{
    match &item.parent {
        Some(parent) => Ok(Some(copied(parent)?)),
        None => Ok(None),
    }
}

fn add_sort(sorts: &mut IndexMap<Word, Option<Word>>, item: &SortItem) -> Result<(), AllocError>
    ensures { OnOk result (sorts_of sorts.new.entries ≡ with_first sort_name (sorts_of sorts.old.entries) (item_entry item.now)) }
{
    if !sorts.contains_key(&item.name) {
        sorts.insert(copied(&item.name)?, copied_parent(item)?)?;
    }
    Ok(())
}

fn add_sorts(sorts: &mut IndexMap<Word, Option<Word>>, items: &[SortItem]) -> Result<(), AllocError>
    ensures { OnOk result (sorts_of sorts.new.entries ≡ continued sort_name (sorts_of sorts.old.entries) (map item_entry items.now)) }
{
    for item in items {
        add_sort(sorts, item)?;
    }
    Ok(())
}

fn add_sorts_of(
    sorts: &mut IndexMap<Word, Option<Word>>,
    content: &Content,
) -> Result<(), AllocError>
    ensures { OnOk result (sorts_of sorts.new.entries ≡ continued sort_name (sorts_of sorts.old.entries) (sorts_in (content_of content.now))) }
{
    match content {
        Content::Sorts(items) => add_sorts(sorts, items),
        _ => Ok(()),
    }
}

/// The sorts, each with its parent.
fn declared_sorts(
    alloc: Global,
    statements: &[Placed],
) -> Result<IndexMap<Word, Option<Word>>, AllocError>
    ensures { IfOk result (λ sorts. sorts_of sorts.entries ≡ continued sort_name built_in_sorts (joined sorts_in (map placed_of statements.now))) }
{
    let mut sorts = built_in_sorts(alloc)?;
    for placed in statements {
        add_sorts_of(&mut sorts, &placed.statement.content)?;
    }
    Ok(sorts)
}

// ---- symbols

fn add_built_in_predicate(
    alloc: Global,
    symbols: &mut Symbols,
    name: &str,
    sorts: &[&str],
) -> Result<(), AllocError>
    requires { length symbols.old < 2 ^ 31 }
    ensures { OnOk result (symbols.new ≡ with_first symbol_name symbols.old (symbol_entry predicate_role name.now (map (λ s. s.now) sorts.now))) }
{
    let name = word(alloc, name)?;
    let sorts = words(alloc, sorts)?;
    symbols.add(Role::Predicate, &name, sorts)
}

fn add_built_in_symbols(alloc: Global, symbols: &mut Symbols) -> Result<(), AllocError>
    requires { symbols.old ≡ [] }
    ensures { OnOk result (symbols.new ≡ built_in_symbols) }
{
    add_built_in_predicate(alloc, symbols, "HoldsAt", &["fluent", "time"])?;
    add_built_in_predicate(alloc, symbols, "ReleasedAt", &["fluent", "time"])?;
    add_built_in_predicate(alloc, symbols, "Happens", &["event", "time"])?;
    add_built_in_predicate(alloc, symbols, "Initiates", &["event", "fluent", "time"])?;
    add_built_in_predicate(alloc, symbols, "Terminates", &["event", "fluent", "time"])?;
    add_built_in_predicate(alloc, symbols, "Releases", &["event", "fluent", "time"])
}

fn built_in_symbols(alloc: Global) -> Result<Symbols, AllocError>
    ensures { IfOk result (λ symbols. symbols ≡ built_in_symbols) }
{
    let mut symbols = Symbols::new(alloc);
    add_built_in_symbols(alloc, &mut symbols)?;
    Ok(symbols)
}

fn one_word(alloc: Global, word: &Word) -> Result<Vec<Word>, AllocError>
    ensures { IfOk result (λ ws. ws.items ≡ word.now ∷ []) }
{
    let mut words = Vec::with_capacity(alloc, 1)?;
    words.push(copied(word)?)?;
    Ok(words)
}

fn add_constants(
    alloc: Global,
    symbols: &mut Symbols,
    sort: &Word,
    names: &[Word],
) -> Result<(), AllocError>
    requires { IsFew (continued symbol_name symbols.old (map (constant_entry sort.now) names.now)) }
    ensures { OnOk result (symbols.new ≡ continued symbol_name symbols.old (map (constant_entry sort.now) names.now)) }
{
    for name in names {
        symbols.add(Role::Constant, name, one_word(alloc, sort)?)?;
    }
    Ok(())
}

fn add_shapes(
    alloc: Global,
    symbols: &mut Symbols,
    role: Role,
    shapes: &[Shape],
) -> Result<(), AllocError>
    requires { IsFew (continued symbol_name symbols.old (map (shape_entry (role_of role)) (map shape_of shapes.now))) }
    ensures { OnOk result (symbols.new ≡ continued symbol_name symbols.old (map (shape_entry (role_of role)) (map shape_of shapes.now))) }
{
    for shape in shapes {
        symbols.add(role, &shape.name, copied_words(alloc, &shape.sorts)?)?;
    }
    Ok(())
}

fn add_symbols(alloc: Global, symbols: &mut Symbols, content: &Content) -> Result<(), AllocError>
    requires { IsFew (continued symbol_name symbols.old (symbols_in (content_of content.now))) }
    ensures { OnOk result (symbols.new ≡ continued symbol_name symbols.old (symbols_in (content_of content.now))) }
{
    match content {
        Content::Constants { sort, names } => add_constants(alloc, symbols, sort, names),
        Content::Events(shapes) => add_shapes(alloc, symbols, Role::Event, shapes),
        Content::Fluents(shapes) => add_shapes(alloc, symbols, Role::Fluent, shapes),
        Content::Predicates(shapes) => add_shapes(alloc, symbols, Role::Predicate, shapes),
        _ => Ok(()),
    }
}

/// The symbols, each with its role, its number and its sorts.
fn declared_symbols(alloc: Global, statements: &[Placed]) -> Result<Symbols, AllocError>
    requires { IsFew (continued symbol_name built_in_symbols (joined symbols_in (map placed_of statements.now))) }
    ensures { IfOk result (λ symbols. symbols ≡ continued symbol_name built_in_symbols (joined symbols_in (map placed_of statements.now))) }
{
    let mut symbols = built_in_symbols(alloc)?;
    for placed in statements {
        add_symbols(alloc, &mut symbols, &placed.statement.content)?;
    }
    Ok(symbols)
}

/// The sorts and the symbols.
pub(crate) fn declared_names(
    alloc: Global,
    statements: &[Placed],
) -> Result<(IndexMap<Word, Option<Word>>, Symbols), AllocError>
    requires { IsFew (continued symbol_name built_in_symbols (joined symbols_in (map placed_of statements.now))) }
    ensures sorts { IfOk result (λ names. sorts_of names.0.entries ≡ continued sort_name built_in_sorts (joined sorts_in (map placed_of statements.now))) }
    ensures symbols { IfOk result (λ names. names.1 ≡ continued symbol_name built_in_symbols (joined symbols_in (map placed_of statements.now))) }
{
    let sorts = declared_sorts(alloc, statements)?;
    let symbols = declared_symbols(alloc, statements)?;
    Ok((sorts, symbols))
}

// ---- ranges, noninertial fluents and choices

fn add_range(ranges: &mut IndexMap<Word, Range>, content: &Content) -> Result<(), AllocError>
    ensures { OnOk result (ranges_of ranges.new.entries ≡ continued range_sort (ranges_of ranges.old.entries) (ranges_in (content_of content.now))) }
{
    if let Content::Range { sort, low, high } = content {
        if !ranges.contains_key(sort) {
            let range = Range {
                low: *low,
                high: *high,
            };
            ranges.insert(copied(sort)?, range)?;
        }
    }
    Ok(())
}

/// The first range of each sort.
fn declared_ranges(
    alloc: Global,
    statements: &[Placed],
) -> Result<IndexMap<Word, Range>, AllocError>
    ensures { IfOk result (λ ranges. ranges_of ranges.entries ≡ continued range_sort [] (joined ranges_in (map placed_of statements.now))) }
{
    let mut ranges = IndexMap::new(alloc);
    for placed in statements {
        add_range(&mut ranges, &placed.statement.content)?;
    }
    Ok(ranges)
}

fn add_names(set: &mut IndexSet<Word>, names: &[Word]) -> Result<(), AllocError>
    ensures { OnOk result (set.new.keys ≡ continued itself set.old.keys names.now) }
{
    for name in names {
        set.insert(copied(name)?)?;
    }
    Ok(())
}

fn add_noninertial(set: &mut IndexSet<Word>, content: &Content) -> Result<(), AllocError>
    ensures { OnOk result (set.new.keys ≡ continued itself set.old.keys (noninertial_in (content_of content.now))) }
{
    match content {
        Content::Noninertial(names) => add_names(set, names),
        _ => Ok(()),
    }
}

/// The names after `noninertial`, each once.
fn declared_noninertial(alloc: Global, statements: &[Placed]) -> Result<IndexSet<Word>, AllocError>
    ensures { IfOk result (λ names. names.keys ≡ continued itself [] (joined noninertial_in (map placed_of statements.now))) }
{
    let mut names = IndexSet::new(alloc);
    for placed in statements {
        add_noninertial(&mut names, &placed.statement.content)?;
    }
    Ok(names)
}

/// The ranges of sorts, and the noninertial fluents.
pub(crate) fn declared_limits(
    alloc: Global,
    statements: &[Placed],
) -> Result<(IndexMap<Word, Range>, IndexSet<Word>), AllocError>
    ensures ranges { IfOk result (λ limits. ranges_of limits.0.entries ≡ continued range_sort [] (joined ranges_in (map placed_of statements.now))) }
    ensures noninertial { IfOk result (λ limits. limits.1.keys ≡ continued itself [] (joined noninertial_in (map placed_of statements.now))) }
{
    let ranges = declared_ranges(alloc, statements)?;
    let noninertial = declared_noninertial(alloc, statements)?;
    Ok((ranges, noninertial))
}

/// The last choice of an option, where it was so before all statements.
pub(crate) fn last_choice(statements: &[Placed], option: &str, before: bool) -> bool
    ensures { result ≡ last_choice option.now before (map placed_of statements.now) }
{
    let mut chosen = before;
    for placed in statements {
        if let Content::Choice { name, on } = &placed.statement.content {
            if name.text() == option {
                chosen = *on;
            }
        }
    }
    chosen
}
