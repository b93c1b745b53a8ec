//! What a term is by itself: its sort, and the kind of thing that it stands for.
ghost use Rattle.std.specs.Prelude.{◌≡◌, ◌&&◌, option_map, slice_get};
ghost use Rattle.std.specs.Option.{option_copied};
ghost use Rattle.ec_syntax.specs.View.{term_of};
ghost use Rattle.ec_theory.specs.Rows as rows;
ghost use Rattle.ec_names.specs.Names.{kind_of};
ghost use Rattle.ec_walk.specs.Faults.{are_comparable};
ghost use Rattle.ec_walk.specs.Kinds as kinds;
ghost use Rattle.ec_names.specs.View.{role_of};

use ec_lex::word::Word;
use ec_names::{Names, Role, Symbol};
use ec_syntax::tree::{Arg, Op};
use ec_theory::SortKind;

fn constant_sort(symbol: &Symbol) -> Option<&Word>
    ensures { option_copied result ≡ kinds.constant_sort (role_of symbol.now.role) symbol.now.sorts.items }
{
    match symbol.role {
        Role::Constant => symbol.sorts.first(),
        Role::Event | Role::Fluent | Role::Predicate => None,
    }
}

/// The sort of a constant or a variable.
fn sort_of_term<'n>(names: &'n Names, term: &Arg) -> Option<&'n Word>
    ensures { option_copied result ≡ kinds.sort_of_term names.now (term_of term.now) }
{
    match term {
        Arg::Name { name, args: _ } => constant_sort(names.symbol(name)?),
        Arg::Variable(name) => names.variable_sort(name),
        Arg::Number(_)
        | Arg::Sum(_, _)
        | Arg::Difference(_, _)
        | Arg::Product(_, _)
        | Arg::Negative(_) => None,
    }
}

// A constant stands for a thing of a plain sort, or for nothing.
fn kind_of_constant(names: &Names, sorts: &[Word]) -> Option<SortKind>
    ensures { option_map rows.kind_of result ≡ kinds.plain_alone (option_map (kind_of names.now) (slice_get sorts.now 0)) }
{
    match names.kind(sorts.first()?) {
        SortKind::Plain => Some(SortKind::Plain),
        SortKind::Integer | SortKind::Event | SortKind::Fluent => None,
    }
}

fn kind_of_symbol(names: &Names, symbol: &Symbol) -> Option<SortKind>
    ensures { option_map rows.kind_of result ≡ kinds.kind_by_role names.now (role_of symbol.now.role) symbol.now.sorts.items }
{
    match symbol.role {
        Role::Constant => kind_of_constant(names, &symbol.sorts),
        Role::Event => Some(SortKind::Event),
        Role::Fluent => Some(SortKind::Fluent),
        Role::Predicate => None,
    }
}

/// Whether a term stands for a thing of a plain sort, a whole number, an event or a fluent, if for any.
fn kind_of_term(names: &Names, term: &Arg) -> Option<SortKind>
    ensures { option_map rows.kind_of result ≡ kinds.kind_of_term names.now (term_of term.now) }
{
    match term {
        Arg::Name { name, args: _ } => kind_of_symbol(names, names.symbol(name)?),
        Arg::Variable(name) => Some(names.kind(names.variable_sort(name)?)),
        Arg::Number(_)
        | Arg::Sum(_, _)
        | Arg::Difference(_, _)
        | Arg::Product(_, _)
        | Arg::Negative(_) => Some(SortKind::Integer),
    }
}

fn is_of_kind(kind: SortKind, other: Option<SortKind>) -> bool
    ensures { result ≡ kinds.is_of_kind (rows.kind_of kind) (option_map rows.kind_of other) }
{
    match other {
        Some(other) => kind == other,
        None => false,
    }
}

/// Whether a term stands for a whole number.
pub(crate) fn is_whole(names: &Names, term: &Arg) -> bool
    ensures { result ≡ kinds.is_whole names.now (term_of term.now) }
{
    is_of_kind(SortKind::Integer, kind_of_term(names, term))
}

fn has_sort_below(names: &Names, sort: &Word, own: Option<&Word>) -> bool
    ensures { result ≡ kinds.has_sort_below names.now sort.now (option_copied own.entry) }
{
    match own {
        Some(own) => names.is_below(own, sort),
        None => false,
    }
}

/// Whether a term fits an argument of a sort.
pub(crate) fn fits(names: &Names, sort: &Word, term: &Arg) -> bool
    ensures { result ≡ kinds.fits names.now sort.now (term_of term.now) }
{
    match names.kind(sort) {
        SortKind::Plain => has_sort_below(names, sort, sort_of_term(names, term)),
        SortKind::Integer => is_whole(names, term),
        SortKind::Event => is_of_kind(SortKind::Event, kind_of_term(names, term)),
        SortKind::Fluent => is_of_kind(SortKind::Fluent, kind_of_term(names, term)),
    }
}

fn are_alike(left: Option<SortKind>, right: Option<SortKind>) -> bool
    ensures { result ≡ kinds.are_alike (option_map rows.kind_of left) (option_map rows.kind_of right) }
{
    match left {
        Some(kind) => is_of_kind(kind, right),
        None => false,
    }
}

fn may_be_equal(names: &Names, left: &Arg, right: &Arg) -> bool
    ensures { result ≡ kinds.are_alike (kinds.kind_of_term names.now (term_of left.now)) (kinds.kind_of_term names.now (term_of right.now)) }
{
    are_alike(kind_of_term(names, left), kind_of_term(names, right))
}

fn may_be_ordered(names: &Names, left: &Arg, right: &Arg) -> bool
    ensures { result ≡ (kinds.is_whole names.now (term_of left.now) && kinds.is_whole names.now (term_of right.now)) }
{
    is_whole(names, left) && is_whole(names, right)
}

/// Whether two terms may be compared so.
pub(crate) fn are_comparable(names: &Names, op: Op, left: &Arg, right: &Arg) -> bool
    ensures { result ≡ are_comparable names.now op (term_of left.now) (term_of right.now) }
{
    match op {
        Op::Equal | Op::Unequal => may_be_equal(names, left, right),
        Op::Less | Op::AtMost | Op::More | Op::AtLeast => may_be_ordered(names, left, right),
    }
}
