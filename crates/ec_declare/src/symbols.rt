//! Symbols as they are declared, and the names after `noninertial`.
ghost use Rattle.std.specs.Prelude.{◌≡◌, IfOk, map};
ghost use Rattle.ec_syntax.specs.View.{shape_of};
ghost use Rattle.ec_names.specs.Names.{constant_entry, symbol_entry, symbol_named};
ghost use Rattle.ec_names.specs.View.{named_symbol, role_of};
ghost use Rattle.ec_declare.specs.Faults as def;
ghost use Rattle.ec_declare.specs.Faults.{differs, first_fault, same_symbol};

use crate::fault::{Code, Fault, refused};
use crate::sorts::{arguments_fault, constant_sort_fault};
use ec_lex::word::Word;
use ec_names::{Names, Role, Symbol};
use ec_syntax::statement::Shape;
use std::alloc::{AllocError, Global};

fn is_same(first: &Symbol, name: &Word, role: Role, sorts: &[Word]) -> bool
    ensures { result ≡ same_symbol (symbol_entry (role_of role) name.now sorts.now) (named_symbol name.now first.now) }
{
    role == first.role && sorts == first.sorts.as_slice()
}

// Whether the first declaration of a name says something else.
fn is_declared_otherwise(names: &Names, name: &Word, role: Role, sorts: &[Word]) -> bool
    ensures { result ≡ differs same_symbol (symbol_entry (role_of role) name.now sorts.now) (symbol_named names.now name.now) }
{
    match names.symbol(name) {
        Some(first) => !is_same(first, name, role, sorts),
        None => false,
    }
}

fn symbol_fault(
    names: &Names,
    name: &Word,
    role: Role,
    sorts: &[Word],
) -> Result<Option<Fault>, AllocError>
    ensures { IfOk result (λ fault. fault ≡ def.symbol_fault names.now (symbol_entry (role_of role) name.now sorts.now)) }
{
    if is_declared_otherwise(names, name, role, sorts) {
        return refused(Code::OtherMeaning, name);
    }
    Ok(None)
}

fn constant_fault(names: &Names, sort: &Word, name: &Word) -> Result<Option<Fault>, AllocError>
    ensures { IfOk result (λ fault. fault ≡ def.symbol_fault names.now (constant_entry sort.now name.now)) }
{
    symbol_fault(names, name, Role::Constant, std::slice::from_ref(sort))
}

/// The first fault of declared constants.
pub(crate) fn constants_fault(
    names: &Names,
    sort: &Word,
    constants: &[Word],
) -> Result<Option<Fault>, AllocError>
    ensures { IfOk result (λ fault. fault ≡ def.constants_fault names.now sort.now constants.now) }
{
    if let Some(fault) = constant_sort_fault(names, sort)? {
        return Ok(Some(fault));
    }
    for constant in constants {
        if let Some(fault) = constant_fault(names, sort, constant)? {
            return Ok(Some(fault));
        }
    }
    Ok(None)
}

fn shape_fault(names: &Names, role: Role, shape: &Shape) -> Result<Option<Fault>, AllocError>
    ensures { IfOk result (λ fault. fault ≡ def.shape_fault names.now (role_of role) (shape_of shape.now)) }
{
    if let Some(fault) = symbol_fault(names, &shape.name, role, &shape.sorts)? {
        return Ok(Some(fault));
    }
    arguments_fault(names, role, &shape.sorts)
}

/// The first fault of declared events, fluents or predicates.
pub(crate) fn shapes_fault(
    names: &Names,
    role: Role,
    shapes: &[Shape],
) -> Result<Option<Fault>, AllocError>
    ensures { IfOk result (λ fault. fault ≡ first_fault (def.shape_fault names.now (role_of role)) (map shape_of shapes.now)) }
{
    for shape in shapes {
        if let Some(fault) = shape_fault(names, role, shape)? {
            return Ok(Some(fault));
        }
    }
    Ok(None)
}

fn time_fault(alloc: Global, names: &Names) -> Result<Option<Fault>, AllocError>
    ensures { IfOk result (λ fault. fault ≡ def.time_fault names.now) }
{
    let time = Word::of(alloc, b"time")?;
    if !names.is_ranged(&time) {
        return refused(Code::NoRange, &time);
    }
    Ok(None)
}

/// The first fault of declared events or fluents, for which time has a range.
pub(crate) fn timed_shapes_fault(
    alloc: Global,
    names: &Names,
    role: Role,
    shapes: &[Shape],
) -> Result<Option<Fault>, AllocError>
    ensures { IfOk result (λ fault. fault ≡ def.timed_shapes_fault names.now (role_of role) (map shape_of shapes.now)) }
{
    if let Some(fault) = time_fault(alloc, names)? {
        return Ok(Some(fault));
    }
    shapes_fault(names, role, shapes)
}

fn noninertial_fault(names: &Names, name: &Word) -> Result<Option<Fault>, AllocError>
    ensures { IfOk result (λ fault. fault ≡ def.noninertial_fault names.now name.now) }
{
    match names.symbol(name) {
        Some(symbol) if symbol.role == Role::Fluent => Ok(None),
        Some(_) => refused(Code::Misfit, name),
        None => refused(Code::UnknownName, name),
    }
}

/// The first fault of names after `noninertial`.
pub(crate) fn noninertials_fault(
    names: &Names,
    fluents: &[Word],
) -> Result<Option<Fault>, AllocError>
    ensures { IfOk result (λ fault. fault ≡ first_fault (def.noninertial_fault names.now) fluents.now) }
{
    for fluent in fluents {
        if let Some(fault) = noninertial_fault(names, fluent)? {
            return Ok(Some(fault));
        }
    }
    Ok(None)
}
