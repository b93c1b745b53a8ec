//! Sorts as they are declared and used in declarations.
ghost use Rattle.std.specs.Prelude.{◌≡◌, Some, None, IfOk};
ghost use Rattle.ec_names.specs.Names.{is_reified_sort, sort_entry, sort_named};
ghost use Rattle.ec_names.specs.View.{role_of};
ghost use Rattle.ec_declare.specs.Faults as def;
ghost use Rattle.ec_declare.specs.Faults.{differs, first_fault, refuses_reified, same_sort};

use crate::fault::{Code, Fault, refused};
use ec_lex::word::Word;
use ec_names::{Names, Role};
use ec_syntax::statement::SortItem;
use std::alloc::AllocError;

/// Whether the values of a sort are events or fluents.
pub(crate) fn is_reified(sort: &Word) -> bool
    ensures { result ≡ is_reified_sort sort.now }
{
    sort.text() == "event" || sort.text() == "fluent"
}

// Whether a sort is declared first with another parent, or with a parent where this item has none.
fn has_other_parent(names: &Names, item: &SortItem) -> bool
    ensures { result ≡ differs same_sort (sort_entry item.now.name item.now.parent) (sort_named names.now item.now.name) }
{
    names.is_sort(&item.name) && item.parent.as_ref() != names.parent(&item.name)
}

fn declared_sort_fault(names: &Names, item: &SortItem) -> Result<Option<Fault>, AllocError>
    ensures { IfOk result (λ fault. fault ≡ def.declared_sort_fault names.now item.now) }
{
    if has_other_parent(names, item) || names.is_own_ancestor(&item.name) {
        return refused(Code::OtherMeaning, &item.name);
    }
    Ok(None)
}

fn parent_fault(names: &Names, parent: &Word) -> Result<Option<Fault>, AllocError>
    ensures { IfOk result (λ fault. fault ≡ def.parent_fault names.now (Some parent.now)) }
{
    if !names.is_sort(parent) {
        return refused(Code::UnknownSort, parent);
    }
    if is_reified(parent) {
        return refused(Code::Misfit, parent);
    }
    Ok(None)
}

fn sort_fault(names: &Names, item: &SortItem) -> Result<Option<Fault>, AllocError>
    ensures { IfOk result (λ fault. fault ≡ def.sort_item_fault names.now item.now) }
{
    if let Some(fault) = declared_sort_fault(names, item)? {
        return Ok(Some(fault));
    }
    match &item.parent {
        Some(parent) => parent_fault(names, parent),
        None => Ok(None),
    }
}

/// The first fault of declared sorts.
pub(crate) fn sorts_fault(names: &Names, items: &[SortItem]) -> Result<Option<Fault>, AllocError>
    ensures { IfOk result (λ fault. fault ≡ first_fault (def.sort_item_fault names.now) items.now) }
{
    for item in items {
        if let Some(fault) = sort_fault(names, item)? {
            return Ok(Some(fault));
        }
    }
    Ok(None)
}

/// The fault of the sort of declared constants.
pub(crate) fn constant_sort_fault(names: &Names, sort: &Word) -> Result<Option<Fault>, AllocError>
    ensures { IfOk result (λ fault. fault ≡ def.constant_sort_fault names.now sort.now) }
{
    if !names.is_sort(sort) {
        return refused(Code::UnknownSort, sort);
    }
    if is_reified(sort) || names.is_integer(sort) {
        return refused(Code::Misfit, sort);
    }
    Ok(None)
}

fn refuses_reified(role: Role) -> bool
    ensures { result ≡ refuses_reified (role_of role) }
{
    match role {
        Role::Event | Role::Fluent => true,
        Role::Constant | Role::Predicate => false,
    }
}

fn argument_fault(names: &Names, role: Role, sort: &Word) -> Result<Option<Fault>, AllocError>
    ensures { IfOk result (λ fault. fault ≡ def.argument_fault names.now (role_of role) sort.now) }
{
    if !names.is_sort(sort) {
        return refused(Code::UnknownSort, sort);
    }
    if !names.is_ranged(sort) {
        return refused(Code::NoRange, sort);
    }
    if refuses_reified(role) && is_reified(sort) {
        return refused(Code::Misfit, sort);
    }
    Ok(None)
}

/// The first fault of the argument sorts of a symbol.
pub(crate) fn arguments_fault(
    names: &Names,
    role: Role,
    sorts: &[Word],
) -> Result<Option<Fault>, AllocError>
    ensures { IfOk result (λ fault. fault ≡ first_fault (def.argument_fault names.now (role_of role)) sorts.now) }
{
    for sort in sorts {
        if let Some(fault) = argument_fault(names, role, sort)? {
            return Ok(Some(fault));
        }
    }
    Ok(None)
}
