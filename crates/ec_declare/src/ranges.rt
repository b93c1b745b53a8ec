//! Ranges as they are declared.
ghost use Rattle.std.specs.Prelude.{◌≡◌, true, IfOk};
ghost use Rattle.ec_names.specs.Names.{range_entry, range_named};
ghost use Rattle.ec_names.specs.View.{named_range};
ghost use Rattle.ec_declare.specs.Faults as def;
ghost use Rattle.ec_declare.specs.Faults.{differs, fits_sort, is_small_range, same_range};

use crate::fault::{Code, Fault, refused};
use ec_lex::word::Word;
use ec_names::{Names, Range};
use std::alloc::AllocError;

/// The greatest magnitude of the ends of a range.
const RANGE_LIMIT: i64 = 1_000_000;

/// The greatest distance from the first time to the last.
const TIME_SPAN: i64 = 511;

fn is_small(range: Range) -> bool
    ensures { result ≡ is_small_range range.low range.high }
{
    -RANGE_LIMIT <= range.low && range.low <= range.high && range.high <= RANGE_LIMIT
}

// Whether a range isn't one of time, or has at most 512 values.
fn fits_sort(sort: &Word, range: Range) -> bool
    requires { is_small_range range.low range.high ≡ true }
    ensures { result ≡ fits_sort sort.now range.low range.high }
{
    sort.text() != "time" || range.high <= range.low + TIME_SPAN
}

// Whether the first range of a sort is another one.
fn has_other_range(names: &Names, sort: &Word, range: Range) -> bool
    ensures { result ≡ differs same_range (named_range sort.now range) (range_named names.now sort.now) }
{
    match names.range(sort) {
        Some(first) => range != first,
        None => false,
    }
}

/// The fault of a declared range.
pub(crate) fn range_fault(
    names: &Names,
    sort: &Word,
    range: Range,
) -> Result<Option<Fault>, AllocError>
    ensures { IfOk result (λ fault. fault ≡ def.range_fault names.now sort.now range.low range.high) }
{
    if !names.is_sort(sort) {
        return refused(Code::UnknownSort, sort);
    }
    if has_other_range(names, sort, range) {
        return refused(Code::OtherMeaning, sort);
    }
    if !is_small(range) || !fits_sort(sort, range) {
        return refused(Code::NoRange, sort);
    }
    if !names.is_integer(sort) {
        return refused(Code::Misfit, sort);
    }
    Ok(None)
}
