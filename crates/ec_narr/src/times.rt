//! What is told of each time.
ghost use Rattle.std.specs.Prelude.{◌≡◌, ◌++◌, ◌<◌, ◌^◌, ◌+ℤ◌, ◌≤ℤ◌, neg_ℤ, false, true, pos, OnOk};
ghost use Rattle.std.specs.List.{flat_map};
ghost use Rattle.std.specs.Ordering.{int_eq};
ghost use Rattle.ec_logic.specs.Atom.{structure_of};
ghost use Rattle.ec_logic.specs.Axiom.{first_time};
ghost use Rattle.ec_logic.specs.Narrative.{before_time, fluent_line, happens_line, released_line, time_lines};
ghost use Rattle.ec_logic.specs.Signature.{event_sort, fluent_sort, time_sort};
ghost use Rattle.ec_logic.specs.Universe.{domain, extent_at, universe_of};
ghost use Rattle.ec_logic.specs.Extent.{numbers};
ghost use Rattle.ec_logic.specs.Valid.{IsSignature, range_limit};
ghost use Rattle.ec_narr.specs.Parts.{is_time};

use crate::fluents::{push_fluent_line, push_happens_line, push_released_line};
use crate::values::push_integer;
use ec_atom::Atoms;
use ec_row::Row;
use ec_theory::{Signature, Value, size_of};
use std::alloc::AllocError;

fn push_fluent_lines(
    out: &mut Vec<u8>,
    signature: &Signature,
    atoms: &Atoms,
    truth: &Row,
    first: Value,
    time: Value,
) -> Result<(), AllocError>
    requires valid { IsSignature signature.now }
    requires same { atoms.now ≡ signature.now }
    requires first { first.0 ≡ first_time signature.now }
    requires time { is_time (universe_of signature.now) time.0 ≡ true }
    requires earlier { int_eq time.0 first.0 ≡ false → is_time (universe_of signature.now) (before_time time.0) ≡ true }
    ensures { OnOk result (out.new.items ≡ out.old.items ++ flat_map (fluent_line signature.now (structure_of (universe_of signature.now) truth.now) time.0) (domain (universe_of signature.now) fluent_sort)) }
{
    for fluent in 0..atoms.fluents() {
        push_fluent_line(out, signature, atoms, truth, first, time, fluent)?;
    }
    Ok(())
}

fn push_released_lines(
    out: &mut Vec<u8>,
    signature: &Signature,
    atoms: &Atoms,
    truth: &Row,
    time: Value,
) -> Result<(), AllocError>
    requires valid { IsSignature signature.now }
    requires same { atoms.now ≡ signature.now }
    requires time { is_time (universe_of signature.now) time.0 ≡ true }
    ensures { OnOk result (out.new.items ≡ out.old.items ++ flat_map (released_line signature.now (structure_of (universe_of signature.now) truth.now) time.0) (domain (universe_of signature.now) fluent_sort)) }
{
    for fluent in 0..atoms.fluents() {
        push_released_line(out, signature, atoms, truth, time, fluent)?;
    }
    Ok(())
}

fn push_happens_lines(
    out: &mut Vec<u8>,
    signature: &Signature,
    atoms: &Atoms,
    truth: &Row,
    time: Value,
) -> Result<(), AllocError>
    requires valid { IsSignature signature.now }
    requires same { atoms.now ≡ signature.now }
    requires time { is_time (universe_of signature.now) time.0 ≡ true }
    ensures { OnOk result (out.new.items ≡ out.old.items ++ flat_map (happens_line signature.now (structure_of (universe_of signature.now) truth.now) time.0) (domain (universe_of signature.now) event_sort)) }
{
    for event in 0..atoms.events() {
        push_happens_line(out, signature, atoms, truth, time, event)?;
    }
    Ok(())
}

fn push_time(
    out: &mut Vec<u8>,
    signature: &Signature,
    atoms: &Atoms,
    truth: &Row,
    first: Value,
    time: Value,
) -> Result<(), AllocError>
    requires valid { IsSignature signature.now }
    requires same { atoms.now ≡ signature.now }
    requires first { first.0 ≡ first_time signature.now }
    requires time { is_time (universe_of signature.now) time.0 ≡ true }
    requires earlier { int_eq time.0 first.0 ≡ false → is_time (universe_of signature.now) (before_time time.0) ≡ true }
    ensures { OnOk result (out.new.items ≡ out.old.items ++ time_lines signature.now (structure_of (universe_of signature.now) truth.now) time.0) }
{
    push_integer(out, time.0)?;
    out.push(b'\n')?;
    push_fluent_lines(out, signature, atoms, truth, first, time)?;
    push_released_lines(out, signature, atoms, truth, time)?;
    push_happens_lines(out, signature, atoms, truth, time)?;
    Ok(())
}

/// The time so many steps behind the first.
pub fn time_after(first: Value, step: u64) -> Value
    requires low { neg_ℤ (pos range_limit) ≤ℤ first.0 }
    requires high { first.0 ≤ℤ pos range_limit }
    requires few { step < 2 ^ 32 }
    ensures { result.0 ≡ first.0 +ℤ pos step }
{
    Value(first.0 + step as i64)
}

// Adds what is told of so many times from the first on.
fn push_times_from(
    out: &mut Vec<u8>,
    signature: &Signature,
    atoms: &Atoms,
    truth: &Row,
    first: Value,
    count: u64,
) -> Result<(), AllocError>
    requires valid { IsSignature signature.now }
    requires same { atoms.now ≡ signature.now }
    requires first { first.0 ≡ first_time signature.now }
    requires extent { extent_at (universe_of signature.now) time_sort ≡ numbers first.0 count }
    requires low { neg_ℤ (pos range_limit) ≤ℤ first.0 }
    requires high { first.0 ≤ℤ pos range_limit }
    requires few { count < 2 ^ 32 }
    ensures { OnOk result (out.new.items ≡ out.old.items ++ flat_map (time_lines signature.now (structure_of (universe_of signature.now) truth.now)) (domain (universe_of signature.now) time_sort)) }
{
    for step in 0..count {
        push_time(out, signature, atoms, truth, first, time_after(first, step))?;
    }
    Ok(())
}

/// Adds what is told of each time.
pub fn push_times(
    out: &mut Vec<u8>,
    signature: &Signature,
    atoms: &Atoms,
    truth: &Row,
) -> Result<(), AllocError>
    requires valid { IsSignature signature.now }
    requires same { atoms.now ≡ signature.now }
    ensures { OnOk result (out.new.items ≡ out.old.items ++ flat_map (time_lines signature.now (structure_of (universe_of signature.now) truth.now)) (domain (universe_of signature.now) time_sort)) }
{
    let sort = signature.time_sort();
    let count = size_of(signature, sort);
    match signature.range(sort) {
        Some((first, _)) => push_times_from(out, signature, atoms, truth, Value(first), count),
        None => Ok(()),
    }
}
