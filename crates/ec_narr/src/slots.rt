//! The slots of a narrative, one behind the other.
ghost use Rattle.std.specs.Prelude.{◌≡◌, ◌++◌, ◌<◌, ◌≤ℤ◌, ◌∷◌, [], ◌+ℤ◌, ◌^◌, codes, false, true, map, neg_ℤ, pos, IfOk, OnOk};
ghost use Rattle.std.specs.List.{flat_map};
ghost use Rattle.std.specs.Ordering.{int_eq};
ghost use Rattle.ec_listing.specs.Slots.{atom_slot as atom_slot_of, fixed, fluent_slot as fluent_slot_of, happens_slot as happens_slot_of, released_slot as released_slot_of, slots_of, time_slots};
ghost use Rattle.ec_logic.specs.Atom.{atoms_of, declared};
ghost use Rattle.ec_logic.specs.Axiom.{first_time};
ghost use Rattle.ec_logic.specs.Extent.{numbers};
ghost use Rattle.ec_logic.specs.Narrative.{before_time, integer_text};
ghost use Rattle.ec_logic.specs.Signature.{event_sort, fluent_sort, time_sort};
ghost use Rattle.ec_logic.specs.Universe.{domain, extent_at, universe_of};
ghost use Rattle.ec_logic.specs.Valid.{IsSignature, range_limit};
ghost use Rattle.ec_narr.specs.Parts.{is_time};
ghost use Rattle.ec_narr.specs.Slots.{slots_view};

use crate::places::{atom_slot, fluent_slot, happens_slot, released_slot};
use crate::predicates::first_declared;
use crate::slot::Slot;
use crate::times::time_after;
use crate::values::push_integer;
use ec_atom::Atoms;
use ec_theory::{Signature, Value, size_of};
use std::alloc::{AllocError, Global};

fn push_fluent_slots(
    out: &mut Vec<Slot>,
    alloc: Global,
    signature: &Signature,
    atoms: &Atoms,
    first: Value,
    time: Value,
) -> Result<(), AllocError>
    requires valid { IsSignature signature.now }
    requires same { atoms.now ≡ signature.now }
    requires first { first.0 ≡ first_time signature.now }
    requires time { is_time (universe_of signature.now) time.0 ≡ true }
    requires earlier { int_eq time.0 first.0 ≡ false → is_time (universe_of signature.now) (before_time time.0) ≡ true }
    ensures { OnOk result (slots_view out.new.items ≡ slots_view out.old.items ++ map (fluent_slot_of signature.now time.0) (domain (universe_of signature.now) fluent_sort)) }
{
    for fluent in 0..atoms.fluents() {
        let slot = fluent_slot(alloc, signature, atoms, first, time, fluent)?;
        out.push(slot)?;
    }
    Ok(())
}

fn push_released_slots(
    out: &mut Vec<Slot>,
    alloc: Global,
    signature: &Signature,
    atoms: &Atoms,
    time: Value,
) -> Result<(), AllocError>
    requires valid { IsSignature signature.now }
    requires same { atoms.now ≡ signature.now }
    requires time { is_time (universe_of signature.now) time.0 ≡ true }
    ensures { OnOk result (slots_view out.new.items ≡ slots_view out.old.items ++ map (released_slot_of signature.now time.0) (domain (universe_of signature.now) fluent_sort)) }
{
    for fluent in 0..atoms.fluents() {
        let slot = released_slot(alloc, signature, atoms, time, fluent)?;
        out.push(slot)?;
    }
    Ok(())
}

fn push_happens_slots(
    out: &mut Vec<Slot>,
    alloc: Global,
    signature: &Signature,
    atoms: &Atoms,
    time: Value,
) -> Result<(), AllocError>
    requires valid { IsSignature signature.now }
    requires same { atoms.now ≡ signature.now }
    requires time { is_time (universe_of signature.now) time.0 ≡ true }
    ensures { OnOk result (slots_view out.new.items ≡ slots_view out.old.items ++ map (happens_slot_of signature.now time.0) (domain (universe_of signature.now) event_sort)) }
{
    for event in 0..atoms.events() {
        let slot = happens_slot(alloc, signature, atoms, time, event)?;
        out.push(slot)?;
    }
    Ok(())
}

fn push_time_number(out: &mut Vec<Slot>, alloc: Global, time: Value) -> Result<(), AllocError>
    ensures { OnOk result (slots_view out.new.items ≡ slots_view out.old.items ++ fixed (integer_text time.0) ∷ []) }
{
    let mut text = Vec::new(alloc);
    push_integer(&mut text, time.0)?;
    out.push(Slot::Fixed(text))?;
    Ok(())
}

fn push_time_slots(
    out: &mut Vec<Slot>,
    alloc: Global,
    signature: &Signature,
    atoms: &Atoms,
    first: Value,
    time: Value,
) -> Result<(), AllocError>
    requires valid { IsSignature signature.now }
    requires same { atoms.now ≡ signature.now }
    requires first { first.0 ≡ first_time signature.now }
    requires time { is_time (universe_of signature.now) time.0 ≡ true }
    requires earlier { int_eq time.0 first.0 ≡ false → is_time (universe_of signature.now) (before_time time.0) ≡ true }
    ensures { OnOk result (slots_view out.new.items ≡ slots_view out.old.items ++ time_slots signature.now time.0) }
{
    push_time_number(out, alloc, time)?;
    push_fluent_slots(out, alloc, signature, atoms, first, time)?;
    push_released_slots(out, alloc, signature, atoms, time)?;
    push_happens_slots(out, alloc, signature, atoms, time)?;
    Ok(())
}

// Adds the slots of so many times from the first on.
fn push_slots_from(
    out: &mut Vec<Slot>,
    alloc: Global,
    signature: &Signature,
    atoms: &Atoms,
    first: Value,
    count: u64,
) -> Result<(), AllocError>
    requires valid { IsSignature signature.now }
    requires same { atoms.now ≡ signature.now }
    requires first { first.0 ≡ first_time signature.now }
    requires extent { extent_at (universe_of signature.now) time_sort ≡ numbers first.0 count }
    requires low { neg_ℤ (pos range_limit) ≤ℤ first.0 }
    requires high { first.0 ≤ℤ pos range_limit }
    requires few { count < 2 ^ 32 }
    ensures { OnOk result (slots_view out.new.items ≡ slots_view out.old.items ++ flat_map (time_slots signature.now) (domain (universe_of signature.now) time_sort)) }
{
    for step in 0..count {
        push_time_slots(out, alloc, signature, atoms, first, time_after(first, step))?;
    }
    Ok(())
}

fn push_all_times(
    out: &mut Vec<Slot>,
    alloc: Global,
    signature: &Signature,
    atoms: &Atoms,
) -> Result<(), AllocError>
    requires valid { IsSignature signature.now }
    requires same { atoms.now ≡ signature.now }
    ensures { OnOk result (slots_view out.new.items ≡ slots_view out.old.items ++ flat_map (time_slots signature.now) (domain (universe_of signature.now) time_sort)) }
{
    let sort = signature.time_sort();
    let count = size_of(signature, sort);
    match signature.range(sort) {
        Some((first, _)) => push_slots_from(out, alloc, signature, atoms, Value(first), count),
        None => Ok(()),
    }
}

fn push_heading(out: &mut Vec<Slot>, alloc: Global) -> Result<(), AllocError>
    ensures { OnOk result (slots_view out.new.items ≡ slots_view out.old.items ++ fixed (codes "P") ∷ []) }
{
    let text = Vec::from_slice(alloc, b"P")?;
    out.push(Slot::Fixed(text))?;
    Ok(())
}

fn push_atom_slots(
    out: &mut Vec<Slot>,
    alloc: Global,
    signature: &Signature,
    atoms: &Atoms,
) -> Result<(), AllocError>
    requires valid { IsSignature signature.now }
    requires same { atoms.now ≡ signature.now }
    ensures { OnOk result (slots_view out.new.items ≡ slots_view out.old.items ++ map (atom_slot_of signature.now) (flat_map (atoms_of (universe_of signature.now)) (declared (universe_of signature.now)))) }
{
    for index in first_declared(signature, atoms)..atoms.visible() as u64 {
        let slot = atom_slot(alloc, signature, atoms, index)?;
        out.push(slot)?;
    }
    Ok(())
}

/// The slots of a narrative behind its first line. Linear in the visible atoms and their texts.
pub fn slots(alloc: Global, signature: &Signature, atoms: &Atoms) -> Result<Vec<Slot>, AllocError>
    requires valid { IsSignature signature.now }
    requires same { atoms.now ≡ signature.now }
    ensures { IfOk result (λ slots. slots_view slots.items ≡ slots_of signature.now) }
{
    let mut out = Vec::new(alloc);
    push_all_times(&mut out, alloc, signature, atoms)?;
    push_heading(&mut out, alloc)?;
    push_atom_slots(&mut out, alloc, signature, atoms)?;
    Ok(out)
}
