//! The slot of one fluent, event or atom.
ghost use Rattle.std.specs.Prelude.{◌≡◌, ◌++◌, ◌<◌, ◌≤ℤ◌, ◌^◌, ◌∷◌, [], codes, false, true, length, neg_ℤ, pos, slice_get, IfOk, Some};
ghost use Rattle.std.specs.Ordering.{int_eq};
ghost use Rattle.ec_listing.specs.Slots.{atom_number, atom_slot as atom_slot_of, fluent_slot as fluent_slot_of, happens_slot as happens_slot_of, released_slot as released_slot_of};
ghost use Rattle.ec_logic.specs.Atom.{GroundAtom as LogicAtom};
ghost use Rattle.ec_logic.specs.Atom.{visible_atoms};
ghost use Rattle.ec_logic.specs.Axiom.{first_time};
ghost use Rattle.ec_logic.specs.Extent.{size_of};
ghost use Rattle.ec_logic.specs.Narrative.{atom_text, before_time, event_text, fluent_text, integer_text};
ghost use Rattle.ec_logic.specs.Signature.{event_sort, fluent_sort, happens};
ghost use Rattle.ec_logic.specs.Universe.{extent_at, universe_of};
ghost use Rattle.ec_logic.specs.Valid.{IsSignature};
ghost use Rattle.ec_narr.specs.Parts.{is_time};
ghost use Rattle.ec_narr.specs.Slots.{slot_view};

use crate::fluents::{
    HAPPENS, HOLDS_AT, RELEASED_AT, is_noninertial, place_value, push_happening, push_release,
    time_before,
};
use crate::ground::{push_atom, push_fluent};
use crate::slot::Slot;
use ec_atom::Atoms;
use ec_theory::{Signature, Value};
use std::alloc::{AllocError, Global};

// The number of the atom of a fluent at a time: that it holds, or that it is released.
fn fluent_atom(
    signature: &Signature,
    atoms: &Atoms,
    predicate: u32,
    fluent: u64,
    time: Value,
) -> u64
    requires valid { IsSignature signature.now }
    requires same { atoms.now ≡ signature.now }
    requires predicate { predicate < 2 }
    requires small { fluent < 2 ^ 62 }
    requires fluent { fluent < size_of (extent_at (universe_of signature.now) fluent_sort) }
    requires time { is_time (universe_of signature.now) time.0 ≡ true }
    ensures { result ≡ atom_number signature.now predicate (pos fluent ∷ time.0 ∷ []) }
{
    atoms.index_of(predicate, &[place_value(fluent), time])
}

fn event_atom(signature: &Signature, atoms: &Atoms, event: u64, time: Value) -> u64
    requires valid { IsSignature signature.now }
    requires same { atoms.now ≡ signature.now }
    requires small { event < 2 ^ 62 }
    requires event { event < size_of (extent_at (universe_of signature.now) event_sort) }
    requires time { is_time (universe_of signature.now) time.0 ≡ true }
    ensures { result ≡ atom_number signature.now happens (pos event ∷ time.0 ∷ []) }
{
    atoms.index_of(HAPPENS, &[place_value(event), time])
}

fn holds_text(
    alloc: Global,
    signature: &Signature,
    atoms: &Atoms,
    fluent: u64,
) -> Result<Vec<u8>, AllocError>
    requires valid { IsSignature signature.now }
    requires same { atoms.now ≡ signature.now }
    requires fluent { fluent < size_of (extent_at (universe_of signature.now) fluent_sort) }
    ensures { IfOk result (λ text. text.items ≡ fluent_text signature.now (pos fluent) ++ codes ".") }
{
    let mut text = Vec::new(alloc);
    push_fluent(&mut text, signature, atoms, fluent)?;
    text.push(b'.')?;
    Ok(text)
}

fn released_text(
    alloc: Global,
    signature: &Signature,
    atoms: &Atoms,
    time: Value,
    fluent: u64,
) -> Result<Vec<u8>, AllocError>
    requires valid { IsSignature signature.now }
    requires same { atoms.now ≡ signature.now }
    requires fluent { fluent < size_of (extent_at (universe_of signature.now) fluent_sort) }
    ensures { IfOk result (λ text. text.items ≡ codes "ReleasedAt(" ++ fluent_text signature.now (pos fluent) ++ codes ", " ++ integer_text time.0 ++ codes ").") }
{
    let mut text = Vec::new(alloc);
    push_release(&mut text, signature, atoms, time, fluent)?;
    Ok(text)
}

fn happens_text(
    alloc: Global,
    signature: &Signature,
    atoms: &Atoms,
    time: Value,
    event: u64,
) -> Result<Vec<u8>, AllocError>
    requires valid { IsSignature signature.now }
    requires same { atoms.now ≡ signature.now }
    requires event { event < size_of (extent_at (universe_of signature.now) event_sort) }
    ensures { IfOk result (λ text. text.items ≡ codes "Happens(" ++ event_text signature.now (pos event) ++ codes ", " ++ integer_text time.0 ++ codes ").") }
{
    let mut text = Vec::new(alloc);
    push_happening(&mut text, signature, atoms, time, event)?;
    Ok(text)
}

/// The slot of a fluent at a time, where the first time is given.
pub fn fluent_slot(
    alloc: Global,
    signature: &Signature,
    atoms: &Atoms,
    first: Value,
    time: Value,
    fluent: u64,
) -> Result<Slot, AllocError>
    requires valid { IsSignature signature.now }
    requires same { atoms.now ≡ signature.now }
    requires small { fluent < 2 ^ 62 }
    requires fluent { fluent < size_of (extent_at (universe_of signature.now) fluent_sort) }
    requires first { first.0 ≡ first_time signature.now }
    requires time { is_time (universe_of signature.now) time.0 ≡ true }
    requires earlier { int_eq time.0 first.0 ≡ false → is_time (universe_of signature.now) (before_time time.0) ≡ true }
    ensures { IfOk result (λ slot. slot_view slot ≡ fluent_slot_of signature.now time.0 (pos fluent)) }
{
    let text = holds_text(alloc, signature, atoms, fluent)?;
    let atom = fluent_atom(signature, atoms, HOLDS_AT, fluent, time);
    if time.0 == first.0 || !signature.time_diff() {
        return Ok(Slot::Told { atom, text });
    }
    let earlier = fluent_atom(signature, atoms, HOLDS_AT, fluent, time_before(time));
    Ok(Slot::Changed {
        earlier,
        atom,
        text,
    })
}

/// The slot of a fluent's release at a time.
pub fn released_slot(
    alloc: Global,
    signature: &Signature,
    atoms: &Atoms,
    time: Value,
    fluent: u64,
) -> Result<Slot, AllocError>
    requires valid { IsSignature signature.now }
    requires same { atoms.now ≡ signature.now }
    requires small { fluent < 2 ^ 62 }
    requires fluent { fluent < size_of (extent_at (universe_of signature.now) fluent_sort) }
    requires time { is_time (universe_of signature.now) time.0 ≡ true }
    ensures { IfOk result (λ slot. slot_view slot ≡ released_slot_of signature.now time.0 (pos fluent)) }
{
    let atom = fluent_atom(signature, atoms, RELEASED_AT, fluent, time);
    if is_noninertial(signature, atoms, fluent)? {
        return Ok(Slot::Silent(atom));
    }
    let text = released_text(alloc, signature, atoms, time, fluent)?;
    Ok(Slot::Told { atom, text })
}

/// The slot of an event at a time.
pub fn happens_slot(
    alloc: Global,
    signature: &Signature,
    atoms: &Atoms,
    time: Value,
    event: u64,
) -> Result<Slot, AllocError>
    requires valid { IsSignature signature.now }
    requires same { atoms.now ≡ signature.now }
    requires small { event < 2 ^ 62 }
    requires event { event < size_of (extent_at (universe_of signature.now) event_sort) }
    requires time { is_time (universe_of signature.now) time.0 ≡ true }
    ensures { IfOk result (λ slot. slot_view slot ≡ happens_slot_of signature.now time.0 (pos event)) }
{
    let text = happens_text(alloc, signature, atoms, time, event)?;
    let atom = event_atom(signature, atoms, event, time);
    Ok(Slot::Told { atom, text })
}

fn declared_text(
    alloc: Global,
    signature: &Signature,
    atoms: &Atoms,
    index: u64,
) -> Result<Vec<u8>, AllocError>
    requires valid { IsSignature signature.now }
    requires same { atoms.now ≡ signature.now }
    requires within { index < length (visible_atoms (universe_of signature.now)) }
    ensures { IfOk result (λ text. (atom : LogicAtom) → slice_get (visible_atoms (universe_of signature.now)) index ≡ Some atom → text.items ≡ atom_text signature.now atom ++ codes ".") }
{
    let mut text = Vec::new(alloc);
    let atom = atoms.atom_at(index)?;
    push_atom(&mut text, signature, atoms, &atom)?;
    text.push(b'.')?;
    Ok(text)
}

/// The slot of the visible atom with a number, of a declared predicate.
pub fn atom_slot(
    alloc: Global,
    signature: &Signature,
    atoms: &Atoms,
    index: u64,
) -> Result<Slot, AllocError>
    requires valid { IsSignature signature.now }
    requires same { atoms.now ≡ signature.now }
    requires within { index < length (visible_atoms (universe_of signature.now)) }
    ensures { IfOk result (λ slot. (atom : LogicAtom) → slice_get (visible_atoms (universe_of signature.now)) index ≡ Some atom → slot_view slot ≡ atom_slot_of signature.now atom) }
{
    let text = declared_text(alloc, signature, atoms, index)?;
    Ok(Slot::Told { atom: index, text })
}
