//! The lines of one fluent or event at one time.
ghost use Rattle.std.specs.Prelude.{◌≡◌, ◌++◌, ◌<◌, ◌≤ℤ◌, ◌^◌, neg_ℤ, ◌∷◌, [], ℕ, List, codes, false, true, length, pos, IfOk, OnOk};
ghost use Rattle.std.specs.Ordering.{int_eq};
ghost use Rattle.ec_logic.specs.Atom.{structure_of};
ghost use Rattle.ec_logic.specs.Axiom.{first_time};
ghost use Rattle.ec_logic.specs.Extent.{size_of};
ghost use Rattle.ec_logic.specs.Narrative.{before_time, change_text, event_text, fluent_line, fluent_text, happens_line, integer_text, line, line_if, released_line};
ghost use Rattle.ec_logic.specs.Narrative.{is_noninertial as noninertial_at};
ghost use Rattle.ec_logic.specs.Signature.{event_sort, fluent_sort, happens};
ghost use Rattle.ec_logic.specs.Universe.{extent_at, universe_of};
ghost use Rattle.ec_logic.specs.Valid.{IsSignature};
ghost use Rattle.ec_narr.specs.Parts.{at_time, is_time};
ghost use Rattle.ec_narr.specs.Tells.{told};

use crate::ground::{push_event, push_fluent};
use crate::tells::Tells;
use crate::truths::is_true;
use crate::values::push_integer;
use ec_atom::Atoms;
use ec_row::Row;
use ec_theory::{Signature, Value};
use std::alloc::AllocError;

/// The number of `HoldsAt`.
pub const HOLDS_AT: u32 = 0;

/// The number of `ReleasedAt`.
pub const RELEASED_AT: u32 = 1;

/// The number of `Happens`.
pub const HAPPENS: u32 = 2;

/// The value that is the place of a ground fluent or event.
pub fn place_value(place: u64) -> Value
    requires { place < 2 ^ 62 }
    ensures { result.0 ≡ pos place }
{
    Value(place as i64)
}

/// The time before one.
pub fn time_before(time: Value) -> Value
    requires { neg_ℤ (pos (2 ^ 62)) ≤ℤ time.0 }
    ensures { result.0 ≡ before_time time.0 }
{
    Value(time.0 - 1)
}

// Whether a fluent holds at a time, or is released.
fn fluent_is(
    signature: &Signature,
    atoms: &Atoms,
    truth: &Row,
    predicate: u32,
    fluent: u64,
    time: Value,
) -> bool
    requires valid { IsSignature signature.now }
    requires same { atoms.now ≡ signature.now }
    requires predicate { predicate < 2 }
    requires small { fluent < 2 ^ 62 }
    requires fluent { fluent < size_of (extent_at (universe_of signature.now) fluent_sort) }
    requires time { is_time (universe_of signature.now) time.0 ≡ true }
    ensures { result ≡ structure_of (universe_of signature.now) truth.now predicate (pos fluent ∷ time.0 ∷ []) }
{
    is_true(atoms, truth, predicate, &[place_value(fluent), time])
}

fn event_happens(signature: &Signature, atoms: &Atoms, truth: &Row, event: u64, time: Value) -> bool
    requires valid { IsSignature signature.now }
    requires same { atoms.now ≡ signature.now }
    requires small { event < 2 ^ 62 }
    requires event { event < size_of (extent_at (universe_of signature.now) event_sort) }
    requires time { is_time (universe_of signature.now) time.0 ≡ true }
    ensures { result ≡ structure_of (universe_of signature.now) truth.now happens (pos event ∷ time.0 ∷ []) }
{
    is_true(atoms, truth, HAPPENS, &[place_value(event), time])
}

fn told_plainly(now: bool) -> Tells
    ensures { (text : List ℕ) → told result text ≡ line_if now (text ++ codes ".") }
{
    if now { Tells::Holds } else { Tells::Nothing }
}

fn told_as_change(earlier: bool, now: bool) -> Tells
    ensures { (text : List ℕ) → told result text ≡ change_text earlier now text }
{
    match (earlier, now) {
        (false, true) => Tells::Begins,
        (true, false) => Tells::Ends,
        _ => Tells::Nothing,
    }
}

// What is told of a fluent at a time, where the first time is given.
fn tells_of(
    signature: &Signature,
    atoms: &Atoms,
    truth: &Row,
    first: Value,
    time: Value,
    fluent: u64,
) -> Tells
    requires valid { IsSignature signature.now }
    requires same { atoms.now ≡ signature.now }
    requires small { fluent < 2 ^ 62 }
    requires fluent { fluent < size_of (extent_at (universe_of signature.now) fluent_sort) }
    requires first { first.0 ≡ first_time signature.now }
    requires time { is_time (universe_of signature.now) time.0 ≡ true }
    requires earlier { int_eq time.0 first.0 ≡ false → is_time (universe_of signature.now) (before_time time.0) ≡ true }
    ensures { told result (fluent_text signature.now (pos fluent)) ≡ fluent_line signature.now (structure_of (universe_of signature.now) truth.now) time.0 (pos fluent) }
{
    let now = fluent_is(signature, atoms, truth, HOLDS_AT, fluent, time);
    if time.0 == first.0 || !signature.time_diff() {
        return told_plainly(now);
    }
    let earlier = fluent_is(signature, atoms, truth, HOLDS_AT, fluent, time_before(time));
    told_as_change(earlier, now)
}

// Adds a fluent's line with a mark before it.
fn push_marked(
    out: &mut Vec<u8>,
    signature: &Signature,
    atoms: &Atoms,
    mark: &[u8],
    fluent: u64,
) -> Result<(), AllocError>
    requires valid { IsSignature signature.now }
    requires same { atoms.now ≡ signature.now }
    requires fluent { fluent < size_of (extent_at (universe_of signature.now) fluent_sort) }
    ensures { OnOk result (out.new.items ≡ out.old.items ++ line (mark.now ++ fluent_text signature.now (pos fluent) ++ codes ".")) }
{
    out.extend_from_slice(mark)?;
    push_fluent(out, signature, atoms, fluent)?;
    out.extend_from_slice(b".\n")?;
    Ok(())
}

fn push_told(
    out: &mut Vec<u8>,
    signature: &Signature,
    atoms: &Atoms,
    tells: Tells,
    fluent: u64,
) -> Result<(), AllocError>
    requires valid { IsSignature signature.now }
    requires same { atoms.now ≡ signature.now }
    requires fluent { fluent < size_of (extent_at (universe_of signature.now) fluent_sort) }
    ensures { OnOk result (out.new.items ≡ out.old.items ++ told tells (fluent_text signature.now (pos fluent))) }
{
    match tells {
        Tells::Nothing => Ok(()),
        Tells::Holds => push_marked(out, signature, atoms, b"", fluent),
        Tells::Begins => push_marked(out, signature, atoms, b"+", fluent),
        Tells::Ends => push_marked(out, signature, atoms, b"-", fluent),
    }
}

/// Adds the line of a fluent at a time, if it has one. The first time is given.
pub fn push_fluent_line(
    out: &mut Vec<u8>,
    signature: &Signature,
    atoms: &Atoms,
    truth: &Row,
    first: Value,
    time: Value,
    fluent: u64,
) -> Result<(), AllocError>
    requires valid { IsSignature signature.now }
    requires same { atoms.now ≡ signature.now }
    requires small { fluent < 2 ^ 62 }
    requires fluent { fluent < size_of (extent_at (universe_of signature.now) fluent_sort) }
    requires first { first.0 ≡ first_time signature.now }
    requires time { is_time (universe_of signature.now) time.0 ≡ true }
    requires earlier { int_eq time.0 first.0 ≡ false → is_time (universe_of signature.now) (before_time time.0) ≡ true }
    ensures { OnOk result (out.new.items ≡ out.old.items ++ fluent_line signature.now (structure_of (universe_of signature.now) truth.now) time.0 (pos fluent)) }
{
    let tells = tells_of(signature, atoms, truth, first, time, fluent);
    push_told(out, signature, atoms, tells, fluent)
}

/// Whether the symbol of a ground fluent is noninertial.
pub fn is_noninertial(signature: &Signature, atoms: &Atoms, fluent: u64) -> Result<bool, AllocError>
    requires same { atoms.now ≡ signature.now }
    requires fluent { fluent < size_of (extent_at (universe_of signature.now) fluent_sort) }
    ensures { IfOk result (λ b. b ≡ noninertial_at signature.now (pos fluent)) }
{
    let term = atoms.fluent_at(fluent)?;
    Ok(signature.noninertial(term.symbol))
}

// Adds the end of what tells of a time.
fn push_at_time(out: &mut Vec<u8>, time: Value) -> Result<(), AllocError>
    ensures { OnOk result (out.new.items ≡ out.old.items ++ at_time time.0) }
{
    out.extend_from_slice(b", ")?;
    push_integer(out, time.0)?;
    out.extend_from_slice(b").")?;
    Ok(())
}

/// Adds that a fluent is released at a time.
pub fn push_release(
    out: &mut Vec<u8>,
    signature: &Signature,
    atoms: &Atoms,
    time: Value,
    fluent: u64,
) -> Result<(), AllocError>
    requires valid { IsSignature signature.now }
    requires same { atoms.now ≡ signature.now }
    requires fluent { fluent < size_of (extent_at (universe_of signature.now) fluent_sort) }
    ensures { OnOk result (out.new.items ≡ out.old.items ++ (codes "ReleasedAt(" ++ fluent_text signature.now (pos fluent) ++ codes ", " ++ integer_text time.0 ++ codes ").")) }
{
    out.extend_from_slice(b"ReleasedAt(")?;
    push_fluent(out, signature, atoms, fluent)?;
    push_at_time(out, time)?;
    Ok(())
}

/// Adds the line of a fluent that is released at a time and isn't noninertial.
pub fn push_released_line(
    out: &mut Vec<u8>,
    signature: &Signature,
    atoms: &Atoms,
    truth: &Row,
    time: Value,
    fluent: u64,
) -> Result<(), AllocError>
    requires valid { IsSignature signature.now }
    requires same { atoms.now ≡ signature.now }
    requires small { fluent < 2 ^ 62 }
    requires fluent { fluent < size_of (extent_at (universe_of signature.now) fluent_sort) }
    requires time { is_time (universe_of signature.now) time.0 ≡ true }
    ensures { OnOk result (out.new.items ≡ out.old.items ++ released_line signature.now (structure_of (universe_of signature.now) truth.now) time.0 (pos fluent)) }
{
    if !fluent_is(signature, atoms, truth, RELEASED_AT, fluent, time) {
        return Ok(());
    }
    if is_noninertial(signature, atoms, fluent)? {
        return Ok(());
    }
    push_release(out, signature, atoms, time, fluent)?;
    out.push(b'\n')?;
    Ok(())
}

/// Adds that an event happens at a time.
pub fn push_happening(
    out: &mut Vec<u8>,
    signature: &Signature,
    atoms: &Atoms,
    time: Value,
    event: u64,
) -> Result<(), AllocError>
    requires valid { IsSignature signature.now }
    requires same { atoms.now ≡ signature.now }
    requires event { event < size_of (extent_at (universe_of signature.now) event_sort) }
    ensures { OnOk result (out.new.items ≡ out.old.items ++ (codes "Happens(" ++ event_text signature.now (pos event) ++ codes ", " ++ integer_text time.0 ++ codes ").")) }
{
    out.extend_from_slice(b"Happens(")?;
    push_event(out, signature, atoms, event)?;
    push_at_time(out, time)?;
    Ok(())
}

/// Adds the line of an event that happens at a time.
pub fn push_happens_line(
    out: &mut Vec<u8>,
    signature: &Signature,
    atoms: &Atoms,
    truth: &Row,
    time: Value,
    event: u64,
) -> Result<(), AllocError>
    requires valid { IsSignature signature.now }
    requires same { atoms.now ≡ signature.now }
    requires small { event < 2 ^ 62 }
    requires event { event < size_of (extent_at (universe_of signature.now) event_sort) }
    requires time { is_time (universe_of signature.now) time.0 ≡ true }
    ensures { OnOk result (out.new.items ≡ out.old.items ++ happens_line signature.now (structure_of (universe_of signature.now) truth.now) time.0 (pos event)) }
{
    if !event_happens(signature, atoms, truth, event, time) {
        return Ok(());
    }
    push_happening(out, signature, atoms, time, event)?;
    out.push(b'\n')?;
    Ok(())
}
