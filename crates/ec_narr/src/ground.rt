//! The texts of ground events, fluents and atoms.
ghost use Rattle.std.specs.Prelude.{◌≡◌, ◌++◌, ◌<◌, ◌≤ℤ◌, All, is_some, length, pos, true, OnOk};
ghost use Rattle.ec_logic.specs.Extent.{rank, size_of};
ghost use Rattle.ec_logic.specs.Narrative.{event_text, fluent_text, value_text, atom_text, applied, comma_separated, texts_of};
ghost use Rattle.ec_logic.specs.Signature.{event_sort, fluent_sort};
ghost use Rattle.ec_logic.specs.Universe.{extent_at, row_of, universe_of};
ghost use Rattle.ec_logic.specs.Valid.{IsSignature};
ghost use Rattle.ec_theory.specs.Values.{numbers_of};
ghost use Rattle.ec_atom.specs.Ground.{are_within, ground_atom};

use crate::values::{push_applied, push_constant, push_integer, push_separator};
use ec_atom::{Atoms, GroundAtom};
use ec_lex::word::Word;
use ec_theory::{Signature, SortKind, Value};
use std::alloc::AllocError;

/// Adds the ground event at a place.
pub fn push_event(
    out: &mut Vec<u8>,
    signature: &Signature,
    atoms: &Atoms,
    event: u64,
) -> Result<(), AllocError>
    requires valid { IsSignature signature.now }
    requires same { atoms.now ≡ signature.now }
    requires within { event < size_of (extent_at (universe_of signature.now) event_sort) }
    ensures { OnOk result (out.new.items ≡ out.old.items ++ event_text signature.now (pos event)) }
{
    let term = atoms.event_at(event)?;
    let name = signature.event_name(term.symbol);
    let sorts = signature.event_sorts(term.symbol);
    push_applied(out, signature, name, sorts, &term.args)
}

/// Adds the ground fluent at a place.
pub fn push_fluent(
    out: &mut Vec<u8>,
    signature: &Signature,
    atoms: &Atoms,
    fluent: u64,
) -> Result<(), AllocError>
    requires valid { IsSignature signature.now }
    requires same { atoms.now ≡ signature.now }
    requires within { fluent < size_of (extent_at (universe_of signature.now) fluent_sort) }
    ensures { OnOk result (out.new.items ≡ out.old.items ++ fluent_text signature.now (pos fluent)) }
{
    let term = atoms.fluent_at(fluent)?;
    let name = signature.fluent_name(term.symbol);
    let sorts = signature.fluent_sorts(term.symbol);
    push_applied(out, signature, name, sorts, &term.args)
}

fn place_of(value: Value) -> u64
    requires { pos 0 ≤ℤ value.0 }
    ensures { pos result ≡ value.0 }
{
    value.0 as u64
}

// Adds a value of any sort.
fn push_value(
    out: &mut Vec<u8>,
    signature: &Signature,
    atoms: &Atoms,
    sort: u32,
    value: Value,
) -> Result<(), AllocError>
    requires valid { IsSignature signature.now }
    requires same { atoms.now ≡ signature.now }
    requires known { sort < length signature.now.sorts }
    requires within { is_some (rank (extent_at (universe_of signature.now) sort) value.0) ≡ true }
    ensures { OnOk result (out.new.items ≡ out.old.items ++ value_text signature.now sort value.0) }
{
    match signature.kind(sort) {
        SortKind::Integer => push_integer(out, value.0),
        SortKind::Plain => push_constant(out, signature, value.0),
        SortKind::Event => push_event(out, signature, atoms, place_of(value)),
        SortKind::Fluent => push_fluent(out, signature, atoms, place_of(value)),
    }
}

fn push_values(
    out: &mut Vec<u8>,
    signature: &Signature,
    atoms: &Atoms,
    sorts: &[u32],
    args: &[Value],
) -> Result<(), AllocError>
    requires valid { IsSignature signature.now }
    requires same { atoms.now ≡ signature.now }
    requires known { All (λ s. s < length signature.now.sorts) sorts.now }
    requires within { are_within (universe_of signature.now) sorts.now args.now ≡ true }
    ensures { OnOk result (out.new.items ≡ out.old.items ++ comma_separated (texts_of (value_text signature.now) sorts.now (numbers_of args.now))) }
{
    for (i, sort) in sorts.iter().enumerate() {
        push_separator(out, i)?;
        push_value(out, signature, atoms, *sort, args[i])?;
    }
    Ok(())
}

// Adds a name with its arguments, of any sorts, in parentheses.
fn push_named(
    out: &mut Vec<u8>,
    signature: &Signature,
    atoms: &Atoms,
    name: &Word,
    sorts: &[u32],
    args: &[Value],
) -> Result<(), AllocError>
    requires valid { IsSignature signature.now }
    requires same { atoms.now ≡ signature.now }
    requires known { All (λ s. s < length signature.now.sorts) sorts.now }
    requires within { are_within (universe_of signature.now) sorts.now args.now ≡ true }
    ensures { OnOk result (out.new.items ≡ out.old.items ++ applied name.now (texts_of (value_text signature.now) sorts.now (numbers_of args.now))) }
{
    out.extend_from_slice(name.bytes())?;
    out.push(b'(')?;
    push_values(out, signature, atoms, sorts, args)?;
    out.push(b')')?;
    Ok(())
}

/// Adds an atom.
pub fn push_atom(
    out: &mut Vec<u8>,
    signature: &Signature,
    atoms: &Atoms,
    atom: &GroundAtom,
) -> Result<(), AllocError>
    requires valid { IsSignature signature.now }
    requires same { atoms.now ≡ signature.now }
    requires known { atom.now.predicate < length signature.now.predicates }
    requires within { are_within (universe_of signature.now) (row_of (universe_of signature.now).predicates atom.now.predicate) atom.now.args.items ≡ true }
    ensures { OnOk result (out.new.items ≡ out.old.items ++ atom_text signature.now (ground_atom atom.now)) }
{
    let name = signature.predicate_name(atom.predicate);
    let sorts = signature.predicate_sorts(atom.predicate);
    push_named(out, signature, atoms, name, sorts, &atom.args)
}
