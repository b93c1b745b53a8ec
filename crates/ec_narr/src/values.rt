//! The texts of values.
ghost use Rattle.std.specs.Prelude.{◌≡◌, ◌++◌, ◌<◌, All, length, OnOk};
ghost use Rattle.ec_logic.specs.Narrative.{integer_text, constant_text, simple_text, comma_separated, texts_of, applied};
ghost use Rattle.ec_theory.specs.Values.{numbers_of};
ghost use Rattle.ec_narr.specs.Parts.{separator};

use ec_edge::push_number;
use ec_lex::word::Word;
use ec_theory::{Signature, SortKind, Value};
use std::alloc::AllocError;

/// Adds a whole number, with `-` before a negative one.
pub fn push_integer(out: &mut Vec<u8>, value: i64) -> Result<(), AllocError>
    ensures { OnOk result (out.new.items ≡ out.old.items ++ integer_text value) }
{
    if value < 0 {
        out.push(b'-')?;
    }
    push_number(out, value.unsigned_abs())
}

/// Adds the name of a constant.
pub fn push_constant(out: &mut Vec<u8>, signature: &Signature, value: i64) -> Result<(), AllocError>
    ensures { OnOk result (out.new.items ≡ out.old.items ++ constant_text signature.now value) }
{
    let constants = signature.constants();
    if value < 0 || value >= constants as i64 {
        return Ok(());
    }
    out.extend_from_slice(signature.constant_name(value as u32).bytes())
}

// Adds a whole number or a constant.
fn push_simple(
    out: &mut Vec<u8>,
    signature: &Signature,
    sort: u32,
    value: Value,
) -> Result<(), AllocError>
    requires { sort < length signature.now.sorts }
    ensures { OnOk result (out.new.items ≡ out.old.items ++ simple_text signature.now sort value.0) }
{
    match signature.kind(sort) {
        SortKind::Integer => push_integer(out, value.0),
        SortKind::Plain => push_constant(out, signature, value.0),
        SortKind::Event | SortKind::Fluent => Ok(()),
    }
}

/// Adds what parts a value from the one before it, if there is one.
pub fn push_separator(out: &mut Vec<u8>, place: usize) -> Result<(), AllocError>
    ensures { OnOk result (out.new.items ≡ out.old.items ++ separator place) }
{
    if place == 0 {
        return Ok(());
    }
    out.extend_from_slice(b", ")
}

fn push_simple_values(
    out: &mut Vec<u8>,
    signature: &Signature,
    sorts: &[u32],
    args: &[Value],
) -> Result<(), AllocError>
    requires known { All (λ s. s < length signature.now.sorts) sorts.now }
    requires count { length sorts.now ≡ length args.now }
    ensures { OnOk result (out.new.items ≡ out.old.items ++ comma_separated (texts_of (simple_text signature.now) sorts.now (numbers_of args.now))) }
{
    for (i, sort) in sorts.iter().enumerate() {
        push_separator(out, i)?;
        push_simple(out, signature, *sort, args[i])?;
    }
    Ok(())
}

/// Adds a name with its arguments, which are whole numbers and constants, in parentheses.
pub fn push_applied(
    out: &mut Vec<u8>,
    signature: &Signature,
    name: &Word,
    sorts: &[u32],
    args: &[Value],
) -> Result<(), AllocError>
    requires known { All (λ s. s < length signature.now.sorts) sorts.now }
    requires count { length sorts.now ≡ length args.now }
    ensures { OnOk result (out.new.items ≡ out.old.items ++ applied name.now (texts_of (simple_text signature.now) sorts.now (numbers_of args.now))) }
{
    out.extend_from_slice(name.bytes())?;
    out.push(b'(')?;
    push_simple_values(out, signature, sorts, args)?;
    out.push(b')')?;
    Ok(())
}
