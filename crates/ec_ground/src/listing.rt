//! The atoms that have a variable, and those that have a definition.
ghost use Rattle.std.specs.Prelude.{◌≡◌, length, IfOk};
ghost use Rattle.ec_prop.specs.Grounded.{definitions_of};
ghost use Rattle.ec_ground.specs.Listed.{listed_variables, listed_definitions};

use ec_prop::{Defined, Prop};
use std::alloc::{AllocError, Global};

/// The numbers of the atoms that aren't known to be constants, with room for as many as are expected. Linear in the number of atoms.
pub(crate) fn list_variables(
    alloc: Global,
    expected: usize,
    known: &[Option<bool>],
) -> Result<Vec<u64>, AllocError>
    ensures { IfOk result (λ variables. variables.items ≡ listed_variables known.now) }
{
    let mut variables = Vec::with_capacity(alloc, expected)?;
    for (atom, constant) in known.iter().enumerate() {
        if constant.is_some() {
            continue;
        }
        variables.push(atom as u64)?;
    }
    Ok(variables)
}

/// The definitions of the atoms that aren't known to be constants and have a tree in one of the tables, which is moved out of it.
/// Linear in the number of atoms.
pub(crate) fn list_definitions(
    alloc: Global,
    known: &[Option<bool>],
    effects: &mut [Option<Prop>],
    others: &mut [Option<Prop>],
) -> Result<Vec<Defined>, AllocError>
    requires effects { length effects.old ≡ length known.now }
    requires others { length others.old ≡ length known.now }
    ensures { IfOk result (λ definitions. definitions_of definitions.items ≡ listed_definitions known.now effects.old others.old) }
{
    let mut definitions = Vec::new(alloc);
    for (atom, constant) in known.iter().enumerate() {
        if constant.is_some() {
            continue;
        }
        if let Some(scope) = effects[atom].take().or(others[atom].take()) {
            definitions.push(Defined {
                atom: atom as u64,
                scope,
            })?;
        }
    }
    Ok(definitions)
}
