//! The effect atoms that are constants.
ghost use Rattle.std.specs.Prelude.{◌≡◌, IfOk, option_map};
ghost use Rattle.ec_prop.specs.Prop.{tree_of};
ghost use Rattle.ec_ground.specs.Constants.{constant_in, constants_of};

use ec_prop::Prop;
use std::alloc::{AllocError, Global};

/// The truth of each atom whose tree is a constant, by the atom's number. Linear in the number of atoms.
pub(crate) fn constants(
    alloc: Global,
    scopes: &[Option<Prop>],
) -> Result<Vec<Option<bool>>, AllocError>
    ensures { IfOk result (λ known. known.items ≡ constants_of scopes.now) }
{
    let mut known = Vec::with_capacity(alloc, scopes.len())?;
    for scope in scopes {
        known.push(constant_of(scope))?;
    }
    Ok(known)
}

fn constant_of(scope: &Option<Prop>) -> Option<bool>
    ensures { result ≡ constant_in (option_map tree_of scope.now) }
{
    match scope {
        Some(Prop::True) => Some(true),
        Some(Prop::False) => Some(false),
        _ => None,
    }
}
