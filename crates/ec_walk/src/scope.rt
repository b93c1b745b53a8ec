//! The variables that are bound where a part of a sentence stands, the innermost first.
ghost use Rattle.std.specs.Prelude.{◌≡◌, ◌≤◌, IfOk, [], length};
ghost use Rattle.std.specs.List.{position_or_len};
ghost use Rattle.std.specs.Str.{bytes_eq};
ghost use Rattle.ec_names.specs.Names.{is_among};
ghost use Rattle.ec_walk.specs.Faults.{opened};
ghost use Rattle.ec_walk.specs.Scopes.{words};

use ec_lex::word::Word;
use std::alloc::{AllocError, Global};

/// The variables that may be bound at one time: the free ones and the open binders.
pub const LIMIT: usize = 16;

/// The place of a variable, or the number of the variables.
#[tactic(auto, using(crate::proofs::TreeLemmas::place_within))]
pub fn place(scope: &[&Word], variable: &Word) -> usize
    ensures place { result ≡ position_or_len (bytes_eq variable.now) (words scope.now) }
    ensures within { result ≤ length (words scope.now) }
{
    let mut place = 0;
    for word in scope {
        if *variable == **word {
            return place;
        }
        place += 1;
    }
    place
}

/// Whether a variable is among them.
pub fn contains(scope: &[&Word], variable: &Word) -> bool
    ensures { result ≡ is_among variable.now (words scope.now) }
{
    for word in scope {
        if *variable == **word {
            return true;
        }
    }
    false
}

/// The variables inside binders, which are given in the order written.
pub fn inside<'a>(
    alloc: Global,
    scope: &[&'a Word],
    binders: &'a [Word],
) -> Result<Vec<&'a Word>, AllocError>
    ensures { IfOk result (λ v. words v.items ≡ opened (words scope.now) binders.now) }
{
    let mut inner = Vec::with_capacity(alloc, scope.len())?;
    for binder in binders {
        inner.push(binder)?;
    }
    inner.reverse();
    inner.extend_from_slice(scope)?;
    Ok(inner)
}

/// Variables in the order in which they are bound, the innermost first.
pub fn turned<'a>(alloc: Global, variables: &[&'a Word]) -> Result<Vec<&'a Word>, AllocError>
    ensures { IfOk result (λ v. words v.items ≡ opened [] (words variables.now)) }
{
    let mut scope = Vec::from_slice(alloc, variables)?;
    scope.reverse();
    Ok(scope)
}
