//! The symbols whose applications are numbered, in the order of the numbers.
ghost use Rattle.std.specs.Prelude.{◌≡◌, ◌<◌, ◌^◌, length, slice_get, Some};
ghost use Rattle.ec_logic.specs.Universe.{universe_of};
ghost use Rattle.ec_atom.specs.Symbols.{rows_of};

use crate::kinds::Symbols;
use crate::order::predicate_at;
use ec_theory::Signature;

/// How many symbols there are.
pub fn count_of(signature: &Signature, symbols: Symbols) -> u32
    ensures count { result ≡ length (rows_of (universe_of signature.now) symbols) }
    ensures few { result < 2 ^ 31 }
{
    match symbols {
        Symbols::Events => signature.events(),
        Symbols::Fluents => signature.fluents(),
        Symbols::Predicates => signature.predicates(),
    }
}

/// The sorts of the arguments of the symbol at a place of the order.
pub fn sorts_at(signature: &Signature, symbols: Symbols, place: u32) -> &[u32]
    requires { place < length (rows_of (universe_of signature.now) symbols) }
    ensures { slice_get (rows_of (universe_of signature.now) symbols) place ≡ Some result.now }
{
    match symbols {
        Symbols::Events => signature.event_sorts(place),
        Symbols::Fluents => signature.fluent_sorts(place),
        Symbols::Predicates => predicate_sorts_at(signature, place),
    }
}

fn predicate_sorts_at(signature: &Signature, place: u32) -> &[u32]
    requires { place < length (rows_of (universe_of signature.now) Symbols.Predicates) }
    ensures { slice_get (rows_of (universe_of signature.now) Symbols.Predicates) place ≡ Some result.now }
{
    signature.predicate_sorts(predicate_at(signature.predicates(), place))
}
