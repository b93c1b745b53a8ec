//! The truth of single atoms.
ghost use Rattle.std.specs.Prelude.{◌≡◌, ◌<◌, false, true, length, slice_get, unwrap_or};
ghost use Rattle.ec_logic.specs.Atom.{structure_of};
ghost use Rattle.ec_logic.specs.Universe.{row_of, universe_of};
ghost use Rattle.ec_theory.specs.Values.{numbers_of};
ghost use Rattle.ec_atom.specs.Ground.{are_within};

use ec_atom::Atoms;
use ec_row::Row;
use ec_theory::Value;

/// Whether an atom is true, where the truths of the first atoms are given and no other is true.
pub fn is_true(atoms: &Atoms, truth: &Row, predicate: u32, args: &[Value]) -> bool
    requires known { predicate < length atoms.now.predicates }
    requires within { are_within (universe_of atoms.now) (row_of (universe_of atoms.now).predicates predicate) args.now ≡ true }
    ensures { result ≡ structure_of (universe_of atoms.now) truth.now predicate (numbers_of args.now) }
{
    bit_at(truth, atoms.index_of(predicate, args))
}

/// The truth value at a place, or false behind the last.
pub fn bit_at(truth: &Row, index: u64) -> bool
    ensures { result ≡ unwrap_or (slice_get truth.now index) false }
{
    if index >= truth.len() as u64 {
        return false;
    }
    truth.get(index as usize)
}
