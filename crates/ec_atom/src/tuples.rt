//! The places of tuples, and the tuples at places.
ghost use Rattle.std.specs.Prelude.{◌≡◌, ◌<◌, ◌^◌, IfOk, is_some, true};
ghost use Rattle.ec_logic.specs.Extent.{rank, size_of, value_at as at_place};
ghost use Rattle.ec_logic.specs.Universe.{extent_at, tuples, tuple_at as at_place_of_tuples, tuple_rank};
ghost use Rattle.ec_theory.specs.Values.{numbers_of};
ghost use Rattle.ec_atom.specs.Blocks.{universe_in, sorts_of, AreSound, IsRow};

use crate::blocks::Argument;
use crate::table::{Values, place_of, value_at};
use ec_theory::Value;
use std::alloc::{AllocError, Global};

fn place_in(tables: &[Values], sort: u32, value: Value) -> u64
    requires tables { AreSound tables.now }
    requires within { is_some (rank (extent_at (universe_in tables.now) sort) value.0) ≡ true }
    ensures { rank (extent_at (universe_in tables.now) sort) value.0 ≡ Some result }
{
    place_of(&tables[sort as usize], value.0)
}

fn value_in(tables: &[Values], sort: u32, place: u64) -> Value
    requires tables { AreSound tables.now }
    requires within { place < size_of (extent_at (universe_in tables.now) sort) }
    ensures { result.0 ≡ at_place (extent_at (universe_in tables.now) sort) place }
{
    Value(value_at(&tables[sort as usize], place))
}

/// The place of a tuple among all of its sorts. A multiplication for each argument.
pub fn tuple_place(tables: &[Values], row: &[Argument], args: &[Value]) -> u64
    requires tables { AreSound tables.now }
    requires row { IsRow (universe_in tables.now) row.now }
    requires few { tuples (universe_in tables.now) (sorts_of row.now) < 2 ^ 62 }
    requires within { is_some (tuple_rank (universe_in tables.now) (sorts_of row.now) (numbers_of args.now)) ≡ true }
    ensures { tuple_rank (universe_in tables.now) (sorts_of row.now) (numbers_of args.now) ≡ Some result }
{
    let mut place = 0;
    for (i, argument) in row.iter().enumerate() {
        place += place_in(tables, argument.sort, args[i]) * argument.stride;
    }
    place
}

/// The tuple at a place among all of its sorts.
pub fn tuple_at(
    alloc: Global,
    tables: &[Values],
    row: &[Argument],
    place: u64,
) -> Result<Vec<Value>, AllocError>
    requires tables { AreSound tables.now }
    requires row { IsRow (universe_in tables.now) row.now }
    requires few { tuples (universe_in tables.now) (sorts_of row.now) < 2 ^ 62 }
    requires within { place < tuples (universe_in tables.now) (sorts_of row.now) }
    ensures { IfOk result (λ args. numbers_of args.items ≡ at_place_of_tuples (universe_in tables.now) (sorts_of row.now) place) }
{
    let mut args = Vec::with_capacity(alloc, row.len())?;
    let mut rest = place;
    for argument in row {
        args.push(value_in(tables, argument.sort, rest / argument.stride))?;
        rest %= argument.stride;
    }
    Ok(args)
}
