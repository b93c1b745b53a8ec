//! The numbers of symbols applied to values, and the applications with given numbers.
ghost use Rattle.std.specs.Prelude.{◌≡◌, ◌<◌, ◌≤◌, ◌^◌, IfOk, is_some, true, false, leb, length, slice_get, Some};
ghost use Rattle.std.specs.List.Sorted.{IsNonDecreasingBy, IsPartitionPoint};
ghost use Rattle.ec_logic.specs.Universe.{before, row_of, tuple_rank};
ghost use Rattle.ec_theory.specs.Values.{numbers_of};
ghost use Rattle.ec_atom.specs.Blocks.{universe_in, argument_rows, rows_in, AreSound, AreBlocks, application, application_at as at_number, number_in};

use crate::blocks::{Argument, Blocks};
use crate::ground::GroundTerm;
use crate::table::Values;
use crate::tuples::{tuple_at, tuple_place};
use ec_theory::Value;
use std::alloc::{AllocError, Global};

fn row_at(blocks: &Blocks, symbol: usize) -> &[Argument]
    requires { symbol < length (rows_in blocks.now) }
    ensures { slice_get (argument_rows blocks.now) symbol ≡ Some result.now }
{
    blocks.rows[symbol].as_slice()
}

/// The number of a symbol applied to values. A multiplication for each value.
pub fn number_of(tables: &[Values], blocks: &Blocks, symbol: u32, args: &[Value]) -> u64
    requires tables { AreSound tables.now }
    requires blocks { AreBlocks (universe_in tables.now) blocks.now }
    requires known { symbol < length (rows_in blocks.now) }
    requires within { is_some (tuple_rank (universe_in tables.now) (row_of (rows_in blocks.now) symbol) (numbers_of args.now)) ≡ true }
    ensures number { number_in (universe_in tables.now) (rows_in blocks.now) symbol (numbers_of args.now) ≡ Some result }
    ensures below { result < before (universe_in tables.now) (rows_in blocks.now) (length (rows_in blocks.now)) }
{
    let row = row_at(blocks, symbol as usize);
    blocks.firsts[symbol as usize] + tuple_place(tables, row, args)
}

// How many of some rising numbers are at most a bound.
fn count_at_most(numbers: &[u64], bound: u64) -> usize
    requires { IsNonDecreasingBy (λ n. n) numbers.now }
    ensures count { IsPartitionPoint (λ n. leb n bound ≡ true) (λ n. leb n bound ≡ false) numbers.now result }
    ensures within { result ≤ length numbers.now }
{
    numbers.partition_point(|number| *number <= bound)
}

/// The application with a number. It takes the logarithm of the number of symbols to find the symbol.
pub fn application_at(
    alloc: Global,
    tables: &[Values],
    blocks: &Blocks,
    number: u64,
) -> Result<GroundTerm, AllocError>
    requires tables { AreSound tables.now }
    requires blocks { AreBlocks (universe_in tables.now) blocks.now }
    requires symbols { length (rows_in blocks.now) < 2 ^ 31 }
    requires within { number < before (universe_in tables.now) (rows_in blocks.now) (length (rows_in blocks.now)) }
    ensures application { IfOk result (λ term. application term ≡ at_number (universe_in tables.now) (rows_in blocks.now) number) }
    ensures number { IfOk result (λ term. number_in (universe_in tables.now) (rows_in blocks.now) term.symbol (numbers_of term.args.items) ≡ Some number) }
    ensures known { IfOk result (λ term. term.symbol < length (rows_in blocks.now)) }
{
    let symbol = count_at_most(&blocks.firsts, number) - 1;
    let row = row_at(blocks, symbol);
    let args = tuple_at(alloc, tables, row, number - blocks.firsts[symbol])?;
    Ok(GroundTerm {
        symbol: symbol as u32,
        args,
    })
}
