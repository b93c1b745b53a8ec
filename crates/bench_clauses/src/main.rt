//! Times the clause list of a large grounded theory: so many sentences of 16 nodes and four clauses each.
//!
//! It takes the number of sentences, at most 1,000,000, and puts the number of clauses.
#![tactic(auto)]

ghost use Rattle.std.specs.Prelude.{◌≤◌, IfOk};

mod theory;

use crate::theory::theory;
use ec_encode::encode;
use std::rt::Env;
use std::{env, io};

/// No more sentences are made than this.
const MOST: u32 = 1_000_000;

/// The number that is the last word, at most so many, or 0.
fn count<R: Env + AllocGlobal>(rt: &R) -> io::Result<u32>
    ensures { IfOk result (λ count. count ≤ 1000000) }
{
    let mut count = 0;
    for word in env::args(rt)?.skip(1) {
        count = word.as_str().parse::<u32>().unwrap_or(0);
    }
    Ok(count.min(MOST))
}

fn main(rt: HostRuntime) -> io::Result<()> {
    let alloc = rt.alloc();
    let count = count(&rt)?;
    let grounded = theory(alloc, count)?;
    let cnf = encode(alloc, &grounded, 3)?;
    let clauses = cnf.clauses.len();
    println!(rt; "{clauses} clauses")
}
