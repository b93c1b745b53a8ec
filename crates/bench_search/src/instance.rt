//! Clause lists that are hard to search, or long to list.

ghost use Rattle.std.specs.Prelude.{◌≡◌, ℕ, ◌<◌, ◌≤◌, ◌^◌};

use crate::draw::Draw;
use ec_clause::clauses::{Clauses, is_clause};
use ec_clause::lit::Lit;
use std::alloc::{AllocError, Global};

/// No list has more variables than this, and no more pigeons than its square root.
const VARIABLES: u32 = 10_000;

const PIGEONS: u32 = 100;

/// What is searched.
#[derive(Clone, Copy, Debug, PartialEq, Eq)]
pub enum Instance {
    /// This many pigeons, for one hole less.
    Pigeons(u32),
    /// Random clauses of three literals, 21 for each five variables, from a number.
    Random { variables: u32, seed: u32 },
    /// Variables without a clause.
    Free(u32),
}

impl Instance {
    /// The instance that the words name, if they do.
    pub fn read(words: &[String]) -> Option<Instance> {
        match words {
            [kind, size] if kind.as_str() == "pigeons" => Some(Instance::Pigeons(number(size)?)),
            [kind, size] if kind.as_str() == "free" => Some(Instance::Free(number(size)?)),
            [kind, size, seed] if kind.as_str() == "random" => Some(Instance::Random {
                variables: number(size)?,
                seed: number(seed)?,
            }),
            _ => None,
        }
    }

    /// How many models are looked for.
    pub fn models(self) -> u32 {
        match self {
            Instance::Pigeons(_) | Instance::Random { .. } => 1,
            Instance::Free(_) => 1000,
        }
    }

    /// The clauses, of no more variables than fit.
    pub fn clauses(self, alloc: Global) -> Result<Clauses, AllocError> {
        match self {
            Instance::Pigeons(count) => pigeons(alloc, count.min(PIGEONS)),
            Instance::Random { variables, seed } => random(alloc, variables.min(VARIABLES), seed),
            Instance::Free(variables) => Ok(Clauses::new(alloc, variables.min(VARIABLES))),
        }
    }
}

/// A number's digits, read.
fn number(word: &String) -> Option<u32> {
    word.as_str().parse::<u32>().ok()
}

/// Adds the literals where they are a clause, and leaves them out where not.
fn add(clauses: &mut Clauses, lits: &[Lit]) -> Result<(), AllocError>
    ensures { clauses.new.variables ≡ clauses.old.variables }
{
    if is_clause(clauses.variables(), lits) && clauses.len() < u32::MAX {
        clauses.push(lits)?;
    }
    Ok(())
}

/// That a pigeon sits in a hole, or not.
fn sits(holes: u32, pigeon: u32, hole: u32, positive: bool) -> Lit
    requires holes { holes < 100 }
    requires pigeon { pigeon < 100 }
    requires hole { hole < holes }
{
    Lit::new(holes * pigeon + hole + 1, positive)
}

/// Each pigeon sits in a hole, and no two in one.
fn pigeons(alloc: Global, count: u32) -> Result<Clauses, AllocError>
    requires { count ≤ 100 }
{
    let holes = count.saturating_sub(1);
    let mut clauses = Clauses::new(alloc, count * holes);
    for pigeon in 0..count {
        let mut lits = Vec::new(alloc);
        for hole in 0..holes {
            lits.push(sits(holes, pigeon, hole, true))?;
        }
        add(&mut clauses, &lits)?;
    }
    for hole in 0..holes {
        no_two(&mut clauses, holes, hole, count)?;
    }
    Ok(clauses)
}

/// No two pigeons sit in this hole.
fn no_two(clauses: &mut Clauses, holes: u32, hole: u32, count: u32) -> Result<(), AllocError>
    requires holes { holes < 100 }
    requires hole { hole < holes }
    requires count { count ≤ 100 }
{
    for pigeon in 0..count {
        for other in 0..pigeon {
            let lits = [
                sits(holes, pigeon, hole, false),
                sits(holes, other, hole, false),
            ];
            add(clauses, &lits)?;
        }
    }
    Ok(())
}

/// Random clauses of three literals; a draw that repeats a variable is left out and drawn again.
fn random(alloc: Global, variables: u32, seed: u32) -> Result<Clauses, AllocError>
    requires { variables ≤ 10000 }
{
    let mut clauses = Clauses::new(alloc, variables);
    if variables < 3 {
        return Ok(clauses);
    }
    let wanted = variables * 21 / 5;
    let mut draw = Draw::new(seed as u64);
    for _ in 0..10 * wanted {
        if clauses.len() >= wanted {
            break;
        }
        let lits = [
            literal(&mut draw, variables),
            literal(&mut draw, variables),
            literal(&mut draw, variables),
        ];
        add(&mut clauses, &lits)?;
    }
    Ok(clauses)
}

/// A random literal.
fn literal(draw: &mut Draw, variables: u32) -> Lit
    requires low { 1 ≤ variables }
    requires high { variables ≤ 10000 }
{
    let variable = draw.below(variables) + 1;
    Lit::new(variable, draw.below(2) == 1)
}
