//! What is kept between two calls that settle a trail.

ghost use Rattle.std.specs.Prelude.{◌≡◌, ℕ, ◌+◌, ◌-◌, ◌*◌, ◌^◌, ◌<◌, ◌≤◌, [], ◌∷◌, ◌++◌, List, None, Some, IfOk, IfSome, IfNone, OnOk, OnErr, length, replicate, vec_capacity, All};
ghost use Rattle.ec_clause.specs.Literal.{Literal};
ghost use Rattle.ec_clause.specs.ClauseList.{IsClause, clause_at};
ghost use Rattle.ec_trail.specs.TrailList.{truth_of};
ghost use Rattle.std.specs.Bool.{OnTrue};
ghost use Rattle.ec_unit.specs.Settling.{AddsImplied, IsFalseAt, ShortHoldAtZero};
ghost use Rattle.ec_unit.specs.Chained.{no_chain, no_cell};
ghost use Rattle.ec_unit.specs.Leaning.{Follows, Grows, HasTrue};
ghost use Rattle.ec_unit.specs.Working.{AreChained, IsWorking, ShortHold, cells_of, first_two_of, short_of};

use crate::chains::{Cell, Chain, Chains};
use crate::seen::{Seen, imply, latest, lean};
use ec_clause::clauses::Clauses;
use ec_clause::lit::Lit;
use ec_clause::look::{Look, look_at};
use ec_trail::trail::Trail;
use std::alloc::{AllocError, Global};

/// The watches of clauses, and how far a trail was worked with them.
#[derive(Drop)]
pub struct Table {
    pub variables: u32,
    pub chains: Chains,
    /// The numbers of the clauses of fewer than two literals.
    pub short: Vec<u32>,
    /// The clauses up to this number have their watches in chains.
    pub chained: u32,
    /// The trail as it was seen last.
    pub seen: Vec<Seen>,
    /// How many of its literals were worked.
    pub worked: u32,
}

/// No clause is watched over.
pub fn empty(alloc: Global, variables: u32) -> Result<Table, AllocError>
    requires { variables < 2 ^ 31 }
    ensures variables { IfOk result (λ t. t.variables ≡ variables) }
    ensures chains { IfOk result (λ t. t.chains.chains.items ≡ replicate (2 * variables + 2) no_chain) }
    ensures cells { IfOk result (λ t. t.chains.cells.items ≡ []) }
    ensures short { IfOk result (λ t. t.short.items ≡ []) }
    ensures chained { IfOk result (λ t. t.chained ≡ 0) }
    ensures seen { IfOk result (λ t. t.seen.items ≡ []) }
    ensures room { IfOk result (λ t. variables ≤ vec_capacity t.seen) }
    ensures worked { IfOk result (λ t. t.worked ≡ 0) }
{
    let none = Chain { head: 0, len: 0 };
    let chains = Chains {
        chains: vec![in alloc; none; 2 * variables as usize + 2]?,
        cells: Vec::new(alloc),
        starts: Vec::new(alloc),
    };
    Ok(Table {
        variables,
        chains,
        short: Vec::new(alloc),
        chained: 0,
        seen: Vec::with_capacity(alloc, variables as usize)?,
        worked: 0,
    })
}

/// The first two literals of a clause, if it has two.
fn first_two(clause: &[Lit]) -> (Option<Lit>, Option<Lit>)
    ensures { result ≡ first_two_of clause.now }
{
    match clause {
        [first, second, ..] => (Some(*first), Some(*second)),
        _ => (None, None),
    }
}

/// Watches the first two literals of the clause of the next number, in no chain yet.
pub fn add(
    cells: &mut Vec<Cell>,
    starts: &mut Vec<u32>,
    short: &mut Vec<u32>,
    clause: &[Lit],
    number: u32,
) -> Result<(), AllocError>
    ensures cells { OnOk result (cells.new.items ≡ cells.old.items ++ cells_of clause.now) }
    ensures short { OnOk result (short.new.items ≡ short.old.items ++ short_of clause.now number) }
    ensures cells_err { OnErr result (cells.new.items ≡ cells.old.items) }
    ensures short_err { OnErr result (short.new.items ≡ short.old.items) }
{
    cells.reserve(2)?;
    starts.reserve(1)?;
    short.reserve(1)?;
    starts.push_reserved(0);
    let (first, second) = first_two(clause);
    if first.is_none() {
        short.push_reserved(number);
    }
    cells.push_reserved(Cell {
        lit: first,
        next: 0,
    });
    cells.push_reserved(Cell {
        lit: second,
        next: 0,
    });
    Ok(())
}

/// Looks at a clause by itself.
pub fn examine(
    seen: &mut Vec<Seen>,
    clauses: &Clauses,
    trail: &mut Trail,
    number: u32,
) -> Option<u32>
    requires low { 1 ≤ number }
    requires high { number ≤ length clauses.now.clauses }
    requires list { clauses.now.variables ≡ trail.old.variables }
    requires room { trail.old.variables ≤ vec_capacity seen.old }
    requires follows { Follows seen.old.items trail.old.entries }
    ensures adds { AddsImplied clauses.now trail.old trail.new }
    ensures room { vec_capacity seen.new ≡ vec_capacity seen.old }
    ensures follows { Follows seen.new.items trail.new.entries }
    ensures grows { Grows seen.old.items seen.new.items }
    ensures some { IfSome result (IsFalseAt clauses.now (truth_of trail.new)) }
    ensures none { IfNone result (length (clause_at clauses.now number) < 2 → HasTrue seen.new.items (clause_at clauses.now number)) }
{
    match look_at(clauses.get(number), trail.values()) {
        Look::False => Some(number),
        Look::OneLeft(lit) => {
            imply(seen, trail, lit, number, u32::MAX);
            None
        }
        Look::Other => None,
    }
}

/// Looks at the clauses of fewer than two literals, unless it is known that they hold at level 0.
pub fn examine_short(
    seen: &mut Vec<Seen>,
    short: &[u32],
    clauses: &Clauses,
    trail: &mut Trail,
    held: bool,
) -> Option<u32>
    requires held { OnTrue held (ShortHoldAtZero clauses.now trail.old.entries) }
    requires short { All (λ number. (1 ≤ number) × (number ≤ length clauses.now.clauses)) short.now }
    requires list { clauses.now.variables ≡ trail.old.variables }
    requires room { trail.old.variables ≤ vec_capacity seen.old }
    requires follows { Follows seen.old.items trail.old.entries }
    ensures adds { AddsImplied clauses.now trail.old trail.new }
    ensures room { vec_capacity seen.new ≡ vec_capacity seen.old }
    ensures follows { Follows seen.new.items trail.new.entries }
    ensures grows { Grows seen.old.items seen.new.items }
    ensures some { IfSome result (IsFalseAt clauses.now (truth_of trail.new)) }
    ensures none { IfNone result (ShortHold clauses.now seen.new.items short.now) }
{
    if held {
        return None;
    }
    for number in short {
        if let Some(number) = examine(seen, clauses, trail, *number) {
            return Some(number);
        }
    }
    None
}

/// Puts the watches of one clause more into chains, onto the literals that became false last.
pub fn enchain(table: &mut Table, clauses: &Clauses, trail: &Trail)
    requires working { IsWorking clauses.now table.old trail.now }
    requires chained { AreChained table.old }
    requires more { table.old.chained < length clauses.now.clauses }
    ensures working { IsWorking clauses.now table.new trail.now }
    ensures chained { AreChained table.new }
    ensures more { table.new.chained ≡ table.old.chained + 1 }
    ensures short { table.new.short.items ≡ table.old.short.items }
    ensures grows { Grows table.old.seen.items table.new.seen.items }
{
    prove!(table.chained < clauses.len());
    let number = table.chained + 1;
    let clause = clauses.get(number);
    if clause.len() < 2 {
        table.chained = number;
        return;
    }
    let (first, second) = latest(clause, trail);
    let first = clause[first];
    let second = clause[second];
    let place = 2 * table.chained as usize;
    table.chains.attach(place, first);
    table.chains.attach(place + 1, second);
    let worked = lean(&mut table.seen, trail, table.worked, first, second);
    table.worked = lean(&mut table.seen, trail, worked, second, first);
    table.chained = number;
}

/// Looks at the clauses that are in no chain yet, and puts them into chains.
pub fn take_up(table: &mut Table, clauses: &Clauses, trail: &mut Trail) -> Option<u32>
    requires working { IsWorking clauses.now table.old trail.old }
    requires chained { AreChained table.old }
    ensures working { IsWorking clauses.now table.new trail.new }
    ensures chained { AreChained table.new }
    ensures short { table.new.short.items ≡ table.old.short.items }
    ensures grows { Grows table.old.seen.items table.new.seen.items }
    ensures adds { AddsImplied clauses.now trail.old trail.new }
    ensures some { IfSome result (IsFalseAt clauses.now (truth_of trail.new)) }
    ensures none { IfNone result (table.new.chained ≡ length clauses.now.clauses) }
{
    while table.chained < clauses.len() {
        let number = table.chained + 1;
        if let Some(number) = examine(&mut table.seen, clauses, trail, number) {
            return Some(number);
        }
        enchain(table, clauses, trail);
    }
    None
}
