//! Settling a trail by two watched literals in each clause.

ghost use Rattle.std.specs.Prelude.{◌≡◌, ℕ, ◌+◌, ◌-◌, ◌*◌, ◌<◌, ◌≤◌, length, MatchOption, IfOk, IfSome, IfNone, OnOk, OnErr, Some, None, All};
ghost use Rattle.ec_clause.specs.ClauseList.{ClauseList, clause_at};
ghost use Rattle.ec_trail.specs.TrailList.{truth_of};
ghost use Rattle.std.specs.Bool.{OnTrue};
ghost use Rattle.ec_unit.specs.Settling.{AddsImplied, AllQuiet, IsFalseAt, ShortHoldAtZero};
ghost use Rattle.ec_unit.specs.Leaning.{Grows};
ghost use Rattle.ec_unit.specs.Working.{AreChained, IsWorking, ShortHold, AllSafe, watched_of};

use crate::seen::{agreeing, forget, see};
use crate::table::{Table, add, empty, examine_short, take_up};
use crate::visit::visit;
use ec_clause::clauses::Clauses;
use ec_clause::lit::Lit;
use ec_trail::trail::Trail;
use std::alloc::{AllocError, Global};
use std::marker::Model;

/// How settling ended.
#[derive(Clone, Copy, Debug, PartialEq, Eq)]
pub enum Settled {
    /// No clause is false or unit.
    Quiet,
    /// The clause of this number is false.
    Conflict(u32),
}

/// What is kept of the clauses that are watched over: two watched literals for each, in chains, and
/// how far the trail was worked that was settled last.
#[derive(Drop)]
pub struct Watch {
    table: Table,
}

impl Model for Watch {
    ghost use Rattle.ec_unit.specs.Watching.{Watched};
    ghost use Rattle.ec_unit.specs.Working.{IsTable, watched_of};

    ghost Value = { Watched };

    ghost view = { λ a. watched_of a.table };

    ghost invariant = { λ a. IsTable a.table };
}

impl Watch {
    ghost use Rattle.ec_unit.specs.Settling.{Settles};
    ghost use Rattle.ec_unit.specs.Watching.{Watched, Watches, WatchesUpTo, IsWatched, AreSafe, Agrees, watched_at};

    /// Watches over all clauses of the list. It takes 36 bytes a clause and 40 a variable.
    pub fn new(alloc: Global, clauses: &Clauses) -> Result<Watch, AllocError>
        ensures { IfOk result (Watches clauses.now) }
    {
        let mut table = empty(alloc, clauses.variables())?;
        for index in 0..clauses.len() {
            let number = index + 1;
            add(
                &mut table.chains.cells,
                &mut table.chains.starts,
                &mut table.short,
                clauses.get(number),
                number,
            )?;
        }
        Ok(Watch { table })
    }

    /// Watches over one clause more, that of the next number.
    pub fn add(&mut self, clauses: &Clauses, number: u32) -> Result<(), AllocError>
        requires low { 1 ≤ number }
        requires there { number ≤ length clauses.now.clauses }
        requires next { WatchesUpTo clauses.now (number - 1) self.old }
        ensures ok { OnOk result (WatchesUpTo clauses.now number self.new) }
        ensures err { OnErr result (self.new ≡ self.old) }
        ensures seen { self.new.seen ≡ self.old.seen }
    {
        let clause = clauses.get(number);
        add(
            &mut self.table.chains.cells,
            &mut self.table.chains.starts,
            &mut self.table.short,
            clause,
            number,
        )?;
        Ok(())
    }

    /// The two watched literals of a clause; none in a clause of fewer than two.
    pub fn watched(&self, number: u32) -> Option<(Lit, Lit)>
        requires low { 1 ≤ number }
        requires high { 2 * number ≤ length self.now.watches }
        ensures value { result ≡ watched_at self.now number }
        ensures literals { (c : ClauseList) → Watches c self.now → IsWatched (clause_at c number) result }
    {
        let place = 2 * (number as usize - 1);
        match self.table.chains.cells[place].lit {
            None => None,
            Some(first) => match self.table.chains.cells[place + 1].lit {
                None => None,
                Some(second) => Some((first, second)),
            },
        }
    }

    /// Adds implied literals to the trail's level until a clause is false, or none is false or
    /// unit. `clauses` is the list that is watched over. It takes no memory. Beside a comparison of
    /// the trail with the one before it looks only at clauses of which a watched literal became
    /// false, at those of fewer than two literals, and at those added since the last call.
    pub fn settle(&mut self, clauses: &Clauses, trail: &mut Trail) -> Settled
        requires watched { Watches clauses.now self.old }
        requires variables { clauses.now.variables ≡ trail.old.variables }
        ensures watched { Watches clauses.now self.new }
        ensures adds { AddsImplied clauses.now trail.old trail.new }
        ensures settles { Settles clauses.now (truth_of trail.new) result }
        ensures safe { AreSafe self.new (length clauses.now.clauses) (truth_of trail.new) result }
    {
        let front = agreeing(&self.table.seen, trail);
        self.settle_from(clauses, trail, front, false)
    }

    /// Settles a trail whose first `front` literals are those that were seen when it was settled
    /// last, without a comparison. Where `held` says that each clause of fewer than two literals
    /// holds at level 0, none of them is looked at.
    pub fn settle_from(
        &mut self,
        clauses: &Clauses,
        trail: &mut Trail,
        front: u32,
        held: bool,
    ) -> Settled
        requires watched { Watches clauses.now self.old }
        requires variables { clauses.now.variables ≡ trail.old.variables }
        requires front { Agrees self.old.seen trail.old.entries front }
        requires held { OnTrue held (ShortHoldAtZero clauses.now trail.old.entries) }
        ensures watched { Watches clauses.now self.new }
        ensures adds { AddsImplied clauses.now trail.old trail.new }
        ensures settles { Settles clauses.now (truth_of trail.new) result }
        ensures safe { AreSafe self.new (length clauses.now.clauses) (truth_of trail.new) result }
        ensures seen { Agrees self.new.seen trail.new.entries (length trail.new.entries) }
    {
        let table = &mut self.table;
        table.worked = forget(&mut table.seen, table.worked, front);
        see(&mut table.seen, front, trail);
        match work(table, clauses, trail, held) {
            None => Settled::Quiet,
            Some(number) => Settled::Conflict(number),
        }
    }
}

/// Works what is left of the trail, until a clause is false or all is worked.
fn work(table: &mut Table, clauses: &Clauses, trail: &mut Trail, held: bool) -> Option<u32>
    requires held { OnTrue held (ShortHoldAtZero clauses.now trail.old.entries) }
    requires working { IsWorking clauses.now table.old trail.old }
    requires chained { AreChained table.old }
    ensures working { IsWorking clauses.now table.new trail.new }
    ensures chained { AreChained table.new }
    ensures adds { AddsImplied clauses.now trail.old trail.new }
    ensures some { IfSome result (IsFalseAt clauses.now (truth_of trail.new)) }
    ensures quiet { IfNone result (AllQuiet clauses.now (truth_of trail.new)) }
    ensures safe { IfNone result (AllSafe clauses.now table.new trail.new) }
{
    if let Some(number) = examine_short(&mut table.seen, &table.short, clauses, trail, held) {
        return Some(number);
    }
    if let Some(number) = take_up(table, clauses, trail) {
        return Some(number);
    }
    while table.worked < trail.len() {
        let lit = trail.at(table.worked).opposite();
        if let Some(number) = visit(table, clauses, trail, lit) {
            return Some(number);
        }
        table.worked += 1;
    }
    None
}
