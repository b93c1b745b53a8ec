//! A solver: the search, and the calls that drive it.

ghost use Rattle.std.specs.Prelude.{◌≡◌, ℕ, ◌^◌, ◌<◌, ◌≤◌, length, IfOk, OnOk, OnErr};
ghost use Rattle.ec_sat.specs.Run.{value_in};

use crate::answer::{Next, Phase};
use crate::known::Known;
use crate::order::Order;
use crate::search::{Search, block, run};
use ec_clause::clauses::Clauses;
use ec_clause::lit::Lit;
use ec_clause::notes::Notes;
use ec_restarts::restarts::Restarts;
use ec_trail::trail::Trail;
use ec_unit::watch::Watch;
use std::alloc::{AllocError, Global};
use std::marker::Model;

/// A search over a list of clauses. The variables from 1 to a number are visible: two models that
/// agree on them count as one.
#[derive(Drop)]
pub struct Solver {
    phase: Phase,
    visible: u32,
    blocked: u32,
    search: Search,
}

impl Model for Solver {
    ghost use Rattle.ec_trail.specs.TrailList.{truth_of};
    ghost use Rattle.ec_sat.specs.Searched.{Searched, IsGoing, AreFew};

    ghost Value = { Searched };

    ghost view = { λ a. record { phase = a.phase; visible = a.visible; list = a.search.clauses; blocked = a.blocked; derived = a.search.derived; assignment = truth_of a.search.trail } };

    ghost invariant = { λ a. AreFew a.visible a.blocked a.search.derived a.search.clauses × IsGoing a.phase a.blocked a.search.derived a.search.clauses a.search.trail a.search.watch a.search.order a.search.marks.items a.search.known };
}

impl Solver {
    ghost use Rattle.ec_sat.specs.Searched.{Searches, Blocks, BlocksNone};

    /// A solver of these clauses. It takes memory linear in the number of variables.
    pub fn new(alloc: Global, clauses: Clauses, visible: u32) -> Result<Solver, AllocError>
        requires variables { clauses.variables ≤ 2 ^ 30 }
        requires clauses { length clauses.clauses ≤ 2 ^ 30 }
        requires visible { visible ≤ clauses.variables }
        ensures phase { IfOk result (λ s. s.phase ≡ Phase.Ready) }
        ensures visible { IfOk result (λ s. s.visible ≡ visible) }
        ensures list { IfOk result (λ s. s.list ≡ clauses) }
        ensures blocked { IfOk result (λ s. s.blocked ≡ 0) }
        ensures derived { IfOk result (λ s. s.derived ≡ 0) }
    {
        let variables = clauses.variables();
        let trail = Trail::new(alloc, variables)?;
        let watch = Watch::new(alloc, &clauses)?;
        let order = Order::new(alloc, variables)?;
        let marks = vec![in alloc; false; variables as usize + 1]?;
        Ok(Solver {
            phase: Phase::Ready,
            visible,
            blocked: 0,
            search: Search {
                alloc,
                clauses,
                trail,
                watch,
                order,
                restarts: Restarts::new(),
                marks,
                known: Known::nothing(),
                derived: 0,
            },
        })
    }

    /// Where the solver stands.
    pub fn phase(&self) -> Phase
        ensures { result ≡ self.now.phase }
    {
        self.phase
    }

    /// The number of clauses derived so far that have a literal.
    pub fn derived(&self) -> u64
        ensures { result ≡ self.now.derived }
    {
        self.search.derived
    }

    /// The number of models blocked so far.
    pub fn blocked(&self) -> u32
        ensures { result ≡ self.now.blocked }
    {
        self.blocked
    }

    /// The variable's value in the model that was found.
    pub fn truth(&self, variable: u32) -> bool
        requires found { self.now.phase ≡ Phase.Found }
        requires low { 1 ≤ variable }
        requires high { variable ≤ self.now.visible }
        ensures { result ≡ value_in self.now.assignment variable }
    {
        self.search
            .trail
            .value(Lit::new(variable, true))
            .unwrap_or(false)
    }

    /// Searches until there is a model, until there is none, or until `limit` clauses with a
    /// literal were derived over the solver's life. It notes each clause that it derives.
    pub fn next<N: Notes>(&mut self, notes: &mut N, limit: u64) -> Next
        requires ready { self.old.phase ≡ Phase.Ready }
        requires more { self.old.derived < limit }
        requires limit { limit ≤ 2000000000 }
        ensures searches { Searches self.old self.new (N.notes notes.old) (N.notes notes.new) limit result }
        ensures numbers { N.numbers notes.new ≡ N.numbers notes.old }
    {
        let answer = run(&mut self.search, notes, limit);
        self.phase = answer.phase();
        answer
    }

    /// Forbids the model that was found, by a clause over the visible variables in their order.
    pub fn block<N: Notes>(&mut self, notes: &mut N) -> Result<(), AllocError>
        requires found { self.old.phase ≡ Phase.Found }
        requires few { self.old.blocked < 2 ^ 20 }
        ensures ok { OnOk result (Blocks self.old self.new (N.notes notes.old) (N.notes notes.new)) }
        ensures err { OnErr result (BlocksNone self.old self.new (N.notes notes.old) (N.notes notes.new)) }
        ensures numbers { N.numbers notes.new ≡ N.numbers notes.old }
    {
        self.phase = Phase::Ended;
        block(&mut self.search, notes, self.visible)?;
        self.blocked += 1;
        self.phase = Phase::Ready;
        Ok(())
    }
}
