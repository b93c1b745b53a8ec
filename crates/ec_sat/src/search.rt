//! The loop of a search, from one answer to the next.

ghost use Rattle.std.specs.Prelude.{◌≡◌, ℕ, ◌+◌, ◌-◌, ◌^◌, ◌<◌, ◌≤◌, ◌++◌, ◌∷◌, [], length, MatchOption, IfOk, OnOk, OnErr};
ghost use Rattle.ec_clause.specs.ClauseList.{IsClause};
ghost use Rattle.ec_trail.specs.TrailList.{truth_of};
ghost use Rattle.ec_unit.specs.Settling.{IsFalseAt};
ghost use Rattle.ec_unit.specs.Watching.{Watches};
ghost use Rattle.ec_sat.specs.Reasons.{IsSearching};
ghost use Rattle.ec_clause.specs.Note.{Derived, Blocked};
ghost use Rattle.ec_clause.specs.Step.{AllHold};
ghost use Rattle.ec_sat.specs.Run.{IsResolved, Runs, count_of, value_in, blocked_clause};
ghost use Rattle.ec_sat.specs.Ready.{IsReady, IsKnown};

use crate::answer::Next;
use crate::known::Known;
use crate::learn::{Learned, learn};
use crate::level::{return_level, second_level};
use crate::order::Order;
use ec_clause::clauses::Clauses;
use ec_clause::lit::Lit;
use ec_clause::notes::Notes;
use ec_restarts::restarts::Restarts;
use ec_trail::trail::Trail;
use ec_unit::watch::{Settled, Watch};
use std::alloc::{AllocError, Global};

/// What a conflict gave.
#[derive(Clone, Copy, Debug, PartialEq, Eq)]
pub enum Conflict {
    /// A clause with a literal.
    Learned,
    /// The empty clause.
    Refuted,
}

/// The state of a search.
#[derive(Drop)]
pub struct Search {
    pub alloc: Global,
    pub clauses: Clauses,
    pub trail: Trail,
    pub watch: Watch,
    pub order: Order,
    pub restarts: Restarts,
    /// A scratch, one mark a variable.
    pub marks: Vec<bool>,
    pub known: Known,
    /// The number of derived clauses with a literal.
    pub derived: u64,
}

/// Settles and decides, until a clause is false or each variable has a value.
pub fn descend(
    clauses: &Clauses,
    trail: &mut Trail,
    watch: &mut Watch,
    order: &mut Order,
    known: &mut Known,
) -> Option<u32>
    requires searching { IsSearching clauses.now trail.old }
    requires watched { Watches clauses.now watch.old }
    requires order { order.old ≡ trail.old.variables }
    requires known { IsKnown clauses.now trail.old watch.old.seen known.old }
    ensures searching { IsSearching clauses.now trail.new }
    ensures watched { Watches clauses.now watch.new }
    ensures order { order.new ≡ order.old }
    ensures known { IsKnown clauses.now trail.new watch.new.seen known.new }
    ensures variables { trail.new.variables ≡ trail.old.variables }
    ensures cases { MatchOption result (AllHold (value_in (truth_of trail.new)) clauses.now) (IsFalseAt clauses.now (truth_of trail.new)) }
{
    let _clauses = clauses.len();
    loop {
        let settled = watch.settle_from(clauses, trail, known.front, known.short);
        *known = known.after(trail, settled);
        match settled {
            Settled::Conflict(number) => return Some(number),
            Settled::Quiet => {}
        }
        let _few = trail.len();
        match order.next(trail) {
            None => return None,
            Some(lit) => trail.decide(lit),
        }
        let _more = trail.len();
    }
}

/// Adds a clause to the list and to those that are watched over; a refusal adds none.
pub fn add(clauses: &mut Clauses, watch: &mut Watch, lits: &[Lit]) -> Result<(), AllocError>
    requires clause { IsClause clauses.old.variables lits.now }
    requires few { length clauses.old.clauses < 2 ^ 32 - 1 }
    requires watched { Watches clauses.old watch.old }
    ensures variables { clauses.new.variables ≡ clauses.old.variables }
    ensures ok { OnOk result (clauses.new.clauses ≡ clauses.old.clauses ++ lits.now ∷ []) }
    ensures watched { OnOk result (Watches clauses.new watch.new) }
    ensures seen { watch.new.seen ≡ watch.old.seen }
    ensures err { OnErr result (clauses.new.clauses ≡ clauses.old.clauses) }
{
    let kept = clauses.len();
    let number = clauses.push(lits)?;
    match watch.add(clauses, number) {
        Ok(()) => Ok(()),
        Err(error) => {
            clauses.truncate(kept);
            Err(error)
        }
    }
}

/// Adds a derived clause and notes it; a refusal adds and notes none.
fn note<N: Notes>(
    clauses: &mut Clauses,
    watch: &mut Watch,
    notes: &mut N,
    learned: &Learned,
) -> Result<(), AllocError>
    requires clause { IsClause clauses.old.variables learned.now.lits.items }
    requires few { length clauses.old.clauses < 2 ^ 32 - 1 }
    requires watched { Watches clauses.old watch.old }
    ensures variables { clauses.new.variables ≡ clauses.old.variables }
    ensures ok { OnOk result (clauses.new.clauses ≡ clauses.old.clauses ++ learned.now.lits.items ∷ []) }
    ensures watched { OnOk result (Watches clauses.new watch.new) }
    ensures seen { watch.new.seen ≡ watch.old.seen }
    ensures noted { OnOk result (N.notes notes.new ≡ N.notes notes.old ++ Derived learned.now.lits.items learned.now.hints.items ∷ []) }
    ensures err { OnErr result (clauses.new.clauses ≡ clauses.old.clauses) }
    ensures none { OnErr result (N.notes notes.new ≡ N.notes notes.old) }
    ensures numbers { N.numbers notes.new ≡ N.numbers notes.old }
{
    let kept = clauses.len();
    add(clauses, watch, &learned.lits)?;
    match notes.derived(&learned.lits, &learned.hints) {
        Ok(()) => Ok(()),
        Err(error) => {
            clauses.truncate(kept);
            Err(error)
        }
    }
}

/// Learns from the false clause of this number, and goes back to the assertion level, or to level 0.
pub fn resolve<N: Notes>(
    search: &mut Search,
    notes: &mut N,
    number: u32,
) -> Result<Conflict, AllocError>
    requires ready { IsReady search.old.clauses search.old.trail search.old.watch search.old.order search.old.marks.items search.old.known }
    requires conflict { IsFalseAt search.old.clauses (truth_of search.old.trail) number }
    requires few { length search.old.clauses.clauses < 2 ^ 32 - 1 }
    requires derived { search.old.derived < 2 ^ 32 }
    ensures ready { IfOk result (λ c. c ≡ Conflict.Learned → IsReady search.new.clauses search.new.trail search.new.watch search.new.order search.new.marks.items search.new.known) }
    ensures resolved { IfOk result (IsResolved search.old.clauses search.new.clauses (N.notes notes.old) (N.notes notes.new)) }
    ensures derived { IfOk result (λ c. search.new.derived ≡ search.old.derived + count_of c) }
    ensures err { OnErr result (search.new.clauses ≡ search.old.clauses) }
    ensures none { OnErr result (N.notes notes.new ≡ N.notes notes.old) }
    ensures same { OnErr result (search.new.derived ≡ search.old.derived) }
    ensures numbers { N.numbers notes.new ≡ N.numbers notes.old }
{
    let learned = learn(
        search.alloc,
        &search.clauses,
        &search.trail,
        &mut search.marks,
        number,
    )?;
    note(&mut search.clauses, &mut search.watch, notes, &learned)?;
    if learned.lits.is_empty() {
        return Ok(Conflict::Refuted);
    }
    search.derived += 1;
    let anew = search.restarts.count(learned.lits.len());
    let level = return_level(&search.trail, &learned.lits, anew);
    search
        .order
        .bump(&search.clauses, &learned.lits, &learned.hints);
    search.order.save(&search.trail, level);
    search.trail.back_to(level);
    search.known = search.known.added(&search.trail, learned.lits.len());
    Ok(Conflict::Learned)
}

/// Searches on until there is an answer.
pub fn run<N: Notes>(search: &mut Search, notes: &mut N, limit: u64) -> Next
    requires ready { IsReady search.old.clauses search.old.trail search.old.watch search.old.order search.old.marks.items search.old.known }
    requires more { search.old.derived < limit }
    requires limit { limit ≤ 2000000000 }
    requires few { length search.old.clauses.clauses + (limit - search.old.derived) < 2 ^ 32 - 1 }
    ensures ready { result ≡ Next.Model → IsReady search.new.clauses search.new.trail search.new.watch search.new.order search.new.marks.items search.new.known }
    ensures runs { Runs search.old.clauses search.new.clauses (N.notes notes.old) (N.notes notes.new) search.old.derived search.new.derived limit (truth_of search.new.trail) result }
    ensures numbers { N.numbers notes.new ≡ N.numbers notes.old }
{
    while search.derived < limit {
        match descend(
            &search.clauses,
            &mut search.trail,
            &mut search.watch,
            &mut search.order,
            &mut search.known,
        ) {
            None => return Next::Model,
            Some(number) => match resolve(search, notes, number) {
                Ok(Conflict::Learned) => {}
                Ok(Conflict::Refuted) => return Next::Exhausted,
                Err(_) => return Next::Memory,
            },
        }
    }
    Next::Conflicts
}

/// Forbids the values of the variables from 1 to `visible`: notes and adds the clause, and goes
/// back so far that it can be settled.
pub fn block<N: Notes>(search: &mut Search, notes: &mut N, visible: u32) -> Result<(), AllocError>
    requires ready { IsReady search.old.clauses search.old.trail search.old.watch search.old.order search.old.marks.items search.old.known }
    requires visible { visible ≤ search.old.trail.variables }
    requires few { length search.old.clauses.clauses < 2 ^ 32 - 1 }
    ensures ready { OnOk result (IsReady search.new.clauses search.new.trail search.new.watch search.new.order search.new.marks.items search.new.known) }
    ensures variables { search.new.clauses.variables ≡ search.old.clauses.variables }
    ensures ok { OnOk result (search.new.clauses.clauses ≡ search.old.clauses.clauses ++ blocked_clause visible (truth_of search.old.trail) ∷ []) }
    ensures noted { OnOk result (N.notes notes.new ≡ N.notes notes.old ++ Blocked (blocked_clause visible (truth_of search.old.trail)) ∷ []) }
    ensures derived { search.new.derived ≡ search.old.derived }
    ensures err { OnErr result (search.new.clauses.clauses ≡ search.old.clauses.clauses) }
    ensures none { OnErr result (N.notes notes.new ≡ N.notes notes.old) }
    ensures numbers { N.numbers notes.new ≡ N.numbers notes.old }
{
    let lits = forbid(search.alloc, &search.trail, visible)?;
    note_blocked(&mut search.clauses, &mut search.watch, notes, &lits)?;
    let level = second_level(&search.trail, &lits);
    search.order.save(&search.trail, level);
    search.trail.back_to(level);
    search.known = search.known.added(&search.trail, lits.len());
    Ok(())
}

/// Adds a blocked clause and notes it; a refusal adds and notes none.
fn note_blocked<N: Notes>(
    clauses: &mut Clauses,
    watch: &mut Watch,
    notes: &mut N,
    lits: &[Lit],
) -> Result<(), AllocError>
    requires clause { IsClause clauses.old.variables lits.now }
    requires few { length clauses.old.clauses < 2 ^ 32 - 1 }
    requires watched { Watches clauses.old watch.old }
    ensures variables { clauses.new.variables ≡ clauses.old.variables }
    ensures ok { OnOk result (clauses.new.clauses ≡ clauses.old.clauses ++ lits.now ∷ []) }
    ensures watched { OnOk result (Watches clauses.new watch.new) }
    ensures seen { watch.new.seen ≡ watch.old.seen }
    ensures noted { OnOk result (N.notes notes.new ≡ N.notes notes.old ++ Blocked lits.now ∷ []) }
    ensures err { OnErr result (clauses.new.clauses ≡ clauses.old.clauses) }
    ensures none { OnErr result (N.notes notes.new ≡ N.notes notes.old) }
    ensures numbers { N.numbers notes.new ≡ N.numbers notes.old }
{
    let kept = clauses.len();
    add(clauses, watch, lits)?;
    match notes.blocked(lits) {
        Ok(()) => Ok(()),
        Err(error) => {
            clauses.truncate(kept);
            Err(error)
        }
    }
}

/// The clause that forbids the values of the variables from 1 to `visible`.
fn forbid(alloc: Global, trail: &Trail, visible: u32) -> Result<Vec<Lit>, AllocError>
    requires { visible ≤ trail.now.variables }
    ensures { IfOk result (λ v. v.items ≡ blocked_clause visible (truth_of trail.now)) }
{
    let _few = trail.level();
    let mut lits = Vec::new(alloc);
    for place in 0..visible {
        let lit = Lit::new(place + 1, true);
        let value = trail.value(lit).unwrap_or(false);
        lits.push(Lit::new(place + 1, !value))?;
    }
    Ok(lits)
}
