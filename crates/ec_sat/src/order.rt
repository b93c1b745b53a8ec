//! Which literal is decided next. A search is right whatever is answered here.

ghost use Rattle.std.specs.Prelude.{◌≡◌, ℕ, ◌+◌, ◌^◌, ◌<◌, ◌≤◌, length, All, IfOk, MatchOption};
ghost use Rattle.ec_sat.specs.Full.{IsFull, IsFree, IsOpen};
ghost use Rattle.ec_clause.specs.Literal.{Literal};

use crate::heap::Heap;
use ec_clause::clauses::Clauses;
use ec_clause::lit::Lit;
use ec_trail::trail::Trail;
use std::alloc::{AllocError, Global};
use std::marker::Model;

/// An order of the variables from 1 to its value: the most active first, each with its last value.
#[derive(Drop)]
pub struct Order {
    heap: Heap,
    saved: Vec<bool>,
}

impl Model for Order {
    ghost use Rattle.std.specs.Prelude.{◌≡◌, ℕ, ◌+◌, ◌^◌, ◌<◌, length};

    ghost Value = { ℕ };

    ghost view = { λ a. a.heap };

    ghost invariant = { λ a. (a.heap < 2 ^ 31) × (length a.saved.items ≡ a.heap + 1) };
}

impl Order {
    /// All variables alike, and all values false.
    pub fn new(alloc: Global, variables: u32) -> Result<Order, AllocError>
        requires { variables < 2 ^ 31 }
        ensures { IfOk result (λ o. o ≡ variables) }
    {
        let mut heap = Heap::new(alloc, variables)?;
        for place in 0..variables {
            heap.insert(place + 1);
        }
        Ok(Order {
            heap,
            saved: vec![in alloc; false; variables as usize + 1]?,
        })
    }

    /// A variable without a value, under its last value; none where each has one.
    pub fn next(&mut self, trail: &Trail) -> Option<Lit>
        requires { self.old ≡ trail.now.variables }
        ensures variables { self.new ≡ self.old }
        ensures picks { MatchOption result (IsFull trail.now) (IsOpen trail.now) }
    {
        match first_free(&mut self.heap, trail) {
            None => None,
            Some(variable) => Some(Lit::new(variable, self.saved[variable as usize])),
        }
    }

    /// Keeps the values above a level of the trail as the last ones, and brings their variables
    /// back into the order.
    pub fn save(&mut self, trail: &Trail, level: u32)
        requires { self.old ≡ trail.now.variables }
        ensures { self.new ≡ self.old }
    {
        let _trail = trail.values();
        let mut count = trail.len();
        while count > 0 {
            count -= 1;
            let entry = trail.entry(count);
            if entry.level <= level {
                return;
            }
            self.saved[entry.lit.variable() as usize] = entry.lit.positive();
            self.heap.insert(entry.lit.variable());
        }
    }

    /// Makes the variables of a derived clause more active, and those of the clauses that it
    /// follows from: a variable counts once for each clause that it is in.
    pub fn bump(&mut self, clauses: &Clauses, lits: &[Lit], hints: &[u32])
        requires variables { self.old ≡ clauses.now.variables }
        requires lits { All (λ (l : Literal). l.variable ≤ self.old) lits.now }
        ensures { self.new ≡ self.old }
    {
        self.bump_each(lits);
        for hint in hints {
            if 1 <= *hint && *hint <= clauses.len() {
                self.bump_each(clauses.get(*hint));
            }
        }
        self.heap.decay();
    }

    fn bump_each(&mut self, lits: &[Lit])
        requires { All (λ (l : Literal). l.variable ≤ self.old) lits.now }
        ensures { self.new ≡ self.old }
    {
        for lit in lits {
            self.heap.bump(lit.variable());
        }
    }
}

/// The most active variable without a value. The heap has all of them as long as each that loses
/// its value is brought back; the look at all variables makes the answer right whatever it has.
fn first_free(heap: &mut Heap, trail: &Trail) -> Option<u32>
    requires { heap.old ≡ trail.now.variables }
    ensures variables { heap.new ≡ heap.old }
    ensures picks { MatchOption result (IsFull trail.now) (IsFree trail.now) }
{
    for _ in 0..trail.variables() {
        let Some(variable) = heap.pop() else {
            break;
        };
        if trail.level_of(variable).is_none() {
            return Some(variable);
        }
    }
    for place in 0..trail.variables() {
        if trail.level_of(place + 1).is_none() {
            return Some(place + 1);
        }
    }
    None
}
