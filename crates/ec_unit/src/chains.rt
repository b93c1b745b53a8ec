//! Watches in chains: one chain for each literal, all in flat memory.

ghost use Rattle.std.specs.Prelude.{◌≡◌, ℕ, ◌+◌, ◌-◌, ◌*◌, ◌^◌, ◌<◌, ◌≤◌, Some, IfSome, length, slice_set};
ghost use Rattle.ec_unit.specs.Chained.{Unlinks, index_of, chain_at};

use ec_clause::lit::Lit;

/// The watches of one literal: the first of them, and how many there are.
#[derive(Clone, Copy)]
pub struct Chain {
    pub head: usize,
    pub len: usize,
}

/// One of a clause's two watches: the literal that is watched, none in a clause of fewer than two,
/// and the next watch in that literal's chain.
#[derive(Clone, Copy)]
pub struct Cell {
    pub lit: Option<Lit>,
    pub next: usize,
}

/// A chain for each literal, and two watches for each clause.
#[derive(Drop)]
pub struct Chains {
    pub chains: Vec<Chain>,
    pub cells: Vec<Cell>,
    /// Where in each clause the look for a literal to watch begins: where the last one was found.
    /// It saves time in long clauses, and nothing rests on it.
    pub starts: Vec<u32>,
}

/// Where the chain of a literal stands.
pub fn index(lit: Lit) -> usize
    ensures { result ≡ index_of lit }
{
    let sign = if lit.positive() { 1 } else { 0 };
    2 * lit.variable() as usize + sign
}

impl Chains {
    /// Takes the watch at a place out of the literal's chain. `last` is the watch before it there,
    /// if there is one.
    pub fn unlink(&mut self, lit: Lit, last: Option<usize>, place: usize)
        requires index { index_of lit < length self.old.chains.items }
        requires place { place < length self.old.cells.items }
        requires last { IfSome last (λ i. i < length self.old.cells.items) }
        requires some { 0 < (chain_at self.old.chains.items lit).len }
        ensures { Unlinks last self.old.chains.items self.old.cells.items lit place self.new.chains.items self.new.cells.items }
    {
        let next = self.cells[place].next;
        let index = index(lit);
        let chain = self.chains[index];
        let len = chain.len - 1;
        match last {
            None => self.chains[index] = Chain { head: next, len },
            Some(last) => {
                self.cells[last].next = next;
                self.chains[index] = Chain {
                    head: chain.head,
                    len,
                };
            }
        }
    }

    /// Puts the watch at a place onto the literal, at the front of its chain.
    pub fn attach(&mut self, place: usize, lit: Lit)
        requires index { index_of lit < length self.old.chains.items }
        requires place { place < length self.old.cells.items }
        requires few { (chain_at self.old.chains.items lit).len < 2 ^ 63 }
        ensures chains { self.new.chains.items ≡ slice_set self.old.chains.items (index_of lit) (record { head = place; len = (chain_at self.old.chains.items lit).len + 1 }) }
        ensures cells { self.new.cells.items ≡ slice_set self.old.cells.items place (record { lit = Some lit; next = (chain_at self.old.chains.items lit).head }) }
    {
        let index = index(lit);
        let chain = self.chains[index];
        self.cells[place] = Cell {
            lit: Some(lit),
            next: chain.head,
        };
        self.chains[index] = Chain {
            head: place,
            len: chain.len + 1,
        };
    }
}
