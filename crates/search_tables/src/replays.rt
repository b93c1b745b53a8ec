//! Notes of a search in memory, and a checker of them.

use crate::literals::add;
use ec_clause::clauses::Clauses;
use ec_clause::lit::Lit;
use ec_clause::notes::Notes;
use std::alloc::{AllocError, Global};
use std::process::Abort;

/// A clause that was noted, with its hints if it was derived.
#[derive(Drop)]
pub struct Noted {
    pub lits: Vec<Lit>,
    pub hints: Option<Vec<u32>>,
}

/// A keeper of notes in memory.
#[derive(Drop)]
pub struct Kept {
    alloc: Global,
    pub notes: Vec<Noted>,
}

impl Notes for Kept {
    ghost use Rattle.std.specs.Prelude.{map, None, Some};
    ghost use Rattle.ec_clause.specs.Note.{Derived, Blocked};

    ghost notes = { λ a. map (λ n. elim n.hints [ None ↦ Blocked n.lits.items | Some h ↦ Derived n.lits.items h.items ]) a.notes.items };

    ghost numbers = { λ _. (0, 0) };

    fn derived(&mut self, lits: &[Lit], hints: &[u32]) -> Result<(), AllocError> {
        let lits = Vec::from_slice(self.alloc, lits)?;
        let hints = Some(Vec::from_slice(self.alloc, hints)?);
        self.notes.push(Noted { lits, hints })?;
        Ok(())
    }

    fn blocked(&mut self, lits: &[Lit]) -> Result<(), AllocError> {
        let lits = Vec::from_slice(self.alloc, lits)?;
        self.notes.push(Noted { lits, hints: None })?;
        Ok(())
    }
}

/// A keeper of no notes.
pub fn no_notes(alloc: Global) -> Kept {
    Kept {
        alloc,
        notes: Vec::new(alloc),
    }
}

fn value(values: &[Option<bool>], lit: Lit) -> Option<bool> {
    match values.get(lit.variable() as usize) {
        Some(Some(value)) => Some(*value == lit.positive()),
        _ => None,
    }
}

fn assume(values: &mut [Option<bool>], lit: Lit) {
    if let Some(place) = values.get_mut(lit.variable() as usize) {
        *place = Some(lit.positive());
    }
}

/// Whether the clause follows by its hints: each but the last is unit, and the last is false.
fn follows(rt: &impl Abort, alloc: Global, clauses: &Clauses, lits: &[Lit], hints: &[u32]) -> bool {
    let mut values = vec![in alloc; None; clauses.variables() as usize + 1].expect(rt, "memory");
    for lit in lits {
        assume(&mut values, lit.opposite());
    }
    let mut ended = false;
    for hint in hints {
        if ended || *hint < 1 || *hint > clauses.len() {
            return false;
        }
        let mut open = None;
        for lit in clauses.get(*hint) {
            match value(&values, *lit) {
                Some(true) => return false,
                Some(false) => {}
                None => {
                    if open.is_some() {
                        return false;
                    }
                    open = Some(*lit);
                }
            }
        }
        match open {
            Some(lit) => assume(&mut values, lit),
            None => ended = true,
        }
    }
    ended
}

fn contains_none(clauses: &Clauses, lits: &[Lit]) -> bool {
    for index in 0..clauses.len() {
        if clauses.get(index + 1).iter().all(|lit| lits.contains(lit)) {
            return false;
        }
    }
    true
}

/// Goes through the notes, clause by clause.
pub fn replay(rt: &impl Abort, alloc: Global, mut clauses: Clauses, notes: &Kept) {
    for noted in &notes.notes {
        if let Some(hints) = &noted.hints {
            assert!(rt; follows(rt, alloc, &clauses, &noted.lits, hints));
            assert!(rt; noted.lits.is_empty() || contains_none(&clauses, &noted.lits));
        }
        add(rt, &mut clauses, &noted.lits);
    }
}
