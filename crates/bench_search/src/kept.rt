//! A keeper of a search's notes in memory.

use ec_clause::lit::Lit;
use ec_clause::notes::Notes;
use std::alloc::{AllocError, Global};

/// A clause that was noted, with its hints if it was derived.
#[derive(Drop)]
struct Noted {
    lits: Vec<Lit>,
    hints: Option<Vec<u32>>,
}

/// All notes, in order.
#[derive(Drop)]
pub struct Kept {
    alloc: Global,
    notes: Vec<Noted>,
}

impl Kept {
    /// No note.
    pub fn new(alloc: Global) -> Kept {
        Kept {
            alloc,
            notes: Vec::new(alloc),
        }
    }
}

impl Notes for Kept {
    ghost use Rattle.std.specs.Prelude.{map, None, Some};
    ghost use Rattle.ec_clause.specs.Note.{Derived, Blocked};

    ghost notes = { λ a. map (λ n. elim n.hints [ None ↦ Blocked n.lits.items | Some h ↦ Derived n.lits.items h.items ]) a.notes.items };

    ghost numbers = { λ _. (0, 0) };

    fn derived(&mut self, lits: &[Lit], hints: &[u32]) -> Result<(), AllocError> {
        let lits = Vec::from_slice(self.alloc, lits)?;
        let hints = Some(Vec::from_slice(self.alloc, hints)?);
        self.notes.push(Noted { lits, hints })?;
        Ok(())
    }

    fn blocked(&mut self, lits: &[Lit]) -> Result<(), AllocError> {
        let lits = Vec::from_slice(self.alloc, lits)?;
        self.notes.push(Noted { lits, hints: None })?;
        Ok(())
    }
}
