//! Structures, by the truth of each atom.
ghost use Rattle.std.specs.Prelude.{◌≡◌, ◌<◌, false, length, replicate, IfOk, Some, slice_get, set};
ghost use Rattle.ec_logic.specs.Universe.{universe_of};
ghost use Rattle.ec_logic.specs.Atom.{all_atoms};

use ec_atom::Atoms;
use std::alloc::{AllocError, Global};
use std::marker::Model;

/// The truths of all atoms, by their numbers. A byte for each.
#[derive(Drop)]
pub struct Structure {
    pub(crate) truths: Vec<bool>,
}

impl Model for Structure {
    ghost use Rattle.std.specs.Prelude.{List, Bool};

    ghost Value = { List Bool };

    ghost view = { λ s. s.truths.items };
}

impl Structure {
    /// The structure in which each atom is false.
    pub fn empty(alloc: Global, atoms: &Atoms) -> Result<Structure, AllocError>
        ensures { IfOk result (λ structure. structure ≡ replicate (length (all_atoms (universe_of atoms.now))) false) }
    {
        Ok(Structure {
            truths: vec![in alloc; false; atoms.all() as usize]?,
        })
    }

    /// The truth of an atom.
    pub fn get(&self, atom: u64) -> bool
        requires { atom < length self.now }
        ensures { slice_get self.now atom ≡ Some result }
    {
        self.truths[atom as usize]
    }

    /// Gives an atom this truth, and leaves all others.
    pub fn set(&mut self, atom: u64, truth: bool)
        requires { atom < length self.old }
        ensures { self.new ≡ set self.old atom truth }
    {
        self.truths[atom as usize] = truth;
    }
}
