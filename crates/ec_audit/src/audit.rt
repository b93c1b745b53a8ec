//! The audit of truths of the visible atoms.
ghost use Rattle.std.specs.Prelude.{◌≡◌, ◌<◌, All, IfOk, IfSome, length};
ghost use Rattle.std.specs.List.Sorted.{IsStrictlyIncreasing};
ghost use Rattle.ec_prop.specs.Grounded.{IsGrounded};
ghost use Rattle.ec_audit.specs.Ground.{HasRoom, TellsTruth};

use crate::trees::{copy_visible, fill_others, trees_hold};
use ec_prop::Grounded;
use ec_row::Row;
use std::alloc::{AllocError, Global};
use std::marker::Model;

/// Room for the truths of a theory's atoms, seen as the number of atoms that it has room for. Made once, it serves all audits of the theory.
#[derive(Drop)]
pub struct Audit {
    // Each audit writes whatever it reads.
    truths: Vec<bool>,
}

impl Model for Audit {
    ghost use Rattle.std.specs.Prelude.{ℕ, length};

    ghost Value = { ℕ };

    ghost view = { λ a. length a.truths.items };
}

impl Audit {
    /// Room for all atoms that have a variable, a byte for each atom up to the last of them.
    pub fn new(alloc: Global, grounded: &Grounded) -> Result<Audit, AllocError>
        requires rises { IsStrictlyIncreasing grounded.now.variables.items }
        ensures { IfOk result (λ audit. HasRoom audit grounded.now) }
    {
        let size = size_for(&grounded.variables).ok_or(AllocError)?;
        Ok(Audit {
            truths: vec![in alloc; false; size]?,
        })
    }

    /// Whether a truth of the visible atoms is that of a minimal model of the theory that was grounded so.
    ///
    /// Time is linear in the visible atoms and the definitions, and in the trees as far as their truth needs them: an And is left at its
    /// first false part, an Or at its first true one, and all at the first tree that tells no. It takes no memory.
    pub fn passes(&mut self, grounded: &Grounded, truth: &Row) -> bool
        requires grounded { IsGrounded grounded.now (length truth.now) }
        requires room { HasRoom self.old grounded.now }
        ensures room { self.new ≡ self.old }
        ensures exact { TellsTruth grounded.now truth.now result }
    {
        is_truth(grounded, truth, &mut self.truths)
    }
}

// The number behind the last atom, if there is one.
fn size_for(variables: &[u64]) -> Option<usize>
    requires { IsStrictlyIncreasing variables.now }
    ensures { IfSome result (λ size. All (λ a. a < size) variables.now) }
{
    match variables.last() {
        Some(last) => (*last as usize).checked_add(1),
        None => Some(0),
    }
}

// The audit, over truths that it may write.
fn is_truth(grounded: &Grounded, truth: &Row, truths: &mut [bool]) -> bool
    requires grounded { IsGrounded grounded.now (length truth.now) }
    requires room { HasRoom (length truths.old) grounded.now }
    ensures size { length truths.new ≡ length truths.old }
    ensures exact { TellsTruth grounded.now truth.now result }
{
    let visible = truth.len();
    copy_visible(truth, truths);
    fill_others(&grounded.definitions, visible, truths);
    trees_hold(grounded, visible, truths)
}
