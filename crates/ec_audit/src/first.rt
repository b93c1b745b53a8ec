//! The first of some truths that is none of a minimal model.
ghost use Rattle.std.specs.Prelude.{◌≡◌, IfOk, length};
ghost use Rattle.ec_logic.specs.Listing.{IsTruth};
ghost use Rattle.ec_logic.specs.ValidTheory.{IsValidTheory};
ghost use Rattle.ec_grounding.specs.WellFormed.{visible_count};
ghost use Rattle.ec_prop.specs.Grounded.{IsGrounded};
ghost use Rattle.ec_theory.specs.Theories.{theory_of};
ghost use Rattle.ec_audit.specs.Ground.{IsGroundOf};
ghost use Rattle.ec_audit.specs.Firsts.{AreWhole, FailsAt, TellsFirst};

use crate::audit::Audit;
use crate::part::untrue_part;
use ec_atom::Atoms;
use ec_minimal::Part;
use ec_prop::Grounded;
use ec_row::Row;
use ec_theory::Theory;
use std::alloc::{AllocError, Global};

/// A truth that is none of a minimal model.
#[derive(Clone, Copy, Debug, PartialEq, Eq)]
pub struct Failing {
    /// Its number among all truths, from 1.
    pub number: u64,
    /// The first part of the theory that is untrue in the structure that it gives.
    pub part: Part,
}

// What is untrue where a truth fails, under its number.
fn name_part(
    alloc: Global,
    theory: &Theory,
    atoms: &Atoms,
    truth: &Row,
    number: u64,
) -> Result<Failing, AllocError>
    requires of { atoms.now ≡ theory.now.signature }
    requires valid { IsValidTheory (theory_of theory.now) }
    requires whole { length truth.now ≡ visible_count (theory_of theory.now) }
    requires fails { IsTruth (theory_of theory.now) truth.now → ⊥ }
    ensures { IfOk result (FailsAt (theory_of theory.now) truth.now number) }
{
    match untrue_part(alloc, theory, atoms, truth)? {
        Some(part) => Ok(Failing { number, part }),
        None => unreachable!(),
    }
}

/// The first of some truths of the visible atoms that is none of a minimal model, with the first part of the theory that is untrue in the
/// structure that it gives; none where each is that of a minimal model.
///
/// Each truth is audited by the trees of the grounded theory; the sentences themselves are judged for the one that fails alone. Memory: a
/// byte for each atom.
pub fn first_untrue(
    alloc: Global,
    theory: &Theory,
    atoms: &Atoms,
    grounded: &Grounded,
    truths: &[Row],
) -> Result<Option<Failing>, AllocError>
    requires of { atoms.now ≡ theory.now.signature }
    requires valid { IsValidTheory (theory_of theory.now) }
    requires ground { IsGroundOf (theory_of theory.now) grounded.now }
    requires grounded { IsGrounded grounded.now (visible_count (theory_of theory.now)) }
    requires whole { AreWhole (theory_of theory.now) truths.now }
    ensures { IfOk result (TellsFirst (theory_of theory.now) truths.now) }
{
    let mut audit = Audit::new(alloc, grounded)?;
    for (place, truth) in truths.iter().enumerate() {
        if !audit.passes(grounded, truth) {
            let number = place as u64 + 1;
            return Ok(Some(name_part(alloc, theory, atoms, truth, number)?));
        }
    }
    Ok(None)
}
