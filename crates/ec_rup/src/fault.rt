//! Why a step is refused.

ghost use Rattle.std.specs.Prelude.{◌≡◌};
ghost use Rattle.ec_rup.specs.declared.fault.StepFault.TheVariants.{Memory};

use std::alloc::AllocError;

/// What is wrong first with a step: its literals come before its hints, and the hints in order.
#[derive(Clone, Copy, Debug, PartialEq, Eq)]
pub enum StepFault {
    /// Two literals are of one variable, or one is of no variable of the clause list.
    Lits,
    /// The hint at this place, from 0, is no number of a clause.
    Unknown { at: usize },
    /// The hint at this place, from 0, is not the last, and its clause is not unit.
    NotUnit { at: usize },
    /// The clause of the last hint is not false, or there is no hint.
    NotFalse,
    /// There was no memory.
    Memory,
}

impl From<AllocError> for StepFault {
    ghost from_gives = { λ _ fault. fault ≡ Memory };

    fn from(_e: AllocError) -> StepFault {
        StepFault::Memory
    }
}
