//! Why atoms aren't numbered.
ghost use Rattle.std.specs.Prelude.{◌≡◌};
ghost use Rattle.ec_atom.specs.declared.fault.AtomFault.TheVariants as fault;

use std::alloc::{AllocError, AllocFailed};

/// Why the atoms of a theory aren't numbered.
#[derive(Debug, Drop, PartialEq, Eq, thiserror::Error)]
pub enum AtomFault {
    /// There are more than 262,144 visible atoms.
    #[error("too many atoms")]
    TooMany,
    /// There is no memory left.
    #[error("out of memory")]
    Memory,
}

impl From<AllocError> for AtomFault {
    ghost from_gives = { λ _ f. f ≡ fault.Memory };

    fn from(_error: AllocError) -> AtomFault {
        AtomFault::Memory
    }
}

impl<T: Drop> From<AllocFailed<T>> for AtomFault {
    ghost from_gives = { λ _ f. f ≡ fault.Memory };

    fn from(_error: AllocFailed<T>) -> AtomFault {
        AtomFault::Memory
    }
}
