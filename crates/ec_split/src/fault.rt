//! Why a book isn't split.
ghost use Rattle.std.specs.Prelude.{◌≡◌};
ghost use Rattle.ec_split.specs.declared.fault.SplitFault.TheVariants as fault;

use ec_syntax::book::Refusal;
use std::alloc::{AllocError, AllocFailed};

/// Why the sentences of a book aren't put into groups.
#[derive(Debug, Drop, PartialEq, Eq)]
pub enum SplitFault {
    /// A completion statement names no predicate (18) or one that is in another group (17), or a group's
    /// sentence isn't a clause tree of the group (16).
    Refused(Refusal),
    /// There is no memory left.
    Memory,
}

impl From<AllocError> for SplitFault {
    ghost from_gives = { λ _ f. f ≡ fault.Memory };

    fn from(_error: AllocError) -> SplitFault {
        SplitFault::Memory
    }
}

impl<T: Drop> From<AllocFailed<T>> for SplitFault {
    ghost from_gives = { λ _ f. f ≡ fault.Memory };

    fn from(_error: AllocFailed<T>) -> SplitFault {
        SplitFault::Memory
    }
}
