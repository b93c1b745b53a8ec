//! Why a book is not loaded.
use ec_syntax::book::Refusal;
use std::alloc::{AllocError, AllocFailed};

/// Why a book is not loaded.
#[derive(Debug, PartialEq, Eq, Drop)]
pub enum LoadFault {
    /// A file is refused: codes 1 to 5 and 15.
    Refused(Refusal),
    /// The files failed.
    Files,
    /// There was no memory.
    Memory,
}

impl From<AllocError> for LoadFault {
    ghost use Rattle.std.specs.Prelude.{◌≡◌};
    ghost use Rattle.ec_load.specs.declared.fault.LoadFault.TheVariants.{Memory};

    ghost from_gives = { λ _ e. e ≡ Memory };

    fn from(_error: AllocError) -> LoadFault {
        LoadFault::Memory
    }
}

impl<T: Drop> From<AllocFailed<T>> for LoadFault {
    ghost use Rattle.std.specs.Prelude.{◌≡◌};
    ghost use Rattle.ec_load.specs.declared.fault.LoadFault.TheVariants.{Memory};

    ghost from_gives = { λ _ e. e ≡ Memory };

    fn from(_failed: AllocFailed<T>) -> LoadFault {
        LoadFault::Memory
    }
}
