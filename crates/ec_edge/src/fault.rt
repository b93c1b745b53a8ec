//! Why a call on files or on a sink was refused.
ghost use Rattle.std.specs.Prelude.{◌≡◌};
ghost use Rattle.ec_edge.specs.declared.fault.FileFault.TheVariants as file;
ghost use Rattle.ec_edge.specs.declared.fault.SinkFault.TheVariants as sink;

use std::alloc::{AllocError, AllocFailed};
use thiserror::Error;

/// Why a call on files was refused.
#[derive(Clone, Copy, Debug, PartialEq, Eq, Error)]
pub enum FileFault {
    /// No file has the name.
    #[error("the file is not there")]
    Absent,
    /// The files failed, as at a directory or a full disk.
    #[error("the files failed")]
    Failed,
    /// There was no memory for the call.
    #[error("out of memory")]
    Memory,
}

/// Why a call on a sink was refused.
#[derive(Clone, Copy, Debug, PartialEq, Eq, Error)]
pub enum SinkFault {
    /// The sink failed, as a closed pipe does.
    #[error("the sink failed")]
    Failed,
    /// There was no memory for the call.
    #[error("out of memory")]
    Memory,
}

impl From<AllocError> for FileFault {
    ghost from_gives = { λ _ e. e ≡ file.Memory };

    fn from(_e: AllocError) -> FileFault {
        FileFault::Memory
    }
}

impl<T: Drop> From<AllocFailed<T>> for FileFault {
    ghost from_gives = { λ _ e. e ≡ file.Memory };

    fn from(_e: AllocFailed<T>) -> FileFault {
        FileFault::Memory
    }
}

impl From<AllocError> for SinkFault {
    ghost from_gives = { λ _ e. e ≡ sink.Memory };

    fn from(_e: AllocError) -> SinkFault {
        SinkFault::Memory
    }
}
