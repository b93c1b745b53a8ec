//! A line of a log in memory.
ghost use Rattle.std.specs.Prelude.{◌≡◌};
ghost use Rattle.ec_log.specs.declared.line.LineFault.TheVariants as fault;

use ec_clause::ending::Ending;
use ec_clause::lit::Lit;
use std::alloc::{AllocError, AllocFailed};
use thiserror::Error;

/// A line of a log.
#[derive(Debug, Drop, PartialEq, Eq)]
pub enum Line {
    /// The first line: the numbers of variables and of clauses that the log stands on.
    Header { variables: u32, clauses: u32 },
    /// A derived clause, and the numbers of the clauses that it follows from.
    Derived { lits: Vec<Lit>, hints: Vec<u32> },
    /// A truth that was found and then forbidden: a hexadecimal digit for four visible variables.
    Blocked { digits: Vec<u8> },
    /// The last line.
    End(Ending),
}

/// Why bytes were not read as a line.
#[derive(Clone, Copy, Debug, PartialEq, Eq, Error)]
pub enum LineFault {
    /// They are no line.
    #[error("the bytes are no line of a log")]
    Form,
    /// There was no memory for the line.
    #[error("out of memory")]
    Memory,
}

impl From<AllocError> for LineFault {
    ghost from_gives = { λ _ e. e ≡ fault.Memory };

    fn from(_e: AllocError) -> LineFault {
        LineFault::Memory
    }
}

impl<T: Drop> From<AllocFailed<T>> for LineFault {
    ghost from_gives = { λ _ e. e ≡ fault.Memory };

    fn from(_e: AllocFailed<T>) -> LineFault {
        LineFault::Memory
    }
}
