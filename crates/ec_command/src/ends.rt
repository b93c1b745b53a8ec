//! The status of each command's end.
ghost use Rattle.std.specs.Prelude.{◌≡◌};
ghost use Rattle.ec_command.specs.Ends.{check_status, list_status, show_status, solve_status};

use crate::status::Status;
use ec_clause::ending::Ending;
use ec_engine::{CheckEnd, ListEnd, ShowEnd, SolveEnd};

/// The status of the end of `list`.
pub fn list_status(end: &ListEnd) -> Status
    ensures { result ≡ list_status end.now }
{
    match end {
        ListEnd::Complete(_) => Status::Complete,
        ListEnd::Refused(_) => Status::Refused,
        ListEnd::Files => Status::FilesFault,
        ListEnd::Out => Status::OutFault,
        ListEnd::Memory => Status::NoMemory,
    }
}

/// The status of the end of `solve`.
pub fn solve_status(end: &SolveEnd) -> Status
    ensures { result ≡ solve_status end.now }
{
    match end {
        SolveEnd::Done(Ending::Complete(_)) => Status::Complete,
        SolveEnd::Done(Ending::Models(_) | Ending::Conflicts(_)) => Status::Limit,
        SolveEnd::Refused(_) => Status::Refused,
        SolveEnd::Files => Status::FilesFault,
        SolveEnd::Out => Status::OutFault,
        SolveEnd::Memory => Status::NoMemory,
    }
}

/// The status of the end of `check`.
pub fn check_status(end: &CheckEnd) -> Status
    ensures { result ≡ check_status end.now }
{
    match end {
        CheckEnd::Yes(Ending::Complete(_)) => Status::Complete,
        CheckEnd::Yes(Ending::Models(_) | Ending::Conflicts(_)) => Status::Limit,
        CheckEnd::No(_) => Status::No,
        CheckEnd::Refused(_) => Status::Refused,
        CheckEnd::Files => Status::FilesFault,
        CheckEnd::Out => Status::OutFault,
        CheckEnd::Memory => Status::NoMemory,
    }
}

/// The status of the end of `show`.
pub fn show_status(end: &ShowEnd) -> Status
    ensures { result ≡ show_status end.now }
{
    match end {
        ShowEnd::Shown(_) => Status::Complete,
        ShowEnd::Refused(_) => Status::Refused,
        ShowEnd::Files => Status::FilesFault,
        ShowEnd::Out => Status::OutFault,
        ShowEnd::Memory => Status::NoMemory,
    }
}
