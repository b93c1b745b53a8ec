//! How the program ends.
ghost use Rattle.std.specs.Prelude.{◌≡◌};
ghost use Rattle.ec_command.specs.Status.{status_number};

/// How a call of the program ended.
#[derive(Clone, Copy, Debug, PartialEq, Eq)]
pub enum Status {
    /// The whole answer was put.
    Complete,
    /// A search ended at a bound, and what it found was put.
    Limit,
    /// The file is refused, and the line of the refusal was put.
    Refused,
    /// What was checked isn't so.
    No,
    /// The files failed, and nothing was put.
    FilesFault,
    /// The output failed, and a prefix of the text due was put.
    OutFault,
    /// The words are no job.
    Usage,
    /// There was no memory, and a prefix of a text due was put.
    NoMemory,
}

impl Status {
    /// The exit status of the program.
    pub fn number(self) -> u8
        ensures { result ≡ status_number self }
    {
        match self {
            Status::Complete => 0,
            Status::Limit => 1,
            Status::Refused => 2,
            Status::No => 3,
            Status::FilesFault => 4,
            Status::OutFault => 5,
            Status::Usage => 6,
            Status::NoMemory => 7,
        }
    }
}
