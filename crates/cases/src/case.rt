//! What a case says.
use std::alloc::{AllocError, Global};
use std::collections::BTreeMap;

/// What names hold.
pub type Held = BTreeMap<String, Vec<u8>>;

/// A call on the files or on the sink.
#[derive(Clone, Copy, Debug, PartialEq, Eq)]
pub enum Call {
    Piece,
    Start,
    Append,
    Put,
}

/// The one call of a run that fails: the n-th of its kind, counted from 1.
#[derive(Clone, Copy)]
pub struct Failing {
    pub call: Call,
    pub number: u64,
}

/// What a part of a step says, of its name and with its text.
#[derive(Clone, Copy)]
pub enum Verb {
    /// The name holds this text before the run.
    File,
    /// So do the names that have a number of this range in place of `{}`.
    Files { first: u32, last: u32 },
    /// This text stands in place of a line, counted from 1.
    Line(usize),
    /// The words of the run.
    Words,
    /// This is printed, and nothing that an earlier part says.
    Prints,
    /// This may be printed as well.
    Or,
    Status(u8),
    /// How many bytes a call of `piece` gives at most; a run for each.
    Pieces,
    Fail(Failing),
    /// The name holds what was printed, from then on.
    Into,
    /// The name holds this text after the run.
    Holds,
    /// It begins with this text.
    Starts,
    /// It ends with this text.
    Ends,
    /// One line of it begins with this text.
    Once,
    /// It may hold anything.
    Writes,
    /// Each call of a kind fails in its turn.
    Sweep(Call),
    /// A file is cut after each number of bytes: the line where it ends is at fault.
    Cut,
    /// Each two neighbouring lines of a list that differ are exchanged: it is no list any more.
    Swap,
    /// The first two lines of a log are exchanged, and the last two: the first of them is at fault.
    Exchange,
}

/// A part of a step.
#[derive(Drop)]
pub struct Part {
    pub verb: Verb,
    /// A name, or the words, or the sizes.
    pub name: String,
    pub text: Vec<u8>,
}

impl Part {
    pub fn new(alloc: Global, verb: Verb, name: &str, text: Vec<u8>) -> Result<Part, AllocError> {
        let name = String::from_str(alloc, name)?;
        Ok(Part { verb, name, text })
    }

    pub fn copied(&self) -> Result<Part, AllocError> {
        let name = self.name.clone()?;
        let text = self.text.clone()?;
        Ok(Part {
            verb: self.verb,
            name,
            text,
        })
    }

    /// The text without the end of its last line.
    pub fn line(&self) -> &[u8] {
        self.text.strip_suffix(b"\n").unwrap_or(&self.text)
    }

    /// Whether it says what the name holds after the run.
    pub fn is_left(&self) -> bool {
        matches!(
            self.verb,
            Verb::Holds | Verb::Starts | Verb::Ends | Verb::Once | Verb::Writes
        )
    }
}

/// Runs over the same files, one after another, each with what is said of it.
#[derive(Drop)]
pub struct Case {
    pub name: String,
    /// The line that it begins in.
    pub line: u32,
    pub steps: Vec<Vec<Part>>,
}

/// What a step says of its run; of parts that say the same, the last one counts.
#[derive(Clone, Copy)]
pub struct Run<'s> {
    pub words: Option<&'s str>,
    /// What is to be printed, the first of the texts that may be.
    pub prints: Option<&'s [u8]>,
    pub status: Option<u8>,
    pub failing: Option<Failing>,
    pub into: Option<&'s str>,
}

impl Run<'_> {
    pub fn of(step: &[Part]) -> Run<'_> {
        let mut run = Run {
            words: None,
            prints: None,
            status: None,
            failing: None,
            into: None,
        };
        for part in step {
            match part.verb {
                Verb::Words => run.words = Some(&part.name),
                Verb::Prints => run.prints = Some(&part.text),
                Verb::Or => run.prints = run.prints.or(Some(&part.text)),
                Verb::Status(status) => run.status = Some(status),
                Verb::Fail(failing) => run.failing = Some(failing),
                Verb::Into => run.into = Some(&part.name),
                _ => {}
            }
        }
        run
    }

    /// Whether it says all that a run needs.
    pub fn is_whole(&self) -> bool {
        self.words.is_some() && self.prints.is_some() && self.status.is_some()
    }
}
