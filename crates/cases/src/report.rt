//! What is told of the cases: which of them differ and in what, and how many there are.
use crate::case::Case;
use crate::misread::Misread;
use std::alloc::{AllocError, Global};

/// The most bytes of a text that are shown.
const SHOWN: usize = 2_000;

/// How many cases and runs there were.
#[derive(Clone, Copy)]
pub struct Counts {
    pub cases: u32,
    pub runs: u32,
}

/// The differences found in a case file so far, as text, and its counts.
#[derive(Drop)]
pub struct Report {
    pub alloc: Global,
    /// The case that is tried, and the harm that is done to it.
    case: String,
    harm: String,
    pub differences: String,
    pub counts: Counts,
}

/// Adds the beginning of a text as a case file has it: each line behind two spaces, with an empty one where the last line ends.
fn push_text(out: &mut String, bytes: &[u8]) -> Result<(), AllocError> {
    let shown = bytes.get(..SHOWN).unwrap_or(bytes);
    for line in shown.split(|byte| *byte == b'\n') {
        out.push_str("  ")?;
        out.push_str(str::from_utf8(line).unwrap_or("bytes that are no text"))?;
        out.push('\n')?;
    }
    Ok(())
}

impl Report {
    pub fn new(alloc: Global) -> Report {
        Report {
            alloc,
            case: String::new(alloc),
            harm: String::new(alloc),
            differences: String::new(alloc),
            counts: Counts { cases: 0, runs: 0 },
        }
    }

    /// Counts a case, and tells of it from then on.
    pub fn begin(&mut self, file: &str, case: &Case) -> Result<(), AllocError> {
        self.counts.cases = self.counts.cases.saturating_add(1);
        self.case = format!(in self.alloc; "{file}:{}: {}", case.line, case.name)?;
        self.harm = String::new(self.alloc);
        Ok(())
    }

    /// Counts a run, and tells of it from then on, by the harm that is done to it.
    pub fn begin_run(&mut self, harm: String) {
        self.counts.runs = self.counts.runs.saturating_add(1);
        self.harm = harm;
    }

    /// Tells where the file can't be read, and why.
    pub fn misread(&mut self, file: &str, line: u32, why: Misread) -> Result<(), AllocError> {
        self.differences = format!(in self.alloc; "{file}:{line}: {why}\n")?;
        Ok(())
    }

    /// Says which case it is, and with what harm.
    fn title(&mut self) -> Result<(), AllocError> {
        self.differences.push_str(&self.case)?;
        self.differences.push_str(&self.harm)?;
        self.differences.push('\n')
    }

    /// Tells of something that isn't as wanted.
    pub fn note(&mut self, what: &str) -> Result<(), AllocError> {
        self.title()?;
        self.differences.push_str(what)?;
        self.differences.push('\n')
    }

    fn show(&mut self, what: &str, which: &str, bytes: &[u8]) -> Result<(), AllocError> {
        self.differences.push_str(what)?;
        self.differences.push_str(which)?;
        push_text(&mut self.differences, bytes)
    }

    /// Tells of a text that isn't the one that is wanted.
    pub fn differ(&mut self, what: &str, wanted: &[u8], came: &[u8]) -> Result<(), AllocError> {
        self.title()?;
        self.show(what, ", wanted:\n", wanted)?;
        self.show(what, ", came:\n", came)
    }

    /// Tells of a text if it isn't the one that is wanted.
    pub fn compare(&mut self, what: &str, wanted: &[u8], came: &[u8]) -> Result<(), AllocError> {
        if wanted == came {
            return Ok(());
        }
        self.differ(what, wanted, came)
    }

    /// Tells of a status if it isn't the one that is wanted.
    pub fn compare_status(&mut self, wanted: u8, came: u8) -> Result<(), AllocError> {
        if wanted == came {
            return Ok(());
        }
        let status = format!(in self.alloc; "status: wanted {wanted}, came {came}")?;
        self.note(&status)
    }
}
