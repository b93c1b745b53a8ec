//! A file that gives few bytes a call, and the answers of reading a log line by line.
ghost use Rattle.std.specs.Prelude.{◌≤◌, None, false};

use ec_edge::{FileFault, Files};
use ec_log::{LogReader, NextLine};
use std::alloc::{AllocError, Global};
use std::fmt::Write;

/// A file of which each call gives at most so many bytes, whatever its name. It can't be written.
#[derive(Drop)]
pub struct CutFile<'a> {
    pub bytes: &'a [u8],
    pub most: usize,
}

impl<'a> Files for CutFile<'a> {
    ghost tells = { λ _. false };

    ghost held = { λ _ _. None };

    ghost faults = { λ _. 0 };

    ghost absences = { λ _. 0 };

    ghost failed_starts = { λ _. 0 };

    fn piece(&mut self, _name: &str, at: u64, buf: &mut [u8]) -> Result<usize, FileFault> {
        let rest = self.bytes.get(at as usize..).unwrap_or(b"");
        let n = rest.len().min(buf.len()).min(self.most);
        buf[..n].copy_from_slice(&rest[..n]);
        Ok(n)
    }

    fn start(&mut self, _name: &str) -> Result<(), FileFault> {
        Err(FileFault::Memory)
    }

    fn append(&mut self, _name: &str, _piece: &[u8]) -> Result<(), FileFault> {
        Err(FileFault::Memory)
    }
}

fn push_answer(out: &mut String, answer: &NextLine) -> Result<(), AllocError> {
    write!(out, "{answer:?}\n")?;
    Ok(())
}

/// Adds the answers of a reader of the log that a name holds, with a buffer of this size, up to the first that is no line.
pub fn push_lines<F: Files>(
    out: &mut String,
    alloc: Global,
    files: &mut F,
    name: &str,
    size: u32,
) -> Result<(), AllocError>
    requires least { 1 ≤ size }
    requires most { size ≤ 1048576 }
{
    let mut reader = LogReader::new(alloc, size)?;
    for _ in 0..10 {
        let answer = reader.next(files, name);
        push_answer(out, &answer)?;
        if !matches!(answer, NextLine::Line(_)) {
            return Ok(());
        }
    }
    Ok(())
}
