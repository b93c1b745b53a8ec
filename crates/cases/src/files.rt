//! Files in memory that give their bytes in small pieces, and of which one call can be set to fail.
ghost use Rattle.std.specs.Prelude.{◌≡◌, ◌≤◌, None, false, length, IsTrue};
ghost use Rattle.ec_edge.specs.Causes.{Rose};

use crate::case::{Call, Failing, Held};
use ec_edge::{FileFault, Files};
use std::alloc::{AllocError, Global};

/// Files in memory. They tell nothing to whom is tried on them.
#[derive(Drop)]
pub struct TrialFiles {
    alloc: Global,
    held: Held,
    most: usize,
    failing: Option<Failing>,
    calls: u64,
    faults: u64,
    absences: u64,
    failed_starts: u64,
}

impl TrialFiles {
    /// Files that hold this, give at most so many bytes at once, and fail at one call.
    pub fn new(alloc: Global, held: Held, most: usize, failing: Option<Failing>) -> TrialFiles {
        TrialFiles {
            alloc,
            held,
            most,
            failing,
            calls: 0,
            faults: 0,
            absences: 0,
            failed_starts: 0,
        }
    }

    /// Whether the call that is set to fail was made.
    pub fn has_failed(&self) -> bool {
        self.faults > 0
    }

    /// What the names hold.
    pub fn into_held(self) -> Held {
        self.held
    }

    /// Counts a call, and answers whether it is the one that is set to fail.
    fn fails(&mut self, call: Call) -> bool
        ensures faults { self.old.faults ≤ self.new.faults }
        ensures rose { IsTrue result → Rose self.old.faults self.new.faults }
        ensures absences { self.new.absences ≡ self.old.absences }
        ensures failed_starts { self.new.failed_starts ≡ self.old.failed_starts }
    {
        let Some(failing) = self.failing else {
            return false;
        };
        if failing.call != call {
            return false;
        }
        self.calls = self.calls.saturating_add(1);
        if self.calls != failing.number {
            return false;
        }
        self.faults = self.faults.saturating_add(1);
        true
    }
}

/// Copies bytes of a file from an offset on, as many as there are and as the buffer takes.
fn copy(bytes: &[u8], at: u64, buf: &mut [u8]) -> usize
    ensures { result ≤ length buf.new }
{
    let rest = bytes.get(at as usize..).unwrap_or(&[]);
    let n = rest.len().min(buf.len());
    buf[..n].copy_from_slice(&rest[..n]);
    n
}

fn extend(held: &mut Held, name: &str, piece: &[u8]) -> Result<(), AllocError> {
    match held.get_mut(name) {
        Some(bytes) => bytes.extend_from_slice(piece),
        None => Err(AllocError),
    }
}

impl Files for TrialFiles {
    ghost tells = { λ _. false };

    ghost held = { λ _ _. None };

    ghost faults = { λ f. f.faults };

    ghost absences = { λ f. f.absences };

    ghost failed_starts = { λ f. f.failed_starts };

    fn piece(&mut self, name: &str, at: u64, buf: &mut [u8]) -> Result<usize, FileFault> {
        if self.fails(Call::Piece) {
            return Err(FileFault::Failed);
        }
        let most = self.most.min(buf.len());
        match self.held.get(name) {
            Some(bytes) => Ok(copy(bytes, at, &mut buf[..most])),
            None => {
                self.absences = self.absences.saturating_add(1);
                Err(FileFault::Absent)
            }
        }
    }

    fn start(&mut self, name: &str) -> Result<(), FileFault> {
        if self.fails(Call::Start) {
            self.failed_starts = self.failed_starts.saturating_add(1);
            return Err(FileFault::Failed);
        }
        let key = String::from_str(self.alloc, name)?;
        self.held.insert(key, Vec::new(self.alloc))?;
        Ok(())
    }

    /// A name that wasn't started gets nothing, as for want of memory.
    fn append(&mut self, name: &str, piece: &[u8]) -> Result<(), FileFault> {
        if self.fails(Call::Append) {
            extend(&mut self.held, name, &piece[..piece.len() / 2])?;
            return Err(FileFault::Failed);
        }
        extend(&mut self.held, name, piece)?;
        Ok(())
    }
}
