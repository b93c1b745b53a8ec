//! The files of the operating system, and standard output: the trusted edge.
//!
//! They tell nothing of what they hold. No clause says what the system does, so these few lines
//! are trusted and tried on real files.
ghost use Rattle.std.specs.Prelude.{◌≡◌, ◌≤◌, [], ℕ, None, false, length, IfOk};
ghost use Rattle.ec_edge.specs.Causes.{raised, Rose};

use crate::{FileFault, Files, Sink, SinkFault};
use std::fs::{File, OpenOptions};
use std::io;
use std::io::{ErrorKind, Read, Seek, SeekFrom, Write};
use std::marker::Model;
use std::rt::Files as SystemFiles;

/// The files of the operating system, a name being a path, seen as their three counts.
///
/// Each call opens the file anew, so nothing is kept open. A name that the system does not find
/// is absent; a directory, a file that may not be read, and any other error are failures.
#[derive(Drop)]
pub struct HostFiles<'a, R: SystemFiles> {
    rt: &'a R,
    faults: u64,
    absences: u64,
    failed_starts: u64,
}

impl<'a, R: SystemFiles> Model for HostFiles<'a, R> {
    ghost use Rattle.ec_edge.specs.Counts.{FileCounts};

    ghost Value = { FileCounts };

    ghost view = { λ f. record { faults = f.faults; absences = f.absences; failed_starts = f.failed_starts } };
}

impl<'a, R: SystemFiles> HostFiles<'a, R> {
    /// The files that the runtime reaches, with all counts at 0.
    pub fn new(rt: &'a R) -> HostFiles<'a, R>
        ensures { result ≡ record { faults = 0; absences = 0; failed_starts = 0 } }
    {
        HostFiles {
            rt,
            faults: 0,
            absences: 0,
            failed_starts: 0,
        }
    }

    fn failed(&mut self) -> FileFault
        ensures fault { result ≡ FileFault.Failed }
        ensures counts { self.new ≡ record self.old { faults = raised self.old.faults } }
        ensures later { self.old.faults ≤ self.new.faults }
    {
        self.faults = self.faults.saturating_add(1);
        FileFault::Failed
    }

    // A start that the system refused, which both counts tell.
    fn failed_start(&mut self) -> FileFault
        ensures fault { result ≡ FileFault.Failed }
        ensures counts { let old = self.old in
            self.new ≡ record old { faults = raised old.faults; failed_starts = raised old.failed_starts } }
        ensures faults { self.old.faults ≤ self.new.faults }
        ensures failed_starts { self.old.failed_starts ≤ self.new.failed_starts }
    {
        self.failed_starts = self.failed_starts.saturating_add(1);
        self.failed()
    }

    fn absent(&mut self) -> FileFault
        ensures fault { result ≡ FileFault.Absent }
        ensures counts { self.new ≡ record self.old { absences = raised self.old.absences } }
        ensures later { self.old.absences ≤ self.new.absences }
    {
        self.absences = self.absences.saturating_add(1);
        FileFault::Absent
    }

    // The fault of a read that the system refused.
    fn refused(&mut self, kind: ErrorKind) -> FileFault
        ensures absent { result ≡ FileFault.Absent → Rose self.old.absences self.new.absences }
        ensures failed { result ≡ FileFault.Failed → Rose self.old.faults self.new.faults }
        ensures faults { self.old.faults ≤ self.new.faults }
        ensures absences { self.old.absences ≤ self.new.absences }
        ensures failed_starts { self.new.failed_starts ≡ self.old.failed_starts }
    {
        if kind == ErrorKind::NotFound {
            self.absent()
        } else {
            self.failed()
        }
    }
}

fn read_at<R: SystemFiles>(rt: &R, name: &str, at: u64, buf: &mut [u8]) -> io::Result<usize>
    ensures { IfOk result (λ n. n ≤ length buf.new) }
{
    let mut file = File::open(rt, name)?;
    file.seek(SeekFrom::Start(at))?;
    file.read(buf)
}

fn write_at_end<R: SystemFiles>(rt: &R, name: &str, piece: &[u8]) -> io::Result<()> {
    let mut file = OpenOptions::new().append(true).open(rt, name)?;
    file.write_all(piece)
}

impl<'a, R: SystemFiles> Files for HostFiles<'a, R> {
    ghost tells = { λ _. false };

    ghost held = { λ _ _. None };

    ghost faults = { λ f. f.faults };

    ghost absences = { λ f. f.absences };

    ghost failed_starts = { λ f. f.failed_starts };

    fn piece(&mut self, name: &str, at: u64, buf: &mut [u8]) -> Result<usize, FileFault> {
        match read_at(self.rt, name, at, buf) {
            Ok(n) => Ok(n),
            Err(e) => Err(self.refused(e.kind())),
        }
    }

    fn start(&mut self, name: &str) -> Result<(), FileFault> {
        match File::create(self.rt, name) {
            Ok(_) => Ok(()),
            Err(_) => Err(self.failed_start()),
        }
    }

    fn append(&mut self, name: &str, piece: &[u8]) -> Result<(), FileFault> {
        match write_at_end(self.rt, name, piece) {
            Ok(()) => Ok(()),
            Err(_) => Err(self.failed()),
        }
    }
}

/// Standard output, seen as the count of its faults. Each piece is written at once.
#[derive(Drop)]
pub struct HostOut<'a, R: Print> {
    rt: &'a R,
    faults: u64,
}

impl<'a, R: Print> Model for HostOut<'a, R> {
    ghost use Rattle.std.specs.Prelude.{ℕ};

    ghost Value = { ℕ };

    ghost view = { λ s. s.faults };
}

impl<'a, R: Print> HostOut<'a, R> {
    /// The standard output of the runtime, with its count at 0.
    pub fn new(rt: &'a R) -> HostOut<'a, R>
        ensures { result ≡ 0 }
    {
        HostOut { rt, faults: 0 }
    }
}

impl<'a, R: Print> Sink for HostOut<'a, R> {
    ghost tells = { λ _. false };

    ghost bytes = { λ _. [] };

    ghost faults = { λ faults. faults };

    fn put(&mut self, piece: &[u8]) -> Result<(), SinkFault> {
        match self.rt.write_all(piece) {
            Ok(()) => Ok(()),
            Err(_) => {
                self.faults = self.faults.saturating_add(1);
                Err(SinkFault::Failed)
            }
        }
    }
}
