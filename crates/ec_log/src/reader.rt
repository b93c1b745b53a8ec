//! The lines of a log, read one after another from a file in pieces.
ghost use Rattle.std.specs.Prelude.{◌≡◌, ◌≢◌, ◌+◌, ◌≤◌, ◌++◌, [], ℕ, List, Option, None, take, drop, length, nat_lt, nat_eq, if◌then◌else◌, IsTrue, IsErrOf, IfOk, OnOk, MatchOption, IsSomeAnd};
ghost use Rattle.ec_edge.specs.Causes.{Rose};
ghost use Rattle.ec_edge.specs.Pieces.{AllStay};
ghost use Rattle.ec_log.specs.Collecting.{Unended, EndsAt, IsBehind, HasFrontHeld, IsFilled};
ghost use Rattle.ec_log.specs.Reader.{Reader, AnswersNext, FitsHeld, UsesLine, largest_log, new_reader};
ghost use Rattle.ec_log.specs.Reading.{IsRead};

use crate::line::{Line, LineFault};
use crate::next_line::NextLine;
use crate::read::read_line;
use ec_edge::{FileFault, Files, first_line};
use std::alloc::{AllocError, Global};
use std::marker::Model;

// As many bytes as a log may have.
const LARGEST_LOG: u64 = 268_435_456;

/// A reader of a log, seen as the length of its buffer, the number of bytes that its lines have
/// used, and the bytes that it holds from there on.
#[derive(Drop)]
pub struct LogReader {
    alloc: Global,
    place: u64,
    buffer: Vec<u8>,
    // The bytes that are held are those of the buffer from `start` on to before `end`.
    start: usize,
    end: usize,
}

impl Model for LogReader {
    ghost use Rattle.std.specs.Prelude.{◌≤◌, length, slice_range};
    ghost use Rattle.ec_log.specs.Reader.{Reader, largest_log};

    ghost Value = { Reader };

    ghost view = { λ r. record {
      size = length r.buffer.items;
      place = r.place;
      held = slice_range r.buffer.items r.start r.end;
    } };

    ghost invariant = { λ r. (1 ≤ length r.buffer.items) × (length r.buffer.items ≤ 1048576)
        × (r.start ≤ r.end) × (r.end ≤ length r.buffer.items) × (r.place ≤ largest_log) };
}

impl LogReader {
    /// A reader of which no line was asked, with a buffer of this length: from 1 to 1,048,576.
    pub fn new(alloc: Global, size: u32) -> Result<LogReader, AllocError>
        requires least { 1 ≤ size }
        requires most { size ≤ 1048576 }
        ensures { IfOk result (λ reader. reader ≡ new_reader size) }
    {
        Ok(LogReader {
            alloc,
            place: 0,
            buffer: vec![in alloc; 0u8; size as usize]?,
            start: 0,
            end: 0,
        })
    }

    /// Reads the next line of the log that the name holds.
    ///
    /// All lines are to be asked of one name. After an answer other than `Line` nothing is said of
    /// what the reader holds, and it is of no further use. Each byte of the log is looked at once;
    /// a line that lies in the buffer as a whole is read from there, any other is joined first.
    pub fn next<F: Files>(&mut self, files: &mut F, name: &str) -> NextLine
        requires { IsTrue (F.tells files.old) → FitsHeld self.old (F.held files.old name.now) }
        ensures read { IsTrue (F.tells files.old) →
            AnswersNext self.old (F.held files.old name.now) result self.new }
        ensures turn { UsesLine self.old result self.new }
        ensures absent { result ≡ NextLine.Absent → Rose (F.absences files.old) (F.absences files.new) }
        ensures failed { result ≡ NextLine.Failed → Rose (F.faults files.old) (F.faults files.new) }

        ensures stays { AllStay (F.held files.old) (F.held files.new) }
        ensures failed_starts { F.failed_starts files.new ≡ F.failed_starts files.old }
        ensures tells { F.tells files.new ≡ F.tells files.old }
        ensures faults { F.faults files.old ≤ F.faults files.new }
        ensures absences { F.absences files.old ≤ F.absences files.new }
    {
        let mut front = Vec::new(self.alloc);
        'pieces: loop {
            if let Some(end) = self.line_end() {
                return self.ended_line(front, end);
            }
            if self.is_past() {
                return NextLine::Past;
            }
            let Ok(()) = self.take_held(&mut front) else {
                return NextLine::Memory;
            };
            match self.fill(files, name) {
                Ok(0) => return unended_line(&front),
                Ok(_) => {}
                Err(FileFault::Absent) => return NextLine::Absent,
                Err(FileFault::Failed) => return NextLine::Failed,
                Err(FileFault::Memory) => return NextLine::Memory,
            }
        }
    }

    fn held(&self) -> &[u8]
        ensures { result.now ≡ self.now.held }
    {
        &self.buffer[self.start..self.end]
    }

    // How many of the bytes that are held stand before the first byte 10.
    fn line_end(&self) -> Option<usize>
        ensures { MatchOption result (Unended self.now.held) (EndsAt self.now.held) }
    {
        match first_line(self.held()) {
            Some((line, _)) => Some(line.len()),
            None => None,
        }
    }

    // The line whose last bytes are so many of those that are held, all others being in the front.
    fn joined_line(&self, mut front: Vec<u8>, end: usize) -> Result<Line, LineFault>
        requires { end ≤ length self.now.held }
        ensures { IsRead (front.items ++ take end self.now.held) result }
    {
        let last = &self.held()[..end];
        if front.is_empty() {
            return read_line(self.alloc, last);
        }
        front.extend_from_slice(last)?;
        read_line(self.alloc, &front)
    }

    // Reads the line whose front was taken before, and of which so many bytes that are held are
    // the last ones.
    fn ended_line(&mut self, front: Vec<u8>, end: usize) -> NextLine
        requires { EndsAt self.old.held end }
        ensures read { (old : Reader) (held : Option (List ℕ)) → IsBehind old front.items self.old →
            HasFrontHeld old.place front.items self.old.held held → AnswersNext old held result self.new }
        ensures turn { (old : Reader) → IsBehind old front.items self.old → UsesLine old result self.new }
        ensures own { (result ≢ NextLine.Absent) × (result ≢ NextLine.Failed) }
    {
        if self.place + end as u64 >= LARGEST_LOG {
            return NextLine::Past;
        }
        match self.joined_line(front, end) {
            Ok(line) => {
                self.skip(end + 1);
                NextLine::Line(line)
            }
            Err(LineFault::Form) => NextLine::Form,
            Err(LineFault::Memory) => NextLine::Memory,
        }
    }

    // Lets go of so many bytes that are held.
    fn skip(&mut self, count: usize)
        requires held { count ≤ length self.old.held }
        requires within { self.old.place + count ≤ largest_log }
        ensures { self.new ≡ record self.old { place = self.old.place + count; held = drop count self.old.held } }
    {
        self.start += count;
        self.place += count as u64;
    }

    // Whether the bytes that are held go past the largest size.
    fn is_past(&self) -> bool
        ensures { result ≡ nat_lt largest_log (self.now.place + length self.now.held) }
    {
        self.place + (self.end - self.start) as u64 > LARGEST_LOG
    }

    // Takes all bytes that are held.
    fn take_held(&mut self, front: &mut Vec<u8>) -> Result<(), AllocError>
        requires { self.old.place + length self.old.held ≤ largest_log }
        ensures bytes { OnOk result (front.new.items ≡ front.old.items ++ self.old.held) }
        ensures moved { OnOk result (self.new
            ≡ record self.old { place = self.old.place + length self.old.held; held = [] }) }
    {
        front.extend_from_slice(self.held())?;
        self.place += (self.end - self.start) as u64;
        self.start = 0;
        self.end = 0;
        Ok(())
    }

    // Holds the bytes of the next piece alone, and gives their number.
    fn fill<F: Files>(&mut self, files: &mut F, name: &str) -> Result<usize, FileFault>
        ensures place { self.new.place ≡ self.old.place }
        ensures size { self.new.size ≡ self.old.size }
        ensures number { IfOk result (λ n. n ≡ length self.new.held) }
        ensures bytes { IsTrue (F.tells files.old) → IfOk result (λ n.
            IsSomeAnd (F.held files.old name.now) (IsFilled self.old.place self.new.held)) }

        ensures absent { IsErrOf result FileFault.Absent → Rose (F.absences files.old) (F.absences files.new) }
        ensures missing { IsTrue (F.tells files.old) → IsErrOf result FileFault.Absent →
            F.held files.old name.now ≡ None }
        ensures failed { IsErrOf result FileFault.Failed → Rose (F.faults files.old) (F.faults files.new) }

        ensures stays { AllStay (F.held files.old) (F.held files.new) }
        ensures failed_starts { F.failed_starts files.new ≡ F.failed_starts files.old }
        ensures tells { F.tells files.new ≡ F.tells files.old }
        ensures faults { F.faults files.old ≤ F.faults files.new }
        ensures absences { F.absences files.old ≤ F.absences files.new }
    {
        let n = files.piece(name, self.place, &mut self.buffer)?;
        self.start = 0;
        self.end = n;
        Ok(n)
    }
}

// The answer where the log ends behind this front of a line.
fn unended_line(front: &[u8]) -> NextLine
    ensures { result ≡ if nat_eq (length front.now) 0 then NextLine.End else NextLine.Form }
{
    if front.is_empty() {
        NextLine::End
    } else {
        NextLine::Form
    }
}
