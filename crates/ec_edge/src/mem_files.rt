//! Files in memory.
ghost use Rattle.std.specs.Prelude.{◌≡◌, ◌≢◌, ◌≤◌, ◌<◌, ◌^◌, ◌-◌, ◌↔◌, [], ℕ, List, Option, Some, None, length, true, IfOk, IsSomeAnd, IsErrOf, OnOk, OnErr};
ghost use Rattle.std.specs.Option.{option_copied};
ghost use Rattle.ec_edge.specs.Causes.{Rose};
ghost use Rattle.ec_edge.specs.Memory.{first_half, no_tally, tallied, tallied_start};
ghost use Rattle.ec_edge.specs.Pieces.{IsPiece, AllStay, OthersStay, appended, AppendsHeldPrefix};
ghost use Rattle.ec_edge.specs.Plan.{after_call, failing_too, FailsNext};

use crate::calls::Calls;
use crate::half::first_half;
use crate::{FileFault, Files};
use std::alloc::{AllocError, Global};
use std::collections::BTreeMap;

/// Files in memory, which tell what they hold, and of which single calls can be set to fail.
#[derive(Drop)]
pub struct MemFiles {
    alloc: Global,
    files: BTreeMap<String, Vec<u8>>,
    pieces: Calls,
    starts: Calls,
    appends: Calls,
    faults: u64,
    absences: u64,
    failed_starts: u64,
}

impl MemFiles {
    ghost use Rattle.ec_edge.specs.Held.{held_in, tally_of};

    /// Files that hold no name, and of which no call is set to fail.
    pub fn new(alloc: Global) -> MemFiles
        ensures empty { (name : List ℕ) → held_in result name ≡ None }
        ensures tally { tally_of result ≡ no_tally }
    {
        MemFiles {
            alloc,
            files: BTreeMap::new(alloc),
            pieces: Calls::new(alloc),
            starts: Calls::new(alloc),
            appends: Calls::new(alloc),
            faults: 0,
            absences: 0,
            failed_starts: 0,
        }
    }

    /// Makes the name hold exactly these bytes, of which it keeps a copy.
    #[tactic(auto, using(std::proofs::lemmas::Map::Text::text_keys))]
    pub fn hold(&mut self, name: &str, bytes: &[u8]) -> Result<(), AllocError>
        ensures held { OnOk result (held_in self.new name.now ≡ Some bytes.now) }
        ensures others { OthersStay name.now (held_in self.old) (held_in self.new) }
        ensures err { OnErr result (AllStay (held_in self.old) (held_in self.new)) }
        ensures tally { tally_of self.new ≡ tally_of self.old }
    {
        let key = String::from_str(self.alloc, name)?;
        let value = Vec::from_slice(self.alloc, bytes)?;
        self.files.insert(key, value)?;
        Ok(())
    }

    /// The bytes that the name holds, or none where it is not held.
    pub fn bytes_of(&self, name: &str) -> Option<&[u8]>
        ensures { option_copied result ≡ held_in self.now name.now }
    {
        match self.files.get(name) {
            Some(bytes) => Some(bytes.as_slice()),
            None => None,
        }
    }

    /// Sets the n-th call of `piece` since `new`, counted from 1, to fail.
    pub fn fail_piece(&mut self, n: u64) -> Result<(), AllocError>
        requires { n < 2 ^ 64 - 1 }
        ensures set { let old = tally_of self.old in
            OnOk result (tally_of self.new ≡ record old { pieces = failing_too old.pieces n }) }
        ensures err { OnErr result (tally_of self.new ≡ tally_of self.old) }
        ensures stays { AllStay (held_in self.old) (held_in self.new) }
    {
        self.pieces.fail(n)
    }

    /// Sets the n-th call of `start` since `new`, counted from 1, to fail.
    pub fn fail_start(&mut self, n: u64) -> Result<(), AllocError>
        requires { n < 2 ^ 64 - 1 }
        ensures set { let old = tally_of self.old in
            OnOk result (tally_of self.new ≡ record old { starts = failing_too old.starts n }) }
        ensures err { OnErr result (tally_of self.new ≡ tally_of self.old) }
        ensures stays { AllStay (held_in self.old) (held_in self.new) }
    {
        self.starts.fail(n)
    }

    /// Sets the n-th call of `append` since `new`, counted from 1, to fail.
    pub fn fail_append(&mut self, n: u64) -> Result<(), AllocError>
        requires { n < 2 ^ 64 - 1 }
        ensures set { let old = tally_of self.old in
            OnOk result (tally_of self.new ≡ record old { appends = failing_too old.appends n }) }
        ensures err { OnErr result (tally_of self.new ≡ tally_of self.old) }
        ensures stays { AllStay (held_in self.old) (held_in self.new) }
    {
        self.appends.fail(n)
    }

    // Adds a piece to what a held name holds.
    #[tactic(auto, using(std::proofs::lemmas::Map::Text::text_keys))]
    fn extend(&mut self, name: &str, piece: &[u8]) -> Result<(), AllocError>
        requires { held_in self.old name.now ≢ None }
        ensures ok { OnOk result
            (held_in self.new name.now ≡ appended (held_in self.old name.now) piece.now) }
        ensures others { OthersStay name.now (held_in self.old) (held_in self.new) }
        ensures err { OnErr result (AllStay (held_in self.old) (held_in self.new)) }
        ensures tally { tally_of self.new ≡ tally_of self.old }
    {
        let Some(bytes) = self.files.get_mut(name) else {
            unreachable!()
        };
        bytes.extend_from_slice(piece)?;
        Ok(())
    }
}

// Copies the bytes from an offset on, as many as there are and as the buffer takes.
fn copy_piece(bytes: &[u8], at: u64, buf: &mut [u8]) -> usize
    ensures bound { result ≤ length buf.new }
    ensures piece { IsPiece bytes.now at buf.new result }
{
    let at = at as usize;
    if at >= bytes.len() {
        return 0;
    }
    let rest = &bytes[at..];
    let n = rest.len().min(buf.len());
    buf[..n].copy_from_slice(&rest[..n]);
    n
}

impl Files for MemFiles {
    ghost use Rattle.ec_edge.specs.Held.{held_in, tally_of};

    ghost tells = { λ _. true };

    ghost held = { held_in };

    ghost faults = { λ m. (tally_of m).faults };

    ghost absences = { λ m. (tally_of m).absences };

    ghost failed_starts = { λ m. (tally_of m).failed_starts };

    /// It takes no memory, and gives all bytes that there are room for.
    fn piece(&mut self, name: &str, at: u64, buf: &mut [u8]) -> Result<usize, FileFault>
        ensures bound { IfOk result (λ n. n ≤ length buf.new) }
        ensures bytes { IfOk result (λ n.
            IsSomeAnd (held_in self.old name.now) (λ bytes. IsPiece bytes at buf.new n)) }
        ensures stays { AllStay (held_in self.old) (held_in self.new) }
        ensures missing { IsErrOf result FileFault.Absent → held_in self.old name.now ≡ None }
        ensures never_memory { IsErrOf result FileFault.Memory → ⊥ }

        // A call fails exactly where it is set to.
        ensures fails { IsErrOf result FileFault.Failed ↔ FailsNext (tally_of self.old).pieces }
        ensures tally { let old = tally_of self.old in
            tally_of self.new ≡ tallied (record old { pieces = after_call old.pieces }) result }

        ensures absent { IsErrOf result FileFault.Absent →
            Rose (tally_of self.old).absences (tally_of self.new).absences }
        ensures failed { IsErrOf result FileFault.Failed →
            Rose (tally_of self.old).faults (tally_of self.new).faults }
        ensures faults { (tally_of self.old).faults ≤ (tally_of self.new).faults }
        ensures absences { (tally_of self.old).absences ≤ (tally_of self.new).absences }
    {
        if self.pieces.next_fails() {
            self.faults = self.faults.saturating_add(1);
            return Err(FileFault::Failed);
        }
        match self.files.get(name) {
            Some(bytes) => Ok(copy_piece(bytes, at, buf)),
            None => {
                self.absences = self.absences.saturating_add(1);
                Err(FileFault::Absent)
            }
        }
    }

    /// A call that is set to fail changes nothing that is held.
    fn start(&mut self, name: &str) -> Result<(), FileFault>
        ensures ok { OnOk result (held_in self.new name.now ≡ Some []) }
        ensures others { OthersStay name.now (held_in self.old) (held_in self.new) }
        ensures err { OnErr result (AllStay (held_in self.old) (held_in self.new)) }
        ensures never_absent { IsErrOf result FileFault.Absent → ⊥ }

        // A call fails only where it is set to, and a call that is set to fail is not answered by Ok.
        ensures only_set { IsErrOf result FileFault.Failed → FailsNext (tally_of self.old).starts }
        ensures fails { OnOk result (¬ FailsNext (tally_of self.old).starts) }
        ensures tally { let old = tally_of self.old in
            tally_of self.new ≡ tallied_start (record old { starts = after_call old.starts }) result }

        ensures failed { IsErrOf result FileFault.Failed →
            Rose (tally_of self.old).faults (tally_of self.new).faults }
        ensures counted { IsErrOf result FileFault.Failed →
            Rose (tally_of self.old).failed_starts (tally_of self.new).failed_starts }
        ensures failed_starts { (tally_of self.old).failed_starts ≤ (tally_of self.new).failed_starts }
        ensures faults { (tally_of self.old).faults ≤ (tally_of self.new).faults }
        ensures absences { (tally_of self.old).absences ≤ (tally_of self.new).absences }
    {
        if self.starts.next_fails() {
            self.faults = self.faults.saturating_add(1);
            self.failed_starts = self.failed_starts.saturating_add(1);
            return Err(FileFault::Failed);
        }
        self.hold(name, &[])?;
        Ok(())
    }

    /// A call that is set to fail adds the first half of the piece, rounded down.
    fn append(&mut self, name: &str, piece: &[u8]) -> Result<(), FileFault>
        requires { held_in self.old name.now ≢ None }
        ensures ok { OnOk result
            (held_in self.new name.now ≡ appended (held_in self.old name.now) piece.now) }
        ensures half { IsErrOf result FileFault.Failed →
            held_in self.new name.now ≡ appended (held_in self.old name.now) (first_half piece.now) }
        ensures memory { IsErrOf result FileFault.Memory → AllStay (held_in self.old) (held_in self.new) }
        ensures others { OthersStay name.now (held_in self.old) (held_in self.new) }
        ensures never_absent { IsErrOf result FileFault.Absent → ⊥ }

        // A call fails only where it is set to, and a call that is set to fail is not answered by Ok.
        ensures only_set { IsErrOf result FileFault.Failed → FailsNext (tally_of self.old).appends }
        ensures fails { OnOk result (¬ FailsNext (tally_of self.old).appends) }
        ensures tally { let old = tally_of self.old in
            tally_of self.new ≡ tallied (record old { appends = after_call old.appends }) result }

        ensures part { IsErrOf result FileFault.Failed →
            AppendsHeldPrefix piece.now (held_in self.old name.now) (held_in self.new name.now) }
        ensures failed { IsErrOf result FileFault.Failed →
            Rose (tally_of self.old).faults (tally_of self.new).faults }
        ensures faults { (tally_of self.old).faults ≤ (tally_of self.new).faults }
        ensures absences { (tally_of self.old).absences ≤ (tally_of self.new).absences }
    {
        if self.appends.next_fails() {
            self.extend(name, first_half(piece))?;
            self.faults = self.faults.saturating_add(1);
            return Err(FileFault::Failed);
        }
        self.extend(name, piece)?;
        Ok(())
    }
}
