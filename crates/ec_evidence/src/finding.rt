//! What is found of a list and a log, one after the other.
ghost use Rattle.std.specs.Prelude.{◌≡◌, ◌≤◌, IsTrue, IsErrOf};
ghost use Rattle.ec_edge.specs.Causes.{Rose};
ghost use Rattle.ec_edge.specs.Pieces.{AllStay};
ghost use Rattle.ec_evidence.specs.Found.{IsFound};
ghost use Rattle.ec_logic.specs.ValidTheory.{IsValidTheory};
ghost use Rattle.ec_theory.specs.Theories.{theory_of};
ghost use Rattle.ec_weight.specs.Weight.{weight_of};

use crate::list::{audited, read_listed};
use crate::log::checked;
use ec_atom::Atoms;
use ec_audit::Part;
use ec_clause::ending::Ending;
use ec_edge::Files;
use ec_theory::Theory;
use std::alloc::Global;

/// What is wrong with a list or a log.
#[derive(Clone, Copy, Debug, PartialEq, Eq)]
pub enum Reason {
    /// This line of the list is the first that is faulty. Lines are counted from 1.
    List(u64),
    /// The narrative of this number is the first that isn't that of a minimal model, and this part of the theory is the first that is
    /// untrue in it.
    Model { number: u64, part: Part },
    /// This line of the log is the first that is faulty.
    Log(u64),
}

/// What was found.
#[derive(Clone, Copy, Debug, PartialEq, Eq)]
pub enum Finding {
    /// The list has truths of minimal models alone and ends so, and the log is accepted for it.
    Yes(Ending),
    /// This is wrong first.
    No(Reason),
    /// The list isn't there.
    NoList,
    /// The log isn't there, and nothing is wrong with the list.
    NoLog,
    /// The files failed.
    Files,
    /// There was no memory.
    Memory,
}

/// What a list and a log show of a theory. The list is read first, then each of its truths is audited, and last the log is read.
///
/// Time is that of grounding the theory, linear in the bytes of the list and of the log, and for each narrative at most linear in the
/// visible atoms and the theory's trees. Memory grows with the weight of the theory, the list, and the clauses of the log.
pub fn find<F: Files>(
    alloc: Global,
    files: &mut F,
    theory: &Theory,
    atoms: &Atoms,
    list: &str,
    log: &str,
) -> Finding
    requires valid { IsValidTheory (theory_of theory.now) }
    requires of { atoms.now ≡ theory.now.signature }
    requires light { weight_of (theory_of theory.now) ≤ 4000000 }
    ensures found { IsTrue (F.tells files.old) → IsFound (F.held files.old) list.now log.now (theory_of theory.now) result }
    ensures failed { result ≡ Finding.Files → Rose (F.faults files.old) (F.faults files.new) }
    ensures no_list { result ≡ Finding.NoList → Rose (F.absences files.old) (F.absences files.new) }
    ensures no_log { result ≡ Finding.NoLog → Rose (F.absences files.old) (F.absences files.new) }
    ensures stays { AllStay (F.held files.old) (F.held files.new) }

    ensures tells { F.tells files.new ≡ F.tells files.old }
    ensures faults { F.faults files.old ≤ F.faults files.new }
    ensures absences { F.absences files.old ≤ F.absences files.new }
    ensures failed_starts { F.failed_starts files.new ≡ F.failed_starts files.old }
{
    let listed = match read_listed(alloc, files, theory, atoms, list) {
        Ok(listed) => listed,
        Err(finding) => return finding,
    };
    match audited(alloc, theory, atoms, &listed) {
        Ok(clauses) => checked(alloc, files, log, clauses, &listed),
        Err(finding) => finding,
    }
}
