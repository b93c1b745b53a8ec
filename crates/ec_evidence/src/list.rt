//! The list: read from its file, and its truths audited.
ghost use Rattle.std.specs.Prelude.{◌≡◌, ◌≤◌, ◌+◌, IfOk, IsTrue, Err, nat_lt, vec_len};
ghost use Rattle.ec_edge.specs.Causes.{Rose};
ghost use Rattle.ec_edge.specs.Pieces.{AllStay};
ghost use Rattle.ec_evidence.specs.Found.{largest_list};
ghost use Rattle.ec_evidence.specs.Steps.{AreListed, AuditsTo, IsCut, IsOfText, ReadsTo, ReadsWithin, TellsTooLong};
ghost use Rattle.ec_logic.specs.ValidTheory.{IsValidTheory};
ghost use Rattle.ec_theory.specs.Theories.{theory_of};
ghost use Rattle.ec_weight.specs.Weight.{weight_of};

use crate::finding::{Finding, Reason};
use ec_atom::Atoms;
use ec_audit::first_untrue;
use ec_clause::clauses::Clauses;
use ec_edge::{FileFault, Files, Whole, first_line, read_whole};
use ec_ground::{GroundFault, ground};
use ec_narr::{ListFault, Listed, read_list};
use ec_solve::list_of;
use ec_theory::Theory;
use std::alloc::Global;

/// A list has at most so many bytes.
const MOST_BYTES: u32 = 67_108_864;

// The whole lines at the front of a text, and their number.
#[derive(Clone, Copy)]
struct Lines<'a> {
    text: &'a [u8],
    count: u64,
}

// The lines that a text has before what has no end.
fn whole_lines(text: &[u8]) -> Lines<'_>
    ensures { IsCut text.now result.text.now result.count }
{
    let mut rest = text;
    let mut count = 0;
    while let Some((_, after)) = first_line(rest) {
        count += 1;
        rest = after;
    }
    let (front, _) = text.split_at(text.len() - rest.len());
    Lines { text: front, count }
}

// What is wrong first with a list of more bytes than it may have, whose whole lines within its size are these: a line among them, or the one
// behind them, in which the size is passed.
fn too_long(alloc: Global, theory: &Theory, atoms: &Atoms, lines: Lines<'_>) -> Finding
    requires valid { IsValidTheory (theory_of theory.now) }
    requires of { atoms.now ≡ theory.now.signature }
    requires few { lines.count ≤ 67108864 }
    ensures { TellsTooLong theory.now.signature lines.entry.text.now lines.entry.count result }
{
    let passing = lines.count + 1;
    let Err(fault) = read_list(alloc, theory, atoms, lines.text) else {
        return Finding::No(Reason::List(passing));
    };
    match fault {
        ListFault::Line(line) => Finding::No(Reason::List(line.min(passing))),
        ListFault::Memory => Finding::Memory,
    }
}

// The list that a file's bytes tell, which are all of them or those up to one past the size of a list.
fn list_in(alloc: Global, theory: &Theory, atoms: &Atoms, whole: &Whole) -> Result<Listed, Finding>
    requires valid { IsValidTheory (theory_of theory.now) }
    requires of { atoms.now ≡ theory.now.signature }
    requires length { vec_len whole.now.bytes ≤ largest_list + 1 }
    requires past { whole.now.past ≡ nat_lt largest_list (vec_len whole.now.bytes) }
    ensures reads { ReadsWithin theory.now.signature whole.now result }
    ensures text { IsOfText result }
    ensures fit { IfOk result (AreListed theory.now.signature) }
{
    if whole.past {
        let (within, _) = whole.bytes.split_at(MOST_BYTES as usize);
        return Err(too_long(alloc, theory, atoms, whole_lines(within)));
    }
    match read_list(alloc, theory, atoms, &whole.bytes) {
        Ok(listed) => Ok(listed),
        Err(ListFault::Line(line)) => Err(Finding::No(Reason::List(line))),
        Err(ListFault::Memory) => Err(Finding::Memory),
    }
}

/// The list that a name holds, or what is wrong with it.
pub(crate) fn read_listed<F: Files>(
    alloc: Global,
    files: &mut F,
    theory: &Theory,
    atoms: &Atoms,
    list: &str,
) -> Result<Listed, Finding>
    requires valid { IsValidTheory (theory_of theory.now) }
    requires of { atoms.now ≡ theory.now.signature }
    ensures reads { IsTrue (F.tells files.old) → ReadsTo (F.held files.old) list.now (theory_of theory.now) result }
    ensures fit { IfOk result (AreListed theory.now.signature) }
    ensures failed { result ≡ Err Finding.Files → Rose (F.faults files.old) (F.faults files.new) }
    ensures no_list { result ≡ Err Finding.NoList → Rose (F.absences files.old) (F.absences files.new) }
    ensures no_log { result ≡ Err Finding.NoLog → ⊥ }
    ensures stays { AllStay (F.held files.old) (F.held files.new) }

    ensures tells { F.tells files.new ≡ F.tells files.old }
    ensures faults { F.faults files.old ≤ F.faults files.new }
    ensures absences { F.absences files.old ≤ F.absences files.new }
    ensures failed_starts { F.failed_starts files.new ≡ F.failed_starts files.old }
{
    match read_whole(alloc, files, list, MOST_BYTES) {
        Ok(whole) => list_in(alloc, theory, atoms, &whole),
        Err(FileFault::Absent) => Err(Finding::NoList),
        Err(FileFault::Failed) => Err(Finding::Files),
        Err(FileFault::Memory) => Err(Finding::Memory),
    }
}

/// The clause list of a theory, where each truth of a list is that of a minimal model; else the first that isn't.
pub(crate) fn audited(
    alloc: Global,
    theory: &Theory,
    atoms: &Atoms,
    listed: &Listed,
) -> Result<Clauses, Finding>
    requires valid { IsValidTheory (theory_of theory.now) }
    requires of { atoms.now ≡ theory.now.signature }
    requires light { weight_of (theory_of theory.now) ≤ 4000000 }
    requires fit { AreListed theory.now.signature listed.now }
    ensures audits { AuditsTo (theory_of theory.now) listed.now result }
    ensures text { IsOfText result }
{
    let grounded = match ground(alloc, theory, atoms) {
        Ok(grounded) => grounded,
        Err(GroundFault::TooHeavy) => unreachable!(),
        Err(GroundFault::Memory) => return Err(Finding::Memory),
    };
    match first_untrue(alloc, theory, atoms, &grounded, &listed.models) {
        Ok(None) => match list_of(alloc, &grounded, atoms.visible()) {
            Ok(list) => Ok(list.clauses),
            Err(_) => Err(Finding::Memory),
        },
        Ok(Some(failing)) => Err(Finding::No(Reason::Model {
            number: failing.number,
            part: failing.part,
        })),
        Err(_) => Err(Finding::Memory),
    }
}
