//! From a root file to its theory.
ghost use Rattle.std.specs.Prelude.{◌≡◌, ◌≤◌, ℕ, List, length, Option, Result, IsTrue, IfOk, Err, Ok};
ghost use Rattle.ec_edge.specs.Causes.{Rose};
ghost use Rattle.ec_edge.specs.Pieces.{AllStay};
ghost use Rattle.ec_load.specs.Book.{IsBook};
ghost use Rattle.ec_load.specs.Sound.{IsSound};
ghost use Rattle.ec_logic.specs.Theory as logic;
ghost use Rattle.ec_logic.specs.ValidTheory.{IsValidTheory};
ghost use Rattle.ec_sort.specs.Answers.{CanBeSplit};
ghost use Rattle.ec_syntax.specs.declared.book.Refusal.{Refusal};
ghost use Rattle.ec_syntax.specs.View.{book_of};
ghost use Rattle.ec_theory.specs.Theories.{theory_of};
ghost use Rattle.ec_weight.specs.Weight.{weight_of};
ghost use Rattle.ec_split.specs.Parts.{parts_of};
ghost use Rattle.ec_split.specs.Split.{split_of};
ghost use Rattle.ec_accept.specs.Accepted.{HasFiles, HasParts, IsAccepted, IsSaid, IsSplitInto, SaysParts, visible_count};
ghost use Rattle.ec_accept.specs.Answers.{Answers};
ghost use Rattle.ec_accept.specs.Steps.{FailsByText, Gives, Measures, Numbers, Sorts, Weighs};

use crate::fault::{AcceptFault, too_heavy, too_many};
use ec_atom::{AtomFault, Atoms};
use ec_edge::Files;
use ec_lex::word::Word;
use ec_load::{LoadFault, load};
use ec_sort::{SortFault, check};
use ec_split::{SplitFault, split};
use ec_syntax::book::Book;
use ec_theory::{Sorted, Theory};
use ec_weight::weight_of;
use std::alloc::Global;

/// The greatest weight of a theory, which bounds the work that it may make.
const WEIGHT_LIMIT: u64 = 4_000_000;

/// A theory with the numbers of its atoms and the files that say it.
#[derive(Drop)]
pub struct Accepted {
    /// The theory that the root file and its loads say.
    pub theory: Theory,
    /// The numbers of its atoms.
    pub atoms: Atoms,
    /// The files that the root's book has, in the order in which they were read, the root first.
    pub files: Vec<Word>,
}

/// A theory beside the numbers of its atoms.
#[derive(Drop)]
struct NumberedTheory {
    theory: Theory,
    atoms: Atoms,
}

/// The book of the root.
fn read<F: Files>(alloc: Global, files: &mut F, root: &str) -> Result<Book, AcceptFault>
    ensures book { IsTrue (F.tells files.old) → Gives book_of (IsBook (F.held files.old) root.now) result }
    ensures sound { IfOk result (λ book. IsSound (book_of book)) }
    ensures failed { result ≡ Err AcceptFault.Files → Rose (F.faults files.old) (F.faults files.new) }
    ensures absent { (r : Refusal) → result ≡ Err (AcceptFault.Refused r) → r.code ≡ 1 → Rose (F.absences files.old) (F.absences files.new) }
    ensures stays { AllStay (F.held files.old) (F.held files.new) }
    ensures failed_starts { F.failed_starts files.new ≡ F.failed_starts files.old }
    ensures tells { F.tells files.new ≡ F.tells files.old }
    ensures faults { F.faults files.old ≤ F.faults files.new }
    ensures absences { F.absences files.old ≤ F.absences files.new }
{
    match load(alloc, files, root) {
        Ok(book) => Ok(book),
        Err(LoadFault::Refused(refusal)) => Err(AcceptFault::Refused(refusal)),
        Err(LoadFault::Files) => Err(AcceptFault::Files),
        Err(LoadFault::Memory) => Err(AcceptFault::Memory),
    }
}

/// Its signature, its sentences and its completion statements.
fn sorted(alloc: Global, book: &Book) -> Result<Sorted, AcceptFault>
    requires { IsSound (book_of book.now) }
    ensures sorts { Sorts (book_of book.now) result }
    ensures splits { IfOk result CanBeSplit }
    ensures text { FailsByText result }
{
    match check(alloc, book) {
        Ok(sorted) => Ok(sorted),
        Err(SortFault::Refused(refusal)) => Err(AcceptFault::Refused(refusal)),
        Err(SortFault::Memory) => Err(AcceptFault::Memory),
    }
}

/// The groups of the sentences.
fn split_into(alloc: Global, sorted: Sorted) -> Result<Theory, AcceptFault>
    requires { CanBeSplit sorted }
    ensures splits { Gives theory_of (IsSplitInto sorted) result }
    ensures parts { IfOk result (λ theory. split_of sorted.signature sorted.labelled.items sorted.wanted.items ≡ Ok (parts_of theory)) }
    ensures valid { IfOk result (λ theory. IsValidTheory (theory_of theory)) }
    ensures text { FailsByText result }
{
    match split(alloc, sorted) {
        Ok(theory) => Ok(theory),
        Err(SplitFault::Refused(refusal)) => Err(AcceptFault::Refused(refusal)),
        Err(SplitFault::Memory) => Err(AcceptFault::Memory),
    }
}

/// The theory that a book says.
fn said(alloc: Global, book: &Book) -> Result<Theory, AcceptFault>
    requires { IsSound (book_of book.now) }
    ensures says { Gives theory_of (IsSaid (book_of book.now)) result }
    ensures parts { IfOk result (λ theory. SaysParts (book_of book.now) (parts_of theory)) }
    ensures valid { IfOk result (λ theory. IsValidTheory (theory_of theory)) }
    ensures text { FailsByText result }
{
    match sorted(alloc, book) {
        Ok(sorted) => split_into(alloc, sorted),
        Err(fault) => Err(fault),
    }
}

/// The theory beside the numbers of its atoms.
fn numbered(alloc: Global, theory: Theory, root: &str) -> Result<NumberedTheory, AcceptFault>
    ensures numbers { Numbers root.now theory result }
    ensures text { FailsByText result }
{
    match Atoms::number(alloc, &theory) {
        Ok(atoms) => Ok(NumberedTheory { theory, atoms }),
        Err(AtomFault::TooMany) => Err(too_many(alloc, root)),
        Err(AtomFault::Memory) => Err(AcceptFault::Memory),
    }
}

/// The theory, if it isn't too heavy.
fn weighed(
    alloc: Global,
    numbered: NumberedTheory,
    root: &str,
) -> Result<NumberedTheory, AcceptFault>
    ensures weighs { Weighs root.now numbered result }
    ensures text { FailsByText result }
{
    match weight_of(alloc, &numbered.theory) {
        Ok(weight) if weight > WEIGHT_LIMIT => Err(too_heavy(alloc, root)),
        Ok(_) => Ok(numbered),
        Err(_) => Err(AcceptFault::Memory),
    }
}

/// The theory beside the numbers of its atoms, if it isn't too large.
fn measured(alloc: Global, theory: Theory, root: &str) -> Result<NumberedTheory, AcceptFault>
    ensures measures { Measures root.now theory result }
    ensures text { FailsByText result }
{
    match numbered(alloc, theory, root) {
        Ok(numbered) => weighed(alloc, numbered, root),
        Err(fault) => Err(fault),
    }
}

/// The theory of a root file, or its first refusal.
///
/// The refusals come in this order: those of the load, the first fault of a declaration or a sentence in
/// book order, completion statements of no predicate (18) or of one that is in another group (17), sentences
/// of a group that aren't clause trees (16), more than 262,144 visible atoms (20), a weight over 4,000,000
/// (19). Time and memory grow with the files' bytes; no atom is made.
pub fn accept<F: Files>(alloc: Global, files: &mut F, root: &str) -> Result<Accepted, AcceptFault>
    ensures accepted { IsTrue (F.tells files.old) → Answers (IsAccepted (F.held files.old) root.now) result }
    ensures valid { IfOk result (λ accepted. IsValidTheory (theory_of accepted.theory)) }
    ensures numbered { IfOk result (λ accepted. accepted.atoms ≡ accepted.theory.signature) }
    ensures few { IfOk result (λ accepted. visible_count (theory_of accepted.theory) ≤ 262144) }
    ensures light { IfOk result (λ accepted. weight_of (theory_of accepted.theory) ≤ 4000000) }
    ensures parts { IsTrue (F.tells files.old) → IfOk result (λ accepted. HasParts (F.held files.old) root.now (parts_of accepted.theory)) }
    ensures files { IsTrue (F.tells files.old) → IfOk result (λ accepted. HasFiles (F.held files.old) root.now accepted.files.items) }
    ensures few_files { IfOk result (λ accepted. length accepted.files.items ≤ 64) }
    ensures failed { result ≡ Err AcceptFault.Files → Rose (F.faults files.old) (F.faults files.new) }
    ensures absent { (r : Refusal) → result ≡ Err (AcceptFault.Refused r) → r.code ≡ 1 → Rose (F.absences files.old) (F.absences files.new) }
    ensures stays { AllStay (F.held files.old) (F.held files.new) }
    ensures failed_starts { F.failed_starts files.new ≡ F.failed_starts files.old }
    ensures tells { F.tells files.new ≡ F.tells files.old }
    ensures faults { F.faults files.old ≤ F.faults files.new }
    ensures absences { F.absences files.old ≤ F.absences files.new }
{
    let book = read(alloc, files, root)?;
    let theory = said(alloc, &book)?;
    let measured = measured(alloc, theory, root)?;
    Ok(Accepted {
        theory: measured.theory,
        atoms: measured.atoms,
        files: book.files,
    })
}

/// A root has one theory at most, or one first refusal.
pub fn one_answer()
    ensures { (held : List ℕ → Option (List ℕ)) (root : List ℕ) (a b : Result logic.Theory Refusal) → IsAccepted held root a → IsAccepted held root b → a ≡ b }
{}

/// A root has one list of files at most.
pub fn one_list_of_files()
    ensures { (held : List ℕ → Option (List ℕ)) (root : List ℕ) (files others : List (List ℕ)) → HasFiles held root files → HasFiles held root others → files ≡ others }
{}
