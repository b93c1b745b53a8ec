//! The walk over the files of a book.
ghost use Rattle.std.specs.Prelude.{◌≡◌, ◌≤◌, ◌<◌, ◌∷◌, [], ℕ, List, Option, None, Some, Err, false, length, map, nat_eq, option_map, IsTrue, IfOk, OnOk, All};
ghost use Rattle.std.specs.List.{list_any};
ghost use Rattle.std.specs.Cmp.Lexicographic.{pointwise};
ghost use Rattle.ec_edge.specs.Causes.{Rose};
ghost use Rattle.ec_edge.specs.Pieces.{AllStay};
ghost use Rattle.ec_syntax.specs.declared.book.Refusal.{Refusal};
ghost use Rattle.ec_syntax.specs.View.{book_of, statement_of, content_of};
ghost use Rattle.ec_load.specs.Refusals.{in_file};
ghost use Rattle.ec_load.specs.Book.{load_of, Loads, ComeTo, IsBook, Found};
ghost use Rattle.ec_load.specs.Gathered.{gathered};
ghost use Rattle.ec_load.specs.Sound.{AreNamed, IsGathered, IsSound, IsWithin, counted};
ghost use Rattle.ec_load.specs.Answers.{Answers, Walks, StepsTo, FailsByCause, statements_of};

use crate::fault::LoadFault;
use crate::gathering::Gathering;
use crate::opening::opened;
use crate::part::{Part, part_of};
use crate::refusals::{copied, refused_file};
use ec_edge::Files;
use ec_lex::word::Word;
use ec_syntax::book::Book;
use ec_syntax::statement::Statement;
use std::alloc::Global;

/// A book has at most so many files.
const MOST_FILES: u32 = 64;

/// Adds a file that is asked for at a line of another file, and what it loads.
///
/// Each file that is read counts, so files can nest no deeper than 64.
#[cycle(walk)]
fn add_file<F: Files>(
    alloc: Global,
    files: &mut F,
    book: &mut Gathering,
    from: &Word,
    line: u32,
    file: &Word,
) -> Result<(), LoadFault>
    requires sound { IsGathered (gathered book.old) }
    requires fresh { list_any (pointwise nat_eq file.now) (gathered book.old).files ≡ false }
    ensures comes { IsTrue (F.tells files.old) → (held : List ℕ → Option (List ℕ)) → AllStay held (F.held files.old) →
        Walks (Loads held (gathered book.old).files (in_file from.now line) file.now) (gathered book.old) (gathered book.new) result }
    ensures cause { FailsByCause (F.faults files.old) (F.faults files.new) (F.absences files.old) (F.absences files.new) result }
    ensures sound { OnOk result (IsGathered (gathered book.new)) }
    ensures grows { OnOk result (length (gathered book.old).files < length (gathered book.new).files) }
    ensures few { OnOk result (IsWithin 0 (gathered book.old) (gathered book.new)) }
    ensures stays { AllStay (F.held files.old) (F.held files.new) }
    ensures failed_starts { F.failed_starts files.new ≡ F.failed_starts files.old }
    ensures tells { F.tells files.new ≡ F.tells files.old }
    ensures faults { F.faults files.old ≤ F.faults files.new }
    ensures absences { F.absences files.old ≤ F.absences files.new }
{
    let number = book.files();
    if number >= MOST_FILES {
        return Err(refused_file(4, from, line, file));
    }
    let statements = opened(alloc, files, from, line, file)?;
    book.add_file(copied(file)?)?;
    add_statements(alloc, files, book, number, file, statements)
}

/// Adds a statement, or what it loads in its place.
#[cycle(walk)]
fn add_statement<F: Files>(
    alloc: Global,
    files: &mut F,
    book: &mut Gathering,
    number: u32,
    file: &Word,
    statement: Statement,
) -> Result<(), LoadFault>
    requires sound { IsGathered (gathered book.old) }
    requires number { number < length (gathered book.old).files }
    requires named { AreNamed (statement_of statement) }
    ensures comes { IsTrue (F.tells files.old) → (held : List ℕ → Option (List ℕ)) → AllStay held (F.held files.old) →
        StepsTo held number file.now (statement_of statement) (gathered book.old) (gathered book.new) result }
    ensures cause { FailsByCause (F.faults files.old) (F.faults files.new) (F.absences files.old) (F.absences files.new) result }
    ensures sound { OnOk result (IsGathered (gathered book.new)) }
    ensures grows { OnOk result (length (gathered book.old).files ≤ length (gathered book.new).files) }
    ensures few { OnOk result (IsWithin (counted (statement_of statement ∷ [])) (gathered book.old) (gathered book.new)) }
    ensures stays { AllStay (F.held files.old) (F.held files.new) }
    ensures failed_starts { F.failed_starts files.new ≡ F.failed_starts files.old }
    ensures tells { F.tells files.new ≡ F.tells files.old }
    ensures faults { F.faults files.old ≤ F.faults files.new }
    ensures absences { F.absences files.old ≤ F.absences files.new }
{
    match part_of(statement) {
        Part::Load { line, file: other } => {
            if book.passes(&other) {
                return Ok(());
            }
            add_file(alloc, files, book, file, line, &other)
        }
        Part::Own(statement) => {
            book.add(number, statement)?;
            Ok(())
        }
    }
}

/// Adds the statements of a file, and what they load.
#[cycle(walk)]
fn add_statements<F: Files>(
    alloc: Global,
    files: &mut F,
    book: &mut Gathering,
    number: u32,
    file: &Word,
    statements: Vec<Statement>,
) -> Result<(), LoadFault>
    requires sound { IsGathered (gathered book.old) }
    requires number { number < length (gathered book.old).files }
    requires named { All AreNamed (statements_of statements) }
    ensures comes { IsTrue (F.tells files.old) → (held : List ℕ → Option (List ℕ)) → AllStay held (F.held files.old) →
        Walks (ComeTo held (gathered book.old).files number file.now (statements_of statements)) (gathered book.old) (gathered book.new) result }
    ensures cause { FailsByCause (F.faults files.old) (F.faults files.new) (F.absences files.old) (F.absences files.new) result }
    ensures sound { OnOk result (IsGathered (gathered book.new)) }
    ensures grows { OnOk result (length (gathered book.old).files ≤ length (gathered book.new).files) }
    ensures few { OnOk result (IsWithin (counted (statements_of statements)) (gathered book.old) (gathered book.new)) }
    ensures stays { AllStay (F.held files.old) (F.held files.new) }
    ensures failed_starts { F.failed_starts files.new ≡ F.failed_starts files.old }
    ensures tells { F.tells files.new ≡ F.tells files.old }
    ensures faults { F.faults files.old ≤ F.faults files.new }
    ensures absences { F.absences files.old ≤ F.absences files.new }
{
    for statement in statements {
        add_statement(alloc, files, book, number, file, statement)?;
    }
    Ok(())
}

/// The book of a root file: its statements, with those of each file that it loads in the place of the load.
///
/// Each name is read once, in one pass over the files, at most 64; the root and each other file take at
/// most 1,048,577 bytes. Time and memory grow with the files' bytes. What it answers over files that tell
/// nothing of what they hold is the book, or the first fault, of the bytes that they gave.
pub fn load<F: Files>(alloc: Global, files: &mut F, root: &str) -> Result<Book, LoadFault>
    ensures book { IsTrue (F.tells files.old) → Answers book_of (IsBook (F.held files.old) root.now) result }
    ensures sound { IfOk result (λ book. IsSound (book_of book)) }
    ensures failed { result ≡ Err LoadFault.Files → Rose (F.faults files.old) (F.faults files.new) }
    ensures absent { (r : Refusal) → result ≡ Err (LoadFault.Refused r) → r.code ≡ 1 →
        Rose (F.absences files.old) (F.absences files.new) }
    ensures stays { AllStay (F.held files.old) (F.held files.new) }
    ensures failed_starts { F.failed_starts files.new ≡ F.failed_starts files.old }
    ensures tells { F.tells files.new ≡ F.tells files.old }
    ensures faults { F.faults files.old ≤ F.faults files.new }
    ensures absences { F.absences files.old ≤ F.absences files.new }
{
    let root = Word::of(alloc, root.as_bytes())?;
    let mut book = Gathering::new(alloc);
    add_file(alloc, files, &mut book, &root, 0, &root)?;
    Ok(book.finish()?)
}

/// A root has one book at most, or one first fault.
pub fn one_book()
    ensures { (held : List ℕ → Option (List ℕ)) (root : List ℕ) (r s : Found) → IsBook held root r → IsBook held root s → r ≡ s }
{}
