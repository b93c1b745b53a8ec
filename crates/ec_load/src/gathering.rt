//! What has been read of a book.
ghost use Rattle.std.specs.Prelude.{◌≡◌, ◌<◌, ◌≤◌, ◌∷◌, ◌++◌, [], length, map, None, false, nat_eq, IfOk, OnOk, All};
ghost use Rattle.std.specs.List.{list_any};
ghost use Rattle.std.specs.Cmp.Lexicographic.{pointwise};
ghost use Rattle.ec_syntax.specs.View.{book_of, statement_of};
ghost use Rattle.ec_syntax.specs.Written.{Book};
ghost use Rattle.ec_load.specs.Book.{is_built_in as built_in, is_passed, load_of, placed_at};
ghost use Rattle.ec_load.specs.Gathered.{gathered};
ghost use Rattle.ec_load.specs.Sound.{AreNamed, IsGathered};

use ec_lex::word::Word;
use ec_syntax::book::{Book, Placed};
use ec_syntax::statement::Statement;
use indexmap::IndexSet;
use std::alloc::{AllocError, Global};

/// Whether what the file says is built in, so that no load reads it.
fn is_built_in(file: &[u8]) -> bool
    ensures { result ≡ built_in file.now }
{
    file == b"foundations/Root.e".as_slice()
        || file == b"foundations/EC.e".as_slice()
        || file == b"foundations/DEC.e".as_slice()
}

/// The files that were read, at most 64, and the statements that were come to.
#[derive(Drop)]
pub(crate) struct Gathering {
    files: IndexSet<Word>,
    statements: Vec<Placed>,
}

impl Gathering {
    /// No file and no statement.
    pub(crate) fn new(alloc: Global) -> Gathering
        ensures { gathered result ≡ record { files = []; statements = [] } }
    {
        Gathering {
            files: IndexSet::new(alloc),
            statements: Vec::new(alloc),
        }
    }

    /// How many files were read.
    pub(crate) fn files(&self) -> u32
        requires { length (gathered self.now).files ≤ 64 }
        ensures value { result ≡ length (gathered self.now).files }
    {
        self.files.len() as u32
    }

    /// Whether a load of the file has no effect.
    pub(crate) fn passes(&self, file: &Word) -> bool
        ensures { result ≡ is_passed (gathered self.now).files file.now }
    {
        is_built_in(file.bytes()) || self.files.contains(file)
    }

    /// Adds a file that was not read.
    pub(crate) fn add_file(&mut self, file: Word) -> Result<(), AllocError>
        requires room { length (gathered self.old).files < 64 }
        requires fresh { list_any (pointwise nat_eq file) (gathered self.old).files ≡ false }
        requires sound { IsGathered (gathered self.old) }
        ensures files { OnOk result ((gathered self.new).files ≡ (gathered self.old).files ++ file ∷ []) }
        ensures sound { OnOk result (IsGathered (gathered self.new)) }
        ensures statements { (gathered self.new).statements ≡ (gathered self.old).statements }
    {
        self.files.insert(file)?;
        Ok(())
    }

    /// Adds a statement of the file of this number.
    pub(crate) fn add(&mut self, at: u32, statement: Statement) -> Result<(), AllocError>
        requires file { at < length (gathered self.old).files }
        requires own { load_of (statement_of statement).content ≡ None }
        requires named { AreNamed (statement_of statement) }
        requires sound { IsGathered (gathered self.old) }
        ensures sound { OnOk result (IsGathered (gathered self.new)) }
        ensures files { (gathered self.new).files ≡ (gathered self.old).files }
        ensures statements { OnOk result ((gathered self.new).statements ≡ (gathered self.old).statements ++ placed_at at (statement_of statement) ∷ []) }
    {
        self.statements.push(Placed {
            file: at,
            statement,
        })?;
        Ok(())
    }

    /// The book of what was read.
    pub(crate) fn finish(self) -> Result<Book, AllocError>
        ensures book { IfOk result (λ book. book_of book ≡ gathered self) }
    {
        let statements = self.statements;
        let mut files = Vec::with_capacity(*statements.allocator(), self.files.len())?;
        for file in self.files {
            files.push(file)?;
        }
        Ok(Book { files, statements })
    }
}
