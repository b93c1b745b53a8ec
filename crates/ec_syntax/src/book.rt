//! A book: the statements of a file and of what it loads.
use crate::statement::Statement;
use ec_lex::word::Word;

/// A statement and its file, which is a place in the files of the book.
#[derive(Debug, Drop)]
pub struct Placed {
    pub file: u32,
    pub statement: Statement,
}

/// The files, the root first and the others in the order in which they were read, and their statements.
/// The statements of a loaded file stand in the place of its load, so no load is among them.
#[derive(Debug, Drop)]
pub struct Book {
    pub files: Vec<Word>,
    pub statements: Vec<Placed>,
}

/// Why a book is refused: a code from 1 to 24 and a place. Line 0 stands for the file as a whole.
#[derive(Debug, PartialEq, Eq, Drop)]
pub struct Refusal {
    pub code: u8,
    pub file: Word,
    pub line: u32,
    pub name: Word,
}
