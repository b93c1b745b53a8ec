//! Statements as they are written: the trees that a file is read into, with words in place of symbols.
//!
//! Types alone, and small functions that build trees. Contracts see a tree as the plain data of
//! `specs/Written.antt`, by the views of `specs/View.antt`: `term_of`, `formula_of`, `content_of` and
//! `book_of`.
//!
//! The crate stands on `ec_lex`, for its words.
#![tactic(auto)]

pub mod book;
pub mod statement;
pub mod tree;
