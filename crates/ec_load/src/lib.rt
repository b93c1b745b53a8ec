//! Loads a book: the statements of a root file, with those of each file that it loads in the place of the load.
//!
//! Each name is read once, at most 64 files in all; the three built-in names are never read in a load.
//! [`load`] answers the book, or the first fault: of each file that it is one too many, then that it is not
//! there, then that it is too large, then its first lexical fault, then its first faulty statement, then the
//! faults of its loads in order. What the book and the first fault of what the files hold are is said by the
//! families of `specs/Book.antt` and `specs/Opening.antt`, apart from the code; [`one_book`] shows that they
//! give a root one answer at most.
//!
//! The crate stands on `ec_edge` for files, on `ec_lex` and `ec_parse` for their text, on `ec_syntax` for
//! statements and books, and on `indexmap` for the names that were read.
#![tactic(auto)]

mod book;
mod fault;
mod gathering;
mod opening;
mod part;
mod refusals;

pub use book::{load, one_book};
pub use fault::LoadFault;
