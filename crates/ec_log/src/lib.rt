//! The log of a search, written and read line by line.
//!
//! A log has a header with two numbers, a line for each clause that was derived (with the numbers
//! of the clauses that it follows from) and for each truth that was blocked, and an end line. The
//! spelling of each line is a definition, `spelled`, and what a line may hold is another, `IsLine`.
//! `read_line` answers the one line that the bytes spell, and Form exactly where they spell none.
//! `Writer` keeps the notes of a search and then makes a file hold exactly the lines of its log.
//! `LogReader` reads a file in pieces of a given size and answers its lines one by one, the same
//! for every size and however the files cut their pieces; it holds one line in memory and no more.
//! `push_ending` and `read_ending` are the words of an ending alone, as the last line of a list has
//! them.
//!
//! It stands on `ec_edge` for files and on `ec_clause` for literals, endings and notes.
#![tactic(auto)]

mod append;
mod endings;
mod kept;
mod line;
mod next_line;
mod numbers;
mod read;
mod reader;
mod spell;
mod writer;

pub use endings::{push_ending, read_ending};
pub use line::{Line, LineFault};
pub use next_line::NextLine;
pub use read::read_line;
pub use reader::LogReader;
pub use writer::{WriteFault, Writer};
