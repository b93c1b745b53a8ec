//! Cuts the bytes of a file into tokens.
//!
//! Blanks are the bytes 32, 9, 13 and 10. A `;` begins a comment up to the end of its line. Lines are
//! numbered from 1 and end with byte 10. At each point the longest token is taken: a word that begins
//! with an upper-case or a lower-case letter, a number of at most 1,000,000,000, or a sign. The words
//! `load` and `option` take the rest of their line up to a `;` with them.
//!
//! [`lexer::tokens`] answers the tokens, or the fault that stands first in the file. What the tokens of
//! some bytes are is said by the relation `Lexes` of `specs/Lex.antt`, by cases and apart from the
//! code; [`lexer::one_reading`] shows that it gives some bytes one answer at most.
//!
//! The crate stands on `std` alone.
#![tactic(auto)]

mod bytes;
pub mod lexer;
pub mod number;
pub mod token;
pub mod word;
