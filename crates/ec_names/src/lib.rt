//! What the declarations of a book say, by word: its sorts, symbols and ranges, and the choices of its
//! options.
//!
//! The first declaration of a name counts, whether it stands before or after a use. Nothing is judged here:
//! a declaration that contradicts the first of its name, or names an unknown sort, is read as it stands.
//! Look-ups are by word, in tables made once. A contract sees all of it as the record `Names` of
//! specs/Names.antt.
//!
//! The crate stands on `ec_syntax` for statements, on `ec_lex` for words and on `ec_theory` for kinds.
#![tactic(auto)]

mod collecting;
mod names;
mod query;
mod range;
mod symbol;
mod words;

pub use names::Names;
pub use range::Range;
pub use symbol::{Role, Symbol};
