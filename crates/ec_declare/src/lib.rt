//! Declarations: the first fault of a statement that declares, and the signature of a book without such
//! faults.
//!
//! A statement is judged by what it says and by the names of the whole book, so a declaration may stand
//! after its uses. The first declaration of a name counts; a later one may only repeat it. What a fault is
//! stands in specs/Faults.antt, the signature in specs/Signatures.antt.
//!
//! The crate stands on `ec_names` for the names, on `ec_syntax` for statements, on `ec_lex` for words and on
//! `ec_theory` for rows.
#![tactic(auto)]

mod fault;
mod judging;
mod ranges;
mod rows;
mod sorts;
mod symbols;

pub use fault::{Code, Fault};
pub use judging::declaration_fault;
pub use rows::signature_rows;
