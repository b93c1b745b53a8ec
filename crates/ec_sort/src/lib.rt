//! The sort checker: a book's signature, its sentences and its completion statements, or its first fault.
//!
//! Statements are taken in book order. A declaration is judged by `ec_declare`, a sentence by `ec_walk`, each
//! by what the declarations of the whole book say, so a declaration may stand after its uses. The first
//! fault refuses the book. What the first refusal and the parts of a checked book are stands in
//! specs/Books.antt, what [`check`] answers in specs/Answers.antt.
//!
//! The crate stands on `ec_names`, `ec_declare` and `ec_walk`, and on `ec_syntax`, `ec_theory` and `ec_lex`
//! for what it takes and gives.
#![tactic(auto)]

mod checking;
mod fault;
mod gathering;

pub use checking::check;
pub use fault::SortFault;
