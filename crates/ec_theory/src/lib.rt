//! Signatures, terms, formulas and theories: what every room above the reading speaks in.
//!
//! A term and a formula are plain trees; a contract sees them as the trees of `ec_logic`, through the
//! folds of specs/View.antt. A signature is seen as that of `ec_logic`. The crate stands on `ec_logic`
//! for its words and on `ec_lex` for names.
#![tactic(auto)]

mod copies;
mod counts;
mod domains;
mod formula;
mod parents;
mod rows;
mod shifting;
mod signature;
mod sizes;
mod sorted;
mod substituting;
mod term;
mod theory;
mod value;

pub use domains::{domain, size_of, tuples_of};
pub use formula::Formula;
pub use rows::{ConstantRow, SignatureRows, SortKind, SortRow, SymbolRow};
pub use shifting::shift;
pub use signature::Signature;
pub use sorted::{Labelled, Sorted, Wanted};
pub use substituting::substitute;
pub use term::Term;
pub use theory::{Group, Sentence, Theory};
pub use value::Value;
