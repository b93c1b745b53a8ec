//! The theory of a root file, or its first refusal.
//!
//! [`accept`] puts the layers below together: the load of the book, the sort checker, the groups, the
//! numbers of the atoms and the weight. What it answers is said by specs/Accepted.antt in the words of these
//! layers, and each command begins with it. [`one_answer`] shows that a root has one theory or one first
//! refusal at most, and [`one_list_of_files`] that its book has one list of files at most. [`of_file`] makes
//! the refusal of a whole file, for the layers and for the commands.
//!
//! The crate stands on `ec_load`, `ec_sort`, `ec_split`, `ec_atom` and `ec_weight` for the layers, on
//! `ec_edge` for files, and on `ec_syntax`, `ec_theory` and `ec_lex` for what it takes and gives.
#![tactic(auto)]

mod accepting;
mod fault;

pub use accepting::{Accepted, accept, one_answer, one_list_of_files};
pub use fault::{AcceptFault, of_file};
