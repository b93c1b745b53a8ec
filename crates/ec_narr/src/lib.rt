//! Narratives: a truth of the visible atoms, told as text and read back.
//!
//! [`narrative`] gives exactly the text that `ec_logic` defines: what holds, is released and happens at each
//! time, and the true atoms of the declared predicates. [`read_list`] reads the text of a list of narratives, whoever
//! wrote it: it answers the truths and the ending that the bytes tell, or their first faulty line, as `ec_listing`
//! defines both. The laws [`one_truth`], [`one_list`] and [`read_back`] say that a narrative tells one truth, that
//! bytes are the text of one list at most, and that the text of a list is read as that list.
//!
//! The crate stands on `ec_theory` for names, on `ec_atom` for the numbers of atoms, on `ec_row` for truths, and on
//! `ec_log` for the words of an ending.
#![tactic(auto)]

mod fluents;
mod ground;
mod juncture;
mod laws;
mod listed;
mod passing;
mod places;
mod predicates;
mod reading;
mod slot;
mod slots;
mod telling;
mod tells;
mod times;
mod truths;
mod values;

pub use laws::{one_list, one_truth, read_back};
pub use listed::{ListFault, Listed};
pub use reading::read_list;
pub use telling::narrative;
