//! What terms, places and atoms come to under values of the open binders, by the definitions of `ec_logic`.
//!
//! `value_of` is the value of a term, `number_at` the number of an atom. `turn_count` and `value_in_turn` go over the values of a
//! sort, and `keeps_under` says whether a binder ranges over one. The values of the open binders stand at the end of a buffer, the
//! innermost first, so that a walk over a formula takes no memory. The crate stands on `ec_theory` for terms and signatures and on
//! `ec_atom` for the numbers of atoms.
#![tactic(auto)]

mod domains;
mod numbers;
mod places;
mod rows;
mod symbol;
mod terms;

pub use domains::{turn_count, value_in_turn};
pub use numbers::number_at;
pub use places::{env_of, keeps_under};
pub use terms::value_of;
