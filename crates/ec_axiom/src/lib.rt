//! The axioms of the discrete event calculus, and the release axioms of a signature.
//!
//! Both calls give exactly the trees of the definitions in `ec_logic`. The crate stands on `ec_building` for
//! the parts of a formula, and on `ec_theory` for signatures.
#![tactic(auto)]

mod changing;
mod dec;
mod later;
mod parts;
mod release;
mod staying;

pub use dec::dec_axioms;
pub use release::release_axioms;
