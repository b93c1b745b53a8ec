//! The truths of a theory: the visible truths of its minimal models, found by trying every truth.
//!
//! [`models`] goes over the truths of the visible atoms in rising order, and changes one structure from truth
//! to truth. Of each it tests first what speaks of no effect, since that can be told before the effects are
//! filled: the release axioms, then the remaining sentences in which none of Initiates, Terminates and Releases
//! occurs. Only where all of these are true are the effects filled from the visible atoms, and the structure is
//! judged by the definition of a minimal model: the remaining sentences, DEC5 to DEC12, the release axioms, the
//! groups.
//!
//! That no minimal model is missed rests on two facts. A formula's truth depends on the predicates that occur
//! in it alone, so that what speaks of no effect is as true here as in each minimal model with this visible
//! truth. And a minimal model is the structure of its visible truth, filled with its effects. The crate stands
//! on `ec_eval` for truth, on `ec_minimal` for filling and judging and on `ec_row` for the truths that it
//! answers.
#![tactic(auto)]

mod early;
mod truths;

pub use truths::models;
