//! The clause list of a grounded theory.

ghost use Rattle.std.specs.Prelude.{◌≡◌, ℕ, ◌+◌, ◌^◌, ◌<◌, ◌≤◌, length, IfOk};
ghost use Rattle.ec_naming.specs.Extension.{HasOneExtension};
ghost use Rattle.ec_prop.specs.Grounded.{IsGrounded, sentences_of, definitions_of};
ghost use Rattle.ec_encode.specs.Cnf.{variable_in, first_name, variables_of, clauses_of_theory};

use crate::count::{names_taken_asserting_each, names_taken_defining_each};
use crate::names::Names;
use ec_clause::clauses::Clauses;
use ec_prop::Grounded;
use std::alloc::{AllocError, Global};

/// A clause list, with the number of visible atoms: their variables are those from 1 on, in order.
#[derive(Drop)]
pub struct Cnf {
    pub clauses: Clauses,
    pub visible: u32,
}

/// The clause list of a grounded theory.
///
/// The atoms that have a variable come first among the variables, in order; then come the names of the Ands and Ors, each behind
/// those of its parts. The clauses are those of the sentences, each asserted, and then those of the definitions, in order.
/// In each clause a repeated literal is dropped after its first place, and a clause with two opposite literals is left out.
///
/// Time grows with the trees, by a factor logarithmic in the atoms at the literals of atoms that are not visible; memory with
/// the clauses and the variables. The recursion is as deep as the deepest tree. The tree of a formula is at most as deep as the
/// formula, whose text may nest some 400 deep: quantifiers add a level each, of as many parts as they have values.
pub fn encode(alloc: Global, grounded: &Grounded, visible: u32) -> Result<Cnf, AllocError>
    requires { IsGrounded grounded.now visible }

    ensures visible { IfOk result (λ cnf. cnf.visible ≡ visible) }
    ensures variables { IfOk result (λ cnf. cnf.clauses.variables ≡ variables_of grounded.now) }
    ensures clauses { IfOk result (λ cnf. cnf.clauses.clauses ≡ clauses_of_theory grounded.now) }

    // The visible atoms have the variables from 1 on, and there is room for all.
    ensures visible_atoms { (a : ℕ) → a < visible → variable_in grounded.now a ≡ a + 1 }
    ensures few_variables { IfOk result (λ cnf. cnf.clauses.variables ≤ 2 ^ 29) }
    ensures few_clauses { IfOk result (λ cnf. length cnf.clauses.clauses ≤ 2 ^ 29) }

    // What the list says.
    ensures one_extension { HasOneExtension (variable_in grounded.now) (first_name grounded.now) (sentences_of grounded.now) (definitions_of grounded.now.definitions.items) }
{
    let atoms = grounded.variables.len() as u32;
    let taken = names_taken_asserting_each(&grounded.sentences)
        + names_taken_defining_each(&grounded.definitions);
    let mut names = Names::new(alloc, atoms + taken, atoms + 1)?;
    let mut scratch = Vec::new(alloc);
    names.add_whole(
        &grounded.variables,
        &mut scratch,
        &grounded.sentences,
        &grounded.definitions,
    )?;
    Ok(Cnf {
        clauses: names.into_clauses(),
        visible,
    })
}
