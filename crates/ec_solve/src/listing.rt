//! The clause list that is searched.
ghost use Rattle.std.specs.Prelude.{◌≡◌, ◌≤◌, ◌^◌, IfOk, length};
ghost use Rattle.ec_logic.specs.ValidTheory.{IsValidTheory};
ghost use Rattle.ec_theory.specs.Theories.{theory_of};
ghost use Rattle.ec_weight.specs.Weight.{weight_of};
ghost use Rattle.ec_grounding.specs.WellFormed.{visible_count};
ghost use Rattle.ec_cnf.specs.List.{clauses_of};
ghost use Rattle.ec_prop.specs.Grounded.{IsGrounded};
ghost use Rattle.ec_solve.specs.Lists.{IsListOf};

use ec_atom::Atoms;
use ec_encode::{Cnf, encode};
use ec_ground::{GroundFault, ground};
use ec_prop::Grounded;
use ec_theory::Theory;
use std::alloc::{AllocError, Global};

/// The clause list of a theory that was grounded so, with so many visible atoms. Time and memory are linear in the trees.
pub fn list_of(alloc: Global, grounded: &Grounded, visible: u32) -> Result<Cnf, AllocError>
    requires { IsGrounded grounded.now visible }
    ensures list { IfOk result (λ list. IsListOf grounded.now list.clauses) }
    ensures visible { IfOk result (λ list. list.visible ≡ visible) }
    ensures within { IfOk result (λ list. list.visible ≤ list.clauses.variables) }
    ensures few_variables { IfOk result (λ list. list.clauses.variables ≤ 2 ^ 29) }
    ensures few_clauses { IfOk result (λ list. length list.clauses.clauses ≤ 2 ^ 29) }
{
    encode(alloc, grounded, visible)
}

/// The clause list of a theory. Time and memory grow with the theory's weight.
pub fn clauses_of(alloc: Global, theory: &Theory, atoms: &Atoms) -> Result<Cnf, AllocError>
    requires valid { IsValidTheory (theory_of theory.now) }
    requires of { atoms.now ≡ theory.now.signature }
    requires light { weight_of (theory_of theory.now) ≤ 4000000 }
    ensures list { IfOk result (λ list. list.clauses ≡ clauses_of (theory_of theory.now)) }
    ensures visible { IfOk result (λ list. list.visible ≡ visible_count (theory_of theory.now)) }
    ensures within { IfOk result (λ list. list.visible ≤ list.clauses.variables) }
    ensures few_variables { IfOk result (λ list. list.clauses.variables ≤ 2 ^ 29) }
    ensures few_clauses { IfOk result (λ list. length list.clauses.clauses ≤ 2 ^ 29) }
{
    match ground(alloc, theory, atoms) {
        Ok(grounded) => list_of(alloc, &grounded, atoms.visible()),
        Err(GroundFault::TooHeavy) => unreachable!(),
        Err(GroundFault::Memory) => Err(AllocError),
    }
}
