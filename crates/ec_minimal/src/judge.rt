//! Whether a structure is a minimal model, or which part of the theory is the first untrue one.
ghost use Rattle.std.specs.Prelude.{◌≡◌, ◌≤◌, ◌↔◌, IfOk, length};
ghost use Rattle.ec_logic.specs.Universe.{universe_of};
ghost use Rattle.ec_logic.specs.Atom.{all_atoms, structure_of};
ghost use Rattle.ec_logic.specs.Axiom.{release_axioms};
ghost use Rattle.ec_logic.specs.Minimal.{IsMinimalModel};
ghost use Rattle.ec_logic.specs.Reach.{nesting_of};
ghost use Rattle.ec_logic.specs.TreeList.{formulas_of};
ghost use Rattle.ec_logic.specs.Valid.{IsSignature};
ghost use Rattle.ec_logic.specs.ValidTheory.{IsValidTheory, binder_limit};
ghost use Rattle.ec_theory.specs.Theories.{theory_of};
ghost use Rattle.ec_minimal.specs.Firsts.{TellsUntrue};
ghost use Rattle.ec_minimal.specs.Judges.{IsJudgeOf};
ghost use Rattle.ec_minimal.specs.Verdicts.{IsVerdict};

use crate::supported::BINDERS;
use crate::untrue::{first_false_formula, first_false_sentence, first_unminimal_group};
use crate::verdict::{Part, Verdict};
use ec_atom::Atoms;
use ec_axiom::{dec_axioms, release_axioms};
use ec_eval::{Scratch, Structure};
use ec_theory::{Formula, Signature, Theory};
use std::alloc::{AllocError, Global};

/// No formula that is judged nests binders deeper: no sentence of a file, none of DEC5 to DEC12 (which nest
/// fewer), and no release axiom, which has one for each argument of its fluent and one for time. Linear in
/// the fluents.
fn deepest_nesting(signature: &Signature) -> u32
    ensures file { binder_limit ≤ result }
    ensures release { nesting_of (formulas_of (release_axioms signature.now)) ≤ result }
{
    let mut deepest = BINDERS;
    for fluent in 0..signature.fluents() {
        deepest = deepest.max(signature.fluent_sorts(fluent).len() as u32 + 1);
    }
    deepest
}

/// What every structure of a signature is judged by: the axioms, made once, and room for the values of
/// open binders.
#[derive(Drop)]
pub struct Judge {
    /// DEC5 to DEC12.
    pub dec: Vec<Formula>,
    /// The release axioms.
    pub release: Vec<Formula>,
    /// Room for the binders of all sentences.
    pub scratch: Scratch,
}

impl Judge {
    /// The judge of a signature's structures. Linear in the fluents and their arguments.
    pub fn of(alloc: Global, signature: &Signature) -> Result<Judge, AllocError>
        requires { IsSignature signature.now }
        ensures { IfOk result (IsJudgeOf signature.now) }
    {
        let dec = dec_axioms(alloc, signature)?;
        let release = release_axioms(alloc, signature)?;
        let scratch = Scratch::new(alloc, deepest_nesting(signature))?;
        Ok(Judge {
            dec,
            release,
            scratch,
        })
    }

    /// Judges a structure: the remaining sentences first, then DEC5 to DEC12, then the release axioms, then
    /// the groups, each list in its order. Time is that of evaluating the sentences up to the first untrue
    /// part, and for each group that of going over its sentences and atoms once; the memory is a byte for
    /// each atom.
    pub fn verdict(
        &mut self,
        alloc: Global,
        theory: &Theory,
        atoms: &Atoms,
        structure: &Structure,
    ) -> Result<Verdict, AllocError>
        requires judge { IsJudgeOf theory.now.signature self.old }
        requires of { atoms.now ≡ theory.now.signature }
        requires valid { IsValidTheory (theory_of theory.now) }
        requires all { length structure.now ≡ length (all_atoms (universe_of theory.now.signature)) }
        ensures judge { IsJudgeOf theory.now.signature self.new }
        ensures verdict { IfOk result (IsVerdict (theory_of theory.now) (structure_of (universe_of theory.now.signature) structure.now)) }
        ensures minimal { IfOk result (λ v. (v ≡ Verdict.Minimal) ↔ IsMinimalModel (theory_of theory.now) (structure_of (universe_of theory.now.signature) structure.now)) }
    {
        if let Some(part) = self.first_untrue(theory, atoms, structure) {
            return Ok(Verdict::Untrue(part));
        }
        let signature = &theory.signature;
        match first_unminimal_group(alloc, signature, atoms, structure, &theory.groups)? {
            Some(place) => Ok(Verdict::Untrue(Part::Group(place))),
            None => Ok(Verdict::Minimal),
        }
    }

    /// The first untrue part of all that stands before the groups.
    fn first_untrue(
        &mut self,
        theory: &Theory,
        atoms: &Atoms,
        structure: &Structure,
    ) -> Option<Part>
        requires judge { IsJudgeOf theory.now.signature self.old }
        requires of { atoms.now ≡ theory.now.signature }
        requires valid { IsValidTheory (theory_of theory.now) }
        ensures judge { IsJudgeOf theory.now.signature self.new }
        ensures part { TellsUntrue (theory_of theory.now) (structure_of (universe_of theory.now.signature) structure.now) result }
    {
        let signature = &theory.signature;
        let scratch = &mut self.scratch;
        if let Some(place) = first_false_sentence(
            signature,
            atoms,
            structure,
            &theory.remaining,
            scratch,
        ) {
            return Some(Part::Remaining(place));
        }
        if let Some(place) = first_false_formula(signature, atoms, structure, &self.dec, scratch) {
            return Some(Part::Axiom(place));
        }
        if let Some(place) = first_false_formula(
            signature,
            atoms,
            structure,
            &self.release,
            scratch,
        ) {
            return Some(Part::Release(place));
        }
        None
    }
}

/// Judges one structure, as [`Judge::verdict`] does.
pub fn is_minimal(
    alloc: Global,
    theory: &Theory,
    atoms: &Atoms,
    structure: &Structure,
) -> Result<Verdict, AllocError>
    requires of { atoms.now ≡ theory.now.signature }
    requires valid { IsValidTheory (theory_of theory.now) }
    requires all { length structure.now ≡ length (all_atoms (universe_of theory.now.signature)) }
    ensures verdict { IfOk result (IsVerdict (theory_of theory.now) (structure_of (universe_of theory.now.signature) structure.now)) }
    ensures minimal { IfOk result (λ v. (v ≡ Verdict.Minimal) ↔ IsMinimalModel (theory_of theory.now) (structure_of (universe_of theory.now.signature) structure.now)) }
{
    let mut judge = Judge::of(alloc, &theory.signature)?;
    judge.verdict(alloc, theory, atoms, structure)
}
