//! Every truth of a theory, in rising order.
ghost use Rattle.std.specs.Prelude.{◌≡◌, ◌≤◌, ◌-◌, ◌^◌, ◌∷◌, [], false, IfOk, OnOk, length, take};
ghost use Rattle.ec_logic.specs.Universe.{universe_of};
ghost use Rattle.ec_logic.specs.Atom.{all_atoms, visible_atoms};
ghost use Rattle.ec_logic.specs.Listing.{IsTruth, AreTruths};
ghost use Rattle.ec_logic.specs.ValidTheory.{IsValidTheory};
ghost use Rattle.ec_theory.specs.Theories.{sentence_trees, theory_of};
ghost use Rattle.ec_minimal.specs.Judges.{IsJudgeOf};
ghost use Rattle.ec_models.specs.Early.{early_of, trees_behind};
ghost use Rattle.ec_models.specs.Tried.{AreTried, extended, visible_count, atom_count};

use crate::early::{axioms_hold, early_sentences, sentences_hold};
use ec_atom::Atoms;
use ec_eval::Structure;
use ec_minimal::{Judge, Verdict, least_effects};
use ec_row::Row;
use ec_theory::{Formula, Theory};
use std::alloc::{AllocError, Global};

/// A theory whose truths are tried, with the numbers of its atoms, and those of its remaining sentences
/// that speak of no effect.
#[derive(Clone, Copy)]
struct Trial<'a> {
    alloc: Global,
    theory: &'a Theory,
    atoms: &'a Atoms,
    early: &'a [&'a Formula],
}

impl Trial<'_> {
    /// The truths of the visible atoms.
    fn visible_truth(&self, structure: &Structure) -> Result<Row, AllocError>
        requires of { self.now.atoms.now ≡ self.now.theory.now.signature }
        requires all { length structure.now ≡ atom_count self.now.theory.now.signature }
        ensures { IfOk result (λ row. row ≡ take (visible_count self.now.theory.now.signature) structure.now) }
    {
        let visible = self.atoms.visible();
        let mut row = Row::of_len(self.alloc, visible as usize)?;
        for atom in 0..visible {
            row.set(atom as usize, structure.get(atom as u64));
        }
        Ok(row)
    }

    /// Whether what speaks of no effect is true in the structure, whose effects mean nothing yet: the release
    /// axioms, then the early sentences. Where one of these is false, no effects make it a minimal model.
    fn passes_early(&self, judge: &mut Judge, structure: &Structure) -> bool
        requires judge { IsJudgeOf self.now.theory.now.signature judge.old }
        requires of { self.now.atoms.now ≡ self.now.theory.now.signature }
        requires valid { IsValidTheory (theory_of self.now.theory.now) }
        requires early { trees_behind self.now.early.now ≡ early_of (sentence_trees self.now.theory.now.remaining.items) }
        requires all { length structure.now ≡ atom_count self.now.theory.now.signature }
        ensures judge { IsJudgeOf self.now.theory.now.signature judge.new }
        ensures other { result ≡ false → IsTruth (theory_of self.now.theory.now) (take (visible_count self.now.theory.now.signature) structure.now) → ⊥ }
    {
        let signature = &self.theory.signature;
        let scratch = &mut judge.scratch;
        if !axioms_hold(signature, self.atoms, structure, &judge.release, scratch) {
            return false;
        }
        sentences_hold(signature, self.atoms, structure, self.early, scratch)
    }

    /// Adds the visible truth of the structure where the structure is a minimal model once its effects are
    /// filled. They are filled only where what speaks of no effect is true.
    fn keep(
        &self,
        judge: &mut Judge,
        structure: &mut Structure,
        found: &mut Vec<Row>,
    ) -> Result<(), AllocError>
        requires judge { IsJudgeOf self.now.theory.now.signature judge.old }
        requires of { self.now.atoms.now ≡ self.now.theory.now.signature }
        requires valid { IsValidTheory (theory_of self.now.theory.now) }
        requires early { trees_behind self.now.early.now ≡ early_of (sentence_trees self.now.theory.now.remaining.items) }
        requires all { length structure.old ≡ atom_count self.now.theory.now.signature }
        ensures judge { IsJudgeOf self.now.theory.now.signature judge.new }
        ensures size { length structure.new ≡ length structure.old }
        ensures same { OnOk result (take (visible_count self.now.theory.now.signature) structure.new ≡ take (visible_count self.now.theory.now.signature) structure.old) }
        ensures found { OnOk result (AreTried (theory_of self.now.theory.now) (take (visible_count self.now.theory.now.signature) structure.old ∷ []) found.old.items found.new.items) }
    {
        if !self.passes_early(judge, structure) {
            return Ok(());
        }
        least_effects(self.alloc, self.theory, self.atoms, structure)?;
        match judge.verdict(self.alloc, self.theory, self.atoms, structure)? {
            Verdict::Minimal => found.push(self.visible_truth(structure)?)?,
            Verdict::Untrue(_) => {}
        }
        Ok(())
    }

    /// Tries the truths that agree with the structure before an atom, false before true.
    fn visit(
        &self,
        judge: &mut Judge,
        structure: &mut Structure,
        atom: u32,
        found: &mut Vec<Row>,
    ) -> Result<(), AllocError>
        requires judge { IsJudgeOf self.now.theory.now.signature judge.old }
        requires of { self.now.atoms.now ≡ self.now.theory.now.signature }
        requires valid { IsValidTheory (theory_of self.now.theory.now) }
        requires early { trees_behind self.now.early.now ≡ early_of (sentence_trees self.now.theory.now.remaining.items) }
        requires all { length structure.old ≡ atom_count self.now.theory.now.signature }
        requires visible { atom ≤ visible_count self.now.theory.now.signature }
        ensures judge { IsJudgeOf self.now.theory.now.signature judge.new }
        ensures size { length structure.new ≡ length structure.old }
        ensures same { OnOk result (take atom structure.new ≡ take atom structure.old) }
        ensures found { OnOk result (AreTried (theory_of self.now.theory.now) (extended (take atom structure.old) (visible_count self.now.theory.now.signature - atom)) found.old.items found.new.items) }
    {
        if atom == self.atoms.visible() {
            return self.keep(judge, structure, found);
        }
        structure.set(atom as u64, false);
        self.visit(judge, structure, atom + 1, found)?;
        structure.set(atom as u64, true);
        self.visit(judge, structure, atom + 1, found)
    }
}

/// The visible truths of all minimal models of a theory, in rising order (false before true, the first atom
/// first), each once.
///
/// Each of the 2^visible truths is tried. What speaks of no effect is tested first, up to the first that is
/// untrue: the release axioms, then those remaining sentences in which none of Initiates, Terminates and
/// Releases occurs. Only where all of these are true are the effects filled, which goes over their group once,
/// and the structure is judged, up to its first untrue part: all remaining sentences, DEC5 to DEC12, the release
/// axioms, the groups. The memory is a byte for each atom, a reference for each sentence that is tested first,
/// and a bit for each visible atom of each truth found. The one error is want of memory.
pub fn models(alloc: Global, theory: &Theory, atoms: &Atoms) -> Result<Vec<Row>, AllocError>
    requires of { atoms.now ≡ theory.now.signature }
    requires valid { IsValidTheory (theory_of theory.now) }
    requires few { length (visible_atoms (universe_of theory.now.signature)) ≤ 16 }
    ensures truths { IfOk result (λ found. AreTruths (theory_of theory.now) found.items) }
    ensures few { IfOk result (λ found. length found.items ≤ 2 ^ 16) }
{
    let early = early_sentences(alloc, &theory.remaining)?;
    let trial = Trial {
        alloc,
        theory,
        atoms,
        early: &early,
    };
    let mut judge = Judge::of(alloc, &theory.signature)?;
    let mut structure = Structure::empty(alloc, atoms)?;
    let mut found = Vec::new(alloc);
    trial.visit(&mut judge, &mut structure, 0, &mut found)?;
    Ok(found)
}
