//! Trees asserted and atoms defined, and the whole list.

ghost use Rattle.std.specs.Prelude.{◌≡◌, ◌+◌, ◌-◌, ◌<◌, ◌≤◌, ◌^◌, length, List, [], ◌∷◌, ◌++◌, OnOk, Contains, All};
ghost use Rattle.std.specs.List.Sorted.{IsStrictlyIncreasing};
ghost use Rattle.ec_clause.specs.Literal.{opposite};
ghost use Rattle.ec_folding.specs.Tree as folded;
ghost use Rattle.ec_folding.specs.Tree.{as_trees, EachAtom, EachAtomOf};
ghost use Rattle.ec_folding.specs.Definition.{Definition};
ghost use Rattle.ec_naming.specs.Naming.{name_of, names_taken_each, positive};
ghost use Rattle.ec_naming.specs.Listing.{asserting, asserting_each, names_taken_asserting, names_taken_asserting_each, defining, names_taken_defining, defining_each, names_taken_defining_each, clauses_of};
ghost use Rattle.ec_naming.specs.Tidy.{tidied};
ghost use Rattle.ec_naming.specs.Marks.{AreInRange};
ghost use Rattle.ec_naming.specs.Variables.{variable_of};
ghost use Rattle.ec_prop.specs.Prop.{tree_of, trees_of};
ghost use Rattle.ec_prop.specs.Grounded.{definitions_of};

use crate::names::Names;
use ec_clause::lit::Lit;
use ec_prop::{Defined, Prop};
use std::alloc::AllocError;

impl Names {
    /// The sentences, each made true, then the definitions.
    pub fn add_whole(
        &mut self,
        atoms: &[u64],
        scratch: &mut Vec<Lit>,
        sentences: &[Prop],
        definitions: &[Defined],
    ) -> Result<(), AllocError>
        requires rises { IsStrictlyIncreasing atoms.now }
        requires enough { length atoms.now ≤ self.old.variables }
        requires low { 1 ≤ self.old.next }
        requires high { self.old.next + names_taken_asserting_each (as_trees (trees_of sentences.now)) + names_taken_defining_each (definitions_of definitions.now) ≤ self.old.variables + 1 }
        requires atoms { EachAtomOf (Contains atoms.now) (as_trees (trees_of sentences.now)) }
        requires scopes { All (λ (d : Definition). EachAtom (Contains atoms.now) d.scope) (definitions_of definitions.now) }
        requires defined { All (λ (d : Definition). Contains atoms.now d.atom) (definitions_of definitions.now) }
        requires few { length self.old.clauses + length (clauses_of (variable_of atoms.now) self.old.next (trees_of sentences.now) (definitions_of definitions.now)) < 2 ^ 32 - 1 }
        ensures variables { self.new.variables ≡ self.old.variables }
        ensures clauses { OnOk result (self.new.clauses ≡ self.old.clauses ++ tidied (clauses_of (variable_of atoms.now) self.old.next (trees_of sentences.now) (definitions_of definitions.now))) }
    {
        self.assert_each(atoms, scratch, sentences)?;
        self.define_each(atoms, scratch, definitions)
    }

    // Makes each tree true.
    #[cycle(assert)]
    fn assert_each(
        &mut self,
        atoms: &[u64],
        scratch: &mut Vec<Lit>,
        parts: &[Prop],
    ) -> Result<(), AllocError>
        requires rises { IsStrictlyIncreasing atoms.now }
        requires enough { length atoms.now ≤ self.old.variables }
        requires low { 1 ≤ self.old.next }
        requires high { self.old.next + names_taken_asserting_each (as_trees (trees_of parts.now)) ≤ self.old.variables + 1 }
        requires atoms { EachAtomOf (Contains atoms.now) (as_trees (trees_of parts.now)) }
        requires few { length self.old.clauses + length (asserting_each (variable_of atoms.now) self.old.next (as_trees (trees_of parts.now))) < 2 ^ 32 - 1 }
        ensures variables { self.new.variables ≡ self.old.variables }
        ensures next { OnOk result (self.new.next ≡ self.old.next + names_taken_asserting_each (as_trees (trees_of parts.now))) }
        ensures clauses { OnOk result (self.new.clauses ≡ self.old.clauses ++ tidied (asserting_each (variable_of atoms.now) self.old.next (as_trees (trees_of parts.now)))) }
    {
        for part in parts {
            self.assert_tree(atoms, scratch, part)?;
        }
        Ok(())
    }

    // Makes a tree true. The recursion goes down the Ands at the top.
    #[cycle(assert)]
    fn assert_tree(
        &mut self,
        atoms: &[u64],
        scratch: &mut Vec<Lit>,
        prop: &Prop,
    ) -> Result<(), AllocError>
        requires rises { IsStrictlyIncreasing atoms.now }
        requires enough { length atoms.now ≤ self.old.variables }
        requires low { 1 ≤ self.old.next }
        requires high { self.old.next + names_taken_asserting (tree_of prop.now) ≤ self.old.variables + 1 }
        requires atoms { EachAtom (Contains atoms.now) (tree_of prop.now) }
        requires few { length self.old.clauses + length (asserting (variable_of atoms.now) self.old.next (tree_of prop.now)) < 2 ^ 32 - 1 }
        ensures variables { self.new.variables ≡ self.old.variables }
        ensures next { OnOk result (self.new.next ≡ self.old.next + names_taken_asserting (tree_of prop.now)) }
        ensures clauses { OnOk result (self.new.clauses ≡ self.old.clauses ++ tidied (asserting (variable_of atoms.now) self.old.next (tree_of prop.now))) }
    {
        match prop {
            Prop::True => Ok(()),
            Prop::False => self.push(&[]),
            Prop::Lit { atom, positive } => self.assert_literal(atoms, *atom, *positive),
            Prop::And(parts) => self.assert_each(atoms, scratch, parts),
            Prop::Or(parts) => self.assert_any(atoms, scratch, parts),
        }
    }

    // Names the parts of an Or and makes one of them true.
    fn assert_any(
        &mut self,
        atoms: &[u64],
        scratch: &mut Vec<Lit>,
        parts: &[Prop],
    ) -> Result<(), AllocError>
        requires rises { IsStrictlyIncreasing atoms.now }
        requires enough { length atoms.now ≤ self.old.variables }
        requires low { 1 ≤ self.old.next }
        requires high { self.old.next + names_taken_each (as_trees (trees_of parts.now)) ≤ self.old.variables + 1 }
        requires atoms { EachAtomOf (Contains atoms.now) (as_trees (trees_of parts.now)) }
        requires few { length self.old.clauses + length (asserting (variable_of atoms.now) self.old.next (folded.any_of (as_trees (trees_of parts.now)))) < 2 ^ 32 - 1 }
        ensures variables { self.new.variables ≡ self.old.variables }
        ensures next { OnOk result (self.new.next ≡ self.old.next + names_taken_each (as_trees (trees_of parts.now))) }
        ensures clauses { OnOk result (self.new.clauses ≡ self.old.clauses ++ tidied (asserting (variable_of atoms.now) self.old.next (folded.any_of (as_trees (trees_of parts.now))))) }
    {
        let lits = self.name_each(atoms, scratch, parts)?;
        self.push(&lits)
    }

    // Makes a literal of an atom true.
    fn assert_literal(&mut self, atoms: &[u64], atom: u64, positive: bool) -> Result<(), AllocError>
        requires rises { IsStrictlyIncreasing atoms.now }
        requires enough { length atoms.now ≤ self.old.variables }
        requires atom { Contains atoms.now atom }
        requires few { length self.old.clauses < 2 ^ 32 - 1 }
        ensures variables { self.new.variables ≡ self.old.variables }
        ensures next { self.new.next ≡ self.old.next }
        ensures clauses { OnOk result (self.new.clauses ≡ self.old.clauses ++ tidied ((name_of (variable_of atoms.now) 0 (folded.literal atom positive) ∷ []) ∷ [])) }
    {
        let lit = self.atom_literal(atoms, atom, positive);
        self.push(&[lit])
    }

    // Gives each defined atom the truth of its scope.
    fn define_each(
        &mut self,
        atoms: &[u64],
        scratch: &mut Vec<Lit>,
        definitions: &[Defined],
    ) -> Result<(), AllocError>
        requires rises { IsStrictlyIncreasing atoms.now }
        requires enough { length atoms.now ≤ self.old.variables }
        requires low { 1 ≤ self.old.next }
        requires high { self.old.next + names_taken_defining_each (definitions_of definitions.now) ≤ self.old.variables + 1 }
        requires scopes { All (λ (d : Definition). EachAtom (Contains atoms.now) d.scope) (definitions_of definitions.now) }
        requires defined { All (λ (d : Definition). Contains atoms.now d.atom) (definitions_of definitions.now) }
        requires few { length self.old.clauses + length (defining_each (variable_of atoms.now) self.old.next (definitions_of definitions.now)) < 2 ^ 32 - 1 }
        ensures variables { self.new.variables ≡ self.old.variables }
        ensures next { OnOk result (self.new.next ≡ self.old.next + names_taken_defining_each (definitions_of definitions.now)) }
        ensures clauses { OnOk result (self.new.clauses ≡ self.old.clauses ++ tidied (defining_each (variable_of atoms.now) self.old.next (definitions_of definitions.now))) }
    {
        for definition in definitions {
            let lit = self.atom_literal(atoms, definition.atom, true);
            self.define(atoms, scratch, lit, &definition.scope)?;
        }
        Ok(())
    }

    // Gives a literal the truth of a tree.
    fn define(
        &mut self,
        atoms: &[u64],
        scratch: &mut Vec<Lit>,
        lit: Lit,
        prop: &Prop,
    ) -> Result<(), AllocError>
        requires rises { IsStrictlyIncreasing atoms.now }
        requires enough { length atoms.now ≤ self.old.variables }
        requires lit { AreInRange self.old.variables (lit ∷ []) }
        requires low { 1 ≤ self.old.next }
        requires high { self.old.next + names_taken_defining (tree_of prop.now) ≤ self.old.variables + 1 }
        requires atoms { EachAtom (Contains atoms.now) (tree_of prop.now) }
        requires few { length self.old.clauses + length (defining (variable_of atoms.now) self.old.next lit (tree_of prop.now)) < 2 ^ 32 - 1 }
        ensures variables { self.new.variables ≡ self.old.variables }
        ensures next { OnOk result (self.new.next ≡ self.old.next + names_taken_defining (tree_of prop.now)) }
        ensures clauses { OnOk result (self.new.clauses ≡ self.old.clauses ++ tidied (defining (variable_of atoms.now) self.old.next lit (tree_of prop.now))) }
    {
        match prop {
            Prop::True => self.push(&[lit]),
            Prop::False => self.push(&[lit.opposite()]),
            Prop::Lit { atom, positive } => self.define_literal(atoms, lit, *atom, *positive),
            Prop::And(parts) => self.define_all(atoms, scratch, lit, parts),
            Prop::Or(parts) => self.define_any(atoms, scratch, lit, parts),
        }
    }

    // Gives a literal the truth of an And: its parts are named first.
    fn define_all(
        &mut self,
        atoms: &[u64],
        scratch: &mut Vec<Lit>,
        lit: Lit,
        parts: &[Prop],
    ) -> Result<(), AllocError>
        requires rises { IsStrictlyIncreasing atoms.now }
        requires enough { length atoms.now ≤ self.old.variables }
        requires lit { AreInRange self.old.variables (lit ∷ []) }
        requires low { 1 ≤ self.old.next }
        requires high { self.old.next + names_taken_each (as_trees (trees_of parts.now)) ≤ self.old.variables + 1 }
        requires atoms { EachAtomOf (Contains atoms.now) (as_trees (trees_of parts.now)) }
        requires few { length self.old.clauses + length (defining (variable_of atoms.now) self.old.next lit (folded.all_of (as_trees (trees_of parts.now)))) < 2 ^ 32 - 1 }
        ensures variables { self.new.variables ≡ self.old.variables }
        ensures next { OnOk result (self.new.next ≡ self.old.next + names_taken_each (as_trees (trees_of parts.now))) }
        ensures clauses { OnOk result (self.new.clauses ≡ self.old.clauses ++ tidied (defining (variable_of atoms.now) self.old.next lit (folded.all_of (as_trees (trees_of parts.now))))) }
    {
        let lits = self.name_each(atoms, scratch, parts)?;
        self.add_and(scratch, lit, &lits)
    }

    // Gives a literal the truth of an Or: its parts are named first.
    fn define_any(
        &mut self,
        atoms: &[u64],
        scratch: &mut Vec<Lit>,
        lit: Lit,
        parts: &[Prop],
    ) -> Result<(), AllocError>
        requires rises { IsStrictlyIncreasing atoms.now }
        requires enough { length atoms.now ≤ self.old.variables }
        requires lit { AreInRange self.old.variables (lit ∷ []) }
        requires low { 1 ≤ self.old.next }
        requires high { self.old.next + names_taken_each (as_trees (trees_of parts.now)) ≤ self.old.variables + 1 }
        requires atoms { EachAtomOf (Contains atoms.now) (as_trees (trees_of parts.now)) }
        requires few { length self.old.clauses + length (defining (variable_of atoms.now) self.old.next lit (folded.any_of (as_trees (trees_of parts.now)))) < 2 ^ 32 - 1 }
        ensures variables { self.new.variables ≡ self.old.variables }
        ensures next { OnOk result (self.new.next ≡ self.old.next + names_taken_each (as_trees (trees_of parts.now))) }
        ensures clauses { OnOk result (self.new.clauses ≡ self.old.clauses ++ tidied (defining (variable_of atoms.now) self.old.next lit (folded.any_of (as_trees (trees_of parts.now))))) }
    {
        let lits = self.name_each(atoms, scratch, parts)?;
        self.add_or(scratch, lit, &lits)
    }

    // Gives a literal the truth of a literal of an atom.
    #[tactic(auto, using(ec_naming::proofs::Adding::two_added))]
    fn define_literal(
        &mut self,
        atoms: &[u64],
        lit: Lit,
        atom: u64,
        positive: bool,
    ) -> Result<(), AllocError>
        requires rises { IsStrictlyIncreasing atoms.now }
        requires enough { length atoms.now ≤ self.old.variables }
        requires lit { AreInRange self.old.variables (lit ∷ []) }
        requires atom { Contains atoms.now atom }
        requires few { length self.old.clauses + 2 < 2 ^ 32 - 1 }
        ensures variables { self.new.variables ≡ self.old.variables }
        ensures next { self.new.next ≡ self.old.next }
        ensures clauses { OnOk result (self.new.clauses ≡ self.old.clauses ++ tidied (defining (variable_of atoms.now) 0 lit (folded.literal atom positive))) }
    {
        let scope = self.atom_literal(atoms, atom, positive);
        self.push(&[lit.opposite(), scope])?;
        self.push(&[lit, scope.opposite()])
    }
}
