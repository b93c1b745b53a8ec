//! Names of trees: a variable for each And and Or, and the clauses that say what it stands for.

ghost use Rattle.std.specs.Prelude.{◌≡◌, ◌+◌, ◌-◌, ◌<◌, ◌≤◌, ◌^◌, length, List, [], ◌∷◌, ◌++◌, IfOk, OnOk, map, Contains};
ghost use Rattle.std.specs.List.Sorted.{IsStrictlyIncreasing};
ghost use Rattle.ec_clause.specs.Literal.{opposite};
ghost use Rattle.ec_folding.specs.Tree as folded;
ghost use Rattle.ec_folding.specs.Tree.{as_trees, EachAtom, EachAtomOf};
ghost use Rattle.ec_naming.specs.Naming.{positive, and_clauses, or_clauses, names_taken, names_taken_each, name_of, names_of, naming, naming_each};
ghost use Rattle.ec_naming.specs.Tidy.{tidied};
ghost use Rattle.ec_naming.specs.Marks.{AreInRange};
ghost use Rattle.ec_naming.specs.Variables.{variable_of};
ghost use Rattle.ec_prop.specs.Prop.{tree_of, trees_of};

use crate::numbering::variable_of;
use crate::tidy::Tidy;
use ec_clause::clauses::Clauses;
use ec_clause::lit::Lit;
use ec_prop::Prop;
use std::alloc::{AllocError, Global};
use std::marker::Model;

/// A clause list under way: its clauses so far, and the variable that the next name takes.
///
/// The methods that take `atoms`, the atoms that have a variable, find an atom's variable there.
/// Those that take `scratch` build their long clauses in it, so that one vector serves them all.
#[derive(Drop)]
pub struct Names {
    clauses: Clauses,
    tidy: Tidy,
    next: u32,
}

impl Model for Names {
    ghost use Rattle.std.specs.Prelude.{◌≡◌, ◌<◌, ◌^◌};
    ghost use Rattle.ec_encode.specs.Names.{NamesState};

    ghost Value = { NamesState };

    ghost view = { λ a. record { variables = a.clauses.variables; clauses = a.clauses.clauses; next = a.next } };

    ghost invariant = { λ a. (a.tidy ≡ a.clauses.variables) × (a.clauses.variables < 2 ^ 31) };
}

impl Names {
    /// No clause yet over the variables from 1 to `variables`, of which `next` is the first that is free for names.
    pub fn new(alloc: Global, variables: u32, next: u32) -> Result<Names, AllocError>
        requires { variables < 2 ^ 31 }
        ensures variables { IfOk result (λ names. names.variables ≡ variables) }
        ensures clauses { IfOk result (λ names. names.clauses ≡ []) }
        ensures next { IfOk result (λ names. names.next ≡ next) }
    {
        Ok(Names {
            clauses: Clauses::new(alloc, variables),
            tidy: Tidy::new(alloc, variables)?,
            next,
        })
    }

    /// The clauses.
    pub fn into_clauses(self) -> Clauses
        ensures variables { result.variables ≡ self.variables }
        ensures clauses { result.clauses ≡ self.clauses }
    {
        self.clauses
    }

    /// Adds a clause, tidied.
    pub fn push(&mut self, raw: &[Lit]) -> Result<(), AllocError>
        requires range { AreInRange self.old.variables raw.now }
        requires few { length self.old.clauses < 2 ^ 32 - 1 }
        ensures variables { self.new.variables ≡ self.old.variables }
        ensures next { self.new.next ≡ self.old.next }
        ensures ok { OnOk result (self.new.clauses ≡ self.old.clauses ++ tidied (raw.now ∷ [])) }
    {
        self.tidy.push(&mut self.clauses, raw)
    }

    /// The literal of an atom.
    pub fn atom_literal(&self, atoms: &[u64], atom: u64, positive: bool) -> Lit
        requires rises { IsStrictlyIncreasing atoms.now }
        requires enough { length atoms.now ≤ self.now.variables }
        requires atom { Contains atoms.now atom }
        ensures { result ≡ name_of (variable_of atoms.now) 0 (folded.literal atom positive) }
    {
        let _clauses = &self.clauses;
        Lit::new(variable_of(atoms, atom), positive)
    }

    /// Names a tree and gives the literal that is its name: a literal names itself, an And or an Or is named by the next
    /// variable, behind its parts, which are named in order. The recursion is as deep as the tree.
    ///
    /// No constant stands below the top of a tree; one would be named as the And, or the Or, of no parts.
    #[cycle(name)]
    pub fn name(
        &mut self,
        atoms: &[u64],
        scratch: &mut Vec<Lit>,
        prop: &Prop,
    ) -> Result<Lit, AllocError>
        requires rises { IsStrictlyIncreasing atoms.now }
        requires enough { length atoms.now ≤ self.old.variables }
        requires low { 1 ≤ self.old.next }
        requires high { self.old.next + names_taken (tree_of prop.now) ≤ self.old.variables + 1 }
        requires atoms { EachAtom (Contains atoms.now) (tree_of prop.now) }
        requires few { length self.old.clauses + length (naming (variable_of atoms.now) self.old.next (tree_of prop.now)) < 2 ^ 32 - 1 }
        ensures variables { self.new.variables ≡ self.old.variables }
        ensures literal { IfOk result (λ l. l ≡ name_of (variable_of atoms.now) self.old.next (tree_of prop.now)) }
        ensures next { OnOk result (self.new.next ≡ self.old.next + names_taken (tree_of prop.now)) }
        ensures clauses { OnOk result (self.new.clauses ≡ self.old.clauses ++ tidied (naming (variable_of atoms.now) self.old.next (tree_of prop.now))) }
    {
        match prop {
            Prop::True => self.name_and(scratch, &[]),
            Prop::False => self.name_or(scratch, &[]),
            Prop::Lit { atom, positive } => Ok(self.atom_literal(atoms, *atom, *positive)),
            Prop::And(parts) => self.name_all(atoms, scratch, parts),
            Prop::Or(parts) => self.name_any(atoms, scratch, parts),
        }
    }

    /// Names these trees in order, and gives their names.
    #[cycle(name)]
    pub fn name_each(
        &mut self,
        atoms: &[u64],
        scratch: &mut Vec<Lit>,
        parts: &[Prop],
    ) -> Result<Vec<Lit>, AllocError>
        requires rises { IsStrictlyIncreasing atoms.now }
        requires enough { length atoms.now ≤ self.old.variables }
        requires low { 1 ≤ self.old.next }
        requires high { self.old.next + names_taken_each (as_trees (trees_of parts.now)) ≤ self.old.variables + 1 }
        requires atoms { EachAtomOf (Contains atoms.now) (as_trees (trees_of parts.now)) }
        requires few { length self.old.clauses + length (naming_each (variable_of atoms.now) self.old.next (as_trees (trees_of parts.now))) < 2 ^ 32 - 1 }
        ensures variables { self.new.variables ≡ self.old.variables }
        ensures literals { IfOk result (λ lits. lits.items ≡ names_of (variable_of atoms.now) self.old.next (as_trees (trees_of parts.now))) }
        ensures next { OnOk result (self.new.next ≡ self.old.next + names_taken_each (as_trees (trees_of parts.now))) }
        ensures clauses { OnOk result (self.new.clauses ≡ self.old.clauses ++ tidied (naming_each (variable_of atoms.now) self.old.next (as_trees (trees_of parts.now)))) }
    {
        let mut lits = Vec::with_capacity(*scratch.allocator(), parts.len())?;
        for part in parts {
            let lit = self.name(atoms, scratch, part)?;
            lits.push(lit)?;
        }
        Ok(lits)
    }

    // Names an And: its parts, and then itself.
    #[cycle(name)]
    fn name_all(
        &mut self,
        atoms: &[u64],
        scratch: &mut Vec<Lit>,
        parts: &[Prop],
    ) -> Result<Lit, AllocError>
        requires rises { IsStrictlyIncreasing atoms.now }
        requires enough { length atoms.now ≤ self.old.variables }
        requires low { 1 ≤ self.old.next }
        requires high { self.old.next + names_taken_each (as_trees (trees_of parts.now)) < self.old.variables + 1 }
        requires atoms { EachAtomOf (Contains atoms.now) (as_trees (trees_of parts.now)) }
        requires few { length self.old.clauses + length (naming (variable_of atoms.now) self.old.next (folded.all_of (as_trees (trees_of parts.now)))) < 2 ^ 32 - 1 }
        ensures variables { self.new.variables ≡ self.old.variables }
        ensures literal { IfOk result (λ l. l ≡ positive (self.old.next + names_taken_each (as_trees (trees_of parts.now)))) }
        ensures next { OnOk result (self.new.next ≡ self.old.next + (names_taken_each (as_trees (trees_of parts.now)) + 1)) }
        ensures clauses { OnOk result (self.new.clauses ≡ self.old.clauses ++ tidied (naming (variable_of atoms.now) self.old.next (folded.all_of (as_trees (trees_of parts.now))))) }
    {
        let conjuncts = self.name_each(atoms, scratch, parts)?;
        self.name_and(scratch, &conjuncts)
    }

    // Names an Or: its parts, and then itself.
    #[cycle(name)]
    fn name_any(
        &mut self,
        atoms: &[u64],
        scratch: &mut Vec<Lit>,
        parts: &[Prop],
    ) -> Result<Lit, AllocError>
        requires rises { IsStrictlyIncreasing atoms.now }
        requires enough { length atoms.now ≤ self.old.variables }
        requires low { 1 ≤ self.old.next }
        requires high { self.old.next + names_taken_each (as_trees (trees_of parts.now)) < self.old.variables + 1 }
        requires atoms { EachAtomOf (Contains atoms.now) (as_trees (trees_of parts.now)) }
        requires few { length self.old.clauses + length (naming (variable_of atoms.now) self.old.next (folded.any_of (as_trees (trees_of parts.now)))) < 2 ^ 32 - 1 }
        ensures variables { self.new.variables ≡ self.old.variables }
        ensures literal { IfOk result (λ l. l ≡ positive (self.old.next + names_taken_each (as_trees (trees_of parts.now)))) }
        ensures next { OnOk result (self.new.next ≡ self.old.next + (names_taken_each (as_trees (trees_of parts.now)) + 1)) }
        ensures clauses { OnOk result (self.new.clauses ≡ self.old.clauses ++ tidied (naming (variable_of atoms.now) self.old.next (folded.any_of (as_trees (trees_of parts.now))))) }
    {
        let disjuncts = self.name_each(atoms, scratch, parts)?;
        self.name_or(scratch, &disjuncts)
    }

    // The next name, standing for all of these.
    fn name_and(&mut self, scratch: &mut Vec<Lit>, parts: &[Lit]) -> Result<Lit, AllocError>
        requires low { 1 ≤ self.old.next }
        requires high { self.old.next ≤ self.old.variables }
        requires range { AreInRange self.old.variables parts.now }
        requires few { length self.old.clauses + length parts.now < 2 ^ 32 - 1 }
        ensures variables { self.new.variables ≡ self.old.variables }
        ensures next { self.new.next ≡ self.old.next + 1 }
        ensures literal { IfOk result (λ l. l ≡ positive self.old.next) }
        ensures ok { OnOk result (self.new.clauses ≡ self.old.clauses ++ tidied (and_clauses (positive self.old.next) parts.now)) }
    {
        let lit = self.take();
        self.add_and(scratch, lit, parts)?;
        Ok(lit)
    }

    // The next name, standing for one of these.
    fn name_or(&mut self, scratch: &mut Vec<Lit>, parts: &[Lit]) -> Result<Lit, AllocError>
        requires low { 1 ≤ self.old.next }
        requires high { self.old.next ≤ self.old.variables }
        requires range { AreInRange self.old.variables parts.now }
        requires few { length self.old.clauses + length parts.now < 2 ^ 32 - 1 }
        ensures variables { self.new.variables ≡ self.old.variables }
        ensures next { self.new.next ≡ self.old.next + 1 }
        ensures literal { IfOk result (λ l. l ≡ positive self.old.next) }
        ensures ok { OnOk result (self.new.clauses ≡ self.old.clauses ++ tidied (or_clauses (positive self.old.next) parts.now)) }
    {
        let lit = self.take();
        self.add_or(scratch, lit, parts)?;
        Ok(lit)
    }

    // The next name.
    fn take(&mut self) -> Lit
        requires low { 1 ≤ self.old.next }
        requires high { self.old.next ≤ self.old.variables }
        ensures result { result ≡ positive self.old.next }
        ensures variables { self.new.variables ≡ self.old.variables }
        ensures clauses { self.new.clauses ≡ self.old.clauses }
        ensures next { self.new.next ≡ self.old.next + 1 }
    {
        let name = self.next;
        self.next = name + 1;
        Lit::new(name, true)
    }

    /// Says that the literal stands for all of these.
    pub fn add_and(
        &mut self,
        scratch: &mut Vec<Lit>,
        lit: Lit,
        parts: &[Lit],
    ) -> Result<(), AllocError>
        requires lit { AreInRange self.old.variables (lit ∷ []) }
        requires range { AreInRange self.old.variables parts.now }
        requires few { length self.old.clauses + length parts.now < 2 ^ 32 - 1 }
        ensures variables { self.new.variables ≡ self.old.variables }
        ensures next { self.new.next ≡ self.old.next }
        ensures ok { OnOk result (self.new.clauses ≡ self.old.clauses ++ tidied (and_clauses lit parts.now)) }
    {
        self.add_downs(lit, parts)?;
        long_opposite(scratch, lit, parts)?;
        self.push(scratch)
    }

    /// Says that the literal stands for one of these.
    pub fn add_or(
        &mut self,
        scratch: &mut Vec<Lit>,
        lit: Lit,
        parts: &[Lit],
    ) -> Result<(), AllocError>
        requires lit { AreInRange self.old.variables (lit ∷ []) }
        requires range { AreInRange self.old.variables parts.now }
        requires few { length self.old.clauses + length parts.now < 2 ^ 32 - 1 }
        ensures variables { self.new.variables ≡ self.old.variables }
        ensures next { self.new.next ≡ self.old.next }
        ensures ok { OnOk result (self.new.clauses ≡ self.old.clauses ++ tidied (or_clauses lit parts.now)) }
    {
        scratch.clear();
        scratch.push(lit.opposite())?;
        scratch.extend_from_slice(parts)?;
        self.push(scratch)?;
        self.add_ups(lit, parts)
    }

    // Where the literal is true, so is each part.
    fn add_downs(&mut self, lit: Lit, parts: &[Lit]) -> Result<(), AllocError>
        requires lit { AreInRange self.old.variables (lit ∷ []) }
        requires range { AreInRange self.old.variables parts.now }
        requires few { length self.old.clauses + length parts.now < 2 ^ 32 - 1 }
        ensures variables { self.new.variables ≡ self.old.variables }
        ensures next { self.new.next ≡ self.old.next }
        ensures few { OnOk result (length self.new.clauses ≤ length self.old.clauses + length parts.now) }
        ensures ok { OnOk result (self.new.clauses ≡ self.old.clauses ++ tidied (map (λ c. opposite lit ∷ c ∷ []) parts.now)) }
    {
        for part in parts {
            self.push(&[lit.opposite(), *part])?;
        }
        Ok(())
    }

    // Where a part is true, so is the literal.
    fn add_ups(&mut self, lit: Lit, parts: &[Lit]) -> Result<(), AllocError>
        requires lit { AreInRange self.old.variables (lit ∷ []) }
        requires range { AreInRange self.old.variables parts.now }
        requires few { length self.old.clauses + length parts.now < 2 ^ 32 }
        ensures variables { self.new.variables ≡ self.old.variables }
        ensures next { self.new.next ≡ self.old.next }
        ensures ok { OnOk result (self.new.clauses ≡ self.old.clauses ++ tidied (map (λ c. lit ∷ opposite c ∷ []) parts.now)) }
    {
        for part in parts {
            self.push(&[lit, part.opposite()])?;
        }
        Ok(())
    }
}

// A literal, and the opposites of these.
fn long_opposite(scratch: &mut Vec<Lit>, lit: Lit, parts: &[Lit]) -> Result<(), AllocError>
    ensures { OnOk result (scratch.new.items ≡ lit ∷ map opposite parts.now) }
{
    scratch.clear();
    scratch.push(lit)?;
    for part in parts {
        scratch.push(part.opposite())?;
    }
    Ok(())
}
