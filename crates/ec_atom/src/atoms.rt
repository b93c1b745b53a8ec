//! Numbers of atoms.
ghost use Rattle.std.specs.Prelude.{◌≡◌, ℕ, ◌+◌, ◌≤◌, ◌<◌, ◌^◌, ◌↔◌, ℤ, pos, Bool, true, nat_lt, Err, IfOk, List, length, take, Some, slice_get};
ghost use Rattle.ec_logic.specs.Atom.{all_atoms, visible_atoms, atoms_before, predicates_in_order, visible_predicates, visible_truth, structure_of};
ghost use Rattle.ec_logic.specs.Atom.{number_of as atom_number};
ghost use Rattle.ec_logic.specs.Extent.{size_of};
ghost use Rattle.ec_logic.specs.Signature.{event_sort, fluent_sort};
ghost use Rattle.ec_logic.specs.Total.{total};
ghost use Rattle.ec_logic.specs.Truth.{Structure, IsStructure};
ghost use Rattle.ec_logic.specs.Universe.{universe_of, extent_at, row_of};
ghost use Rattle.ec_logic.specs.Universe.{place_of as term_place};
ghost use Rattle.ec_theory.specs.Values.{numbers_of};
ghost use Rattle.ec_atom.specs.Blocks.{AreBlocksOf, application, rows_in};
ghost use Rattle.ec_atom.specs.Blocks.{application_at as term_at};
ghost use Rattle.ec_atom.specs.Ground.{are_within, atom_of, ground_atom, truths_in};
ghost use Rattle.ec_atom.specs.Symbols.{rows_of};

use crate::applications::{application_at, number_of};
use crate::blocks::Blocks;
use crate::fault::AtomFault;
use crate::ground::{GroundAtom, GroundTerm};
use crate::kinds::Symbols;
use crate::making::{blocks_of, count_visible, tables_of};
use crate::order::{place_of, predicate_at};
use crate::table::Values;
use ec_theory::{Signature, Theory, Value};
use std::alloc::{AllocError, Global};
use std::marker::Model;

/// The greatest number of visible atoms.
pub const VISIBLE_LIMIT: u64 = 262_144;

/// The numbers of the ground atoms of a signature, seen as that signature.
///
/// It keeps a copy of the signature, for each plain sort a place for each constant, and for each event,
/// fluent and predicate the number of its first application and the strides of its arguments.
#[derive(Drop)]
pub struct Atoms {
    alloc: Global,
    signature: Signature,
    tables: Vec<Values>,
    events: Blocks,
    fluents: Blocks,
    predicates: Blocks,
}

impl Model for Atoms {
    ghost use Rattle.ec_logic.specs.Signature as logic;
    ghost use Rattle.ec_atom.specs.Numbering.{IsNumbering};

    ghost Value = { logic.Signature };

    ghost view = { λ a. a.signature };

    ghost invariant = { λ a. IsNumbering a.signature a.tables.items a.events a.fluents a.predicates };
}

impl Atoms {
    /// Numbers the atoms of a theory. Linear in the number of constants times that of sorts.
    pub fn number(alloc: Global, theory: &Theory) -> Result<Atoms, AtomFault>
        ensures number { IfOk result (λ atoms. atoms ≡ theory.now.signature) }
        ensures many { (result ≡ Err AtomFault.TooMany) ↔ (262144 < length (visible_atoms (universe_of theory.now.signature))) }
    {
        if has_many(&theory.signature) {
            return Err(AtomFault::TooMany);
        }
        match numbered(alloc, &theory.signature) {
            Ok(atoms) => Ok(atoms),
            Err(_) => Err(AtomFault::Memory),
        }
    }

    /// The number of visible atoms, whose numbers come first.
    pub fn visible(&self) -> u32
        ensures count { result ≡ length (visible_atoms (universe_of self.now)) }
        ensures few { result ≤ 262144 }
        ensures truths { (truths : List Bool) → length truths ≡ result → visible_truth (universe_of self.now) (structure_of (universe_of self.now) truths) ≡ truths }
    {
        let count = self.signature.predicates();
        visible_in(&self.signature, &self.predicates, count) as u32
    }

    /// The number of all atoms.
    pub fn all(&self) -> u64
        ensures count { result ≡ length (all_atoms (universe_of self.now)) }
        ensures few { result < 2 ^ 62 }
        ensures truths { (truths : List Bool) → length truths ≡ result → truths_in (universe_of self.now) (structure_of (universe_of self.now) truths) ≡ truths }
        ensures structures { (m : Structure) → IsStructure (universe_of self.now) m → (p : ℕ) (vs : List ℤ) → structure_of (universe_of self.now) (truths_in (universe_of self.now) m) p vs ≡ m p vs }
    {
        let count = self.signature.predicates();
        all_in(&self.signature, &self.predicates, count)
    }

    /// The number of a predicate's first atom, or of the atom that would come first.
    pub fn first_of(&self, predicate: u32) -> u64
        requires { predicate < length self.now.predicates }
        ensures first { result ≡ atoms_before (universe_of self.now) (predicates_in_order (universe_of self.now)) predicate }
        ensures few { result < 2 ^ 62 }
    {
        let count = self.signature.predicates();
        first_in(&self.signature, &self.predicates, count, predicate)
    }

    /// The number of an atom. It takes no memory, and a multiplication for each argument.
    pub fn index_of(&self, predicate: u32, args: &[Value]) -> u64
        requires known { predicate < length self.now.predicates }
        requires within { are_within (universe_of self.now) (row_of (universe_of self.now).predicates predicate) args.now ≡ true }
        ensures number { atom_number (universe_of self.now) predicate (numbers_of args.now) ≡ Some result }
        ensures atom { slice_get (all_atoms (universe_of self.now)) result ≡ Some (atom_of predicate args.now) }
        ensures below { result < length (all_atoms (universe_of self.now)) }
    {
        let place = place_of(self.signature.predicates(), predicate);
        number_of(&self.tables, &self.predicates, place, args)
    }

    /// The atom with a number. It takes a division for each argument, and finds the predicate in the
    /// logarithm of their number.
    pub fn atom_at(&self, index: u64) -> Result<GroundAtom, AllocError>
        requires { index < length (all_atoms (universe_of self.now)) }
        ensures atom { IfOk result (λ atom. slice_get (all_atoms (universe_of self.now)) index ≡ Some (ground_atom atom)) }
        ensures number { IfOk result (λ atom. atom_number (universe_of self.now) atom.predicate (numbers_of atom.args.items) ≡ Some index) }
        ensures known { IfOk result (λ atom. atom.predicate < length self.now.predicates) }
        ensures within { IfOk result (λ atom. are_within (universe_of self.now) (row_of (universe_of self.now).predicates atom.predicate) atom.args.items ≡ true) }
    {
        let term = application_at(self.alloc, &self.tables, &self.predicates, index)?;
        Ok(GroundAtom {
            predicate: predicate_at(self.signature.predicates(), term.symbol),
            args: term.args,
        })
    }

    /// How many ground events there are.
    pub fn events(&self) -> u64
        ensures count { result ≡ size_of (extent_at (universe_of self.now) event_sort) }
        ensures few { result < 2 ^ 62 }
    {
        count_in(&self.events)
    }

    /// The place of a ground event among all. It takes no memory, and a multiplication for each argument.
    pub fn place_of_event(&self, symbol: u32, args: &[Value]) -> u64
        requires known { symbol < length self.now.events }
        requires within { are_within (universe_of self.now) (row_of (universe_of self.now).events symbol) args.now ≡ true }
        ensures place { term_place (universe_of self.now) (universe_of self.now).events symbol (numbers_of args.now) ≡ pos result }
        ensures below { result < size_of (extent_at (universe_of self.now) event_sort) }
    {
        number_of(&self.tables, &self.events, symbol, args)
    }

    /// The ground event at a place. It takes a division for each argument, and finds the symbol in the
    /// logarithm of their number.
    pub fn event_at(&self, place: u64) -> Result<GroundTerm, AllocError>
        requires { place < size_of (extent_at (universe_of self.now) event_sort) }
        ensures term { IfOk result (λ term. application term ≡ term_at (universe_of self.now) (universe_of self.now).events place) }
        ensures place { IfOk result (λ term. term_place (universe_of self.now) (universe_of self.now).events term.symbol (numbers_of term.args.items) ≡ pos place) }
        ensures known { IfOk result (λ term. term.symbol < length self.now.events) }
        ensures within { IfOk result (λ term. are_within (universe_of self.now) (row_of (universe_of self.now).events term.symbol) term.args.items ≡ true) }
    {
        application_at(self.alloc, &self.tables, &self.events, place)
    }

    /// How many ground fluents there are.
    pub fn fluents(&self) -> u64
        ensures count { result ≡ size_of (extent_at (universe_of self.now) fluent_sort) }
        ensures few { result < 2 ^ 62 }
    {
        count_in(&self.fluents)
    }

    /// The place of a ground fluent among all. It takes no memory, and a multiplication for each argument.
    pub fn place_of_fluent(&self, symbol: u32, args: &[Value]) -> u64
        requires known { symbol < length self.now.fluents }
        requires within { are_within (universe_of self.now) (row_of (universe_of self.now).fluents symbol) args.now ≡ true }
        ensures place { term_place (universe_of self.now) (universe_of self.now).fluents symbol (numbers_of args.now) ≡ pos result }
        ensures below { result < size_of (extent_at (universe_of self.now) fluent_sort) }
    {
        number_of(&self.tables, &self.fluents, symbol, args)
    }

    /// The ground fluent at a place. It takes a division for each argument, and finds the symbol in the
    /// logarithm of their number.
    pub fn fluent_at(&self, place: u64) -> Result<GroundTerm, AllocError>
        requires { place < size_of (extent_at (universe_of self.now) fluent_sort) }
        ensures term { IfOk result (λ term. application term ≡ term_at (universe_of self.now) (universe_of self.now).fluents place) }
        ensures place { IfOk result (λ term. term_place (universe_of self.now) (universe_of self.now).fluents term.symbol (numbers_of term.args.items) ≡ pos place) }
        ensures known { IfOk result (λ term. term.symbol < length self.now.fluents) }
        ensures within { IfOk result (λ term. are_within (universe_of self.now) (row_of (universe_of self.now).fluents term.symbol) term.args.items ≡ true) }
    {
        application_at(self.alloc, &self.tables, &self.fluents, place)
    }
}

// How many applications there are.
fn count_in(blocks: &Blocks) -> u64
    requires { length blocks.now.firsts.items ≡ length (rows_in blocks.now) + 1 }
    ensures { slice_get blocks.now.firsts.items (length (rows_in blocks.now)) ≡ Some result }
{
    blocks.firsts[blocks.rows.len()]
}

// Whether there are more visible atoms than the limit.
fn has_many(signature: &Signature) -> bool
    ensures { result ≡ nat_lt 262144 (total (universe_of signature.now) (visible_predicates (universe_of signature.now))) }
{
    count_visible(signature) > VISIBLE_LIMIT
}

fn numbered(alloc: Global, signature: &Signature) -> Result<Atoms, AllocError>
    requires { total (universe_of signature.now) (visible_predicates (universe_of signature.now)) ≤ 262144 }
    ensures { IfOk result (λ atoms. atoms ≡ signature.now) }
{
    let count = signature.predicates();
    prove!(count >= 6);
    let tables = tables_of(alloc, signature)?;
    let events = blocks_of(alloc, signature, Symbols::Events)?;
    let fluents = blocks_of(alloc, signature, Symbols::Fluents)?;
    let predicates = blocks_of(alloc, signature, Symbols::Predicates)?;
    let copy = signature.copied(alloc)?;
    Ok(Atoms {
        alloc,
        signature: copy,
        tables,
        events,
        fluents,
        predicates,
    })
}

// How many atoms stand before a place of the order.
fn before_place(signature: &Signature, predicates: &Blocks, place: u32) -> u64
    requires many { 6 ≤ length signature.now.predicates }
    requires within { place ≤ length signature.now.predicates }
    requires predicates { AreBlocksOf (universe_of signature.now) (rows_of (universe_of signature.now) Symbols.Predicates) predicates.now }
    ensures { result ≡ total (universe_of signature.now) (take place (predicates_in_order (universe_of signature.now))) }
{
    predicates.firsts[place as usize]
}

#[tactic(auto, using(crate::proofs::NumberLemmas::visible_in_order))]
fn visible_in(signature: &Signature, predicates: &Blocks, count: u32) -> u64
    requires many { 6 ≤ count }
    requires count { count ≡ length signature.now.predicates }
    requires predicates { AreBlocksOf (universe_of signature.now) (rows_of (universe_of signature.now) Symbols.Predicates) predicates.now }
    ensures { result ≡ length (visible_atoms (universe_of signature.now)) }
{
    before_place(signature, predicates, count - 3)
}

#[tactic(auto, using(crate::proofs::NumberLemmas::all_in_order))]
fn all_in(signature: &Signature, predicates: &Blocks, count: u32) -> u64
    requires many { 6 ≤ count }
    requires count { count ≡ length signature.now.predicates }
    requires predicates { AreBlocksOf (universe_of signature.now) (rows_of (universe_of signature.now) Symbols.Predicates) predicates.now }
    ensures { result ≡ length (all_atoms (universe_of signature.now)) }
{
    before_place(signature, predicates, count)
}

#[tactic(auto, using(crate::proofs::NumberLemmas::first_in_order))]
fn first_in(signature: &Signature, predicates: &Blocks, count: u32, predicate: u32) -> u64
    requires many { 6 ≤ count }
    requires count { count ≡ length signature.now.predicates }
    requires known { predicate < count }
    requires predicates { AreBlocksOf (universe_of signature.now) (rows_of (universe_of signature.now) Symbols.Predicates) predicates.now }
    ensures { result ≡ atoms_before (universe_of signature.now) (predicates_in_order (universe_of signature.now)) predicate }
{
    before_place(signature, predicates, place_of(count, predicate))
}
