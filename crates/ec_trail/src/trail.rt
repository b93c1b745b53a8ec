//! The literals that a search has made true, in order.

ghost use Rattle.std.specs.Prelude.{◌≡◌, ◌≢◌, ℕ, [], ◌∷◌, ◌++◌, ◌+◌, ◌-◌, ◌^◌, ◌<◌, ◌≤◌, true, length, ◌↔◌, IfOk, Option, None, Some, IfSome, IfNone, IsNone, slice_index_or, slice_get};
ghost use Rattle.ec_clause.specs.Truth.{literal_value, with_true};

use ec_clause::assign::Assign;
use ec_clause::lit::Lit;
use std::alloc::{AllocError, Global};
use std::marker::Model;

/// A literal that was made true.
#[derive(Clone, Copy, Debug, PartialEq, Eq)]
pub struct Entry {
    pub lit: Lit,
    /// The number of decisions up to it.
    pub level: u32,
    /// The number of the clause that implied it; none for a decision.
    pub reason: Option<u32>,
}

/// A list of literals, each with its level and its reason, no two of one variable.
#[derive(Drop)]
pub struct Trail {
    variables: u32,
    entries: Vec<Entry>,
    values: Assign,
    // Where a variable's entry stands; of a variable without a value it says nothing.
    places: Vec<u32>,
}

impl Model for Trail {
    ghost use Rattle.std.specs.Prelude.{vec_capacity};
    ghost use Rattle.ec_trail.specs.TrailList.{TrailList, IsKept};

    ghost Value = { TrailList };

    ghost view = { λ a. record { variables = a.variables; entries = a.entries.items } };

    ghost invariant = { λ a. IsKept a.variables (vec_capacity a.entries) a.entries.items a.values a.places.items };
}

impl Trail {
    ghost use Rattle.ec_trail.specs.TrailList.{truth_of, top_level, kept, entry_of, level_of, reason_of, IsTrail};

    /// An empty trail for the variables from 1 to `variables`. It takes all memory that the trail
    /// will ever need: about 18 bytes a variable.
    pub fn new(alloc: Global, variables: u32) -> Result<Trail, AllocError>
        requires { variables < 2 ^ 31 }
        ensures variables { IfOk result (λ t. t.variables ≡ variables) }
        ensures entries { IfOk result (λ t. t.entries ≡ []) }
    {
        Ok(Trail {
            variables,
            entries: Vec::with_capacity(alloc, variables as usize)?,
            values: Assign::new(alloc, variables)?,
            places: vec![in alloc; 0; variables as usize + 1]?,
        })
    }

    /// The number of variables.
    pub fn variables(&self) -> u32
        ensures { result ≡ self.now.variables }
    {
        self.variables
    }

    /// The literal's value; none where its variable has none.
    pub fn value(&self, lit: Lit) -> Option<bool>
        requires { lit.variable ≤ self.now.variables }
        ensures { result ≡ literal_value (truth_of self.now) lit }
    {
        self.values().value(lit)
    }

    /// The partial truth that the literals make.
    pub fn values(&self) -> &Assign
        ensures value { result.now ≡ truth_of self.now }
        ensures places { length result.now ≡ self.now.variables + 1 }
        ensures trail { IsTrail self.now.variables self.now.entries }
    {
        &self.values
    }

    /// The number of literals.
    pub fn len(&self) -> u32
        ensures value { result ≡ length self.now.entries }
        ensures few { length self.now.entries ≤ self.now.variables }
        ensures trail { IsTrail self.now.variables self.now.entries }
    {
        self.entries.len() as u32
    }

    /// The present decision level: the number of decisions on the trail.
    pub fn level(&self) -> u32
        ensures value { result ≡ top_level self.now.entries }
        ensures low { result ≤ length self.now.entries }
        ensures few { length self.now.entries ≤ self.now.variables }
        ensures small { self.now.variables < 2 ^ 31 }
        ensures trail { IsTrail self.now.variables self.now.entries }
    {
        match self.entries.last() {
            None => 0,
            Some(entry) => entry.level,
        }
    }

    /// The literal at a place, from 0.
    pub fn at(&self, i: u32) -> Lit
        requires { i < length self.now.entries }
        ensures { IfSome (slice_get self.now.entries i) (λ e. result ≡ e.lit) }
    {
        self.entries[i as usize].lit
    }

    /// The literal at a place, from 0, with its level and its reason.
    pub fn entry(&self, i: u32) -> Entry
        requires { i < length self.now.entries }
        ensures { slice_get self.now.entries i ≡ Some result }
    {
        self.entries[i as usize]
    }

    /// The level at which the variable got its value.
    pub fn level_of(&self, variable: u32) -> Option<u32>
        requires { variable ≤ self.now.variables }
        ensures value { result ≡ level_of self.now.entries variable }
        ensures none { IsNone result ↔ (slice_index_or (truth_of self.now) variable None ≡ None) }
    {
        match self.entry_of(variable) {
            None => None,
            Some(entry) => Some(entry.level),
        }
    }

    /// The number of the clause that implied the variable's value.
    pub fn reason_of(&self, variable: u32) -> Option<u32>
        requires { variable ≤ self.now.variables }
        ensures value { result ≡ reason_of self.now.entries variable }
    {
        match self.entry_of(variable) {
            None => None,
            Some(entry) => entry.reason,
        }
    }

    /// The place, from 0, at which the literal was made true; none where it is not true.
    pub fn place_of(&self, lit: Lit) -> Option<u32>
        requires { lit.variable ≤ self.now.variables }
        ensures within { IfSome result (λ i. i < length self.now.entries) }
        ensures there { IfSome result (λ i. IfSome (slice_get self.now.entries i) (λ e. e.lit ≡ lit)) }
        ensures none { IfNone result (literal_value (truth_of self.now) lit ≢ Some true) }
    {
        match self.value(lit) {
            Some(true) => Some(self.places[lit.variable() as usize]),
            Some(false) | None => None,
        }
    }

    /// The place, from 0, at which the variable got its value; none where it has none.
    pub fn place(&self, variable: u32) -> Option<u32>
        requires { variable ≤ self.now.variables }
        ensures within { IfSome result (λ i. i < length self.now.entries) }
        ensures there { IfSome result (λ i. IfSome (slice_get self.now.entries i) (λ e. e.lit.variable ≡ variable)) }
        ensures none { IfNone result (slice_index_or (truth_of self.now) variable None ≡ None) }
    {
        let place = self.places[variable as usize];
        if place as usize >= self.entries.len() {
            return None;
        }
        let entry = self.entries[place as usize];
        if entry.lit.variable() != variable {
            return None;
        }
        Some(place)
    }

    fn entry_of(&self, variable: u32) -> Option<Entry>
        requires { variable ≤ self.now.variables }
        ensures { result ≡ entry_of self.now.entries variable }
    {
        let place = self.places[variable as usize] as usize;
        if place >= self.entries.len() {
            return None;
        }
        let entry = self.entries[place];
        if entry.lit.variable() != variable {
            return None;
        }
        Some(entry)
    }

    /// Opens a new level with this literal.
    pub fn decide(&mut self, lit: Lit)
        requires low { 1 ≤ lit.variable }
        requires high { lit.variable ≤ self.old.variables }
        requires no_value { slice_index_or (truth_of self.old) lit.variable None ≡ None }
        ensures variables { self.new.variables ≡ self.old.variables }
        ensures truth { truth_of self.new ≡ with_true (truth_of self.old) lit }
        ensures entries { self.new.entries ≡ self.old.entries ++ record { lit = lit; level = top_level self.old.entries + 1; reason = None } ∷ [] }
    {
        let level = self.level() + 1;
        self.push(Entry {
            lit,
            level,
            reason: None,
        });
    }

    /// Adds this literal to the present level, implied by the clause of this number.
    pub fn imply(&mut self, lit: Lit, reason: u32)
        requires low { 1 ≤ lit.variable }
        requires high { lit.variable ≤ self.old.variables }
        requires no_value { slice_index_or (truth_of self.old) lit.variable None ≡ None }
        ensures variables { self.new.variables ≡ self.old.variables }
        ensures truth { truth_of self.new ≡ with_true (truth_of self.old) lit }
        ensures entries { self.new.entries ≡ self.old.entries ++ record { lit = lit; level = top_level self.old.entries; reason = Some reason } ∷ [] }
    {
        let level = self.level();
        self.push(Entry {
            lit,
            level,
            reason: Some(reason),
        });
    }

    /// Drops what stands above the level, in time linear in the number of literals dropped.
    pub fn back_to(&mut self, level: u32)
        requires { level ≤ top_level self.old.entries }
        ensures variables { self.new.variables ≡ self.old.variables }
        ensures entries { self.new.entries ≡ kept level self.old.entries }
    {
        while self.level() > level {
            self.pop();
        }
    }

    /// Drops all, in time linear in the number of literals.
    pub fn clear(&mut self)
        ensures variables { self.new.variables ≡ self.old.variables }
        ensures entries { self.new.entries ≡ [] }
    {
        while self.len() > 0 {
            self.pop();
        }
    }

    fn push(&mut self, entry: Entry)
        requires low { 1 ≤ entry.lit.variable }
        requires high { entry.lit.variable ≤ self.old.variables }
        requires no_value { slice_index_or (truth_of self.old) entry.lit.variable None ≡ None }
        requires rising { top_level self.old.entries ≤ entry.level }
        requires step { entry.level ≤ top_level self.old.entries + 1 }
        ensures variables { self.new.variables ≡ self.old.variables }
        ensures entries { self.new.entries ≡ self.old.entries ++ entry ∷ [] }
    {
        self.places[entry.lit.variable() as usize] = self.entries.len() as u32;
        self.values.set(entry.lit);
        self.entries.push_reserved(entry);
    }

    fn pop(&mut self)
        requires { 0 < length self.old.entries }
        ensures variables { self.new.variables ≡ self.old.variables }
        ensures entries { (e : Entry) × (self.old.entries ≡ self.new.entries ++ e ∷ []) }
    {
        if let Some(entry) = self.entries.pop() {
            self.values.unset(entry.lit.variable());
        }
    }
}
