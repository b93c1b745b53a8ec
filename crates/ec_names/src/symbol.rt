//! Symbols: constants, events, fluents and predicates share one set of names.
ghost use Rattle.std.specs.Prelude.{◌≡◌, ◌<◌, ◌^◌, OnOk, IfOk, IfSome, [], length, option_map, slice_get, Some};
ghost use Rattle.std.specs.Option.{option_copied};
ghost use Rattle.ec_names.specs.Names.{named, place_of, symbol_entry, symbol_name, symbols_of};
ghost use Rattle.ec_names.specs.View.{named_symbol, role_of, with_first, count_in, with_one_more};

use crate::words::copied;
use ec_lex::word::Word;
use indexmap::IndexMap;
use std::alloc::{AllocError, Global};
use std::marker::Model;

/// What a symbol is.
#[derive(Clone, Copy, Debug, PartialEq, Eq)]
pub enum Role {
    Constant,
    Event,
    Fluent,
    Predicate,
}

/// A declared symbol.
#[derive(Debug, Drop)]
pub struct Symbol {
    pub role: Role,
    /// Its place among the symbols of its role, from 0. The first six predicates are built in.
    pub number: u32,
    /// The sorts of its arguments, in order; of a constant, its one sort.
    pub sorts: Vec<Word>,
}

/// How many symbols of each role there are.
#[derive(Clone, Copy)]
pub(crate) struct Counts {
    pub(crate) constants: u32,
    pub(crate) events: u32,
    pub(crate) fluents: u32,
    pub(crate) predicates: u32,
}

impl Counts {
    fn of(self, role: Role) -> u32
        ensures { result ≡ count_in self (role_of role) }
    {
        match role {
            Role::Constant => self.constants,
            Role::Event => self.events,
            Role::Fluent => self.fluents,
            Role::Predicate => self.predicates,
        }
    }

    // Counts one more of a role.
    fn add(&mut self, role: Role)
        requires { count_in self.old (role_of role) < 2 ^ 31 }
        ensures { self.new ≡ with_one_more (role_of role) self.old }
    {
        match role {
            Role::Constant => self.constants += 1,
            Role::Event => self.events += 1,
            Role::Fluent => self.fluents += 1,
            Role::Predicate => self.predicates += 1,
        }
    }
}

/// The symbols beside their names, in the order of their first declaration.
#[derive(Drop)]
pub(crate) struct Symbols {
    entries: IndexMap<Word, Symbol>,
    counts: Counts,
}

impl Model for Symbols {
    ghost use Rattle.std.specs.Prelude.{List};
    ghost use Rattle.ec_names.specs.Names.{SymbolEntry};
    ghost use Rattle.ec_names.specs.View.{symbols_in_table, IsSymbolTable};

    ghost Value = { List SymbolEntry };

    ghost view = { λ s. symbols_in_table s.entries.entries };

    ghost invariant = { λ s. IsSymbolTable s.entries.entries s.counts };
}

impl Symbols {
    pub(crate) fn new(alloc: Global) -> Symbols
        ensures { result ≡ [] }
    {
        Symbols {
            entries: IndexMap::new(alloc),
            counts: Counts {
                constants: 0,
                events: 0,
                fluents: 0,
                predicates: 0,
            },
        }
    }

    /// Adds a symbol at the end, unless its name is there.
    pub(crate) fn add(
        &mut self,
        role: Role,
        name: &Word,
        sorts: Vec<Word>,
    ) -> Result<(), AllocError>
        requires { length self.old < 2 ^ 31 }
        ensures { OnOk result (self.new ≡ with_first symbol_name self.old (symbol_entry (role_of role) name.now sorts.items)) }
    {
        if self.entries.contains_key(name) {
            return Ok(());
        }
        let number = self.counts.of(role);
        let symbol = Symbol {
            role,
            number,
            sorts,
        };
        self.entries.insert(copied(name)?, symbol)?;
        self.counts.add(role);
        Ok(())
    }

    /// The symbol of a name.
    pub(crate) fn get(&self, name: &Word) -> Option<&Symbol>
        ensures symbol { option_map (named_symbol name.now) (option_copied result) ≡ named symbol_name self.now name.now }
        ensures number { IfSome result (λ s. s.now.number ≡ place_of symbol_name (symbols_of (role_of s.now.role) self.now) name.now) }
    {
        self.entries.get(name)
    }

    /// The symbol of a place, beside its name.
    pub(crate) fn at(&self, place: usize) -> (&Word, &Symbol)
        requires { place < length self.now }
        ensures { slice_get self.now place ≡ Some (named_symbol result.0.now result.1.now) }
    {
        self.entries.get_index(place).unwrap()
    }

    /// How many symbols there are.
    pub(crate) fn len(&self) -> usize
        ensures { result ≡ length self.now }
    {
        self.entries.len()
    }
}
