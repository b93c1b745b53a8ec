//! The names of a book.
ghost use Rattle.std.specs.Prelude.{◌≡◌, ◌<◌, ◌^◌, IfOk, IfSome, map, is_some, length, option_map, position, slice_get, Some};
ghost use Rattle.std.specs.Option.{option_copied};
ghost use Rattle.std.specs.Str.{bytes_eq};
ghost use Rattle.ec_syntax.specs.View.{placed_of};
ghost use Rattle.ec_theory.specs.Rows as rows;
ghost use Rattle.ec_names.specs.Names.{descends, is_below, is_integer_sort, is_noninertial, is_ranged, kind_of, is_own_ancestor, names_of, parent_of, range_named, sort_entry, sort_named, sort_of_variable, sort_words, symbol_named, symbol_number};
ghost use Rattle.ec_names.specs.Counted.{things};
ghost use Rattle.ec_names.specs.View.{named_range, named_symbol, role_of, symbol_of};

use crate::collecting::{declared_limits, declared_names, last_choice};
use crate::query::Bytes;
use crate::range::Range;
use crate::symbol::{Symbol, Symbols};
use ec_lex::word::Word;
use ec_syntax::book::Placed;
use ec_theory::SortKind;
use indexmap::{IndexMap, IndexSet};
use std::alloc::{AllocError, Global};
use std::marker::Model;

/// What the declarations of a book say, by word.
///
/// The built-in sorts and predicates stand first, then each name's first declaration, in the order of the
/// book.
#[derive(Drop)]
pub struct Names {
    sorts: IndexMap<Word, Option<Word>>,
    symbols: Symbols,
    ranges: IndexMap<Word, Range>,
    noninertial: IndexSet<Word>,
    manual_release: bool,
    time_diff: bool,
}

impl Model for Names {
    ghost use Rattle.ec_names.specs.Names as n;
    ghost use Rattle.ec_names.specs.View.{names_view, IsFew, sorts_of, ranges_of};

    ghost Value = { n.Names };

    ghost view = { λ s. names_view (sorts_of s.sorts.entries) s.symbols (ranges_of s.ranges.entries) s.noninertial.keys s.manual_release s.time_diff };

    ghost invariant = { λ s. IsFew s.sorts.entries × IsFew s.symbols };
}

impl Names {
    /// What the statements of a book declare. Linear in the statements.
    pub fn of(alloc: Global, statements: &[Placed]) -> Result<Names, AllocError>
        requires { things (map placed_of statements.now) < 2 ^ 30 }
        ensures { IfOk result (λ names. names ≡ names_of (map placed_of statements.now)) }
    {
        let manual_release = last_choice(statements, "manualrelease", false);
        let time_diff = last_choice(statements, "timediff", true);
        let (sorts, symbols) = declared_names(alloc, statements)?;
        let (ranges, noninertial) = declared_limits(alloc, statements)?;
        Ok(Names {
            sorts,
            symbols,
            ranges,
            noninertial,
            manual_release,
            time_diff,
        })
    }

    /// How many sorts there are.
    pub fn sorts(&self) -> u32
        ensures { result ≡ length self.now.sorts }
    {
        self.sorts.len() as u32
    }

    /// How many symbols there are.
    pub fn symbols(&self) -> u32
        ensures { result ≡ length self.now.symbols }
    {
        self.symbols.len() as u32
    }

    /// The number of a sort, which is its place among the sorts, from 0.
    pub fn sort(&self, word: &Word) -> Option<u32>
        ensures { result ≡ position (bytes_eq word.now) (sort_words self.now) }
    {
        match self.sorts.get_index_of(word) {
            Some(place) => Some(place as u32),
            None => None,
        }
    }

    /// The sort of a number, with its parent.
    pub fn sort_at(&self, sort: u32) -> (&Word, Option<&Word>)
        requires { sort < length self.now.sorts }
        ensures { slice_get self.now.sorts sort ≡ Some (sort_entry result.0.now (option_copied result.1)) }
    {
        let (name, parent) = self.sorts.get_index(sort as usize).unwrap();
        (name, parent.as_ref())
    }

    /// Whether there is a sort of this name.
    pub fn is_sort(&self, word: &Word) -> bool
        ensures { result ≡ is_some (sort_named self.now word.now) }
    {
        self.sorts.contains_key(word)
    }

    /// The parent with which a sort is declared.
    pub fn parent(&self, sort: &Word) -> Option<&Word>
        ensures { option_copied result ≡ parent_of self.now sort.now }
    {
        match self.sorts.get(sort) {
            Some(parent) => parent.as_ref(),
            None => None,
        }
    }

    #[tactic(auto, using(crate::proofs::Descent::descends_found, crate::proofs::Descent::descends_ends, crate::proofs::Descent::descends_next, crate::proofs::Descent::descends_last))]
    // Whether a sort has this name or an ancestor of this name.
    fn descends(&self, sort: &Word, ancestor: &[u8]) -> bool
        ensures { result ≡ is_below self.now sort.now ancestor.now }
    {
        let mut at = sort;
        for _passed in 0..self.sorts.len() {
            if at.bytes() == ancestor {
                return true;
            }
            match self.parent(at) {
                Some(parent) => at = parent,
                None => return false,
            }
        }
        at.bytes() == ancestor
    }

    /// Whether a sort is another or has it as an ancestor. It goes from parent to parent.
    pub fn is_below(&self, sort: &Word, ancestor: &Word) -> bool
        ensures { result ≡ is_below self.now sort.now ancestor.now }
    {
        self.descends(sort, ancestor.bytes())
    }

    /// Whether a sort has itself as an ancestor. It goes from parent to parent, no further than there are
    /// sorts.
    pub fn is_own_ancestor(&self, sort: &Word) -> bool
        ensures { result ≡ is_own_ancestor self.now sort.now }
    {
        match self.parent(sort) {
            Some(parent) => self.is_below(parent, sort),
            None => false,
        }
    }

    /// Whether a sort is `integer` or has it as an ancestor. It goes from parent to parent.
    pub fn is_integer(&self, sort: &Word) -> bool
        ensures { result ≡ is_integer_sort self.now sort.now }
    {
        self.descends(sort, b"integer")
    }

    /// What the values of a sort are. An unknown sort is plain. It goes from parent to parent.
    pub fn kind(&self, sort: &Word) -> SortKind
        ensures { rows.kind_of result ≡ kind_of self.now sort.now }
    {
        if sort.text() == "event" {
            SortKind::Event
        } else if sort.text() == "fluent" {
            SortKind::Fluent
        } else if self.is_integer(sort) {
            SortKind::Integer
        } else {
            SortKind::Plain
        }
    }

    /// The first range of a sort, as it is written, which may be empty.
    pub fn range(&self, sort: &Word) -> Option<Range>
        ensures { option_map (named_range sort.now) result ≡ range_named self.now sort.now }
    {
        self.ranges.get(sort).copied()
    }

    /// Whether a sort has a range or isn't of whole numbers.
    pub fn is_ranged(&self, sort: &Word) -> bool
        ensures { result ≡ is_ranged self.now sort.now }
    {
        !self.is_integer(sort) || self.ranges.contains_key(sort)
    }

    /// The symbol of a name.
    pub fn symbol(&self, name: &Word) -> Option<&Symbol>
        ensures symbol { option_map (named_symbol name.now) (option_copied result) ≡ symbol_named self.now name.now }
        ensures number { IfSome result (λ s. s.now.number ≡ symbol_number (role_of s.now.role) self.now name.now) }
    {
        self.symbols.get(name)
    }

    /// The symbol of a place among all symbols, beside its name.
    pub fn symbol_at(&self, place: u32) -> (&Word, &Symbol)
        requires { place < length self.now.symbols }
        ensures { slice_get self.now.symbols place ≡ Some (named_symbol result.0.now result.1.now) }
    {
        self.symbols.at(place as usize)
    }

    /// Whether a name stands after `noninertial`.
    pub fn is_noninertial(&self, name: &Word) -> bool
        ensures { result ≡ is_noninertial self.now name.now }
    {
        self.noninertial.contains(name)
    }

    /// The sort of a variable: the longest sort name that, with digits or nothing behind it, spells the
    /// variable. It looks up one word more than the variable has digits at its end.
    pub fn variable_sort(&self, variable: &Word) -> Option<&Word>
        ensures { option_copied result ≡ sort_of_variable self.now variable.now }
    {
        let mut stem = variable.bytes();
        loop {
            if let Some((name, _)) = self.sorts.get_key_value(Bytes(stem)) {
                return Some(name);
            }
            let Some((last, shorter)) = stem.split_last() else {
                return None;
            };
            if !last.is_ascii_digit() {
                return None;
            }
            stem = shorter;
        }
    }

    /// Whether the release of inertial fluents at the least time is left open: the last choice of
    /// `manualrelease`, off at first.
    pub fn manual_release(&self) -> bool
        ensures { result ≡ self.now.manual_release }
    {
        self.manual_release
    }

    /// Whether narratives tell changes: the last choice of `timediff`, on at first.
    pub fn time_diff(&self) -> bool
        ensures { result ≡ self.now.time_diff }
    {
        self.time_diff
    }
}
