//! The names of the predicates.
ghost use Rattle.std.specs.Prelude.{◌≡◌, ◌<◌, ◌^◌, IfOk, IfSome, length};
ghost use Rattle.ec_logic.specs.Valid.{IsSignature, symbol_names};
ghost use Rattle.ec_split.specs.Groups.{predicate_called};
ghost use Rattle.ec_split.specs.Split.{name_of};

use ec_lex::word::Word;
use ec_theory::Signature;
use indexmap::IndexSet;
use std::alloc::{AllocError, Global};

/// A word in memory of its own.
pub(crate) fn copied(word: &Word) -> Result<Word, AllocError>
    ensures { IfOk result (λ copy. copy ≡ word.now) }
{
    word.clone()
}

/// The names of the predicates, each at its number.
pub(crate) fn predicate_names(
    alloc: Global,
    signature: &Signature,
) -> Result<IndexSet<Word>, AllocError>
    ensures names { IfOk result (λ names. names.keys ≡ symbol_names signature.now.predicates) }
    ensures valid { IsSignature signature.now }
{
    let mut names = IndexSet::new(alloc);
    for p in 0..signature.predicates() {
        names.insert(copied(signature.predicate_name(p))?)?;
    }
    Ok(names)
}

/// The number of the predicate with a name, if there is one.
pub(crate) fn number_of(names: &IndexSet<Word>, name: &Word) -> Option<u32>
    requires { length names.now.keys < 2 ^ 31 }
    ensures number { result ≡ predicate_called names.now.keys name.now }
    ensures known { IfSome result (λ p. p < length names.now.keys) }
{
    match names.get_index_of(name) {
        Some(p) => Some(p as u32),
        None => None,
    }
}

/// The name of a predicate: empty where there is no such predicate.
pub(crate) fn name_at(alloc: Global, names: &IndexSet<Word>, p: u32) -> Result<Word, AllocError>
    ensures { IfOk result (λ name. name ≡ name_of names.now.keys p) }
{
    match names.get_index(p as usize) {
        Some(name) => copied(name),
        None => Word::of(alloc, &[]),
    }
}
