//! What a book declares and says once its sorts fit, before its sentences are put into groups.

use crate::signature::Signature;
use crate::theory::Sentence;
use ec_lex::word::Word;

/// A sentence and its label, if it has one.
#[derive(Drop)]
pub struct Labelled {
    pub label: Option<Word>,
    pub sentence: Sentence,
}

/// A completion statement: its place, its label if it has two words, and its predicate.
#[derive(Drop)]
pub struct Wanted {
    pub file: Word,
    pub line: u32,
    pub label: Option<Word>,
    pub predicate: Word,
}

/// The signature of a book, its sentences and its completion statements, each in book order.
#[derive(Drop)]
pub struct Sorted {
    pub signature: Signature,
    pub labelled: Vec<Labelled>,
    pub wanted: Vec<Wanted>,
}
