//! Theories.

use crate::formula::Formula;
use crate::signature::Signature;
use ec_lex::word::Word;

/// A closed formula and where it stands.
#[derive(Drop)]
pub struct Sentence {
    pub file: Word,
    pub line: u32,
    pub formula: Formula,
}

/// Predicates that are circumscribed together in the group's own sentences.
#[derive(Drop)]
pub struct Group {
    pub name: Word,
    pub predicates: Vec<u32>,
    pub sentences: Vec<Sentence>,
}

/// A signature, the sentences of no group, and the groups, that of the effect predicates first.
#[derive(Drop)]
pub struct Theory {
    pub signature: Signature,
    pub remaining: Vec<Sentence>,
    pub groups: Vec<Group>,
}
