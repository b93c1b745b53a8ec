//! What a signature is made from: a row for each sort, constant and symbol.

use ec_lex::word::Word;

/// What the values of a sort are.
#[derive(Clone, Copy, Debug, PartialEq, Eq)]
pub enum SortKind {
    /// Declared constants.
    Plain,
    /// Whole numbers.
    Integer,
    /// Ground events.
    Event,
    /// Ground fluents.
    Fluent,
}

/// A sort.
#[derive(Drop)]
pub struct SortRow {
    pub name: Word,
    pub kind: SortKind,
    /// The number of the sort whose subsort this is.
    pub parent: Option<u32>,
    /// The least and the greatest number.
    pub range: Option<(i64, i64)>,
}

/// A constant.
#[derive(Drop)]
pub struct ConstantRow {
    pub name: Word,
    /// The number of the sort that it is declared of.
    pub sort: u32,
}

/// An event, a fluent or a predicate.
#[derive(Drop)]
pub struct SymbolRow {
    pub name: Word,
    /// The numbers of its arguments' sorts, in order.
    pub sorts: Vec<u32>,
    /// Of a fluent, that it is always released from the law of inertia.
    pub noninertial: bool,
}

/// All rows of a signature. A number is a place in one of these lists, from 0.
#[derive(Drop)]
pub struct SignatureRows {
    pub sorts: Vec<SortRow>,
    pub constants: Vec<ConstantRow>,
    pub events: Vec<SymbolRow>,
    pub fluents: Vec<SymbolRow>,
    pub predicates: Vec<SymbolRow>,
    /// Whether the release of inertial fluents at the least time is left open.
    pub manual_release: bool,
    /// Whether narratives tell changes.
    pub time_diff: bool,
}
