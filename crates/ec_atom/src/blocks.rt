//! The tuples of some symbols, one symbol after the other.

/// An argument of a symbol: its sort, and how many tuples the arguments after it have.
#[derive(Clone, Copy)]
pub struct Argument {
    pub sort: u32,
    pub stride: u64,
}

/// The tuples of some symbols, numbered from 0, those of the first symbol first.
#[derive(Drop)]
pub struct Blocks {
    // How many tuples stand before those of each symbol, and how many there are in all.
    pub firsts: Vec<u64>,
    // The arguments of each symbol.
    pub rows: Vec<Vec<Argument>>,
}
