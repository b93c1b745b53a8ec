//! The kinds of symbols whose applications are numbered.

/// Events, fluents, or predicates in the order of their atoms.
#[derive(Clone, Copy)]
pub enum Symbols {
    Events,
    Fluents,
    Predicates,
}
