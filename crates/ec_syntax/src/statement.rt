//! What a statement says.
use crate::tree::Tree;
use ec_lex::word::Word;

/// A declared sort, and the sort that it is a part of.
#[derive(Debug, PartialEq, Eq, Drop)]
pub struct SortItem {
    pub name: Word,
    pub parent: Option<Word>,
}

/// A declared symbol and the sorts of its arguments.
#[derive(Debug, PartialEq, Eq, Drop)]
pub struct Shape {
    pub name: Word,
    pub sorts: Vec<Word>,
}

/// What a statement says.
#[derive(Debug, Drop)]
pub enum Content {
    Sorts(Vec<SortItem>),
    /// `reified sort`, with its sort.
    Reified(Word),
    Constants {
        sort: Word,
        names: Vec<Word>,
    },
    Events(Vec<Shape>),
    Fluents(Vec<Shape>),
    Predicates(Vec<Shape>),
    Noninertial(Vec<Word>),
    /// The ends, which are from -1,000,000,000 to 1,000,000,000, are part of the range.
    Range {
        sort: Word,
        low: i64,
        high: i64,
    },
    /// The text behind `load`, the name of a file.
    Load(Word),
    /// The option `manualrelease` or `timediff`, on or off.
    Choice {
        name: Word,
        on: bool,
    },
    /// Another option.
    Ignored,
    Completion {
        label: Option<Word>,
        predicate: Word,
    },
    /// A statement that is left out, with its first word.
    LeftOut(Word),
    Sentence {
        label: Option<Word>,
        tree: Tree,
    },
}

/// A statement and the line of its first token.
#[derive(Debug, Drop)]
pub struct Statement {
    pub line: u32,
    pub content: Content,
}
