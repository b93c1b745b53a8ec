//! What a statement comes to in a book.
ghost use Rattle.ec_syntax.specs.View.{statement_of};
ghost use Rattle.ec_load.specs.Part.{IsPart};

use ec_lex::word::Word;
use ec_syntax::statement::{Content, Statement};

/// A file to be loaded in the statement's place, or the statement itself.
#[derive(Drop)]
pub enum Part {
    Load { line: u32, file: Word },
    Own(Statement),
}

/// What the statement comes to.
pub fn part_of(statement: Statement) -> Part
    ensures { IsPart result (statement_of statement) }
{
    let Statement { line, content } = statement;
    match content {
        Content::Load(file) => Part::Load { line, file },
        content => Part::Own(Statement { line, content }),
    }
}
