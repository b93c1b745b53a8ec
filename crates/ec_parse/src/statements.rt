//! The statements of a file.
ghost use Rattle.std.specs.Prelude.{◌≡◌, true, false, ◌∷◌, ◌<◌, MatchOption, List, ℕ, None, Some};
ghost use Rattle.ec_parse.specs.Mark.{seen_all};
ghost use Rattle.ec_parse.specs.Mark as spec;
ghost use Rattle.ec_parse.specs.Statements.{Found, AreStatements, Answers, IsStopped, IsSentence, IsNested, Spells, ReadsContent, read};
ghost use Rattle.ec_parse.specs.Reads.{Whole};
ghost use Rattle.ec_parse.specs.declared.mark.Sign.TheVariants as Sign;
ghost use Rattle.ec_lex.specs.declared.token.Token.{Token};
ghost use Rattle.ec_syntax.specs.View.{content_of, formula_of};

use crate::alone::alone;
use crate::cut::{Form, form_at, is_deep, statement_len};
use crate::fault::{Fault, ParseFault};
use crate::formula::{closed, formula};
use crate::line::{ended, line};
use crate::list::upper;
use crate::mark::{Mark, Sign, after, marks_at};
use crate::term::copied;
use ec_lex::token::Token;
use ec_lex::word::Word;
use ec_syntax::statement::{Content, Statement};
use ec_syntax::tree::Tree;
use std::alloc::Global;

/// A formula and a stop, and nothing behind them.
fn stopped(alloc: Global, marks: &[Mark<'_>]) -> Result<Tree, Fault>
    ensures { Whole formula_of IsStopped (seen_all marks.now) result }
{
    let (tree, rest) = formula(alloc, marks)?;
    let (tree, rest) = closed(tree, rest, Sign::Stop)?;
    ended(tree, rest)
}

/// The label that comes first, and the marks behind its colon.
fn label<'s, 'a>(marks: &'s [Mark<'a>]) -> Option<(&'a Word, &'s [Mark<'a>])>
    ensures { MatchOption result ((l : List ℕ) (more : List spec.Mark) → seen_all marks.now ≡ spec.upper l ∷ spec.sign Sign.Colon ∷ more → ⊥)
        (λ r. seen_all marks.now ≡ spec.upper r.0.now ∷ spec.sign Sign.Colon ∷ seen_all r.1.now) }
{
    let (word, rest) = upper(marks)?;
    let rest = after(rest, Sign::Colon)?;
    Some((word, rest))
}

fn sentence(alloc: Global, marks: &[Mark<'_>]) -> Result<Content, Fault>
    ensures { Whole content_of IsSentence (seen_all marks.now) result }
{
    let Some((label, rest)) = label(marks) else {
        let tree = stopped(alloc, marks)?;
        return Ok(Content::Sentence { label: None, tree });
    };
    let tree = stopped(alloc, rest)?;
    let label = Some(copied(label)?);
    Ok(Content::Sentence { label, tree })
}

fn is_nested(form: Form, marks: &[Mark<'_>]) -> bool
    ensures nested { result ≡ true → IsNested form (seen_all marks.now) }
    ensures flat { result ≡ false → IsNested form (seen_all marks.now) → ⊥ }
{
    match form {
        Form::Sentence => is_deep(marks),
        Form::Alone => false,
        Form::Line => false,
    }
}

fn spelled(alloc: Global, form: Form, marks: &[Mark<'_>]) -> Result<Content, Fault>
    ensures { Whole content_of (Spells form) (seen_all marks.now) result }
{
    match form {
        Form::Alone => alone(alloc, marks),
        Form::Line => line(alloc, marks),
        Form::Sentence => sentence(alloc, marks),
    }
}

/// What the statement says that has these marks, the first of which is that of `first`.
fn content(
    alloc: Global,
    form: Form,
    first: &Token,
    marks: &[Mark<'_>],
) -> Result<Content, ParseFault>
    ensures { ReadsContent form first.now (seen_all marks.now) result }
{
    if is_nested(form, marks) {
        return Err(ParseFault::Deep { line: first.line });
    }
    match spelled(alloc, form, marks) {
        Ok(content) => Ok(content),
        Err(Fault::Memory) => Err(ParseFault::Memory),
        Err(Fault::Syntax) => {
            let word = copied(&first.word)?;
            Err(ParseFault::Syntax {
                line: first.line,
                word,
            })
        }
    }
}

/// The statements of the tokens of a file, or its first fault.
///
/// It takes time and memory in proportion to the tokens and their words. What stands in one another is
/// at most some hundreds deep, whatever the tokens are.
pub fn statements(alloc: Global, tokens: &[Token]) -> Result<Vec<Statement>, ParseFault>
    ensures { Answers tokens.now (read result) }
{
    let marks = marks_at(alloc, tokens)?;
    let mut found = Vec::new(alloc);
    let mut place = 0;
    'statements: while let Some(first) = tokens.get(place) {
        let (_, rest) = tokens.split_at(place);
        let (_, ahead) = marks.split_at(place);
        let form = form_at(ahead);
        let len = statement_len(form, rest, ahead);
        let (own, _) = ahead.split_at(len);
        let content = content(alloc, form, first, own)?;
        found.push(Statement {
            line: first.line,
            content,
        })?;
        place += len;
    }
    Ok(found)
}

/// Tokens have one reading at most: their statements, or their first fault.
pub fn one_reading()
    ensures { (tokens : List Token) (r s : Found) → AreStatements tokens r → AreStatements tokens s → r ≡ s }
{}
