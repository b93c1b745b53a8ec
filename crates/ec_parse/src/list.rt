//! Lists parted by commas.
ghost use Rattle.std.specs.Prelude.{◌≡◌, ◌∷◌, MatchOption, None, Some, ℕ, List};
ghost use Rattle.ec_parse.specs.Mark.{seen_all};
ghost use Rattle.ec_parse.specs.Mark as spec;
ghost use Rattle.ec_parse.specs.Lists.{IsName, IsVariable, AreParted, commas};
ghost use Rattle.ec_parse.specs.Reads.{Reads, free, word_of, words_of};

use crate::fault::Fault;
use crate::mark::{Mark, Sign, after, next};
use crate::term::{Read, copied, variable_at};
use ec_lex::word::Word;
use std::alloc::Global;

/// The word of a name that comes first, and the marks behind it.
pub(crate) fn upper<'s, 'a>(marks: &'s [Mark<'a>]) -> Option<(&'a Word, &'s [Mark<'a>])>
    ensures { MatchOption result ((n : List ℕ) (more : List spec.Mark) → seen_all marks.now ≡ spec.upper n ∷ more → ⊥)
        (λ r. seen_all marks.now ≡ spec.upper r.0.now ∷ seen_all r.1.now) }
{
    match next(marks) {
        Some((Mark::Upper(word), rest)) => Some((word, rest)),
        _ => None,
    }
}

#[tactic(auto, using(crate::proofs::ListSteps::listing))]
fn name<'s, 'a>(marks: &'s [Mark<'a>]) -> Read<'s, 'a, Word>
    ensures { Reads word_of IsName free 1 (seen_all marks.now) result }
{
    let Some((word, rest)) = upper(marks) else {
        return Err(Fault::Syntax);
    };
    Ok((copied(word)?, rest))
}

#[tactic(auto, using(crate::proofs::ListSteps::listing))]
fn variable<'s, 'a>(marks: &'s [Mark<'a>]) -> Read<'s, 'a, Word>
    ensures { Reads word_of IsVariable free 1 (seen_all marks.now) result }
{
    let Some((mark, rest)) = next(marks) else {
        return Err(Fault::Syntax);
    };
    let Some(word) = variable_at(mark) else {
        return Err(Fault::Syntax);
    };
    Ok((copied(word)?, rest))
}

/// Names parted by commas.
pub(crate) fn names<'s, 'a>(alloc: Global, marks: &'s [Mark<'a>]) -> Read<'s, 'a, Vec<Word>>
    ensures { Reads words_of (AreParted IsName) commas 1 (seen_all marks.now) result }
{
    let (first, mut rest) = name(marks)?;
    let mut found = Vec::new(alloc);
    found.push(first)?;
    'parts: while let Some(more) = after(rest, Sign::Comma) {
        let (next, behind) = name(more)?;
        found.push(next)?;
        rest = behind;
    }
    Ok((found, rest))
}

/// Variables, or the sorts of arguments, parted by commas.
pub(crate) fn variables<'s, 'a>(alloc: Global, marks: &'s [Mark<'a>]) -> Read<'s, 'a, Vec<Word>>
    ensures { Reads words_of (AreParted IsVariable) commas 1 (seen_all marks.now) result }
{
    let (first, mut rest) = variable(marks)?;
    let mut found = Vec::new(alloc);
    found.push(first)?;
    'parts: while let Some(more) = after(rest, Sign::Comma) {
        let (next, behind) = variable(more)?;
        found.push(next)?;
        rest = behind;
    }
    Ok((found, rest))
}
