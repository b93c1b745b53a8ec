//! Terms, read by descent.
ghost use Rattle.std.specs.Prelude.{◌≡◌, ◌∷◌, MatchOption, IfOk, None, Some};
ghost use Rattle.ec_parse.specs.Mark.{seen, seen_all};
ghost use Rattle.ec_parse.specs.Mark as spec;
ghost use Rattle.ec_parse.specs.Terms.{IsFactor, AreArguments, AreTerms, IsProduct, IsTerm, binds, variable_of};
ghost use Rattle.ec_parse.specs.Reads.{Reads, free, arguments_of};
ghost use Rattle.ec_syntax.specs.View.{term_of, terms_of};
ghost use Rattle.ec_syntax.specs.Written as written;

use crate::fault::Fault;
use crate::mark::{Keyword, Mark, Sign, after, next};
use ec_lex::word::Word;
use ec_syntax::tree::{Arg, difference, negative, product, sum};
use std::alloc::{AllocError, Global};

/// What a rule reads, and the marks behind it.
pub(crate) type Read<'s, 'a, T> = Result<(T, &'s [Mark<'a>]), Fault>;

/// The word of a mark that is a variable.
pub(crate) fn variable_at<'a>(mark: Mark<'a>) -> Option<&'a Word>
    ensures { MatchOption result (variable_of (seen mark.entry) ≡ None) (λ v. variable_of (seen mark.entry) ≡ Some v.now) }
{
    match mark {
        Mark::Lower(word) => Some(word),
        Mark::Keyword(keyword, word) => match keyword {
            Keyword::Event => Some(word),
            Keyword::Fluent => Some(word),
            _ => None,
        },
        _ => None,
    }
}

/// A copy of the word.
pub(crate) fn copied(word: &Word) -> Result<Word, AllocError>
    ensures { IfOk result (λ w. w ≡ word.now) }
{
    word.clone()
}

fn variable(name: &Word) -> Result<Arg, AllocError>
    ensures { IfOk result (λ a. term_of a ≡ written.variable name.now) }
{
    Ok(Arg::Variable(copied(name)?))
}

fn number(n: u32) -> Arg
    ensures { term_of result ≡ written.number n }
{
    Arg::Number(n)
}

fn named(name: &Word, args: Vec<Arg>) -> Result<Arg, AllocError>
    ensures { IfOk result (λ a. term_of a ≡ written.name name.now (terms_of args.items)) }
{
    let name = copied(name)?;
    Ok(Arg::Name { name, args })
}

#[cycle(terms)]
#[tactic(auto, using(crate::proofs::TermSteps::reading))]
fn factor<'s, 'a>(alloc: Global, marks: &'s [Mark<'a>]) -> Read<'s, 'a, Arg>
    ensures { Reads term_of IsFactor binds 4 (seen_all marks.now) result }
{
    let Some((mark, rest)) = next(marks) else {
        return Err(Fault::Syntax);
    };
    if let Some(name) = variable_at(mark) {
        return Ok((variable(name)?, rest));
    }
    match mark {
        Mark::Number(n) => Ok((number(n), rest)),
        Mark::Upper(name) => application(alloc, name, rest),
        Mark::Sign(sign) => signed(alloc, sign, rest),
        _ => Err(Fault::Syntax),
    }
}

/// A factor behind its sign.
#[cycle(terms)]
#[tactic(auto, using(crate::proofs::TermSteps::reading))]
fn signed<'s, 'a>(alloc: Global, sign: Sign, marks: &'s [Mark<'a>]) -> Read<'s, 'a, Arg>
    ensures { Reads term_of IsFactor binds 4 (spec.sign sign ∷ seen_all marks.now) result }
{
    match sign {
        Sign::Minus => {
            let (of, rest) = factor(alloc, marks)?;
            Ok((negative(alloc, of)?, rest))
        }
        Sign::Open => {
            let (inner, rest) = term(alloc, marks)?;
            match after(rest, Sign::Close) {
                Some(rest) => Ok((inner, rest)),
                None => Err(Fault::Syntax),
            }
        }
        _ => Err(Fault::Syntax),
    }
}

/// A factor behind its name.
#[cycle(terms)]
#[tactic(auto, using(crate::proofs::TermSteps::reading))]
fn application<'s, 'a>(alloc: Global, name: &Word, marks: &'s [Mark<'a>]) -> Read<'s, 'a, Arg>
    ensures { Reads term_of IsFactor binds 4 (spec.upper name.now ∷ seen_all marks.now) result }
{
    let (args, rest) = arguments(alloc, marks)?;
    Ok((named(name, args)?, rest))
}

/// What stands behind a name.
#[cycle(terms)]
#[tactic(auto, using(crate::proofs::TermSteps::reading))]
pub(crate) fn arguments<'s, 'a>(alloc: Global, marks: &'s [Mark<'a>]) -> Read<'s, 'a, Vec<Arg>>
    ensures { Reads arguments_of AreArguments free 1 (seen_all marks.now) result }
{
    let Some(inner) = after(marks, Sign::Open) else {
        return Ok((Vec::new(alloc), marks));
    };
    if let Some(rest) = after(inner, Sign::Close) {
        return Ok((Vec::new(alloc), rest));
    }
    let (args, rest) = terms(alloc, inner)?;
    match after(rest, Sign::Close) {
        Some(rest) => Ok((args, rest)),
        None => Err(Fault::Syntax),
    }
}

/// Terms parted by commas.
#[cycle(terms)]
#[tactic(auto, using(crate::proofs::TermSteps::reading))]
fn terms<'s, 'a>(alloc: Global, marks: &'s [Mark<'a>]) -> Read<'s, 'a, Vec<Arg>>
    ensures { Reads arguments_of AreTerms binds 1 (seen_all marks.now) result }
{
    let (first, mut rest) = term(alloc, marks)?;
    let mut found = Vec::new(alloc);
    found.push(first)?;
    'parts: while let Some(more) = after(rest, Sign::Comma) {
        let (next, behind) = term(alloc, more)?;
        found.push(next)?;
        rest = behind;
    }
    Ok((found, rest))
}

#[cycle(terms)]
#[tactic(auto, using(crate::proofs::TermSteps::reading))]
fn products<'s, 'a>(alloc: Global, marks: &'s [Mark<'a>]) -> Read<'s, 'a, Arg>
    ensures { Reads term_of IsProduct binds 3 (seen_all marks.now) result }
{
    let (mut left, mut rest) = factor(alloc, marks)?;
    'factors: while let Some(more) = after(rest, Sign::Times) {
        let (right, behind) = factor(alloc, more)?;
        left = product(alloc, left, right)?;
        rest = behind;
    }
    Ok((left, rest))
}

#[cycle(terms)]
#[tactic(auto, using(crate::proofs::TermSteps::reading))]
pub(crate) fn term<'s, 'a>(alloc: Global, marks: &'s [Mark<'a>]) -> Read<'s, 'a, Arg>
    ensures { Reads term_of IsTerm binds 2 (seen_all marks.now) result }
{
    let (mut left, mut rest) = products(alloc, marks)?;
    'products: loop {
        if let Some(more) = after(rest, Sign::Plus) {
            let (right, behind) = products(alloc, more)?;
            left = sum(alloc, left, right)?;
            rest = behind;
        } else if let Some(more) = after(rest, Sign::Minus) {
            let (right, behind) = products(alloc, more)?;
            left = difference(alloc, left, right)?;
            rest = behind;
        } else {
            break;
        }
    }
    Ok((left, rest))
}
