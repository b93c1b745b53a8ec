//! Line statements, loads and options.
ghost use Rattle.std.specs.Prelude.{List, ℕ, ◌≡◌, ◌≢◌, ◌∷◌, [], MatchOption, None, Some, true, false, pos, neg_ℤ};
ghost use Rattle.ec_syntax.specs.Written as written;
ghost use Rattle.ec_parse.specs.Mark.{seen, seen_all};
ghost use Rattle.ec_parse.specs.Mark as spec;
ghost use Rattle.ec_parse.specs.Lists.{IsName, AreParted, commas};
ghost use Rattle.ec_parse.specs.Lines.{IsWhole, IsShape, IsSortItem, IsLine, lower_of};
ghost use Rattle.ec_parse.specs.Lines as lines;
ghost use Rattle.ec_parse.specs.Reads.{Reads, Whole, Ending, IsEnded, free, words_of, item_of, items_of, shapes_of, whole_of};
ghost use Rattle.ec_parse.specs.declared.mark.Keyword.TheVariants as Keyword;
ghost use Rattle.ec_syntax.specs.View.{content_of, shape_of};

use crate::fault::Fault;
use crate::list::{names, upper, variables};
use crate::mark::{Keyword, Mark, Sign, after, next};
use crate::term::{Read, copied};
use ec_lex::word::Word;
use ec_syntax::statement::{Content, Shape, SortItem};
use std::alloc::{AllocError, Global};

/// The word of an unreserved lower-case word that comes first, and the marks behind it.
fn lower<'s, 'a>(marks: &'s [Mark<'a>]) -> Option<(&'a Word, &'s [Mark<'a>])>
    ensures { MatchOption result ((v : List ℕ) (more : List spec.Mark) → seen_all marks.now ≡ spec.lower v ∷ more → ⊥)
        (λ r. seen_all marks.now ≡ spec.lower r.0.now ∷ seen_all r.1.now) }
{
    match next(marks) {
        Some((Mark::Lower(word), rest)) => Some((word, rest)),
        _ => None,
    }
}

/// The number that comes first, and the marks behind it.
fn number<'s, 'a>(marks: &'s [Mark<'a>]) -> Option<(u32, &'s [Mark<'a>])>
    ensures { MatchOption result ((n : ℕ) (more : List spec.Mark) → seen_all marks.now ≡ spec.number n ∷ more → ⊥)
        (λ r. seen_all marks.now ≡ spec.number r.0 ∷ seen_all r.1.now) }
{
    match next(marks) {
        Some((Mark::Number(n), rest)) => Some((n, rest)),
        _ => None,
    }
}

fn positive(n: u32) -> i64
    ensures { result ≡ pos n }
{
    i64::from(n)
}

fn negative(n: u32) -> i64
    ensures { result ≡ neg_ℤ (pos n) }
{
    -i64::from(n)
}

/// A number with an optional `-` before it.
#[tactic(auto, using(crate::proofs::LineSteps::lines))]
fn whole<'s, 'a>(marks: &'s [Mark<'a>]) -> Read<'s, 'a, i64>
    ensures { Reads whole_of IsWhole free 1 (seen_all marks.now) result }
{
    let Some(digits) = after(marks, Sign::Minus) else {
        let Some((n, rest)) = number(marks) else {
            return Err(Fault::Syntax);
        };
        return Ok((positive(n), rest));
    };
    let Some((n, rest)) = number(digits) else {
        return Err(Fault::Syntax);
    };
    Ok((negative(n), rest))
}

/// What stands behind the name of a shape.
#[tactic(auto, using(crate::proofs::LineSteps::lines))]
fn shape<'s, 'a>(alloc: Global, marks: &'s [Mark<'a>]) -> Read<'s, 'a, Shape>
    ensures { Reads shape_of IsShape free 1 (seen_all marks.now) result }
{
    let Some((name, rest)) = upper(marks) else {
        return Err(Fault::Syntax);
    };
    let name = copied(name)?;
    let Some(inner) = after(rest, Sign::Open) else {
        let sorts = Vec::new(alloc);
        return Ok((Shape { name, sorts }, rest));
    };
    if let Some(rest) = after(inner, Sign::Close) {
        let sorts = Vec::new(alloc);
        return Ok((Shape { name, sorts }, rest));
    }
    let (sorts, rest) = variables(alloc, inner)?;
    match after(rest, Sign::Close) {
        Some(rest) => Ok((Shape { name, sorts }, rest)),
        None => Err(Fault::Syntax),
    }
}

/// A sort, or a sort and its parent.
#[tactic(auto, using(crate::proofs::LineSteps::lines))]
fn sort_item<'s, 'a>(marks: &'s [Mark<'a>]) -> Read<'s, 'a, SortItem>
    ensures { Reads item_of IsSortItem free 1 (seen_all marks.now) result }
{
    let Some((name, rest)) = lower(marks) else {
        return Err(Fault::Syntax);
    };
    let name = copied(name)?;
    let Some(behind) = after(rest, Sign::Colon) else {
        return Ok((SortItem { name, parent: None }, rest));
    };
    let Some((parent, rest)) = lower(behind) else {
        return Err(Fault::Syntax);
    };
    let parent = Some(copied(parent)?);
    Ok((SortItem { name, parent }, rest))
}

/// Shapes parted by commas.
fn shapes<'s, 'a>(alloc: Global, marks: &'s [Mark<'a>]) -> Read<'s, 'a, Vec<Shape>>
    ensures { Reads shapes_of (AreParted IsShape) commas 1 (seen_all marks.now) result }
{
    let (first, mut rest) = shape(alloc, marks)?;
    let mut found = Vec::new(alloc);
    found.push(first)?;
    'parts: while let Some(more) = after(rest, Sign::Comma) {
        let (next, behind) = shape(alloc, more)?;
        found.push(next)?;
        rest = behind;
    }
    Ok((found, rest))
}

/// Sorts parted by commas.
fn sort_items<'s, 'a>(alloc: Global, marks: &'s [Mark<'a>]) -> Read<'s, 'a, Vec<SortItem>>
    ensures { Reads items_of (AreParted IsSortItem) commas 1 (seen_all marks.now) result }
{
    let (first, mut rest) = sort_item(marks)?;
    let mut found = Vec::new(alloc);
    found.push(first)?;
    'parts: while let Some(more) = after(rest, Sign::Comma) {
        let (next, behind) = sort_item(more)?;
        found.push(next)?;
        rest = behind;
    }
    Ok((found, rest))
}

/// Names, and nothing behind them.
fn all_names(alloc: Global, marks: &[Mark<'_>]) -> Result<Vec<Word>, Fault>
    ensures { Whole words_of (Ending (AreParted IsName)) (seen_all marks.now) result }
{
    let (found, rest) = names(alloc, marks)?;
    ended(found, rest)
}

/// Shapes, and nothing behind them.
fn all_shapes(alloc: Global, marks: &[Mark<'_>]) -> Result<Vec<Shape>, Fault>
    ensures { Whole shapes_of (Ending (AreParted IsShape)) (seen_all marks.now) result }
{
    let (found, rest) = shapes(alloc, marks)?;
    ended(found, rest)
}

/// Sorts, and nothing behind them.
fn all_sort_items(alloc: Global, marks: &[Mark<'_>]) -> Result<Vec<SortItem>, Fault>
    ensures { Whole items_of (Ending (AreParted IsSortItem)) (seen_all marks.now) result }
{
    let (found, rest) = sort_items(alloc, marks)?;
    ended(found, rest)
}

/// Whether no mark is left.
pub(crate) fn ends(marks: &[Mark<'_>]) -> bool
    ensures end { result ≡ true → seen_all marks.now ≡ [] }
    ensures more { result ≡ false → seen_all marks.now ≢ [] }
{
    next(marks).is_none()
}

/// What was read, where no mark is left behind it.
pub(crate) fn ended<T>(read: T, marks: &[Mark<'_>]) -> Result<T, Fault>
where
    T: Drop,
    ensures { IsEnded read (seen_all marks.now) result }
{
    if ends(marks) {
        Ok(read)
    } else {
        Err(Fault::Syntax)
    }
}

/// The word of a keyword that comes first, and the marks behind it.
fn keyword<'s, 'a>(marks: &'s [Mark<'a>], keyword: Keyword) -> Option<(&'a Word, &'s [Mark<'a>])>
    ensures { MatchOption result ((u : List ℕ) (more : List spec.Mark) → seen_all marks.now ≡ spec.keyword keyword u ∷ more → ⊥)
        (λ r. seen_all marks.now ≡ spec.keyword keyword r.0.now ∷ seen_all r.1.now) }
{
    match next(marks) {
        Some((Mark::Keyword(first, word), rest)) if first == keyword => Some((word, rest)),
        _ => None,
    }
}

/// The word of a lower-case mark, reserved or not.
fn lower_at<'a>(mark: Mark<'a>) -> Option<&'a Word>
    ensures { MatchOption result (lower_of (seen mark.entry) ≡ None) (λ v. lower_of (seen mark.entry) ≡ Some v.now) }
{
    match mark {
        Mark::Lower(word) => Some(word),
        Mark::Keyword(_, word) => Some(word),
        _ => None,
    }
}

/// Behind `reified`.
fn reified(marks: &[Mark<'_>]) -> Result<Content, Fault>
    ensures { (u : List ℕ) → Whole content_of IsLine (spec.keyword Keyword.Reified u ∷ seen_all marks.now) result }
{
    let Some((_, rest)) = keyword(marks, Keyword::Sort) else {
        return Err(Fault::Syntax);
    };
    let Some((mark, rest)) = next(rest) else {
        return Err(Fault::Syntax);
    };
    let Some(word) = lower_at(mark) else {
        return Err(Fault::Syntax);
    };
    if !ends(rest) {
        return Err(Fault::Syntax);
    }
    Ok(Content::Reified(copied(word)?))
}

fn ranged(sort: Word, low: i64, high: i64) -> Content
    ensures { content_of result ≡ written.range sort low high }
{
    Content::Range { sort, low, high }
}

/// Behind `range`.
fn range(marks: &[Mark<'_>]) -> Result<Content, Fault>
    ensures { (u : List ℕ) → Whole content_of IsLine (spec.keyword Keyword.Range u ∷ seen_all marks.now) result }
{
    let Some((sort, rest)) = lower(marks) else {
        return Err(Fault::Syntax);
    };
    let (low, rest) = whole(rest)?;
    let (high, rest) = whole(rest)?;
    if !ends(rest) {
        return Err(Fault::Syntax);
    }
    Ok(ranged(copied(sort)?, low, high))
}

/// Behind `completion`.
fn completion(marks: &[Mark<'_>]) -> Result<Content, Fault>
    ensures { (u : List ℕ) → Whole content_of IsLine (spec.keyword Keyword.Completion u ∷ seen_all marks.now) result }
{
    let Some((first, rest)) = upper(marks) else {
        return Err(Fault::Syntax);
    };
    let first = copied(first)?;
    if ends(rest) {
        return Ok(Content::Completion {
            label: None,
            predicate: first,
        });
    }
    let Some((second, rest)) = upper(rest) else {
        return Err(Fault::Syntax);
    };
    if !ends(rest) {
        return Err(Fault::Syntax);
    }
    let predicate = copied(second)?;
    Ok(Content::Completion {
        label: Some(first),
        predicate,
    })
}

/// Behind the keyword that begins a line statement.
fn declaration(
    alloc: Global,
    keyword: Keyword,
    word: &Word,
    marks: &[Mark<'_>],
) -> Result<Content, Fault>
    ensures { Whole content_of IsLine (spec.keyword keyword word.now ∷ seen_all marks.now) result }
{
    match keyword {
        Keyword::Sort => Ok(Content::Sorts(all_sort_items(alloc, marks)?)),
        Keyword::Reified => reified(marks),
        Keyword::Event => Ok(Content::Events(all_shapes(alloc, marks)?)),
        Keyword::Fluent => Ok(Content::Fluents(all_shapes(alloc, marks)?)),
        Keyword::Predicate => Ok(Content::Predicates(all_shapes(alloc, marks)?)),
        Keyword::Noninertial => Ok(Content::Noninertial(all_names(alloc, marks)?)),
        Keyword::Range => range(marks),
        Keyword::Completion => completion(marks),
        Keyword::Function | Keyword::Xor | Keyword::Mutex | Keyword::Ignore => Ok(Content::LeftOut(
            copied(word)?,
        )),
    }
}

/// A line statement.
pub(crate) fn line(alloc: Global, marks: &[Mark<'_>]) -> Result<Content, Fault>
    ensures { Whole content_of IsLine (seen_all marks.now) result }
{
    let Some((mark, rest)) = next(marks) else {
        return Err(Fault::Syntax);
    };
    match mark {
        Mark::Lower(sort) => {
            let names = all_names(alloc, rest)?;
            let sort = copied(sort)?;
            Ok(Content::Constants { sort, names })
        }
        Mark::Keyword(keyword, word) => declaration(alloc, keyword, word, rest),
        _ => Err(Fault::Syntax),
    }
}
