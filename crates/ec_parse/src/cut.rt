//! Where a statement ends, and when a sentence is nested too deeply.
ghost use Rattle.std.specs.Prelude.{◌≡◌, ◌≤◌, ◌<◌, ◌+◌, length, position, IfSome, true, false};
ghost use Rattle.ec_parse.specs.Cut.{line_len, sentence_len, IsDeep};
ghost use Rattle.ec_parse.specs.Cut as spec;
ghost use Rattle.ec_parse.specs.Mark.{mark_of, seen, seen_all};
ghost use Rattle.ec_parse.specs.Mark as m;

use crate::mark::{Mark, Sign, mark_at, next};
use ec_lex::token::Token;

/// The kind of a statement, by its first tokens.
#[derive(Clone, Copy, Debug, PartialEq, Eq)]
pub(crate) enum Form {
    Alone,
    Line,
    Sentence,
}

fn begins_upper(marks: &[Mark<'_>]) -> bool
    ensures { result ≡ spec.begins_upper (seen_all marks.now) }
{
    let Some((first, _)) = next(marks) else {
        return false;
    };
    matches!(first, Mark::Upper(_))
}

/// The kind of the first statement.
pub(crate) fn form_at(marks: &[Mark<'_>]) -> Form
    ensures { result ≡ spec.form_of (seen_all marks.now) }
{
    let Some((first, rest)) = next(marks) else {
        return Form::Sentence;
    };
    match first {
        Mark::Load(_) => Form::Alone,
        Mark::Choice(_) => Form::Alone,
        Mark::Keyword(_, _) => Form::Line,
        Mark::Lower(_) => {
            if begins_upper(rest) {
                Form::Line
            } else {
                Form::Sentence
            }
        }
        _ => Form::Sentence,
    }
}

fn is_comma(token: &Token) -> bool
    ensures { result ≡ spec.is_comma (mark_of token.now) }
{
    matches!(mark_at(token), Mark::Sign(Sign::Comma))
}

/// How many of the tokens go on with the line statement that `before` stands in.
fn line_rest(before: &Token, tokens: &[Token]) -> usize
    ensures value { result ≡ line_len before.now tokens.now }
    ensures within { result ≤ length tokens.now }
{
    let mut last = before;
    let mut len = 0;
    for token in tokens {
        if token.line != last.line && !is_comma(last) {
            break;
        }
        last = token;
        len += 1;
    }
    len
}

fn is_stop(mark: Mark<'_>) -> bool
    ensures { result ≡ spec.is_stop (seen mark.entry) }
{
    matches!(mark, Mark::Sign(Sign::Stop))
}

/// Where the first stop is.
fn stop_at(marks: &[Mark<'_>]) -> Option<usize>
    ensures value { result ≡ position (λ m. spec.is_stop (seen m)) marks.now }
    ensures within { IfSome result (λ n. n < length marks.now) }
{
    marks.iter().position(|mark| is_stop(*mark))
}

/// How many marks the sentence at the front has.
fn sentence(marks: &[Mark<'_>]) -> usize
    ensures value { result ≡ sentence_len (seen_all marks.now) }
    ensures within { result ≤ length marks.now }
    ensures moves { 0 < length marks.now → 0 < result }
{
    match stop_at(marks) {
        Some(at) => at + 1,
        None => marks.len(),
    }
}

/// How many tokens the first statement has, which is of this kind. The marks are those of the tokens.
pub(crate) fn statement_len(form: Form, tokens: &[Token], marks: &[Mark<'_>]) -> usize
    requires form { form ≡ spec.form_of (seen_all marks.now) }
    requires marks { seen_all marks.now ≡ m.marks tokens.now }
    ensures value { result ≡ spec.statement_len tokens.now }
    ensures within { result ≤ length tokens.now }
    ensures moves { 0 < length tokens.now → 0 < result }
{
    let Some((first, rest)) = tokens.split_first() else {
        return 0;
    };
    match form {
        Form::Alone => 1,
        Form::Line => 1 + line_rest(first, rest),
        Form::Sentence => sentence(marks),
    }
}

fn one_if(test: bool) -> usize
    ensures { result ≡ spec.one_if test }
{
    if test { 1 } else { 0 }
}

fn is_open(mark: Mark<'_>) -> bool
    ensures { result ≡ spec.is_open (seen mark.entry) }
{
    matches!(mark, Mark::Sign(Sign::Open))
}

fn is_close(mark: Mark<'_>) -> bool
    ensures { result ≡ spec.is_close (seen mark.entry) }
{
    matches!(mark, Mark::Sign(Sign::Close))
}

fn nests(sign: Sign) -> bool
    ensures { result ≡ spec.nests sign }
{
    match sign {
        Sign::Not | Sign::Implies | Sign::Iff | Sign::CloseBracket | Sign::CloseBrace => true,
        Sign::Plus | Sign::Minus | Sign::Times => true,
        _ => false,
    }
}

fn is_nesting(mark: Mark<'_>) -> bool
    ensures { result ≡ spec.is_nesting (seen mark.entry) }
{
    match mark {
        Mark::Sign(sign) => nests(sign),
        _ => false,
    }
}

/// Whether a sentence with these marks is nested too deeply.
pub(crate) fn is_deep(marks: &[Mark<'_>]) -> bool
    ensures deep { result ≡ true → IsDeep (seen_all marks.now) }
    ensures flat { result ≡ false → IsDeep (seen_all marks.now) → ⊥ }
{
    let (mut opened, mut closed, mut nesting): (usize, usize, usize) = (0, 0, 0);
    for mark in marks {
        opened += one_if(is_open(*mark));
        closed += one_if(is_close(*mark));
        nesting += one_if(is_nesting(*mark));
        if opened > closed + 100 {
            return true;
        }
    }
    nesting > 300
}
