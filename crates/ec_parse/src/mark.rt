//! What the rules of the grammar see of tokens.
ghost use Rattle.std.specs.Prelude.{◌≡◌, ◌∷◌, [], ◌<◌, MatchOption, IfOk};
ghost use Rattle.std.specs.Str.{bytes_eq};
ghost use Rattle.ec_parse.specs.Mark.{sign_of, keyword_of, number_of, mark_of, marks, seen, seen_all, Lacks};
ghost use Rattle.ec_parse.specs.Mark as spec;

use ec_lex::number::{LARGEST, value};
use ec_lex::token::{Kind, Token};
use ec_lex::word::Word;
use std::alloc::{AllocError, Global};

/// A sign.
#[derive(Clone, Copy, Debug, PartialEq, Eq)]
pub(crate) enum Sign {
    Iff,
    Implies,
    AtMost,
    AtLeast,
    Unequal,
    OpenBracket,
    CloseBracket,
    OpenBrace,
    CloseBrace,
    Open,
    Close,
    Comma,
    Stop,
    Colon,
    Not,
    And,
    Or,
    Equal,
    Less,
    More,
    Plus,
    Minus,
    Times,
}

/// A reserved word.
#[derive(Clone, Copy, Debug, PartialEq, Eq)]
pub(crate) enum Keyword {
    Sort,
    Reified,
    Function,
    Event,
    Fluent,
    Noninertial,
    Predicate,
    Range,
    Completion,
    Xor,
    Mutex,
    Ignore,
}

/// What a rule sees of a token. No rule takes `Other`.
#[derive(Clone, Copy, Debug)]
pub(crate) enum Mark<'a> {
    Upper(&'a Word),
    Lower(&'a Word),
    Keyword(Keyword, &'a Word),
    Number(u32),
    Load(&'a Word),
    Choice(&'a Word),
    Sign(Sign),
    Other,
}

fn sign_at(word: &[u8]) -> Option<Sign>
    ensures { result ≡ sign_of word.now }
{
    match word {
        [b'('] => Some(Sign::Open),
        [b')'] => Some(Sign::Close),
        [b','] => Some(Sign::Comma),
        [b'.'] => Some(Sign::Stop),
        [b'['] => Some(Sign::OpenBracket),
        [b']'] => Some(Sign::CloseBracket),
        [b'{'] => Some(Sign::OpenBrace),
        [b'}'] => Some(Sign::CloseBrace),
        [b':'] => Some(Sign::Colon),
        [b'!'] => Some(Sign::Not),
        [b'&'] => Some(Sign::And),
        [b'|'] => Some(Sign::Or),
        [b'='] => Some(Sign::Equal),
        [b'<'] => Some(Sign::Less),
        [b'>'] => Some(Sign::More),
        [b'+'] => Some(Sign::Plus),
        [b'-'] => Some(Sign::Minus),
        [b'*'] => Some(Sign::Times),
        [b'-', b'>'] => Some(Sign::Implies),
        [b'<', b'='] => Some(Sign::AtMost),
        [b'>', b'='] => Some(Sign::AtLeast),
        [b'!', b'='] => Some(Sign::Unequal),
        [b'<', b'-', b'>'] => Some(Sign::Iff),
        _ => None,
    }
}

/// Whether the word is spelled so.
fn is(word: &[u8], name: &str) -> bool
    ensures { result ≡ bytes_eq word.now name.now }
{
    word == name.as_bytes()
}

fn keyword_at(word: &[u8]) -> Option<Keyword>
    ensures { result ≡ keyword_of word.now }
{
    if is(word, "sort") {
        Some(Keyword::Sort)
    } else if is(word, "reified") {
        Some(Keyword::Reified)
    } else if is(word, "function") {
        Some(Keyword::Function)
    } else if is(word, "event") {
        Some(Keyword::Event)
    } else if is(word, "fluent") {
        Some(Keyword::Fluent)
    } else if is(word, "noninertial") {
        Some(Keyword::Noninertial)
    } else if is(word, "predicate") {
        Some(Keyword::Predicate)
    } else if is(word, "range") {
        Some(Keyword::Range)
    } else if is(word, "completion") {
        Some(Keyword::Completion)
    } else if is(word, "xor") {
        Some(Keyword::Xor)
    } else if is(word, "mutex") {
        Some(Keyword::Mutex)
    } else if is(word, "ignore") {
        Some(Keyword::Ignore)
    } else {
        None
    }
}

/// The number that the digits spell, where it is not too large.
fn number_at(digits: &[u8]) -> Option<u32>
    ensures { result ≡ number_of digits.now }
{
    let n = value(digits);
    if n > LARGEST { None } else { Some(n) }
}

/// The mark of a token.
pub(crate) fn mark_at(token: &Token) -> Mark<'_>
    ensures { seen result ≡ mark_of token.now }
{
    match token.kind {
        Kind::Upper => Mark::Upper(&token.word),
        Kind::Lower => match keyword_at(token.word.bytes()) {
            Some(keyword) => Mark::Keyword(keyword, &token.word),
            None => Mark::Lower(&token.word),
        },
        Kind::Number => match number_at(token.word.bytes()) {
            Some(number) => Mark::Number(number),
            None => Mark::Other,
        },
        Kind::Load => Mark::Load(&token.word),
        Kind::Choice => Mark::Choice(&token.word),
        Kind::Sign => match sign_at(token.word.bytes()) {
            Some(sign) => Mark::Sign(sign),
            None => Mark::Other,
        },
    }
}

/// The marks of the tokens.
pub(crate) fn marks_at<'a>(alloc: Global, tokens: &'a [Token]) -> Result<Vec<Mark<'a>>, AllocError>
    ensures { IfOk result (λ found. seen_all found.items ≡ marks tokens.now) }
{
    let mut found = Vec::with_capacity(alloc, tokens.len())?;
    for token in tokens {
        found.push(mark_at(token))?;
    }
    Ok(found)
}

/// The first mark, and those after it.
pub(crate) fn next<'s, 'a>(marks: &'s [Mark<'a>]) -> Option<(Mark<'a>, &'s [Mark<'a>])>
    ensures { MatchOption result (seen_all marks.now ≡ []) (λ r. seen_all marks.now ≡ seen r.0 ∷ seen_all r.1.now) }
{
    match marks {
        [mark, rest @ ..] => Some((*mark, rest)),
        [] => None,
    }
}

/// What stands after the sign, where that comes first.
pub(crate) fn after<'s, 'a>(marks: &'s [Mark<'a>], sign: Sign) -> Option<&'s [Mark<'a>]>
    ensures { MatchOption result (Lacks (seen_all marks.now) (spec.sign sign)) (λ rest. seen_all marks.now ≡ spec.sign sign ∷ seen_all rest.now) }
{
    match next(marks) {
        Some((Mark::Sign(first), rest)) if first == sign => Some(rest),
        _ => None,
    }
}
