//! What bytes are, and how far words of them reach.
ghost use Rattle.std.specs.Prelude.{◌≡◌, ◌∷◌, [], ◌<◌, ◌≤◌, ◌+◌, ◌-◌, ◌^◌, length, drop, MatchOption, min, IsTrue};
ghost use Rattle.std.specs.List.{prefix_len, suffix_len};
ghost use Rattle.ec_lex.specs.Bytes as spec;
ghost use Rattle.ec_lex.specs.Bytes.{IsLongest, BeginsNone};
ghost use Rattle.ec_lex.specs.Lex.{past_comment};

use crate::number::{LARGEST, value};
use crate::token::Kind;

/// A blank within a line.
pub(crate) fn is_blank(b: u8) -> bool
    ensures { result ≡ spec.is_blank b }
{
    b == b' ' || b == b'\t' || b == b'\r'
}

fn is_word(b: u8) -> bool
    ensures { result ≡ spec.is_word b }
{
    b.is_ascii_alphanumeric() || b == b'_'
}

fn word_len(bytes: &[u8]) -> usize
    ensures value { result ≡ prefix_len spec.is_word bytes.now }
    ensures within { result ≤ length bytes.now }
{
    bytes.iter().take_while(|b| is_word(**b)).count()
}

fn digits_len(bytes: &[u8]) -> usize
    ensures value { result ≡ prefix_len spec.is_digit bytes.now }
    ensures within { result ≤ length bytes.now }
{
    bytes.iter().take_while(|b| b.is_ascii_digit()).count()
}

/// How many bytes the longest sign at the front has.
fn sign_len(bytes: &[u8]) -> Option<usize>
    ensures { result ≡ spec.first_prefix spec.signs bytes.now }
{
    match bytes {
        [b'<', b'-', b'>', ..] => Some(3),
        [b'-', b'>', ..] | [b'<' | b'>' | b'!', b'=', ..] => Some(2),
        [
            b'[' | b']' | b'{' | b'}' | b'(' | b')' | b',' | b'.' | b':',
            ..
        ] => Some(1),
        [
            b'!' | b'&' | b'|' | b'=' | b'<' | b'>' | b'+' | b'-' | b'*',
            ..
        ] => Some(1),
        _ => None,
    }
}

/// The kind and the length of the longest token at the front.
pub(crate) fn front(bytes: &[u8]) -> Option<(Kind, usize)>
    ensures { MatchOption result (BeginsNone bytes.now) (λ r. IsLongest bytes.now r.0 r.1) }
{
    let (first, rest) = bytes.split_first()?;
    if first.is_ascii_uppercase() {
        Some((Kind::Upper, 1 + word_len(rest)))
    } else if first.is_ascii_lowercase() {
        Some((Kind::Lower, 1 + word_len(rest)))
    } else if first.is_ascii_digit() {
        Some((Kind::Number, 1 + digits_len(rest)))
    } else {
        let len = sign_len(bytes)?;
        Some((Kind::Sign, len))
    }
}

/// Whether the word is a number that is too large.
pub(crate) fn is_large(kind: Kind, word: &[u8]) -> bool
    ensures { result ≡ spec.is_large kind word.now }
{
    kind == Kind::Number && value(word) > LARGEST
}

/// What follows a comment, from the end of its line on.
pub(crate) fn after_comment(bytes: &[u8]) -> &[u8]
    ensures rest { result.now ≡ past_comment bytes.now }
    ensures shorter { length result.now ≤ length bytes.now }
{
    let mut rest = bytes;
    while let Some((first, after)) = rest.split_first() {
        if *first == b'\n' {
            return rest;
        }
        rest = after;
    }
    rest
}

/// The kind of token that a word makes of the rest of its line.
pub(crate) fn line_kind(word: &[u8]) -> Option<Kind>
    ensures { result ≡ spec.line_kind word.now }
{
    if word == b"load".as_slice() {
        Some(Kind::Load)
    } else if word == b"option".as_slice() {
        Some(Kind::Choice)
    } else {
        None
    }
}

/// The text behind such a word, and what follows it.
pub(crate) fn line_text(bytes: &[u8]) -> (&[u8], &[u8])
    ensures text { result.0.now ≡ spec.line_text bytes.now }
    ensures rest { result.1.now ≡ spec.line_rest bytes.now }
    ensures shorter { length result.1.now ≤ length bytes.now }
{
    let (text, rest) = bytes.split_at(line_len(bytes));
    (trimmed(text), rest)
}

fn line_len(bytes: &[u8]) -> usize
    ensures value { result ≡ prefix_len spec.is_in_line bytes.now }
    ensures within { result ≤ length bytes.now }
{
    bytes
        .iter()
        .take_while(|b| **b != b';' && **b != b'\n')
        .count()
}

fn trimmed(bytes: &[u8]) -> &[u8]
    ensures { result.now ≡ spec.trimmed bytes.now }
{
    let bytes = &bytes[first_blanks(bytes)..];
    &bytes[..bytes.len() - last_blanks(bytes)]
}

fn first_blanks(bytes: &[u8]) -> usize
    ensures value { result ≡ prefix_len spec.is_blank bytes.now }
    ensures within { result ≤ length bytes.now }
{
    bytes.iter().take_while(|b| is_blank(**b)).count()
}

fn last_blanks(bytes: &[u8]) -> usize
    ensures value { result ≡ suffix_len spec.is_blank bytes.now }
    ensures within { result ≤ length bytes.now }
{
    bytes.iter().rev().take_while(|b| is_blank(**b)).count()
}

fn is_text(b: u8) -> bool
    ensures { result ≡ spec.is_text b }
{
    b == b'\t' || (b' ' <= b && b <= b'~')
}

/// The first byte that may not stand in the text of a load or an option.
pub(crate) fn bad_in(text: &[u8]) -> Option<u8>
    ensures { result ≡ spec.bad_in text.now }
{
    text.iter().copied().find(|b| !is_text(*b))
}
