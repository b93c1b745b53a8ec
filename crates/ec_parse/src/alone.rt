//! Loads and options.
ghost use Rattle.std.specs.Prelude.{◌≡◌, ◌∷◌, [], ◌≤◌, length, MatchOption, None, Some, true, false};
ghost use Rattle.std.specs.List.{prefix_len};
ghost use Rattle.ec_parse.specs.Mark.{seen_all};
ghost use Rattle.ec_parse.specs.Mark as spec;
ghost use Rattle.ec_parse.specs.Lines.{IsAlone, first_word, after_word};
ghost use Rattle.ec_parse.specs.Lines as lines;
ghost use Rattle.ec_parse.specs.Reads.{Whole};
ghost use Rattle.ec_syntax.specs.View.{content_of};

use crate::fault::Fault;
use crate::line::ends;
use crate::mark::{Mark, next};
use crate::term::copied;
use ec_lex::word::Word;
use ec_syntax::statement::Content;
use std::alloc::Global;

fn is_space(b: u8) -> bool
    ensures { result ≡ lines.is_space b }
{
    b == b' ' || b == b'\t' || b == b'\r' || b == b'\n'
}

fn spaces_len(text: &[u8]) -> usize
    ensures value { result ≡ prefix_len lines.is_space text.now }
    ensures within { result ≤ length text.now }
{
    text.iter().take_while(|b| is_space(**b)).count()
}

fn inside_len(text: &[u8]) -> usize
    ensures value { result ≡ prefix_len lines.is_inside text.now }
    ensures within { result ≤ length text.now }
{
    text.iter().take_while(|b| !is_space(**b)).count()
}

/// The first word of the text, which is empty where there is none, and what stands behind it.
fn cut(text: &[u8]) -> (&[u8], &[u8])
    ensures word { result.0.now ≡ first_word text.now }
    ensures rest { result.1.now ≡ after_word text.now }
{
    let (_, text) = text.split_at(spaces_len(text));
    text.split_at(inside_len(text))
}

/// The option with an effect that the word names.
fn choice_at(word: &[u8]) -> Option<&'static str>
    ensures { MatchOption result (lines.is_choice word.now ≡ false) (λ name. (lines.is_choice word.now ≡ true) × (name.now ≡ word.now)) }
{
    if word == b"manualrelease".as_slice() {
        Some("manualrelease")
    } else if word == b"timediff".as_slice() {
        Some("timediff")
    } else {
        None
    }
}

fn switch_at(word: &[u8]) -> Option<bool>
    ensures { result ≡ lines.switch_of word.now }
{
    if word == b"on".as_slice() {
        Some(true)
    } else if word == b"off".as_slice() {
        Some(false)
    } else {
        None
    }
}

fn load(text: &Word) -> Result<Content, Fault>
    ensures { Whole content_of IsAlone (spec.load text.now ∷ []) result }
{
    if text.bytes().is_empty() {
        return Err(Fault::Syntax);
    }
    Ok(Content::Load(copied(text)?))
}

fn choice(alloc: Global, text: &Word) -> Result<Content, Fault>
    ensures { Whole content_of IsAlone (spec.choice text.now ∷ []) result }
{
    let (first, rest) = cut(text.bytes());
    if first.is_empty() {
        return Err(Fault::Syntax);
    }
    let Some(name) = choice_at(first) else {
        return Ok(Content::Ignored);
    };
    let (second, rest) = cut(rest);
    let Some(on) = switch_at(second) else {
        return Err(Fault::Syntax);
    };
    let (third, _) = cut(rest);
    if !third.is_empty() {
        return Err(Fault::Syntax);
    }
    let name = Word::of(alloc, name.as_bytes())?;
    Ok(Content::Choice { name, on })
}

/// A load or an option.
pub(crate) fn alone(alloc: Global, marks: &[Mark<'_>]) -> Result<Content, Fault>
    ensures { Whole content_of IsAlone (seen_all marks.now) result }
{
    let Some((mark, rest)) = next(marks) else {
        return Err(Fault::Syntax);
    };
    if !ends(rest) {
        return Err(Fault::Syntax);
    }
    match mark {
        Mark::Load(text) => load(text),
        Mark::Choice(text) => choice(alloc, text),
        _ => Err(Fault::Syntax),
    }
}
