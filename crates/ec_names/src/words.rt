//! Copies of words.
ghost use Rattle.std.specs.Prelude.{◌≡◌, IfOk, map, option_map};
ghost use Rattle.std.specs.Str.{IsUtf8};

use ec_lex::word::Word;
use std::alloc::{AllocError, Global};

pub(crate) fn copied(word: &Word) -> Result<Word, AllocError>
    ensures { IfOk result (λ w. w ≡ word.now) }
{
    word.clone()
}

pub(crate) fn copied_words(alloc: Global, words: &[Word]) -> Result<Vec<Word>, AllocError>
    ensures { IfOk result (λ ws. ws.items ≡ words.now) }
{
    let mut copies = Vec::with_capacity(alloc, words.len())?;
    for word in words {
        copies.push(copied(word)?)?;
    }
    Ok(copies)
}

/// The word of a text.
pub(crate) fn word(alloc: Global, text: &str) -> Result<Word, AllocError>
    ensures { IfOk result (λ w. w ≡ text.now) }
{
    Word::of(alloc, text.as_bytes())
}

pub(crate) fn words(alloc: Global, texts: &[&str]) -> Result<Vec<Word>, AllocError>
    ensures { IfOk result (λ ws. ws.items ≡ map (λ t. t.now) texts.now) }
{
    let mut words = Vec::with_capacity(alloc, texts.len())?;
    for text in texts {
        words.push(word(alloc, text)?)?;
    }
    Ok(words)
}
