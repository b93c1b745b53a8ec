//! The tokens of a file.
ghost use Rattle.std.specs.Prelude.{◌≡◌, ◌≤◌, ◌^◌, length, List, ℕ, Some, IfOk, All};
ghost use Rattle.ec_lex.specs.Bytes as spec;
ghost use Rattle.ec_lex.specs.Bytes.{IsLongest};
ghost use Rattle.ec_lex.specs.Lex.{Found, Lexes, Cuts, Answers, IsFormed, seen};

use crate::bytes::{after_comment, bad_in, front, is_blank, is_large, line_kind, line_text};
use crate::token::{Kind, LexFault, Token};
use crate::word::Word;
use std::alloc::Global;

/// The tokens of the bytes of a file, or its first fault.
///
/// It takes time and memory in proportion to the bytes.
pub fn tokens(alloc: Global, bytes: &[u8]) -> Result<Vec<Token>, LexFault>
    requires { length bytes.now ≤ 2 ^ 20 }
    ensures reading { Answers bytes.now (seen result) }
    ensures forms { IfOk result (λ found. All IsFormed found.items) }
{
    let mut found = Vec::new(alloc);
    let mut line: u32 = 1;
    let mut rest = bytes;
    'bytes: while let Some((first, after)) = rest.split_first() {
        if is_blank(*first) {
            rest = after;
        } else if *first == b'\n' {
            line += 1;
            rest = after;
        } else if *first == b';' {
            rest = after_comment(after);
        } else if let Some((kind, len)) = front(rest) {
            let (token, after) = taken(alloc, line, rest, kind, len)?;
            found.push(token)?;
            rest = after;
        } else {
            return Err(LexFault::BadByte { line, byte: *first });
        }
    }
    Ok(found)
}

/// The token that is the longest at the front, and what follows it.
fn taken(
    alloc: Global,
    line: u32,
    bytes: &[u8],
    kind: Kind,
    len: usize,
) -> Result<(Token, &[u8]), LexFault>
    requires { IsLongest bytes.now kind len }
    ensures { Cuts line bytes.now result }
{
    let (word, rest) = bytes.split_at(len);
    if let Some(kind) = line_kind(word) {
        let (text, rest) = line_text(rest);
        if let Some(byte) = bad_in(text) {
            return Err(LexFault::BadByte { line, byte });
        }
        let word = Word::of(alloc, text)?;
        return Ok((Token { kind, word, line }, rest));
    }
    let text = Word::of(alloc, word)?;
    if is_large(kind, word) {
        return Err(LexFault::TooLarge { line, word: text });
    }
    Ok((
        Token {
            kind,
            word: text,
            line,
        },
        rest,
    ))
}

/// Bytes have one reading at most: their tokens, or their first fault.
pub fn one_reading()
    ensures { (bytes : List ℕ) (r s : Found) → Lexes 1 bytes r → Lexes 1 bytes s → r ≡ s }
{}
