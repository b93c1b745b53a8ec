//! Texts put together of pieces, for bytes that no line shows and for what would be too long to write.
use crate::misread::Misread;
use std::alloc::{AllocError, Global};

/// How far an escape in a quoted text has come.
#[derive(Clone, Copy)]
enum Escape {
    None,
    Begun,
    Hex,
    HexAfter(u8),
}

fn hex_digit(byte: u8) -> Result<u8, Misread> {
    match byte {
        b'0'..=b'9' => Ok(byte - b'0'),
        b'a'..=b'f' => Ok(byte - b'a' + 10),
        _ => Err(Misread::Piece),
    }
}

/// Adds what the next byte of a quoted text stands for.
fn push_quoted(out: &mut Vec<u8>, escape: Escape, byte: u8) -> Result<Escape, Misread> {
    let plain = match (escape, byte) {
        (Escape::None, b'\\') => return Ok(Escape::Begun),
        (Escape::None, _) => byte,
        (Escape::Begun, b'n') => b'\n',
        (Escape::Begun, b'r') => b'\r',
        (Escape::Begun, b't') => b'\t',
        (Escape::Begun, b'\\' | b'"') => byte,
        (Escape::Begun, b'x') => return Ok(Escape::Hex),
        (Escape::Begun, _) => return Err(Misread::Piece),
        (Escape::Hex, _) => return Ok(Escape::HexAfter(hex_digit(byte)?)),
        (Escape::HexAfter(first), _) => (first << 4) | hex_digit(byte)?,
    };
    out.push(plain)?;
    Ok(Escape::None)
}

/// The bytes of a quoted text: `\n`, `\r`, `\t`, `\\`, `\"` and `\xHH` stand for the bytes that they do in Rust.
fn unquoted(alloc: Global, quoted: &str) -> Result<Vec<u8>, Misread> {
    let mut out = Vec::new(alloc);
    let mut escape = Escape::None;
    for byte in quoted.as_bytes() {
        escape = push_quoted(&mut out, escape, *byte)?;
    }
    match escape {
        Escape::None => Ok(out),
        _ => Err(Misread::Piece),
    }
}

pub fn number(word: &str) -> Result<u32, Misread> {
    word.parse::<u32>().map_err(|_| Misread::Number)
}

/// How often a text stands there: as it is, or with each number of a range.
#[derive(Clone, Copy)]
enum Count {
    Times(u32),
    Numbers(u32, u32),
}

fn repeats(front: &str) -> Result<Count, Misread> {
    if front.is_empty() {
        return Ok(Count::Times(1));
    }
    match front.split_once(" to ") {
        Some((first, last)) => Ok(Count::Numbers(number(first)?, number(last)?)),
        None => {
            let times = front.strip_suffix(" times").ok_or(Misread::Piece)?;
            Ok(Count::Times(number(times)?))
        }
    }
}

fn push_times(out: &mut Vec<u8>, times: u32, text: &[u8]) -> Result<(), Misread> {
    for _ in 0..times {
        out.extend_from_slice(text)?;
    }
    Ok(())
}

fn push_number(alloc: Global, out: &mut Vec<u8>, number: u32) -> Result<(), AllocError> {
    out.extend_from_slice(format!(in alloc; "{number}")?.as_bytes())
}

/// Adds a text once for each number of a range, with the number in place of `{}`.
fn push_numbered(
    alloc: Global,
    out: &mut Vec<u8>,
    first: u32,
    last: u32,
    quoted: &str,
) -> Result<(), Misread> {
    let (front, back) = quoted.split_once("{}").ok_or(Misread::Piece)?;
    let front = unquoted(alloc, front)?;
    let back = unquoted(alloc, back)?;
    for number in first..=last {
        out.extend_from_slice(&front)?;
        push_number(alloc, out, number)?;
        out.extend_from_slice(&back)?;
    }
    Ok(())
}

/// Adds a piece: `"TEXT"`, `N times "TEXT"`, or `N to N "TEXT"`.
fn push_piece(alloc: Global, out: &mut Vec<u8>, line: &str) -> Result<(), Misread> {
    let (front, quoted) = line.split_once("\"").ok_or(Misread::Piece)?;
    let quoted = quoted.strip_suffix("\"").ok_or(Misread::Piece)?;
    match repeats(front.trim())? {
        Count::Times(times) => push_times(out, times, &unquoted(alloc, quoted)?),
        Count::Numbers(first, last) => push_numbered(alloc, out, first, last, quoted),
    }
}

/// The text that pieces come to, one piece a line.
pub fn joined(alloc: Global, block: &str) -> Result<Vec<u8>, Misread> {
    let mut out = Vec::new(alloc);
    for line in block.lines() {
        push_piece(alloc, &mut out, line)?;
    }
    Ok(out)
}
