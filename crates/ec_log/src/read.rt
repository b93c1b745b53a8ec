//! A line of a log, read from its bytes.
ghost use Rattle.std.specs.Prelude.{◌≡◌, ◌≢◌, ◌++◌, ℕ, List, codes, IfOk, IsErrOf, IsTrue, ◌↔◌};
ghost use Rattle.std.specs.List.{flat_map, AllByRecursion};
ghost use Rattle.ec_clause.specs.Literal.{Literal};
ghost use Rattle.ec_log.specs.Digits.{IsHexDigit};
ghost use Rattle.ec_log.specs.Line.{LogLine, spelled, IsLine, literal_word, number_word, IsLit, IsHint};
ghost use Rattle.ec_log.specs.Reading.{IsRead, view};

use crate::endings::read_ending;
use crate::line::{Line, LineFault};
use crate::numbers::{LARGEST_NUMBER, read_hint, read_literal, read_within};
use ec_clause::lit::Lit;
use ec_edge::{after_prefix, cut};
use std::alloc::Global;

/// Reads a line of a log, without the byte 10 that ends it. It takes time linear in the bytes, and
/// memory for the line alone.
pub fn read_line(alloc: Global, bytes: &[u8]) -> Result<Line, LineFault>
    ensures read { IsRead bytes.now result }
    // No other line has these bytes.
    ensures only { (line : LogLine) → IsLine line → bytes.now ≡ spelled line → IfOk result (λ read. view read ≡ line) }
{
    read_by_first_word(alloc, bytes)
}

fn read_by_first_word(alloc: Global, bytes: &[u8]) -> Result<Line, LineFault>
    ensures { IsRead bytes.now result }
{
    if let Some(text) = after_prefix(bytes, b"log 1 ") {
        return read_header(text);
    }
    if let Some(text) = after_prefix(bytes, b"d ") {
        return read_derived(alloc, text);
    }
    if let Some(text) = after_prefix(bytes, b"b ") {
        return read_blocked(alloc, text);
    }
    if let Some(text) = after_prefix(bytes, b"end ") {
        return read_end(text);
    }
    Err(LineFault::Form)
}

fn read_header(text: &[u8]) -> Result<Line, LineFault>
    ensures { IsRead (codes "log 1 " ++ text.now) result }
{
    let Some((variables, clauses)) = cut(text, b' ') else {
        return Err(LineFault::Form);
    };
    let Some(variables) = read_within(variables, 0, LARGEST_NUMBER) else {
        return Err(LineFault::Form);
    };
    let Some(clauses) = read_within(clauses, 0, LARGEST_NUMBER) else {
        return Err(LineFault::Form);
    };
    Ok(Line::Header {
        variables: variables as u32,
        clauses: clauses as u32,
    })
}

fn read_derived(alloc: Global, text: &[u8]) -> Result<Line, LineFault>
    ensures { IsRead (codes "d " ++ text.now) result }
{
    let mut lits = Vec::new(alloc);
    match read_literals(&mut lits, text) {
        Ok(rest) => match read_hints(alloc, rest) {
            Ok(hints) => Ok(Line::Derived { lits, hints }),
            Err(fault) => Err(fault),
        },
        Err(fault) => Err(fault),
    }
}

fn read_blocked(alloc: Global, text: &[u8]) -> Result<Line, LineFault>
    ensures { IsRead (codes "b " ++ text.now) result }
{
    if !are_hex_digits(text) {
        return Err(LineFault::Form);
    }
    Ok(Line::Blocked {
        digits: Vec::from_slice(alloc, text)?,
    })
}

fn read_end(text: &[u8]) -> Result<Line, LineFault>
    ensures { IsRead (codes "end " ++ text.now) result }
{
    match read_ending(text) {
        Some(ending) => Ok(Line::End(ending)),
        None => Err(LineFault::Form),
    }
}

// Adds the literals before the digit 0 that ends them, and gives what stands behind it.
fn read_literals<'a>(lits: &mut Vec<Lit>, text: &'a [u8]) -> Result<&'a [u8], LineFault>
    ensures read { IfOk result (λ rest. flat_map literal_word lits.old.items ++ text.now
        ≡ flat_map literal_word lits.new.items ++ codes "0 " ++ rest.now) }
    ensures each { AllByRecursion IsLit lits.old.items → AllByRecursion IsLit lits.new.items }
    ensures form { IsErrOf result LineFault.Form → (more : List Literal) (rest : List ℕ) →
        AllByRecursion IsLit more → text.now ≢ flat_map literal_word more ++ codes "0 " ++ rest }
{
    let mut rest = text;
    while let Some((word, after)) = cut(rest, b' ') {
        if word == b"0".as_slice() {
            return Ok(after);
        }
        match read_literal(word) {
            Some(lit) => lits.push(lit)?,
            None => return Err(LineFault::Form),
        }
        rest = after;
    }
    Err(LineFault::Form)
}

// The hints before the digit 0 that ends them and the text.
fn read_hints(alloc: Global, text: &[u8]) -> Result<Vec<u32>, LineFault>
    ensures read { IfOk result (λ hints. text.now ≡ flat_map number_word hints.items ++ codes "0") }
    ensures each { IfOk result (λ hints. AllByRecursion IsHint hints.items) }
    ensures form { IsErrOf result LineFault.Form → (hints : List ℕ) →
        AllByRecursion IsHint hints → text.now ≢ flat_map number_word hints ++ codes "0" }
{
    let mut hints = Vec::new(alloc);
    let mut rest = text;
    while let Some((word, after)) = cut(rest, b' ') {
        match read_hint(word) {
            Some(hint) => hints.push(hint)?,
            None => return Err(LineFault::Form),
        }
        rest = after;
    }
    if rest != b"0".as_slice() {
        return Err(LineFault::Form);
    }
    Ok(hints)
}

fn are_hex_digits(text: &[u8]) -> bool
    ensures { IsTrue result ↔ AllByRecursion IsHexDigit text.now }
{
    for byte in text {
        if !is_hex_digit(*byte) {
            return false;
        }
    }
    true
}

fn is_hex_digit(byte: u8) -> bool
    ensures { IsTrue result ↔ IsHexDigit byte }
{
    matches!(byte, b'0'..=b'9' | b'a'..=b'f')
}
