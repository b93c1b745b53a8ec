//! The lines of a log, spelled with the byte 10 that ends each.
ghost use Rattle.std.specs.Prelude.{◌≡◌, ◌++◌, ◌+◌, ◌^◌, ◌≤◌, ◌<◌, All, false, IfOk, OnOk, slice_index_or};
ghost use Rattle.std.specs.List.{flat_map};
ghost use Rattle.ec_clause.specs.Ending.{number_of};
ghost use Rattle.ec_log.specs.Digits.{bit, digit_of, digits_of};
ghost use Rattle.ec_log.specs.Kept.{entry_line, EntryHasRange};
ghost use Rattle.ec_log.specs.Line.{Header, Derived, Blocked, End, IsLit, literal_word, number_word};
ghost use Rattle.ec_log.specs.Log.{forbidden, line_text};

use crate::endings::push_ending;
use crate::kept::{Entry, Kept};
use ec_clause::ending::Ending;
use ec_clause::lit::Lit;
use ec_edge::push_number;
use std::alloc::{AllocError, Global};

// The line of an entry, and the byte 10.
pub(crate) fn entry_text(alloc: Global, entry: &Entry) -> Result<Vec<u8>, AllocError>
    ensures text { IfOk result (λ line. line.items ≡ line_text (entry_line entry.now)) }
    ensures range { OnOk result (EntryHasRange entry.now) }
{
    match entry {
        Entry::Header { variables, clauses } => header_line(alloc, *variables, *clauses),
        Entry::Note(Kept::Derived(lits, hints)) => derived_line(alloc, lits, hints),
        Entry::Note(Kept::Blocked(lits)) => blocked_line(alloc, lits),
        Entry::End(ending) => end_line(alloc, ending),
    }
}

fn header_line(alloc: Global, variables: u32, clauses: u32) -> Result<Vec<u8>, AllocError>
    ensures { IfOk result (λ line. line.items ≡ line_text (Header variables clauses)) }
{
    let mut line = Vec::from_slice(alloc, b"log 1 ")?;
    push_number(&mut line, u64::from(variables))?;
    line.push(b' ')?;
    push_number(&mut line, u64::from(clauses))?;
    line.push(b'\n')?;
    Ok(line)
}

fn end_line(alloc: Global, ending: &Ending) -> Result<Vec<u8>, AllocError>
    ensures text { IfOk result (λ line. line.items ≡ line_text (End ending.now)) }
    ensures range { OnOk result (number_of ending.now < 2 ^ 64) }
{
    // What is read has the range of its type.
    let _number = ending.number();
    let mut line = Vec::from_slice(alloc, b"end ")?;
    push_ending(&mut line, ending)?;
    line.push(b'\n')?;
    Ok(line)
}

fn derived_line(alloc: Global, lits: &[Lit], hints: &[u32]) -> Result<Vec<u8>, AllocError>
    ensures text { IfOk result (λ line. line.items ≡ line_text (Derived lits.now hints.now)) }
    ensures literals { OnOk result (All IsLit lits.now) }
    ensures hints { OnOk result (All (λ hint. hint < 2 ^ 32) hints.now) }
{
    let mut line = Vec::from_slice(alloc, b"d ")?;
    push_literals(&mut line, lits)?;
    line.extend_from_slice(b"0 ")?;
    push_hints(&mut line, hints)?;
    line.push(b'0')?;
    line.push(b'\n')?;
    Ok(line)
}

fn blocked_line(alloc: Global, lits: &[Lit]) -> Result<Vec<u8>, AllocError>
    ensures { IfOk result (λ line. line.items ≡ line_text (Blocked (digits_of (forbidden lits.now)))) }
{
    let mut line = Vec::from_slice(alloc, b"b ")?;
    push_digits(&mut line, lits)?;
    line.push(b'\n')?;
    Ok(line)
}

fn push_literals(line: &mut Vec<u8>, lits: &[Lit]) -> Result<(), AllocError>
    ensures bytes { OnOk result (line.new.items ≡ line.old.items ++ flat_map literal_word lits.now) }
    ensures range { OnOk result (All IsLit lits.now) }
{
    for lit in lits {
        push_literal(line, *lit)?;
    }
    Ok(())
}

fn push_literal(line: &mut Vec<u8>, lit: Lit) -> Result<(), AllocError>
    ensures bytes { OnOk result (line.new.items ≡ line.old.items ++ literal_word lit) }
    ensures range { OnOk result (IsLit lit) }
{
    if !lit.positive() {
        line.push(b'-')?;
    }
    push_number(line, u64::from(lit.variable()))?;
    line.push(b' ')?;
    Ok(())
}

fn push_hints(line: &mut Vec<u8>, hints: &[u32]) -> Result<(), AllocError>
    ensures bytes { OnOk result (line.new.items ≡ line.old.items ++ flat_map number_word hints.now) }
    ensures range { OnOk result (All (λ hint. hint < 2 ^ 32) hints.now) }
{
    for hint in hints {
        push_number(line, u64::from(*hint))?;
        line.push(b' ')?;
    }
    Ok(())
}

// One hexadecimal digit for four literals, a negative one being a bit that is set.
fn push_digits(line: &mut Vec<u8>, lits: &[Lit]) -> Result<(), AllocError>
    ensures { OnOk result (line.new.items ≡ line.old.items ++ digits_of (forbidden lits.now)) }
{
    let mut rest = lits;
    while !rest.is_empty() {
        line.push(first_digit(rest))?;
        let (_, after) = rest.split_at(rest.len().min(4));
        rest = after;
    }
    Ok(())
}

// The digit of the first four literals.
fn first_digit(lits: &[Lit]) -> u8
    ensures { let bits = forbidden lits.now in result ≡ digit_of (slice_index_or bits 0 false)
        (slice_index_or bits 1 false) (slice_index_or bits 2 false) (slice_index_or bits 3 false) }
{
    let value = 8 * bit_at(lits, 0) + 4 * bit_at(lits, 1) + 2 * bit_at(lits, 2) + bit_at(lits, 3);
    if value < 10 {
        b'0' + value
    } else {
        b'a' + (value - 10)
    }
}

fn bit_at(lits: &[Lit], place: usize) -> u8
    ensures value { result ≡ bit (slice_index_or (forbidden lits.now) place false) }
    ensures small { result ≤ 1 }
{
    match lits.get(place) {
        Some(lit) => u8::from(!lit.positive()),
        None => 0,
    }
}
