//! The lines of a text of bytes, each with its end; they are counted from 1.
use std::alloc::{AllocError, Global};

/// One more than the lines that end.
pub fn line_behind(bytes: &[u8]) -> usize {
    let ends = bytes.iter().filter(|byte| **byte == b'\n');
    ends.count().saturating_add(1)
}

/// How many lines there are; the last one may lack its end.
pub fn count(bytes: &[u8]) -> usize {
    bytes.split_inclusive(|byte| *byte == b'\n').count()
}

/// The text with another one in place of a line, or as it is where there is no such line.
pub fn replaced(
    alloc: Global,
    bytes: &[u8],
    number: usize,
    text: &[u8],
) -> Result<Vec<u8>, AllocError> {
    let mut out = Vec::new(alloc);
    let mut at = 0usize;
    for line in bytes.split_inclusive(|byte| *byte == b'\n') {
        at = at.saturating_add(1);
        out.extend_from_slice(if at == number { text } else { line })?;
    }
    Ok(out)
}

/// The text with a line behind the next one, or as it is where there are no such two lines, or where they are the same.
pub fn exchanged(alloc: Global, bytes: &[u8], number: usize) -> Result<Vec<u8>, AllocError> {
    let mut out = Vec::new(alloc);
    let mut at = 0usize;
    let mut kept = b"".as_slice();
    for line in bytes.split_inclusive(|byte| *byte == b'\n') {
        at = at.saturating_add(1);
        if at == number {
            kept = line;
            continue;
        }
        out.extend_from_slice(line)?;
        out.extend_from_slice(kept)?;
        kept = b"";
    }
    out.extend_from_slice(kept)?;
    Ok(out)
}

/// The lines before one, and the first half of that one, rounded down.
pub fn up_to_half(bytes: &[u8], number: u64) -> &[u8] {
    let mut line = 0u64;
    let mut end = 0usize;
    for text in bytes.split_inclusive(|byte| *byte == b'\n') {
        line = line.saturating_add(1);
        if line == number {
            end = end.saturating_add(text.len() / 2);
            break;
        }
        end = end.saturating_add(text.len());
    }
    bytes.get(..end).unwrap_or(bytes)
}
