//! A case file cut into its directives.
use std::alloc::{AllocError, Global};

/// A line at the margin, and the text that belongs to it.
#[derive(Drop)]
pub struct Directive {
    /// The line that it stands in, counted from 1.
    pub line: u32,
    /// What stands at the margin, up to a colon.
    pub head: String,
    /// The indented lines below it, or what stands behind its colon, each line with its end.
    pub block: String,
}

fn opened(alloc: Global, text: &str, line: u32) -> Result<Directive, AllocError> {
    let (head, short) = match text.split_once(": ") {
        Some((head, short)) if !head.starts_with("case ") => (
            head,
            format!(in alloc; "{short}\n")?,
        ),
        _ => (text, String::new(alloc)),
    };
    Ok(Directive {
        line,
        head: String::from_str(alloc, head)?,
        block: short,
    })
}

/// Adds a line to the block of the last directive, behind so many empty ones.
fn push_line(cut: &mut [Directive], line: &str, empty: u32) -> Result<bool, AllocError> {
    let Some(last) = cut.last_mut() else {
        return Ok(false);
    };
    for _ in 0..empty {
        last.block.push('\n')?;
    }
    last.block.push_str(line)?;
    last.block.push('\n')?;
    Ok(true)
}

/// The directives of a case file.
///
/// A line that begins with `#` is a comment. A line that begins with two spaces belongs to the
/// directive above it, and so do empty lines between two such lines. One that belongs to none is
/// taken for a directive, of which nobody knows the form.
pub fn directives(alloc: Global, text: &str) -> Result<Vec<Directive>, AllocError> {
    let mut cut = Vec::new(alloc);
    let mut empty = 0u32;
    let mut number = 0u32;
    for line in text.lines() {
        number = number.saturating_add(1);
        if line.is_empty() {
            empty = empty.saturating_add(1);
            continue;
        }
        let inner = line.strip_prefix("  ").unwrap_or("");
        let is_inner = line.starts_with("  ") && push_line(&mut cut, inner, empty)?;
        if !is_inner && !line.starts_with("#") {
            cut.push(opened(alloc, line, number)?)?;
        }
        empty = 0;
    }
    Ok(cut)
}
