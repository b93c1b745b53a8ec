//! Clause lists as text.
use differences::push_difference;
use ec_accept::{AcceptFault, accept};
use ec_clause::clauses::Clauses;
use ec_edge::MemFiles;
use ec_solve::clauses_of;
use std::alloc::{AllocError, Global};

/// The clauses in their order, each on a line, its literals by their variables' numbers.
fn spelled(alloc: Global, clauses: &Clauses) -> Result<String, AllocError> {
    let mut text = String::new(alloc);
    for number in 1..=clauses.len() {
        for lit in clauses.get(number) {
            let sign = if lit.positive() { "" } else { "-" };
            let word = format!(in alloc; "{sign}{} ", lit.variable())?;
            text.push_str(&word)?;
        }
        text.push('\n')?;
    }
    Ok(text)
}

/// The clause list of the root `r` that holds this text, where no other file is there.
fn clause_list(alloc: Global, text: &str) -> Result<String, AllocError> {
    let mut files = MemFiles::new(alloc);
    files.hold("r", text.as_bytes())?;
    match accept(alloc, &mut files, "r") {
        Ok(accepted) => {
            let list = clauses_of(alloc, &accepted.theory, &accepted.atoms)?;
            spelled(alloc, &list.clauses)
        }
        Err(AcceptFault::Memory) => Err(AllocError),
        Err(_) => String::from_str(alloc, "not accepted"),
    }
}

/// The texts with another clause list than the one that is wanted, and that list.
pub fn differing(alloc: Global, rows: &[(&str, &str)]) -> Result<String, AllocError> {
    let mut out = String::new(alloc);
    for (text, want) in rows {
        let list = clause_list(alloc, text)?;
        push_difference(&mut out, text, want, &list)?;
    }
    Ok(out)
}
