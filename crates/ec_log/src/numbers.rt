//! The numbers and literals of a line, read from their own bytes.
ghost use Rattle.std.specs.Prelude.{◌≡◌, ◌≢◌, ◌≤◌, ℕ, decimal, MatchOption};
ghost use Rattle.ec_clause.specs.Literal.{Literal};
ghost use Rattle.ec_log.specs.Line.{literal_text, IsLit, IsHint};

use ec_clause::lit::Lit;
use ec_edge::{after_prefix, read_number};

// The largest number of variables, of clauses, and of a clause.
pub(crate) const LARGEST_NUMBER: u64 = u32::MAX as u64;

const LARGEST_VARIABLE: u64 = i32::MAX as u64;

// The number whose digits these bytes are, where it is within the range.
pub(crate) fn read_within(text: &[u8], low: u64, high: u64) -> Option<u64>
    ensures { MatchOption result ((n : ℕ) → low ≤ n → n ≤ high → text.now ≢ decimal n)
        (λ n. (low ≤ n) × (n ≤ high) × (text.now ≡ decimal n)) }
{
    let Some(n) = read_number(text) else {
        return None;
    };
    if n < low {
        return None;
    }
    if n > high {
        return None;
    }
    Some(n)
}

// The number of a clause.
pub(crate) fn read_hint(text: &[u8]) -> Option<u32>
    ensures { MatchOption result ((n : ℕ) → IsHint n → text.now ≢ decimal n)
        (λ n. IsHint n × (text.now ≡ decimal n)) }
{
    match read_within(text, 1, LARGEST_NUMBER) {
        Some(n) => Some(n as u32),
        None => None,
    }
}

pub(crate) fn read_literal(text: &[u8]) -> Option<Lit>
    ensures { MatchOption result ((l : Literal) → IsLit l → text.now ≢ literal_text l)
        (λ l. IsLit l × (text.now ≡ literal_text l)) }
{
    if let Some(digits) = after_prefix(text, b"-") {
        return match read_within(digits, 1, LARGEST_VARIABLE) {
            Some(variable) => Some(Lit::new(variable as u32, false)),
            None => None,
        };
    }
    match read_within(text, 1, LARGEST_VARIABLE) {
        Some(variable) => Some(Lit::new(variable as u32, true)),
        None => None,
    }
}
