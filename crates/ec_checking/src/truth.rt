//! A truth as a log has it: the digits of its line, and the clause that forbids it.
ghost use Rattle.std.specs.Prelude.{◌≡◌, ◌≤◌, ◌<◌, ◌^◌, ◌+◌, false, length, slice_index_or, IfOk};
ghost use Rattle.ec_certificate.specs.Accepted.{forbids};
ghost use Rattle.ec_log.specs.Digits.{bit, digits_of};
ghost use Rattle.ec_checking.specs.Digits.{digit_from};

use ec_clause::lit::Lit;
use ec_row::Row;
use std::alloc::{AllocError, Global};

/// The digits of the line that blocks a truth.
pub(crate) fn digits_of(alloc: Global, truth: &Row) -> Result<Vec<u8>, AllocError>
    requires { length truth.now < 2 ^ 31 }
    ensures { IfOk result (λ digits. digits.items ≡ digits_of truth.now) }
{
    let mut digits = Vec::new(alloc);
    for group in 0..truth.len().div_ceil(4) {
        digits.push(digit_at(truth, 4 * group))?;
    }
    Ok(digits)
}

// The digit of four truth values from a place on, where those behind the last are false.
fn digit_at(truth: &Row, place: usize) -> u8
    requires { place < 2 ^ 31 }
    ensures { result ≡ digit_from truth.now place }
{
    let high = 8 * bit_at(truth, place) + 4 * bit_at(truth, place + 1);
    let value = high + 2 * bit_at(truth, place + 2) + bit_at(truth, place + 3);
    if value < 10 {
        b'0' + value
    } else {
        b'a' + (value - 10)
    }
}

fn bit_at(truth: &Row, place: usize) -> u8
    ensures value { result ≡ bit (slice_index_or truth.now place false) }
    ensures small { result ≤ 1 }
{
    if place < truth.len() {
        u8::from(truth.get(place))
    } else {
        0
    }
}

/// The clause that forbids a truth of the variables from 1 on.
pub(crate) fn forbidding(alloc: Global, truth: &Row) -> Result<Vec<Lit>, AllocError>
    requires { length truth.now < 2 ^ 31 }
    ensures { IfOk result (λ lits. lits.items ≡ forbids truth.now) }
{
    let mut lits = Vec::new(alloc);
    for place in 0..truth.len() {
        lits.push(Lit::new(place as u32 + 1, !truth.get(place)))?;
    }
    Ok(lits)
}
