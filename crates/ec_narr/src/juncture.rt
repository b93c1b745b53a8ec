//! What stands where a narrative may begin.
ghost use Rattle.std.specs.Prelude.{◌≡◌, ◌+◌, ◌<◌, ◌^◌, ◌↔◌, IsTrue, IfOk, List, ℕ, MatchOption};
ghost use Rattle.ec_clause.specs.declared.ending.Ending.{Ending};
ghost use Rattle.ec_logic.specs.Listing as listing;
ghost use Rattle.ec_log.specs.Ending.{IsEnding};
ghost use Rattle.ec_listing.specs.Endings.{list_ending};
ghost use Rattle.ec_listing.specs.Reading.{model_text, HasNumber, IsLast};
ghost use Rattle.ec_narr.specs.Reading.{IsJuncture};

use crate::passing::after_line;
use ec_clause::ending::Ending;
use ec_edge::{first_line, push_number};
use ec_log::read_ending;
use std::alloc::{AllocError, Global};

/// What stands at the place of a `model` line.
#[derive(Clone, Copy)]
pub enum Juncture<'a> {
    /// A last line with the right number, and these bytes behind it.
    Last(Ending, &'a [u8]),
    /// The next `model` line, and these bytes behind it.
    Model(&'a [u8]),
    /// None of them.
    Neither,
}

// The first line of a narrative, without its byte 10.
fn model_line(alloc: Global, number: u64) -> Result<Vec<u8>, AllocError>
    ensures { IfOk result (λ text. text.items ≡ model_text number) }
{
    let mut out = Vec::new(alloc);
    out.extend_from_slice(b"model ")?;
    push_number(&mut out, number)?;
    out.extend_from_slice(b":")?;
    Ok(out)
}

// Whether an ending is right behind so many narratives.
fn has_number(ending: Ending, count: u64) -> bool
    requires { IsEnding ending }
    ensures { IsTrue result ↔ HasNumber count (list_ending ending) }
{
    match ending {
        Ending::Complete(number) | Ending::Models(number) => number == count,
        Ending::Conflicts(_) => true,
    }
}

// The last line that the bytes begin with, and what stands behind it.
fn last_line(bytes: &[u8], count: u64) -> Option<(Ending, &[u8])>
    ensures { MatchOption result
        ((ending : listing.Ending) (rest : List ℕ) → IsLast count bytes.now ending rest → ⊥)
        (λ p. IsLast count bytes.now (list_ending p.0) p.1.now) }
{
    let Some((text, behind)) = first_line(bytes) else {
        return None;
    };
    let Some(ending) = read_ending(text) else {
        return None;
    };
    if has_number(ending, count) {
        Some((ending, behind))
    } else {
        None
    }
}

/// What the bytes begin with behind so many narratives.
pub fn juncture_of(alloc: Global, bytes: &[u8], count: u64) -> Result<Juncture<'_>, AllocError>
    requires { count + 1 < 2 ^ 64 }
    ensures { IfOk result (λ juncture. IsJuncture count bytes.now juncture) }
{
    let text = model_line(alloc, count + 1)?;
    if let Some(behind) = after_line(bytes, &text) {
        return Ok(Juncture::Model(behind));
    }
    match last_line(bytes, count) {
        Some((ending, behind)) => Ok(Juncture::Last(ending, behind)),
        None => Ok(Juncture::Neither),
    }
}
