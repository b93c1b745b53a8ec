//! The words of an ending, both ways.
ghost use Rattle.std.specs.Prelude.{◌≡◌, ◌≢◌, ◌++◌, decimal, MatchOption, OnOk};
ghost use Rattle.ec_clause.specs.declared.ending.Ending.{Ending};
ghost use Rattle.ec_log.specs.Ending.{ending_text, IsEnding};

use crate::numbers::read_within;
use ec_clause::ending::Ending;
use ec_edge::{after_prefix, push_number, read_number};
use std::alloc::AllocError;

/// Adds the words of an ending, as `complete: 3` or `limit: models 10`: the last line of a list,
/// and what stands in the last line of a log. After an `Err` a part of them may have been added.
pub fn push_ending(out: &mut Vec<u8>, ending: &Ending) -> Result<(), AllocError>
    ensures { OnOk result (out.new.items ≡ out.old.items ++ ending_text ending.now) }
{
    match ending {
        Ending::Complete(number) => push_words(out, b"complete: ", *number),
        Ending::Models(number) => push_words(out, b"limit: models ", *number),
        Ending::Conflicts(number) => push_words(out, b"limit: conflicts ", *number),
    }
}

#[tactic(auto, using(std::proofs::Common::append_assoc))]
fn push_words(out: &mut Vec<u8>, words: &[u8], number: u64) -> Result<(), AllocError>
    ensures { OnOk result (out.new.items ≡ out.old.items ++ (words.now ++ decimal number)) }
{
    out.extend_from_slice(words)?;
    push_number(out, number)
}

/// The ending whose words these bytes are, or none where they are no such words.
pub fn read_ending(text: &[u8]) -> Option<Ending>
    ensures { MatchOption result ((e : Ending) → IsEnding e → text.now ≢ ending_text e) (λ e. IsEnding e × (text.now ≡ ending_text e)) }
{
    if let Some(number) = after_prefix(text, b"complete: ") {
        return match read_number(number) {
            Some(n) => Some(Ending::Complete(n)),
            None => None,
        };
    }
    if let Some(number) = after_prefix(text, b"limit: models ") {
        return match read_within(number, 1, u64::MAX) {
            Some(n) => Some(Ending::Models(n)),
            None => None,
        };
    }
    if let Some(number) = after_prefix(text, b"limit: conflicts ") {
        return match read_within(number, 1, u64::MAX) {
            Some(n) => Some(Ending::Conflicts(n)),
            None => None,
        };
    }
    None
}
