//! Lines of a text, passed where they are those of slots.
ghost use Rattle.std.specs.Prelude.{◌≡◌, ◌≢◌, ◌++◌, ◌<◌, ℕ, List, codes, length, map, not, MatchOption};
ghost use Rattle.ec_logic.specs.Narrative.{line};
ghost use Rattle.ec_listing.specs.Passing.{sign_of, IsLookedFor, IsWithin, Passes, Stops};
ghost use Rattle.ec_listing.specs.Slots.{changed};
ghost use Rattle.ec_listing.specs.Apart.{AreReadable};
ghost use Rattle.ec_narr.specs.Slots.{slot_view, slots_view};
ghost use Rattle.ec_narr.specs.Reading.{IsNarrative, StandsBehind};

use crate::slot::Slot;
use ec_edge::after_prefix;
use ec_row::Row;

/// What stands behind this line, where the bytes begin with it.
pub fn after_line<'a>(bytes: &'a [u8], text: &[u8]) -> Option<&'a [u8]>
    ensures { StandsBehind text.now bytes.now result }
{
    match after_prefix(bytes, text) {
        Some(behind) => after_prefix(behind, b"\n"),
        None => None,
    }
}

// The same of a line that is a sign and a text.
fn after_signed_line<'a>(bytes: &'a [u8], sign: &[u8], text: &[u8]) -> Option<&'a [u8]>
    ensures { StandsBehind (sign.now ++ text.now) bytes.now result }
{
    match after_prefix(bytes, sign) {
        Some(behind) => after_line(behind, text),
        None => None,
    }
}

// Gives an atom its value where its line stood next, and the other value where it didn't.
fn settle<'a>(
    truth: &mut Row,
    atom: u64,
    value: bool,
    bytes: &'a [u8],
    behind: Option<&'a [u8]>,
) -> &'a [u8]
    requires { atom < length truth.old }
    ensures { (text : List ℕ) → StandsBehind text bytes.now behind.entry →
        IsLookedFor atom value text truth.old bytes.now truth.new result.now }
{
    match behind {
        Some(rest) => {
            truth.set(atom as usize, value);
            rest
        }
        None => {
            truth.set(atom as usize, !value);
            bytes
        }
    }
}

fn sign_where(held: bool) -> &'static [u8]
    ensures { result.now ≡ sign_of held }
{
    if held { b"-" } else { b"+" }
}

fn pass_change<'a>(
    truth: &mut Row,
    earlier: u64,
    atom: u64,
    text: &[u8],
    bytes: &'a [u8],
) -> &'a [u8]
    requires within { IsWithin (length truth.old) (changed earlier atom text.now) }
    ensures { Passes (changed earlier atom text.now) truth.old bytes.now truth.new result.now }
{
    let held = truth.get(earlier as usize);
    let behind = after_signed_line(bytes, sign_where(held), text);
    settle(truth, atom, !held, bytes, behind)
}

// What stands behind the line of a slot, or the bytes where it has none, and the truth of its atom. None where a
// line that is always there doesn't stand next.
fn pass<'a>(truth: &mut Row, slot: &Slot, bytes: &'a [u8]) -> Option<&'a [u8]>
    requires { IsWithin (length truth.old) (slot_view slot.now) }
    ensures { MatchOption result (Stops (slot_view slot.now) bytes.now truth.old truth.new)
        (λ rest. Passes (slot_view slot.now) truth.old bytes.now truth.new rest.now) }
{
    match slot {
        Slot::Fixed(text) => after_line(bytes, text),
        Slot::Told { atom, text } => {
            let behind = after_line(bytes, text);
            Some(settle(truth, *atom, true, bytes, behind))
        }
        Slot::Changed {
            earlier,
            atom,
            text,
        } => Some(pass_change(truth, *earlier, *atom, text, bytes)),
        Slot::Silent(atom) => {
            truth.set(*atom as usize, true);
            Some(bytes)
        }
    }
}

/// How the lines behind a `model` line go on.
#[derive(Clone, Copy)]
pub enum Narrative<'a> {
    /// They are all of a narrative, and these bytes stand behind it.
    Whole(&'a [u8]),
    /// No narrative goes on with these bytes.
    Broken(&'a [u8]),
}

/// Reads a narrative behind its `model` line, slot by slot, and gives the row its truth. It takes time linear in the
/// slots and their texts.
pub fn read_slots<'a>(truth: &mut Row, slots: &[Slot], bytes: &'a [u8]) -> Narrative<'a>
    requires { AreReadable (length truth.old) (slots_view slots.now) }
    ensures { IsNarrative (length truth.old) (slots_view slots.now) bytes.now truth.new result }
{
    let mut rest = bytes;
    for slot in slots {
        match pass(truth, slot, rest) {
            Some(behind) => rest = behind,
            None => return Narrative::Broken(rest),
        }
    }
    Narrative::Whole(rest)
}
