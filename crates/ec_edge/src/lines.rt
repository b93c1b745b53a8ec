//! Text by its lines: cut at a line's end, and put to a sink line by line.
ghost use Rattle.std.specs.Prelude.{◌≡◌, ◌≤◌, ◌<◌, ◌++◌, ◌∷◌, option_map, length, IfSome, IfNone, MatchOption, OnOk, OnErr, IsTrue, IsErrOf, None, List, ℕ, ◌≢◌};
ghost use Rattle.ec_edge.specs.Causes.{Rose};
ghost use Rattle.ec_edge.specs.Lines.{cut_at, cut_line};
ghost use Rattle.ec_edge.specs.Pieces.{AppendsPrefix};

use crate::{Sink, SinkFault};
use bstr::ByteSlice;

/// Cuts a text at the first byte of this value: what stands before it and what stands after it,
/// or none where there is no such byte. It takes time linear in the first part.
pub fn cut(text: &[u8], byte: u8) -> Option<(&[u8], &[u8])>
    ensures exact { option_map (λ p. (p.0.now, p.1.now)) result ≡ cut_at byte text.now }
    ensures whole { IfSome result (λ p. text.now ≡ p.0.now ++ byte ∷ p.1.now) }
{
    text.split_once_str(&[byte])
}

/// Cuts a text at its first byte 10: the first line without its end, and what follows it.
pub fn first_line(text: &[u8]) -> Option<(&[u8], &[u8])>
    ensures exact { option_map (λ p. (p.0.now, p.1.now)) result ≡ cut_line text.now }
    ensures whole { IfSome result (λ p. text.now ≡ p.0.now ++ 10 ∷ p.1.now) }
{
    cut(text, b'\n')
}

/// What stands behind a prefix, or none where the text does not begin with it.
pub fn after_prefix<'a>(text: &'a [u8], prefix: &[u8]) -> Option<&'a [u8]>
    ensures { MatchOption result ((rest : List ℕ) → text.now ≢ prefix.now ++ rest)
        (λ rest. text.now ≡ prefix.now ++ rest.now) }
{
    text.strip_prefix(prefix)
}

// The first line with its byte 10, and what follows it.
fn ended_line(text: &[u8]) -> Option<(&[u8], &[u8])>
    ensures whole { IfSome result (λ p. text.now ≡ p.0.now ++ p.1.now) }
    ensures some { IfSome result (λ p. 0 < length p.0.now) }
    ensures last { IfNone result (cut_line text.now ≡ None) }
{
    match first_line(text) {
        Some((line, _)) => Some(text.split_at(line.len() + 1)),
        None => None,
    }
}

/// Puts a text, each of its lines by one call of `put`, and what follows the last line by one more.
///
/// After a failure the sink has gained a prefix of the text.
pub fn put_text<O: Sink>(out: &mut O, text: &[u8]) -> Result<(), SinkFault>
    ensures ok { IsTrue (O.tells out.old) → OnOk result (O.bytes out.new ≡ O.bytes out.old ++ text.now) }
    ensures part { IsTrue (O.tells out.old) →
        OnErr result (AppendsPrefix text.now (O.bytes out.old) (O.bytes out.new)) }
    ensures failed { IsErrOf result SinkFault.Failed → Rose (O.faults out.old) (O.faults out.new) }

    ensures tells { O.tells out.new ≡ O.tells out.old }
    ensures faults { O.faults out.old ≤ O.faults out.new }
{
    let mut rest = text;
    while let Some((line, after)) = ended_line(rest) {
        out.put(line)?;
        rest = after;
    }
    if !rest.is_empty() {
        out.put(rest)?;
    }
    Ok(())
}
