//! The line that says what is wrong with a list or a log, in the words of the file's theory.
ghost use Rattle.std.specs.Prelude.{◌≡◌, ◌<◌, ◌||◌, ◌++◌, length, not, Some, IfOk, OnOk, option_map, slice_get};
ghost use Rattle.ec_split.specs.Parts.{parts_of};
ghost use Rattle.ec_engine.specs.Check.{reason_line};
ghost use Rattle.ec_engine.specs.PartTexts.{part_text, released_fluents, sentence_place, symbol_of};

use ec_edge::push_number;
use ec_evidence::{Part, Reason};
use ec_theory::{Sentence, Signature, Theory};
use std::alloc::{AllocError, Global};

/// Whether a fluent has a release axiom: an inertial one has none where it is released by hand.
fn has_release_axiom(signature: &Signature, fluent: u32) -> bool
    requires { fluent < length signature.now.fluents }
    ensures { option_map (λ row. row.noninertial || not signature.now.manual_release) (slice_get signature.now.fluents fluent) ≡ Some result }
{
    signature.noninertial(fluent) || !signature.manual_release()
}

/// Adds the name of the fluent that a release axiom is about, by the axiom's place among the release axioms.
fn push_released(out: &mut Vec<u8>, signature: &Signature, place: u32) -> Result<(), AllocError>
    ensures { OnOk result (out.new.items ≡ out.old.items ++ symbol_of (slice_get (released_fluents signature.now) place)) }
{
    let mut left = place;
    for fluent in 0..signature.fluents() {
        if has_release_axiom(signature, fluent) {
            if left == 0 {
                out.extend_from_slice(signature.fluent_name(fluent).bytes())?;
                return Ok(());
            }
            left -= 1;
        }
    }
    Ok(())
}

/// Adds where a sentence stands, by its file and its line.
fn push_sentence(out: &mut Vec<u8>, sentence: &Sentence) -> Result<(), AllocError>
    ensures { OnOk result (out.new.items ≡ out.old.items ++ sentence_place (Some sentence.now)) }
{
    out.extend_from_slice(sentence.file.bytes())?;
    out.push(b':')?;
    push_number(out, u64::from(sentence.line))
}

/// Adds the name of a part of a theory.
fn push_part(out: &mut Vec<u8>, theory: &Theory, part: Part) -> Result<(), AllocError>
    ensures { OnOk result (out.new.items ≡ out.old.items ++ part_text (parts_of theory.now) part) }
{
    match part {
        Part::Remaining(place) => {
            if let Some(sentence) = theory.remaining.get(place as usize) {
                push_sentence(out, sentence)?;
            }
        }
        Part::Axiom(place) => {
            out.extend_from_slice(b"DEC")?;
            push_number(out, u64::from(place) + 5)?;
        }
        Part::Release(place) => {
            out.extend_from_slice(b"release ")?;
            push_released(out, &theory.signature, place)?;
        }
        Part::Group(place) => {
            out.extend_from_slice(b"group ")?;
            if let Some(group) = theory.groups.get(place as usize) {
                out.extend_from_slice(group.name.bytes())?;
            }
        }
    }
    Ok(())
}

/// The line that says what is wrong.
pub(crate) fn reason_line(
    alloc: Global,
    theory: &Theory,
    why: Reason,
) -> Result<Vec<u8>, AllocError>
    ensures { IfOk result (λ text. text.items ≡ reason_line (parts_of theory.now) why) }
{
    let mut out = Vec::new(alloc);
    match why {
        Reason::List(number) => {
            out.extend_from_slice(b"no list line ")?;
            push_number(&mut out, number)?;
        }
        Reason::Model { number, part } => {
            out.extend_from_slice(b"no model ")?;
            push_number(&mut out, number)?;
            out.extend_from_slice(b": ")?;
            push_part(&mut out, theory, part)?;
        }
        Reason::Log(number) => {
            out.extend_from_slice(b"no log line ")?;
            push_number(&mut out, number)?;
        }
    }
    out.push(b'\n')?;
    Ok(out)
}
