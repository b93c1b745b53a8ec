//! Lists, read from their text.
ghost use Rattle.std.specs.Prelude.{◌≡◌, ◌≢◌, ◌+◌, ◌++◌, ◌<◌, ◌≤◌, ◌^◌, ◌↔◌, List, ℕ, IsTrue, IfOk, All, length, map};
ghost use Rattle.ec_logic.specs.Narrative.{line};
ghost use Rattle.ec_logic.specs.Signature.{Signature};
ghost use Rattle.ec_listing.specs.Apart.{AreReadable};
ghost use Rattle.ec_listing.specs.Endings.{list_ending};
ghost use Rattle.ec_listing.specs.Lists.{IsListText};
ghost use Rattle.ec_listing.specs.Reading.{line_count, model_text, ComesAfter};
ghost use Rattle.ec_narr.specs.Reading.{IsAnswered, IsNext, IsRead, IsReaderOf, IsWithinBytes};
ghost use Rattle.ec_narr.specs.Slots.{slots_view};

use crate::juncture::{Juncture, juncture_of};
use crate::listed::{ListFault, Listed};
use crate::passing::{Narrative, read_slots};
use crate::slot::Slot;
use crate::slots::slots;
use ec_atom::Atoms;
use ec_clause::ending::Ending;
use ec_row::Row;
use ec_theory::Theory;
use std::alloc::{AllocError, Global};

/// What a list text goes on with, where a narrative may begin.
#[derive(Drop)]
pub enum Next<'a> {
    /// The last line, and nothing behind it.
    End(Ending),
    /// These bytes begin with a faulty line.
    Fault(&'a [u8]),
    /// A narrative with this truth, and these bytes behind it.
    Model(Row, &'a [u8]),
}

/// What a list text comes to.
#[derive(Drop)]
pub enum Answer {
    List(Listed),
    /// The number of the first faulty line.
    Faulty(u64),
}

// Whether a truth is greater than the last of those before it.
fn comes_after(models: &[Row], truth: &Row) -> bool
    requires { All (λ model. length model ≡ length truth.now) models.now }
    ensures { IsTrue result ↔ ComesAfter models.now truth.now }
{
    match models.last() {
        Some(earlier) => *earlier < *truth,
        None => true,
    }
}

// The number of the line with which the rest of the bytes begins.
fn line_of(bytes: &[u8], rest: &[u8]) -> u64
    requires { length rest.now ≤ length bytes.now }
    ensures { (front : List ℕ) → bytes.now ≡ front ++ rest.now → result ≡ 1 + line_count front }
{
    let front = &bytes[..bytes.len() - rest.len()];
    let ends = front.iter().filter(|byte| **byte == b'\n').count();
    1 + ends as u64
}

/// What it takes to read the narratives of a signature: its slots, and the number of visible atoms.
#[derive(Clone, Copy)]
struct Reader<'a> {
    alloc: Global,
    slots: &'a [Slot],
    visible: usize,
}

impl Reader<'_> {
    /// Reads a narrative of which the bytes have the `model` line, and which goes on behind it.
    fn narrative<'b>(
        &self,
        models: &[Row],
        bytes: &'b [u8],
        behind: &'b [u8],
    ) -> Result<Next<'b>, AllocError>
        requires readable { AreReadable self.now.visible (slots_view self.now.slots.now) }
        requires models { All (λ model. length model ≡ self.now.visible) models.now }
        requires model { bytes.now ≡ line (model_text (length models.now + 1)) ++ behind.now }
        ensures within { IfOk result (λ next. IsWithinBytes self.now.visible bytes.now next) }
        ensures next { (signature : Signature) → IsReaderOf signature (slots_view self.now.slots.now) self.now.visible →
            IfOk result (λ next. IsNext signature models.now bytes.now next) }
    {
        let mut truth = Row::of_len(self.alloc, self.visible)?;
        match read_slots(&mut truth, self.slots, behind) {
            Narrative::Broken(rest) => Ok(Next::Fault(rest)),
            Narrative::Whole(rest) => {
                if rest.is_empty() || comes_after(models, &truth) {
                    Ok(Next::Model(truth, rest))
                } else {
                    Ok(Next::Fault(bytes))
                }
            }
        }
    }

    /// What the bytes go on with behind these truths.
    fn next<'b>(&self, models: &[Row], bytes: &'b [u8]) -> Result<Next<'b>, AllocError>
        requires readable { AreReadable self.now.visible (slots_view self.now.slots.now) }
        requires models { All (λ model. length model ≡ self.now.visible) models.now }
        ensures within { IfOk result (λ next. IsWithinBytes self.now.visible bytes.now next) }
        ensures next { (signature : Signature) → IsReaderOf signature (slots_view self.now.slots.now) self.now.visible →
            IfOk result (λ next. IsNext signature models.now bytes.now next) }
    {
        match juncture_of(self.alloc, bytes, models.len() as u64)? {
            Juncture::Last(ending, rest) => {
                if rest.is_empty() {
                    Ok(Next::End(ending))
                } else {
                    Ok(Next::Fault(rest))
                }
            }
            Juncture::Model(behind) => self.narrative(models, bytes, behind),
            Juncture::Neither => Ok(Next::Fault(bytes)),
        }
    }

    /// Reads narrative by narrative, up to the last line or the first faulty one.
    fn read(&self, bytes: &[u8]) -> Result<Answer, AllocError>
        requires readable { AreReadable self.now.visible (slots_view self.now.slots.now) }
        ensures { (signature : Signature) → IsReaderOf signature (slots_view self.now.slots.now) self.now.visible →
            IfOk result (λ answer. IsAnswered signature bytes.now answer) }
    {
        let mut models = Vec::new(self.alloc);
        let mut rest = bytes;
        loop {
            match self.next(&models, rest)? {
                Next::End(ending) => return Ok(Answer::List(Listed { models, ending })),
                Next::Fault(fault) => return Ok(Answer::Faulty(line_of(bytes, fault))),
                Next::Model(truth, behind) => {
                    models.push(truth)?;
                    rest = behind;
                }
            }
        }
    }
}

fn answer_of(
    alloc: Global,
    theory: &Theory,
    atoms: &Atoms,
    bytes: &[u8],
) -> Result<Answer, AllocError>
    requires { atoms.now ≡ theory.now.signature }
    ensures { IfOk result (λ answer. IsAnswered theory.now.signature bytes.now answer) }
{
    let signature = &theory.signature;
    let predicates = signature.predicates();
    prove!(predicates >= 6);
    let slots = slots(alloc, signature, atoms)?;
    let reader = Reader {
        alloc,
        slots: &slots,
        visible: atoms.visible() as usize,
    };
    reader.read(bytes)
}

/// Reads the text of a list: the truths and the ending that it tells, or its first faulty line.
///
/// The lines are read in order, against all narratives of truths in which noninertial fluents are released at
/// all times; the truths need not be those of minimal models. A line of a narrative is faulty where no such
/// narrative has it behind the narrative's lines before it. At the place of a `model` line it is faulty where it
/// is neither the next one nor a last line with the right number. Where a narrative's truth isn't greater than
/// the one before, its `model` line is faulty. A line that lacks its byte 10 is faulty, and so is one behind a
/// last line. Where the bytes end without a last line, the line behind the last is faulty, and the last
/// narrative isn't compared.
///
/// A narrative takes time linear in the visible atoms and their texts, and a bit of memory for each visible atom;
/// the texts are made once. `Memory` comes only where an allocation failed.
pub fn read_list(
    alloc: Global,
    theory: &Theory,
    atoms: &Atoms,
    bytes: &[u8],
) -> Result<Listed, ListFault>
    requires { atoms.now ≡ theory.now.signature }
    ensures read { IsRead theory.now.signature bytes.now result }
    ensures text { IfOk result (λ found. IsListText theory.now.signature bytes.now found.models.items (list_ending found.ending)) }
{
    match answer_of(alloc, theory, atoms, bytes) {
        Ok(Answer::List(listed)) => Ok(listed),
        Ok(Answer::Faulty(line)) => Err(ListFault::Line(line)),
        Err(_) => Err(ListFault::Memory),
    }
}
