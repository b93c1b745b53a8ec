//! The first fault of a statement.
ghost use Rattle.std.specs.Prelude.{◌≡◌, IfOk};
ghost use Rattle.ec_syntax.specs.View.{content_of};
ghost use Rattle.ec_declare.specs.Faults as def;
ghost use Rattle.ec_declare.specs.Faults.{is_reifiable, reified_fault};

use crate::fault::{Code, Fault, refused};
use crate::ranges::range_fault;
use crate::sorts::{is_reified, sorts_fault};
use crate::symbols::{constants_fault, noninertials_fault, shapes_fault, timed_shapes_fault};
use ec_lex::word::Word;
use ec_names::{Names, Range, Role};
use ec_syntax::statement::Content;
use std::alloc::{AllocError, Global};

fn reified_fault(sort: &Word) -> Result<Option<Fault>, AllocError>
    ensures { IfOk result (λ fault. fault ≡ reified_fault sort.now) }
{
    if is_reified(sort) || sort.text() == "predicate" || sort.text() == "function" {
        return Ok(None);
    }
    refused(Code::LeftOut, sort)
}

/// The first fault of what a statement declares, by the names of its book. A sentence, an option and a
/// completion have none here.
///
/// Linear in the words of the statement, where each sort is followed to its ancestors.
pub fn declaration_fault(
    alloc: Global,
    names: &Names,
    content: &Content,
) -> Result<Option<Fault>, AllocError>
    ensures { IfOk result (λ fault. fault ≡ def.declaration_fault names.now (content_of content.now)) }
{
    match content {
        Content::Sorts(items) => sorts_fault(names, items),
        Content::Reified(sort) => reified_fault(sort),
        Content::Constants {
            sort,
            names: constants,
        } => constants_fault(names, sort, constants),
        Content::Events(shapes) => timed_shapes_fault(alloc, names, Role::Event, shapes),
        Content::Fluents(shapes) => timed_shapes_fault(alloc, names, Role::Fluent, shapes),
        Content::Predicates(shapes) => shapes_fault(names, Role::Predicate, shapes),
        Content::Noninertial(fluents) => noninertials_fault(names, fluents),
        Content::Range { sort, low, high } => {
            let range = Range {
                low: *low,
                high: *high,
            };
            range_fault(names, sort, range)
        }
        Content::LeftOut(word) => refused(Code::LeftOut, word),
        Content::Load(_)
        | Content::Choice { .. }
        | Content::Ignored
        | Content::Completion { .. }
        | Content::Sentence { .. } => Ok(None),
    }
}
