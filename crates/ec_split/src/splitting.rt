//! The theory of a book.
ghost use Rattle.std.specs.Prelude.{◌<◌, ◌^◌, All, IfOk, length};
ghost use Rattle.ec_logic.specs.ValidTheory.{IsValidSentence, IsValidTheory};
ghost use Rattle.ec_theory.specs.Theories.{theory_of};
ghost use Rattle.ec_theory.specs.View.{formula_tree};
ghost use Rattle.ec_split.specs.IsSplit.{IsSplit};

use crate::fault::SplitFault;
use crate::names::predicate_names;
use crate::plan::plan_of;
use crate::shares::shares_of;
use ec_theory::{Sorted, Theory};
use std::alloc::Global;

/// Puts the sentences of a book into the groups that its completion statements make.
///
/// Refused gives the first fault: of the completion statements in book order one that names no predicate
/// (18) or a predicate that is in another group (17), then of the sentences in book order one whose group
/// it isn't a clause tree of (16), at its file and line. Time is linear in the statements, the sentences
/// and the predicates. No tree is copied; a refusal drops all.
pub fn split(alloc: Global, sorted: Sorted) -> Result<Theory, SplitFault>
    requires sentences { All (λ one. IsValidSentence sorted.signature (formula_tree one.sentence.formula)) sorted.labelled.items }
    requires few_sentences { length sorted.labelled.items < 2 ^ 31 }
    requires few_statements { length sorted.wanted.items < 2 ^ 31 }
    ensures theory { IsSplit sorted result }
    ensures valid { IfOk result (λ theory. IsValidTheory (theory_of theory)) }
{
    let Sorted {
        signature,
        labelled,
        wanted,
    } = sorted;
    let names = predicate_names(alloc, &signature)?;
    let plan = plan_of(alloc, &names, &wanted)?;
    let shares = shares_of(alloc, &plan, &names, labelled)?;
    Ok(Theory {
        signature,
        remaining: shares.remaining,
        groups: shares.groups,
    })
}
