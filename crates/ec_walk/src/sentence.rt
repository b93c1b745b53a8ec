//! A sentence as a whole.
ghost use Rattle.std.specs.Prelude.{IfOk};
ghost use Rattle.ec_syntax.specs.View.{formula_of};
ghost use Rattle.ec_walk.specs.Sentences.{sentence_fault, sentence_tree};
ghost use Rattle.ec_walk.specs.Answers.{IsWalked};

use crate::fault::Fault;
use crate::formula_faults::formula_fault;
use crate::scope::turned;
use crate::trees::{for_all, formula_tree};
use crate::variables::closed_variables;
use ec_names::Names;
use ec_syntax::tree::Tree;
use ec_theory::Formula;
use std::alloc::{AllocError, Global};

/// What a walk over a sentence answers.
#[derive(Drop)]
pub enum Walked {
    /// Its formula, where it has no fault.
    Formula(Formula),
    /// Its first fault.
    Refused(Fault),
}

/// The formula of a sentence, its free variables closed by for all in the order of their first free use,
/// the first outermost; or its first fault.
///
/// The tree is passed three times: for its free variables, for its first fault, and for its formula. Each
/// pass is linear in the tree, with a look-up for each name and each variable.
pub fn walk(alloc: Global, names: &Names, tree: &Tree) -> Result<Walked, AllocError>
    ensures { IfOk result (IsWalked (sentence_fault names.now (formula_of tree.now)) (sentence_tree names.now (formula_of tree.now))) }
{
    let free = closed_variables(alloc, tree)?;
    let scope = turned(alloc, &free)?;
    if let Some(fault) = formula_fault(alloc, names, &scope, tree)? {
        return Ok(Walked::Refused(fault));
    }
    let formula = formula_tree(alloc, names, &scope, tree)?;
    Ok(Walked::Formula(for_all(alloc, names, &free, formula)?))
}
