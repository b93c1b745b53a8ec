//! The search.
ghost use Rattle.std.specs.Prelude.{◌≡◌, ◌≤◌, IfOk, length};
ghost use Rattle.ec_logic.specs.Universe.{universe_of};
ghost use Rattle.ec_logic.specs.Atom.{visible_atoms};
ghost use Rattle.ec_logic.specs.ValidTheory.{IsValidTheory};
ghost use Rattle.ec_theory.specs.Theories.{theory_of};
ghost use Rattle.ec_weight.specs.Weight.{weight_of};
ghost use Rattle.ec_solve.specs.Found.{IsFound};

use crate::listing::clauses_of;
use crate::progress::Progress;
use ec_atom::Atoms;
use ec_clause::ending::Ending;
use ec_log::Writer;
use ec_row::Row;
use ec_theory::Theory;
use std::alloc::{AllocError, Global};

/// When a search is ended before it comes to its end.
#[derive(Clone, Copy, Debug, PartialEq, Eq)]
pub struct Bounds {
    /// As soon as so many truths were found: 1 to 10,000.
    pub models: u64,
    /// As soon as so many clauses with a literal were derived: 1 to 2,000,000,000.
    pub conflicts: u64,
}

/// What a search found.
#[derive(Drop)]
pub struct Found {
    /// The truths of the visible atoms, rising.
    pub truths: Vec<Row>,
    /// How the search ended.
    pub ending: Ending,
    /// How it went.
    pub log: Writer,
}

/// The truths of a theory's minimal models, up to the bounds.
///
/// Memory grows with the weight of the theory, the derived clauses, and the truths times the visible atoms. Time has no bound but that of
/// the conflicts.
pub fn search(
    alloc: Global,
    theory: &Theory,
    atoms: &Atoms,
    bounds: Bounds,
) -> Result<Found, AllocError>
    requires valid { IsValidTheory (theory_of theory.now) }
    requires of { atoms.now ≡ theory.now.signature }
    requires light { weight_of (theory_of theory.now) ≤ 4000000 }
    requires one_model { 1 ≤ bounds.models }
    requires few_models { bounds.models ≤ 10000 }
    requires one_conflict { 1 ≤ bounds.conflicts }
    requires few_conflicts { bounds.conflicts ≤ 2000000000 }
    ensures { IfOk result (λ found. IsFound (theory_of theory.now) bounds found.truths.items found.ending found.log) }
{
    let list = clauses_of(alloc, theory, atoms)?;
    let mut progress = Progress::new(alloc, list)?;
    let ending = progress.run(bounds)?;
    Ok(progress.finish(ending))
}
