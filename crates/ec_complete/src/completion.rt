//! Definitions of a group's predicates.
ghost use Rattle.std.specs.Prelude.{◌≡◌, All, map, IfOk};
ghost use Rattle.std.specs.List.{flat_map};
ghost use Rattle.ec_logic.specs.Universe.{universe_of};
ghost use Rattle.ec_logic.specs.Valid.{IsSignature};
ghost use Rattle.ec_logic.specs.ValidTheory.{IsValidGroup};
ghost use Rattle.ec_logic.specs.Paths.{paths};
ghost use Rattle.ec_theory.specs.Theories.{group_of, sentence_trees};
ghost use Rattle.ec_theory.specs.View.{formula_tree};
ghost use Rattle.ec_path.specs.View.{path_of};
ghost use Rattle.ec_complete.specs.Completion.{defined, definition, Defines};
ghost use Rattle.ec_complete.specs.Room.{HasRoom};
ghost use Rattle.ec_complete.specs.View.{scope_of};

use crate::parts::any_of;
use crate::path_formula::path_formula;
use ec_path::{Path, paths};
use ec_theory::{Formula, Group, Sentence, Signature};
use std::alloc::{AllocError, Global};

/// When a predicate is true of its arguments. Those are the variables of the scope that have no binder, the last argument the innermost.
#[derive(Drop)]
pub struct Definition {
    pub predicate: u32,
    pub scope: Formula,
}

/// A definition of each predicate of a group, in order, by the paths of the group's sentences.
///
/// Time and memory grow with the predicates times the paths of all sentences, and with what is written of each path: its bodies, and the
/// places of its binders.
pub fn complete(
    alloc: Global,
    signature: &Signature,
    group: &Group,
) -> Result<Vec<Definition>, AllocError>
    requires signature { IsSignature signature.now }
    requires valid { IsValidGroup signature.now (group_of group.now) }
    ensures predicates { IfOk result (λ definitions. map (λ d. d.predicate) definitions.items ≡ (group_of group.now).predicates) }

    // Each scope is the formula of the definition.
    ensures tree { IfOk result (λ definitions. map scope_of definitions.items ≡ map (definition (universe_of signature.now) (group_of group.now).sentences) (group_of group.now).predicates) }

    // In every structure it is true of a tuple exactly where the group's sentences support the tuple.
    ensures truth { IfOk result (λ definitions. All (λ d. Defines (universe_of signature.now) (group_of group.now).sentences d.predicate (scope_of d)) definitions.items) }
{
    let found = paths_of_all(alloc, &group.sentences)?;
    define_each(alloc, signature, &found, &group.predicates)
}

fn define_each(
    alloc: Global,
    signature: &Signature,
    found: &[Path],
    predicates: &[u32],
) -> Result<Vec<Definition>, AllocError>
    requires { All (λ path. HasRoom (path_of path)) found.now }
    ensures predicates { IfOk result (λ definitions. map (λ d. d.predicate) definitions.items ≡ predicates.now) }
    ensures tree { IfOk result (λ definitions. map scope_of definitions.items ≡ map (defined (universe_of signature.now) (map path_of found.now)) predicates.now) }
{
    let mut definitions = Vec::with_capacity(alloc, predicates.len())?;
    for predicate in predicates {
        let scope = define(alloc, signature, found, *predicate)?;
        definitions.push(Definition {
            predicate: *predicate,
            scope,
        })?;
    }
    Ok(definitions)
}

// The formulas of the paths that have this predicate as head.
fn define(
    alloc: Global,
    signature: &Signature,
    found: &[Path],
    predicate: u32,
) -> Result<Formula, AllocError>
    requires { All (λ path. HasRoom (path_of path)) found.now }
    ensures { IfOk result (λ f. formula_tree f ≡ defined (universe_of signature.now) (map path_of found.now) predicate) }
{
    let mut ways = Vec::new(alloc);
    for path in found {
        if path.predicate == predicate {
            ways.push(path_formula(alloc, signature, path)?)?;
        }
    }
    Ok(any_of(ways))
}

fn paths_of_all<'a>(alloc: Global, sentences: &'a [Sentence]) -> Result<Vec<Path<'a>>, AllocError>
    ensures { IfOk result (λ found. map path_of found.items ≡ flat_map paths (sentence_trees sentences.now)) }
{
    let mut found = Vec::new(alloc);
    for sentence in sentences {
        let mut more = paths(alloc, &sentence.formula)?;
        found.append(&mut more)?;
    }
    Ok(found)
}
