//! A grounded theory of sentences that are all alike.
ghost use Rattle.std.specs.Prelude.{◌≡◌, ◌≤◌, ◌∷◌, [], true, IfOk};
ghost use Rattle.ec_folding.specs.Tree.{literal as literal_tree, all_of as all_of_trees, any_of as any_of_trees, as_trees};
ghost use Rattle.ec_prop.specs.Prop.{tree_of, trees_of};
ghost use Rattle.ec_prop.specs.Grounded.{IsGrounded};
ghost use Rattle.bench_clauses.specs.Alike.{repeated, pair_tree, sentence_tree};

use ec_prop::{Grounded, Prop};
use std::alloc::{AllocError, Global};

fn literal(atom: u64) -> Prop
    ensures { tree_of result ≡ literal_tree atom true }
{
    Prop::Lit {
        atom,
        positive: true,
    }
}

fn all_of(parts: Vec<Prop>) -> Prop
    ensures { tree_of result ≡ all_of_trees (as_trees (trees_of parts.items)) }
{
    Prop::And(parts)
}

fn any_of(parts: Vec<Prop>) -> Prop
    ensures { tree_of result ≡ any_of_trees (as_trees (trees_of parts.items)) }
{
    Prop::Or(parts)
}

fn pair(alloc: Global) -> Result<Prop, AllocError>
    ensures { IfOk result (λ prop. tree_of prop ≡ pair_tree) }
{
    let mut parts = Vec::new(alloc);
    parts.push(literal(0))?;
    parts.push(literal(1))?;
    Ok(all_of(parts))
}

fn sentence(alloc: Global) -> Result<Prop, AllocError>
    ensures { IfOk result (λ prop. tree_of prop ≡ sentence_tree) }
{
    let mut parts = Vec::new(alloc);
    parts.push(pair(alloc)?)?;
    for _ in 0..12u32 {
        parts.push(literal(2))?;
    }
    Ok(any_of(parts))
}

fn sentences(alloc: Global, count: u32) -> Result<Vec<Prop>, AllocError>
    ensures { IfOk result (λ found. trees_of found.items ≡ repeated count sentence_tree) }
{
    let mut found = Vec::new(alloc);
    for _ in 0..count {
        found.push(sentence(alloc)?)?;
    }
    Ok(found)
}

fn atoms(alloc: Global) -> Result<Vec<u64>, AllocError>
    ensures { IfOk result (λ found. found.items ≡ 0 ∷ 1 ∷ 2 ∷ []) }
{
    let mut found = Vec::new(alloc);
    found.push(0)?;
    found.push(1)?;
    found.push(2)?;
    Ok(found)
}

/// The theory of so many sentences over three atoms, all visible.
pub fn theory(alloc: Global, count: u32) -> Result<Grounded, AllocError>
    requires { count ≤ 1000000 }
    ensures { IfOk result (λ grounded. IsGrounded grounded 3) }
{
    Ok(Grounded {
        sentences: sentences(alloc, count)?,
        definitions: Vec::new(alloc),
        variables: atoms(alloc)?,
    })
}
