//! The heads of clause trees.
ghost use Rattle.std.specs.Prelude.{◌≡◌};
ghost use Rattle.ec_logic.specs.ClauseTree.{any_body, is_clause, are_clauses};
ghost use Rattle.ec_theory.specs.View.{formula_tree, formula_trees};
ghost use Rattle.ec_split.specs.Dealt.{is_head};
ghost use Rattle.ec_split.specs.Form.{first_head, first_head_of};

use crate::plan::is_effect_predicate;
use ec_theory::Formula;

/// Which predicates the heads of a clause tree may have.
#[derive(Clone, Copy, Drop)]
pub(crate) enum Heads {
    Effects,
    Only(u32),
}

fn may_be(heads: Heads, p: u32) -> bool
    ensures { result ≡ is_head heads p }
{
    match heads {
        Heads::Effects => is_effect_predicate(p),
        Heads::Only(q) => p == q,
    }
}

/// The predicate of the first head of a clause tree.
#[cycle(first)]
pub(crate) fn first_head_of_tree(f: &Formula) -> Option<u32>
    ensures { result ≡ first_head (formula_tree f.now) }
{
    match f {
        Formula::Atom { predicate, args: _ } => Some(*predicate),
        Formula::Implies(_, g) => first_head_of_tree(g),
        Formula::And(fs) => first_head_of_trees(fs),
        Formula::ForAll { sort: _, scope } => first_head_of_tree(scope),
        Formula::True
        | Formula::False
        | Formula::Equal(_, _)
        | Formula::Less(_, _)
        | Formula::Not(_)
        | Formula::Or(_)
        | Formula::Iff(_, _)
        | Formula::Exists { sort: _, scope: _ } => None,
    }
}

#[cycle(first)]
fn first_head_of_trees(fs: &[Formula]) -> Option<u32>
    ensures { result ≡ first_head_of (formula_trees fs.now) }
{
    for f in fs {
        if let Some(p) = first_head_of_tree(f) {
            return Some(p);
        }
    }
    None
}

/// Whether a formula is a clause tree with such heads alone.
#[cycle(heads)]
pub(crate) fn has_heads(f: &Formula, heads: Heads) -> bool
    ensures { result ≡ is_clause (is_head heads) any_body (formula_tree f.now) }
{
    match f {
        Formula::Atom { predicate, args: _ } => may_be(heads, *predicate),
        Formula::Implies(_, g) => has_heads(g, heads),
        Formula::And(fs) => have_heads(fs, heads),
        Formula::ForAll { sort: _, scope } => has_heads(scope, heads),
        Formula::True
        | Formula::False
        | Formula::Equal(_, _)
        | Formula::Less(_, _)
        | Formula::Not(_)
        | Formula::Or(_)
        | Formula::Iff(_, _)
        | Formula::Exists { sort: _, scope: _ } => false,
    }
}

#[cycle(heads)]
fn have_heads(fs: &[Formula], heads: Heads) -> bool
    ensures { result ≡ are_clauses (is_head heads) any_body (formula_trees fs.now) }
{
    for f in fs {
        if !has_heads(f, heads) {
            return false;
        }
    }
    true
}
