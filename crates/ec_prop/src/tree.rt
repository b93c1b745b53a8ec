//! A folded tree and its truth.

ghost use Rattle.std.specs.Prelude.{◌≡◌, ◌<◌, length};
ghost use Rattle.ec_folding.specs.Tree.{true_in, each_true, some_true, as_trees, EachAtom, EachAtomOf};
ghost use Rattle.ec_folding.specs.Join.{constant};
ghost use Rattle.ec_prop.specs.Prop.{tree_of, trees_of, truth_of};

/// A proposition over numbered atoms, negated only at its atoms.
///
/// Trees that `conj` and `disj` make alternate: no And is a part of an And, and no Or of an Or.
#[derive(Debug, PartialEq, Eq, Drop)]
pub enum Prop {
    True,
    False,
    /// An atom, or its negation where `positive` is false.
    Lit { atom: u64, positive: bool },
    And(Vec<Prop>),
    Or(Vec<Prop>),
}

/// The constant of a truth.
pub fn constant(value: bool) -> Prop
    ensures { tree_of result ≡ constant value }
{
    if value { Prop::True } else { Prop::False }
}

/// Whether a tree is true where the atom numbered `i` has the truth `truth[i]`.
///
/// An And is left at its first false part, an Or at its first true one. The recursion is as deep as the tree.
#[cycle(truth)]
pub fn true_in(prop: &Prop, truth: &[bool]) -> bool
    requires { EachAtom (λ atom. atom < length truth.now) (tree_of prop.now) }
    ensures { result ≡ true_in (truth_of truth.now) (tree_of prop.now) }
{
    match prop {
        Prop::True => true,
        Prop::False => false,
        Prop::Lit { atom, positive } => truth[*atom as usize] == *positive,
        Prop::And(parts) => each_true_in(parts, truth),
        Prop::Or(parts) => some_true_in(parts, truth),
    }
}

#[cycle(truth)]
fn each_true_in(parts: &[Prop], truth: &[bool]) -> bool
    requires { EachAtomOf (λ atom. atom < length truth.now) (as_trees (trees_of parts.now)) }
    ensures { result ≡ each_true (truth_of truth.now) (as_trees (trees_of parts.now)) }
{
    for part in parts {
        if !true_in(part, truth) {
            return false;
        }
    }
    true
}

#[cycle(truth)]
fn some_true_in(parts: &[Prop], truth: &[bool]) -> bool
    requires { EachAtomOf (λ atom. atom < length truth.now) (as_trees (trees_of parts.now)) }
    ensures { result ≡ some_true (truth_of truth.now) (as_trees (trees_of parts.now)) }
{
    for part in parts {
        if true_in(part, truth) {
            return true;
        }
    }
    false
}
