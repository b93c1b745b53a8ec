//! Trees joined into one.

ghost use Rattle.std.specs.Prelude.{◌≡◌, ◌≢◌, ℕ, Bool, true, false, not, List, ◌∷◌, [], ◌++◌, IfOk, OnOk, IsTrue};
ghost use Rattle.std.specs.List.{list_all, list_any};
ghost use Rattle.ec_folding.specs.Tree.{Tree, literal, true_in};
ghost use Rattle.ec_folding.specs.Join.{constant, join, conj, disj};
ghost use Rattle.ec_folding.specs.Constants.{is_constant_at_top_only};
ghost use Rattle.ec_prop.specs.Prop.{tree_of, trees_of};
ghost use Rattle.ec_prop.specs.Joining.{is_conj, joined_with, joined_with_unopened};

use crate::tree::{Prop, constant};
use std::alloc::{AllocError, Global};

/// A conj or a disj that is given its parts one by one.
///
/// A part that is itself an And, in a conj, or an Or, in a disj, gives its own parts in its place: they are moved, never copied.
/// After a call that found no memory the join has lost that part: drop it.
#[derive(Drop)]
pub struct Joining {
    conjunction: bool,
    decided: bool,
    kept: Vec<Prop>,
}

impl Joining {
    /// A conj of no parts yet, or a disj where `conjunction` is false. Takes no memory.
    pub fn new(alloc: Global, conjunction: bool) -> Joining
        ensures kind { is_conj result ≡ conjunction }
        ensures starts { (rest : List Tree) → joined_with result rest ≡ join conjunction rest }
    {
        Joining {
            conjunction,
            decided: false,
            kept: Vec::new(alloc),
        }
    }

    /// Gives the next part.
    #[tactic(auto, using(ec_folding::proofs::JoinTruth::listed))]
    pub fn add(&mut self, part: Prop) -> Result<(), AllocError>
        ensures kind { is_conj self.new ≡ is_conj self.old }
        ensures goes_on { OnOk result ((rest : List Tree) → joined_with self.new rest ≡ joined_with self.old (tree_of part ∷ rest)) }
    {
        match part {
            Prop::And(parts) => {
                if self.conjunction {
                    self.keep_all(parts)
                } else {
                    self.keep(Prop::And(parts))
                }
            }
            Prop::Or(parts) => {
                if !self.conjunction {
                    self.keep_all(parts)
                } else {
                    self.keep(Prop::Or(parts))
                }
            }
            part => self.keep(part),
        }
    }

    /// Whether the parts given so far decide the tree: it is the same, whatever parts follow.
    pub fn is_decided(&self) -> bool
        ensures decided { IsTrue result → (rest : List Tree) → joined_with self.now rest ≡ joined_with self.now [] }
        ensures undecided { result ≡ false → joined_with self.now (literal 0 true ∷ []) ≢ constant (not (is_conj self.now)) }
    {
        self.decided
    }

    /// The tree that the parts come to.
    pub fn finish(self) -> Prop
        ensures { tree_of result ≡ joined_with self [] }
    {
        if self.decided {
            return constant(!self.conjunction);
        }
        let mut kept = self.kept;
        match kept.len() {
            0 => constant(self.conjunction),
            1 => kept.pop().unwrap(),
            _ if self.conjunction => Prop::And(kept),
            _ => Prop::Or(kept),
        }
    }

    // One more part, which is not opened.
    fn keep(&mut self, part: Prop) -> Result<(), AllocError>
        ensures kind { is_conj self.new ≡ is_conj self.old }
        ensures goes_on { OnOk result ((rest : List Tree) → joined_with_unopened self.new rest ≡ joined_with_unopened self.old (tree_of part ∷ rest)) }
    {
        match part {
            Prop::True => self.decided |= !self.conjunction,
            Prop::False => self.decided |= self.conjunction,
            part => self.kept.push(part)?,
        }
        Ok(())
    }

    // More parts, which are not opened.
    fn keep_all(&mut self, parts: Vec<Prop>) -> Result<(), AllocError>
        ensures kind { is_conj self.new ≡ is_conj self.old }
        ensures goes_on { OnOk result ((rest : List Tree) → joined_with_unopened self.new rest ≡ joined_with_unopened self.old (trees_of parts.items ++ rest)) }
    {
        for part in parts {
            self.keep(part)?;
        }
        Ok(())
    }
}

fn join(conjunction: bool, parts: Vec<Prop>) -> Result<Prop, AllocError>
    ensures { IfOk result (λ prop. tree_of prop ≡ join conjunction (trees_of parts.items)) }
{
    let mut joining = Joining::new(*parts.allocator(), conjunction);
    for part in parts {
        joining.add(part)?;
    }
    Ok(joining.finish())
}

/// The And of all parts, folded: each And among the parts is opened, each True is dropped, a False alone decides,
/// no part is left as True and a single one stands for itself.
///
/// Linear in the number of parts and of the opened parts; no tree is copied.
pub fn conj(parts: Vec<Prop>) -> Result<Prop, AllocError>
    ensures tree { IfOk result (λ prop. tree_of prop ≡ conj (trees_of parts.items)) }
    ensures truth { IfOk result (λ prop. (v : ℕ → Bool) → true_in v (tree_of prop) ≡ list_all (true_in v) (trees_of parts.items)) }
    ensures constants { IfOk result (λ prop. list_all is_constant_at_top_only (trees_of parts.items) ≡ true → is_constant_at_top_only (tree_of prop) ≡ true) }
{
    let prop = join(true, parts)?;
    Ok(prop)
}

/// The Or of all parts, folded: as [`conj`], with Or in place of And, False in place of True and True in place of False.
pub fn disj(parts: Vec<Prop>) -> Result<Prop, AllocError>
    ensures tree { IfOk result (λ prop. tree_of prop ≡ disj (trees_of parts.items)) }
    ensures truth { IfOk result (λ prop. (v : ℕ → Bool) → true_in v (tree_of prop) ≡ list_any (true_in v) (trees_of parts.items)) }
    ensures constants { IfOk result (λ prop. list_all is_constant_at_top_only (trees_of parts.items) ≡ true → is_constant_at_top_only (tree_of prop) ≡ true) }
{
    let prop = join(false, parts)?;
    Ok(prop)
}
