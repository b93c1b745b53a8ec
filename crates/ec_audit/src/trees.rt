//! The truths of the atoms, and whether the trees hold under them. The visible atoms are those below a number.
ghost use Rattle.std.specs.Prelude.{◌≡◌, ℕ, ◌≤◌, ◌<◌, All, length};
ghost use Rattle.std.specs.List.{list_all};
ghost use Rattle.ec_folding.specs.Tree.{EachAtom, true_in};
ghost use Rattle.ec_prop.specs.Grounded.{definition_of, definitions_of, sentences_of};
ghost use Rattle.ec_prop.specs.Prop.{trees_of, truth_of};
ghost use Rattle.ec_audit.specs.Fillable.{Fills, IsWithin, are_kept, is_kept};

use ec_prop::{Defined, Grounded, Prop, true_in};
use ec_row::Row;

/// Gives the visible atoms their truths.
pub fn copy_visible(truth: &Row, truths: &mut [bool])
    requires { length truth.now ≤ length truths.old }
    ensures size { length truths.new ≡ length truths.old }
    ensures visible { (a : ℕ) → a < length truth.now → truth_of truths.new a ≡ truth_of truth.now a }
{
    for atom in 0..truth.len() {
        truths[atom] = truth.get(atom);
    }
}

/// Gives each other atom with a definition the truth of its tree, which the visible atoms decide.
pub fn fill_others(definitions: &[Defined], visible: usize, truths: &mut [bool])
    requires { All (IsWithin (length truths.old)) (definitions_of definitions.now) }
    ensures size { length truths.new ≡ length truths.old }
    ensures visible { (a : ℕ) → a < visible → truth_of truths.new a ≡ truth_of truths.old a }
    ensures filled { Fills visible (truth_of truths.new) (definitions_of definitions.now) }
{
    for definition in definitions {
        let atom = definition.atom as usize;
        if atom >= visible {
            truths[atom] = true_in(&definition.scope, truths);
        }
    }
}

/// Whether the trees of all sentences are true, and each visible atom with a definition has the truth of its tree.
pub fn trees_hold(grounded: &Grounded, visible: usize, truths: &[bool]) -> bool
    requires sentences { All (EachAtom (λ a. a < length truths.now)) (sentences_of grounded.now) }
    requires definitions { All (IsWithin (length truths.now)) (definitions_of grounded.now.definitions.items) }
    ensures { result ≡ are_kept visible (truth_of truths.now) (sentences_of grounded.now) (definitions_of grounded.now.definitions.items) }
{
    sentences_hold(&grounded.sentences, truths)
        && definitions_hold(&grounded.definitions, visible, truths)
}

fn sentences_hold(sentences: &[Prop], truths: &[bool]) -> bool
    requires { All (EachAtom (λ a. a < length truths.now)) (trees_of sentences.now) }
    ensures { result ≡ list_all (true_in (truth_of truths.now)) (trees_of sentences.now) }
{
    for sentence in sentences {
        if !true_in(sentence, truths) {
            return false;
        }
    }
    true
}

fn definitions_hold(definitions: &[Defined], visible: usize, truths: &[bool]) -> bool
    requires { All (IsWithin (length truths.now)) (definitions_of definitions.now) }
    ensures { result ≡ list_all (is_kept visible (truth_of truths.now)) (definitions_of definitions.now) }
{
    for definition in definitions {
        if !is_kept(definition, visible, truths) {
            return false;
        }
    }
    true
}

fn is_kept(definition: &Defined, visible: usize, truths: &[bool]) -> bool
    requires { IsWithin (length truths.now) (definition_of definition.now) }
    ensures { result ≡ is_kept visible (truth_of truths.now) (definition_of definition.now) }
{
    let atom = definition.atom as usize;
    atom >= visible || truths[atom] == true_in(&definition.scope, truths)
}
