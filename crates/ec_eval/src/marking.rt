//! The atoms that a clause tree supports.
ghost use Rattle.std.specs.Prelude.{◌≡◌, ◌<◌, ◌≤◌, ◌+◌, ◌^◌, ◌∷◌, [], true, drop, set, length};
ghost use Rattle.ec_logic.specs.Tree.{for_all};
ghost use Rattle.ec_logic.specs.Universe.{extent_at, universe_of};
ghost use Rattle.ec_logic.specs.Value.{values};
ghost use Rattle.ec_logic.specs.Atom.{all_atoms, structure_of};
ghost use Rattle.ec_logic.specs.Turns.{turns, at_turn};
ghost use Rattle.ec_logic.specs.Marks.{Joins, is_tuple, supported_by, supported_by_one, supported_in_turn, supported_under};
ghost use Rattle.ec_logic.specs.Countable.{IsCountable};
ghost use Rattle.ec_logic.specs.Reach.{nesting, nesting_of};
ghost use Rattle.ec_logic.specs.Reading.{AreReadableTerms, IsReadable, AreReadable, AtEachValue};
ghost use Rattle.ec_logic.specs.ValidTheory.{IsSentence};
ghost use Rattle.ec_theory.specs.View.{term_trees, formula_tree, formula_trees};

use crate::scratch::Scratch;
use crate::structure::Structure;
use crate::truth::truth_at;
use ec_atom::Atoms;
use ec_theory::{Formula, Signature, Term};
use ec_values::{env_of, keeps_under, number_at, turn_count, value_in_turn};

fn set_mark(marks: &mut [bool], atom: u64)
    requires { atom < length marks.old }
    ensures { marks.new ≡ set marks.old atom true }
{
    marks[atom as usize] = true;
}

fn mark_atom(
    signature: &Signature,
    atoms: &Atoms,
    marks: &mut [bool],
    env: &[i64],
    predicate: u32,
    args: &[Term],
)
    requires of { atoms.now ≡ signature.now }
    requires countable { IsCountable (universe_of signature.now) }
    requires known { predicate < length signature.now.predicates }
    requires readable { AreReadableTerms signature.now env.now (term_trees args.now) }
    requires all { length marks.old ≡ length (all_atoms (universe_of signature.now)) }
    ensures marks { Joins (universe_of signature.now) (is_tuple predicate (values (universe_of signature.now) env.now (term_trees args.now))) (structure_of (universe_of signature.now) marks.old) (structure_of (universe_of signature.now) marks.new) }
    ensures size { length marks.new ≡ length marks.old }
{
    match number_at(signature, atoms, env, predicate, args) {
        Some(atom) => set_mark(marks, atom),
        None => {}
    }
}

// Goes over a clause tree, and marks each head whose bodies are true.
#[cycle(marking)]
#[tactic(auto, using(ec_logic::proofs::Marking::joins_none, ec_logic::proofs::Marking::joins_implied, ec_logic::proofs::Marking::joins_idle))]
fn mark_at(
    signature: &Signature,
    atoms: &Atoms,
    truths: &[bool],
    marks: &mut [bool],
    scratch: &mut [i64],
    start: usize,
    f: &Formula,
)
    requires of { atoms.now ≡ signature.now }
    requires countable { IsCountable (universe_of signature.now) }
    requires readable { IsReadable signature.now (drop start scratch.old) (formula_tree f.now) }
    requires room { nesting (formula_tree f.now) ≤ start }
    requires within { start ≤ length scratch.old }
    requires depth { start < 2 ^ 32 }
    requires all { length marks.old ≡ length (all_atoms (universe_of signature.now)) }
    ensures marks { Joins (universe_of signature.now) (supported_by (universe_of signature.now) (structure_of (universe_of signature.now) truths.now) (drop start scratch.old) (formula_tree f.now)) (structure_of (universe_of signature.now) marks.old) (structure_of (universe_of signature.now) marks.new) }
    ensures size { length marks.new ≡ length marks.old }
    ensures kept { drop start scratch.new ≡ drop start scratch.old }
{
    match f {
        Formula::True | Formula::False => {}
        Formula::Atom { predicate, args } => mark_atom(
            signature,
            atoms,
            marks,
            env_of(scratch, start),
            *predicate,
            args,
        ),
        Formula::Equal(_, _) | Formula::Less(_, _) | Formula::Not(_) => {}
        Formula::And(fs) => mark_each(signature, atoms, truths, marks, scratch, start, fs),
        Formula::Or(_) => {}
        Formula::Implies(g, h) => {
            if truth_at(signature, atoms, truths, scratch, start, g) {
                mark_at(signature, atoms, truths, marks, scratch, start, h);
            }
        }
        Formula::Iff(_, _) => {}
        Formula::ForAll { sort, scope } => mark_values(
            signature, atoms, truths, marks, scratch, start, *sort, scope,
        ),
        Formula::Exists { sort: _, scope: _ } => {}
    }
}

#[cycle(marking)]
#[tactic(auto, using(ec_logic::proofs::Marking::comes_each, ec_logic::proofs::Marking::comes_end, ec_logic::proofs::Marking::comes_start))]
fn mark_each(
    signature: &Signature,
    atoms: &Atoms,
    truths: &[bool],
    marks: &mut [bool],
    scratch: &mut [i64],
    start: usize,
    fs: &[Formula],
)
    requires of { atoms.now ≡ signature.now }
    requires countable { IsCountable (universe_of signature.now) }
    requires readable { AreReadable signature.now (drop start scratch.old) (formula_trees fs.now) }
    requires room { nesting_of (formula_trees fs.now) ≤ start }
    requires within { start ≤ length scratch.old }
    requires depth { start < 2 ^ 32 }
    requires all { length marks.old ≡ length (all_atoms (universe_of signature.now)) }
    ensures marks { Joins (universe_of signature.now) (supported_by_one (universe_of signature.now) (structure_of (universe_of signature.now) truths.now) (drop start scratch.old) (formula_trees fs.now)) (structure_of (universe_of signature.now) marks.old) (structure_of (universe_of signature.now) marks.new) }
    ensures size { length marks.new ≡ length marks.old }
    ensures kept { drop start scratch.new ≡ drop start scratch.old }
{
    for f in fs {
        mark_at(signature, atoms, truths, marks, scratch, start, f);
    }
}

#[cycle(marking)]
#[tactic(auto, using(ec_values::proofs::StackLemmas::drop_pushed, ec_values::proofs::StackLemmas::drop_popped))]
fn mark_under(
    signature: &Signature,
    atoms: &Atoms,
    truths: &[bool],
    marks: &mut [bool],
    scratch: &mut [i64],
    start: usize,
    v: i64,
    scope: &Formula,
)
    requires of { atoms.now ≡ signature.now }
    requires countable { IsCountable (universe_of signature.now) }
    requires readable { IsReadable signature.now (v ∷ drop start scratch.old) (formula_tree scope.now) }
    requires room { nesting (formula_tree scope.now) + 1 ≤ start }
    requires within { start ≤ length scratch.old }
    requires depth { start < 2 ^ 32 }
    requires all { length marks.old ≡ length (all_atoms (universe_of signature.now)) }
    ensures marks { Joins (universe_of signature.now) (supported_by (universe_of signature.now) (structure_of (universe_of signature.now) truths.now) (v ∷ drop start scratch.old) (formula_tree scope.now)) (structure_of (universe_of signature.now) marks.old) (structure_of (universe_of signature.now) marks.new) }
    ensures size { length marks.new ≡ length marks.old }
    ensures kept { drop start scratch.new ≡ drop start scratch.old }
{
    scratch[start - 1] = v;
    mark_at(signature, atoms, truths, marks, scratch, start - 1, scope)
}

// Marks what is supported under a value of a binder, where the binder ranges over it.
#[cycle(marking)]
#[tactic(auto, using(ec_logic::proofs::Marking::joins_under, ec_logic::proofs::Marking::joins_outside))]
fn mark_value(
    signature: &Signature,
    atoms: &Atoms,
    truths: &[bool],
    marks: &mut [bool],
    scratch: &mut [i64],
    start: usize,
    v: i64,
    scope: &Formula,
)
    requires of { atoms.now ≡ signature.now }
    requires countable { IsCountable (universe_of signature.now) }
    requires readable { IsReadable signature.now (v ∷ drop start scratch.old) (formula_tree scope.now) }
    requires room { nesting (formula_tree scope.now) + 1 ≤ start }
    requires within { start ≤ length scratch.old }
    requires depth { start < 2 ^ 32 }
    requires all { length marks.old ≡ length (all_atoms (universe_of signature.now)) }
    ensures marks { Joins (universe_of signature.now) (supported_under (universe_of signature.now) (structure_of (universe_of signature.now) truths.now) (drop start scratch.old) (formula_tree scope.now) v) (structure_of (universe_of signature.now) marks.old) (structure_of (universe_of signature.now) marks.new) }
    ensures size { length marks.new ≡ length marks.old }
    ensures kept { drop start scratch.new ≡ drop start scratch.old }
{
    if keeps_under(signature, scratch, start, 0, v, scope) {
        mark_under(signature, atoms, truths, marks, scratch, start, v, scope);
    }
}

#[cycle(marking)]
#[tactic(auto, using(ec_logic::proofs::Marking::joins_none))]
fn mark_turn(
    signature: &Signature,
    atoms: &Atoms,
    truths: &[bool],
    marks: &mut [bool],
    scratch: &mut [i64],
    start: usize,
    sort: u32,
    turn: u64,
    scope: &Formula,
)
    requires of { atoms.now ≡ signature.now }
    requires countable { IsCountable (universe_of signature.now) }
    requires known { sort < length signature.now.sorts }
    requires below { turn < turns (extent_at (universe_of signature.now) sort) }
    requires small { turn < 2 ^ 62 }
    requires each { AtEachValue (extent_at (universe_of signature.now) sort) (λ v. IsReadable signature.now (v ∷ drop start scratch.old) (formula_tree scope.now)) }
    requires room { nesting (formula_tree scope.now) + 1 ≤ start }
    requires within { start ≤ length scratch.old }
    requires depth { start < 2 ^ 32 }
    requires all { length marks.old ≡ length (all_atoms (universe_of signature.now)) }
    ensures marks { Joins (universe_of signature.now) (supported_in_turn (universe_of signature.now) (structure_of (universe_of signature.now) truths.now) (drop start scratch.old) (formula_tree scope.now) (at_turn (extent_at (universe_of signature.now) sort) turn)) (structure_of (universe_of signature.now) marks.old) (structure_of (universe_of signature.now) marks.new) }
    ensures size { length marks.new ≡ length marks.old }
    ensures kept { drop start scratch.new ≡ drop start scratch.old }
{
    if let Some(v) = value_in_turn(signature, sort, turn) {
        mark_value(signature, atoms, truths, marks, scratch, start, v, scope);
    }
}

#[cycle(marking)]
fn mark_values(
    signature: &Signature,
    atoms: &Atoms,
    truths: &[bool],
    marks: &mut [bool],
    scratch: &mut [i64],
    start: usize,
    sort: u32,
    scope: &Formula,
)
    requires of { atoms.now ≡ signature.now }
    requires countable { IsCountable (universe_of signature.now) }
    requires known { sort < length signature.now.sorts }
    requires each { AtEachValue (extent_at (universe_of signature.now) sort) (λ v. IsReadable signature.now (v ∷ drop start scratch.old) (formula_tree scope.now)) }
    requires room { nesting (formula_tree scope.now) + 1 ≤ start }
    requires within { start ≤ length scratch.old }
    requires depth { start < 2 ^ 32 }
    requires all { length marks.old ≡ length (all_atoms (universe_of signature.now)) }
    ensures marks { Joins (universe_of signature.now) (supported_by (universe_of signature.now) (structure_of (universe_of signature.now) truths.now) (drop start scratch.old) (for_all sort (formula_tree scope.now))) (structure_of (universe_of signature.now) marks.old) (structure_of (universe_of signature.now) marks.new) }
    ensures size { length marks.new ≡ length marks.old }
    ensures kept { drop start scratch.new ≡ drop start scratch.old }
{
    for turn in 0..turn_count(signature, sort) {
        mark_turn(
            signature, atoms, truths, marks, scratch, start, sort, turn, scope,
        );
    }
}

/// Marks, of all atoms, those that a sentence supports in a structure: the heads of the instances of its
/// paths whose bodies are all true. Other marks stay. Each instance is met once, and nothing is kept of it;
/// it takes no memory.
pub fn mark_supported(
    signature: &Signature,
    atoms: &Atoms,
    structure: &Structure,
    marks: &mut Structure,
    sentence: &Formula,
    scratch: &mut Scratch,
)
    requires of { atoms.now ≡ signature.now }
    requires sentence { IsSentence signature.now (formula_tree sentence.now) }
    requires room { nesting (formula_tree sentence.now) ≤ scratch.old }
    requires all { length marks.old ≡ length (all_atoms (universe_of signature.now)) }
    ensures marks { Joins (universe_of signature.now) (supported_by (universe_of signature.now) (structure_of (universe_of signature.now) structure.now) [] (formula_tree sentence.now)) (structure_of (universe_of signature.now) marks.old) (structure_of (universe_of signature.now) marks.new) }
    ensures size { length marks.new ≡ length marks.old }
    ensures same { scratch.new ≡ scratch.old }
{
    let _sorts = signature.sorts();
    let _visible = atoms.visible();
    let start = scratch.values.len();
    mark_at(
        signature,
        atoms,
        &structure.truths,
        marks.truths.as_mut_slice(),
        scratch.values.as_mut_slice(),
        start,
        sentence,
    )
}
