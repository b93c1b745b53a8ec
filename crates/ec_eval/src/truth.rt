//! The truth of a formula in a structure.
ghost use Rattle.std.specs.Prelude.{◌≡◌, ◌<◌, ◌≤◌, ◌+◌, ◌^◌, ◌∷◌, [], drop, false, length, slice_get, unwrap_or};
ghost use Rattle.std.specs.List.{list_all, list_any};
ghost use Rattle.ec_logic.specs.Universe.{extent_at, universe_of};
ghost use Rattle.ec_logic.specs.Value.{values};
ghost use Rattle.ec_logic.specs.Place.{kept_values};
ghost use Rattle.ec_logic.specs.Truth.{truth, all_true, any_true};
ghost use Rattle.ec_logic.specs.Atom.{structure_of};
ghost use Rattle.ec_logic.specs.Turns.{turns, at_turn};
ghost use Rattle.ec_logic.specs.InTurn.{truth_or, truth_in_turn};
ghost use Rattle.ec_logic.specs.Countable.{IsCountable};
ghost use Rattle.ec_logic.specs.Reach.{nesting, nesting_of};
ghost use Rattle.ec_logic.specs.Reading.{AreReadableTerms, IsReadable, AreReadable, AtEachValue};
ghost use Rattle.ec_logic.specs.ValidTheory.{IsSentence};
ghost use Rattle.ec_theory.specs.View.{term_trees, formula_tree, formula_trees};

use crate::scratch::Scratch;
use crate::structure::Structure;
use ec_atom::Atoms;
use ec_theory::{Formula, Signature, Term};
use ec_values::{env_of, keeps_under, number_at, turn_count, value_in_turn, value_of};

fn truth_of(truths: &[bool], atom: u64) -> bool
    ensures { result ≡ unwrap_or (slice_get truths.now atom) false }
{
    match truths.get(atom as usize) {
        Some(truth) => *truth,
        None => false,
    }
}

fn atom_holds(
    signature: &Signature,
    atoms: &Atoms,
    truths: &[bool],
    env: &[i64],
    predicate: u32,
    args: &[Term],
) -> bool
    requires of { atoms.now ≡ signature.now }
    requires countable { IsCountable (universe_of signature.now) }
    requires known { predicate < length signature.now.predicates }
    requires readable { AreReadableTerms signature.now env.now (term_trees args.now) }
    ensures { result ≡ structure_of (universe_of signature.now) truths.now predicate (values (universe_of signature.now) env.now (term_trees args.now)) }
{
    match number_at(signature, atoms, env, predicate, args) {
        Some(atom) => truth_of(truths, atom),
        None => false,
    }
}

#[cycle(truth)]
pub(crate) fn truth_at(
    signature: &Signature,
    atoms: &Atoms,
    truths: &[bool],
    scratch: &mut [i64],
    start: usize,
    f: &Formula,
) -> bool
    requires of { atoms.now ≡ signature.now }
    requires countable { IsCountable (universe_of signature.now) }
    requires readable { IsReadable signature.now (drop start scratch.old) (formula_tree f.now) }
    requires room { nesting (formula_tree f.now) ≤ start }
    requires within { start ≤ length scratch.old }
    requires depth { start < 2 ^ 32 }
    ensures answer { result ≡ truth (universe_of signature.now) (structure_of (universe_of signature.now) truths.now) (drop start scratch.old) (formula_tree f.now) }
    ensures kept { drop start scratch.new ≡ drop start scratch.old }
{
    match f {
        Formula::True => true,
        Formula::False => false,
        Formula::Atom { predicate, args } => atom_holds(
            signature,
            atoms,
            truths,
            env_of(scratch, start),
            *predicate,
            args,
        ),
        Formula::Equal(a, b) => value_of(signature, env_of(scratch, start), a)
            == value_of(signature, env_of(scratch, start), b),
        Formula::Less(a, b) => value_of(signature, env_of(scratch, start), a)
            < value_of(signature, env_of(scratch, start), b),
        Formula::Not(g) => !truth_at(signature, atoms, truths, scratch, start, g),
        Formula::And(fs) => all_hold(signature, atoms, truths, scratch, start, fs),
        Formula::Or(fs) => any_holds(signature, atoms, truths, scratch, start, fs),
        Formula::Implies(g, h) => !truth_at(signature, atoms, truths, scratch, start, g)
            || truth_at(signature, atoms, truths, scratch, start, h),
        Formula::Iff(g, h) => truth_at(signature, atoms, truths, scratch, start, g)
            == truth_at(signature, atoms, truths, scratch, start, h),
        Formula::ForAll { sort, scope } => all_values_hold(
            signature, atoms, truths, scratch, start, *sort, scope,
        ),
        Formula::Exists { sort, scope } => any_value_holds(
            signature, atoms, truths, scratch, start, *sort, scope,
        ),
    }
}

#[cycle(truth)]
fn all_hold(
    signature: &Signature,
    atoms: &Atoms,
    truths: &[bool],
    scratch: &mut [i64],
    start: usize,
    fs: &[Formula],
) -> bool
    requires of { atoms.now ≡ signature.now }
    requires countable { IsCountable (universe_of signature.now) }
    requires readable { AreReadable signature.now (drop start scratch.old) (formula_trees fs.now) }
    requires room { nesting_of (formula_trees fs.now) ≤ start }
    requires within { start ≤ length scratch.old }
    requires depth { start < 2 ^ 32 }
    ensures answer { result ≡ all_true (universe_of signature.now) (structure_of (universe_of signature.now) truths.now) (drop start scratch.old) (formula_trees fs.now) }
    ensures kept { drop start scratch.new ≡ drop start scratch.old }
{
    for f in fs {
        if !truth_at(signature, atoms, truths, scratch, start, f) {
            return false;
        }
    }
    true
}

#[cycle(truth)]
fn any_holds(
    signature: &Signature,
    atoms: &Atoms,
    truths: &[bool],
    scratch: &mut [i64],
    start: usize,
    fs: &[Formula],
) -> bool
    requires of { atoms.now ≡ signature.now }
    requires countable { IsCountable (universe_of signature.now) }
    requires readable { AreReadable signature.now (drop start scratch.old) (formula_trees fs.now) }
    requires room { nesting_of (formula_trees fs.now) ≤ start }
    requires within { start ≤ length scratch.old }
    requires depth { start < 2 ^ 32 }
    ensures answer { result ≡ any_true (universe_of signature.now) (structure_of (universe_of signature.now) truths.now) (drop start scratch.old) (formula_trees fs.now) }
    ensures kept { drop start scratch.new ≡ drop start scratch.old }
{
    for f in fs {
        if truth_at(signature, atoms, truths, scratch, start, f) {
            return true;
        }
    }
    false
}

#[cycle(truth)]
#[tactic(auto, using(ec_values::proofs::StackLemmas::drop_pushed, ec_values::proofs::StackLemmas::drop_popped))]
fn truth_under(
    signature: &Signature,
    atoms: &Atoms,
    truths: &[bool],
    scratch: &mut [i64],
    start: usize,
    v: i64,
    scope: &Formula,
) -> bool
    requires of { atoms.now ≡ signature.now }
    requires countable { IsCountable (universe_of signature.now) }
    requires readable { IsReadable signature.now (v ∷ drop start scratch.old) (formula_tree scope.now) }
    requires room { nesting (formula_tree scope.now) + 1 ≤ start }
    requires within { start ≤ length scratch.old }
    requires depth { start < 2 ^ 32 }
    ensures answer { result ≡ truth (universe_of signature.now) (structure_of (universe_of signature.now) truths.now) (v ∷ drop start scratch.old) (formula_tree scope.now) }
    ensures kept { drop start scratch.new ≡ drop start scratch.old }
{
    scratch[start - 1] = v;
    truth_at(signature, atoms, truths, scratch, start - 1, scope)
}

// The truth of a binder's scope at a value, or a truth of its own where the binder doesn't range over it.
#[cycle(truth)]
fn value_holds(
    signature: &Signature,
    atoms: &Atoms,
    truths: &[bool],
    scratch: &mut [i64],
    start: usize,
    v: i64,
    outside: bool,
    scope: &Formula,
) -> bool
    requires of { atoms.now ≡ signature.now }
    requires countable { IsCountable (universe_of signature.now) }
    requires readable { IsReadable signature.now (v ∷ drop start scratch.old) (formula_tree scope.now) }
    requires room { nesting (formula_tree scope.now) + 1 ≤ start }
    requires within { start ≤ length scratch.old }
    requires depth { start < 2 ^ 32 }
    ensures answer { result ≡ truth_or (universe_of signature.now) (structure_of (universe_of signature.now) truths.now) (drop start scratch.old) (formula_tree scope.now) outside v }
    ensures kept { drop start scratch.new ≡ drop start scratch.old }
{
    if keeps_under(signature, scratch, start, 0, v, scope) {
        truth_under(signature, atoms, truths, scratch, start, v, scope)
    } else {
        outside
    }
}

#[cycle(truth)]
fn turn_holds(
    signature: &Signature,
    atoms: &Atoms,
    truths: &[bool],
    scratch: &mut [i64],
    start: usize,
    sort: u32,
    turn: u64,
    outside: bool,
    scope: &Formula,
) -> bool
    requires of { atoms.now ≡ signature.now }
    requires countable { IsCountable (universe_of signature.now) }
    requires known { sort < length signature.now.sorts }
    requires below { turn < turns (extent_at (universe_of signature.now) sort) }
    requires small { turn < 2 ^ 62 }
    requires each { AtEachValue (extent_at (universe_of signature.now) sort) (λ v. IsReadable signature.now (v ∷ drop start scratch.old) (formula_tree scope.now)) }
    requires room { nesting (formula_tree scope.now) + 1 ≤ start }
    requires within { start ≤ length scratch.old }
    requires depth { start < 2 ^ 32 }
    ensures answer { result ≡ truth_in_turn (universe_of signature.now) (structure_of (universe_of signature.now) truths.now) (drop start scratch.old) (formula_tree scope.now) outside (at_turn (extent_at (universe_of signature.now) sort) turn) }
    ensures kept { drop start scratch.new ≡ drop start scratch.old }
{
    match value_in_turn(signature, sort, turn) {
        Some(v) => value_holds(signature, atoms, truths, scratch, start, v, outside, scope),
        None => outside,
    }
}

#[cycle(truth)]
#[tactic(auto, using(ec_logic::proofs::Quantifiers::all_from_end, ec_logic::proofs::Quantifiers::all_from_start))]
fn all_values_hold(
    signature: &Signature,
    atoms: &Atoms,
    truths: &[bool],
    scratch: &mut [i64],
    start: usize,
    sort: u32,
    scope: &Formula,
) -> bool
    requires of { atoms.now ≡ signature.now }
    requires countable { IsCountable (universe_of signature.now) }
    requires known { sort < length signature.now.sorts }
    requires each { AtEachValue (extent_at (universe_of signature.now) sort) (λ v. IsReadable signature.now (v ∷ drop start scratch.old) (formula_tree scope.now)) }
    requires room { nesting (formula_tree scope.now) + 1 ≤ start }
    requires within { start ≤ length scratch.old }
    requires depth { start < 2 ^ 32 }
    ensures answer { result ≡ list_all (λ v. truth (universe_of signature.now) (structure_of (universe_of signature.now) truths.now) (v ∷ drop start scratch.old) (formula_tree scope.now)) (kept_values (universe_of signature.now) (drop start scratch.old) sort (formula_tree scope.now)) }
    ensures kept { drop start scratch.new ≡ drop start scratch.old }
{
    for turn in 0..turn_count(signature, sort) {
        if !turn_holds(
            signature, atoms, truths, scratch, start, sort, turn, true, scope,
        ) {
            return false;
        }
    }
    true
}

#[cycle(truth)]
#[tactic(auto, using(ec_logic::proofs::Quantifiers::any_from_end, ec_logic::proofs::Quantifiers::any_from_start))]
fn any_value_holds(
    signature: &Signature,
    atoms: &Atoms,
    truths: &[bool],
    scratch: &mut [i64],
    start: usize,
    sort: u32,
    scope: &Formula,
) -> bool
    requires of { atoms.now ≡ signature.now }
    requires countable { IsCountable (universe_of signature.now) }
    requires known { sort < length signature.now.sorts }
    requires each { AtEachValue (extent_at (universe_of signature.now) sort) (λ v. IsReadable signature.now (v ∷ drop start scratch.old) (formula_tree scope.now)) }
    requires room { nesting (formula_tree scope.now) + 1 ≤ start }
    requires within { start ≤ length scratch.old }
    requires depth { start < 2 ^ 32 }
    ensures answer { result ≡ list_any (λ v. truth (universe_of signature.now) (structure_of (universe_of signature.now) truths.now) (v ∷ drop start scratch.old) (formula_tree scope.now)) (kept_values (universe_of signature.now) (drop start scratch.old) sort (formula_tree scope.now)) }
    ensures kept { drop start scratch.new ≡ drop start scratch.old }
{
    for turn in 0..turn_count(signature, sort) {
        if turn_holds(
            signature, atoms, truths, scratch, start, sort, turn, false, scope,
        ) {
            return true;
        }
    }
    false
}

/// The truth of a sentence in a structure. Evaluation is lazy: it goes over the values of a binder until
/// one decides, and over the parts of a conjunction or a disjunction likewise. It takes no memory.
pub fn holds(
    signature: &Signature,
    atoms: &Atoms,
    structure: &Structure,
    formula: &Formula,
    scratch: &mut Scratch,
) -> bool
    requires of { atoms.now ≡ signature.now }
    requires sentence { IsSentence signature.now (formula_tree formula.now) }
    requires room { nesting (formula_tree formula.now) ≤ scratch.old }
    ensures answer { result ≡ truth (universe_of signature.now) (structure_of (universe_of signature.now) structure.now) [] (formula_tree formula.now) }
    ensures same { scratch.new ≡ scratch.old }
{
    let _sorts = signature.sorts();
    let _visible = atoms.visible();
    let start = scratch.values.len();
    truth_at(
        signature,
        atoms,
        &structure.truths,
        scratch.values.as_mut_slice(),
        start,
        formula,
    )
}
