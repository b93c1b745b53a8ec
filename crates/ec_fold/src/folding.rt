//! Formulas folded into trees.
ghost use Rattle.std.specs.Prelude.{◌≡◌, ◌≤◌, ◌<◌, ◌+◌, ◌^◌, ◌∷◌, [], List, drop, length, map, true, None, slice_index_or, IfOk, OnOk};
ghost use Rattle.ec_logic.specs.Universe.{extent_at, universe_of};
ghost use Rattle.ec_logic.specs.Value.{values};
ghost use Rattle.ec_logic.specs.Place.{kept_values};
ghost use Rattle.ec_logic.specs.Turns.{turns, at_turn};
ghost use Rattle.ec_logic.specs.Countable.{IsCountable};
ghost use Rattle.ec_logic.specs.Reach.{nesting, nesting_of};
ghost use Rattle.ec_logic.specs.Reading.{AreReadableTerms, IsReadable, AreReadable, AtEachValue};
ghost use Rattle.ec_logic.specs.ValidTheory.{IsSentence};
ghost use Rattle.ec_theory.specs.View.{term_trees, formula_tree, formula_trees};
ghost use Rattle.ec_folding.specs.Tree.{Tree};
ghost use Rattle.ec_folding.specs.Join.{join};
ghost use Rattle.ec_grounding.specs.Folded.{folded, folded_each, leaf_tree};
ghost use Rattle.ec_prop.specs.Prop.{tree_of};
ghost use Rattle.ec_prop.specs.Joining.{joined_with};
ghost use Rattle.ec_fold.specs.Known.{known_or, leaf_known, read_with};
ghost use Rattle.ec_fold.specs.Parts.{with_part, with_turn};

use crate::reader::Reader;
use ec_prop::{Joining, Prop, constant};
use ec_theory::{Formula, Term};
use ec_values::{env_of, keeps_under, number_at, turn_count, value_in_turn, value_of};
use std::alloc::{AllocError, Global};

// The tree of the atom of a number. An atom without one is false.
fn leaf_of(known: &[Option<bool>], number: Option<u64>, positive: bool) -> Prop
    ensures { tree_of result ≡ leaf_tree positive (leaf_known known.now number) }
{
    match number {
        Some(atom) => known_or_literal(known, atom, positive),
        None => constant(!positive),
    }
}

fn known_or_literal(known: &[Option<bool>], atom: u64, positive: bool) -> Prop
    ensures { tree_of result ≡ leaf_tree positive (known_or (slice_index_or known.now atom None) atom) }
{
    match known.get(atom as usize) {
        Some(Some(truth)) => constant(*truth == positive),
        _ => Prop::Lit { atom, positive },
    }
}

fn fold_atom(reader: Reader<'_>, env: &[i64], positive: bool, predicate: u32, args: &[Term]) -> Prop
    requires of { reader.atoms.now ≡ reader.signature.now }
    requires countable { IsCountable (universe_of reader.signature.now) }
    requires known { predicate < length reader.signature.now.predicates }
    requires readable { AreReadableTerms reader.signature.now env.now (term_trees args.now) }
    ensures { tree_of result ≡ leaf_tree positive (read_with (universe_of reader.entry.signature.now) reader.entry.known.now predicate (values (universe_of reader.entry.signature.now) env.now (term_trees args.now))) }
{
    let number = number_at(reader.signature, reader.atoms, env, predicate, args);
    leaf_of(reader.known, number, positive)
}

/// The tree of a formula under values of the open binders, which stand in the scratch from `start` on, the innermost first: the positive
/// fold, or the negative one where `positive` is false.
///
/// The parts of a connective and the values of a quantifier are gone over until its tree is decided. Time grows with the instances that
/// are gone over, memory with the tree.
#[cycle(fold)]
pub fn fold(
    alloc: Global,
    reader: Reader<'_>,
    scratch: &mut [i64],
    start: usize,
    positive: bool,
    formula: &Formula,
) -> Result<Prop, AllocError>
    requires of { reader.atoms.now ≡ reader.signature.now }
    requires countable { IsCountable (universe_of reader.signature.now) }
    requires readable { IsReadable reader.signature.now (drop start scratch.old) (formula_tree formula.now) }
    requires room { nesting (formula_tree formula.now) ≤ start }
    requires within { start ≤ length scratch.old }
    requires depth { start < 2 ^ 32 }
    ensures tree { IfOk result (λ tree. tree_of tree ≡ folded (universe_of reader.entry.signature.now) (read_with (universe_of reader.entry.signature.now) reader.entry.known.now) (drop start scratch.old) positive (formula_tree formula.now)) }
    ensures kept { drop start scratch.new ≡ drop start scratch.old }
{
    match formula {
        Formula::True => Ok(constant(positive)),
        Formula::False => Ok(constant(!positive)),
        Formula::Atom { predicate, args } => Ok(fold_atom(
            reader,
            env_of(scratch, start),
            positive,
            *predicate,
            args,
        )),
        Formula::Equal(a, b) => {
            let env = env_of(scratch, start);
            let equal = value_of(reader.signature, env, a) == value_of(reader.signature, env, b);
            Ok(constant(equal == positive))
        }
        Formula::Less(a, b) => {
            let env = env_of(scratch, start);
            let less = value_of(reader.signature, env, a) < value_of(reader.signature, env, b);
            Ok(constant(less == positive))
        }
        Formula::Not(f) => fold(alloc, reader, scratch, start, !positive, f),
        Formula::And(fs) => fold_each(alloc, reader, scratch, start, positive, positive, fs),
        Formula::Or(fs) => fold_each(alloc, reader, scratch, start, !positive, positive, fs),
        Formula::Implies(f, g) => {
            let first = fold(alloc, reader, scratch, start, !positive, f)?;
            fold_after(alloc, reader, scratch, start, positive, g, !positive, first)
        }
        Formula::Iff(f, g) => {
            let opposite = fold(alloc, reader, scratch, start, !positive, f)?;
            let forth = fold_after(alloc, reader, scratch, start, true, g, false, opposite)?;
            let same = fold(alloc, reader, scratch, start, positive, f)?;
            let back = fold_after(alloc, reader, scratch, start, false, g, false, same)?;
            join_two(alloc, true, forth, back)
        }
        Formula::ForAll { sort, scope } => fold_values(
            alloc, reader, scratch, start, positive, positive, *sort, scope,
        ),
        Formula::Exists { sort, scope } => fold_values(
            alloc, reader, scratch, start, !positive, positive, *sort, scope,
        ),
    }
}

fn join_two(alloc: Global, conjunction: bool, first: Prop, second: Prop) -> Result<Prop, AllocError>
    ensures { IfOk result (λ tree. tree_of tree ≡ join conjunction (tree_of first ∷ tree_of second ∷ [])) }
{
    let mut joining = Joining::new(alloc, conjunction);
    joining.add(first)?;
    joining.add(second)?;
    Ok(joining.finish())
}

// A tree joined with that of a formula after it, which is not folded where the first tree decides.
#[cycle(fold)]
fn fold_after(
    alloc: Global,
    reader: Reader<'_>,
    scratch: &mut [i64],
    start: usize,
    positive: bool,
    formula: &Formula,
    conjunction: bool,
    first: Prop,
) -> Result<Prop, AllocError>
    requires of { reader.atoms.now ≡ reader.signature.now }
    requires countable { IsCountable (universe_of reader.signature.now) }
    requires readable { IsReadable reader.signature.now (drop start scratch.old) (formula_tree formula.now) }
    requires room { nesting (formula_tree formula.now) ≤ start }
    requires within { start ≤ length scratch.old }
    requires depth { start < 2 ^ 32 }
    ensures tree { IfOk result (λ tree. tree_of tree ≡ join conjunction (tree_of first ∷ folded (universe_of reader.entry.signature.now) (read_with (universe_of reader.entry.signature.now) reader.entry.known.now) (drop start scratch.old) positive (formula_tree formula.now) ∷ [])) }
    ensures kept { drop start scratch.new ≡ drop start scratch.old }
{
    let mut joining = Joining::new(alloc, conjunction);
    joining.add(first)?;
    if joining.is_decided() {
        return Ok(joining.finish());
    }
    let part = fold(alloc, reader, scratch, start, positive, formula)?;
    joining.add(part)?;
    Ok(joining.finish())
}

#[cycle(fold)]
fn fold_each(
    alloc: Global,
    reader: Reader<'_>,
    scratch: &mut [i64],
    start: usize,
    conjunction: bool,
    positive: bool,
    formulas: &[Formula],
) -> Result<Prop, AllocError>
    requires of { reader.atoms.now ≡ reader.signature.now }
    requires countable { IsCountable (universe_of reader.signature.now) }
    requires readable { AreReadable reader.signature.now (drop start scratch.old) (formula_trees formulas.now) }
    requires room { nesting_of (formula_trees formulas.now) ≤ start }
    requires within { start ≤ length scratch.old }
    requires depth { start < 2 ^ 32 }
    ensures tree { IfOk result (λ tree. tree_of tree ≡ join conjunction (folded_each (universe_of reader.entry.signature.now) (read_with (universe_of reader.entry.signature.now) reader.entry.known.now) (drop start scratch.old) positive (formula_trees formulas.now))) }
    ensures kept { drop start scratch.new ≡ drop start scratch.old }
{
    let mut joining = Joining::new(alloc, conjunction);
    for formula in formulas {
        if joining.is_decided() {
            return Ok(joining.finish());
        }
        let part = fold(alloc, reader, scratch, start, positive, formula)?;
        joining.add(part)?;
    }
    Ok(joining.finish())
}

#[cycle(fold)]
#[tactic(auto, using(ec_values::proofs::StackLemmas::drop_pushed, ec_values::proofs::StackLemmas::drop_popped))]
fn fold_under(
    alloc: Global,
    reader: Reader<'_>,
    scratch: &mut [i64],
    start: usize,
    v: i64,
    positive: bool,
    scope: &Formula,
) -> Result<Prop, AllocError>
    requires of { reader.atoms.now ≡ reader.signature.now }
    requires countable { IsCountable (universe_of reader.signature.now) }
    requires readable { IsReadable reader.signature.now (v ∷ drop start scratch.old) (formula_tree scope.now) }
    requires room { nesting (formula_tree scope.now) + 1 ≤ start }
    requires within { start ≤ length scratch.old }
    requires depth { start < 2 ^ 32 }
    ensures tree { IfOk result (λ tree. tree_of tree ≡ folded (universe_of reader.entry.signature.now) (read_with (universe_of reader.entry.signature.now) reader.entry.known.now) (v ∷ drop start scratch.old) positive (formula_tree scope.now)) }
    ensures kept { drop start scratch.new ≡ drop start scratch.old }
{
    scratch[start - 1] = v;
    fold(alloc, reader, scratch, start - 1, positive, scope)
}

// Adds the part of a value, where the binder ranges over it.
#[cycle(fold)]
fn add_value(
    alloc: Global,
    reader: Reader<'_>,
    scratch: &mut [i64],
    start: usize,
    v: i64,
    positive: bool,
    scope: &Formula,
    joining: &mut Joining,
) -> Result<(), AllocError>
    requires of { reader.atoms.now ≡ reader.signature.now }
    requires countable { IsCountable (universe_of reader.signature.now) }
    requires readable { IsReadable reader.signature.now (v ∷ drop start scratch.old) (formula_tree scope.now) }
    requires room { nesting (formula_tree scope.now) + 1 ≤ start }
    requires within { start ≤ length scratch.old }
    requires depth { start < 2 ^ 32 }
    ensures tree { OnOk result ((rest : List Tree) → joined_with joining.new rest ≡ joined_with joining.old (with_part (universe_of reader.entry.signature.now) (read_with (universe_of reader.entry.signature.now) reader.entry.known.now) (drop start scratch.old) positive (formula_tree scope.now) v rest)) }
    ensures kept { drop start scratch.new ≡ drop start scratch.old }
{
    if keeps_under(reader.signature, scratch, start, 0, v, scope) {
        let part = fold_under(alloc, reader, scratch, start, v, positive, scope)?;
        joining.add(part)?;
    }
    Ok(())
}

// Adds the part of a turn, where it has a value.
#[cycle(fold)]
fn add_turn(
    alloc: Global,
    reader: Reader<'_>,
    scratch: &mut [i64],
    start: usize,
    sort: u32,
    turn: u64,
    positive: bool,
    scope: &Formula,
    joining: &mut Joining,
) -> Result<(), AllocError>
    requires of { reader.atoms.now ≡ reader.signature.now }
    requires countable { IsCountable (universe_of reader.signature.now) }
    requires known { sort < length reader.signature.now.sorts }
    requires below { turn < turns (extent_at (universe_of reader.signature.now) sort) }
    requires small { turn < 2 ^ 62 }
    requires each { AtEachValue (extent_at (universe_of reader.signature.now) sort) (λ v. IsReadable reader.signature.now (v ∷ drop start scratch.old) (formula_tree scope.now)) }
    requires room { nesting (formula_tree scope.now) + 1 ≤ start }
    requires within { start ≤ length scratch.old }
    requires depth { start < 2 ^ 32 }
    ensures tree { OnOk result ((rest : List Tree) → joined_with joining.new rest ≡ joined_with joining.old (with_turn (universe_of reader.entry.signature.now) (read_with (universe_of reader.entry.signature.now) reader.entry.known.now) (drop start scratch.old) positive (formula_tree scope.now) (at_turn (extent_at (universe_of reader.entry.signature.now) sort) turn) rest)) }
    ensures kept { drop start scratch.new ≡ drop start scratch.old }
{
    match value_in_turn(reader.signature, sort, turn) {
        Some(v) => add_value(alloc, reader, scratch, start, v, positive, scope, joining),
        None => Ok(()),
    }
}

#[cycle(fold)]
fn fold_values(
    alloc: Global,
    reader: Reader<'_>,
    scratch: &mut [i64],
    start: usize,
    conjunction: bool,
    positive: bool,
    sort: u32,
    scope: &Formula,
) -> Result<Prop, AllocError>
    requires of { reader.atoms.now ≡ reader.signature.now }
    requires countable { IsCountable (universe_of reader.signature.now) }
    requires known { sort < length reader.signature.now.sorts }
    requires each { AtEachValue (extent_at (universe_of reader.signature.now) sort) (λ v. IsReadable reader.signature.now (v ∷ drop start scratch.old) (formula_tree scope.now)) }
    requires room { nesting (formula_tree scope.now) + 1 ≤ start }
    requires within { start ≤ length scratch.old }
    requires depth { start < 2 ^ 32 }
    ensures tree { IfOk result (λ tree. tree_of tree ≡ join conjunction (map (λ v. folded (universe_of reader.entry.signature.now) (read_with (universe_of reader.entry.signature.now) reader.entry.known.now) (v ∷ drop start scratch.old) positive (formula_tree scope.now)) (kept_values (universe_of reader.entry.signature.now) (drop start scratch.old) sort (formula_tree scope.now)))) }
    ensures kept { drop start scratch.new ≡ drop start scratch.old }
{
    let mut joining = Joining::new(alloc, conjunction);
    for turn in 0..turn_count(reader.signature, sort) {
        if joining.is_decided() {
            return Ok(joining.finish());
        }
        add_turn(
            alloc,
            reader,
            scratch,
            start,
            sort,
            turn,
            positive,
            scope,
            &mut joining,
        )?;
    }
    Ok(joining.finish())
}

/// The tree of a sentence, in the time and memory of [`fold`]. The scratch is room for the values of its binders: what stood there is lost.
pub fn fold_sentence(
    alloc: Global,
    reader: Reader<'_>,
    scratch: &mut [i64],
    formula: &Formula,
) -> Result<Prop, AllocError>
    requires of { reader.atoms.now ≡ reader.signature.now }
    requires sentence { IsSentence reader.signature.now (formula_tree formula.now) }
    requires room { nesting (formula_tree formula.now) ≤ length scratch.old }
    requires depth { length scratch.old < 2 ^ 32 }
    ensures tree { IfOk result (λ tree. tree_of tree ≡ folded (universe_of reader.entry.signature.now) (read_with (universe_of reader.entry.signature.now) reader.entry.known.now) [] true (formula_tree formula.now)) }
    ensures room { length scratch.new ≡ length scratch.old }
{
    let _sorts = reader.signature.sorts();
    let _visible = reader.atoms.visible();
    let start = scratch.len();
    fold(alloc, reader, scratch, start, true, formula)
}
