//! Walks over the instances of a path, from its outermost step on.
//!
//! The values of the binders passed stand in a scratch from `start` on, the innermost first; the trees of the bodies passed stand in `trees`.
ghost use Rattle.std.specs.Prelude.{◌≡◌, ◌<◌, ◌≤◌, ◌+◌, ◌-◌, ◌^◌, ◌∷◌, [], drop, length, map, OnOk};
ghost use Rattle.ec_logic.specs.Universe.{universe_of, extent_at};
ghost use Rattle.ec_logic.specs.Atom.{all_atoms};
ghost use Rattle.ec_logic.specs.Countable.{IsCountable};
ghost use Rattle.ec_logic.specs.Paths.{binder, body};
ghost use Rattle.ec_logic.specs.Reach.{nesting};
ghost use Rattle.ec_logic.specs.Reading.{IsReadable, AreReadableTerms, AtEachValue};
ghost use Rattle.ec_logic.specs.Turns.{turns, at_turn};
ghost use Rattle.ec_theory.specs.View.{formula_tree, term_trees};
ghost use Rattle.ec_prop.specs.Prop.{trees_of};
ghost use Rattle.ec_path.specs.View.{path_of, step_of};
ghost use Rattle.ec_fold.specs.Known.{read_with};
ghost use Rattle.ec_gather.specs.Table.{Gathers, no_trees};
ghost use Rattle.ec_gather.specs.Walks.{IsWalkable, IsWalkableUnder, given_on, given_under, given_in_turn};

use crate::copies::{conj_of_copies, is_false};
use crate::table::give;
use ec_fold::{Reader, fold};
use ec_path::{Path, Step};
use ec_prop::{Joining, Prop};
use ec_theory::Formula;
use ec_values::{env_of, keeps_under, number_at, turn_count, value_in_turn};
use std::alloc::{AllocError, Global};

// The instance goes to the atom that is its head.
fn walk_head(
    alloc: Global,
    reader: Reader<'_>,
    path: &Path<'_>,
    trees: &[Prop],
    table: &mut [Option<Joining>],
    env: &[i64],
) -> Result<(), AllocError>
    requires of { reader.atoms.now ≡ reader.signature.now }
    requires countable { IsCountable (universe_of reader.signature.now) }
    requires many { 6 ≤ length reader.signature.now.predicates }
    requires known { path.now.predicate < length reader.signature.now.predicates }
    requires readable { AreReadableTerms reader.signature.now env.now (term_trees path.now.args.now) }
    requires all { length table.old ≡ length (all_atoms (universe_of reader.signature.now)) }
    ensures gathers { OnOk result (Gathers (universe_of reader.entry.signature.now) table.new no_trees table.old (given_on (universe_of reader.entry.signature.now) (read_with (universe_of reader.entry.signature.now) reader.entry.known.now) (path_of path.now) env.now (trees_of trees.now) [])) }
    ensures size { length table.new ≡ length table.old }
{
    let head = number_at(
        reader.signature,
        reader.atoms,
        env,
        path.predicate,
        path.args,
    );
    match head {
        Some(atom) => {
            let tree = conj_of_copies(alloc, trees)?;
            give(table, atom, tree)
        }
        None => Ok(()),
    }
}

/// Gives the trees of a path's instances to their heads, from some steps on. Each instance is met once.
#[cycle(walk)]
pub(crate) fn walk_steps(
    alloc: Global,
    reader: Reader<'_>,
    path: &Path<'_>,
    trees: &mut Vec<Prop>,
    table: &mut [Option<Joining>],
    scratch: &mut [i64],
    start: usize,
    steps: &[Step<'_>],
) -> Result<(), AllocError>
    requires of { reader.atoms.now ≡ reader.signature.now }
    requires countable { IsCountable (universe_of reader.signature.now) }
    requires many { 6 ≤ length reader.signature.now.predicates }
    requires walkable { IsWalkable reader.signature.now (path_of path.now) start (drop start scratch.old) (map step_of steps.now) }
    requires within { start ≤ length scratch.old }
    requires depth { start < 2 ^ 32 }
    requires all { length table.old ≡ length (all_atoms (universe_of reader.signature.now)) }
    ensures gathers { OnOk result (Gathers (universe_of reader.entry.signature.now) table.new no_trees table.old (given_on (universe_of reader.entry.signature.now) (read_with (universe_of reader.entry.signature.now) reader.entry.known.now) (path_of path.now) (drop start scratch.old) (trees_of trees.old.items) (map step_of steps.now))) }
    ensures stack { OnOk result (trees.new.items ≡ trees.old.items) }
    ensures size { length table.new ≡ length table.old }
    ensures kept { drop start scratch.new ≡ drop start scratch.old }
{
    match steps.split_first() {
        Some((Step::Binder { sort, scope }, rest)) => walk_values(
            alloc, reader, path, trees, table, scratch, start, *sort, scope, rest,
        ),
        Some((Step::Body(body), rest)) => walk_body(
            alloc, reader, path, trees, table, scratch, start, body, rest,
        ),
        None => walk_head(alloc, reader, path, trees, table, env_of(scratch, start)),
    }
}

// A body's tree stands on the stack while the instances below it are met. Where it is False they make no tree, and are left out.
#[cycle(walk)]
#[tactic(auto, using(crate::proofs::Nevers::gathers_false))]
fn walk_body(
    alloc: Global,
    reader: Reader<'_>,
    path: &Path<'_>,
    trees: &mut Vec<Prop>,
    table: &mut [Option<Joining>],
    scratch: &mut [i64],
    start: usize,
    formula: &Formula,
    rest: &[Step<'_>],
) -> Result<(), AllocError>
    requires of { reader.atoms.now ≡ reader.signature.now }
    requires countable { IsCountable (universe_of reader.signature.now) }
    requires many { 6 ≤ length reader.signature.now.predicates }
    requires readable { IsReadable reader.signature.now (drop start scratch.old) (formula_tree formula.now) }
    requires room { nesting (formula_tree formula.now) ≤ start }
    requires walkable { IsWalkable reader.signature.now (path_of path.now) start (drop start scratch.old) (map step_of rest.now) }
    requires within { start ≤ length scratch.old }
    requires depth { start < 2 ^ 32 }
    requires all { length table.old ≡ length (all_atoms (universe_of reader.signature.now)) }
    ensures gathers { OnOk result (Gathers (universe_of reader.entry.signature.now) table.new no_trees table.old (given_on (universe_of reader.entry.signature.now) (read_with (universe_of reader.entry.signature.now) reader.entry.known.now) (path_of path.now) (drop start scratch.old) (trees_of trees.old.items) (body (formula_tree formula.now) ∷ map step_of rest.now))) }
    ensures stack { OnOk result (trees.new.items ≡ trees.old.items) }
    ensures size { length table.new ≡ length table.old }
    ensures kept { drop start scratch.new ≡ drop start scratch.old }
{
    let tree = fold(alloc, reader, scratch, start, true, formula)?;
    if is_false(&tree) {
        return Ok(());
    }
    trees.push(tree)?;
    walk_steps(alloc, reader, path, trees, table, scratch, start, rest)?;
    trees.pop();
    Ok(())
}

// The instances under each value of a binder, in the order of its domain.
#[cycle(walk)]
#[tactic(auto, using(crate::proofs::Gathers::gathers_start, crate::proofs::Gathers::gathers_turns))]
fn walk_values(
    alloc: Global,
    reader: Reader<'_>,
    path: &Path<'_>,
    trees: &mut Vec<Prop>,
    table: &mut [Option<Joining>],
    scratch: &mut [i64],
    start: usize,
    sort: u32,
    scope: &Formula,
    rest: &[Step<'_>],
) -> Result<(), AllocError>
    requires of { reader.atoms.now ≡ reader.signature.now }
    requires countable { IsCountable (universe_of reader.signature.now) }
    requires many { 6 ≤ length reader.signature.now.predicates }
    requires known { sort < length reader.signature.now.sorts }
    requires room { nesting (formula_tree scope.now) + 1 ≤ start }
    requires each { AtEachValue (extent_at (universe_of reader.signature.now) sort) (IsWalkableUnder reader.signature.now (path_of path.now) start (drop start scratch.old) (formula_tree scope.now) (map step_of rest.now)) }
    requires within { start ≤ length scratch.old }
    requires depth { start < 2 ^ 32 }
    requires all { length table.old ≡ length (all_atoms (universe_of reader.signature.now)) }
    ensures gathers { OnOk result (Gathers (universe_of reader.entry.signature.now) table.new no_trees table.old (given_on (universe_of reader.entry.signature.now) (read_with (universe_of reader.entry.signature.now) reader.entry.known.now) (path_of path.now) (drop start scratch.old) (trees_of trees.old.items) (binder sort (formula_tree scope.now) ∷ map step_of rest.now))) }
    ensures stack { OnOk result (trees.new.items ≡ trees.old.items) }
    ensures size { length table.new ≡ length table.old }
    ensures kept { drop start scratch.new ≡ drop start scratch.old }
{
    for turn in 0..turn_count(reader.signature, sort) {
        walk_turn(
            alloc, reader, path, trees, table, scratch, start, sort, turn, scope, rest,
        )?;
    }
    Ok(())
}

#[cycle(walk)]
#[tactic(auto, using(crate::proofs::Gathers::gathers_none))]
fn walk_turn(
    alloc: Global,
    reader: Reader<'_>,
    path: &Path<'_>,
    trees: &mut Vec<Prop>,
    table: &mut [Option<Joining>],
    scratch: &mut [i64],
    start: usize,
    sort: u32,
    turn: u64,
    scope: &Formula,
    rest: &[Step<'_>],
) -> Result<(), AllocError>
    requires of { reader.atoms.now ≡ reader.signature.now }
    requires countable { IsCountable (universe_of reader.signature.now) }
    requires many { 6 ≤ length reader.signature.now.predicates }
    requires known { sort < length reader.signature.now.sorts }
    requires below { turn < turns (extent_at (universe_of reader.signature.now) sort) }
    requires small { turn < 2 ^ 62 }
    requires room { nesting (formula_tree scope.now) + 1 ≤ start }
    requires each { AtEachValue (extent_at (universe_of reader.signature.now) sort) (IsWalkableUnder reader.signature.now (path_of path.now) start (drop start scratch.old) (formula_tree scope.now) (map step_of rest.now)) }
    requires within { start ≤ length scratch.old }
    requires depth { start < 2 ^ 32 }
    requires all { length table.old ≡ length (all_atoms (universe_of reader.signature.now)) }
    ensures gathers { OnOk result (Gathers (universe_of reader.entry.signature.now) table.new no_trees table.old (given_in_turn (universe_of reader.entry.signature.now) (read_with (universe_of reader.entry.signature.now) reader.entry.known.now) (path_of path.now) (drop start scratch.old) (trees_of trees.old.items) (formula_tree scope.now) (map step_of rest.now) (at_turn (extent_at (universe_of reader.entry.signature.now) sort) turn))) }
    ensures stack { OnOk result (trees.new.items ≡ trees.old.items) }
    ensures size { length table.new ≡ length table.old }
    ensures kept { drop start scratch.new ≡ drop start scratch.old }
{
    match value_in_turn(reader.signature, sort, turn) {
        Some(value) => walk_value(
            alloc, reader, path, trees, table, scratch, start, value, scope, rest,
        ),
        None => Ok(()),
    }
}

// The instances under a value of a binder, where the binder ranges over it.
#[cycle(walk)]
#[tactic(auto, using(crate::proofs::Gathers::gathers_under, crate::proofs::Gathers::gathers_outside))]
fn walk_value(
    alloc: Global,
    reader: Reader<'_>,
    path: &Path<'_>,
    trees: &mut Vec<Prop>,
    table: &mut [Option<Joining>],
    scratch: &mut [i64],
    start: usize,
    value: i64,
    scope: &Formula,
    rest: &[Step<'_>],
) -> Result<(), AllocError>
    requires of { reader.atoms.now ≡ reader.signature.now }
    requires countable { IsCountable (universe_of reader.signature.now) }
    requires many { 6 ≤ length reader.signature.now.predicates }
    requires room { nesting (formula_tree scope.now) + 1 ≤ start }
    requires walkable { IsWalkableUnder reader.signature.now (path_of path.now) start (drop start scratch.old) (formula_tree scope.now) (map step_of rest.now) value }
    requires within { start ≤ length scratch.old }
    requires depth { start < 2 ^ 32 }
    requires all { length table.old ≡ length (all_atoms (universe_of reader.signature.now)) }
    ensures gathers { OnOk result (Gathers (universe_of reader.entry.signature.now) table.new no_trees table.old (given_under (universe_of reader.entry.signature.now) (read_with (universe_of reader.entry.signature.now) reader.entry.known.now) (path_of path.now) (drop start scratch.old) (trees_of trees.old.items) (formula_tree scope.now) (map step_of rest.now) value)) }
    ensures stack { OnOk result (trees.new.items ≡ trees.old.items) }
    ensures size { length table.new ≡ length table.old }
    ensures kept { drop start scratch.new ≡ drop start scratch.old }
{
    if !keeps_under(reader.signature, scratch, start, 0, value, scope) {
        return Ok(());
    }
    walk_under(
        alloc, reader, path, trees, table, scratch, start, value, rest,
    )
}

#[cycle(walk)]
#[tactic(auto, using(ec_values::proofs::StackLemmas::drop_pushed, ec_values::proofs::StackLemmas::drop_popped))]
fn walk_under(
    alloc: Global,
    reader: Reader<'_>,
    path: &Path<'_>,
    trees: &mut Vec<Prop>,
    table: &mut [Option<Joining>],
    scratch: &mut [i64],
    start: usize,
    value: i64,
    rest: &[Step<'_>],
) -> Result<(), AllocError>
    requires of { reader.atoms.now ≡ reader.signature.now }
    requires countable { IsCountable (universe_of reader.signature.now) }
    requires many { 6 ≤ length reader.signature.now.predicates }
    requires walkable { IsWalkable reader.signature.now (path_of path.now) (start - 1) (value ∷ drop start scratch.old) (map step_of rest.now) }
    requires room { 0 < start }
    requires within { start ≤ length scratch.old }
    requires depth { start < 2 ^ 32 }
    requires all { length table.old ≡ length (all_atoms (universe_of reader.signature.now)) }
    ensures gathers { OnOk result (Gathers (universe_of reader.entry.signature.now) table.new no_trees table.old (given_on (universe_of reader.entry.signature.now) (read_with (universe_of reader.entry.signature.now) reader.entry.known.now) (path_of path.now) (value ∷ drop start scratch.old) (trees_of trees.old.items) (map step_of rest.now))) }
    ensures stack { OnOk result (trees.new.items ≡ trees.old.items) }
    ensures size { length table.new ≡ length table.old }
    ensures kept { drop start scratch.new ≡ drop start scratch.old }
{
    scratch[start - 1] = value;
    walk_steps(alloc, reader, path, trees, table, scratch, start - 1, rest)
}
