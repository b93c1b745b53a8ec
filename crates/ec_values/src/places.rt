//! The places of a binder, and whether all of them are in range.
ghost use Rattle.std.specs.Prelude.{◌≡◌, ◌<◌, ◌≤◌, ◌+◌, ◌^◌, ◌∷◌, drop, length, pos};
ghost use Rattle.ec_logic.specs.Universe.{universe_of};
ghost use Rattle.ec_logic.specs.Place.{innermost, innermost_of, nearer, place_in_range, term_keeps, terms_keep, keeps, all_keep};
ghost use Rattle.ec_logic.specs.Countable.{IsCountable};
ghost use Rattle.ec_logic.specs.Reach.{nesting, nesting_of};
ghost use Rattle.ec_logic.specs.Reading.{IsReadableTerm, AreReadableTerms, IsReadable, AreReadable};
ghost use Rattle.ec_theory.specs.View.{term_tree, term_trees, formula_tree, formula_trees};
ghost use Rattle.ec_values.specs.Rows.{row_in};

use crate::domains::is_in_range;
use crate::rows::symbol_row;
use crate::symbol::Symbol;
use crate::terms::value_of;
use ec_theory::{Formula, Signature, Term};

fn nearer_of(a: Option<u32>, b: Option<u32>) -> Option<u32>
    ensures { result ≡ nearer a b }
{
    match (a, b) {
        (Some(x), Some(y)) => Some(x.min(y)),
        (Some(x), None) => Some(x),
        (None, y) => y,
    }
}

#[cycle(inner)]
fn innermost_variable(t: &Term) -> Option<u32>
    ensures { result ≡ innermost (term_tree t.now) }
{
    match t {
        Term::Variable(k) => Some(*k),
        Term::Int(_) | Term::Constant(_) => None,
        Term::Event { symbol: _, args } | Term::Fluent { symbol: _, args } => innermost_variable_of(
            args,
        ),
        Term::Sum(a, b) | Term::Difference(a, b) | Term::Product(a, b) => nearer_of(
            innermost_variable(a),
            innermost_variable(b),
        ),
    }
}

#[cycle(inner)]
fn innermost_variable_of(args: &[Term]) -> Option<u32>
    ensures { result ≡ innermost_of (term_trees args.now) }
{
    let mut least = None;
    for t in args {
        least = nearer_of(least, innermost_variable(t));
    }
    least
}

// Whether a term with this sort, if it is a place of the binder d binders out, is in range.
fn place_keeps(signature: &Signature, env: &[i64], d: u32, sort: u32, t: &Term) -> bool
    requires countable { IsCountable (universe_of signature.now) }
    requires known { sort < length signature.now.sorts }
    requires readable { IsReadableTerm signature.now env.now (term_tree t.now) }
    ensures { result ≡ place_in_range (universe_of signature.now) env.now d sort (term_tree t.now) }
{
    match innermost_variable(t) {
        None => true,
        Some(k) => {
            if k == d {
                is_in_range(signature, sort, value_of(signature, env, t))
            } else {
                true
            }
        }
    }
}

#[cycle(term_keeps)]
fn term_keeps_at(signature: &Signature, env: &[i64], d: u32, t: &Term) -> bool
    requires countable { IsCountable (universe_of signature.now) }
    requires readable { IsReadableTerm signature.now env.now (term_tree t.now) }
    ensures { result ≡ term_keeps (universe_of signature.now) env.now d (term_tree t.now) }
{
    match t {
        Term::Variable(_) | Term::Int(_) | Term::Constant(_) => true,
        Term::Event { symbol, args } => terms_keep_at(
            signature,
            env,
            d,
            Symbol::Event(*symbol),
            args,
        ),
        Term::Fluent { symbol, args } => terms_keep_at(
            signature,
            env,
            d,
            Symbol::Fluent(*symbol),
            args,
        ),
        Term::Sum(a, b) | Term::Difference(a, b) | Term::Product(a, b) => term_keeps_at(
            signature, env, d, a,
        ) && term_keeps_at(signature, env, d, b),
    }
}

#[cycle(term_keeps)]
fn terms_keep_at(signature: &Signature, env: &[i64], d: u32, symbol: Symbol, args: &[Term]) -> bool
    requires countable { IsCountable (universe_of signature.now) }
    requires readable { AreReadableTerms signature.now env.now (term_trees args.now) }
    ensures { result ≡ terms_keep (universe_of signature.now) env.now d (row_in (universe_of signature.now) symbol) (term_trees args.now) }
{
    let sorts = symbol_row(signature, symbol);
    for (i, t) in args.iter().enumerate() {
        if i < sorts.len() && !place_keeps(signature, env, d, sorts[i], t) {
            return false;
        }
        if !term_keeps_at(signature, env, d, t) {
            return false;
        }
    }
    true
}

/// The values of the open binders: those from a place of the scratch on.
pub fn env_of(scratch: &[i64], start: usize) -> &[i64]
    requires { start ≤ length scratch.now }
    ensures { result.now ≡ drop start scratch.now }
{
    &scratch[start..]
}

#[cycle(keeps)]
fn keeps_at(signature: &Signature, scratch: &mut [i64], start: usize, d: u32, f: &Formula) -> bool
    requires countable { IsCountable (universe_of signature.now) }
    requires readable { IsReadable signature.now (drop start scratch.old) (formula_tree f.now) }
    requires room { nesting (formula_tree f.now) ≤ start }
    requires within { start ≤ length scratch.old }
    requires depth { d + nesting (formula_tree f.now) < 2 ^ 32 }
    ensures answer { result ≡ keeps (universe_of signature.now) (drop start scratch.old) d (formula_tree f.now) }
    ensures kept { drop start scratch.new ≡ drop start scratch.old }
{
    match f {
        Formula::True | Formula::False => true,
        Formula::Atom { predicate, args } => terms_keep_at(
            signature,
            env_of(scratch, start),
            d,
            Symbol::Predicate(*predicate),
            args,
        ),
        Formula::Equal(a, b) | Formula::Less(a, b) => term_keeps_at(
            signature,
            env_of(scratch, start),
            d,
            a,
        ) && term_keeps_at(signature, env_of(scratch, start), d, b),
        Formula::Not(g) => keeps_at(signature, scratch, start, d, g),
        Formula::And(fs) | Formula::Or(fs) => all_keep_at(signature, scratch, start, d, fs),
        Formula::Implies(g, h) | Formula::Iff(g, h) => keeps_at(signature, scratch, start, d, g)
            && keeps_at(signature, scratch, start, d, h),
        Formula::ForAll { sort: _, scope } | Formula::Exists { sort: _, scope } => keeps_under(
            signature,
            scratch,
            start,
            d + 1,
            0,
            scope,
        ),
    }
}

/// Whether each place of the binder d binders out is in range, where the innermost binder has this value.
#[cycle(keeps)]
#[tactic(auto, using(crate::proofs::StackLemmas::drop_pushed, crate::proofs::StackLemmas::drop_popped))]
pub fn keeps_under(
    signature: &Signature,
    scratch: &mut [i64],
    start: usize,
    d: u32,
    v: i64,
    scope: &Formula,
) -> bool
    requires countable { IsCountable (universe_of signature.now) }
    requires readable { IsReadable signature.now (v ∷ drop start scratch.old) (formula_tree scope.now) }
    requires room { nesting (formula_tree scope.now) + 1 ≤ start }
    requires within { start ≤ length scratch.old }
    requires depth { d + nesting (formula_tree scope.now) < 2 ^ 32 }
    ensures answer { result ≡ keeps (universe_of signature.now) (v ∷ drop start scratch.old) d (formula_tree scope.now) }
    ensures kept { drop start scratch.new ≡ drop start scratch.old }
{
    scratch[start - 1] = v;
    keeps_at(signature, scratch, start - 1, d, scope)
}

#[cycle(keeps)]
fn all_keep_at(
    signature: &Signature,
    scratch: &mut [i64],
    start: usize,
    d: u32,
    fs: &[Formula],
) -> bool
    requires countable { IsCountable (universe_of signature.now) }
    requires readable { AreReadable signature.now (drop start scratch.old) (formula_trees fs.now) }
    requires room { nesting_of (formula_trees fs.now) ≤ start }
    requires within { start ≤ length scratch.old }
    requires depth { d + nesting_of (formula_trees fs.now) < 2 ^ 32 }
    ensures answer { result ≡ all_keep (universe_of signature.now) (drop start scratch.old) d (formula_trees fs.now) }
    ensures kept { drop start scratch.new ≡ drop start scratch.old }
{
    for f in fs {
        if !keeps_at(signature, scratch, start, d, f) {
            return false;
        }
    }
    true
}
