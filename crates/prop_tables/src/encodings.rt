//! The clause list of a theory.
ghost use Rattle.std.specs.Prelude.{◌≡◌, ℕ, ◌+◌, ◌*◌, ◌<◌, ◌≤◌, IfOk};
ghost use Rattle.ec_prop.specs.Prop.{tree_of};
ghost use Rattle.ec_prop.specs.Grounded.{IsGrounded};
ghost use Rattle.prop_tables.specs.Sample.{IsSample};

use ec_clause::clauses::Clauses;
use ec_encode::encode;
use ec_prop::{Grounded, Prop};
use std::alloc::{AllocError, Global};
use std::fmt::Write;
use std::test::Fail;

fn literal(atom: u64, positive: bool) -> Prop
    requires { atom < 3 }
    ensures { IsSample 1 (tree_of result) }
{
    Prop::Lit { atom, positive }
}

fn both(alloc: Global, first: Prop, second: Prop) -> Result<Prop, AllocError>
    ensures { IfOk result (λ prop. (m n : ℕ) → IsSample m (tree_of first) → IsSample n (tree_of second) → IsSample (m + n + 1) (tree_of prop)) }
{
    let parts = vec![in alloc; first, second]?;
    Ok(Prop::And(parts))
}

fn either(alloc: Global, first: Prop, second: Prop) -> Result<Prop, AllocError>
    ensures { IfOk result (λ prop. (m n : ℕ) → IsSample m (tree_of first) → IsSample n (tree_of second) → IsSample (m + n + 1) (tree_of prop)) }
{
    let parts = vec![in alloc; first, second]?;
    Ok(Prop::Or(parts))
}

fn one_of(alloc: Global, first: Prop, second: Prop, third: Prop) -> Result<Prop, AllocError>
    ensures { IfOk result (λ prop. (k m n : ℕ) → IsSample k (tree_of first) → IsSample m (tree_of second) → IsSample n (tree_of third) → IsSample (k + m + n + 1) (tree_of prop)) }
{
    let parts = vec![in alloc; first, second, third]?;
    Ok(Prop::Or(parts))
}

// A theory of one sentence over three visible atoms.
fn theory(alloc: Global, sentence: Prop) -> Result<Grounded, AllocError>
    requires { IsSample 4000 (tree_of sentence) }
    ensures { IfOk result (λ grounded. IsGrounded grounded 3) }
{
    let sentences = vec![in alloc; sentence]?;
    let definitions = Vec::new(alloc);
    let variables = vec![in alloc; 0, 1, 2]?;
    Ok(Grounded {
        sentences,
        definitions,
        variables,
    })
}

// And(1, Or(2, And(1, .. 0))), as deep as asked.
fn alternating(alloc: Global, depth: u32, conjunction: bool) -> Result<Prop, AllocError>
    ensures { IfOk result (λ prop. IsSample (2 * depth + 1) (tree_of prop)) }
{
    if depth == 0 {
        return Ok(literal(0, true));
    }
    let rest = alternating(alloc, depth - 1, !conjunction)?;
    let prop = if conjunction {
        both(alloc, literal(1, true), rest)?
    } else {
        either(alloc, literal(2, true), rest)?
    };
    Ok(prop)
}

fn text(alloc: Global, clauses: &Clauses) -> Result<String, AllocError> {
    let mut text = String::new(alloc);
    for place in 0..clauses.len() {
        for lit in clauses.get(place + 1) {
            let sign = if lit.positive() { "" } else { "-" };
            let variable = lit.variable();
            write!(text, "{sign}{variable} ")?;
        }
        text.push_str("0 ")?;
    }
    Ok(text)
}

// p exactly where q and r, as its two implications.
#[test]
fn a_sentence_is_encoded(rt: HostRuntime) -> Result<(), Fail> {
    let alloc = rt.alloc();
    let all = both(alloc, literal(1, true), literal(2, true))?;
    let only = either(alloc, literal(0, false), all)?;
    let back = one_of(
        alloc,
        literal(0, true),
        literal(1, false),
        literal(2, false),
    )?;
    let sentence = both(alloc, only, back)?;
    let cnf = encode(alloc, &theory(alloc, sentence)?, 3)?;
    assert_eq!(rt; cnf.visible, 3);
    assert_eq!(rt; cnf.clauses.variables(), 4);
    let want = "-4 2 0 -4 3 0 4 -2 -3 0 -1 4 0 1 -2 -3 0 ";
    assert_eq!(rt; text(alloc, &cnf.clauses)?.as_str(), want);
    Ok(())
}

// A formula nests some 400 deep at most, and its tree no deeper.
#[test]
fn a_deep_sentence_is_encoded(rt: HostRuntime) -> Result<(), Fail> {
    let alloc = rt.alloc();
    let sentence = alternating(alloc, 1000, true)?;
    let cnf = encode(alloc, &theory(alloc, sentence)?, 3)?;
    assert_eq!(rt; cnf.clauses.variables(), 1001);
    assert_eq!(rt; cnf.clauses.len(), 2996);
    Ok(())
}
