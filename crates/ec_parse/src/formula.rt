//! Formulas, read by descent.
ghost use Rattle.std.specs.Prelude.{◌≡◌, ◌∷◌, ◌<◌, MatchOption, IfOk, None, Some, List, false};
ghost use Rattle.ec_parse.specs.Mark.{seen_all};
ghost use Rattle.ec_parse.specs.Mark as spec;
ghost use Rattle.ec_parse.specs.Formulas.{IsComparison, IsAtom, IsUnary, IsScope, IsConjunction, AreConjuncts, IsDisjunction, AreDisjuncts, IsImplication, IsFormula, joins, compared, behind, scope_of, trees_of};
ghost use Rattle.ec_parse.specs.Formulas as formulas;
ghost use Rattle.ec_parse.specs.Terms as terms;
ghost use Rattle.ec_parse.specs.declared.mark.Sign.TheVariants as Sign;
ghost use Rattle.ec_parse.specs.Reads.{Reads, IsClosed, IsWith, free};
ghost use Rattle.ec_parse.specs.Lists.{commas};
ghost use Rattle.ec_syntax.specs.View.{formula_of, term_of, terms_of};
ghost use Rattle.ec_syntax.specs.Written as written;

use crate::fault::Fault;
use crate::list::{upper, variables};
use crate::mark::{Mark, Sign, after, next};
use crate::term::{Read, arguments, copied, term};
use ec_lex::word::Word;
use ec_syntax::tree;
use ec_syntax::tree::{Arg, Op, Tree};
use std::alloc::{AllocError, Global};

/// What was read, where the sign stands behind it.
pub(crate) fn closed<'s, 'a, T>(read: T, marks: &'s [Mark<'a>], close: Sign) -> Read<'s, 'a, T>
where
    T: Drop,
    ensures { IsClosed read (seen_all marks.now) close result }
{
    match after(marks, close) {
        Some(rest) => Ok((read, rest)),
        None => Err(Fault::Syntax),
    }
}

/// What was read before, with what is read next.
fn with<'s, 'a, A, B>(before: A, next: Read<'s, 'a, B>) -> Read<'s, 'a, (A, B)>
where
    A: Drop,
    B: Drop,
    ensures { IsWith before next.entry result }
{
    let (next, rest) = next?;
    Ok(((before, next), rest))
}

/// The comparison that a sign stands for.
fn op_at(sign: Sign) -> Option<Op>
    ensures { result ≡ formulas.op_of sign }
{
    match sign {
        Sign::Equal => Some(Op::Equal),
        Sign::Unequal => Some(Op::Unequal),
        Sign::Less => Some(Op::Less),
        Sign::AtMost => Some(Op::AtMost),
        Sign::More => Some(Op::More),
        Sign::AtLeast => Some(Op::AtLeast),
        _ => None,
    }
}

/// The comparison whose sign comes next, and what stands behind it.
fn compared<'s, 'a>(marks: &'s [Mark<'a>]) -> Option<(Op, &'s [Mark<'a>])>
    ensures { MatchOption result (compared (seen_all marks.now) ≡ None)
        (λ r. (compared (seen_all marks.now) ≡ Some r.0) × (seen_all r.1.now ≡ behind (seen_all marks.now))) }
{
    let (mark, rest) = next(marks)?;
    match mark {
        Mark::Sign(sign) => {
            let op = op_at(sign)?;
            Some((op, rest))
        }
        _ => None,
    }
}

fn continues(sign: Sign) -> bool
    ensures { result ≡ formulas.continues sign }
{
    match sign {
        Sign::Plus | Sign::Minus | Sign::Times => true,
        Sign::Equal | Sign::Unequal | Sign::Less | Sign::AtMost | Sign::More | Sign::AtLeast =>
            true,
        _ => false,
    }
}

/// Whether a sign of arithmetic or comparison comes next.
fn goes_on(marks: &[Mark<'_>]) -> bool
    ensures { result ≡ formulas.goes_on (seen_all marks.now) }
{
    let Some((mark, _)) = next(marks) else {
        return false;
    };
    match mark {
        Mark::Sign(sign) => continues(sign),
        _ => false,
    }
}

fn opens(marks: &[Mark<'_>]) -> bool
    ensures { result ≡ terms.opens (seen_all marks.now) }
{
    let Some((mark, _)) = next(marks) else {
        return false;
    };
    matches!(mark, Mark::Sign(Sign::Open))
}

fn compare(op: Op, left: Arg, right: Arg) -> Tree
    ensures { formula_of result ≡ written.compare op (term_of left) (term_of right) }
{
    Tree::Compare { op, left, right }
}

#[tactic(auto, using(crate::proofs::FormulaSteps::reading))]
fn comparison<'s, 'a>(alloc: Global, marks: &'s [Mark<'a>]) -> Read<'s, 'a, Tree>
    ensures { Reads formula_of IsComparison free 1 (seen_all marks.now) result }
{
    if opens(marks) {
        return Err(Fault::Syntax);
    }
    let (left, rest) = term(alloc, marks)?;
    let Some((op, rest)) = compared(rest) else {
        return Err(Fault::Syntax);
    };
    let (right, rest) = term(alloc, rest)?;
    if goes_on(rest) {
        return Err(Fault::Syntax);
    }
    Ok((compare(op, left, right), rest))
}

fn predicate(name: &Word, args: Vec<Arg>) -> Result<Tree, AllocError>
    ensures { IfOk result (λ t. formula_of t ≡ written.atom name.now (terms_of args.items)) }
{
    let name = copied(name)?;
    Ok(Tree::Atom { name, args })
}

#[tactic(auto, using(crate::proofs::FormulaSteps::reading))]
fn atom<'s, 'a>(alloc: Global, marks: &'s [Mark<'a>]) -> Read<'s, 'a, Tree>
    ensures { Reads formula_of IsAtom free 1 (seen_all marks.now) result }
{
    let Some((name, rest)) = upper(marks) else {
        return comparison(alloc, marks);
    };
    let (args, rest) = arguments(alloc, rest)?;
    if goes_on(rest) {
        return comparison(alloc, marks);
    }
    Ok((predicate(name, args)?, rest))
}

#[cycle(formulas)]
#[tactic(auto, using(crate::proofs::FormulaSteps::reading))]
fn unary<'s, 'a>(alloc: Global, marks: &'s [Mark<'a>]) -> Read<'s, 'a, Tree>
    ensures { Reads formula_of IsUnary free 1 (seen_all marks.now) result }
{
    if let Some(rest) = after(marks, Sign::Not) {
        return negated(alloc, rest);
    }
    if let Some(rest) = after(marks, Sign::Open) {
        return group(alloc, rest);
    }
    if let Some(rest) = after(marks, Sign::OpenBracket) {
        return every(alloc, rest);
    }
    if let Some(rest) = after(marks, Sign::OpenBrace) {
        return some(alloc, rest);
    }
    atom(alloc, marks)
}

/// Behind a `!`.
#[cycle(formulas)]
#[tactic(auto, using(crate::proofs::FormulaSteps::reading))]
fn negated<'s, 'a>(alloc: Global, marks: &'s [Mark<'a>]) -> Read<'s, 'a, Tree>
    ensures { Reads formula_of IsUnary free 1 (spec.sign Sign.Not ∷ seen_all marks.now) result }
{
    let (of, rest) = unary(alloc, marks)?;
    Ok((tree::negation(alloc, of)?, rest))
}

/// Behind an opening parenthesis.
#[cycle(formulas)]
#[tactic(auto, using(crate::proofs::FormulaSteps::reading))]
fn group<'s, 'a>(alloc: Global, marks: &'s [Mark<'a>]) -> Read<'s, 'a, Tree>
    ensures { Reads formula_of IsUnary free 1 (spec.sign Sign.Open ∷ seen_all marks.now) result }
{
    let (inner, rest) = formula(alloc, marks)?;
    closed(inner, rest, Sign::Close)
}

/// Behind an opening bracket.
#[cycle(formulas)]
#[tactic(auto, using(crate::proofs::FormulaSteps::reading))]
fn every<'s, 'a>(alloc: Global, marks: &'s [Mark<'a>]) -> Read<'s, 'a, Tree>
    ensures { Reads formula_of IsUnary free 1 (spec.sign Sign.OpenBracket ∷ seen_all marks.now) result }
{
    let ((names, within), rest) = scope(alloc, marks, Sign::CloseBracket)?;
    Ok((tree::for_all(alloc, names, within)?, rest))
}

/// Behind an opening brace.
#[cycle(formulas)]
#[tactic(auto, using(crate::proofs::FormulaSteps::reading))]
fn some<'s, 'a>(alloc: Global, marks: &'s [Mark<'a>]) -> Read<'s, 'a, Tree>
    ensures { Reads formula_of IsUnary free 1 (spec.sign Sign.OpenBrace ∷ seen_all marks.now) result }
{
    let ((names, within), rest) = scope(alloc, marks, Sign::CloseBrace)?;
    Ok((tree::exists(alloc, names, within)?, rest))
}

/// The names of a quantifier, the sign that ends them, and the formula behind it.
#[cycle(formulas)]
#[tactic(auto, using(crate::proofs::FormulaSteps::reading))]
fn scope<'s, 'a>(
    alloc: Global,
    marks: &'s [Mark<'a>],
    close: Sign,
) -> Read<'s, 'a, (Vec<Word>, Tree)>
    requires { (more : List spec.Mark) → commas (spec.sign close ∷ more) < 1 }
    ensures { Reads scope_of (IsScope close) joins 1 (seen_all marks.now) result }
{
    let (names, rest) = variables(alloc, marks)?;
    let Some(rest) = after(rest, close) else {
        return Err(Fault::Syntax);
    };
    let (within, rest) = formula(alloc, rest)?;
    Ok(((names, within), rest))
}

#[cycle(formulas)]
#[tactic(auto, using(crate::proofs::FormulaSteps::reading))]
fn conjunction<'s, 'a>(alloc: Global, marks: &'s [Mark<'a>]) -> Read<'s, 'a, Tree>
    ensures { Reads formula_of IsConjunction joins 4 (seen_all marks.now) result }
{
    let (first, rest) = unary(alloc, marks)?;
    let Some(more) = after(rest, Sign::And) else {
        return Ok((first, rest));
    };
    let ((first, others), rest) = with(first, conjuncts(alloc, more))?;
    Ok((tree::conjunction(first, others)?, rest))
}

/// The parts behind the first, of which the first sign is read.
#[cycle(formulas)]
#[tactic(auto, using(crate::proofs::FormulaSteps::reading))]
fn conjuncts<'s, 'a>(alloc: Global, marks: &'s [Mark<'a>]) -> Read<'s, 'a, Vec<Tree>>
    ensures { Reads trees_of AreConjuncts joins 4 (spec.sign Sign.And ∷ seen_all marks.now) result }
{
    let (first, mut rest) = unary(alloc, marks)?;
    let mut found = Vec::new(alloc);
    found.push(first)?;
    'parts: while let Some(more) = after(rest, Sign::And) {
        let (next, behind) = unary(alloc, more)?;
        found.push(next)?;
        rest = behind;
    }
    Ok((found, rest))
}

#[cycle(formulas)]
#[tactic(auto, using(crate::proofs::FormulaSteps::reading))]
fn disjunction<'s, 'a>(alloc: Global, marks: &'s [Mark<'a>]) -> Read<'s, 'a, Tree>
    ensures { Reads formula_of IsDisjunction joins 3 (seen_all marks.now) result }
{
    let (first, rest) = conjunction(alloc, marks)?;
    let Some(more) = after(rest, Sign::Or) else {
        return Ok((first, rest));
    };
    let ((first, others), rest) = with(first, disjuncts(alloc, more))?;
    Ok((tree::disjunction(first, others)?, rest))
}

/// The parts behind the first, of which the first sign is read.
#[cycle(formulas)]
#[tactic(auto, using(crate::proofs::FormulaSteps::reading))]
fn disjuncts<'s, 'a>(alloc: Global, marks: &'s [Mark<'a>]) -> Read<'s, 'a, Vec<Tree>>
    ensures { Reads trees_of AreDisjuncts joins 3 (spec.sign Sign.Or ∷ seen_all marks.now) result }
{
    let (first, mut rest) = conjunction(alloc, marks)?;
    let mut found = Vec::new(alloc);
    found.push(first)?;
    'parts: while let Some(more) = after(rest, Sign::Or) {
        let (next, behind) = conjunction(alloc, more)?;
        found.push(next)?;
        rest = behind;
    }
    Ok((found, rest))
}

#[cycle(formulas)]
#[tactic(auto, using(crate::proofs::FormulaSteps::reading))]
fn implication<'s, 'a>(alloc: Global, marks: &'s [Mark<'a>]) -> Read<'s, 'a, Tree>
    ensures { Reads formula_of IsImplication joins 2 (seen_all marks.now) result }
{
    let (left, rest) = disjunction(alloc, marks)?;
    let Some(more) = after(rest, Sign::Implies) else {
        return Ok((left, rest));
    };
    let ((left, right), rest) = with(left, implication(alloc, more))?;
    Ok((tree::implication(alloc, left, right)?, rest))
}

/// The longest formula at the front.
#[cycle(formulas)]
#[tactic(auto, using(crate::proofs::FormulaSteps::reading))]
pub(crate) fn formula<'s, 'a>(alloc: Global, marks: &'s [Mark<'a>]) -> Read<'s, 'a, Tree>
    ensures { Reads formula_of IsFormula joins 1 (seen_all marks.now) result }
{
    let (mut left, mut rest) = implication(alloc, marks)?;
    'sides: while let Some(more) = after(rest, Sign::Iff) {
        let ((before, right), behind) = with(left, implication(alloc, more))?;
        left = tree::equivalence(alloc, before, right)?;
        rest = behind;
    }
    Ok((left, rest))
}
