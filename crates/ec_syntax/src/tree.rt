//! Terms and formulas as they are written.
ghost use Rattle.std.specs.Prelude.{◌≡◌, IfOk};
ghost use Rattle.ec_syntax.specs.View.{term_of, terms_of, formula_of, formulas_of};
ghost use Rattle.ec_syntax.specs.Written as written;

use ec_lex::word::Word;
use std::alloc::{AllocError, Global};

/// A comparison.
#[derive(Clone, Copy, Debug, PartialEq, Eq)]
pub enum Op {
    Equal,
    Unequal,
    Less,
    AtMost,
    More,
    AtLeast,
}

/// A term: an argument, or a side of a comparison.
#[derive(Debug, Drop)]
pub enum Arg {
    /// A constant, an event or a fluent.
    Name { name: Word, args: Vec<Arg> },
    Variable(Word),
    Number(u32),
    Sum(Box<Arg>, Box<Arg>),
    Difference(Box<Arg>, Box<Arg>),
    Product(Box<Arg>, Box<Arg>),
    Negative(Box<Arg>),
}

/// A formula.
///
/// `And` and `Or` have two parts or more. The names of a quantifier stand in the order written.
#[derive(Debug, Drop)]
pub enum Tree {
    Atom { name: Word, args: Vec<Arg> },
    Compare { op: Op, left: Arg, right: Arg },
    Not(Box<Tree>),
    And(Vec<Tree>),
    Or(Vec<Tree>),
    Implies(Box<Tree>, Box<Tree>),
    Iff(Box<Tree>, Box<Tree>),
    ForAll { names: Vec<Word>, scope: Box<Tree> },
    Exists { names: Vec<Word>, scope: Box<Tree> },
}

/// Both terms, each in a box.
fn boxed_terms(alloc: Global, left: Arg, right: Arg) -> Result<(Box<Arg>, Box<Arg>), AllocError>
    ensures { IfOk result (λ sides. (sides.0.value ≡ left) × (sides.1.value ≡ right)) }
{
    let left = Box::new(alloc, left)?;
    let right = Box::new(alloc, right)?;
    Ok((left, right))
}

/// The sum of two terms.
pub fn sum(alloc: Global, left: Arg, right: Arg) -> Result<Arg, AllocError>
    ensures { IfOk result (λ a. term_of a ≡ written.sum (term_of left) (term_of right)) }
{
    let (left, right) = boxed_terms(alloc, left, right)?;
    Ok(Arg::Sum(left, right))
}

/// The difference of two terms.
pub fn difference(alloc: Global, left: Arg, right: Arg) -> Result<Arg, AllocError>
    ensures { IfOk result (λ a. term_of a ≡ written.difference (term_of left) (term_of right)) }
{
    let (left, right) = boxed_terms(alloc, left, right)?;
    Ok(Arg::Difference(left, right))
}

/// The product of two terms.
pub fn product(alloc: Global, left: Arg, right: Arg) -> Result<Arg, AllocError>
    ensures { IfOk result (λ a. term_of a ≡ written.product (term_of left) (term_of right)) }
{
    let (left, right) = boxed_terms(alloc, left, right)?;
    Ok(Arg::Product(left, right))
}

/// A term with `-` before it.
pub fn negative(alloc: Global, of: Arg) -> Result<Arg, AllocError>
    ensures { IfOk result (λ a. term_of a ≡ written.negative (term_of of)) }
{
    Ok(Arg::Negative(Box::new(alloc, of)?))
}

/// A formula with `!` before it.
pub fn negation(alloc: Global, of: Tree) -> Result<Tree, AllocError>
    ensures { IfOk result (λ t. formula_of t ≡ written.not (formula_of of)) }
{
    Ok(Tree::Not(Box::new(alloc, of)?))
}

/// All of the formulas.
fn joined(first: Tree, mut others: Vec<Tree>) -> Result<Vec<Tree>, AllocError>
    ensures { IfOk result (λ parts. formulas_of parts.items ≡ written.formula (formula_of first) (formulas_of others.items)) }
{
    others.insert(0, first)?;
    Ok(others)
}

/// The first formula alone where there are no others, or And of all.
pub fn conjunction(first: Tree, others: Vec<Tree>) -> Result<Tree, AllocError>
    ensures { IfOk result (λ t. formula_of t ≡ written.all_of (formula_of first) (formulas_of others.items)) }
{
    if others.is_empty() {
        return Ok(first);
    }
    let parts = joined(first, others)?;
    Ok(Tree::And(parts))
}

/// The first formula alone where there are no others, or Or of all.
pub fn disjunction(first: Tree, others: Vec<Tree>) -> Result<Tree, AllocError>
    ensures { IfOk result (λ t. formula_of t ≡ written.any_of (formula_of first) (formulas_of others.items)) }
{
    if others.is_empty() {
        return Ok(first);
    }
    let parts = joined(first, others)?;
    Ok(Tree::Or(parts))
}

/// Both formulas, each in a box.
fn boxed(alloc: Global, left: Tree, right: Tree) -> Result<(Box<Tree>, Box<Tree>), AllocError>
    ensures { IfOk result (λ sides. (sides.0.value ≡ left) × (sides.1.value ≡ right)) }
{
    let left = Box::new(alloc, left)?;
    let right = Box::new(alloc, right)?;
    Ok((left, right))
}

/// That the left formula implies the right one.
pub fn implication(alloc: Global, left: Tree, right: Tree) -> Result<Tree, AllocError>
    ensures { IfOk result (λ t. formula_of t ≡ written.implies (formula_of left) (formula_of right)) }
{
    let (left, right) = boxed(alloc, left, right)?;
    Ok(Tree::Implies(left, right))
}

/// That both formulas hold or neither.
pub fn equivalence(alloc: Global, left: Tree, right: Tree) -> Result<Tree, AllocError>
    ensures { IfOk result (λ t. formula_of t ≡ written.iff (formula_of left) (formula_of right)) }
{
    let (left, right) = boxed(alloc, left, right)?;
    Ok(Tree::Iff(left, right))
}

/// That the formula holds for all values of the names.
pub fn for_all(alloc: Global, names: Vec<Word>, scope: Tree) -> Result<Tree, AllocError>
    ensures { IfOk result (λ t. formula_of t ≡ written.for_all names.items (formula_of scope)) }
{
    let scope = Box::new(alloc, scope)?;
    Ok(Tree::ForAll { names, scope })
}

/// That the formula holds for some values of the names.
pub fn exists(alloc: Global, names: Vec<Word>, scope: Tree) -> Result<Tree, AllocError>
    ensures { IfOk result (λ t. formula_of t ≡ written.exists names.items (formula_of scope)) }
{
    let scope = Box::new(alloc, scope)?;
    Ok(Tree::Exists { names, scope })
}
