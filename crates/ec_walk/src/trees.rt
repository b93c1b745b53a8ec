//! Terms and formulas by numbers.
ghost use Rattle.std.specs.Prelude.{◌≡◌, ◌≤◌, ◌+◌, IfOk, length, pos};
ghost use Rattle.std.specs.List.{position_or_len};
ghost use Rattle.std.specs.Str.{bytes_eq};
ghost use Rattle.ec_logic.specs.Tree as tree;
ghost use Rattle.ec_names.specs.Names.{sort_number, symbol_named};
ghost use Rattle.ec_syntax.specs.View.{term_of, terms_of, formula_of, formulas_of};
ghost use Rattle.ec_theory.specs.View as view;
ghost use Rattle.ec_walk.specs.Faults.{opened, binder_limit};
ghost use Rattle.ec_walk.specs.Nested.{IsNested, AreNested};
ghost use Rattle.ec_walk.specs.Scopes.{words};
ghost use Rattle.ec_walk.specs.Trees as spec;

use crate::scope::{inside, place};
use ec_lex::word::Word;
use ec_names::{Names, Role};
use ec_syntax::tree::{Arg, Op, Tree};
use ec_theory::{Formula, Term};
use std::alloc::{AllocError, Global};

// ---- terms

// A name with its arguments.
fn applied(names: &Names, name: &Word, args: Vec<Term>) -> Term
    ensures { view.term_tree result ≡ spec.application names.now name.now (symbol_named names.now name.now) (view.term_trees args.items) }
{
    let Some(symbol) = names.symbol(name) else {
        return Term::Constant(0);
    };
    match symbol.role {
        Role::Constant => Term::Constant(symbol.number),
        Role::Event => Term::Event {
            symbol: symbol.number,
            args,
        },
        Role::Fluent => Term::Fluent {
            symbol: symbol.number,
            args,
        },
        Role::Predicate => Term::Constant(symbol.number),
    }
}

fn variable(scope: &[&Word], name: &Word) -> Term
    requires { length (words scope.now) ≤ binder_limit }
    ensures { view.term_tree result ≡ tree.variable (position_or_len (bytes_eq name.now) (words scope.now)) }
{
    Term::Variable(place(scope, name) as u32)
}

// The term with its sign turned.
fn negative(alloc: Global, of: Box<Term>) -> Result<Term, AllocError>
    ensures { IfOk result (λ t. view.term_tree t ≡ tree.difference (tree.int (pos 0)) (view.term_tree of.value)) }
{
    Ok(Term::Difference(Box::new(alloc, Term::Int(0))?, of))
}

/// A term by numbers, in whose place these variables are bound.
#[cycle(term_tree)]
fn term_tree(alloc: Global, names: &Names, scope: &[&Word], term: &Arg) -> Result<Term, AllocError>
    requires { length (words scope.now) ≤ binder_limit }
    ensures { IfOk result (λ t. view.term_tree t ≡ spec.term_tree names.now (words scope.now) (term_of term.now)) }
{
    match term {
        Arg::Name { name, args } => {
            let args = term_trees(alloc, names, scope, args)?;
            Ok(applied(names, name, args))
        }
        Arg::Variable(name) => Ok(variable(scope, name)),
        Arg::Number(n) => Ok(Term::Int(i64::from(*n))),
        Arg::Sum(a, b) => {
            let (a, b) = both_boxed_term_trees(alloc, names, scope, a, b)?;
            Ok(Term::Sum(a, b))
        }
        Arg::Difference(a, b) => {
            let (a, b) = both_boxed_term_trees(alloc, names, scope, a, b)?;
            Ok(Term::Difference(a, b))
        }
        Arg::Product(a, b) => {
            let (a, b) = both_boxed_term_trees(alloc, names, scope, a, b)?;
            Ok(Term::Product(a, b))
        }
        Arg::Negative(a) => {
            let a = boxed_term_tree(alloc, names, scope, a)?;
            negative(alloc, a)
        }
    }
}

#[cycle(term_tree)]
fn boxed_term_tree(
    alloc: Global,
    names: &Names,
    scope: &[&Word],
    term: &Arg,
) -> Result<Box<Term>, AllocError>
    requires { length (words scope.now) ≤ binder_limit }
    ensures { IfOk result (λ t. view.term_tree t.value ≡ spec.term_tree names.now (words scope.now) (term_of term.now)) }
{
    Ok(Box::new(alloc, term_tree(alloc, names, scope, term)?)?)
}

#[cycle(term_tree)]
fn both_boxed_term_trees(
    alloc: Global,
    names: &Names,
    scope: &[&Word],
    a: &Arg,
    b: &Arg,
) -> Result<(Box<Term>, Box<Term>), AllocError>
    requires { length (words scope.now) ≤ binder_limit }
    ensures first { IfOk result (λ r. view.term_tree r.0.value ≡ spec.term_tree names.now (words scope.now) (term_of a.now)) }
    ensures second { IfOk result (λ r. view.term_tree r.1.value ≡ spec.term_tree names.now (words scope.now) (term_of b.now)) }
{
    Ok((
        boxed_term_tree(alloc, names, scope, a)?,
        boxed_term_tree(alloc, names, scope, b)?,
    ))
}

fn both_term_trees(
    alloc: Global,
    names: &Names,
    scope: &[&Word],
    a: &Arg,
    b: &Arg,
) -> Result<(Term, Term), AllocError>
    requires { length (words scope.now) ≤ binder_limit }
    ensures first { IfOk result (λ r. view.term_tree r.0 ≡ spec.term_tree names.now (words scope.now) (term_of a.now)) }
    ensures second { IfOk result (λ r. view.term_tree r.1 ≡ spec.term_tree names.now (words scope.now) (term_of b.now)) }
{
    Ok((
        term_tree(alloc, names, scope, a)?,
        term_tree(alloc, names, scope, b)?,
    ))
}

#[cycle(term_tree)]
fn term_trees(
    alloc: Global,
    names: &Names,
    scope: &[&Word],
    terms: &[Arg],
) -> Result<Vec<Term>, AllocError>
    requires { length (words scope.now) ≤ binder_limit }
    ensures { IfOk result (λ ts. view.term_trees ts.items ≡ spec.term_trees names.now (words scope.now) (terms_of terms.now)) }
{
    let mut each = Vec::with_capacity(alloc, terms.len())?;
    for term in terms {
        each.push(term_tree(alloc, names, scope, term)?)?;
    }
    Ok(each)
}

// ---- formulas

fn comparison(alloc: Global, op: Op, left: Term, right: Term) -> Result<Formula, AllocError>
    ensures { IfOk result (λ f. view.formula_tree f ≡ spec.comparison op (view.term_tree left) (view.term_tree right)) }
{
    Ok(match op {
        Op::Equal => Formula::Equal(left, right),
        Op::Unequal => Formula::Not(Box::new(alloc, Formula::Equal(left, right))?),
        Op::Less => Formula::Less(left, right),
        Op::AtMost => Formula::Not(Box::new(alloc, Formula::Less(right, left))?),
        Op::More => Formula::Less(right, left),
        Op::AtLeast => Formula::Not(Box::new(alloc, Formula::Less(left, right))?),
    })
}

// The number of a variable's sort.
fn variable_sort(names: &Names, variable: &Word) -> u32
    ensures { result ≡ spec.variable_sort names.now variable.now }
{
    match names.variable_sort(variable) {
        Some(sort) => match names.sort(sort) {
            Some(number) => number,
            None => names.sorts(),
        },
        None => 0,
    }
}

// The number of an atom's name.
fn symbol_place(names: &Names, name: &Word) -> u32
    ensures { result ≡ spec.symbol_place names.now name.now (symbol_named names.now name.now) }
{
    match names.symbol(name) {
        Some(symbol) => symbol.number,
        None => 0,
    }
}

/// For all values of the variables, the first outermost. Variables nest as deep as the formula then does.
pub(crate) fn for_all(
    alloc: Global,
    names: &Names,
    variables: &[&Word],
    scope: Formula,
) -> Result<Formula, AllocError>
    ensures { IfOk result (λ f. view.formula_tree f ≡ spec.quantified tree.for_all names.now (words variables.now) (view.formula_tree scope)) }
{
    let Some((variable, rest)) = variables.split_first() else {
        return Ok(scope);
    };
    let sort = variable_sort(names, variable);
    let scope = Box::new(alloc, for_all(alloc, names, rest, scope)?)?;
    Ok(Formula::ForAll { sort, scope })
}

fn every(
    alloc: Global,
    names: &Names,
    variables: &[Word],
    scope: Formula,
) -> Result<Formula, AllocError>
    ensures { IfOk result (λ f. view.formula_tree f ≡ spec.quantified tree.for_all names.now variables.now (view.formula_tree scope)) }
{
    let Some((variable, rest)) = variables.split_first() else {
        return Ok(scope);
    };
    let sort = variable_sort(names, variable);
    let scope = Box::new(alloc, every(alloc, names, rest, scope)?)?;
    Ok(Formula::ForAll { sort, scope })
}

fn some(
    alloc: Global,
    names: &Names,
    variables: &[Word],
    scope: Formula,
) -> Result<Formula, AllocError>
    ensures { IfOk result (λ f. view.formula_tree f ≡ spec.quantified tree.exists names.now variables.now (view.formula_tree scope)) }
{
    let Some((variable, rest)) = variables.split_first() else {
        return Ok(scope);
    };
    let sort = variable_sort(names, variable);
    let scope = Box::new(alloc, some(alloc, names, rest, scope)?)?;
    Ok(Formula::Exists { sort, scope })
}

/// A formula by numbers, in whose place these variables are bound.
#[cycle(formula_tree)]
pub(crate) fn formula_tree<'a>(
    alloc: Global,
    names: &Names,
    scope: &[&'a Word],
    tree: &'a Tree,
) -> Result<Formula, AllocError>
    requires room { length (words scope.now) ≤ binder_limit }
    requires nested { IsNested (length (words scope.now)) (formula_of tree.now) }
    ensures { IfOk result (λ f. view.formula_tree f ≡ spec.formula_tree names.now (words scope.now) (formula_of tree.now)) }
{
    match tree {
        Tree::Atom { name, args } => {
            let args = term_trees(alloc, names, scope, args)?;
            let predicate = symbol_place(names, name);
            Ok(Formula::Atom { predicate, args })
        }
        Tree::Compare { op, left, right } => {
            let (left, right) = both_term_trees(alloc, names, scope, left, right)?;
            comparison(alloc, *op, left, right)
        }
        Tree::Not(a) => Ok(Formula::Not(boxed_formula_tree(alloc, names, scope, a)?)),
        Tree::And(parts) => Ok(Formula::And(formula_trees(alloc, names, scope, parts)?)),
        Tree::Or(parts) => Ok(Formula::Or(formula_trees(alloc, names, scope, parts)?)),
        Tree::Implies(a, b) => {
            let (a, b) = both_boxed_formula_trees(alloc, names, scope, a, b)?;
            Ok(Formula::Implies(a, b))
        }
        Tree::Iff(a, b) => {
            let (a, b) = both_boxed_formula_trees(alloc, names, scope, a, b)?;
            Ok(Formula::Iff(a, b))
        }
        Tree::ForAll {
            names: variables,
            scope: body,
        } => {
            let body = formula_tree_under(alloc, names, scope, variables, body)?;
            every(alloc, names, variables, body)
        }
        Tree::Exists {
            names: variables,
            scope: body,
        } => {
            let body = formula_tree_under(alloc, names, scope, variables, body)?;
            some(alloc, names, variables, body)
        }
    }
}

#[cycle(formula_tree)]
fn boxed_formula_tree<'a>(
    alloc: Global,
    names: &Names,
    scope: &[&'a Word],
    tree: &'a Tree,
) -> Result<Box<Formula>, AllocError>
    requires room { length (words scope.now) ≤ binder_limit }
    requires nested { IsNested (length (words scope.now)) (formula_of tree.now) }
    ensures { IfOk result (λ f. view.formula_tree f.value ≡ spec.formula_tree names.now (words scope.now) (formula_of tree.now)) }
{
    Ok(Box::new(alloc, formula_tree(alloc, names, scope, tree)?)?)
}

#[cycle(formula_tree)]
fn both_boxed_formula_trees<'a>(
    alloc: Global,
    names: &Names,
    scope: &[&'a Word],
    a: &'a Tree,
    b: &'a Tree,
) -> Result<(Box<Formula>, Box<Formula>), AllocError>
    requires room { length (words scope.now) ≤ binder_limit }
    requires first { IsNested (length (words scope.now)) (formula_of a.now) }
    requires second { IsNested (length (words scope.now)) (formula_of b.now) }
    ensures first { IfOk result (λ r. view.formula_tree r.0.value ≡ spec.formula_tree names.now (words scope.now) (formula_of a.now)) }
    ensures second { IfOk result (λ r. view.formula_tree r.1.value ≡ spec.formula_tree names.now (words scope.now) (formula_of b.now)) }
{
    Ok((
        boxed_formula_tree(alloc, names, scope, a)?,
        boxed_formula_tree(alloc, names, scope, b)?,
    ))
}

#[cycle(formula_tree)]
fn formula_trees<'a>(
    alloc: Global,
    names: &Names,
    scope: &[&'a Word],
    trees: &'a [Tree],
) -> Result<Vec<Formula>, AllocError>
    requires room { length (words scope.now) ≤ binder_limit }
    requires nested { AreNested (length (words scope.now)) (formulas_of trees.now) }
    ensures { IfOk result (λ fs. view.formula_trees fs.items ≡ spec.formula_trees names.now (words scope.now) (formulas_of trees.now)) }
{
    let mut each = Vec::with_capacity(alloc, trees.len())?;
    for tree in trees {
        each.push(formula_tree(alloc, names, scope, tree)?)?;
    }
    Ok(each)
}

// Inside binders.
#[cycle(formula_tree)]
#[tactic(auto, using(crate::proofs::ScopeLemmas::length_opened))]
fn formula_tree_under<'a>(
    alloc: Global,
    names: &Names,
    scope: &[&'a Word],
    variables: &'a [Word],
    body: &'a Tree,
) -> Result<Formula, AllocError>
    requires room { length (words scope.now) + length variables.now ≤ binder_limit }
    requires nested { IsNested (length (words scope.now) + length variables.now) (formula_of body.now) }
    ensures { IfOk result (λ f. view.formula_tree f ≡ spec.formula_tree names.now (opened (words scope.now) variables.now) (formula_of body.now)) }
{
    let inner = inside(alloc, scope, variables)?;
    formula_tree(alloc, names, &inner, body)
}
