//! The first fault of a sentence.
ghost use Rattle.std.specs.Prelude.{◌≡◌, ◌<◌, IfOk};
ghost use Rattle.std.specs.Fmt.{signed_decimal};
ghost use Rattle.ec_names.specs.Names.{range_named};
ghost use Rattle.ec_syntax.specs.Written as written;
ghost use Rattle.ec_syntax.specs.View.{term_of, terms_of};
ghost use Rattle.ec_walk.specs.Faults as spec;
ghost use Rattle.ec_walk.specs.Faults.{◌before◌};
ghost use Rattle.ec_walk.specs.Kinds as kinds;
ghost use Rattle.ec_walk.specs.Measures.{measured_fault};
ghost use Rattle.ec_walk.specs.Scopes.{words};
ghost use Rattle.ec_names.specs.View.{role_of};

use crate::fault::{Code, Fault, of_text, of_word};
use crate::kinds::{are_comparable, fits, is_whole};
use crate::measure::{Measure, term_measure};
use crate::scope::{LIMIT, contains};
use ec_lex::word::Word;
use ec_names::{Names, Role, Symbol};
use ec_syntax::tree::{Arg, Op};
use ec_theory::SortKind;
use std::alloc::{AllocError, Global};

// ---- variables

fn variable_fault(names: &Names, variable: &Word) -> Result<Option<Fault>, AllocError>
    ensures { IfOk result (λ f. f ≡ spec.variable_fault names.now variable.now) }
{
    match names.variable_sort(variable) {
        Some(sort) if names.is_ranged(sort) => Ok(None),
        Some(sort) => of_word(Code::NoRange, sort),
        None => of_word(Code::UnknownSort, variable),
    }
}

fn use_fault(
    alloc: Global,
    names: &Names,
    scope: &[&Word],
    variable: &Word,
) -> Result<Option<Fault>, AllocError>
    ensures { IfOk result (λ f. f ≡ spec.use_fault names.now (words scope.now) variable.now) }
{
    if let Some(fault) = variable_fault(names, variable)? {
        return Ok(Some(fault));
    }
    if contains(scope, variable) {
        return Ok(None);
    }
    of_text(alloc, Code::Binders, "binders")
}

fn binder_fault(
    alloc: Global,
    names: &Names,
    outside: usize,
    variable: &Word,
) -> Result<Option<Fault>, AllocError>
    ensures fault { IfOk result (λ f. f ≡ spec.binder_fault names.now outside variable.now) }
    ensures room { result ≡ Ok None → outside < LIMIT }
{
    if let Some(fault) = variable_fault(names, variable)? {
        return Ok(Some(fault));
    }
    if outside < LIMIT {
        return Ok(None);
    }
    of_text(alloc, Code::Binders, "binders")
}

// The binders of a quantifier, where so many variables are bound outside.
pub(crate) fn binders_fault(
    alloc: Global,
    names: &Names,
    outside: usize,
    variables: &[Word],
) -> Result<Option<Fault>, AllocError>
    ensures { IfOk result (λ f. f ≡ spec.binders_fault names.now outside variables.now) }
{
    let mut bound = outside;
    for variable in variables {
        if let Some(fault) = binder_fault(alloc, names, bound, variable)? {
            return Ok(Some(fault));
        }
        bound += 1;
    }
    Ok(None)
}

// ---- names

// The sorts of a symbol's arguments.
pub(crate) fn sorts_of_arguments(symbol: &Symbol) -> &[Word]
    ensures { result.now ≡ kinds.argument_sorts (role_of symbol.now.role) symbol.now.sorts.items }
{
    match symbol.role {
        Role::Constant => &[],
        Role::Event | Role::Fluent | Role::Predicate => &symbol.sorts,
    }
}

fn is_predicate(symbol: &Symbol) -> bool
    ensures { result ≡ spec.is_predicate (role_of symbol.now.role) }
{
    match symbol.role {
        Role::Constant | Role::Event | Role::Fluent => false,
        Role::Predicate => true,
    }
}

// A declared name with so many arguments, as the name of an atom or of a term.
pub(crate) fn symbol_fault(
    symbol: &Symbol,
    name: &Word,
    given: usize,
    of_atom: bool,
) -> Result<Option<Fault>, AllocError>
    ensures { IfOk result (λ f. f ≡ spec.symbol_fault of_atom name.now given (role_of symbol.now.role) symbol.now.sorts.items) }
{
    if given != sorts_of_arguments(symbol).len() {
        return of_word(Code::ArgumentCount, name);
    }
    if of_atom != is_predicate(symbol) {
        return of_word(Code::Misfit, name);
    }
    Ok(None)
}

// ---- arguments, operands and comparisons

fn is_in_range(names: &Names, sort: &Word, value: i64) -> bool
    ensures { result ≡ kinds.is_in_range (range_named names.now sort.now) value }
{
    match names.range(sort) {
        Some(range) => range.low <= value && value <= range.high,
        None => false,
    }
}

fn out_of_range(alloc: Global, value: i64) -> Result<Option<Fault>, AllocError>
    ensures { IfOk result (λ f. f ≡ Some (record { code = Code.OutOfRange; name = signed_decimal value })) }
{
    let text = value.to_string(alloc)?;
    of_text(alloc, Code::OutOfRange, text.as_str())
}

// A term of whole numbers as an argument of a sort, by its measure.
fn number_fault(
    alloc: Global,
    names: &Names,
    sort: &Word,
    measure: Option<Measure>,
) -> Result<Option<Fault>, AllocError>
    ensures { IfOk result (λ f. f ≡ measured_fault names.now sort.now measure) }
{
    match measure {
        Some(measure) => match measure.value {
            Some(value) if !is_in_range(names, sort, value) => out_of_range(alloc, value),
            _ => Ok(None),
        },
        None => of_text(alloc, Code::Arithmetic, "arithmetic"),
    }
}

// An argument of a sort, once its parts have no fault.
#[tactic(auto, using(crate::proofs::FaultLemmas::measured_number))]
fn argument_fault(
    alloc: Global,
    names: &Names,
    sort: &Word,
    term: &Arg,
) -> Result<Option<Fault>, AllocError>
    ensures { IfOk result (λ f. f ≡ spec.argument_fault names.now sort.now (term_of term.now)) }
{
    if !fits(names, sort, term) {
        return of_word(Code::Misfit, sort);
    }
    match names.kind(sort) {
        SortKind::Integer => number_fault(alloc, names, sort, term_measure(names, term)),
        SortKind::Plain | SortKind::Event | SortKind::Fluent => Ok(None),
    }
}

fn side_exceeds(names: &Names, term: &Arg) -> bool
    ensures { result ≡ spec.side_exceeds names.now (term_of term.now) }
{
    is_whole(names, term) && term_measure(names, term).is_none()
}

fn sign(op: Op) -> &'static str
    ensures { result.now ≡ spec.sign op }
{
    match op {
        Op::Equal => "=",
        Op::Unequal => "!=",
        Op::Less => "<",
        Op::AtMost => "<=",
        Op::More => ">",
        Op::AtLeast => ">=",
    }
}

// A comparison, once its sides have no fault.
pub(crate) fn comparison_fault(
    alloc: Global,
    names: &Names,
    op: Op,
    left: &Arg,
    right: &Arg,
) -> Result<Option<Fault>, AllocError>
    ensures { IfOk result (λ f. f ≡ spec.comparison_fault names.now op (term_of left.now) (term_of right.now)) }
{
    if !are_comparable(names, op, left, right) {
        return of_text(alloc, Code::Misfit, sign(op));
    }
    if side_exceeds(names, left) || side_exceeds(names, right) {
        return of_text(alloc, Code::Arithmetic, "arithmetic");
    }
    Ok(None)
}

// ---- terms

#[cycle(term_fault)]
pub(crate) fn term_fault(
    alloc: Global,
    names: &Names,
    scope: &[&Word],
    term: &Arg,
) -> Result<Option<Fault>, AllocError>
    ensures { IfOk result (λ f. f ≡ spec.term_fault names.now (words scope.now) (term_of term.now)) }
{
    match term {
        Arg::Name { name, args } => application_fault(alloc, names, scope, name, args),
        Arg::Variable(name) => use_fault(alloc, names, scope, name),
        Arg::Number(_) => Ok(None),
        Arg::Sum(a, b) | Arg::Difference(a, b) | Arg::Product(a, b) => {
            if let Some(fault) = operand_fault(alloc, names, scope, a)? {
                return Ok(Some(fault));
            }
            operand_fault(alloc, names, scope, b)
        }
        Arg::Negative(a) => operand_fault(alloc, names, scope, a),
    }
}

// An operand of arithmetic, with its parts.
#[cycle(term_fault)]
fn operand_fault(
    alloc: Global,
    names: &Names,
    scope: &[&Word],
    term: &Arg,
) -> Result<Option<Fault>, AllocError>
    ensures { IfOk result (λ f. f ≡ (spec.term_fault names.now (words scope.now) (term_of term.now) before spec.operand_fault names.now (term_of term.now))) }
{
    if let Some(fault) = term_fault(alloc, names, scope, term)? {
        return Ok(Some(fault));
    }
    if is_whole(names, term) {
        return Ok(None);
    }
    of_text(alloc, Code::Misfit, "integer")
}

#[cycle(term_fault)]
fn application_fault(
    alloc: Global,
    names: &Names,
    scope: &[&Word],
    name: &Word,
    args: &[Arg],
) -> Result<Option<Fault>, AllocError>
    ensures { IfOk result (λ f. f ≡ spec.term_fault names.now (words scope.now) (written.name name.now (terms_of args.now))) }
{
    let Some(symbol) = names.symbol(name) else {
        return of_word(Code::UnknownName, name);
    };
    if let Some(fault) = symbol_fault(symbol, name, args.len(), false)? {
        return Ok(Some(fault));
    }
    arguments_fault(alloc, names, scope, sorts_of_arguments(symbol), args)
}

// Each argument is judged before the next is walked.
#[cycle(term_fault)]
pub(crate) fn arguments_fault(
    alloc: Global,
    names: &Names,
    scope: &[&Word],
    sorts: &[Word],
    args: &[Arg],
) -> Result<Option<Fault>, AllocError>
    ensures { IfOk result (λ f. f ≡ spec.arguments_fault names.now (words scope.now) sorts.now (terms_of args.now)) }
{
    for (place, arg) in args.iter().enumerate() {
        let Some(sort) = sorts.get(place) else {
            return Ok(None);
        };
        if let Some(fault) = term_fault(alloc, names, scope, arg)? {
            return Ok(Some(fault));
        }
        if let Some(fault) = argument_fault(alloc, names, sort, arg)? {
            return Ok(Some(fault));
        }
    }
    Ok(None)
}
