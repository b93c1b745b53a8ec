//! Why a formula isn't a clause tree of a group.
ghost use Rattle.std.specs.Prelude.{◌≡◌, length, option_map};
ghost use Rattle.ec_theory.specs.View.{formula_tree, formula_trees};
ghost use Rattle.ec_split.specs.Dealt.{fault_of};
ghost use Rattle.ec_split.specs.Form.{clause_fault, clause_fault_of, first_predicate, first_predicate_of};
ghost use Rattle.ec_split.specs.Plan.{groups_in, IsTabled};
ghost use Rattle.ec_split.specs.Split.{is_in};

use crate::plan::Plan;
use ec_theory::Formula;

/// Why a formula isn't a clause tree of a group.
#[derive(Clone, Copy, Drop)]
pub(crate) enum FormFault {
    /// A node is no part of a clause tree.
    NoClause,
    /// A head outside the group, or a body in it, has this predicate.
    Misplaced(u32),
}

fn is_in_group(plan: &Plan, place: u32, p: u32) -> bool
    requires { IsTabled (length plan.now.homes.items) plan.now }
    ensures { result ≡ is_in (groups_in plan.now) place p }
{
    plan.home_of(p) == Some(place)
}

// The first predicate of the group, in reading order.
#[cycle(predicates)]
fn first_in(plan: &Plan, place: u32, f: &Formula) -> Option<u32>
    requires { IsTabled (length plan.now.homes.items) plan.now }
    ensures { result ≡ first_predicate (is_in (groups_in plan.now) place) (formula_tree f.now) }
{
    match f {
        Formula::True | Formula::False => None,
        Formula::Atom { predicate, args: _ } => {
            if is_in_group(plan, place, *predicate) {
                Some(*predicate)
            } else {
                None
            }
        }
        Formula::Equal(_, _) | Formula::Less(_, _) => None,
        Formula::Not(g) => first_in(plan, place, g),
        Formula::And(fs) | Formula::Or(fs) => first_in_each(plan, place, fs),
        Formula::Implies(g, h) | Formula::Iff(g, h) => first_in(plan, place, g).or(first_in(
            plan, place, h,
        )),
        Formula::ForAll { sort: _, scope } | Formula::Exists { sort: _, scope } => first_in(
            plan, place, scope,
        ),
    }
}

#[cycle(predicates)]
fn first_in_each(plan: &Plan, place: u32, fs: &[Formula]) -> Option<u32>
    requires { IsTabled (length plan.now.homes.items) plan.now }
    ensures { result ≡ first_predicate_of (is_in (groups_in plan.now) place) (formula_trees fs.now) }
{
    for f in fs {
        if let Some(p) = first_in(plan, place, f) {
            return Some(p);
        }
    }
    None
}

/// The first fault of a formula as a clause tree of the group at a place, in reading order. Linear in the
/// formula.
#[cycle(fault)]
pub(crate) fn form_fault(plan: &Plan, place: u32, f: &Formula) -> Option<FormFault>
    requires { IsTabled (length plan.now.homes.items) plan.now }
    ensures { option_map fault_of result ≡ clause_fault (is_in (groups_in plan.now) place) (formula_tree f.now) }
{
    match f {
        Formula::Atom { predicate, args: _ } => {
            if is_in_group(plan, place, *predicate) {
                None
            } else {
                Some(FormFault::Misplaced(*predicate))
            }
        }
        Formula::Implies(g, h) => match first_in(plan, place, g) {
            Some(p) => Some(FormFault::Misplaced(p)),
            None => form_fault(plan, place, h),
        },
        Formula::And(fs) => form_fault_of(plan, place, fs),
        Formula::ForAll { sort: _, scope } => form_fault(plan, place, scope),
        Formula::True
        | Formula::False
        | Formula::Equal(_, _)
        | Formula::Less(_, _)
        | Formula::Not(_)
        | Formula::Or(_)
        | Formula::Iff(_, _)
        | Formula::Exists { sort: _, scope: _ } => Some(FormFault::NoClause),
    }
}

#[cycle(fault)]
fn form_fault_of(plan: &Plan, place: u32, fs: &[Formula]) -> Option<FormFault>
    requires { IsTabled (length plan.now.homes.items) plan.now }
    ensures { option_map fault_of result ≡ clause_fault_of (is_in (groups_in plan.now) place) (formula_trees fs.now) }
{
    for f in fs {
        if let Some(fault) = form_fault(plan, place, f) {
            return Some(fault);
        }
    }
    None
}
