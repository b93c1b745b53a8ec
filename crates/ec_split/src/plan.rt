//! The groups that completion statements make.
ghost use Rattle.std.specs.Prelude.{◌≡◌, ◌<◌, ◌^◌, [], ◌∷◌, None, Some, IfOk, IfSome, OnOk, length, set};
ghost use Rattle.ec_theory.specs.View.{formula_tree};
ghost use Rattle.ec_split.specs.Groups.{is_effect, effect_group, has_predicate, is_made_by, joined, maker_for, place, settled, wanted_refusal};
ghost use Rattle.ec_split.specs.Plan.{added, groups_in, maker_of, new_maker, settled_as, AreNoted, IsNotedAlone, IsPlanAfter, IsPlanned, IsTabled};
ghost use Rattle.ec_split.specs.Split.{home, home_by_heads, home_by_label};

use crate::fault::SplitFault;
use crate::heads::{Heads, first_head_of_tree, has_heads};
use crate::names::{copied, number_of};
use ec_lex::word::Word;
use ec_syntax::book::Refusal;
use ec_theory::{Formula, Wanted};
use indexmap::{IndexMap, IndexSet};
use std::alloc::{AllocError, Global};

/// What a group is made by.
#[derive(Drop)]
pub(crate) enum Maker {
    /// The effect predicates have a group in any case.
    Effects,
    /// A label has a group of its own.
    Label(Word),
    /// A predicate that is completed alone has a group of its own.
    Alone(u32),
}

/// A group without its sentences.
#[derive(Drop)]
pub(crate) struct Made {
    pub maker: Maker,
    pub predicates: Vec<u32>,
}

/// The groups in their order, with the place of each label's group, and for each predicate the place of
/// the group that is its alone and of the group that it is in.
#[derive(Drop)]
pub(crate) struct Plan {
    pub made: Vec<Made>,
    pub labels: IndexMap<Word, u32>,
    pub alone: Vec<Option<u32>>,
    pub homes: Vec<Option<u32>>,
}

/// Whether a predicate is Initiates, Terminates or Releases.
pub(crate) fn is_effect_predicate(p: u32) -> bool
    ensures { result ≡ is_effect p }
{
    (3..=5).contains(&p)
}

impl Plan {
    // The effect group alone.
    fn new(alloc: Global, predicates: usize) -> Result<Plan, AllocError>
        requires { 5 < predicates }
        ensures groups { IfOk result (λ plan. groups_in plan ≡ effect_group ∷ []) }
        ensures tabled { IfOk result (λ plan. IsTabled predicates plan) }
    {
        let effects = Made {
            maker: Maker::Effects,
            predicates: vec![in alloc; 3, 4, 5]?,
        };
        let mut homes = vec![in alloc; None; predicates]?;
        homes[3] = Some(0);
        homes[4] = Some(0);
        homes[5] = Some(0);
        Ok(Plan {
            made: vec![in alloc; effects]?,
            labels: IndexMap::new(alloc),
            alone: vec![in alloc; None; predicates]?,
            homes,
        })
    }

    // The place of the group that a statement asks for, if there is one.
    fn asked(&self, label: &Option<Word>, p: u32) -> Option<u32>
        requires tabled { IsTabled (length self.now.homes.items) self.now }
        requires known { p < length self.now.homes.items }
        ensures { result ≡ place (is_made_by (maker_for label.now p)) (groups_in self.now) }
    {
        match label {
            Some(name) => self.labels.get(name).copied(),
            None => self.asked_alone(p),
        }
    }

    fn asked_alone(&self, p: u32) -> Option<u32>
        requires tabled { IsTabled (length self.now.homes.items) self.now }
        requires known { p < length self.now.homes.items }
        ensures { result ≡ place (is_made_by (maker_for None p)) (groups_in self.now) }
    {
        if is_effect_predicate(p) {
            Some(0)
        } else {
            self.alone[p as usize]
        }
    }

    // Adds a predicate to the group at a place.
    fn add(&mut self, place: u32, p: u32) -> Result<(), AllocError>
        requires below { place < length self.old.made.items }
        requires known { p < length self.old.homes.items }
        ensures groups { OnOk result (groups_in self.new ≡ added place p (groups_in self.old)) }
        ensures homes { OnOk result (self.new.homes.items ≡ set self.old.homes.items p (Some place)) }
        ensures alone { self.new.alone ≡ self.old.alone }
        ensures labels { self.new.labels ≡ self.old.labels }
    {
        self.made[place as usize].predicates.push(p)?;
        self.homes[p as usize] = Some(place);
        Ok(())
    }

    // Makes a group of a predicate, the last one.
    fn open(&mut self, alloc: Global, label: &Option<Word>, p: u32) -> Result<(), AllocError>
        requires tabled { IsTabled (length self.old.homes.items) self.old }
        requires known { p < length self.old.homes.items }
        requires few { length self.old.made.items < 2 ^ 32 }
        requires absent { place (is_made_by (maker_for label.now p)) (groups_in self.old) ≡ None }
        requires homeless { place (has_predicate p) (groups_in self.old) ≡ None }
        ensures groups { OnOk result (groups_in self.new ≡ joined (maker_for label.now p) p (groups_in self.old)) }
        ensures tabled { OnOk result (IsTabled (length self.old.homes.items) self.new) }
    {
        let place = self.made.len() as u32;
        self.homes[p as usize] = Some(place);
        let maker = self.note(label, p, place)?;
        let predicates = vec![in alloc; p]?;
        self.made.push(Made { maker, predicates })?;
        Ok(())
    }

    // Notes what makes the group at a place.
    fn note(&mut self, label: &Option<Word>, p: u32, place: u32) -> Result<Maker, AllocError>
        requires known { p < length self.old.alone.items }
        ensures maker { IfOk result (λ maker. maker_of maker ≡ new_maker label.now p) }
        ensures labels { OnOk result (AreNoted (new_maker label.now p) place self.old.labels self.new.labels) }
        ensures alone { OnOk result (IsNotedAlone (new_maker label.now p) place self.old.alone.items self.new.alone.items) }
        ensures made { self.new.made ≡ self.old.made }
        ensures homes { self.new.homes ≡ self.old.homes }
    {
        match label {
            Some(name) => {
                self.labels.insert(name.clone()?, place)?;
                Ok(Maker::Label(name.clone()?))
            }
            None => {
                self.alone[p as usize] = Some(place);
                Ok(Maker::Alone(p))
            }
        }
    }

    /// The place of the group that has a predicate, if there is one.
    pub fn home_of(&self, p: u32) -> Option<u32>
        requires { IsTabled (length self.now.homes.items) self.now }
        ensures { result ≡ place (has_predicate p) (groups_in self.now) }
    {
        *self.homes.get(p as usize)?
    }

    // Adds a predicate to the group that is asked for, which is made where there is none.
    fn join(
        &mut self,
        alloc: Global,
        label: &Option<Word>,
        p: u32,
        asked: Option<u32>,
    ) -> Result<(), AllocError>
        requires tabled { IsTabled (length self.old.homes.items) self.old }
        requires known { p < length self.old.homes.items }
        requires few { length self.old.made.items < 2 ^ 32 }
        requires asked { asked ≡ place (is_made_by (maker_for label.now p)) (groups_in self.old) }
        requires homeless { place (has_predicate p) (groups_in self.old) ≡ None }
        ensures groups { OnOk result (groups_in self.new ≡ joined (maker_for label.now p) p (groups_in self.old)) }
        ensures tabled { OnOk result (IsTabled (length self.old.homes.items) self.new) }
    {
        match asked {
            Some(place) => self.add(place, p),
            None => self.open(alloc, label, p),
        }
    }

    // Puts a predicate into the group that a statement asks for, and answers whether it could be.
    fn settle(&mut self, alloc: Global, label: &Option<Word>, p: u32) -> Result<bool, AllocError>
        requires tabled { IsTabled (length self.old.homes.items) self.old }
        requires known { p < length self.old.homes.items }
        requires few { length self.old.made.items < 2 ^ 32 }
        ensures settled { IfOk result (λ can. settled (maker_for label.now p) p (groups_in self.old) ≡ settled_as can (groups_in self.new)) }
        ensures tabled { OnOk result (IsTabled (length self.old.homes.items) self.new) }
    {
        let asked = self.asked(label, p);
        match self.home_of(p) {
            Some(home) => Ok(asked == Some(home)),
            None => {
                self.join(alloc, label, p, asked)?;
                Ok(true)
            }
        }
    }

    // The plan after one more statement.
    fn take(
        &mut self,
        alloc: Global,
        names: &IndexSet<Word>,
        wanted: &Wanted,
    ) -> Result<(), SplitFault>
        requires tabled { IsTabled (length names.now.keys) self.old }
        requires few_names { length names.now.keys < 2 ^ 31 }
        requires few { length self.old.made.items < 2 ^ 32 }
        ensures { IsPlanAfter names.now.keys (groups_in self.old) wanted.now self.new result }
    {
        let Some(p) = number_of(names, &wanted.predicate) else {
            return Err(SplitFault::Refused(refusal(18, wanted)?));
        };
        if self.settle(alloc, &wanted.label, p)? {
            Ok(())
        } else {
            Err(SplitFault::Refused(refusal(17, wanted)?))
        }
    }

    // The place of the group of a clause tree by its heads, if they tell one.
    fn home_by_heads(&self, f: &Formula) -> Option<u32>
        requires { IsTabled (length self.now.homes.items) self.now }
        ensures { result ≡ home_by_heads (groups_in self.now) (formula_tree f.now) }
    {
        if has_heads(f, Heads::Effects) {
            return Some(0);
        }
        let p = first_head_of_tree(f)?;
        if has_heads(f, Heads::Only(p)) {
            *self.alone.get(p as usize)?
        } else {
            None
        }
    }

    fn home_by_label(&self, label: &Option<Word>) -> Option<u32>
        requires { IsTabled (length self.now.homes.items) self.now }
        ensures { result ≡ home_by_label (groups_in self.now) label.now }
    {
        match label {
            Some(name) => self.labels.get(name).copied(),
            None => None,
        }
    }

    /// The place of the group of a sentence, if it has one.
    pub fn home(&self, label: &Option<Word>, f: &Formula) -> Option<u32>
        requires { IsTabled (length self.now.homes.items) self.now }
        ensures home { result ≡ home (groups_in self.now) label.now (formula_tree f.now) }
        ensures below { IfSome result (λ k. k < length self.now.made.items) }
    {
        match self.home_by_label(label) {
            Some(place) => Some(place),
            None => self.home_by_heads(f),
        }
    }
}

fn refusal(code: u8, wanted: &Wanted) -> Result<Refusal, AllocError>
    ensures { IfOk result (λ refusal. refusal ≡ wanted_refusal code wanted.now) }
{
    Ok(Refusal {
        code,
        file: copied(&wanted.file)?,
        line: wanted.line,
        name: copied(&wanted.predicate)?,
    })
}

/// The groups that completion statements make. Linear in the statements and the predicates.
pub(crate) fn plan_of(
    alloc: Global,
    names: &IndexSet<Word>,
    wanted: &[Wanted],
) -> Result<Plan, SplitFault>
    requires many { 5 < length names.now.keys }
    requires few_names { length names.now.keys < 2 ^ 31 }
    requires few { length wanted.now < 2 ^ 31 }
    ensures { IsPlanned names.now.keys wanted.now result }
{
    let mut plan = Plan::new(alloc, names.len())?;
    for statement in wanted {
        plan.take(alloc, names, statement)?;
    }
    Ok(plan)
}
