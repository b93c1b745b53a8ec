//! The sentences of each group.
ghost use Rattle.std.specs.Prelude.{◌≡◌, ◌<◌, IfOk, OnOk, length, map};
ghost use Rattle.ec_split.specs.Dealt.{dealt_at, empty_parts, fault_of, parts_in, AreDealt, IsDealt};
ghost use Rattle.ec_split.specs.Parts.{group_parts};
ghost use Rattle.ec_split.specs.Plan.{groups_in, made_of, maker_of, IsTabled};
ghost use Rattle.ec_split.specs.Split.{fault_name, form_refusal, group_name};

use crate::fault::SplitFault;
use crate::form::{FormFault, form_fault};
use crate::names::{copied, name_at};
use crate::plan::{Made, Maker, Plan};
use ec_lex::word::Word;
use ec_syntax::book::Refusal;
use ec_theory::{Group, Labelled, Sentence};
use indexmap::IndexSet;
use std::alloc::{AllocError, Global};

/// The sentences of no group, and the groups with their sentences.
#[derive(Drop)]
pub(crate) struct Shares {
    pub remaining: Vec<Sentence>,
    pub groups: Vec<Group>,
}

fn name_of_group(alloc: Global, names: &IndexSet<Word>, maker: &Maker) -> Result<Word, AllocError>
    ensures { IfOk result (λ name. name ≡ group_name names.now.keys (maker_of maker.now)) }
{
    match maker {
        Maker::Effects => Word::of(alloc, b"effect"),
        Maker::Label(name) => copied(name),
        Maker::Alone(p) => name_at(alloc, names, *p),
    }
}

fn numbers(alloc: Global, predicates: &[u32]) -> Result<Vec<u32>, AllocError>
    ensures { IfOk result (λ copy. copy.items ≡ predicates.now) }
{
    Vec::from_slice(alloc, predicates)
}

// A group without sentences.
fn empty_group(alloc: Global, names: &IndexSet<Word>, made: &Made) -> Result<Group, AllocError>
    ensures { IfOk result (λ group. group_parts group ≡ empty_parts names.now.keys (made_of made.now)) }
{
    Ok(Group {
        name: name_of_group(alloc, names, &made.maker)?,
        predicates: numbers(alloc, &made.predicates)?,
        sentences: Vec::new(alloc),
    })
}

fn empty_groups(
    alloc: Global,
    names: &IndexSet<Word>,
    made: &[Made],
) -> Result<Vec<Group>, AllocError>
    ensures { IfOk result (λ groups. map group_parts groups.items ≡ map (empty_parts names.now.keys) (map made_of made.now)) }
{
    let mut groups = Vec::with_capacity(alloc, made.len())?;
    for group in made {
        groups.push(empty_group(alloc, names, group)?)?;
    }
    Ok(groups)
}

// The name that a refusal for want of the clause form gives.
fn name_of_fault(
    alloc: Global,
    names: &IndexSet<Word>,
    label: &Option<Word>,
    fault: FormFault,
) -> Result<Word, AllocError>
    ensures { IfOk result (λ name. name ≡ fault_name names.now.keys label.now (fault_of fault)) }
{
    match fault {
        FormFault::Misplaced(p) => name_at(alloc, names, p),
        FormFault::NoClause => match label {
            Some(name) => copied(name),
            None => Word::of(alloc, &[]),
        },
    }
}

fn refusal(
    alloc: Global,
    names: &IndexSet<Word>,
    labelled: &Labelled,
    fault: FormFault,
) -> Result<Refusal, AllocError>
    ensures { IfOk result (λ refusal. refusal ≡ form_refusal names.now.keys labelled.now (fault_of fault)) }
{
    Ok(Refusal {
        code: 16,
        file: copied(&labelled.sentence.file)?,
        line: labelled.sentence.line,
        name: name_of_fault(alloc, names, &labelled.label, fault)?,
    })
}

impl Shares {
    fn add(&mut self, place: u32, sentence: Sentence) -> Result<(), AllocError>
        requires { place < length self.old.groups.items }
        ensures groups { OnOk result (parts_in self.new ≡ dealt_at place sentence (parts_in self.old)) }
        ensures remaining { self.new.remaining ≡ self.old.remaining }
        ensures count { length self.new.groups.items ≡ length self.old.groups.items }
    {
        self.groups[place as usize].sentences.push(sentence)?;
        Ok(())
    }

    // Gives a sentence to its group, which it is to be a clause tree of.
    fn deal(
        &mut self,
        alloc: Global,
        plan: &Plan,
        names: &IndexSet<Word>,
        labelled: Labelled,
    ) -> Result<(), SplitFault>
        requires tabled { IsTabled (length plan.now.homes.items) plan.now }
        requires groups { length plan.now.made.items ≡ length self.old.groups.items }
        ensures dealt { IsDealt names.now.keys (groups_in plan.now) labelled self.old self.new result }
        ensures count { length self.new.groups.items ≡ length self.old.groups.items }
    {
        let Some(place) = plan.home(&labelled.label, &labelled.sentence.formula) else {
            self.remaining.push(labelled.sentence)?;
            return Ok(());
        };
        if let Some(fault) = form_fault(plan, place, &labelled.sentence.formula) {
            return Err(SplitFault::Refused(refusal(alloc, names, &labelled, fault)?));
        }
        self.add(place, labelled.sentence)?;
        Ok(())
    }
}

/// The sentences of no group and of each group, in book order. Linear in the sentences; no tree is copied.
pub(crate) fn shares_of(
    alloc: Global,
    plan: &Plan,
    names: &IndexSet<Word>,
    labelled: Vec<Labelled>,
) -> Result<Shares, SplitFault>
    requires { IsTabled (length plan.now.homes.items) plan.now }
    ensures { AreDealt names.now.keys (groups_in plan.now) labelled.items result }
{
    let mut shares = Shares {
        remaining: Vec::new(alloc),
        groups: empty_groups(alloc, names, &plan.made)?,
    };
    for one in labelled {
        shares.deal(alloc, plan, names, one)?;
    }
    Ok(shares)
}
