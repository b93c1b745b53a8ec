//! The variables by their activity, the most active first, and the lower number where it ties.

ghost use Rattle.std.specs.Prelude.{◌≡◌, ℕ, ◌+◌, ◌^◌, ◌<◌, ◌≤◌, length, All, IfOk, IfSome};

use std::alloc::{AllocError, Global};
use std::marker::Model;

/// When a step of activity passes this, all activities are scaled down: early enough that a
/// variable of many clauses stays below the highest number, where all would be alike.
const HIGH: u64 = 1 << 54;

/// A binary heap of variables from 1 to its value. A variable stands in it at most once. Its
/// order is kept for speed, and nothing is promised of it.
#[derive(Drop)]
pub struct Heap {
    variables: u32,
    heap: Vec<u32>,
    // Where a variable stands in the heap; of one that is not in it this says nothing.
    places: Vec<u32>,
    activity: Vec<u64>,
    step: u64,
}

impl Model for Heap {
    ghost use Rattle.std.specs.Prelude.{ℕ, vec_capacity};
    ghost use Rattle.ec_sat.specs.Heaped.{IsHeaped};

    ghost Value = { ℕ };

    ghost view = { λ a. a.variables };

    ghost invariant = { λ a. IsHeaped a.variables (vec_capacity a.heap) a.heap.items a.places.items a.activity.items };
}

impl Heap {
    /// No variable is in it, and all are alike. It takes 16 bytes a variable.
    pub fn new(alloc: Global, variables: u32) -> Result<Heap, AllocError>
        requires { variables < 2 ^ 31 }
        ensures { IfOk result (λ h. h ≡ variables) }
    {
        Ok(Heap {
            variables,
            heap: Vec::with_capacity(alloc, variables as usize)?,
            places: vec![in alloc; 0; variables as usize + 1]?,
            activity: vec![in alloc; 0; variables as usize + 1]?,
            step: 1 << 16,
        })
    }

    /// Adds a variable, if it is not there, in logarithmic time.
    pub fn insert(&mut self, variable: u32)
        requires low { 1 ≤ variable }
        requires high { variable ≤ self.old }
        ensures { self.new ≡ self.old }
    {
        let place = self.places[variable as usize] as usize;
        let there = place < self.heap.len() && self.heap[place] == variable;
        if !there && self.heap.len() < self.variables as usize {
            self.places[variable as usize] = self.heap.len() as u32;
            self.heap.push_reserved(variable);
        }
        self.rise(variable);
    }

    /// Takes the most active variable out, in logarithmic time.
    pub fn pop(&mut self) -> Option<u32>
        ensures variables { self.new ≡ self.old }
        ensures low { IfSome result (λ v. 1 ≤ v) }
        ensures high { IfSome result (λ v. v ≤ self.old) }
    {
        let last = self.heap.pop()?;
        if self.heap.is_empty() {
            return Some(last);
        }
        let first = self.heap[0];
        self.heap[0] = last;
        self.places[last as usize] = 0;
        self.fall();
        Some(first)
    }

    /// Makes a variable more active, by a step that grows with each call of `decay`.
    pub fn bump(&mut self, variable: u32)
        requires low { 1 ≤ variable }
        requires high { variable ≤ self.old }
        ensures { self.new ≡ self.old }
    {
        let activity = self.activity[variable as usize];
        self.activity[variable as usize] = activity.saturating_add(self.step);
        self.rise(variable);
    }

    /// Makes what was bumped before count less.
    pub fn decay(&mut self)
        ensures { self.new ≡ self.old }
    {
        self.step = self.step.saturating_add(self.step / 16);
        if self.step > HIGH {
            self.scale_down();
        }
    }

    /// Makes all activities and the step smaller, in the same proportion.
    fn scale_down(&mut self)
        ensures { self.new ≡ self.old }
    {
        self.step >>= 40;
        for place in 0..self.activity.len() {
            self.activity[place] >>= 40;
        }
    }

    /// Lets a variable of the heap rise over those that it comes before.
    fn rise(&mut self, variable: u32)
        requires low { 1 ≤ variable }
        requires high { variable ≤ self.old }
        ensures { self.new ≡ self.old }
    {
        let mut place = self.places[variable as usize] as usize;
        if place >= self.heap.len() || self.heap[place] != variable {
            return;
        }
        while place > 0 {
            let above = (place - 1) / 2;
            let other = self.heap[above];
            if !comes_before(&self.activity, variable, other) {
                return;
            }
            self.heap[place] = other;
            self.places[other as usize] = place as u32;
            self.heap[above] = variable;
            self.places[variable as usize] = above as u32;
            place = above;
        }
    }

    /// Lets the first variable fall under those that come before it.
    fn fall(&mut self)
        ensures { self.new ≡ self.old }
    {
        let mut place = 0;
        while let Some(child) = child_before(&self.heap, &self.activity, place) {
            let variable = self.heap[place];
            let other = self.heap[child];
            self.heap[place] = other;
            self.places[other as usize] = place as u32;
            self.heap[child] = variable;
            self.places[variable as usize] = child as u32;
            place = child;
        }
    }
}

/// Whether a variable comes before another: it is more active, or as active and of a lower number.
/// The visible variables have the lowest numbers, and what they imply decides the others.
fn comes_before(activity: &[u64], variable: u32, other: u32) -> bool
    requires variable { variable < length activity.now }
    requires other { other < length activity.now }
{
    let mine = activity[variable as usize];
    let theirs = activity[other as usize];
    mine > theirs || (mine == theirs && variable < other)
}

/// The place of the child that comes first, if it comes before its parent.
fn child_before(heap: &[u32], activity: &[u64], place: usize) -> Option<usize>
    requires few { length heap.now < 2 ^ 31 }
    requires each { All (λ v. v < length activity.now) heap.now }
    ensures below { IfSome result (λ c. place < c) }
    ensures there { IfSome result (λ c. c < length heap.now) }
{
    if place >= heap.len() {
        return None;
    }
    let left = 2 * place + 1;
    if left >= heap.len() {
        return None;
    }
    let right = left + 1;
    let mut child = left;
    if right < heap.len() && comes_before(activity, heap[right], heap[left]) {
        child = right;
    }
    if !comes_before(activity, heap[child], heap[place]) {
        return None;
    }
    Some(child)
}
