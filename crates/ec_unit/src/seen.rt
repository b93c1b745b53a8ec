//! The trail as it was seen last, and how far it was worked.

ghost use Rattle.std.specs.Prelude.{◌≡◌, ◌≢◌, ℕ, ◌+◌, ◌<◌, ◌≤◌, [], ◌∷◌, ◌++◌, true, false, None, Some, IfSome, IfNone, length, take, slice_index_or, vec_capacity, All};
ghost use Rattle.ec_clause.specs.Literal.{Literal, opposite};
ghost use Rattle.ec_clause.specs.Truth.{literal_value};
ghost use Rattle.ec_trail.specs.declared.trail.Entry.{Entry};
ghost use Rattle.ec_trail.specs.TrailList.{truth_of, top_level};
ghost use Rattle.ec_unit.specs.Leaning.{IsTrueAt, Follows, Grows, IsHeld, Leans, seen_at};

use ec_clause::lit::Lit;
use ec_trail::trail::Trail;

/// A literal of the trail, and the first place whose work leans on it: where this literal is gone,
/// all from that place on is to be worked again.
#[derive(Clone, Copy)]
pub struct Seen {
    pub lit: Lit,
    pub lean: u32,
}

/// The place at which the literal was made true.
pub fn true_at(trail: &Trail, lit: Lit) -> Option<u32>
    requires { lit.variable ≤ trail.now.variables }
    ensures some { IfSome result (IsTrueAt trail.now.entries lit) }
    ensures none { IfNone result (literal_value (truth_of trail.now) lit ≢ Some true) }
{
    trail.place_of(lit)
}

/// How many literals at the front of the trail were seen before.
pub fn agreeing(seen: &[Seen], trail: &Trail) -> u32
    ensures seen { result ≤ length seen.now }
    ensures trail { result ≤ length trail.now.entries }
    ensures same { (i : ℕ) (d : Entry) → i < result → seen_at seen.now i ≡ (slice_index_or trail.now.entries i d).lit }
{
    for place in 0..trail.len() {
        match seen.get(place as usize) {
            Some(one) if one.lit == trail.at(place) => {}
            _ => return place,
        }
    }
    trail.len()
}

/// Forgets what was seen behind a front, and takes the work back as far as it leaned on that.
/// Answers how far the trail is worked then.
pub fn forget(seen: &mut Vec<Seen>, worked: u32, front: u32) -> u32
    requires front { front ≤ length seen.old.items }
    requires worked { worked ≤ length seen.old.items }
    ensures seen { seen.new.items ≡ take front seen.old.items }
    ensures room { vec_capacity seen.new ≡ vec_capacity seen.old }
    ensures within { result ≤ front }
    ensures held { (k l : Literal) → IsHeld seen.old.items worked k l → IsHeld seen.new.items result k l }
{
    let mut worked = worked;
    while seen.len() > front as usize {
        if let Some(gone) = seen.pop() {
            worked = worked.min(gone.lean);
        }
    }
    worked.min(front)
}

/// Sees what stands on the trail behind a front that was seen before.
pub fn see(seen: &mut Vec<Seen>, front: u32, trail: &Trail)
    requires front { length seen.old.items ≡ front }
    requires within { front ≤ length trail.now.entries }
    requires room { trail.now.variables ≤ vec_capacity seen.old }
    requires same { (i : ℕ) (d : Entry) → i < front → seen_at seen.old.items i ≡ (slice_index_or trail.now.entries i d).lit }
    ensures room { vec_capacity seen.new ≡ vec_capacity seen.old }
    ensures follows { Follows seen.new.items trail.now.entries }
    ensures grows { Grows seen.old.items seen.new.items }
{
    for place in front..trail.len() {
        seen.push_reserved(Seen {
            lit: trail.at(place),
            lean: u32::MAX,
        });
    }
}

/// Makes a literal true that its clause implies.
pub fn imply(seen: &mut Vec<Seen>, trail: &mut Trail, lit: Lit, number: u32, lean: u32)
    requires low { 1 ≤ lit.variable }
    requires high { lit.variable ≤ trail.old.variables }
    requires no_value { slice_index_or (truth_of trail.old) lit.variable None ≡ None }
    requires room { trail.old.variables ≤ vec_capacity seen.old }
    requires follows { Follows seen.old.items trail.old.entries }
    ensures variables { trail.new.variables ≡ trail.old.variables }
    ensures entries { trail.new.entries ≡ trail.old.entries ++ record { lit = lit; level = top_level trail.old.entries; reason = Some number } ∷ [] }
    ensures seen { seen.new.items ≡ seen.old.items ++ record { lit = lit; lean = lean } ∷ [] }
    ensures room { vec_capacity seen.new ≡ vec_capacity seen.old }
    ensures follows { Follows seen.new.items trail.new.entries }
    ensures grows { Grows seen.old.items seen.new.items }
{
    trail.imply(lit, number);
    let _few = trail.len();
    seen.push_reserved(Seen { lit, lean });
}

/// Lets the work at a place lean on the literal at another.
pub fn rest_on(seen: &mut Vec<Seen>, base: u32, place: u32)
    requires { base < length seen.old.items }
    ensures room { vec_capacity seen.new ≡ vec_capacity seen.old }
    ensures size { length seen.new.items ≡ length seen.old.items }
    ensures grows { Grows seen.old.items seen.new.items }
    ensures leans { Leans seen.new.items (seen_at seen.old.items base) place }
{
    let base = &mut seen[base as usize];
    base.lean = base.lean.min(place);
}

/// Where the watched literal is false, its work leans on the other one, or, if that is not true,
/// the work is taken back to where it became false. Answers how far the trail is worked then.
pub fn lean(seen: &mut Vec<Seen>, trail: &Trail, worked: u32, lit: Lit, other: Lit) -> u32
    requires lit { lit.variable ≤ trail.now.variables }
    requires other { other.variable ≤ trail.now.variables }
    requires follows { Follows seen.old.items trail.now.entries }
    ensures less { result ≤ worked }
    ensures room { vec_capacity seen.new ≡ vec_capacity seen.old }
    ensures follows { Follows seen.new.items trail.now.entries }
    ensures grows { Grows seen.old.items seen.new.items }
    ensures held { worked ≤ length seen.old.items → IsHeld seen.new.items result lit other }
{
    let _trail = trail.len();
    let Some(place) = true_at(trail, lit.opposite()) else {
        return worked;
    };
    let Some(base) = true_at(trail, other) else {
        return worked.min(place);
    };
    rest_on(seen, base, place);
    worked
}

/// How late a literal became false; later than any where it is not false.
pub fn lateness(trail: &Trail, lit: Lit) -> u32
    requires { lit.variable ≤ trail.now.variables }
{
    match true_at(trail, lit.opposite()) {
        None => u32::MAX,
        Some(place) => place,
    }
}

/// The places of two literals of a clause, those that became false last, or not at all.
pub fn latest(clause: &[Lit], trail: &Trail) -> (usize, usize)
    requires two { 2 ≤ length clause.now }
    requires range { All (λ (l : Literal). l.variable ≤ trail.now.variables) clause.now }
    ensures first { result.0 < length clause.now }
    ensures second { result.1 < length clause.now }
    ensures apart { result.0 ≢ result.1 }
{
    let mut first = 0;
    let mut second = 1;
    for place in 2..clause.len() {
        if lateness(trail, clause[first]) < lateness(trail, clause[second]) {
            (first, second) = (second, first);
        }
        if lateness(trail, clause[place]) > lateness(trail, clause[second]) {
            second = place;
        }
    }
    (first, second)
}
