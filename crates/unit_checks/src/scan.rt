//! Settling by looking at every clause again and again.

ghost use Rattle.std.specs.Prelude.{◌≡◌};

use ec_clause::clauses::Clauses;
use ec_clause::look::{Look, look_at};
use ec_trail::trail::Trail;
use ec_unit::watch::Settled;

/// Looks at each clause once, up to the first that is false.
fn pass(clauses: &Clauses, trail: &mut Trail) -> Option<u32>
    requires { clauses.now.variables ≡ trail.old.variables }
    ensures { trail.new.variables ≡ trail.old.variables }
{
    for index in 0..clauses.len() {
        let number = index + 1;
        match look_at(clauses.get(number), trail.values()) {
            Look::False => return Some(number),
            Look::OneLeft(lit) => trail.imply(lit, number),
            Look::Other => {}
        }
    }
    None
}

/// What settling means, done plainly: passes until a clause is false or nothing is added.
pub fn settle(clauses: &Clauses, trail: &mut Trail) -> Settled
    requires { clauses.now.variables ≡ trail.old.variables }
    ensures { trail.new.variables ≡ trail.old.variables }
{
    for _ in 0..clauses.variables() {
        let before = trail.len();
        if let Some(number) = pass(clauses, trail) {
            return Settled::Conflict(number);
        }
        if trail.len() == before {
            return Settled::Quiet;
        }
    }
    match pass(clauses, trail) {
        None => Settled::Quiet,
        Some(number) => Settled::Conflict(number),
    }
}
