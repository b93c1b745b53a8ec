//! How far a search goes back.

ghost use Rattle.std.specs.Prelude.{◌≡◌, ◌<◌, ◌≤◌, All};
ghost use Rattle.ec_clause.specs.Literal.{Literal};
ghost use Rattle.ec_trail.specs.TrailList.{top_level, IsTrail};
ghost use Rattle.ec_sat.specs.Back.{HasTwo};

use ec_clause::lit::Lit;
use ec_trail::trail::Trail;

/// The level that a search goes back to after a clause: 0 where it starts anew, and else that of
/// `second_level`.
pub fn return_level(trail: &Trail, lits: &[Lit], anew: bool) -> u32
    requires { All (λ (l : Literal). l.variable ≤ trail.now.variables) lits.now }
    ensures low { result ≤ top_level trail.now.entries }
    ensures trail { IsTrail trail.now.variables trail.now.entries }
    ensures two { 0 < result → HasTwo trail.now.entries lits.now result }
{
    let level = second_level(trail, lits);
    if anew { 0 } else { level }
}

/// The level of the second highest literal of a clause, counted by literal; 0 where it has fewer
/// than two. Of a learned clause this is its assertion level.
pub fn second_level(trail: &Trail, lits: &[Lit]) -> u32
    requires { All (λ (l : Literal). l.variable ≤ trail.now.variables) lits.now }
    ensures low { result ≤ top_level trail.now.entries }
    ensures trail { IsTrail trail.now.variables trail.now.entries }
    ensures two { 0 < result → HasTwo trail.now.entries lits.now result }
{
    let _top = trail.level();
    let mut first = 0u32;
    let mut second = 0u32;
    for lit in lits {
        let level = trail.level_of(lit.variable()).unwrap_or(0);
        second = second.max(first.min(level));
        first = first.max(level);
    }
    second
}
