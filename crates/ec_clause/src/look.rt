//! What a clause is under a partial truth.

ghost use Rattle.std.specs.Prelude.{◌≡◌, ◌<◌, All, length};
ghost use Rattle.ec_clause.specs.Literal.{Literal};
ghost use Rattle.ec_clause.specs.Sees.{IsLeft, Means, Sees};

use crate::assign::Assign;
use crate::lit::Lit;

/// What one look at a clause tells.
#[derive(Clone, Copy, Debug, PartialEq, Eq)]
pub enum Look {
    /// Each literal is false.
    False,
    /// The clause is unit: this literal has no value, and all others are false.
    OneLeft(Lit),
    /// A literal is true, or two have no value.
    Other,
}

/// Looks at a clause once, literal by literal, no further than needed.
pub fn look_at(clause: &[Lit], truth: &Assign) -> Look
    requires { All (λ (l : Literal). l.variable < length truth.now) clause.now }
    ensures means { Means truth.now clause.now result }
    ensures sees { Sees truth.now clause.now result }
    ensures left { IsLeft truth.now clause.now result }
{
    let mut left: Option<Lit> = None;
    for lit in clause {
        match truth.value(*lit) {
            Some(true) => return Look::Other,
            Some(false) => {}
            None => {
                if left.is_some() {
                    return Look::Other;
                }
                left = Some(*lit);
            }
        }
    }
    match left {
        None => Look::False,
        Some(lit) => Look::OneLeft(lit),
    }
}
