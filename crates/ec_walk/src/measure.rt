//! The bound of a term of whole numbers, and its value.
ghost use Rattle.std.specs.Prelude.{◌≡◌, ◌≤◌, ◌*◌, ◌^◌, ◌*ℤ◌, nat_abs, IfSome, option_map, pos};
ghost use Rattle.ec_names.specs.Names.{sort_of_variable};
ghost use Rattle.ec_syntax.specs.View.{term_of};
ghost use Rattle.ec_walk.specs.Kinds.{bound_of_sort};
ghost use Rattle.ec_walk.specs.Measures.{measured, limited, sum_of, difference_of, product_of, measure_of, less_by, IsSmall};

use ec_lex::word::Word;
use ec_names::Names;
use ec_syntax::tree::Arg;

const LIMIT: u64 = 1 << 62;

/// The bound of the magnitude of a term of whole numbers, which is at most 2^62, and its value, if it has
/// no variable.
#[derive(Clone, Copy)]
pub(crate) struct Measure {
    pub(crate) bound: u64,
    pub(crate) value: Option<i64>,
}

impl Measure {
    fn plus(self, other: Measure) -> Option<Measure>
        requires left { IsSmall self }
        requires right { IsSmall other }
        ensures measure { result ≡ sum_of self other }
        ensures small { IfSome result IsSmall }
    {
        let bound = self.bound + other.bound;
        if bound > LIMIT {
            return None;
        }
        let value = match (self.value, other.value) {
            (Some(left), Some(right)) => Some(left + right),
            _ => None,
        };
        Some(Measure { bound, value })
    }

    fn less(self, other: Measure) -> Option<Measure>
        requires left { IsSmall self }
        requires right { IsSmall other }
        ensures measure { result ≡ difference_of self other }
        ensures small { IfSome result IsSmall }
    {
        let bound = self.bound + other.bound;
        if bound > LIMIT {
            return None;
        }
        let value = match (self.value, other.value) {
            (Some(left), Some(right)) => Some(left - right),
            _ => None,
        };
        Some(Measure { bound, value })
    }

    fn times(self, other: Measure) -> Option<Measure>
        requires left { IsSmall self }
        requires right { IsSmall other }
        ensures measure { result ≡ product_of self other }
        ensures small { IfSome result IsSmall }
    {
        let bound = self.bound.saturating_mul(other.bound);
        if bound > LIMIT {
            return None;
        }
        let value = match (self.value, other.value) {
            (Some(left), Some(right)) => Some(product(left, right)),
            _ => None,
        };
        Some(Measure { bound, value })
    }

    fn negative(self) -> Measure
        requires { IsSmall self }
        ensures measure { result ≡ measure_of self.bound (option_map (less_by (pos 0)) self.value) }
        ensures small { IsSmall result }
    {
        let value = match self.value {
            Some(value) => Some(-value),
            None => None,
        };
        Measure {
            bound: self.bound,
            value,
        }
    }
}

fn product(left: i64, right: i64) -> i64
    requires { nat_abs left * nat_abs right ≤ 2 ^ 62 }
    ensures { result ≡ left *ℤ right }
{
    left * right
}

// The greater magnitude of the ends of the range of a variable's sort.
fn bound_of_variable(names: &Names, variable: &Word) -> u64
    ensures { result ≡ bound_of_sort names.now (sort_of_variable names.now variable.now) }
{
    match names.variable_sort(variable) {
        Some(sort) => match names.range(sort) {
            Some(range) => range.low.unsigned_abs().max(range.high.unsigned_abs()),
            None => 0,
        },
        None => 0,
    }
}

fn of_variable(bound: u64) -> Option<Measure>
    ensures measure { result ≡ limited (measure_of bound None) }
    ensures small { IfSome result IsSmall }
{
    if bound > LIMIT {
        return None;
    }
    Some(Measure { bound, value: None })
}

/// The measure of a term of whole numbers, or none where the bound of a part is over 2^62.
/// Linear in the term.
#[cycle(term_measure)]
pub(crate) fn term_measure(names: &Names, term: &Arg) -> Option<Measure>
    ensures measure { result ≡ measured names.now (term_of term.now) }
    ensures small { IfSome result IsSmall }
{
    match term {
        Arg::Name { name: _, args: _ } => Some(Measure {
            bound: 0,
            value: Some(0),
        }),
        Arg::Variable(name) => of_variable(bound_of_variable(names, name)),
        Arg::Number(n) => Some(Measure {
            bound: u64::from(*n),
            value: Some(i64::from(*n)),
        }),
        Arg::Sum(a, b) => term_measure(names, a)?.plus(term_measure(names, b)?),
        Arg::Difference(a, b) => term_measure(names, a)?.less(term_measure(names, b)?),
        Arg::Product(a, b) => term_measure(names, a)?.times(term_measure(names, b)?),
        Arg::Negative(a) => Some(term_measure(names, a)?.negative()),
    }
}
