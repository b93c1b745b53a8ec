//! The bounds of a sort's range.
ghost use Rattle.std.specs.Prelude.{◌≡◌, ◌<◌, true, length, Some};
ghost use Rattle.ec_logic.specs.Universe.{extent_at, extent_of_range, universe_of};
ghost use Rattle.ec_logic.specs.Valid.{is_range};
ghost use Rattle.ec_complete.specs.Completion.{bounds};

use ec_theory::{Signature, SortKind};

/// The least number of a sort and the one past the greatest, where the sort is of whole numbers. Without a range both are 0.
pub(crate) fn bounds(signature: &Signature, sort: u32) -> Option<(i64, i64)>
    ensures { result ≡ bounds (extent_at (universe_of signature.now) sort) }
{
    if sort < signature.sorts() {
        bounds_of_known(signature, sort)
    } else {
        None
    }
}

#[tactic(auto, using(crate::proofs::BoundLemmas::integer_bounds))]
fn bounds_of_known(signature: &Signature, sort: u32) -> Option<(i64, i64)>
    requires { sort < length signature.now.sorts }
    ensures { result ≡ bounds (extent_at (universe_of signature.now) sort) }
{
    match signature.kind(sort) {
        SortKind::Plain => None,
        SortKind::Integer => Some(ends(signature.range(sort))),
        SortKind::Event => None,
        SortKind::Fluent => None,
    }
}

#[tactic(auto, using(crate::proofs::BoundLemmas::range_ends))]
fn ends(range: Option<(i64, i64)>) -> (i64, i64)
    requires { is_range range ≡ true }
    ensures { bounds (extent_of_range range) ≡ Some result }
{
    match range {
        Some((least, greatest)) => (least, greatest + 1),
        None => (0, 0),
    }
}
