//! The argument sorts of symbols.
ghost use Rattle.std.specs.Prelude.{◌≡◌};
ghost use Rattle.ec_logic.specs.Universe.{row_of, universe_of};

use ec_theory::Signature;

/// The argument sorts of an event: none where there is no such event.
#[tactic(auto, using(crate::proofs::RowLemmas::row_found, crate::proofs::RowLemmas::row_past))]
pub(crate) fn event_row(signature: &Signature, event: u32) -> &[u32]
    ensures { result.now ≡ row_of (universe_of signature.now).events event }
{
    if event < signature.events() {
        signature.event_sorts(event)
    } else {
        &[]
    }
}

/// The argument sorts of a fluent: none where there is no such fluent.
#[tactic(auto, using(crate::proofs::RowLemmas::row_found, crate::proofs::RowLemmas::row_past))]
pub(crate) fn fluent_row(signature: &Signature, fluent: u32) -> &[u32]
    ensures { result.now ≡ row_of (universe_of signature.now).fluents fluent }
{
    if fluent < signature.fluents() {
        signature.fluent_sorts(fluent)
    } else {
        &[]
    }
}

/// The argument sorts of a predicate: none where there is no such predicate.
#[tactic(auto, using(crate::proofs::RowLemmas::row_found, crate::proofs::RowLemmas::row_past))]
pub(crate) fn predicate_row(signature: &Signature, predicate: u32) -> &[u32]
    ensures { result.now ≡ row_of (universe_of signature.now).predicates predicate }
{
    if predicate < signature.predicates() {
        signature.predicate_sorts(predicate)
    } else {
        &[]
    }
}
