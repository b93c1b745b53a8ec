//! The order of the predicates' atoms.
ghost use Rattle.std.specs.Prelude.{◌≡◌, ◌≤◌, ◌<◌};
ghost use Rattle.ec_logic.proofs.AtomOrder.{predicate_at as at_place, place_in_order};

/// The predicate at a place of the order, where there are so many.
pub fn predicate_at(count: u32, place: u32) -> u32
    requires many { 6 ≤ count }
    requires within { place < count }
    ensures predicate { result ≡ at_place count place }
    ensures known { result < count }
{
    if place < 3 {
        return place;
    }
    if place < count - 3 {
        return place + 3;
    }
    6 - (count - place)
}

/// The place of a predicate in the order.
pub fn place_of(count: u32, predicate: u32) -> u32
    requires many { 6 ≤ count }
    requires known { predicate < count }
    ensures place { result ≡ place_in_order count predicate }
    ensures within { result < count }
{
    if predicate < 3 {
        return predicate;
    }
    if predicate < 6 {
        return count - 6 + predicate;
    }
    predicate - 3
}
