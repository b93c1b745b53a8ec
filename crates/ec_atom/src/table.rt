//! The values of a sort, found by place, and their places.
ghost use Rattle.std.specs.Prelude.{◌≡◌, ◌≤◌, ◌<◌, ◌^◌, ◌+ℤ◌, neg_ℤ, ◌≤ℤ◌, pos, true, length, is_some};
ghost use Rattle.ec_logic.specs.Extent.{size_of, rank, value_at as at_place, numbers, members};
ghost use Rattle.ec_logic.specs.Valid.{range_limit};
ghost use Rattle.ec_atom.specs.Table.{extent_of_values, IsTable};
ghost use Rattle.ec_atom.specs.Listing.{has_place, IsSmallRange, ListsConstants};

/// The values of a sort, by place.
#[derive(Drop)]
pub enum Values {
    // The numbers from the least on.
    Numbers {
        least: i64,
        size: u64,
    },
    // The numbers from 0 on.
    Places {
        size: u64,
    },
    // The place of each constant that is a value, and those constants in order.
    Constants {
        places: Vec<Option<u32>>,
        constants: Vec<u32>,
    },
}

/// The number of values.
#[tactic(auto, using(crate::proofs::PlaceLemmas::size_of_places, crate::proofs::PlaceLemmas::constants_count, crate::proofs::PlaceLemmas::constants_few))]
pub fn size(values: &Values) -> u64
    requires { IsTable values.now }
    ensures size { result ≡ size_of (extent_of_values values.now) }
    ensures few { result < 2 ^ 62 }
{
    match values {
        Values::Numbers { least: _, size } => *size,
        Values::Places { size } => *size,
        Values::Constants {
            places: _,
            constants,
        } => constants.len() as u64,
    }
}

/// The place of a value.
pub fn place_of(values: &Values, value: i64) -> u64
    requires table { IsTable values.now }
    requires within { is_some (rank (extent_of_values values.now) value) ≡ true }
    ensures { rank (extent_of_values values.now) value ≡ Some result }
{
    match values {
        Values::Numbers { least, size } => place_in_range(*least, *size, value),
        Values::Places { size } => place_below(*size, value),
        Values::Constants { places, constants } => place_of_constant(places, constants, value),
    }
}

/// The value at a place.
#[tactic(auto, using(crate::proofs::PlaceLemmas::size_of_places))]
pub fn value_at(values: &Values, place: u64) -> i64
    requires table { IsTable values.now }
    requires within { place < size_of (extent_of_values values.now) }
    ensures { result ≡ at_place (extent_of_values values.now) place }
{
    match values {
        Values::Numbers { least, size: _ } => number_at(*least, place),
        Values::Places { size } => place_itself(*size, place),
        Values::Constants { places, constants } => constant_at(places, constants, place),
    }
}

fn number_at(least: i64, place: u64) -> i64
    requires low { neg_ℤ (pos range_limit) ≤ℤ least }
    requires high { least ≤ℤ pos range_limit }
    requires few { place < 2 ^ 32 }
    ensures { result ≡ least +ℤ pos place }
{
    least + place as i64
}

#[tactic(auto, using(crate::proofs::PlaceLemmas::value_of_place))]
fn place_itself(size: u64, place: u64) -> i64
    requires within { place < size }
    requires few { size < 2 ^ 62 }
    ensures { result ≡ at_place (members size (λ k. true)) place }
{
    place as i64
}

fn constant_at(places: &Vec<Option<u32>>, constants: &Vec<u32>, place: u64) -> i64
    requires lists { ListsConstants places.now.items constants.now.items }
    requires within { place < size_of (members (length places.now.items) (has_place places.now.items)) }
    ensures { result ≡ at_place (members (length places.now.items) (has_place places.now.items)) place }
{
    signed(constants[place as usize])
}

fn signed(number: u32) -> i64
    ensures { result ≡ pos number }
{
    number as i64
}

fn distance(least: i64, value: i64) -> u64
    requires low { neg_ℤ (pos range_limit) ≤ℤ least }
    requires order { least ≤ℤ value }
    requires high { value ≤ℤ pos (2 ^ 62) }
    ensures { pos result ≡ value +ℤ neg_ℤ least }
{
    (value - least) as u64
}

#[tactic(auto, using(crate::proofs::PlaceLemmas::number_low, crate::proofs::PlaceLemmas::number_high, crate::proofs::PlaceLemmas::number_place))]
fn place_in_range(least: i64, size: u64, value: i64) -> u64
    requires small { IsSmallRange least size }
    requires within { is_some (rank (numbers least size) value) ≡ true }
    ensures { rank (numbers least size) value ≡ Some result }
{
    distance(least, value)
}

#[tactic(auto, using(crate::proofs::PlaceLemmas::place_low, crate::proofs::PlaceLemmas::place_high, crate::proofs::PlaceLemmas::place_same))]
fn place_below(size: u64, value: i64) -> u64
    requires few { size < 2 ^ 62 }
    requires within { is_some (rank (members size (λ k. true)) value) ≡ true }
    ensures { rank (members size (λ k. true)) value ≡ Some result }
{
    distance(0, value)
}

fn place_of_constant(places: &Vec<Option<u32>>, constants: &Vec<u32>, value: i64) -> u64
    requires lists { ListsConstants places.now.items constants.now.items }
    requires within { is_some (rank (members (length places.now.items) (has_place places.now.items)) value) ≡ true }
    ensures { rank (members (length places.now.items) (has_place places.now.items)) value ≡ Some result }
{
    let _count = constants.len();
    match places[distance(0, value) as usize] {
        Some(place) => place as u64,
        None => unreachable!(),
    }
}
