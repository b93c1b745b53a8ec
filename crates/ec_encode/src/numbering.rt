//! The variables of atoms.

ghost use Rattle.std.specs.Prelude.{◌≡◌, ◌<◌, ◌^◌, length};
ghost use Rattle.std.specs.List.Sorted.{IsStrictlyIncreasing};
ghost use Rattle.ec_naming.specs.Variables.{variable_of};

/// The variable of an atom, where `atoms` are the atoms that have one, in order; 0 for an atom without.
///
/// The first atoms mostly stand at their own places, which is seen at once. Any other takes time logarithmic in the atoms.
pub fn variable_of(atoms: &[u64], atom: u64) -> u32
    requires rises { IsStrictlyIncreasing atoms.now }
    requires few { length atoms.now < 2 ^ 31 }
    ensures { result ≡ variable_of atoms.now atom }
{
    match atoms.get(atom as usize) {
        Some(there) if *there == atom => atom as u32 + 1,
        _ => match atoms.binary_search(&atom) {
            Ok(place) => place as u32 + 1,
            Err(_) => 0,
        },
    }
}
