//! What a place of a narrative may tell.

/// What a place of a narrative may tell: one line or none. The texts lack the byte that ends a line.
#[derive(Drop)]
pub enum Slot {
    /// A line that is always there.
    Fixed(Vec<u8>),
    /// A line that is there where the atom is true.
    Told {
        atom: u64,
        text: Vec<u8>,
    },
    /// How a fluent changed: `+` and the text where the atom is true and the earlier one isn't, `-` and
    /// the text the other way round.
    Changed {
        earlier: u64,
        atom: u64,
        text: Vec<u8>,
    },
    /// An atom without a line, since it is true in each truth that fits.
    Silent(u64),
}
