//! The numbers that digits spell.
ghost use Rattle.std.specs.Prelude.{◌≡◌, ◌+◌, min};
ghost use Rattle.ec_lex.specs.Bytes as spec;

/// The largest number that may be written.
pub const LARGEST: u32 = 1_000_000_000;

/// The number that the digits spell, or one more than the largest where it is larger.
pub fn value(digits: &[u8]) -> u32
    ensures { result ≡ min (spec.value digits.now) (LARGEST + 1) }
{
    let mut n: u32 = 0;
    for d in digits {
        n = (u64::from(n) * 10 + u64::from(d.saturating_sub(b'0'))).min(
            u64::from(LARGEST) + 1,
        ) as u32;
    }
    n
}
