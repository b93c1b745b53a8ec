//! Sums and products that stop at 2^62.
ghost use Rattle.std.specs.Prelude.{◌≡◌, ◌+◌, ◌*◌};
ghost use Rattle.ec_theory.specs.Sizes.{stopped};

const LIMIT: u64 = 1 << 62;

/// The sum, stopping at the limit.
pub(crate) fn sum(a: u64, b: u64) -> u64
    ensures { result ≡ stopped (a + b) }
{
    a.saturating_add(b).min(LIMIT)
}

/// The product, stopping at the limit.
pub(crate) fn product(a: u64, b: u64) -> u64
    ensures { result ≡ stopped (a * b) }
{
    a.saturating_mul(b).min(LIMIT)
}
