//! Numbers that look random, all from one number.

ghost use Rattle.std.specs.Prelude.{ℕ, ◌<◌, ◌≤◌};

/// A linear congruential generator over 64 bits, with Knuth's multiplier.
#[derive(Drop)]
pub struct Draw {
    state: u64,
}

impl Draw {
    /// The generator that starts at this number.
    pub fn new(seed: u64) -> Draw {
        Draw { state: seed }
    }

    /// The next number below a bound, from the upper half of the state.
    pub fn below(&mut self, bound: u32) -> u32
        requires { 1 ≤ bound }
        ensures { result < bound }
    {
        self.state = self
            .state
            .wrapping_mul(6364136223846793005)
            .wrapping_add(1442695040888963407);
        (self.state >> 32) as u32 % bound
    }
}
