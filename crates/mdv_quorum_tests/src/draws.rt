ghost use Rattle.std.specs.Prelude.{◌≡◌, ◌+◌, ◌*◌, ◌/◌, ◌%◌, ◌^◌, ◌<◌};

use std::marker::Model;

/// Numbers that follow from a seed, the same in each run.
#[derive(Drop)]
pub struct Draws {
    state: u64,
}

impl Model for Draws {
    ghost use Rattle.std.specs.Prelude.{ℕ};

    ghost Value = { ℕ };

    ghost view = { λ d. d.state };
}

impl Draws {
    pub fn new(seed: u64) -> Self
        ensures { result ≡ seed }
    {
        Draws { state: seed }
    }

    /// The next number, below the limit.
    pub fn below(&mut self, limit: u32) -> u32
        requires { 0 < limit }
        ensures step { self.new ≡ (6364136223846793005 * self.old + 1442695040888963407) % 2 ^ 64 }
        ensures value { result ≡ (self.new / 2 ^ 33) % limit }
    {
        let next = self.state.wrapping_mul(6364136223846793005);
        self.state = next.wrapping_add(1442695040888963407);
        (self.state / (1 << 33)) as u32 % limit
    }
}
