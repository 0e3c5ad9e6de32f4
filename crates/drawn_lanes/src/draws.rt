//! Numbers drawn from a seed.

ghost use Rattle.std.specs.Prelude.{◌≡◌, ◌<◌, ◌^◌};
ghost use Rattle.drawn_lanes.specs.Draws.{seed_state, next_state, drawn_number};

use std::marker::Model;

// A state is below this.
const STATES: u64 = 1 << 31;

/// The draws of a linear congruence, one after another. Contracts see it as its state, a number below 2^31.
#[derive(Drop)]
pub struct Draws {
    state: u32,
}

impl Model for Draws {
    ghost use Rattle.std.specs.Prelude.{ℕ, ◌<◌, ◌^◌};

    ghost Value = { ℕ };

    ghost view = { λ d. d.state };

    ghost invariant = { λ d. d.state < 2 ^ 31 };
}

impl Draws {
    /// The draws that begin with this seed, of which the lowest 31 bits count.
    pub fn new(seed: u32) -> Self
        ensures { result ≡ seed_state seed }
    {
        Draws {
            state: (u64::from(seed) % STATES) as u32,
        }
    }

    /// Draws the next number, which is below 32,768.
    pub fn next(&mut self) -> u32
        ensures state { self.new ≡ next_state self.old }
        ensures number { result ≡ drawn_number self.new }
        ensures below { result < 2 ^ 15 }
    {
        let product = u64::from(self.state) * 1_103_515_245 + 12_345;
        self.state = (product % STATES) as u32;
        self.state / 65_536
    }
}
