ghost use Rattle.std.specs.Prelude.{◌≡◌, ◌+◌, ◌<◌, ◌≤◌};
ghost use Rattle.gen_net.specs.Draws.{drawn};

use std::marker::Model;

/// The multiplier of the stream.
const MULTIPLIER: u128 = 6364136223846793005;

/// What is added at each draw of the stream.
const INCREMENT: u128 = 1442695040888963407;

/// One more than the greatest state of the stream.
const MODULUS: u128 = 18446744073709551616;

/// The stream of draws of a seed. Contracts see the seed, and how many draws were made.
#[derive(Drop)]
pub struct Draws {
    seed: u32,
    place: u32,
    state: u64,
}

impl Model for Draws {
    ghost use Rattle.std.specs.Prelude.{◌≡◌, ℕ};
    ghost use Rattle.gen_net.specs.Draws.{state_after};

    ghost Value = { ℕ × ℕ };

    ghost view = { λ draws. (draws.seed, draws.place) };

    ghost invariant = { λ draws. draws.state ≡ state_after draws.seed draws.place };
}

impl Draws {
    /// The stream of a seed, before its first draw.
    #[tactic(auto, unfolding(crate::specs::Draws::state_after))]
    pub fn new(seed: u32) -> Draws
        ensures { result ≡ (seed, 0) }
    {
        Draws {
            seed,
            place: 0,
            state: u64::from(seed),
        }
    }

    /// Draws one of the numbers below `n`.
    #[tactic(auto, unfolding(crate::specs::Draws::state_after, crate::specs::Draws::next_state, crate::specs::Draws::drawn))]
    pub fn draw(&mut self, n: u32) -> u32
        requires some { 0 < n }
        requires few { self.old.1 ≤ 1000 }
        ensures drawn { result ≡ drawn self.old.0 self.old.1 n }
        ensures below { result < n }
        ensures further { self.new ≡ (self.old.0, self.old.1 + 1) }
    {
        let next = (u128::from(self.state) * MULTIPLIER + INCREMENT) % MODULUS;
        self.state = next as u64;
        self.place += 1;
        ((self.state >> 33) % u64::from(n)) as u32
    }
    /// Passes over so many draws.
    pub fn skip(&mut self, count: u32)
        requires { self.old.1 + count ≤ 1000 }
        ensures { self.new ≡ (self.old.0, self.old.1 + count) }
    {
        for _passed in 0..count {
            self.draw(1);
        }
    }
}
