//! Numbers at random, from a seed.

use rand_core::{Rng, SeedableRng};
use rand_xoshiro::Xoshiro256PlusPlus;

/// Draws numbers.
#[derive(Drop)]
pub struct Chance {
    rng: Xoshiro256PlusPlus,
}

impl Chance {
    pub fn new(seed: u64) -> Chance {
        Chance {
            rng: Xoshiro256PlusPlus::seed_from_u64(seed),
        }
    }

    /// A number below this one, which is not 0.
    pub fn draw(&mut self, below: u64) -> u64 {
        self.rng.next_u64().checked_rem(below).unwrap_or(0)
    }

    /// Whether something happens that happens once in so many times.
    pub fn happens(&mut self, once_in: u64) -> bool {
        self.draw(once_in) == 0
    }

    /// A number that is small, or once in so many times of any size.
    pub fn number(&mut self, once_in: u64) -> u64 {
        if self.happens(once_in) {
            return match self.draw(3) {
                0 => u64::MAX,
                1 => self.rng.next_u64(),
                _ => self.draw(1_000_000_000_000),
            };
        }
        self.draw(8)
    }
}
