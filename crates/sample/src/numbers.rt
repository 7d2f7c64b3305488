// Numbers that look random.

ghost use Rattle.std.specs.Prelude.{◌≡◌, ◌<◌, ◌%◌, ◌^◌};
ghost use Rattle.sample.specs.Random.{following, shown};

use std::marker::Model;

/// Numbers that look random: a linear congruence modulo 2^64 (Knuth, 1999). Contracts see the seed.
#[derive(Drop)]
pub struct Random {
    seed: u64,
}

impl Model for Random {
    ghost use Rattle.std.specs.Prelude.{ℕ};

    ghost Value = { ℕ };

    ghost view = { λ a. a.seed };
}

impl Random {
    /// The numbers that come from a seed.
    pub fn new(seed: u64) -> Random
        ensures { result ≡ seed }
    {
        Random { seed }
    }

    /// The next number.
    pub fn next(&mut self) -> u64
        ensures seed { self.new ≡ following self.old }
        ensures number { result ≡ shown self.new }
        ensures limit { result < 2 ^ 31 }
    {
        self.seed = self
            .seed
            .wrapping_mul(6_364_136_223_846_793_005)
            .wrapping_add(1_442_695_040_888_963_407);
        self.seed >> 33
    }

    /// The next number, modulo a bound above 0.
    pub fn below(&mut self, bound: u64) -> u64
        requires { 0 < bound }
        ensures seed { self.new ≡ following self.old }
        ensures number { result ≡ shown self.new % bound }
        ensures limit { result < bound }
    {
        self.next() % bound
    }
}
