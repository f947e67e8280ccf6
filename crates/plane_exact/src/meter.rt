ghost use Rattle.std.specs.Prelude.{◌≡◌, ℕ, ◌+◌, ◌<◌, ◌^◌};

use std::marker::Model;

/// Counts steps.
pub trait Meter {
    /// How many steps were counted so far.
    ghost used: { Self → ℕ };

    /// Counts one step.
    fn tick(&mut self)
        requires below { used self.old < 2 ^ 63 }
        ensures used { used self.new ≡ used self.old + 1 };
}

/// A plain counter, which contracts see as the number of its steps.
#[derive(Debug, Drop)]
pub struct Count {
    ticks: u64,
}

impl Model for Count {
    ghost Value = { ℕ };

    ghost view = { λ c. c.ticks };
}

impl Count {
    /// A counter at 0.
    pub fn new() -> Count
        ensures zero { result ≡ 0 }
    {
        Count { ticks: 0 }
    }

    /// How many steps were counted.
    pub fn ticks(&self) -> u64
        ensures used { result ≡ self.now }
    {
        self.ticks
    }
}

impl Meter for Count {
    ghost used = { λ c. c };

    fn tick(&mut self) {
        self.ticks += 1;
    }
}
