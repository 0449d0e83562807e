//! Numbers that look random, the same in every run.
ghost use Rattle.std.specs.Prelude.{◌≡◌};
ghost use Rattle.engines_tests.specs.Draws.{drawn, next};

use cipher::Block;
use engines::work::{Direction, Work};

/// A linear congruential generator.
#[derive(Clone, Copy)]
pub struct Numbers {
    state: u64,
}

impl Numbers {
    pub fn new(seed: u64) -> Self
        ensures { result ≡ record { state = seed } }
    {
        Numbers { state: seed }
    }

    /// The next state.
    pub fn draw(&mut self) -> u64
        ensures value { result ≡ next self.old.state }
        ensures after { self.new ≡ record { state = next self.old.state } }
    {
        self.state = self
            .state
            .wrapping_mul(6_364_136_223_846_793_005)
            .wrapping_add(1_442_695_040_888_963_407);
        self.state
    }

    /// One cycle's input: nothing about every third time, else a block in either direction.
    pub fn input(&mut self) -> Option<Work>
        ensures value { result ≡ drawn self.old.state }
        ensures after { self.new ≡ record { state = next (next self.old.state) } }
    {
        let kind = self.draw() >> 60;
        let block: Block = self.draw();
        let direction = if kind % 2 == 0 {
            Direction::Forward
        } else {
            Direction::Inverse
        };
        (kind >= 5).then_some(Work { block, direction })
    }
}
