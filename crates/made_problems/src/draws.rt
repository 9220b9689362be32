// Numbers drawn one after the other. They look random, and are the same on each machine.
ghost use Rattle.std.specs.Prelude.{◌≡◌, ◌<◌, ◌≤◌, ◌^◌};
ghost use Rattle.made_problems.specs.Draws.{next_state, drawn, drawn_between};

use std::marker::Model;

const MULTIPLIER: u64 = 6_364_136_223_846_793_005;

const INCREMENT: u64 = 1_442_695_040_888_963_407;

/// The draws that a number begins, by the linear congruential generator modulo 2^64 of Knuth's MMIX (1999).
#[derive(Drop)]
pub struct Draws {
    state: u64,
}

impl Model for Draws {
    ghost use Rattle.std.specs.Prelude.{ℕ};

    ghost Value = { ℕ };

    ghost view = { λ d. d.state };
}

impl Draws {
    /// The draws that the number begins.
    pub fn of(number: u32) -> Draws
        ensures { result ≡ number }
    {
        Draws {
            state: u64::from(number),
        }
    }

    /// The next draw, the upper 32 bits of the state that it leaves.
    pub fn draw(&mut self) -> u32
        ensures value { result ≡ drawn self.old }
        ensures state { self.new ≡ next_state self.old }
    {
        self.state = self.state.wrapping_mul(MULTIPLIER).wrapping_add(INCREMENT);
        (self.state >> 32) as u32
    }

    /// A number from low to high, by one draw.
    pub fn between(&mut self, low: u32, high: u32) -> u32
        requires order { low ≤ high }
        requires few { high < 2 ^ 31 }
        ensures value { result ≡ drawn_between self.old low high }
        ensures within { (low ≤ result) × (result ≤ high) }
        ensures state { self.new ≡ next_state self.old }
    {
        low + self.draw() % (high + 1 - low)
    }
}
