//! The numbers that a seed draws.
ghost use Rattle.std.specs.Prelude.{◌≡◌, ◌<◌, ◌≤◌, ◌+◌, ◌%◌, zero};
ghost use Rattle.policy_gen.specs.Draws.{drawn_after, draw};

use std::marker::Model;

/// What draws the numbers: the number that was drawn last, below 65,537.
#[derive(Drop)]
pub(crate) struct Draws {
    last: u32,
}

impl Model for Draws {
    ghost use Rattle.std.specs.Prelude.{ℕ, ◌<◌};

    ghost Value = { ℕ };

    ghost view = { λ d. d.last };

    ghost invariant = { λ d. d.last < 65_537 };
}

impl Draws {
    /// Draws that begin with this seed, modulo 65,537.
    pub fn new(seed: u64) -> Draws
        ensures { result ≡ draw seed zero }
    {
        Draws {
            last: (seed % 65_537) as u32,
        }
    }

    /// Draws the next number, which is below 65,537.
    pub fn draw(&mut self) -> u32
        ensures next { self.new ≡ drawn_after self.old }
        ensures value { result ≡ drawn_after self.old }
        ensures bound { result < 65_537 }
    {
        self.last = (75 * self.last + 74) % 65_537;
        self.last
    }

    /// Draws a number from 1 to most.
    pub fn draw_up_to(&mut self, most: u32) -> u32
        requires { (1 ≤ most) × (most ≤ 200) }
        ensures next { self.new ≡ drawn_after self.old }
        ensures value { result ≡ drawn_after self.old % most + 1 }
        ensures bound { result ≤ most }
    {
        self.draw() % most + 1
    }
}
