//! Delays at random, by which threads meet in other ways in each run.

use std::hint::spin_loop;
use std::thread::{self, yield_now};
use std::time::{Clock, Duration};

/// Numbers that are drawn one after the other.
#[derive(Drop)]
pub struct Dice {
    /// What the next number comes from.
    pub state: u64,
    /// Whether `delay` does anything.
    pub delays: bool,
}

impl Dice {
    /// A number below `bound`, which is at least one.
    pub fn draw(&mut self, bound: u64) -> u64 {
        self.state = self
            .state
            .wrapping_mul(6_364_136_223_846_793_005)
            .wrapping_add(1_442_695_040_888_963_407);
        (self.state >> 33).checked_rem(bound).unwrap_or(0)
    }

    /// Mostly none, some turns of `spin_loop`, a yield, or a sleep, in which workers come to sleep, too.
    pub fn delay<R: Clock>(&mut self, rt: &R) {
        if !self.delays {
            return;
        }
        match self.draw(16) {
            0 => thread::sleep(rt, Duration::from_micros(self.draw(500))),
            1..=2 => yield_now(),
            3..=6 => {
                for _ in 0..self.draw(500) {
                    spin_loop();
                }
            }
            _ => (),
        }
    }
}
