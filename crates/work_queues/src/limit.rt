//! Until when a worker may rest.
ghost use Rattle.std.specs.Prelude.{◌≡◌, IsNone, Option, Some};
ghost use Rattle.std.specs.declared.time.Duration.{Duration};

use std::time::Duration;

/// Until when a worker may rest.
pub trait Limit {
    // What it may answer.
    ghost lasts: { Self → Option Duration → Type 0 };

    /// How long it may rest from now on. `None` where only a wake ends its rest.
    fn left(&self) -> Option<Duration>
        ensures { lasts self.now result };

    /// Whether no time is left: one more look at that clock.
    fn is_over(&self) -> bool {
        match self.left() {
            Some(left) => left.is_zero(),
            None => false,
        }
    }
}

/// Only a wake ends the rest.
#[derive(Clone, Copy, Debug)]
pub struct NoLimit;

impl Limit for NoLimit {
    ghost lasts = { λ _ left. IsNone left };

    fn left(&self) -> Option<Duration> {
        None
    }
}

/// A sleep lasts at most this time, whenever it begins. A search before it is not counted.
impl Limit for Duration {
    ghost lasts = { λ most left. left ≡ Some most };

    fn left(&self) -> Option<Duration> {
        Some(*self)
    }
}
