//! An awaiter that counts what is done to it and to its clones.
ghost use Rattle.std.specs.Prelude.{⊤};

use std::cell::Cell;
use task_core::traits::Wake;

/// What was done to the clones of an awaiter, and how often it was asked. The awaiter itself, which a caller lends, is not counted.
#[derive(Clone, Copy, PartialEq, Eq)]
pub struct Counts {
    pub clones: u8,
    pub refusals: u8,
    pub comparisons: u8,
    pub wakes: u8,
    pub wakes_by_ref: u8,
    pub drops: u8,
}

/// Nothing was done.
pub const NONE: Counts = Counts {
    clones: 0,
    refusals: 0,
    comparisons: 0,
    wakes: 0,
    wakes_by_ref: 0,
    drops: 0,
};

/// The counters of one awaiter and its clones.
#[derive(Drop)]
pub struct Counters(Cell<Counts>);

impl Counters {
    pub fn counts(&self) -> Counts {
        self.0.get()
    }

    fn add(&self, more: Counts) {
        let counts = self.0.get();
        self.0.set(Counts {
            clones: counts.clones.saturating_add(more.clones),
            refusals: counts.refusals.saturating_add(more.refusals),
            comparisons: counts.comparisons.saturating_add(more.comparisons),
            wakes: counts.wakes.saturating_add(more.wakes),
            wakes_by_ref: counts.wakes_by_ref.saturating_add(more.wakes_by_ref),
            drops: counts.drops.saturating_add(more.drops),
        });
    }
}

/// The counters of two awaiters.
#[derive(Drop)]
pub struct Pair {
    pub first: Counters,
    pub second: Counters,
}

impl Pair {
    pub fn new() -> Pair {
        Pair {
            first: Counters(Cell::new(NONE)),
            second: Counters(Cell::new(NONE)),
        }
    }

    pub fn counts(&self) -> [Counts; 2] {
        [self.first.counts(), self.second.counts()]
    }

    /// The awaiter of this number, which may refuse to be cloned.
    pub fn awaiter(&self, number: usize, refuses: bool) -> Awaiter<'_> {
        let counters = if number == 1 {
            &self.first
        } else {
            &self.second
        };
        Awaiter {
            number,
            refuses,
            counters,
        }
    }
}

/// An awaiter that is known by a number, and may refuse to be cloned. A wake by value is not counted as a drop.
pub struct Awaiter<'c> {
    pub number: usize,
    refuses: bool,
    counters: &'c Counters,
}

impl<'c> Awaiter<'c> {
    /// The caller's own awaiter goes, uncounted.
    pub fn go(self) -> &'c Counters {
        let Awaiter {
            number: _,
            refuses: _,
            counters,
        } = self;
        counters
    }
}

impl Drop for Awaiter<'_> {
    fn drop(self) {
        self.go().add(Counts { drops: 1, ..NONE });
    }
}

impl<'c> Wake for Awaiter<'c> {
    type Record = ();

    ghost woken = { λ _ _. ⊤ };

    ghost woken_by_ref = { λ _ _. ⊤ };

    ghost cloned = { λ awaiter clone. ⊤ };

    ghost compared = { λ awaiter other answer. ⊤ };

    fn wake(self) {
        self.go().add(Counts { wakes: 1, ..NONE });
    }

    fn wake_by_ref(&self) {
        self.counters.add(Counts {
            wakes_by_ref: 1,
            ..NONE
        });
    }

    fn try_clone(&self) -> Result<Awaiter<'c>, ()> {
        if self.refuses {
            self.counters.add(Counts {
                refusals: 1,
                ..NONE
            });
            return Err(());
        }
        self.counters.add(Counts { clones: 1, ..NONE });
        Ok(Awaiter {
            number: self.number,
            refuses: false,
            counters: self.counters,
        })
    }

    fn will_wake(&self, other: &Awaiter<'c>) -> bool {
        self.counters.add(Counts {
            comparisons: 1,
            ..NONE
        });
        self.number == other.number
    }
}
