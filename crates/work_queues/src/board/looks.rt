//! What the flags of the queues show, for a worker that looks for items.
ghost use Rattle.std.specs.Prelude.{◌≤◌};
ghost use Rattle.std.specs.Arc.{arc_value};

use super::Board;
use std::alloc::Allocator;
use std::hint::spin_loop;

/// How often a worker looks whether the items of another one stay in its queue, before it takes them.
const LOOKS_AT_ITEMS: usize = 128;

/// How many turns of `spin_loop` are between two looks.
const TURNS: usize = 8;

// Between two looks the words stay with the threads that write them.
pub(crate) fn pause() {
    for _ in 0..TURNS {
        spin_loop();
    }
}

impl<T, A: Allocator> Board<T, A> {
    /// Whether the flag of a queue shows that it is empty. Nothing is claimed of a look that is over.
    pub fn is_empty(&self, queue: usize) -> bool
        requires { queue ≤ (arc_value self.now.bells).workers }
    {
        !self.bells.shows(queue)
    }

    /// Whether the items of a worker's queue stay there at each of some looks. Otherwise that worker is about to run what it has, and would be kept from it. As of `is_empty`, nothing is claimed.
    pub fn is_left(&self, queue: usize) -> bool
        requires { queue ≤ (arc_value self.now.bells).workers }
    {
        for _ in 0..LOOKS_AT_ITEMS {
            if self.is_empty(queue) {
                return false;
            }
            pause();
        }
        true
    }

    /// Whether this worker has something to take: of its own queue or that for what comes from outside, or what another worker leaves in its queue. As of `is_empty`, nothing is claimed.
    pub fn has_some_for(&self, worker: usize) -> bool {
        for queue in 0..=self.workers() {
            let is_its_own = queue == worker || queue == self.workers();
            if !self.is_empty(queue) && (is_its_own || self.is_left(queue)) {
                return true;
            }
        }
        false
    }
}
