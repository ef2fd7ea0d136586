//! A waker that counts its wakes, and one that may be refused its clones.
ghost use Rattle.std.specs.Prelude.{⊤};

use std::alloc::Global;
use std::process::Abort;
use std::sync::Arc;
use std::sync::atomic::{AtomicU64, Ordering};
use task_core::{Future, Poll, Wake};

/// A waker that adds one to a count at each wake.
#[derive(Drop)]
pub struct Counter {
    wakes: Arc<AtomicU64>,
    clones: bool,
}

impl Counter {
    /// A waker that was not woken yet. Stops where there is no memory.
    pub fn new<R: Abort>(rt: &R, alloc: Global) -> Counter {
        Counter {
            wakes: Arc::new(alloc, AtomicU64::new(0)).expect(rt, "refused"),
            clones: true,
        }
    }

    /// The same, of which no clone is to be had.
    pub fn alone<R: Abort>(rt: &R, alloc: Global) -> Counter {
        Counter {
            wakes: Arc::new(alloc, AtomicU64::new(0)).expect(rt, "refused"),
            clones: false,
        }
    }

    /// How often it and its clones were woken.
    pub fn wakes(&self) -> u64 {
        self.wakes.load(Ordering::SeqCst)
    }

    /// How many there are of it: itself, and its clones.
    pub fn owners(&self) -> usize {
        Arc::strong_count(&self.wakes)
    }

    /// How often it and its clones were woken, and how many clones are there.
    pub fn seen(&self) -> (u64, usize) {
        (self.wakes(), self.owners().saturating_sub(1))
    }
}

impl Wake for Counter {
    type Record = ();

    ghost woken = { λ _ _. ⊤ };

    ghost woken_by_ref = { λ _ _. ⊤ };

    ghost cloned = { λ _ _. ⊤ };

    ghost compared = { λ _ _ _. ⊤ };

    fn wake(self) {
        self.wake_by_ref();
    }

    fn wake_by_ref(&self) {
        self.wakes.fetch_add(1, Ordering::SeqCst);
    }

    fn try_clone(&self) -> Result<Counter, ()> {
        if !self.clones {
            return Err(());
        }
        let Ok(wakes) = Arc::try_clone(&self.wakes) else {
            return Err(());
        };
        Ok(Counter {
            wakes,
            clones: true,
        })
    }

    fn will_wake(&self, _other: &Counter) -> bool {
        false
    }
}

/// A poll of a future, by a counting waker.
pub fn poll<F: Future<Counter>>(future: &mut F, waker: &Counter) -> Poll<F::Output> {
    future.poll(waker)
}

/// Whether a poll of a future was ready.
pub fn is_ready<F: Future<Counter>>(future: &mut F, waker: &Counter) -> bool {
    match future.poll(waker) {
        Poll::Ready(_) => true,
        Poll::Pending => false,
    }
}

/// The output of a poll, by a counting waker, if it was ready.
pub fn output<F: Future<Counter>>(future: &mut F, waker: &Counter) -> Option<F::Output> {
    match future.poll(waker) {
        Poll::Ready(output) => Some(output),
        Poll::Pending => None,
    }
}
