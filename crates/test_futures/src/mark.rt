//! A waker that needs no memory.
ghost use Rattle.std.specs.Prelude.{⊤};

use std::sync::atomic::{AtomicU64, Ordering};
use task_core::Wake;

/// A waker that needs no memory: it adds one to a count.
#[derive(Clone, Copy)]
pub struct Mark<'a>(pub &'a AtomicU64);

impl<'a> Wake for Mark<'a> {
    type Record = ();

    ghost woken = { λ _ _. ⊤ };

    ghost woken_by_ref = { λ _ _. ⊤ };

    ghost cloned = { λ _ _. ⊤ };

    ghost compared = { λ _ _ _. ⊤ };

    fn wake(self) {
        self.wake_by_ref();
    }

    fn wake_by_ref(&self) {
        self.0.fetch_add(1, Ordering::SeqCst);
    }

    fn try_clone(&self) -> Result<Mark<'a>, ()> {
        Ok(*self)
    }

    fn will_wake(&self, _other: &Mark<'a>) -> bool {
        false
    }
}
