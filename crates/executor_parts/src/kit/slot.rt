//! Where the kit's waker lies until a task is over.
use futures::spin;
use futures::task::{Source, Waker};
use std::sync::Mutex;

// The place of the waker that was registered last.
#[derive(Drop)]
pub(crate) struct Slot {
    pub(crate) source: Source,
    pub(crate) waker: Mutex<Option<Waker>>,
}

// A waker that was taken out, or none. It has no `Drop`: it ends in `wake`.
#[must_use]
pub(crate) struct Taken {
    waker: Option<Waker>,
}

impl Slot {
    // No waker yet.
    pub(crate) fn new() -> Slot {
        Slot {
            source: Source::new(),
            waker: Mutex::new(None),
        }
    }

    // Takes the waker out. The lock is free again then.
    pub(crate) fn take(&self) -> Taken {
        let waker = match spin::lock(&self.waker) {
            Some(mut waker) => waker.take(),
            None => None,
        };
        Taken { waker }
    }
}

impl Taken {
    // Wakes the waker, if there is one.
    pub(crate) fn wake(self) {
        let Taken { waker } = self;
        if let Some(waker) = waker {
            waker.wake();
        }
    }
}
