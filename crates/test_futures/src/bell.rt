//! A thread that waits for a future, and the waker that ends its sleep.
ghost use Rattle.std.specs.Prelude.{⊤};

use std::alloc::Global;
use std::process::Abort;
use std::sync::{Arc, Condvar, Mutex, Wait};
use task_core::{Future, Poll, Wake};

#[derive(Drop)]
struct Rung {
    is_rung: Mutex<bool>,
    rings: Condvar,
}

/// A waker that ends the sleep of the thread that polls by it.
#[derive(Drop)]
pub struct Bell<R: Wait + Drop + Copy> {
    rt: R,
    rung: Arc<Rung>,
}

impl<R: Wait + Drop + Copy> Bell<R> {
    fn wait(&self) {
        let mut is_rung = self.rung.is_rung.lock(&self.rt);
        for _ in self.rt.forever() {
            if *is_rung {
                *is_rung = false;
                return;
            }
            is_rung = self.rung.rings.wait(&self.rt, is_rung);
        }
        unreachable!()
    }
}

impl<R: Wait + Drop + Copy> Wake for Bell<R> {
    type Record = ();

    ghost woken = { λ _ _. ⊤ };

    ghost woken_by_ref = { λ _ _. ⊤ };

    ghost cloned = { λ _ _. ⊤ };

    ghost compared = { λ _ _ _. ⊤ };

    fn wake(self) {
        self.wake_by_ref();
    }

    fn wake_by_ref(&self) {
        *self.rung.is_rung.lock(&self.rt) = true;
        self.rung.rings.notify_one();
    }

    fn try_clone(&self) -> Result<Bell<R>, ()> {
        let Ok(rung) = Arc::try_clone(&self.rung) else {
            return Err(());
        };
        Ok(Bell { rt: self.rt, rung })
    }

    fn will_wake(&self, _other: &Bell<R>) -> bool {
        false
    }
}

// A bell that was not rung. Stops where there is no memory.
fn new_bell<R: Wait + Abort + Drop + Copy>(rt: R, alloc: Global) -> Bell<R> {
    let rung = Rung {
        is_rung: Mutex::new(false),
        rings: Condvar::new(),
    };
    Bell {
        rt,
        rung: Arc::new(alloc, rung).expect(&rt, "refused"),
    }
}

/// Polls a future once, and drops it. Answers its output, if it was ready. Stops where there is no memory.
pub fn poll_once<R: Wait + Abort + Drop + Copy, F: Future<Bell<R>>>(
    rt: R,
    alloc: Global,
    mut future: F,
) -> Option<F::Output> {
    let bell = new_bell(rt, alloc);
    match future.poll(&bell) {
        Poll::Ready(output) => Some(output),
        Poll::Pending => None,
    }
}

/// Polls a future on this thread until it is ready, and sleeps between its wakes. Stops where there is no memory.
pub fn block_on<R: Wait + Abort + Drop + Copy, F: Future<Bell<R>>>(
    rt: R,
    alloc: Global,
    mut future: F,
) -> F::Output {
    let bell = new_bell(rt, alloc);
    for _ in rt.forever() {
        match future.poll(&bell) {
            Poll::Ready(output) => return output,
            Poll::Pending => bell.wait(),
        }
    }
    unreachable!()
}
