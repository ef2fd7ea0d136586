//! Cancel with cleanup: a future holds a permit, and its drop gives the permit back.
//! To drop the Task cancels the task, and the Runnable that is left drops the future, without a poll.
ghost use Rattle.std.specs.Prelude.{⊤};

use crate::last::DropsRunnables;
use async_task::{Future, Poll, Task, Yields, spawn};
use executor_parts::Nobody;
use std::alloc::Global;
use std::sync::atomic::{AtomicU64, Ordering};
use std::sync::{Arc, Wait};

/// One of the permits of a pool: the drop counts it as free.
struct Permit {
    free: Arc<AtomicU64>,
}

impl Drop for Permit {
    fn drop(self) {
        let Permit { free } = self;
        free.fetch_add(1, Ordering::SeqCst);
    }
}

/// A future that never ends, and holds a permit.
#[derive(Drop)]
struct Holds {
    permit: Permit,
}

impl Yields for Holds {
    type Output = ();
}

impl<W> Future<W> for Holds {
    ghost polled = { λ _ _ _ _. ⊤ };

    fn poll(&mut self, _waker: &W) -> Poll<()> {
        Poll::Pending
    }
}

/// How many permits are free while the task holds the only one, after its Task was dropped, and after its Runnable has run.
/// `None` where there is no memory.
pub fn free_permits<R: Wait + Drop + Copy>(rt: R, alloc: Global) -> Option<[u64; 3]> {
    let free = Arc::new(alloc, AtomicU64::new(0)).ok()?;
    let permit = Permit {
        free: Arc::try_clone(&free).ok()?,
    };
    let (runnable, task) = spawn(rt, alloc, Holds { permit }, DropsRunnables, ()).ok()?;
    let task: Task<_, _, _, _, Nobody, ()> = task;
    let held = free.load(Ordering::SeqCst);
    drop(task);
    let cancelled = free.load(Ordering::SeqCst);
    runnable.run();
    Some([held, cancelled, free.load(Ordering::SeqCst)])
}
