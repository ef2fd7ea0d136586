//! The shared waker: an awaiter, and the key under which the executor keeps the waker of the task.
ghost use Rattle.std.specs.Prelude.{◌≡◌, Some, false, IfOk, IfSome};
ghost use Rattle.std.specs.Arc.{arc_value};
ghost use Rattle.executor.specs.Polled.{Shows};

use crate::store::Key;
use async_task::Wake;
use std::alloc::Global;
use std::sync::{Arc, Wait};

/// What the shared wakers of a task have in common.
#[derive(Drop)]
pub struct Seat<R: Wait + Drop + Copy, A: Wake> {
    /// The key of the place at which the executor keeps the waker of the task.
    pub(crate) key: Key<R>,
    /// It posts the number of the key to the executor.
    pub(crate) awaiter: A,
}

/// A waker of one task, whose type names no future. Its wake posts a number by `A`, and the executor wakes the task for it.
///
/// While one of a task is there, no other task has its number. Once the task is over, a wake reaches nobody. A clone asks for no memory. With the last one the number is given back: where it was posted before and not taken yet, the task that has the number next is polled once more than it has to be.
pub struct SharedWaker<R: Wait + Drop + Copy, A: Wake> {
    pub(crate) seat: Arc<Seat<R, A>>,
}

impl<R: Wait + Drop + Copy, A: Wake> Drop for SharedWaker<R, A> {
    // As a derived drop, which would stand field by field in each function that drops one.
    fn drop(self) {
        let SharedWaker { seat } = self;
        drop(seat);
    }
}

impl<R: Wait + Drop + Copy, A: Wake> SharedWaker<R, A> {
    // The first one of a task. `None` says that memory was refused.
    pub(crate) fn new(alloc: Global, key: Key<R>, awaiter: A) -> Option<SharedWaker<R, A>>
        ensures { IfSome result (λ shared. ((arc_value shared.seat).key ≡ key) × ((arc_value shared.seat).awaiter ≡ awaiter)) }
    {
        let seat = Arc::new(alloc, Seat { key, awaiter }).ok()?;
        Some(SharedWaker { seat })
    }
}

impl<R: Wait + Drop + Copy, A: Wake> Wake for SharedWaker<R, A> {
    // That of the wake of the awaiter. A clone is refused without a wake: `None`.
    type Record = Option<A::Record>;

    ghost woken = { λ shared ended. Shows (A.woken_by_ref (arc_value shared.seat).awaiter) ended };

    ghost woken_by_ref = { λ shared ended. Shows (A.woken_by_ref (arc_value shared.seat).awaiter) ended };

    ghost cloned = { λ shared clone. IfOk clone (λ other. arc_value other.seat ≡ arc_value shared.seat) };

    ghost compared = { λ _ _ answer. answer ≡ false };

    fn wake(self) -> Option<A::Record> {
        self.wake_by_ref()
    }

    fn wake_by_ref(&self) -> Option<A::Record> {
        Some(self.seat.awaiter.wake_by_ref())
    }

    /// An `Err` says that the shared waker has as many owners as can be counted.
    fn try_clone(&self) -> Result<SharedWaker<R, A>, Option<A::Record>> {
        let Ok(seat) = Arc::try_clone(&self.seat) else {
            return Err(None);
        };
        Ok(SharedWaker { seat })
    }

    // Two shares cannot be told to be of one task: a wake too many has it polled once more.
    fn will_wake(&self, _other: &SharedWaker<R, A>) -> bool {
        false
    }
}
