//! A Runnable from the schedule call to its end: queues, thieves and workers hand it on by value.
ghost use Rattle.std.specs.Prelude.{◌≡◌};

use crate::pool::{Place, PoolRunnable, PoolWaker, ToPool};
use async_task::{Future, ParkedRunnable, Runnable, Wake, Yields};
use std::alloc::Allocator;
use std::collections::VecDeque;
use std::sync::Wait;
use work_queues::Crew;

/// A Runnable as the queues of a pool and the hands of its workers have it. It has no `Drop`, so it ends in `run`, in `cancel`, or in `hand_out`.
pub(crate) struct DueRunnable<R, F: Yields, A, M> {
    parked: ParkedRunnable<R, F, ToPool, M, A>,
}

impl<R: Wait + Drop + Copy, F: Yields, A: Wake, M: Drop> DueRunnable<R, F, A, M> {
    // Takes over the Runnable of a spawn or of a schedule call.
    pub(crate) fn new<X: Copy>(runnable: Runnable<R, F, ToPool, M, A, X>) -> DueRunnable<R, F, A, M>
        ensures { result.parked.inner ≡ runnable.inner }
    {
        DueRunnable {
            parked: runnable.park(),
        }
    }

    // Cancels its task, as the drop of a Runnable does: at a shutdown, with the pool, or where there is no memory.
    pub(crate) fn cancel(self) {
        let DueRunnable { parked } = self;
        parked.unpark(()).discard();
    }

    // The Runnable, for a loop that asked for it at this place.
    pub(crate) fn hand_out<'x, B: Allocator>(
        self,
        place: Place<'x, R, F, A, B, M>,
    ) -> PoolRunnable<'x, R, F, A, B, M>
        ensures inner { result.inner ≡ self.parked.inner }
        ensures place { result.around ≡ place.entry }
    {
        let DueRunnable { parked } = self;
        parked.unpark(place)
    }

    // Runs its task on the worker of this place.
    pub(crate) fn run<'x, B: Allocator + Copy>(self, place: Place<'x, R, F, A, B, M>)
    where
        F: Future<PoolWaker<'x, R, F, A, B, M>>,
    {
        self.hand_out(place).run();
    }
}

// Cancels each of these.
pub(crate) fn cancel_all<R: Wait + Drop + Copy, F: Yields, A: Wake, M: Drop, B: Allocator>(
    dues: VecDeque<DueRunnable<R, F, A, M>, B>,
) {
    let mut dues = dues;
    while let Some(due) = dues.pop_front() {
        due.cancel();
    }
    dues.destroy_empty();
}

// Cancels what the queues of a pool have left, which end with it.
pub(crate) fn cancel_queues<R: Wait + Drop + Copy, F: Yields, A: Wake, M: Drop, B: Allocator>(
    crew: Crew<DueRunnable<R, F, A, M>, B>,
) {
    let mut queues = crew.close();
    while let Some(dues) = queues.take_queue() {
        cancel_all(dues);
    }
    queues.free();
}
