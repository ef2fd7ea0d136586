//! An executor by priority: a queue of Runnables as the surroundings of tasks, from which the one of greatest priority is run first.
ghost use Rattle.std.specs.Prelude.{⊤, ◌≡◌};

use crate::flag::Flag;
use crate::future::RowFuture;
use crate::surroundings::Scheduler;
use async_task::{Runnable, Schedule, ScheduleInfo, Task, TaskWaker};
use executor_parts::PriorityHeap;
use std::alloc::{AllocError, Global};
use std::sync::{Mutex, Wait};

/// A Runnable whose metadata is its priority.
pub type PriorityRunnable<'x, R> = Runnable<
    R,
    RowFuture,
    PriorityScheduler,
    u64,
    Flag,
    &'x PriorityQueue<R>,
>;

/// A Task whose metadata is its priority.
pub type PriorityTask<'x, R> = Task<
    R,
    RowFuture,
    PriorityScheduler,
    u64,
    Flag,
    &'x PriorityQueue<R>,
>;

/// A waker of a task whose metadata is its priority.
pub type PriorityWaker<'x, R> = TaskWaker<
    R,
    RowFuture,
    PriorityScheduler,
    u64,
    Flag,
    &'x PriorityQueue<R>,
>;

/// The schedule value of such tasks: it counts as that of the other rows does, and pushes to the queue of the surroundings.
#[derive(Drop)]
pub struct PriorityScheduler {
    inner: Scheduler,
}

impl PriorityScheduler {
    /// A schedule value that counts as this one does.
    pub fn new(inner: Scheduler) -> PriorityScheduler
        ensures { result.inner ≡ inner }
    {
        PriorityScheduler { inner }
    }
}

impl<'x, R: Wait + Drop + Copy> Schedule<PriorityRunnable<'x, R>> for PriorityScheduler {
    ghost scheduled = { λ _ _ _. ⊤ };

    fn schedule(&self, runnable: PriorityRunnable<'x, R>, info: ScheduleInfo) {
        self.inner.count_call();
        if info.woken_while_running {
            self.inner.count_woken_call();
        }
        runnable.around().push(runnable);
    }
}

/// Surroundings that hold Runnables, and run the one of greatest priority first. What is left is dropped with the queue,
/// which cancels its tasks.
#[derive(Drop)]
pub struct PriorityQueue<R: Wait + Drop + Copy> {
    rt: R,
    heap: Mutex<PriorityHeap<R, RowFuture, PriorityScheduler, Flag>>,
}

impl<R: Wait + Drop + Copy> PriorityQueue<R> {
    /// An empty queue with room for that many Runnables. All its memory is taken here.
    pub fn new(rt: R, alloc: Global, room: usize) -> Result<PriorityQueue<R>, AllocError> {
        let heap = PriorityHeap::new(alloc, room)?;
        Ok(PriorityQueue {
            rt,
            heap: Mutex::new(heap),
        })
    }

    // Puts a Runnable in. Where the queue is full it is dropped, which cancels its task.
    fn push<'x>(&'x self, runnable: PriorityRunnable<'x, R>) {
        let pushed = self.heap.lock(&self.rt).push(runnable.with_around(()));
        // The lock is released: the drop of a Runnable drops a future and may wake an awaiter.
        drop(pushed);
    }

    /// Runs the Runnable of greatest priority: that priority, and what the run answers. `None` where there is no Runnable.
    pub fn run_next(&self) -> Option<(u64, bool)> {
        let queued = self.heap.lock(&self.rt).pop()?;
        let runnable = queued.with_around(self);
        let priority = *runnable.metadata();
        Some((priority, runnable.run().0))
    }
}
