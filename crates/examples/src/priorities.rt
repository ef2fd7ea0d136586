//! Priorities: the metadata of a task is its priority, and a heap hands out the Runnable of greatest priority first.
//! The heap holds Runnables without surroundings; the executor gives each its own again before it is run.
ghost use Rattle.std.specs.Prelude.{⊤};

use async_task::{Builder, Future, Poll, Runnable, Schedule, ScheduleInfo, Task, Yields};
use executor_parts::{Nobody, PriorityHeap};
use std::alloc::Global;
use std::sync::{Mutex, Wait};

/// A future that has nothing to do.
#[derive(Drop)]
struct Done;

impl Yields for Done {
    type Output = ();
}

impl<W> Future<W> for Done {
    ghost polled = { λ _ _ _ _. ⊤ };

    fn poll(&mut self, _waker: &W) -> Poll<()> {
        Poll::Ready(())
    }
}

#[derive(Drop)]
struct Executor<R: Wait + Drop + Copy> {
    rt: R,
    heap: Mutex<PriorityHeap<R, Done, ToHeap, Nobody>>,
}

/// The schedule value: a Runnable goes to the heap.
#[derive(Drop)]
struct ToHeap;

type Work<'x, R> = Runnable<R, Done, ToHeap, u64, Nobody, &'x Executor<R>>;

type Job<'x, R> = Task<R, Done, ToHeap, u64, Nobody, &'x Executor<R>>;

impl<'x, R: Wait + Drop + Copy> Schedule<Work<'x, R>> for ToHeap {
    ghost scheduled = { λ _ _ _. ⊤ };

    fn schedule(&self, runnable: Work<'x, R>, _info: ScheduleInfo) {
        let executor = runnable.around();
        let pushed = executor
            .heap
            .lock(&executor.rt)
            .push(runnable.with_around(()));
        // A full heap hands the Runnable back: its drop cancels the task, and needs the lock to be free.
        drop(pushed);
    }
}

impl<R: Wait + Drop + Copy> Executor<R> {
    fn spawn(&self, alloc: Global, priority: u64) -> Option<()> {
        let builder = Builder::new().metadata(priority);
        let spawned = builder.spawn(self.rt, alloc, |_: &u64| Done, ToHeap, self);
        let (runnable, task) = spawned.ok()?;
        let task: Job<'_, R> = task;
        runnable.schedule();
        task.detach();
        Some(())
    }

    // Runs the Runnable of greatest priority, and answers the priority.
    fn run_next(&self) -> Option<u64> {
        let queued = self.heap.lock(&self.rt).pop()?;
        let runnable = queued.with_around(self);
        let priority = *runnable.metadata();
        runnable.run();
        Some(priority)
    }

    // Spawns three tasks of these priorities: in what order they are run.
    fn run_all(&self, alloc: Global, priorities: [u64; 3]) -> Option<[u64; 3]> {
        for priority in priorities {
            self.spawn(alloc, priority)?;
        }
        Some([self.run_next()?, self.run_next()?, self.run_next()?])
    }
}

/// Spawns three tasks of these priorities: in what order they are run. `None` where there is no memory.
pub fn order_of<R: Wait + Drop + Copy>(
    rt: R,
    alloc: Global,
    priorities: [u64; 3],
) -> Option<[u64; 3]> {
    let heap = Mutex::new(PriorityHeap::new(alloc, 3).ok()?);
    let executor = Executor { rt, heap };
    executor.run_all(alloc, priorities)
}
