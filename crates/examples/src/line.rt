//! The queue of the examples whose tasks are woken by one another, or by another thread: one thread runs what is in it, in the order of coming.
//! It also has what the tasks share, where a future keeps its waker: no future can hold one of its own type.
ghost use Rattle.std.specs.Prelude.{⊤};

use async_task::{Runnable, Schedule, ScheduleInfo, Task, TaskWaker, Yields, spawn};
use executor_parts::Nobody;
use std::alloc::Global;
use std::collections::VecDeque;
use std::sync::{Condvar, Mutex, Wait};

/// A queue of Runnables, and what their tasks share.
#[derive(Drop)]
pub struct Line<R: Wait + Drop + Copy, F: Yields, S> {
    /// What its threads wait by.
    pub rt: R,
    /// What the tasks share.
    pub shared: S,
    queue: Mutex<VecDeque<Runnable<R, F, ToLine, (), Nobody, ()>>>,
    // Notified of each Runnable, for a thread that sleeps until one is there.
    pushed: Condvar,
}

/// The schedule value: a Runnable goes to the queue that it carries.
#[derive(Drop)]
pub struct ToLine;

/// A Runnable of a line.
pub type LineRunnable<'x, R, F, S> = Runnable<R, F, ToLine, (), Nobody, &'x Line<R, F, S>>;

/// A Task of a line.
pub type LineTask<'x, R, F, S> = Task<R, F, ToLine, (), Nobody, &'x Line<R, F, S>>;

/// The waker by which a line polls a future.
pub type LineWaker<'x, R, F, S> = TaskWaker<R, F, ToLine, (), Nobody, &'x Line<R, F, S>>;

/// A waker as the tasks keep it: without the line.
pub type KeptWaker<R, F> = TaskWaker<R, F, ToLine, (), Nobody, ()>;

impl<'x, R: Wait + Drop + Copy, F: Yields, S: Drop> Schedule<LineRunnable<'x, R, F, S>> for ToLine {
    ghost scheduled = { λ _ _ _. ⊤ };

    fn schedule(&self, runnable: LineRunnable<'x, R, F, S>, _info: ScheduleInfo) {
        let line = runnable.around();
        // Where the queue cannot grow the Runnable is dropped, which cancels its task.
        drop(
            line.queue
                .lock(&line.rt)
                .push_back(runnable.with_around(())),
        );
        line.pushed.notify_one();
    }
}

// Without a line there is no queue: the Runnable is dropped, which cancels its task. Only the drop of a last waker leads here.
impl<R: Wait + Drop + Copy, F: Yields> Schedule<Runnable<R, F, ToLine, (), Nobody, ()>> for ToLine {
    ghost scheduled = { λ _ _ _. ⊤ };

    fn schedule(&self, _runnable: Runnable<R, F, ToLine, (), Nobody, ()>, _info: ScheduleInfo) {}
}

impl<R: Wait + Drop + Copy, F: Yields, S: Drop> Line<R, F, S> {
    /// A line with an empty queue.
    pub fn new(rt: R, alloc: Global, shared: S) -> Line<R, F, S> {
        let queue = Mutex::new(VecDeque::new(alloc));
        let pushed = Condvar::new();
        Line {
            rt,
            shared,
            queue,
            pushed,
        }
    }

    /// Spawns a task and schedules it for the first time. `None` where there is no memory for it.
    pub fn spawn(&self, alloc: Global, future: F) -> Option<LineTask<'_, R, F, S>> {
        let (runnable, task) = spawn(self.rt, alloc, future, ToLine, self).ok()?;
        runnable.schedule();
        Some(task)
    }

    /// Takes the Runnable that has waited longest.
    pub fn next(&self) -> Option<LineRunnable<'_, R, F, S>> {
        let queued = self.queue.lock(&self.rt).pop_front()?;
        Some(queued.with_around(self))
    }

    /// Takes the Runnable that has waited longest, and sleeps until there is one.
    pub fn wait(&self) -> LineRunnable<'_, R, F, S> {
        let mut queue = self.queue.lock(&self.rt);
        for _ in self.rt.forever() {
            if let Some(queued) = queue.pop_front() {
                return queued.with_around(self);
            }
            queue = self.pushed.wait(&self.rt, queue);
        }
        unreachable!()
    }
}
