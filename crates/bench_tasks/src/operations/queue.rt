//! Surroundings with a queue of Runnables under a lock, which any thread may use.
ghost use Rattle.std.specs.Prelude.{⊤};

use async_task::{Runnable, Schedule, ScheduleInfo, Task, TaskWaker, Yields, spawn};
use executor_parts::Nobody;
use std::alloc::{AllocError, Allocator, Global};
use std::collections::VecDeque;
use std::sync::{Mutex, Wait};

/// A queue of the Runnables of one type of future.
pub struct Queue<R: Wait + Drop + Copy, F: Yields, B: Allocator + Copy = Global> {
    rt: R,
    alloc: B,
    waiting: Mutex<VecDeque<Runnable<R, F, ToQueue, (), Nobody, (), B>, B>>,
}

impl<R: Wait + Drop + Copy, F: Yields, B: Allocator + Copy> Drop for Queue<R, F, B> {
    // As a derived drop, which would stand field by field in each function that makes a queue.
    fn drop(self) {
        let Queue {
            rt: _,
            alloc: _,
            waiting,
        } = self;
        drop(waiting);
    }
}

/// The schedule value of tasks whose Runnables go to the queue that they carry.
#[derive(Drop)]
pub struct ToQueue;

/// A Runnable that carries a queue.
pub type QueueRunnable<'x, R, F, B = Global> = Runnable<
    R,
    F,
    ToQueue,
    (),
    Nobody,
    &'x Queue<R, F, B>,
    B,
>;

/// A Task that carries a queue.
pub type QueueTask<'x, R, F, B> = Task<R, F, ToQueue, (), Nobody, &'x Queue<R, F, B>, B>;

/// A waker that carries a queue.
pub type QueueWaker<'x, R, F, B = Global> = TaskWaker<
    R,
    F,
    ToQueue,
    (),
    Nobody,
    &'x Queue<R, F, B>,
    B,
>;

/// A Runnable and its Task.
pub type QueueHandles<'x, R, F, B> = (QueueRunnable<'x, R, F, B>, QueueTask<'x, R, F, B>);

/// A Runnable, its Task and a waker.
pub type QueueParties<'x, R, F, B> = (
    QueueRunnable<'x, R, F, B>,
    QueueTask<'x, R, F, B>,
    QueueWaker<'x, R, F, B>,
);

impl<'x, R: Wait + Drop + Copy, F: Yields, B: Allocator + Copy> Schedule<QueueRunnable<'x, R, F, B>>
    for ToQueue {
    ghost scheduled = { λ _ _ _. ⊤ };

    fn schedule(&self, runnable: QueueRunnable<'x, R, F, B>, _info: ScheduleInfo) {
        runnable.around().push(runnable);
    }
}

impl<R: Wait + Drop + Copy, F: Yields, B: Allocator + Copy> Queue<R, F, B> {
    /// An empty queue.
    pub fn new(rt: R, alloc: B) -> Queue<R, F, B> {
        Queue {
            rt,
            alloc,
            waiting: Mutex::new(VecDeque::new(alloc)),
        }
    }

    /// Takes room for that many Runnables.
    pub fn reserve(&self, room: usize) -> Result<(), AllocError> {
        self.waiting.lock(&self.rt).try_reserve(room)
    }

    /// Spawns a task.
    pub fn spawn(&self, future: F) -> Result<QueueHandles<'_, R, F, B>, AllocError> {
        match spawn(self.rt, self.alloc, future, ToQueue, self) {
            Ok(handles) => Ok(handles),
            Err(_) => Err(AllocError),
        }
    }

    /// Spawns a task, and makes a waker.
    pub fn spawn_with_waker(&self, future: F) -> Result<QueueParties<'_, R, F, B>, AllocError> {
        let (runnable, task) = self.spawn(future)?;
        match runnable.waker() {
            Ok(waker) => Ok((runnable, task, waker)),
            Err(_) => Err(AllocError),
        }
    }

    /// Pushes a Runnable. Where there is no memory it is dropped, which cancels its task.
    pub fn push<'x>(&'x self, runnable: QueueRunnable<'x, R, F, B>) {
        let pushed = self
            .waiting
            .lock(&self.rt)
            .push_back(runnable.with_around(()));
        drop(pushed);
    }

    /// Takes the Runnable that has waited longest.
    pub fn pop(&self) -> Option<QueueRunnable<'_, R, F, B>> {
        let queued = self.waiting.lock(&self.rt).pop_front()?;
        Some(queued.with_around(self))
    }
}
