//! Wakes of one task, with the runs that they lead to, and looks at its Task.

use crate::failure::Failure;
use crate::operations::queue::{Queue, QueueTask, QueueWaker};
use crate::operations::slot::{Slot, SlotWaker};
use crate::operations::task_futures::{Pending, Ready, Yielding};
use async_task::{TaskPoll, Yields};
use executor_parts::Nobody;
use std::alloc::{AllocError, Allocator};
use std::sync::Wait;

/// Wakes the task and runs it, which goes through a place without a lock.
pub fn wake_and_run_by_slot<R: Wait + Drop + Copy, B: Allocator + Copy>(
    rt: R,
    alloc: B,
    count: u64,
) -> Result<(), Failure> {
    let slot = Slot::new(rt, alloc);
    let (runnable, task) = slot.spawn(Pending)?;
    let waker = runnable.waker().ok().ok_or(AllocError)?;
    runnable.run();
    let done = wake_and_take(&slot, &waker, count);
    drop(task);
    drop(slot.take());
    drop(waker);
    done
}

// Wakes the task, and runs it from the place, so often.
fn wake_and_take<'x, R: Wait + Drop + Copy, B: Allocator + Copy>(
    slot: &'x Slot<R, Pending, B>,
    waker: &SlotWaker<'x, R, Pending, B>,
    count: u64,
) -> Result<(), Failure> {
    for _ in 0..count {
        waker.wake_by_ref();
        let Some(runnable) = slot.take() else {
            return Err(Failure::Unexpected);
        };
        runnable.run();
    }
    Ok(())
}

/// Wakes the task and runs it, which goes through a queue under a lock.
pub fn wake_and_run_by_queue<R: Wait + Drop + Copy, B: Allocator + Copy>(
    rt: R,
    alloc: B,
    count: u64,
) -> Result<(), Failure> {
    let queue = Queue::new(rt, alloc);
    let (runnable, task, waker) = queue.spawn_with_waker(Pending)?;
    runnable.run();
    let done = wake_and_pop(&queue, &waker, count);
    drop(task);
    drop(queue.pop());
    drop(waker);
    done
}

// Wakes the task, and runs it from the queue, so often.
fn wake_and_pop<'x, R: Wait + Drop + Copy, B: Allocator + Copy>(
    queue: &'x Queue<R, Pending, B>,
    waker: &QueueWaker<'x, R, Pending, B>,
    count: u64,
) -> Result<(), Failure> {
    for _ in 0..count {
        waker.wake_by_ref();
        let Some(runnable) = queue.pop() else {
            return Err(Failure::Unexpected);
        };
        runnable.run();
    }
    Ok(())
}

/// Runs a task whose poll wakes it, which goes through a place without a lock.
pub fn wake_in_run<R: Wait + Drop + Copy, B: Allocator + Copy>(
    rt: R,
    alloc: B,
    count: u64,
) -> Result<(), Failure> {
    let slot = Slot::new(rt, alloc);
    let (runnable, task) = slot.spawn(Yielding::new(u64::MAX))?;
    slot.put(runnable);
    let done = take_and_run(&slot, count);
    drop(task);
    drop(slot.take());
    done
}

// Runs the task from the place so often.
fn take_and_run<R: Wait + Drop + Copy, B: Allocator + Copy>(
    slot: &Slot<R, Yielding, B>,
    count: u64,
) -> Result<(), Failure> {
    for _ in 0..count {
        let Some(runnable) = slot.take() else {
            return Err(Failure::Unexpected);
        };
        runnable.run();
    }
    Ok(())
}

/// Wakes a task that is scheduled.
pub fn wake_scheduled<R: Wait + Drop + Copy, B: Allocator + Copy>(
    rt: R,
    alloc: B,
    count: u64,
) -> Result<(), Failure> {
    let queue = Queue::new(rt, alloc);
    let parties = queue.spawn_with_waker(Pending)?;
    wake_often(&parties.2, count);
    drop(parties);
    Ok(())
}

// Wakes the task so often.
fn wake_often<R: Wait + Drop + Copy, F: Yields, B: Allocator + Copy>(
    waker: &QueueWaker<'_, R, F, B>,
    count: u64,
) {
    for _ in 0..count {
        waker.wake_by_ref();
    }
}

/// Wakes a task that is completed.
pub fn wake_completed<R: Wait + Drop + Copy, B: Allocator + Copy>(
    rt: R,
    alloc: B,
    count: u64,
) -> Result<(), Failure> {
    let queue = Queue::new(rt, alloc);
    let (runnable, task, waker) = queue.spawn_with_waker(Ready(1))?;
    runnable.run();
    wake_often(&waker, count);
    drop((task, waker));
    Ok(())
}

/// Asks a Task whose task is completed whether it is finished.
pub fn is_finished<R: Wait + Drop + Copy, B: Allocator + Copy>(
    rt: R,
    alloc: B,
    count: u64,
) -> Result<(), Failure> {
    let queue = Queue::new(rt, alloc);
    let (runnable, mut task) = queue.spawn(Ready(1))?;
    runnable.run();
    ask_often(&mut task, count)
}

// Asks a Task so often, which is to be finished each time.
fn ask_often<R: Wait + Drop + Copy, B: Allocator + Copy>(
    task: &mut QueueTask<'_, R, Ready, B>,
    count: u64,
) -> Result<(), Failure> {
    for _ in 0..count {
        if !task.is_finished() {
            return Err(Failure::Unexpected);
        }
    }
    Ok(())
}

/// Polls a Task whose task is scheduled, which registers the awaiter anew.
pub fn register_awaiter<R: Wait + Drop + Copy, B: Allocator + Copy>(
    rt: R,
    alloc: B,
    count: u64,
) -> Result<(), Failure> {
    let queue = Queue::new(rt, alloc);
    let (runnable, mut task) = queue.spawn(Pending)?;
    let done = poll_often(&mut task, count);
    drop((runnable, task));
    done
}

// Polls a Task so often, which is to be pending each time.
fn poll_often<R: Wait + Drop + Copy, B: Allocator + Copy>(
    task: &mut QueueTask<'_, R, Pending, B>,
    count: u64,
) -> Result<(), Failure> {
    for _ in 0..count {
        let TaskPoll::Pending = task.poll(&Nobody) else {
            return Err(Failure::Unexpected);
        };
    }
    Ok(())
}

/// Clones a waker and drops the clone.
pub fn clone_and_drop<R: Wait + Drop + Copy, B: Allocator + Copy>(
    rt: R,
    alloc: B,
    count: u64,
) -> Result<(), Failure> {
    let queue = Queue::new(rt, alloc);
    let parties = queue.spawn_with_waker(Pending)?;
    let done = clone_often(&parties.2, count);
    drop(parties);
    done
}

// Clones a waker so often, and drops each clone.
fn clone_often<R: Wait + Drop + Copy, B: Allocator + Copy>(
    waker: &QueueWaker<'_, R, Pending, B>,
    count: u64,
) -> Result<(), Failure> {
    for _ in 0..count {
        let Ok(clone) = waker.try_clone() else {
            return Err(Failure::Unexpected);
        };
        drop(clone);
    }
    Ok(())
}
