//! Tasks from their spawn to their end.

use crate::failure::Failure;
use crate::operations::queue::{Queue, QueueTask};
use crate::operations::task_futures::Ready;
use async_task::TaskPoll;
use executor_parts::Nobody;
use std::alloc::{AllocError, Allocator};
use std::sync::Wait;

/// Spawns, runs to the output, polls the Task for it, and drops the Task.
pub fn run_and_poll<R: Wait + Drop + Copy, B: Allocator + Copy>(
    rt: R,
    alloc: B,
    count: u64,
) -> Result<(), Failure> {
    let queue = Queue::new(rt, alloc);
    for number in 0..count {
        run_and_poll_one(&queue, number)?;
    }
    Ok(())
}

fn run_and_poll_one<R: Wait + Drop + Copy, B: Allocator + Copy>(
    queue: &Queue<R, Ready, B>,
    number: u64,
) -> Result<(), Failure> {
    let (runnable, mut task) = queue.spawn(Ready(number))?;
    runnable.run();
    take_output(&mut task)
}

// Polls a Task for its output.
fn take_output<R: Wait + Drop + Copy, B: Allocator + Copy>(
    task: &mut QueueTask<'_, R, Ready, B>,
) -> Result<(), Failure> {
    match task.poll(&Nobody) {
        TaskPoll::Ready(Ok(_)) => Ok(()),
        _ => Err(Failure::Unexpected),
    }
}

/// Spawns, detaches, and runs to the output, which the run drops.
pub fn detach_and_run<R: Wait + Drop + Copy, B: Allocator + Copy>(
    rt: R,
    alloc: B,
    count: u64,
) -> Result<(), Failure> {
    let queue = Queue::new(rt, alloc);
    for number in 0..count {
        detach_and_run_one(&queue, number)?;
    }
    Ok(())
}

fn detach_and_run_one<R: Wait + Drop + Copy, B: Allocator + Copy>(
    queue: &Queue<R, Ready, B>,
    number: u64,
) -> Result<(), AllocError> {
    let (runnable, task) = queue.spawn(Ready(number))?;
    task.detach();
    runnable.run();
    Ok(())
}

/// Spawns, polls the Task, which registers an awaiter, runs to the output, polls the Task for it, and drops the Task.
pub fn poll_run_and_poll<R: Wait + Drop + Copy, B: Allocator + Copy>(
    rt: R,
    alloc: B,
    count: u64,
) -> Result<(), Failure> {
    let queue = Queue::new(rt, alloc);
    for number in 0..count {
        poll_run_and_poll_one(&queue, number)?;
    }
    Ok(())
}

fn poll_run_and_poll_one<R: Wait + Drop + Copy, B: Allocator + Copy>(
    queue: &Queue<R, Ready, B>,
    number: u64,
) -> Result<(), Failure> {
    let (runnable, mut task) = queue.spawn(Ready(number))?;
    let TaskPoll::Pending = task.poll(&Nobody) else {
        return Err(Failure::Unexpected);
    };
    runnable.run();
    take_output(&mut task)
}

/// Spawns, and drops the Runnable and then the Task.
pub fn drop_both<R: Wait + Drop + Copy, B: Allocator + Copy>(
    rt: R,
    alloc: B,
    count: u64,
) -> Result<(), Failure> {
    let queue = Queue::new(rt, alloc);
    for number in 0..count {
        drop_both_of_one(&queue, number)?;
    }
    Ok(())
}

fn drop_both_of_one<R: Wait + Drop + Copy, B: Allocator + Copy>(
    queue: &Queue<R, Ready, B>,
    number: u64,
) -> Result<(), AllocError> {
    let (runnable, task) = queue.spawn(Ready(number))?;
    drop(runnable);
    drop(task);
    Ok(())
}
