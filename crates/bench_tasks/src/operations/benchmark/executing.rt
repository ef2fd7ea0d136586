//! An executor with one queue: many tasks, each of which gives way a number of times.

use crate::failure::Failure;
use crate::operations::queue::Queue;
use crate::operations::task_futures::Yielding;
use std::alloc::{AllocError, Allocator};
use std::sync::Wait;

// Room in the queue: as many as the largest number of tasks.
const ROOM: usize = 10_000;

/// Spawns and detaches `tasks` tasks, each of which gives way `yields` times, and runs all to their end; and this until there were `count` tasks.
/// The answer is how many there were, which may be more.
pub fn execute<R: Wait + Drop + Copy, B: Allocator + Copy>(
    rt: R,
    alloc: B,
    tasks: u64,
    yields: u64,
    count: u64,
) -> Result<u64, Failure> {
    let queue = Queue::new(rt, alloc);
    queue.reserve(ROOM)?;
    let mut done = 0u64;
    for _ in 0..count {
        if done >= count {
            break;
        }
        schedule_all(&queue, tasks, yields)?;
        run_all(rt, &queue);
        done = done.saturating_add(tasks);
    }
    Ok(done)
}

// Spawns, detaches and schedules that many tasks.
fn schedule_all<R: Wait + Drop + Copy, B: Allocator + Copy>(
    queue: &Queue<R, Yielding, B>,
    tasks: u64,
    yields: u64,
) -> Result<(), AllocError> {
    for _ in 0..tasks {
        let (runnable, task) = queue.spawn(Yielding::new(yields))?;
        task.detach();
        runnable.schedule();
    }
    Ok(())
}

// Runs what is in the queue, until it is empty.
fn run_all<R: Wait + Drop + Copy, B: Allocator + Copy>(rt: R, queue: &Queue<R, Yielding, B>) {
    for _ in rt.forever() {
        let Some(runnable) = queue.pop() else {
            return;
        };
        runnable.run();
    }
}
