//! A future that borrows: it sums a slice of the caller's scope, which nobody copies and no owner counts.
//! The Task carries the borrow, so the slice cannot go before the last handle of the task is gone.
ghost use Rattle.std.specs.Prelude.{⊤};

use crate::last::DropsRunnables;
use async_task::{Future, Poll, Task, TaskPoll, Yields, spawn};
use executor_parts::Nobody;
use std::alloc::Global;
use std::sync::Wait;

/// A future that sums a slice.
#[derive(Drop)]
pub struct SumOf<'x> {
    /// What is summed.
    pub numbers: &'x [u64],
}

impl<'x> Yields for SumOf<'x> {
    type Output = u64;
}

impl<'x, W> Future<W> for SumOf<'x> {
    ghost polled = { λ _ _ _ _. ⊤ };

    fn poll(&mut self, _waker: &W) -> Poll<u64> {
        let mut sum = 0u64;
        for number in self.numbers {
            sum = sum.wrapping_add(*number);
        }
        Poll::Ready(sum)
    }
}

/// The sum of these numbers, by a task. `None` where there is no memory for the task.
pub fn sum_of<R: Wait + Drop + Copy>(rt: R, alloc: Global, numbers: &[u64]) -> Option<u64> {
    let (runnable, task) = spawn(rt, alloc, SumOf { numbers }, DropsRunnables, ()).ok()?;
    let mut task: Task<_, _, _, _, Nobody, ()> = task;
    runnable.run();
    match task.poll(&Nobody) {
        TaskPoll::Ready(Ok(sum)) => Some(sum),
        _ => None,
    }
}
