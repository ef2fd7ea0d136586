//! Calls of the handles of a race, each in a function of its own that is generic in `R` alone: so each is proved once,
//! and a test that makes it costs little more.

use crate::races::awaiter::RaceAwaiter;
use crate::races::raced::{RaceCancel, RaceOutput, RaceRunnable, RaceTask, RaceWaker};
use async_task::{TaskClosed, TaskPoll};
use std::process::Abort;
use std::sync::Wait;

/// A waker of a Runnable. Stops where it is refused.
pub fn waker_of<'x, R: Wait + Abort + Drop + Copy>(
    rt: &R,
    runnable: &RaceRunnable<'x, R>,
) -> RaceWaker<'x, R> {
    match runnable.waker() {
        Ok(waker) => waker,
        Err(_) => panic!(rt; "the first waker was refused"),
    }
}

/// Runs: what the run answers.
pub fn run<R: Wait + Drop + Copy>(runnable: RaceRunnable<'_, R>) -> bool {
    runnable.run().0
}

/// Polls a Task.
pub fn poll<R: Wait + Drop + Copy>(
    task: &mut RaceTask<'_, R>,
    awaiter: &RaceAwaiter,
) -> TaskPoll<Result<RaceOutput, TaskClosed>> {
    task.poll(awaiter)
}

/// Polls a Task: whether it is pending.
pub fn is_pending<R: Wait + Drop + Copy>(
    task: &mut RaceTask<'_, R>,
    awaiter: &RaceAwaiter,
) -> bool {
    matches!(task.poll(awaiter), TaskPoll::Pending)
}

/// Detaches a Task.
pub fn detach<R: Wait + Drop + Copy>(task: RaceTask<'_, R>) {
    task.detach();
}

/// Polls a Cancel.
pub fn poll_cancel<R: Wait + Drop + Copy>(
    cancel: &mut RaceCancel<'_, R>,
    awaiter: &RaceAwaiter,
) -> TaskPoll<Option<RaceOutput>> {
    cancel.poll(awaiter)
}
