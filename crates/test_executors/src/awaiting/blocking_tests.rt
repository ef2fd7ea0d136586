//! `block_on`, of a task that has ended, of one that another thread runs, of one that is closed, and of a Cancel.
use super::line::{Errand, Line, LineTask};
use executor_parts::{BlockOnError, block_on};
use std::alloc::Global;
use std::process::Abort;
use std::sync::Wait;
use std::thread::{self, Threads};

type Answers = [Result<u64, BlockOnError>; 2];

// Waits twice for a task that has ended before: the second time it is closed.
fn wait_for_ended<R: Wait + Abort + Drop + Copy>(rt: R, alloc: Global) -> Answers {
    let line = Line::new(rt, alloc, 1);
    let mut task = line.spawn(0, Errand::GiveWay(7));
    line.run();
    let first = block_on(rt, alloc, &mut task);
    [first, wait_for(rt, alloc, task)]
}

#[test]
fn block_on_gives_an_output_once(rt: HostRuntime) {
    let answers = wait_for_ended(rt, rt.alloc());
    assert!(rt; answers == [Ok(7), Err(BlockOnError::Closed)]);
}

// Waits for a task, and drops its Task.
fn wait_for<R: Wait + Drop + Copy>(
    rt: R,
    alloc: Global,
    mut task: LineTask<'_, R>,
) -> Result<u64, BlockOnError> {
    block_on(rt, alloc, &mut task)
}

// Runs a line on one thread, and waits for a task of it on another.
fn run_and_wait<'x, R: Wait + Threads + Drop + Copy + Send + Sync>(
    rt: R,
    alloc: Global,
    line: &'x Line<R>,
    task: LineTask<'x, R>,
) -> Result<u64, BlockOnError> {
    let (_, answer) = thread::join(&rt, || line.run(), move || wait_for(rt, alloc, task));
    answer
}

// Waits for a task that another thread runs meanwhile.
fn wait_for_other<R: Wait + Abort + Threads + Drop + Copy + Send + Sync>(
    rt: R,
    alloc: Global,
) -> Result<u64, BlockOnError> {
    let line = Line::new(rt, alloc, 1);
    let task = line.spawn(0, Errand::GiveWay(9));
    run_and_wait(rt, alloc, &line, task)
}

#[test]
fn block_on_sleeps_until_another_thread_has_run_the_task(rt: HostRuntime) {
    let answer = wait_for_other(rt, rt.alloc());
    assert!(rt; answer == Ok(9));
}

type Cancelled = [Result<Option<u64>, BlockOnError>; 2];

// Waits twice for a Cancel of a task.
fn cancel_twice<R: Wait + Drop + Copy>(rt: R, alloc: Global, task: LineTask<'_, R>) -> Cancelled {
    let mut cancel = task.cancel();
    let first = block_on(rt, alloc, &mut cancel);
    [first, block_on(rt, alloc, &mut cancel)]
}

// Cancels a task that was completed before, and one whose Runnable was dropped.
fn cancel_both<R: Wait + Abort + Drop + Copy>(rt: R, alloc: Global) -> [Cancelled; 2] {
    let line = Line::new(rt, alloc, 2);
    let completed = line.spawn(0, Errand::Answer(7));
    line.run();
    let closed = line.spawn(1, Errand::Answer(8));
    line.drop_next();
    [
        cancel_twice(rt, alloc, completed),
        cancel_twice(rt, alloc, closed),
    ]
}

#[test]
fn block_on_of_a_cancel_gives_an_output_once(rt: HostRuntime) {
    let answers = cancel_both(rt, rt.alloc());
    assert!(rt; answers == [[Ok(Some(7)), Ok(None)], [Ok(None), Ok(None)]]);
}
