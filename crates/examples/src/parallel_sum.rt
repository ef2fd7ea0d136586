//! A parallel sum with a group: each half of a slice is a task of its own, and runs on a thread of its own.
//! The group hands the tasks out as they end; the sum is the same in whatever order that is.
ghost use Rattle.std.specs.Prelude.{⊤};

use crate::borrowed::SumOf;
use crate::last::DropsRunnables;
use async_task::{Runnable, spawn};
use executor_parts::{Awaiter, TaskGroup};
use std::alloc::Global;
use std::sync::Wait;
use std::thread::{self, Threads};

type Work<'x, R> = Runnable<R, SumOf<'x>, DropsRunnables, (), Awaiter<R>, ()>;

type Sums<'x, R> = TaskGroup<R, SumOf<'x>, DropsRunnables, (), Awaiter<R>, ()>;

// Spawns a task that sums a slice, and puts it into the group: its Runnable.
fn spawn_into<'x, R: Wait + Drop + Copy>(
    group: &mut Sums<'x, R>,
    rt: R,
    alloc: Global,
    numbers: &'x [u64],
) -> Option<Work<'x, R>> {
    let (runnable, task) = spawn(rt, alloc, SumOf { numbers }, DropsRunnables, ()).ok()?;
    group.push(task).ok()?;
    Some(runnable)
}

// Runs a task. In the closure of a thread the record of the run could not be dropped.
fn run<R: Wait + Drop + Copy>(work: Work<'_, R>) {
    work.run();
}

// The sum of what both members of the group answer.
fn total<R: Wait + Drop + Copy>(group: &mut Sums<'_, R>) -> Option<u64> {
    let mut total = 0u64;
    for _ in 0..2 {
        let ended = group.next().ok()??;
        total = total.wrapping_add(ended.answer.ok()?);
    }
    Some(total)
}

/// The sum of these numbers, in two tasks. `None` where there is no memory.
pub fn sum_in_two<R: Wait + Threads + Drop + Copy + Send + Sync>(
    rt: R,
    alloc: Global,
    numbers: &[u64],
) -> Option<u64> {
    let (left, right) = numbers.split_at(numbers.len() / 2);
    let mut group: Sums<'_, R> = TaskGroup::new(rt, alloc, 2).ok()?;
    let first = spawn_into(&mut group, rt, alloc, left)?;
    let second = spawn_into(&mut group, rt, alloc, right)?;
    thread::join(&rt, move || run(first), move || run(second));
    total(&mut group)
}
