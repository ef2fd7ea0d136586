//! Tasks beside futures of the kit: a Task becomes one by `executor_parts::kit`, and the kit's combinators and `block_on` wait for it.
//! One thread runs the tasks, and this one sleeps until what it awaits is there.
ghost use Rattle.std.specs.Prelude.{⊤};

use crate::borrowed::SumOf;
use crate::last::DropsRunnables;
use async_task::{Runnable, spawn};
use executor_parts::kit::{Awaits, KitAwaiter};
use futures::executor::block_on;
use futures::future::{Either, join, ready, select};
use std::alloc::{AllocGlobal, Global};
use std::random::RandomSource;
use std::sync::Wait;
use std::thread::{self, Threads};

type Work<'x, R> = Runnable<R, SumOf<'x>, DropsRunnables, (), KitAwaiter, ()>;

type Sum<'x, R> = Awaits<R, SumOf<'x>, DropsRunnables, (), ()>;

// A task that sums a slice, and its Task as a future of the kit.
fn bridged<'x, R: Wait + Drop + Copy>(
    rt: R,
    alloc: Global,
    numbers: &'x [u64],
) -> Option<(Work<'x, R>, Sum<'x, R>)> {
    let (runnable, task) = spawn(rt, alloc, SumOf { numbers }, DropsRunnables, ()).ok()?;
    Some((runnable, Awaits::new(alloc, task).ok()?))
}

/// The sums of two slices by two tasks on another thread, joined with a number that the kit has ready. `None` where memory or a thread was refused.
pub fn joined<R: Wait + RandomSource + AllocGlobal + Threads + Drop + Copy + Send + Sync>(
    rt: R,
    alloc: Global,
    numbers: [&[u64]; 2],
) -> Option<(u64, u64, u64)> {
    let (first, left) = bridged(rt, alloc, numbers[0])?;
    let (second, right) = bridged(rt, alloc, numbers[1])?;
    let run = move || {
        first.run();
        second.run();
    };
    let answers = thread::scope(thread::scope_env(), &rt, |scope| {
        // Where no thread can be started the Runnables are dropped, which cancels the tasks.
        drop(scope.spawn(run));
        block_on(&rt, join(join(left, right), ready(7u64)))
    });
    let ((left, right), kit) = answers.ok()?;
    Some((left.ok()?, right.ok()?, kit))
}

/// The sum of whichever of two tasks ends first, which is the second: the other is cancelled with its future of the kit. `None` where memory was refused.
pub fn selected<R: Wait + RandomSource + AllocGlobal + Drop + Copy>(
    rt: R,
    alloc: Global,
    numbers: [&[u64]; 2],
) -> Option<u64> {
    let (first, left) = bridged(rt, alloc, numbers[0])?;
    let (second, right) = bridged(rt, alloc, numbers[1])?;
    second.run();
    let sum = match block_on(&rt, select(left, right)).ok()? {
        Either::Left((sum, _)) => sum.ok(),
        Either::Right((sum, _)) => sum.ok(),
    };
    first.run();
    sum
}
