//! Fan-out and fan-in on a pool of two workers: eight tasks add up parts of a list, and one thread adds up what they answer. Where one of them fails, the others are cancelled.
ghost use Rattle.std.specs.Prelude.{⊤};

use async_task::{Future, Poll, Yields};
use executor::{BellAwaiter, Pool, PoolGroup, PoolWaker, Turns, generic};
use std::alloc::Global;
use std::ops::Range;
use std::sync::Wait;
use std::thread::{self, Threads};

const PARTS: u64 = 8;

/// Why there is no sum.
#[derive(Clone, Copy, Debug, PartialEq, Eq)]
pub enum Failed {
    /// This part failed.
    Part(u64),
    /// A task was closed.
    Closed,
}

/// Adds up the numbers of a part, one at each poll.
#[derive(Drop)]
struct Sum {
    numbers: Range<u64>,
    sum: u64,
    fails: bool,
}

impl Yields for Sum {
    type Output = Result<u64, Failed>;
}

type SumWaker<'x, R> = PoolWaker<'x, R, Sum, BellAwaiter<R>>;

impl<'x, R: Wait + Drop + Copy> Future<SumWaker<'x, R>> for Sum {
    ghost polled = { λ _ _ _ _. ⊤ };

    fn poll(&mut self, waker: &SumWaker<'x, R>) -> Poll<Result<u64, Failed>> {
        match self.numbers.next() {
            None => return Poll::Ready(Ok(self.sum)),
            Some(number) if self.fails && number % 10 == 5 => {
                return Poll::Ready(Err(Failed::Part(number / 10)));
            }
            Some(number) => self.sum = self.sum.saturating_add(number),
        }
        waker.wake_by_ref();
        Poll::Pending
    }
}

type SumPool<R> = Pool<R, Sum, BellAwaiter<R>>;

type SumTurns<'x, R> = Turns<'x, R, Sum, BellAwaiter<R>>;

type SumGroup<'x, R> = PoolGroup<'x, R, Sum>;

// Spawns a task for each part.
fn spawn_parts<'x, R: Wait + Drop + Copy>(
    pool: &'x SumPool<R>,
    group: &mut SumGroup<'x, R>,
    failing: Option<u64>,
) -> Option<()> {
    for part in 0..PARTS {
        let sum = Sum {
            numbers: part * 10..part * 10 + 10,
            sum: 0,
            fails: failing == Some(part),
        };
        group.push(pool.spawn(sum).ok()?).ok()?;
    }
    Some(())
}

// Adds up what all members answer. The first one that fails cancels the others.
fn sum_of<'x, R: Wait + Drop + Copy>(
    turns: &mut SumTurns<'x, R>,
    group: &mut SumGroup<'x, R>,
) -> Result<u64, Failed> {
    let mut sum = 0u64;
    for _ in 0..PARTS {
        let answer = match generic::next_member(turns, group) {
            Ok(Some(ended)) => ended.answer.unwrap_or(Err(Failed::Closed)),
            _ => Err(Failed::Closed),
        };
        match answer {
            Ok(part) => sum = sum.saturating_add(part),
            Err(failed) => {
                group.abort_all();
                return Err(failed);
            }
        }
    }
    Ok(sum)
}

// Waits for the members on this thread, which runs tasks meanwhile, as another one does.
fn run<'x, R: Wait + Threads + Drop + Copy + Send + Sync>(
    pool: &'x SumPool<R>,
    turns: &mut SumTurns<'x, R>,
    group: &mut SumGroup<'x, R>,
) -> Result<u64, Failed> {
    let (_, sum) = thread::join(
        &pool.rt(),
        || generic::run(pool, 1),
        || {
            let sum = sum_of(turns, group);
            pool.shutdown();
            sum
        },
    );
    sum
}

fn run_in<R: Wait + Threads + Drop + Copy + Send + Sync>(
    pool: &SumPool<R>,
    failing: Option<u64>,
) -> Option<Result<u64, Failed>> {
    let mut group = SumGroup::new(pool.rt(), pool.alloc(), PARTS as usize).ok()?;
    spawn_parts(pool, &mut group, failing)?;
    let mut turns = pool.turns(0).ok()?;
    Some(run(pool, &mut turns, &mut group))
}

/// The sum of the numbers below 80, or which part of them failed: `failing`, if there is such a part. `None` where there was no memory.
pub fn sum_in_parts<R: Wait + Threads + Drop + Copy + Send + Sync>(
    rt: R,
    alloc: Global,
    failing: Option<u64>,
) -> Option<Result<u64, Failed>> {
    let pool = SumPool::new(rt, alloc, 2).ok()?;
    run_in(&pool, failing)
}
