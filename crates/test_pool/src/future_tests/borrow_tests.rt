//! Futures that borrow from the scope of the pool: what they read, and what they count together.
ghost use Rattle.std.specs.Prelude.{⊤};

use async_task::{Future, Poll, TaskPoll, Wake, Yields};
use executor::{Pool, PoolTask, PoolWaker};
use executor_parts::Nobody;
use std::alloc::Global;
use std::process::Abort;
use std::sync::Wait;
use std::sync::atomic::{AtomicU64, Ordering};
use std::thread::{self, Threads};

/// A future that sums a slice of its caller's, a number a poll, and ends the pool as the last of those that count together.
#[derive(Drop)]
struct SumOf<'d> {
    numbers: &'d [u64],
    next: usize,
    sum: u64,
    unfinished: &'d AtomicU64,
}

impl<'d> SumOf<'d> {
    fn new(numbers: &'d [u64], unfinished: &'d AtomicU64) -> SumOf<'d> {
        SumOf {
            numbers,
            next: 0,
            sum: 0,
            unfinished,
        }
    }
}

impl<'d> Yields for SumOf<'d> {
    type Output = u64;
}

impl<'d, 'x, R: Wait + Drop + Copy, A: Wake> Future<PoolWaker<'x, R, SumOf<'d>, A>> for SumOf<'d> {
    ghost polled = { λ _ _ _ _. ⊤ };

    fn poll(&mut self, waker: &PoolWaker<'x, R, SumOf<'d>, A>) -> Poll<u64> {
        match self.numbers.get(self.next) {
            Some(number) => {
                self.sum = self.sum.wrapping_add(*number);
                self.next = self.next.saturating_add(1);
                waker.wake_by_ref();
                Poll::Pending
            }
            None => {
                if self.unfinished.fetch_sub(1, Ordering::SeqCst) == 1 {
                    waker.around().0.shutdown();
                }
                Poll::Ready(self.sum)
            }
        }
    }
}

type SumPool<'d, R> = Pool<R, SumOf<'d>, Nobody>;

type SumTask<'x, 'd, R> = PoolTask<'x, R, SumOf<'d>, Nobody>;

fn spawned<'x, 'd, R: Wait + Abort + Drop + Copy>(
    pool: &'x SumPool<'d, R>,
    numbers: &'d [u64],
    unfinished: &'d AtomicU64,
) -> SumTask<'x, 'd, R> {
    pool.spawn(SumOf::new(numbers, unfinished))
        .expect(&pool.rt(), "refused")
}

// The output of a Task, which is dropped.
fn output_of<'x, 'd, R: Wait + Drop + Copy>(mut task: SumTask<'x, 'd, R>) -> Option<u64> {
    match task.poll(&Nobody) {
        TaskPoll::Ready(Ok(output)) => Some(output),
        _ => None,
    }
}

// The sums of these are 1275 up to 50, and 5050 up to 100.
fn numbers_up_to<R: Abort>(rt: &R, alloc: Global, last: u64) -> Vec<u64> {
    let mut numbers = Vec::new(alloc);
    for number in 1..=last {
        numbers.push(number).expect(rt, "refused");
    }
    numbers
}

// Is the worker of a number until the shutdown. `Pool::run` would do the same, but the prover takes no call of it for futures that borrow.
fn work<R: Wait + Abort + Drop + Copy>(pool: &SumPool<'_, R>, worker: usize) {
    let mut turns = pool.turns(worker).expect(&pool.rt(), "refused");
    for _ in pool.rt().forever() {
        let Some(runnable) = turns.await_next() else {
            break;
        };
        runnable.run();
    }
}

// All workers of a pool of one or two, each on a thread, until the shutdown.
fn work_all<R: Wait + Abort + Threads + Drop + Copy + Send + Sync>(pool: &SumPool<'_, R>) {
    if pool.workers() == 1 {
        work(pool, 0);
    } else {
        thread::join(&pool.rt(), || work(pool, 0), || work(pool, 1));
    }
}

// The sums that two tasks answer, whose futures borrow from here, on one worker or two.
fn sums_of<R: Wait + Abort + Threads + Drop + Copy + Send + Sync>(
    rt: R,
    alloc: Global,
    workers: usize,
) -> (Option<u64>, Option<u64>) {
    let low = numbers_up_to(&rt, alloc, 50);
    let high = numbers_up_to(&rt, alloc, 100);
    let unfinished = AtomicU64::new(2);
    let pool = SumPool::new(rt, alloc, workers).expect(&rt, "refused");
    let first = spawned(&pool, low.as_slice(), &unfinished);
    let second = spawned(&pool, high.as_slice(), &unfinished);
    work_all(&pool);
    (output_of(first), output_of(second))
}

#[test]
fn one_worker_runs_futures_that_borrow(rt: HostRuntime) {
    let sums = sums_of(rt, rt.alloc(), 1);
    assert!(rt; sums == (Some(1275), Some(5050)));
}

#[test]
fn two_workers_run_futures_that_borrow(rt: HostRuntime) {
    let sums = sums_of(rt, rt.alloc(), 2);
    assert!(rt; sums == (Some(1275), Some(5050)));
}
