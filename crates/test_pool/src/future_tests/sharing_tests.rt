//! Futures that are polled by the shared waker of their task: each poll has the pool keep the task's waker anew.
ghost use Rattle.std.specs.Prelude.{⊤};

use async_task::{Future, Poll, TaskPoll, Wake, Yields};
use executor::shared_waker::{PoolSharedWaker, Sharing};
use executor::{BellAwaiter, Pool, PoolTask, PoolWaker, Turns, wake_posted};
use std::alloc::Global;
use std::process::Abort;
use std::sync::Wait;

// More turns than the worker takes.
const TURNS: usize = 20;

// Wakes its task so often by the waker that it is polled by, and then answers how often it was polled.
#[derive(Drop)]
struct Repeats {
    left: u64,
    polls: u64,
}

impl Yields for Repeats {
    type Output = u64;
}

impl<W: Wake> Future<W> for Repeats {
    ghost polled = { λ _ _ _ _. ⊤ };

    fn poll(&mut self, waker: &W) -> Poll<u64> {
        self.polls = self.polls.saturating_add(1);
        if self.left == 0 {
            return Poll::Ready(self.polls);
        }
        self.left = self.left.saturating_sub(1);
        waker.wake_by_ref();
        Poll::Pending
    }
}

/// A future of the pool. It is named at the shared waker of a pool by aliases and functions alone.
#[derive(Drop)]
struct Member<W: Wake> {
    inner: Sharing<Repeats, W>,
}

impl<W: Wake> Yields for Member<W> {
    type Output = u64;
}

type Shares<R> = Member<PoolSharedWaker<R>>;

type SharesWaker<'x, R> = PoolWaker<'x, R, Shares<R>, BellAwaiter<R>>;

type SharesPool<R> = Pool<R, Shares<R>, BellAwaiter<R>>;

impl<'x, R: Wait + Drop + Copy> Future<SharesWaker<'x, R>> for Member<PoolSharedWaker<R>> {
    ghost polled = { λ _ _ _ _. ⊤ };

    fn poll(&mut self, waker: &SharesWaker<'x, R>) -> Poll<u64> {
        self.inner.poll(waker)
    }
}

// Wakes for the numbers that are posted, and runs what is queued, so many times.
fn take_turns<'x, R: Wait + Drop + Copy>(
    pool: &'x SharesPool<R>,
    turns: &mut Turns<'x, R, Shares<R>, BellAwaiter<R>>,
) {
    for _ in 0..TURNS {
        wake_posted((pool, 0));
        if let Some(runnable) = turns.next() {
            runnable.run();
        }
    }
}

// The output of the task. `None` where it has none yet.
fn output_of<'x, R: Wait + Drop + Copy>(
    pool: &'x SharesPool<R>,
    task: &mut PoolTask<'x, R, Shares<R>, BellAwaiter<R>>,
) -> Option<u64> {
    let awaiter = BellAwaiter::new(pool, 0)?;
    match task.poll(&awaiter) {
        TaskPoll::Ready(Ok(output)) => Some(output),
        _ => None,
    }
}

// What a task answers that is woken twice by its shared waker.
fn wake_twice<R: Wait + Abort + Drop + Copy>(rt: R, alloc: Global) -> Option<u64> {
    let pool = SharesPool::new(rt, alloc, 1).expect(&rt, "refused");
    let repeats = Repeats { left: 2, polls: 0 };
    let member = Member {
        inner: Sharing::new(repeats),
    };
    let mut task = pool.spawn(member).expect(&rt, "refused");
    let mut turns = pool.turns(0).expect(&rt, "refused");
    take_turns(&pool, &mut turns);
    output_of(&pool, &mut task)
}

// Each wake takes the waker out that was kept.
#[test]
fn each_wake_of_a_shared_waker_polls_its_task(rt: HostRuntime) {
    assert!(rt; wake_twice(rt, rt.alloc()) == Some(3));
}
