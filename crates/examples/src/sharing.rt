//! Futures that are written for any waker, as tasks of a pool: the type of its futures is one of this file, round `Sharing`. A worker adds up what a group of them answers.
ghost use Rattle.std.specs.Prelude.{⊤};

use async_task::{Future, Poll, Wake, Yields};
use executor::shared_waker::{PoolSharedWaker, Sharing};
use executor::{BellAwaiter, Pool, PoolGroup, PoolWaker, Turns, generic};
use future_parts::{Join, YieldNow, join, yield_now};
use std::alloc::Global;
use std::sync::Wait;
use std::thread::{self, Threads};

const MEMBERS: u64 = 10;

/// Lets other tasks run twice over, and answers its number.
#[derive(Drop)]
struct Numbered {
    number: u64,
    rests: Join<YieldNow, YieldNow>,
}

impl Yields for Numbered {
    type Output = u64;
}

impl<W: Wake> Future<W> for Numbered {
    ghost polled = { λ _ _ _ _. ⊤ };

    fn poll(&mut self, waker: &W) -> Poll<u64> {
        match self.rests.poll(waker) {
            Poll::Ready(_) => Poll::Ready(self.number),
            Poll::Pending => Poll::Pending,
        }
    }
}

/// A future of the pool. It is named at the shared waker of a pool by aliases and functions alone.
#[derive(Drop)]
struct Member<W: Wake> {
    inner: Sharing<Numbered, W>,
}

impl<W: Wake> Yields for Member<W> {
    type Output = u64;
}

type Own<R> = Member<PoolSharedWaker<R>>;

type OwnWaker<'x, R> = PoolWaker<'x, R, Own<R>, BellAwaiter<R>>;

type OwnPool<R> = Pool<R, Own<R>, BellAwaiter<R>>;

type OwnTurns<'x, R> = Turns<'x, R, Own<R>, BellAwaiter<R>>;

type OwnGroup<'x, R> = PoolGroup<'x, R, Own<R>>;

impl<'x, R: Wait + Drop + Copy> Future<OwnWaker<'x, R>> for Member<PoolSharedWaker<R>> {
    ghost polled = { λ _ _ _ _. ⊤ };

    fn poll(&mut self, waker: &OwnWaker<'x, R>) -> Poll<u64> {
        self.inner.poll(waker)
    }
}

fn spawn_all<'x, R: Wait + Drop + Copy>(
    pool: &'x OwnPool<R>,
    group: &mut OwnGroup<'x, R>,
) -> Option<()> {
    for number in 0..MEMBERS {
        let rests = join(yield_now(), yield_now());
        let inner = Sharing::new(Numbered { number, rests });
        group.push(pool.spawn(Member { inner }).ok()?).ok()?;
    }
    Some(())
}

// What all members answer, added up. This worker runs tasks meanwhile.
fn add_up<'x, R: Wait + Drop + Copy>(
    turns: &mut OwnTurns<'x, R>,
    group: &mut OwnGroup<'x, R>,
) -> u64 {
    let mut sum = 0u64;
    for _ in 0..MEMBERS {
        match generic::next_member(turns, group) {
            Ok(Some(ended)) => sum = sum.saturating_add(ended.answer.unwrap_or(0)),
            _ => return sum,
        }
    }
    sum
}

// Runs the tasks on this thread and another one, until all members have ended.
fn run<'x, R: Wait + Threads + Drop + Copy + Send + Sync>(
    pool: &'x OwnPool<R>,
    turns: &mut OwnTurns<'x, R>,
    group: &mut OwnGroup<'x, R>,
) -> u64 {
    let (_, sum) = thread::join(
        &pool.rt(),
        || generic::run(pool, 1),
        || {
            let sum = add_up(turns, group);
            pool.shutdown();
            sum
        },
    );
    sum
}

fn run_in<R: Wait + Threads + Drop + Copy + Send + Sync>(pool: &OwnPool<R>) -> Option<u64> {
    let mut group = OwnGroup::new(pool.rt(), pool.alloc(), MEMBERS as usize).ok()?;
    spawn_all(pool, &mut group)?;
    let mut turns = pool.turns(0).ok()?;
    Some(run(pool, &mut turns, &mut group))
}

/// The sum of the numbers of ten tasks. `None` where there was no memory.
pub fn sum_of_numbers<R: Wait + Threads + Drop + Copy + Send + Sync>(
    rt: R,
    alloc: Global,
) -> Option<u64> {
    let pool = OwnPool::new(rt, alloc, 2).ok()?;
    run_in(&pool)
}
