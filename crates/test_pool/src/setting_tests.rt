//! What a pool is made with, and what its workers count.
ghost use Rattle.std.specs.Prelude.{⊤};

use crate::calls::{
    drop_pool, drop_task, drop_tasks, drop_turns, guest_task, guest_tasks, new_guests, tick,
    turns_of,
};
use crate::guest::{Errand, GuestPool, output_of};
use async_task::{Future, Poll, Yields};
use executor::{Pool, PoolWaker, Settings, WithShared, WorkerCounts};
use executor_parts::Nobody;
use std::alloc::Global;
use std::process::Abort;
use std::sync::Wait;
use std::sync::atomic::{AtomicU64, Ordering};

// A pool of two workers with these settings.
fn pool_with<R: Wait + Abort + Drop + Copy>(
    rt: R,
    alloc: Global,
    settings: Settings,
) -> GuestPool<R> {
    GuestPool::with_settings(rt, alloc, alloc, 2, settings).expect(&rt, "refused")
}

// What a worker counts of which two turns run tasks, where ten wait at the queue of another worker, which has no thread; and whether both turns did.
fn count_two<R: Wait + Abort + Drop + Copy + 'static>(
    rt: R,
    alloc: Global,
    settings: Settings,
) -> ([bool; 2], WorkerCounts) {
    let guests = new_guests(&rt, alloc, 0);
    let pool = pool_with(rt, alloc, settings);
    let tasks = guest_tasks(&pool, 1, 10, &guests);
    let mut turns = turns_of(&pool, 0);
    let ran = [tick(&mut turns), tick(&mut turns)];
    let counted = turns.counts();
    drop_turns(turns);
    drop_tasks(tasks);
    drop_pool(pool);
    (ran, counted)
}

// The first turn takes half, and the second what that has taken.
#[test]
fn a_worker_counts_what_it_takes(rt: HostRuntime) {
    let counts = WorkerCounts {
        found: 2,
        stolen: 5,
        sleeps: 0,
    };
    assert!(rt; count_two(rt, rt.alloc(), Settings::new()) == ([true; 2], counts));
}

// The first turn takes one, which gives way, and the second has that one again.
#[test]
fn a_batch_is_as_small_as_it_was_set(rt: HostRuntime) {
    let counts = WorkerCounts {
        found: 2,
        stolen: 1,
        sleeps: 0,
    };
    assert!(rt;
        count_two(
            rt,
            rt.alloc(),
            Settings::new().batch(0).room(16).search_looks(0)
        ) == ([true; 2], counts)
    );
}

// Whether a worker that looks outside first at each look runs what waits there.
fn look_outside_first<R: Wait + Abort + Drop + Copy + 'static>(rt: R, alloc: Global) -> bool {
    let guests = new_guests(&rt, alloc, 0);
    let pool = pool_with(rt, alloc, Settings::new().outside_every(1));
    let mut own = guest_task(&pool, 0, Errand::GiveWay(0), &guests);
    let mut outside = guest_task(&pool, 2, Errand::GiveWay(0), &guests);
    let mut turns = turns_of(&pool, 0);
    let ran = tick(&mut turns);
    let answers = [output_of(&mut own), output_of(&mut outside)];
    drop_turns(turns);
    drop_task(own);
    drop_task(outside);
    drop_pool(pool);
    ran && answers == [None, Some(1)]
}

// The worker has a task of its own, and one waits outside.
#[test]
fn what_comes_from_outside_is_first_as_often_as_was_set(rt: HostRuntime) {
    assert!(rt; look_outside_first(rt, rt.alloc()));
}

/// A future that adds one to what its pool carries, and answers what was there.
#[derive(Drop)]
struct AddsOne;

impl Yields for AddsOne {
    type Output = u64;
}

impl<'x, 's, R: Wait + Drop + Copy> Future<
    PoolWaker<'x, WithShared<R, &'s AtomicU64>, AddsOne, Nobody>,
> for AddsOne {
    ghost polled = { λ _ _ _ _. ⊤ };

    fn poll(
        &mut self,
        waker: &PoolWaker<'x, WithShared<R, &'s AtomicU64>, AddsOne, Nobody>,
    ) -> Poll<u64> {
        let (pool, _) = waker.around();
        Poll::Ready(pool.shared().fetch_add(1, Ordering::SeqCst))
    }
}

// Runs two futures that add one to a count which the pool carries.
fn add_two<R: Wait + Abort + Drop + Copy>(rt: R, alloc: Global, count: &AtomicU64) {
    let pool: Pool<_, AddsOne, Nobody> = Pool::with_shared(rt, alloc, 1, count).expect(
        &rt, "refused",
    );
    let first = pool.spawn(AddsOne).expect(&rt, "refused");
    let second = pool.spawn(AddsOne).expect(&rt, "refused");
    let mut turns = pool.turns(0).expect(&rt, "refused");
    for _ in 0..2u64 {
        if let Some(runnable) = turns.next() {
            runnable.run();
        }
    }
    drop(turns);
    drop(first);
    drop(second);
}

#[test]
fn futures_reach_what_their_pool_carries(rt: HostRuntime) {
    let count = AtomicU64::new(40);
    add_two(rt, rt.alloc(), &count);
    assert!(rt; count.load(Ordering::SeqCst) == 42);
}
