//! A worker that calls what it was given before each rest: that a rest ends at the instant of the answer, and that a busy worker calls it, too.

use crate::calls::{drop_pool, drop_task, drop_turns, guest_task, new_guests, new_pool, turns_of};
use crate::guest::{Errand, GuestPool, GuestTurns, shares_and_polls};
use std::alloc::Global;
use std::process::Abort;
use std::sync::Wait;
use std::sync::atomic::{AtomicU64, Ordering};
use std::time::{Clock, Duration, Instant};

// How many milliseconds a worker waits until it ends its pool.
const SHORT: u64 = 20;

// How many seconds are longer than any wake takes.
const LONG: u64 = 10;

// What a worker has beside its tasks: how often it was called, and when and how it ends its pool.
#[derive(Drop)]
struct Watch<'a, R: Wait + Drop + Copy> {
    pool: &'a GuestPool<R>,
    calls: AtomicU64,
    // The last call.
    last: u64,
    // No call before it is the last one.
    end: Instant,
}

impl<'a, R: Wait + Clock + Drop + Copy> Watch<'a, R> {
    // Ends the pool, if it is time. Answers the end.
    fn call(&self) -> Option<Instant> {
        let calls = self.calls.fetch_add(1, Ordering::SeqCst);
        let now = Instant::now(&self.pool.rt()).ok()?;
        if calls.saturating_add(1) >= self.last && self.end <= now {
            self.pool.shutdown();
        }
        Some(self.end)
    }
}

// Is the worker, as `Turns::work_with` is. The prover takes that call as it takes `tick`.
fn work_with<R: Wait + Clock + Drop + Copy + 'static>(
    turns: &mut GuestTurns<'_, R>,
    watch: &Watch<'_, R>,
) {
    turns.work_with(|| watch.call());
}

// How long a worker without tasks is one that ends its pool after a while.
fn work_for_a_while<R: Wait + Clock + Abort + Drop + Copy + 'static>(
    rt: R,
    alloc: Global,
) -> Duration {
    let pool = new_pool(rt, alloc, 1);
    let mut turns = turns_of(&pool, 0);
    let begin = Instant::now(&rt).expect(&rt, "refused");
    let watch = Watch {
        pool: &pool,
        calls: AtomicU64::new(0),
        last: 1,
        end: begin
            .checked_add(Duration::from_millis(SHORT))
            .expect(&rt, "refused"),
    };
    work_with(&mut turns, &watch);
    let worked = begin.elapsed(&rt).expect(&rt, "refused");
    drop(watch);
    drop_turns(turns);
    drop_pool(pool);
    worked
}

#[test]
fn a_rest_ends_at_the_instant_that_the_worker_was_told(rt: HostRuntime) {
    let worked = work_for_a_while(rt, rt.alloc());
    assert!(rt; Duration::from_millis(SHORT) <= worked && worked.as_secs() < LONG);
}

// How many polls there are on a worker that always has a task, and ends its pool at the third call.
fn poll_until_third_call<R: Wait + Clock + Abort + Drop + Copy + 'static>(
    rt: R,
    alloc: Global,
) -> u64 {
    let pool = new_pool(rt, alloc, 1);
    let guests = new_guests(&rt, alloc, 1);
    let task = guest_task(&pool, 0, Errand::GiveWay(10_000), &guests);
    let mut turns = turns_of(&pool, 0);
    let watch = Watch {
        pool: &pool,
        calls: AtomicU64::new(0),
        last: 3,
        end: Instant::now(&rt).expect(&rt, "refused"),
    };
    work_with(&mut turns, &watch);
    drop(watch);
    drop_turns(turns);
    drop_task(task);
    drop_pool(pool);
    shares_and_polls(&guests).1
}

// 63 turns before the first call, and two times 64 until the third.
#[test]
fn a_busy_worker_is_asked_at_each_64th_turn(rt: HostRuntime) {
    assert!(rt; poll_until_third_call(rt, rt.alloc()) == 191);
}
