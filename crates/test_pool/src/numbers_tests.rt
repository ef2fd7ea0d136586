//! The numbers of a pool: what a thread reads that has no turns, and that later turns of a worker count on.

use crate::calls::{
    drop_pool, drop_tasks, drop_turns, guest_tasks, new_guests, new_pool, refusal_of_run,
    shut_down, tick, turns_of,
};
use crate::guest::{GuestPool, Guests};
use executor::WorkerCounts;
use std::alloc::Global;
use std::process::Abort;
use std::sync::{Arc, Wait};
use std::thread::{self, Threads};
use std::time::{Clock, Duration, Instant};

/// How many seconds are longer than any wake takes.
const LONG: u64 = 10;

// Counts of a worker that found `found` Runnables, all at its own queue, and never slept.
fn found(found: u64) -> WorkerCounts {
    WorkerCounts {
        found,
        stolen: 0,
        sleeps: 0,
    }
}

// What a worker has shown once turns of its own have run three guests, each of which is polled eleven times.
fn run_three<R: Wait + Abort + Drop + Copy + 'static>(
    pool: &GuestPool<R>,
    guests: &Arc<Guests>,
) -> Option<WorkerCounts> {
    let tasks = guest_tasks(pool, 0, 3, guests);
    let mut turns = turns_of(pool, 0);
    for _ in 0..34u64 {
        tick(&mut turns);
    }
    let shown = pool.counts_of(0);
    drop_turns(turns);
    drop_tasks(tasks);
    shown
}

// What worker 0 of two has shown after each of two turns, and what there is of worker 2.
fn run_twice<R: Wait + Abort + Drop + Copy + 'static>(
    rt: R,
    alloc: Global,
) -> [Option<WorkerCounts>; 4] {
    let guests = new_guests(&rt, alloc, 0);
    let pool = new_pool(rt, alloc, 2);
    let before = pool.counts_of(0);
    let first = run_three(&pool, &guests);
    let second = run_three(&pool, &guests);
    let nobody = pool.counts_of(2);
    drop_pool(pool);
    [before, first, second, nobody]
}

#[test]
fn a_worker_counts_on_in_later_turns(rt: HostRuntime) {
    let shown = run_twice(rt, rt.alloc());
    assert!(rt; shown == [Some(found(0)), Some(found(33)), Some(found(66)), None]);
}

// How many workers the numbers of a pool have, and what is queued and kept, while five guests are queued of which one was polled.
fn look_at_queues<R: Wait + Abort + Drop + Copy + 'static>(
    rt: R,
    alloc: Global,
) -> (usize, usize, u64, usize, usize) {
    let guests = new_guests(&rt, alloc, 0);
    let pool = new_pool(rt, alloc, 3);
    let tasks = guest_tasks(&pool, 0, 5, &guests);
    let mut turns = turns_of(&pool, 0);
    tick(&mut turns);
    let seen = pool.numbers().expect(&rt, "refused");
    drop_turns(turns);
    drop_tasks(tasks);
    drop_pool(pool);
    (
        seen.workers.len(),
        seen.queued,
        seen.sleepers,
        seen.kept_wakers,
        seen.kept_tasks,
    )
}

#[test]
fn the_numbers_say_what_is_queued_and_kept(rt: HostRuntime) {
    assert!(rt; look_at_queues(rt, rt.alloc()) == (3, 5, 0, 0, 0));
}

// Whether worker 1 is seen asleep before long, after it has run a guest.
fn is_seen_asleep<R: Wait + Clock + Drop + Copy>(pool: &GuestPool<R>) -> bool {
    let rt = pool.rt();
    let Ok(begin) = Instant::now(&rt) else {
        return false;
    };
    for _ in 0..u64::MAX {
        let ran = pool.counts_of(1).map_or(0, |counts| counts.found);
        if ran == 11 && pool.bells().sleepers() == 1 {
            return true;
        }
        if begin.elapsed(&rt).map_or(LONG, |it| it.as_secs()) >= LONG {
            return false;
        }
        thread::sleep(&rt, Duration::from_micros(20));
    }
    false
}

// What this thread sees of a worker that runs one guest on another thread, and how often that has slept in the end.
fn watch_worker<R: Wait + Clock + Abort + Threads + Drop + Copy + Send + Sync + 'static>(
    rt: R,
    alloc: Global,
) -> (bool, u64) {
    let guests = new_guests(&rt, alloc, 0);
    let pool = new_pool(rt, alloc, 2);
    let tasks = guest_tasks(&pool, 1, 1, &guests);
    let (_, seen) = thread::join(
        &rt,
        || refusal_of_run(&pool, 1),
        || {
            let seen = is_seen_asleep(&pool);
            shut_down(&pool);
            seen
        },
    );
    let slept = pool.counts_of(1).map_or(0, |counts| counts.sleeps);
    drop_tasks(tasks);
    drop_pool(pool);
    (seen, slept)
}

#[test]
fn another_thread_sees_what_a_worker_counts(rt: HostRuntime) {
    let (seen, slept) = watch_worker(rt, rt.alloc());
    assert!(rt; seen && slept > 0);
}
