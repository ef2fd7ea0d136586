//! The ends of a pool: it finishes what is queued, or it is shut down; and how much is queued.

use crate::calls::{
    all_turns, drop_all, drop_pool, drop_tasks, guest_tasks, new_guests, new_pool,
    refusal_of_spawn, shut_down, work_both,
};
use crate::guest::{GuestTask, output_of, shares_and_polls};
use executor::SpawnRefusal;
use std::alloc::Global;
use std::process::Abort;
use std::sync::Wait;
use std::thread::{self, Threads};

// How many of the tasks have answered 1.
fn answers<R: Wait + Drop + Copy>(tasks: &mut Vec<GuestTask<'_, R>>) -> usize {
    let mut answered = 0usize;
    for task in tasks.iter_mut() {
        if output_of(task) == Some(1) {
            answered = answered.saturating_add(1);
        }
    }
    answered
}

// Whether both workers of a pool that finishes run what is queued, and nothing is taken any more.
fn finish_with_work<R: Wait + Abort + Threads + Drop + Copy + Send + Sync + 'static>(
    rt: R,
    alloc: Global,
) -> bool {
    let guests = new_guests(&rt, alloc, 100);
    let pool = new_pool(rt, alloc, 2);
    let mut tasks = guest_tasks(&pool, 0, 100, &guests);
    pool.finish();
    pool.finish();
    let refused = refusal_of_spawn(&pool, 2, &guests);
    let mut all = all_turns(&pool);
    work_both(&rt, &mut all);
    let (_, polls) = shares_and_polls(&guests);
    let answered = answers(&mut tasks);
    let is_shut_down = pool.is_shut_down();
    drop_all(all);
    drop_tasks(tasks);
    drop_pool(pool);
    refused == Some(SpawnRefusal::Stopped) && answered == 100 && polls == 1100 && !is_shut_down
}

// 100 tasks give way ten times each, and so are queued again after the call. Both workers end by themselves, and a second call changes nothing.
#[test]
fn a_pool_that_finishes_runs_what_is_queued(rt: HostRuntime) {
    assert!(rt; finish_with_work(rt, rt.alloc()));
}

// Whether workers that have nothing to do end.
fn finish_without_work<R: Wait + Abort + Threads + Drop + Copy + Send + Sync + 'static>(
    rt: R,
    alloc: Global,
) -> bool {
    let pool = new_pool(rt, alloc, 2);
    let mut all = all_turns(&pool);
    let _ = thread::join(&rt, || work_both(&rt, &mut all), || pool.finish());
    let left = pool.queued();
    drop_all(all);
    drop_pool(pool);
    left == 0
}

// Two workers may sleep already as the pool finishes: they end.
#[test]
fn workers_without_work_end_as_the_pool_finishes(rt: HostRuntime) {
    assert!(rt; finish_without_work(rt, rt.alloc()));
}

// Whether two shutdowns say how much was queued, and nothing is left.
fn shut_down_what_is_queued<R: Wait + Abort + Drop + Copy + 'static>(rt: R, alloc: Global) -> bool {
    let guests = new_guests(&rt, alloc, 5);
    let pool = new_pool(rt, alloc, 1);
    let own = guest_tasks(&pool, 0, 3, &guests);
    let outside = guest_tasks(&pool, 1, 2, &guests);
    let before = pool.queued();
    let cancelled = [shut_down(&pool), shut_down(&pool)];
    let after = pool.queued();
    let (shares, polls) = shares_and_polls(&guests);
    drop_tasks(own);
    drop_tasks(outside);
    drop_pool(pool);
    before == 5 && cancelled == [5, 0] && after == 0 && shares == 1 && polls == 0
}

// Three at a worker's queue and two from outside.
#[test]
fn a_shutdown_says_how_much_was_queued(rt: HostRuntime) {
    assert!(rt; shut_down_what_is_queued(rt, rt.alloc()));
}
