//! Hostile use of a pool: a future that never yields, wakes after a shutdown, and calls that make no sense.
use crate::calls::{
    all_turns, drop_all, drop_pool, drop_task, drop_tasks, drop_turns, guest_task, guest_tasks,
    is_empty, keep, new_guests, new_pool, place_of_task, refusal_of_run, refusal_of_spawn,
    shut_down, tick, turns_of, work_both,
};
use crate::guest::{Errand, GuestPool, is_closed, output_of, shares_and_polls};
use async_task::TaskPoll;
use executor::{SpawnRefusal, TurnsError, poll_kept, wake_kept};
use executor_parts::Nobody;
use std::alloc::Global;
use std::process::Abort;
use std::sync::Wait;
use std::thread::Threads;
use work_queues::bells::MOST_WORKERS;

/// How many tasks wait behind the one that never yields.
const BEHIND: u64 = 100;

// Whether a future that never yields sees the tasks behind it end on the other worker, and nothing is left.
fn never_yield<R: Wait + Abort + Threads + Drop + Copy + Send + Sync + 'static>(
    rt: R,
    alloc: Global,
) -> bool {
    let guests = new_guests(&rt, alloc, BEHIND);
    let pool = new_pool(rt, alloc, 2);
    let mut task = guest_task(&pool, 0, Errand::SpinAndEnd, &guests);
    let tasks = guest_tasks(&pool, 0, BEHIND, &guests);
    let mut all = all_turns(&pool);
    work_both(&rt, &mut all);
    let answer = output_of(&mut task);
    drop_task(task);
    drop_tasks(tasks);
    let (left, _) = shares_and_polls(&guests);
    drop_all(all);
    drop_pool(pool);
    answer == Some(BEHIND) && left == 1
}

// The others stand in the queue of the same worker.
#[test]
fn a_future_that_never_yields_keeps_only_its_thread(rt: HostRuntime) {
    assert!(rt; never_yield(rt, rt.alloc()));
}

// Whether a task that wakes itself after it has shut the pool down is closed, and was polled once.
fn wake_late<R: Wait + Abort + Drop + Copy + 'static>(rt: R, alloc: Global) -> bool {
    let guests = new_guests(&rt, alloc, 0);
    let pool = new_pool(rt, alloc, 1);
    let mut task = guest_task(&pool, 1, Errand::ShutDown, &guests);
    let mut turns = turns_of(&pool, 0);
    let ran = tick(&mut turns);
    let ran_again = tick(&mut turns);
    let closed = is_closed(&mut task);
    let (left, polls) = shares_and_polls(&guests);
    drop_turns(turns);
    drop_task(task);
    drop_pool(pool);
    ran && !ran_again && closed && left == 1 && polls == 1
}

#[test]
fn a_wake_after_the_shutdown_does_nothing(rt: HostRuntime) {
    assert!(rt; wake_late(rt, rt.alloc()));
}

// How many workers a pool has that was asked for so many.
fn workers_of<R: Wait + Abort + Drop + Copy>(rt: R, alloc: Global, asked: usize) -> usize {
    new_pool(rt, alloc, asked).workers()
}

#[test]
fn a_pool_has_one_worker_at_least_and_has_a_most(rt: HostRuntime) {
    let few = workers_of(rt, rt.alloc(), 0);
    let many = workers_of(rt, rt.alloc(), MOST_WORKERS + 1);
    assert!(rt; few == 1 && many == MOST_WORKERS);
}

// Why the turns of a number are refused, if they are.
fn refusal_of<R: Wait + Drop + Copy>(pool: &GuestPool<R>, worker: usize) -> Option<TurnsError> {
    pool.turns(worker).err()
}

// Whether no turns are given for a worker that does not exist, and what is spawned there comes from outside.
fn use_a_missing_worker<R: Wait + Abort + Drop + Copy + 'static>(rt: R, alloc: Global) -> bool {
    let guests = new_guests(&rt, alloc, 1);
    let pool = new_pool(rt, alloc, 1);
    let refused = [refusal_of(&pool, 1), refusal_of_run(&pool, 1)];
    let mut task = guest_task(&pool, 99, Errand::GiveWay(0), &guests);
    pool.bells().interrupt_worker(99);
    let mut turns = turns_of(&pool, 0);
    let ran = tick(&mut turns);
    let answer = output_of(&mut task);
    drop_turns(turns);
    drop_task(task);
    drop_pool(pool);
    refused == [Some(TurnsError::NoSuchWorker); 2] && ran && answer == Some(1)
}

#[test]
fn a_worker_that_does_not_exist_is_refused_or_outside(rt: HostRuntime) {
    assert!(rt; use_a_missing_worker(rt, rt.alloc()));
}

// Why the turns of a number are refused, if they are: alone, and among those of all workers.
fn refusals<R: Wait + Drop + Copy>(pool: &GuestPool<R>, worker: usize) -> [Option<TurnsError>; 2] {
    [refusal_of(pool, worker), pool.all_turns().err()]
}

// Whether a worker is refused while its turns live, and is to be had once they are dropped.
fn take_turns_twice<R: Wait + Abort + Drop + Copy + 'static>(rt: R, alloc: Global) -> bool {
    let pool = new_pool(rt, alloc, 2);
    shut_down(&pool);
    let turns = turns_of(&pool, 0);
    let while_it_lives = refusals(&pool, 0);
    let beside_it = refusal_of_run(&pool, 0);
    let of_the_other = refusal_of(&pool, 1);
    drop_turns(turns);
    let once_dropped = refusals(&pool, 0);
    let after_it = refusal_of_run(&pool, 0);
    drop_pool(pool);
    let refused = Some(TurnsError::Taken);
    while_it_lives == [refused, refused]
        && beside_it == refused
        && of_the_other.is_none()
        && once_dropped == [None, None]
        && after_it.is_none()
}

// A run of a pool that was shut down ends at once.
#[test]
fn no_two_threads_are_one_worker(rt: HostRuntime) {
    assert!(rt; take_turns_twice(rt, rt.alloc()));
}

// Whether a place for a Task is empty at first, and no waker is kept under two numbers.
fn ask_empty_places<R: Wait + Abort + Drop + Copy>(rt: R, alloc: Global) -> bool {
    let pool = new_pool(rt, alloc, 1);
    let key = place_of_task(&pool);
    let empty = is_empty(&pool, &key);
    let woken = wake_kept((&pool, 0), 0) || wake_kept((&pool, 99), usize::MAX);
    drop_pool(pool);
    empty && !woken
}

#[test]
fn an_empty_place_answers_that_it_is_empty(rt: HostRuntime) {
    assert!(rt; ask_empty_places(rt, rt.alloc()));
}

// Whether a key of another pool keeps no Task there, and what is at its number stays.
fn keep_elsewhere<R: Wait + Abort + Drop + Copy + 'static>(rt: R, alloc: Global) -> bool {
    let guests = new_guests(&rt, alloc, 1);
    let pool = new_pool(rt, alloc, 1);
    let other = new_pool(rt, alloc, 1);
    let foreign = place_of_task(&pool);
    let key = place_of_task(&other);
    let kept = keep(guest_task(&other, 1, Errand::Stay, &guests), &key);
    let refused = !keep(guest_task(&other, 1, Errand::Stay, &guests), &foreign);
    let empty = is_empty(&other, &foreign);
    let answer = poll_kept((&other, 0), &key, &Nobody);
    let pending = matches!(answer, Some(TaskPoll::Pending));
    let same = key.number() == foreign.number();
    drop_pool(other);
    drop_pool(pool);
    kept && refused && empty && pending && same
}

// The second pool has a Task at the place of the same number.
#[test]
fn a_key_of_another_pool_keeps_no_task(rt: HostRuntime) {
    assert!(rt; keep_elsewhere(rt, rt.alloc()));
}

// Whether a worker rests twice after the shutdown and finds nothing, and the interruptions were counted.
fn rest_late<R: Wait + Abort + Drop + Copy + 'static>(rt: R, alloc: Global) -> bool {
    let pool = new_pool(rt, alloc, 1);
    let mut turns = turns_of(&pool, 0);
    shut_down(&pool);
    let interruptions = pool.bells().interruptions();
    let found = turns.rest(interruptions).is_some() || turns.rest(interruptions).is_some();
    drop_turns(turns);
    drop_pool(pool);
    interruptions > 0 && !found
}

// The interruptions are counted after the shutdown, so they do not keep it from a sleep. The first rest hears that of the shutdown, and the second one none.
#[test]
fn a_rest_after_the_shutdown_returns(rt: HostRuntime) {
    assert!(rt; rest_late(rt, rt.alloc()));
}

// Whether a pool that was shut down refuses a spawn, and its workers find nothing.
fn come_late<R: Wait + Abort + Threads + Drop + Copy + Send + Sync + 'static>(
    rt: R,
    alloc: Global,
) -> bool {
    let guests = new_guests(&rt, alloc, 1);
    let pool = new_pool(rt, alloc, 2);
    shut_down(&pool);
    shut_down(&pool);
    let refused = refusal_of_spawn(&pool, 2, &guests);
    let mut all = all_turns(&pool);
    work_both(&rt, &mut all);
    drop_all(all);
    let mut turns = turns_of(&pool, 1);
    let ran = tick(&mut turns);
    let none = drop_tasks(guest_tasks(&pool, 0, 0, &guests));
    let left = shares_and_polls(&guests);
    drop_turns(turns);
    drop_pool(pool);
    refused == Some(SpawnRefusal::Stopped) && !ran && none == 0 && left == (1, 0)
}

// Also a second shutdown, and no futures to spawn.
#[test]
fn a_pool_that_was_shut_down_refuses_what_comes(rt: HostRuntime) {
    assert!(rt; come_late(rt, rt.alloc()));
}
