//! A pool that starts its threads: what `start` answers, and what it leaves.

use crate::calls::{
    drop_pool, drop_task, drop_tasks, drop_turns, guest_task, guest_tasks, new_guests, new_pool,
    refusal_of_spawn, turns_of,
};
use crate::guest::{Errand, GuestPool, GuestTurns, Guests, shares_and_polls};
use executor::{SpawnRefusal, TurnsError};
use std::alloc::Global;
use std::process::Abort;
use std::sync::atomic::Ordering;
use std::sync::{Arc, Wait};
use std::thread::{Threads, yield_now};

// How often a thread looks for the end of guests before it gives up.
const LOOKS: u32 = 2_000_000;

// Spawns guests that give way, whose Tasks are let go: the number of this worker.
fn leave_guests<R: Wait + Abort + Drop + Copy>(
    turns: &GuestTurns<'_, R>,
    count: u64,
    guests: &Arc<Guests>,
) -> usize {
    let (pool, worker) = turns.place();
    for task in guest_tasks(pool, worker, count, guests) {
        task.detach();
    }
    worker
}

// Starts a pool for as long as it takes to spawn 100 guests: the worker on which it did so, or where it also shuts the pool down how many it cancelled.
fn start_and_leave<R: Wait + Abort + Threads + Drop + Copy + Send + Sync + 'static>(
    pool: &GuestPool<R>,
    guests: &Arc<Guests>,
    shuts_down: bool,
) -> Result<usize, TurnsError> {
    let team = pool.team()?;
    Ok(team.start(&pool.rt(), |turns| {
        let worker = leave_guests(turns, 100, guests);
        if shuts_down { pool.shutdown() } else { worker }
    }))
}

// Whether a pool of four workers runs what `main` leaves, and then refuses what comes.
fn start_and_run<R: Wait + Abort + Threads + Drop + Copy + Send + Sync + 'static>(
    rt: R,
    alloc: Global,
) -> bool {
    let guests = new_guests(&rt, alloc, 100);
    let pool = new_pool(rt, alloc, 4);
    let worker = start_and_leave(&pool, &guests, false);
    let (shares, polls) = shares_and_polls(&guests);
    let refused = refusal_of_spawn(&pool, 4, &guests);
    let queued = pool.queued();
    drop_pool(pool);
    worker == Ok(0)
        && shares == 1
        && polls == 1100
        && refused == Some(SpawnRefusal::Stopped)
        && queued == 0
}

// What `main` leaves runs to its end. Afterwards nothing is taken any more.
#[test]
fn a_start_runs_what_main_leaves(rt: HostRuntime) {
    assert!(rt; start_and_run(rt, rt.alloc()));
}

// Whether a start beside turns is refused, and one after them runs all.
fn start_beside_turns<R: Wait + Abort + Threads + Drop + Copy + Send + Sync + 'static>(
    rt: R,
    alloc: Global,
) -> bool {
    let guests = new_guests(&rt, alloc, 100);
    let pool = new_pool(rt, alloc, 2);
    let turns = turns_of(&pool, 1);
    let refused = start_and_leave(&pool, &guests, false);
    let (_, before) = shares_and_polls(&guests);
    drop_turns(turns);
    let started = start_and_leave(&pool, &guests, false);
    let (_, polls) = shares_and_polls(&guests);
    drop_pool(pool);
    refused == Err(TurnsError::Taken) && before == 0 && started == Ok(0) && polls == 1100
}

// Nothing has begun then, and the pool goes on: once the turns are dropped, it can be started.
#[test]
fn a_start_is_refused_where_turns_are_taken(rt: HostRuntime) {
    assert!(rt; start_beside_turns(rt, rt.alloc()));
}

// Whether a shutdown by `main` cancels all.
fn start_and_end<R: Wait + Abort + Threads + Drop + Copy + Send + Sync + 'static>(
    rt: R,
    alloc: Global,
) -> bool {
    let guests = new_guests(&rt, alloc, 100);
    let pool = new_pool(rt, alloc, 1);
    let cancelled = start_and_leave(&pool, &guests, true);
    let seen = shares_and_polls(&guests);
    drop_pool(pool);
    cancelled == Ok(100) && seen == (1, 0)
}

// There is one worker, whose thread is in `main`.
#[test]
fn main_may_shut_the_pool_down(rt: HostRuntime) {
    assert!(rt; start_and_end(rt, rt.alloc()));
}

// Whether all guests that give way end while this thread takes no turns.
fn await_guests(guests: &Guests) -> bool {
    for _ in 0..LOOKS {
        if guests.all_ended.load(Ordering::SeqCst) {
            return true;
        }
        yield_now();
    }
    false
}

// Starts a pool for as long as guests take to end.
fn start_and_await<R: Wait + Abort + Threads + Drop + Copy + Send + Sync + 'static>(
    pool: &GuestPool<R>,
    guests: &Arc<Guests>,
) -> Result<bool, TurnsError> {
    let team = pool.team()?;
    Ok(team.start(&pool.rt(), |_| await_guests(guests)))
}

// Whether guests end behind one that keeps its thread until they have.
fn start_beside_a_long_poll<R: Wait + Abort + Threads + Drop + Copy + Send + Sync + 'static>(
    rt: R,
    alloc: Global,
) -> bool {
    let guests = new_guests(&rt, alloc, 10);
    let pool = new_pool(rt, alloc, 3);
    let long = guest_task(&pool, 3, Errand::SpinAndEnd, &guests);
    let behind = guest_tasks(&pool, 3, 10, &guests);
    let ended = start_and_await(&pool, &guests);
    drop_task(long);
    drop_tasks(behind);
    drop_pool(pool);
    ended == Ok(true)
}

// One of the two other workers has a thread for itself.
#[test]
fn each_worker_of_a_start_has_a_thread_of_its_own(rt: HostRuntime) {
    assert!(rt; start_beside_a_long_poll(rt, rt.alloc()));
}
