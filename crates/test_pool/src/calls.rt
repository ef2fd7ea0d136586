//! Calls of a pool of guests and of its handles, each in a function of its own, generic in the runtime alone: what such a call asks of its types is shown
//! there once, and not in each test.

use crate::guest::{Errand, Guest, GuestPool, GuestTask, GuestTurns, Guests};
use executor::{
    Key, PoolSpawnError, SpawnRefusal, TurnsError, keep_task, place_for_task, poll_kept,
};
use executor_parts::Nobody;
use std::alloc::Global;
use std::collections::VecDeque;
use std::process::Abort;
use std::sync::{Arc, Wait};
use std::thread::{self, Threads};

/// Guests of which so many are to end. Stops where there is no memory.
pub fn new_guests<R: Abort>(rt: &R, alloc: Global, wanted: u64) -> Arc<Guests> {
    Guests::new(alloc, wanted).expect(rt, "refused")
}

/// A pool of so many workers. Stops where there is no memory.
pub fn new_pool<R: Wait + Abort + Drop + Copy>(
    rt: R,
    alloc: Global,
    workers: usize,
) -> GuestPool<R> {
    GuestPool::new(rt, alloc, workers).expect(&rt, "refused")
}

/// The Task of a guest at the queue of a worker, or from outside where there is no worker of this number. Stops where there is no memory.
pub fn guest_task<'x, R: Wait + Abort + Drop + Copy>(
    pool: &'x GuestPool<R>,
    worker: usize,
    errand: Errand,
    guests: &Arc<Guests>,
) -> GuestTask<'x, R> {
    let guest = Guest::new(errand, guests).expect(&pool.rt(), "refused");
    pool.spawn_on(worker, guest).expect(&pool.rt(), "refused")
}

/// The Tasks of so many guests that give way ten times, spawned together. Stops where there is no memory.
pub fn guest_tasks<'x, R: Wait + Abort + Drop + Copy>(
    pool: &'x GuestPool<R>,
    worker: usize,
    count: u64,
    guests: &Arc<Guests>,
) -> Vec<GuestTask<'x, R>> {
    let rt = pool.rt();
    let mut futures = VecDeque::new(pool.alloc());
    for _ in 0..count {
        let guest = Guest::new(Errand::GiveWay(10), guests).expect(&rt, "refused");
        futures.push_back(guest).expect(&rt, "refused");
    }
    let mut tasks = Vec::new(pool.alloc());
    pool.spawn_many(worker, &mut futures, &mut tasks)
        .expect(&rt, "refused");
    tasks
}

/// Why the spawn of a guest that gives way seven times is refused. `None` where it is not, or its future is not what the error has.
pub fn refusal_of_spawn<R: Wait + Abort + Drop + Copy>(
    pool: &GuestPool<R>,
    worker: usize,
    guests: &Arc<Guests>,
) -> Option<SpawnRefusal> {
    let guest = Guest::new(Errand::GiveWay(7), guests).expect(&pool.rt(), "refused");
    match pool.spawn_on(worker, guest) {
        Ok(_) => None,
        Err(PoolSpawnError { given, reason }) => {
            (given.errand == Errand::GiveWay(7)).then_some(reason)
        }
    }
}

/// The turns of a worker. Stops where they are refused.
pub fn turns_of<R: Wait + Abort + Drop + Copy>(
    pool: &GuestPool<R>,
    worker: usize,
) -> GuestTurns<'_, R> {
    pool.turns(worker).expect(&pool.rt(), "refused")
}

/// The turns of all workers. Stops where they are refused.
pub fn all_turns<R: Wait + Abort + Drop + Copy>(pool: &GuestPool<R>) -> Vec<GuestTurns<'_, R>> {
    pool.all_turns().expect(&pool.rt(), "refused")
}

/// Runs the next task, as `Turns::tick` does, and answers whether there was one. The prover takes that call as it is told that the runtime lives for ever.
pub fn tick<R: Wait + Drop + Copy + 'static>(turns: &mut GuestTurns<'_, R>) -> bool {
    turns.tick()
}

/// Is the worker until the pool is shut down, as `Turns::work` is. The prover takes that call as it takes the one of `tick`.
pub fn work<R: Wait + Drop + Copy + 'static>(turns: &mut GuestTurns<'_, R>) {
    turns.work();
}

/// Is the worker of a number until the pool is shut down, as `Pool::run` is: why it is refused, if it is.
pub fn refusal_of_run<R: Wait + Drop + Copy + 'static>(
    pool: &GuestPool<R>,
    worker: usize,
) -> Option<TurnsError> {
    pool.run(worker).err()
}

/// Is both workers of a pool until it is shut down, each on a thread.
pub fn work_both<R: Wait + Threads + Drop + Copy + Send + Sync + 'static>(
    rt: &R,
    all: &mut Vec<GuestTurns<'_, R>>,
) {
    thread::for_each_mut(rt, all, 2, &|_, turns| work(turns));
}

/// An empty place for a Task. Stops where there is none.
pub fn place_of_task<R: Wait + Abort + Drop + Copy>(pool: &GuestPool<R>) -> Key<R> {
    place_for_task((pool, 0)).expect(&pool.rt(), "refused")
}

/// Keeps a Task at a place, and answers whether it was kept.
pub fn keep<R: Wait + Drop + Copy>(task: GuestTask<'_, R>, key: &Key<R>) -> bool {
    keep_task(task, key).is_ok()
}

/// Whether there is no Task at the place of a key.
pub fn is_empty<R: Wait + Drop + Copy>(pool: &GuestPool<R>, key: &Key<R>) -> bool {
    poll_kept((pool, 0), key, &Nobody).is_none()
}

/// Shuts a pool down: how many Runnables were queued.
pub fn shut_down<R: Wait + Drop + Copy>(pool: &GuestPool<R>) -> usize {
    pool.shutdown()
}

/// Drops a Task.
pub fn drop_task<R: Wait + Drop + Copy>(task: GuestTask<'_, R>) {
    drop(task);
}

/// Drops Tasks: how many there were.
pub fn drop_tasks<R: Wait + Drop + Copy>(tasks: Vec<GuestTask<'_, R>>) -> usize {
    tasks.len()
}

/// Drops turns.
pub fn drop_turns<R: Wait + Drop + Copy>(turns: GuestTurns<'_, R>) {
    drop(turns);
}

/// Drops the turns of all workers: how many there were.
pub fn drop_all<R: Wait + Drop + Copy>(all: Vec<GuestTurns<'_, R>>) -> usize {
    all.len()
}

/// Drops a pool.
pub fn drop_pool<R: Wait + Drop + Copy>(pool: GuestPool<R>) {
    drop(pool);
}
