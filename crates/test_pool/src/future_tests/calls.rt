//! Calls of a pool of links and of its handles, each in a function of its own, generic in the runtime alone: what such a call asks of its types is shown
//! there once, and not in each test. Where the runtime is a parameter, the prover takes a call that runs tasks only if it is told that the runtime lives
//! for ever: so `'static` stands at such a function, and its proof is in `proofs/calls`.

use crate::future_tests::link::{
    Counts, Errand, KNOCKS, LinkPool, LinkTask, LinkTurns, spawn_link,
};
use async_task::{TaskPoll, Wake};
use executor::{BellAwaiter, BlockOnError, Key, collect, place_for_waker, wake_posted};
use std::alloc::Global;
use std::process::Abort;
use std::sync::atomic::Ordering;
use std::sync::{Arc, Wait};
use std::thread;

/// A pool of so many workers. Stops where there is no memory.
pub fn new_pool<R: Wait + Abort + Drop + Copy>(
    rt: R,
    alloc: Global,
    workers: usize,
) -> LinkPool<R> {
    LinkPool::new(rt, alloc, workers).expect(&rt, "refused")
}

/// What the links of this pool count together: nothing yet. Stops where there is no memory.
pub fn new_counts<R: Wait + Abort + Drop + Copy>(pool: &LinkPool<R>) -> Arc<Counts> {
    Counts::new(pool.alloc()).expect(&pool.rt(), "refused")
}

/// The turns of worker 0. Stops where they are refused.
pub fn turns_of<R: Wait + Abort + Drop + Copy>(pool: &LinkPool<R>) -> LinkTurns<'_, R> {
    pool.turns(0).expect(&pool.rt(), "refused")
}

/// The Task of a link that awaits at most one, as `spawn_link` spawns it. Stops where there is no memory.
pub fn link_task<'x, R: Wait + Abort + Drop + Copy>(
    pool: &'x LinkPool<R>,
    worker: usize,
    below: u64,
    errand: Errand,
    counts: &Arc<Counts>,
) -> LinkTask<'x, R> {
    spawn_link(pool, worker, below, errand, None, counts).expect(&pool.rt(), "refused")
}

/// An empty place for a waker. Stops where there is none.
pub fn place_of_waker<R: Wait + Abort + Drop + Copy>(pool: &LinkPool<R>) -> Key<R> {
    place_for_waker((pool, 0)).expect(&pool.rt(), "refused")
}

/// Runs the next task, as `Turns::tick` does, and answers whether there was one.
pub fn tick<R: Wait + Drop + Copy + 'static>(turns: &mut LinkTurns<'_, R>) -> bool {
    turns.tick()
}

/// Is the worker of a number until the pool is shut down, as by `Pool::run`: whether there was such a worker.
pub fn work<R: Wait + Drop + Copy + 'static>(pool: &LinkPool<R>, worker: usize) -> bool {
    pool.run(worker).is_ok()
}

/// Is the worker until the pool is shut down, as `Turns::work` is.
pub fn work_turns<R: Wait + Drop + Copy + 'static>(turns: &mut LinkTurns<'_, R>) {
    turns.work();
}

/// Is the worker until the task of a Task is over, as `Turns::block_on` is.
pub fn block_on<'x, R: Wait + Drop + Copy + 'static>(
    turns: &mut LinkTurns<'x, R>,
    task: &mut LinkTask<'x, R>,
) -> Result<u64, BlockOnError> {
    turns.block_on(task)
}

/// Wakes for one number that was posted, and answers whether there was one.
pub fn wakes_posted<R: Wait + Drop + Copy>(pool: &LinkPool<R>) -> bool {
    wake_posted((pool, 0))
}

/// Frees the places of keys that were dropped.
pub fn collect_all<R: Wait + Drop + Copy>(pool: &LinkPool<R>) {
    collect((pool, 0));
}

/// Shuts a pool down.
pub fn shut_down<R: Wait + Drop + Copy>(pool: &LinkPool<R>) {
    pool.shutdown();
}

/// Drops a Task.
pub fn drop_task<R: Wait + Drop + Copy>(task: LinkTask<'_, R>) {
    drop(task);
}

/// Drops turns.
pub fn drop_turns<R: Wait + Drop + Copy>(turns: LinkTurns<'_, R>) {
    drop(turns);
}

/// Drops the turns and the Task that a test ends with.
pub fn drop_both<'x, R: Wait + Drop + Copy>(turns: LinkTurns<'x, R>, task: LinkTask<'x, R>) {
    drop(turns);
    drop(task);
}

/// Drops a pool.
pub fn drop_pool<R: Wait + Drop + Copy>(pool: LinkPool<R>) {
    drop(pool);
}

/// How often the links that await were polled, and how often the last one.
pub fn polls(counts: &Counts) -> (u64, u64) {
    (
        counts.waiting.load(Ordering::SeqCst),
        counts.last.load(Ordering::SeqCst),
    )
}

/// How many places are taken, for wakers and for Tasks.
pub fn places_taken<R: Wait + Drop + Copy>(pool: &LinkPool<R>) -> (usize, usize) {
    (pool.kept_wakers(), pool.kept_tasks())
}

/// Whether a poll of a Task answers that its task is closed.
pub fn is_closed<R: Wait + Drop + Copy>(pool: &LinkPool<R>, task: &mut LinkTask<'_, R>) -> bool {
    match BellAwaiter::new(pool, 0) {
        Some(awaiter) => matches!(task.poll(&awaiter), TaskPoll::Ready(Err(_))),
        None => false,
    }
}

/// Wakes by the awaiter of a number, by reference and by value. Answers false where the awaiter was refused.
pub fn wake_number<R: Wait + Drop + Copy>(pool: &LinkPool<R>, number: usize) -> bool {
    match BellAwaiter::of_kept(pool, number) {
        Some(awaiter) => {
            awaiter.wake_by_ref();
            awaiter.wake();
            true
        }
        None => false,
    }
}

/// Wakes the last link once for each time that it kept its waker, up to `KNOCKS` times.
pub fn knock<R: Wait + Drop + Copy>(pool: &LinkPool<R>, counts: &Counts) -> bool {
    let mut done = 0;
    for _ in pool.rt().forever() {
        if done == KNOCKS {
            return true;
        }
        if counts.rounds.load(Ordering::SeqCst) > done {
            let number = counts.number.load(Ordering::SeqCst).wrapping_sub(1);
            let Some(awaiter) = BellAwaiter::of_kept(pool, number as usize) else {
                return false;
            };
            awaiter.wake();
            done += 1;
        } else {
            thread::yield_now();
        }
    }
    unreachable!()
}

/// What came of a Task that was awaited: its answer, how often the links that await were polled and how often the last one, how many places are taken for
/// wakers and for Tasks, and how many owners have what the links count.
pub type Awaited = (Result<u64, BlockOnError>, (u64, u64), (usize, usize), usize);

/// What comes of a link with so many below it, on one worker. Where there is a second errand it awaits one more, which does that.
pub fn await_chain<R: Wait + Abort + Drop + Copy + 'static>(
    rt: R,
    alloc: Global,
    below: u64,
    errand: Errand,
    second: Option<Errand>,
) -> Awaited {
    let pool = new_pool(rt, alloc, 1);
    let counts = new_counts(&pool);
    let task = spawn_link(&pool, 1, below, errand, second, &counts);
    let mut task = task.expect(&rt, "refused");
    let mut turns = turns_of(&pool);
    let answer = block_on(&mut turns, &mut task);
    drop_task(task);
    collect_all(&pool);
    let left = Arc::strong_count(&counts);
    let awaited = (answer, polls(&counts), places_taken(&pool), left);
    drop_turns(turns);
    drop_pool(pool);
    awaited
}
