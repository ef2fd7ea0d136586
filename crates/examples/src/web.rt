//! A server on a pool: 64 tasks take a thousand requests from a channel, and serve eight at a time, each until a timeout.

mod job;
mod server;
mod source;

use executor::generic::run;
use executor::shared_waker::PoolSharedWaker;
use future_parts::{Semaphore, channel};
use future_time::Timers;
use job::{Job, JobPool, JobTimers, Tally, Work};
use server::Server;
use source::Source;
use std::alloc::{AllocError, Global};
use std::sync::{Arc, Wait};
use std::thread::{self, Threads};
use std::time::Clock;

const SERVERS: usize = 64;

const PERMITS: usize = 8;

// Spawns the servers, and the source of what they serve.
fn spawn_all<R: Wait + Clock + Drop + Copy>(
    pool: &JobPool<R>,
    timers: &JobTimers<R>,
    tally: &Arc<Tally>,
) -> Result<(), AllocError> {
    let (rt, alloc) = (pool.rt(), pool.alloc());
    let (sender, receiver) = channel(rt, alloc, PERMITS, SERVERS)?;
    let permits = Semaphore::new(rt, alloc, PERMITS, SERVERS)?;
    for _ in 0..SERVERS {
        let server = Server::new(
            receiver.try_clone().ok_or(AllocError)?,
            permits.try_clone().ok_or(AllocError)?,
            timers.try_clone().ok_or(AllocError)?,
        );
        spawn(pool, Work::Server(server), tally)?;
    }
    spawn(pool, Work::Source(Source::new(sender)), tally)
}

fn spawn<R: Wait + Clock + Drop + Copy>(
    pool: &JobPool<R>,
    work: Work<R, PoolSharedWaker<R>>,
    tally: &Arc<Tally>,
) -> Result<(), AllocError> {
    let job = Job::new(work, Arc::try_clone(tally)?);
    pool.spawn(job)?.detach();
    Ok(())
}

// Runs two workers until the last task has shut the pool down, and ends the thread that drives the timers.
fn work_both<R: Wait + Clock + Threads + Drop + Copy + Send + Sync>(
    pool: &JobPool<R>,
    timers: &JobTimers<R>,
) {
    let _ = thread::join(&pool.rt(), || run(pool, 0), || run(pool, 1));
    timers.close();
}

// Runs all threads to their end, and answers whether there was one that drives the timers.
fn run_all<R: Wait + Clock + Threads + Drop + Copy + Send + Sync>(
    pool: &JobPool<R>,
    timers: &JobTimers<R>,
) -> bool {
    thread::scope(thread::scope_env(), &pool.rt(), |scope| {
        if scope.spawn(move || timers.run().is_ok()).is_err() {
            return false;
        }
        work_both(pool, timers);
        true
    })
}

/// How many requests were served, and how many were not in time. `None` where memory, the clock or a thread for the timers was refused.
pub fn served_and_late<R: Wait + Clock + Threads + Drop + Copy + Send + Sync>(
    rt: R,
    alloc: Global,
) -> Option<(u64, u64)> {
    let timers = Timers::new(rt, alloc).ok()?;
    let tally = Arc::new(alloc, Tally::new(SERVERS as u64 + 1)).ok()?;
    let pool = JobPool::new(rt, alloc, 2).ok()?;
    spawn_all(&pool, &timers, &tally).ok()?;
    if !run_all(&pool, &timers) {
        return None;
    }
    Some(tally.counts())
}
