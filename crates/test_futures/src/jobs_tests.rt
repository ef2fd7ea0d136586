//! Jobs that block: the thread that runs them, and threads that are gone.
//! Of what is only tested (the page of `future_parts`): Outer calls, Threads.
use crate::bell::{Bell, block_on, poll_once};
use future_parts::{BlockingJobs, BlockingThread, Job, blocking_jobs, join};
use std::alloc::Global;
use std::process::Abort;
use std::sync::Wait;
use std::thread::{self, Threads};

/// A job whose output is the square of its number.
#[derive(Debug, PartialEq, Eq, Drop)]
struct Square(u64);

impl Job for Square {
    type Output = u64;

    fn run(self) -> u64 {
        self.0.wrapping_mul(self.0)
    }
}

type Ends<R> = (
    BlockingJobs<R, Square, Bell<R>>,
    BlockingThread<R, Square, Bell<R>>,
);

fn ends<R: Wait + Abort + Drop + Copy>(rt: R, alloc: Global) -> Ends<R> {
    blocking_jobs(rt, alloc).expect(&rt, "refused")
}

// Has the thread run two jobs, and ends it.
fn ask<R: Wait + Abort + Drop + Copy>(
    rt: R,
    alloc: Global,
    jobs: BlockingJobs<R, Square, Bell<R>>,
) -> Option<(Option<u64>, Option<u64>)> {
    let first = jobs.start(Square(12)).ok()?;
    let second = jobs.start(Square(5)).ok()?;
    Some(block_on(rt, alloc, join(first, second)))
}

fn ask_beside<R: Wait + Abort + Threads + Drop + Copy + Send + Sync>(
    rt: R,
    alloc: Global,
) -> Option<(Option<u64>, Option<u64>)> {
    let (jobs, thread) = ends(rt, alloc);
    let (_, outputs) = thread::join(&rt, || thread.work(), || ask(rt, alloc, jobs));
    outputs
}

#[test]
fn a_thread_runs_the_jobs_and_ends_once_nobody_has_more(rt: HostRuntime) {
    let outputs = ask_beside(rt, rt.alloc());
    assert!(rt; outputs == Some((Some(144), Some(25))));
}

// What a job that waits answers once the only thread is gone, and what a later job gets.
fn ask_nobody<R: Wait + Abort + Drop + Copy>(
    rt: R,
    alloc: Global,
) -> (Option<Option<u64>>, Result<(), Square>) {
    let (jobs, thread) = ends(rt, alloc);
    let waiting = jobs.start(Square(3));
    drop(thread);
    let answer = match waiting {
        Ok(output) => poll_once(rt, alloc, output),
        Err(_job) => None,
    };
    (answer, jobs.start(Square(4)).map(|output| drop(output)))
}

#[test]
fn a_job_that_no_thread_will_run_is_told(rt: HostRuntime) {
    let (waiting, later) = ask_nobody(rt, rt.alloc());
    assert!(rt; waiting == Some(None) && later == Err(Square(4)));
}
