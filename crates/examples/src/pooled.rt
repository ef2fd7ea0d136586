//! What the tasks of a pool do: futures of two types are the variants of an enum, and one spawns a task and awaits it.
//! `main` starts the workers, since it knows the type of the runtime: where that is a parameter, a call of `run` needs a proof that it outlives the pool.
ghost use Rattle.std.specs.Prelude.{⊤};

use async_task::{Future, Poll, TaskPoll, Yields};
use executor::{
    BellAwaiter, Key, Pool, PoolTask, PoolWaker, await_kept, keep_task, place_for_task,
    place_for_waker,
};
use std::alloc::AllocError;
use std::sync::Wait;

/// Adds up the numbers from the next one to the last, and gives way after each.
#[derive(Drop)]
pub struct Sum {
    next: u64,
    last: u64,
    sum: u64,
}

/// Spawns the sum of the numbers from 1 to the last one, awaits it, and answers their average, rounded down.
#[derive(Drop)]
pub struct Average<R: Wait + Drop + Copy> {
    last: u64,
    places: Option<Places<R>>,
}

/// Where the pool keeps the waker of a task that waits, and the Task that it awaits.
#[derive(Drop)]
struct Places<R: Wait + Drop + Copy> {
    own: Key<R>,
    awaited: Key<R>,
}

/// The futures of the pool.
#[derive(Drop)]
pub enum Job<R: Wait + Drop + Copy> {
    /// Adds numbers up.
    Sum(Sum),
    /// Awaits a task that does.
    Average(Average<R>),
}

/// The pool of these futures.
pub type JobPool<R> = Pool<R, Job<R>, BellAwaiter<R>>;

/// The Task of one of them.
pub type JobTask<'x, R> = PoolTask<'x, R, Job<R>, BellAwaiter<R>>;

type JobWaker<'x, R> = PoolWaker<'x, R, Job<R>, BellAwaiter<R>>;

impl<R: Wait + Drop + Copy> Yields for Job<R> {
    type Output = u64;
}

impl<'x, R: Wait + Drop + Copy> Future<JobWaker<'x, R>> for Job<R> {
    ghost polled = { λ _ _ _ _. ⊤ };

    fn poll(&mut self, waker: &JobWaker<'x, R>) -> Poll<u64> {
        match self {
            Job::Sum(sum) => sum.add_next(waker),
            Job::Average(average) => average.await_sum(waker),
        }
    }
}

fn sum_to<R: Wait + Drop + Copy>(last: u64) -> Job<R> {
    Job::Sum(Sum {
        next: 1,
        last,
        sum: 0,
    })
}

impl Sum {
    fn add_next<'x, R: Wait + Drop + Copy>(&mut self, waker: &JobWaker<'x, R>) -> Poll<u64> {
        if self.next > self.last {
            return Poll::Ready(self.sum);
        }
        self.sum = self.sum.saturating_add(self.next);
        self.next = self.next.saturating_add(1);
        waker.wake_by_ref();
        Poll::Pending
    }
}

impl<R: Wait + Drop + Copy> Average<R> {
    // What was refused, or closed, counts as 0.
    fn await_sum<'x>(&mut self, waker: &JobWaker<'x, R>) -> Poll<u64> {
        if self.places.is_none() {
            self.places = keep_sum(waker, self.last);
        }
        let Some(places) = &self.places else {
            return Poll::Ready(0);
        };
        let sum = match await_kept(waker, &places.own, &places.awaited) {
            Some(TaskPoll::Pending) => return Poll::Pending,
            Some(TaskPoll::Ready(Ok(sum))) => sum,
            _ => 0,
        };
        Poll::Ready(sum.checked_div(self.last).unwrap_or(0))
    }
}

// Spawns a sum at the queue of the worker that polls, and keeps its Task. `None` where there was no memory.
fn keep_sum<'x, R: Wait + Drop + Copy>(waker: &JobWaker<'x, R>, last: u64) -> Option<Places<R>> {
    let (pool, worker) = waker.around();
    let own = place_for_waker(waker.around())?;
    let awaited = place_for_task(waker.around())?;
    let task = pool.spawn_on(worker, sum_to(last)).ok()?;
    keep_task(task, &awaited).ok()?;
    Some(Places { own, awaited })
}

fn spawn<R: Wait + Drop + Copy>(
    pool: &JobPool<R>,
    job: Job<R>,
) -> Result<JobTask<'_, R>, AllocError> {
    Ok(pool.spawn(job)?)
}

/// Spawns the sum of the numbers from 1 to `summed`, and the average of those from 1 to `averaged`. An error says that there was no memory.
pub fn spawn_both<R: Wait + Drop + Copy>(
    pool: &JobPool<R>,
    summed: u64,
    averaged: u64,
) -> Result<(JobTask<'_, R>, JobTask<'_, R>), AllocError> {
    let sum = spawn(pool, sum_to(summed))?;
    let average = Job::Average(Average {
        last: averaged,
        places: None,
    });
    Ok((sum, spawn(pool, average)?))
}
