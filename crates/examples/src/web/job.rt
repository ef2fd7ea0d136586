//! The futures of the pool.
ghost use Rattle.std.specs.Prelude.{⊤};

use crate::web::server::Server;
use crate::web::source::Source;
use async_task::{Future, Poll, Wake, Yields};
use executor::shared_waker::{PoolSharedWaker, Share};
use executor::{Pool, PoolWaker};
use executor_parts::Nobody;
use future_time::Timers;
use std::sync::atomic::{AtomicU64, Ordering};
use std::sync::{Arc, Wait};
use std::time::Clock;

/// What came of the requests, and how many tasks still run.
#[derive(Drop)]
pub struct Tally {
    served: AtomicU64,
    timed_out: AtomicU64,
    running: AtomicU64,
}

impl Tally {
    /// Of so many tasks, which have served nothing yet.
    pub fn new(running: u64) -> Tally {
        Tally {
            served: AtomicU64::new(0),
            timed_out: AtomicU64::new(0),
            running: AtomicU64::new(running),
        }
    }

    /// Counts a request: it was served, or its time was over.
    pub fn count(&self, served: bool) {
        let counted = if served {
            &self.served
        } else {
            &self.timed_out
        };
        counted.fetch_add(1, Ordering::SeqCst);
    }

    // Counts a task that ends, and answers whether it was the last.
    fn end(&self) -> bool {
        self.running.fetch_sub(1, Ordering::SeqCst) == 1
    }

    /// How many requests were served, and how many were not in time.
    pub fn counts(&self) -> (u64, u64) {
        let served = self.served.load(Ordering::SeqCst);
        (served, self.timed_out.load(Ordering::SeqCst))
    }
}

/// What a task does.
#[derive(Drop)]
pub enum Work<R: Wait + Clock + Drop + Copy, W: Wake> {
    /// Serves requests.
    Server(Server<R, W>),
    /// Sends them.
    Source(Source<R, W>),
}

/// A future of the pool, and the shared waker of its task, which the channel, the semaphore and the timers keep. The last one that ends shuts the pool down.
#[derive(Drop)]
pub struct Job<R: Wait + Clock + Drop + Copy, W: Wake> {
    work: Work<R, W>,
    tally: Arc<Tally>,
    shared: Option<W>,
}

/// The timers of these futures.
pub type JobTimers<R> = Timers<R, PoolSharedWaker<R>>;

/// The pool of these futures. Nobody awaits their Tasks.
pub type JobPool<R> = Pool<R, Job<R, PoolSharedWaker<R>>, Nobody>;

type OwnWaker<'x, R> = PoolWaker<'x, R, Job<R, PoolSharedWaker<R>>, Nobody>;

impl<R: Wait + Clock + Drop + Copy, W: Wake> Job<R, W> {
    /// A future that does this work.
    pub fn new(work: Work<R, W>, tally: Arc<Tally>) -> Job<R, W> {
        Job {
            work,
            tally,
            shared: None,
        }
    }

    // Polls by the shared waker. Without one there is nothing to wait by.
    fn poll_work(&mut self) -> Poll<()> {
        match (&mut self.work, &self.shared) {
            (Work::Server(server), Some(shared)) => server.poll(shared, &self.tally),
            (Work::Source(source), Some(shared)) => source.poll(shared),
            (_, None) => Poll::Pending,
        }
    }
}

impl<R: Wait + Clock + Drop + Copy, W: Wake> Yields for Job<R, W> {
    type Output = ();
}

impl<'x, R: Wait + Clock + Drop + Copy> Future<OwnWaker<'x, R>> for Job<R, PoolSharedWaker<R>> {
    ghost polled = { λ _ _ _ _. ⊤ };

    // Where memory is refused the task wakes itself: it is polled again until there is some.
    fn poll(&mut self, waker: &OwnWaker<'x, R>) -> Poll<()> {
        if !waker.share(&mut self.shared) {
            waker.wake_by_ref();
            return Poll::Pending;
        }
        let answer = self.poll_work();
        if answer == Poll::Ready(()) && self.tally.end() {
            waker.around().0.shutdown();
        }
        answer
    }
}
