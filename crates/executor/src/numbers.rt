//! The numbers of a pool, which any thread may read: what each worker has counted, what is queued, and who sleeps.
ghost use Rattle.std.specs.Prelude.{◌≡◌, ◌<◌, ◌↔◌, length, IfOk, IsSome};
ghost use Rattle.std.specs.Arc.{arc_value};
ghost use Rattle.executor.specs.Numbers.{IsSum};

use crate::pool::Pool;
use crate::turns::Turns;
use async_task::{Wake, Yields};
use std::alloc::{AllocError, Allocator, Global};
use std::sync::Wait;
use std::sync::atomic::{AtomicU64, Ordering};
use work_queues::WorkerCounts;

/// What the worker of a number has counted, as it has shown it last.
#[derive(Drop)]
struct Shown {
    found: AtomicU64,
    stolen: AtomicU64,
    sleeps: AtomicU64,
    // Keeps the words of two workers in lines of a cache of their own.
    _apart: [u64; 13],
}

/// What each worker has shown. Threads share the words, so no clause says what they show.
#[derive(Drop)]
pub(crate) struct Numbers {
    workers: Vec<Shown>,
}

/// The numbers of a pool, each of an instant of its own, so they need not fit together.
#[derive(Debug, Drop)]
pub struct PoolNumbers {
    /// What the worker of each number has counted, over all its turns, as far as it has shown it.
    pub workers: Vec<WorkerCounts>,
    /// How many Runnables the queues have, as `Pool::queued` says.
    pub queued: usize,
    /// How many workers sleep, or are about to.
    pub sleepers: u64,
    /// How many places for wakers are taken.
    pub kept_wakers: usize,
    /// How many places for Tasks are taken.
    pub kept_tasks: usize,
}

// What a worker has counted in these turns and in earlier ones. Each number wraps.
fn sum_of(earlier: WorkerCounts, counts: WorkerCounts) -> WorkerCounts
    ensures { IsSum earlier counts result }
{
    WorkerCounts {
        found: earlier.found.wrapping_add(counts.found),
        stolen: earlier.stolen.wrapping_add(counts.stolen),
        sleeps: earlier.sleeps.wrapping_add(counts.sleeps),
    }
}

// Writes a number where it is another one: a load costs less than a store.
fn set(word: &AtomicU64, number: u64) {
    if word.load(Ordering::SeqCst) != number {
        word.store(number, Ordering::SeqCst);
    }
}

impl Numbers {
    // Nothing is counted yet, of `workers` workers.
    pub(crate) fn new(alloc: Global, workers: usize) -> Result<Numbers, AllocError>
        ensures { IfOk result (λ numbers. length numbers.workers.items ≡ workers) }
    {
        let mut shown = Vec::with_capacity(alloc, workers)?;
        for _worker in 0..workers {
            shown.push(Shown {
                found: AtomicU64::new(0),
                stolen: AtomicU64::new(0),
                sleeps: AtomicU64::new(0),
                _apart: [0; 13],
            })?;
        }
        Ok(Numbers { workers: shown })
    }

    // Shows what the worker of a number has counted in its turns, beside what it had before them. Whoever calls it has the turns of that worker, so nobody else writes.
    pub(crate) fn show(&self, worker: usize, earlier: WorkerCounts, counts: WorkerCounts) {
        if let Some(shown) = self.workers.get(worker) {
            let sum = sum_of(earlier, counts);
            set(&shown.found, sum.found);
            set(&shown.stolen, sum.stolen);
            set(&shown.sleeps, sum.sleeps);
        }
    }

    // What the worker of a number has shown. Where there is none, nothing.
    pub(crate) fn shown_by(&self, worker: usize) -> WorkerCounts {
        match self.workers.get(worker) {
            Some(shown) => WorkerCounts {
                found: shown.found.load(Ordering::SeqCst),
                stolen: shown.stolen.load(Ordering::SeqCst),
                sleeps: shown.sleeps.load(Ordering::SeqCst),
            },
            None => WorkerCounts::default(),
        }
    }
}

impl<'x, R: Wait + Drop + Copy, F: Yields, A: Wake, B: Allocator, M: Drop> Turns<
    'x,
    R,
    F,
    A,
    B,
    M,
> {
    // Shows other threads what this worker has counted. As of `Numbers`, no clause says what they see.
    pub(crate) fn show_counts(&self) {
        self.pool
            .numbers
            .show(self.worker.number(), self.earlier, self.worker.counts());
    }
}

impl<R: Wait + Drop + Copy, F: Yields, A: Wake, B: Allocator + Copy, M: Drop> Pool<R, F, A, B, M> {
    /// What the worker of a number has counted, over all its turns: any thread may ask, without a lock. A worker shows it where it finds no Runnable, at each 64th turn, and at the end of its turns. `None` where there is no such worker. Beside that it has no clause, since threads share the words.
    pub fn counts_of(&self, worker: usize) -> Option<WorkerCounts>
        ensures { IsSome result ↔ (worker < (arc_value self.now.crew.bells).workers) }
    {
        if worker >= self.workers() {
            return None;
        }
        Some(self.numbers.shown_by(worker))
    }

    /// The numbers of the pool, for any thread: what `counts_of` each worker answers, in the order of their numbers, what is queued, and how many sleep. It takes the lock of each queue and store, so a thread that only watches asks seldom. An error says that memory was refused for the list.
    pub fn numbers(&self) -> Result<PoolNumbers, AllocError>
        ensures { IfOk result (λ numbers. length numbers.workers.items ≡ (arc_value self.now.crew.bells).workers) }
    {
        let mut workers = Vec::new(self.alloc);
        for worker in 0..self.workers() {
            workers.push(self.numbers.shown_by(worker))?;
        }
        Ok(PoolNumbers {
            workers,
            queued: self.queued(),
            sleepers: self.bells().sleepers(),
            kept_wakers: self.kept_wakers(),
            kept_tasks: self.kept_tasks(),
        })
    }
}
