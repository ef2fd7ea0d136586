//! What the threads of a measurement share: whether they are to work, and what they did.

use crate::operations::contended::Contention;
use crate::operations::queue::{Queue, QueueWaker};
use crate::operations::task_futures::Pending;
use std::hint::spin_loop;
use std::rt::Clock;
use std::sync::Wait;
use std::sync::atomic::{AtomicU64, Ordering};
use std::thread;
use std::time::{Duration, Instant};

// How many operations a thread does before it looks whether it is to stop.
const BATCH: u64 = 64;

// How long the threads work, in milliseconds.
const TIME: u64 = 150;

// Whether the threads wait for the others, work, or stop.
const WAITING: u64 = 0;

const WORKING: u64 = 1;

const STOPPED: u64 = 2;

/// Whether the threads are to work, and what those that have stopped did.
#[derive(Drop)]
pub struct Phases {
    phase: AtomicU64,
    operations: AtomicU64,
    runs: AtomicU64,
}

impl Phases {
    /// The threads are to wait.
    pub fn new() -> Phases {
        Phases {
            phase: AtomicU64::new(WAITING),
            operations: AtomicU64::new(0),
            runs: AtomicU64::new(0),
        }
    }

    /// The threads are to work.
    pub fn start(&self) {
        self.phase.store(WORKING, Ordering::SeqCst);
    }

    // The threads are to stop.
    fn stop(&self) {
        self.phase.store(STOPPED, Ordering::SeqCst);
    }

    /// The threads are to stop when they have worked for their time.
    pub fn stop_later<R: Clock + Wait + Drop + Copy>(&self, rt: R) {
        self.await_start(rt);
        thread::sleep(&rt, Duration::from_millis(TIME));
        self.stop();
    }

    /// The threads are to stop before they began: there is no time at which they did.
    pub fn give_up(&self) -> Option<Instant> {
        self.stop();
        None
    }

    /// How many operations the threads with wakers did.
    pub fn operations(&self) -> u64 {
        self.operations.load(Ordering::SeqCst)
    }

    /// How often the task was run.
    pub fn runs(&self) -> u64 {
        self.runs.load(Ordering::SeqCst)
    }

    /// Does this with the waker, until it is to stop: wakes the task, or clones the waker and drops the clone.
    pub fn work<R: Wait + Drop + Copy>(
        &self,
        rt: R,
        waker: &QueueWaker<'_, R, Pending>,
        contention: Contention,
    ) {
        self.await_start(rt);
        let mut done = 0u64;
        for _ in rt.forever() {
            if self.is_stopped() {
                break;
            }
            match contention {
                Contention::WakeStorm | Contention::OneWaker => wake_often(waker),
                Contention::CloneDrop => clone_often(waker),
            }
            done = done.wrapping_add(BATCH);
        }
        self.operations.fetch_add(done, Ordering::SeqCst);
    }

    /// Runs what is in the queue, until it is to stop.
    pub fn run<R: Wait + Drop + Copy>(&self, rt: R, queue: &Queue<R, Pending>) {
        let mut runs = 0u64;
        for _ in rt.forever() {
            if self.is_stopped() {
                break;
            }
            match queue.pop() {
                Some(runnable) => {
                    runnable.run();
                    runs = runs.wrapping_add(1);
                }
                None => spin_loop(),
            }
        }
        self.runs.fetch_add(runs, Ordering::SeqCst);
    }

    fn is_stopped(&self) -> bool {
        self.phase.load(Ordering::SeqCst) == STOPPED
    }

    // Waits until all threads were started.
    fn await_start<R: Wait + Drop + Copy>(&self, rt: R) {
        for _ in rt.forever() {
            if self.phase.load(Ordering::SeqCst) != WAITING {
                return;
            }
            thread::yield_now();
        }
    }
}

fn wake_often<R: Wait + Drop + Copy>(waker: &QueueWaker<'_, R, Pending>) {
    for _ in 0..BATCH {
        waker.wake_by_ref();
    }
}

fn clone_often<R: Wait + Drop + Copy>(waker: &QueueWaker<'_, R, Pending>) {
    for _ in 0..BATCH {
        drop(waker.try_clone());
    }
}
