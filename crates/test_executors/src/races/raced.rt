//! The task of a race: its future, its output, its schedule value, and the surroundings in which its threads find what they act on.
ghost use Rattle.std.specs.Prelude.{⊤};

use crate::calls;
use crate::races::awaiter::RaceAwaiter;
use async_task::{
    Cancel, Future, ParkedRunnable, ParkedWaker, Poll, Runnable, Schedule, ScheduleInfo, Task,
    TaskWaker, Yields, spawn,
};
use rows_fixtures::counters::{Counter, Counters, Counts};
use std::alloc::Global;
use std::hint::spin_loop;
use std::mem;
use std::process::Abort;
use std::sync::atomic::{AtomicBool, Ordering};
use std::sync::{Arc, Mutex, Wait};

/// A Runnable of a race.
pub type RaceRunnable<'x, R> = Runnable<
    R,
    RaceFuture,
    RaceScheduler,
    (),
    RaceAwaiter,
    &'x RaceSurroundings<R>,
>;

/// A Task of a race.
pub type RaceTask<'x, R> = Task<
    R,
    RaceFuture,
    RaceScheduler,
    (),
    RaceAwaiter,
    &'x RaceSurroundings<R>,
>;

/// The handle whose first poll cancels the task of a race.
pub type RaceCancel<'x, R> = Cancel<
    R,
    RaceFuture,
    RaceScheduler,
    (),
    RaceAwaiter,
    &'x RaceSurroundings<R>,
>;

/// A waker of a race.
pub type RaceWaker<'x, R> = TaskWaker<
    R,
    RaceFuture,
    RaceScheduler,
    (),
    RaceAwaiter,
    &'x RaceSurroundings<R>,
>;

type RaceParked<R> = ParkedRunnable<R, RaceFuture, RaceScheduler, (), RaceAwaiter>;

type RaceParkedWaker<R> = ParkedWaker<R, RaceFuture, RaceScheduler, (), RaceAwaiter>;

// How many turns a poll takes, so that another poll at the same time would be seen.
const POLL: u32 = 8;

/// A future that is ready once what it waits for has happened.
pub struct RaceFuture {
    counters: Arc<Counters>,
}

impl Drop for RaceFuture {
    fn drop(self) {
        let RaceFuture { counters } = self;
        counters.future_drops.add_one();
        drop(counters);
    }
}

impl Yields for RaceFuture {
    type Output = RaceOutput;
}

impl<'x, R: Wait + Drop + Copy> Future<RaceWaker<'x, R>> for RaceFuture {
    ghost polled = { λ _ _ _ _. ⊤ };

    fn poll(&mut self, waker: &RaceWaker<'x, R>) -> Poll<RaceOutput> {
        self.counters.begin_poll();
        let surroundings = waker.around();
        let has_happened = surroundings.has_happened.load(Ordering::SeqCst);
        for _ in 0..POLL {
            spin_loop();
        }
        self.counters.end_poll();
        if !has_happened {
            return Poll::Pending;
        }
        // Where the counters cannot be shared once more there is no output, and the round does not come to its end.
        match Arc::try_clone(&self.counters) {
            Ok(counters) => {
                surroundings.outputs.add_one();
                Poll::Ready(RaceOutput { counters })
            }
            Err(_) => Poll::Pending,
        }
    }
}

/// An output whose drop is counted.
pub struct RaceOutput {
    counters: Arc<Counters>,
}

impl Drop for RaceOutput {
    fn drop(self) {
        let RaceOutput { counters } = self;
        counters.output_drops.add_one();
        drop(counters);
    }
}

/// A schedule value that queues each Runnable.
pub struct RaceScheduler {
    counters: Arc<Counters>,
}

impl Drop for RaceScheduler {
    fn drop(self) {
        let RaceScheduler { counters } = self;
        counters.scheduler_drops.add_one();
        drop(counters);
    }
}

impl<'x, R: Wait + Drop + Copy> Schedule<RaceRunnable<'x, R>> for RaceScheduler {
    ghost scheduled = { λ _ _ _. ⊤ };

    fn schedule(&self, runnable: RaceRunnable<'x, R>, _info: ScheduleInfo) {
        self.counters.schedules.add_one();
        runnable.around().queue(runnable);
    }
}

// A waker that is left in the surroundings when they go has none to queue a Runnable in, which is dropped.
impl<R: Wait + Drop + Copy> Schedule<Runnable<R, RaceFuture, RaceScheduler, (), RaceAwaiter, ()>>
    for RaceScheduler {
    ghost scheduled = { λ _ _ _. ⊤ };

    fn schedule(
        &self,
        runnable: Runnable<R, RaceFuture, RaceScheduler, (), RaceAwaiter, ()>,
        _info: ScheduleInfo,
    ) {
        self.counters.schedules.add_one();
        drop(runnable);
    }
}

/// What the threads of a race share: the queue of the one Runnable, the waker of the round, and counters over all rounds.
pub struct RaceSurroundings<R: Wait + Drop + Copy> {
    rt: R,
    alloc: Global,
    counters: Arc<Counters>,
    outputs: Counter,
    second_runnables: Counter,
    has_happened: AtomicBool,
    queued: Mutex<Option<RaceParked<R>>>,
    kept: Mutex<Option<RaceParkedWaker<R>>>,
}

impl<R: Wait + Abort + Drop + Copy> RaceSurroundings<R> {
    /// Surroundings before the first round. Stops where there is no memory.
    pub fn new(rt: R, alloc: Global) -> RaceSurroundings<R> {
        RaceSurroundings {
            rt,
            alloc,
            counters: calls::counters(rt, alloc),
            outputs: Counter::new(),
            second_runnables: Counter::new(),
            has_happened: AtomicBool::new(false),
            queued: Mutex::new(None),
            kept: Mutex::new(None),
        }
    }

    /// An awaiter that is cloned so many turns after the future of this round was dropped. Rounds are counted from 0.
    /// Stops where there is no memory.
    pub fn late_awaiter(&self, round: u64, turns: u64) -> RaceAwaiter {
        let counters = calls::share(self.rt, &self.counters);
        RaceAwaiter::after_drop(&self.rt, self.alloc, counters, round.wrapping_add(1), turns)
    }

    /// Spawns the task of a round. What its future waits for has happened, or has not. Stops where there is no memory.
    pub fn spawn(&self, has_happened: bool) -> (RaceRunnable<'_, R>, RaceTask<'_, R>) {
        self.has_happened.store(has_happened, Ordering::SeqCst);
        let future = RaceFuture {
            counters: calls::share(self.rt, &self.counters),
        };
        let schedule = RaceScheduler {
            counters: calls::share(self.rt, &self.counters),
        };
        let spawned = spawn(self.rt, self.alloc, future, schedule, self);
        spawned.expect(&self.rt, "refused")
    }
}

impl<R: Wait + Drop + Copy> RaceSurroundings<R> {
    /// Queues a Runnable. A task has one at most: one that lies there already is counted, and dropped.
    pub fn queue<'x>(&'x self, runnable: RaceRunnable<'x, R>) {
        let parked = runnable.park();
        let second = {
            let mut queued = self.queued.lock(&self.rt);
            mem::replace(&mut *queued, Some(parked))
        };
        if let Some(second) = second {
            self.second_runnables.add_one();
            drop(second.unpark(self));
        }
    }

    /// Takes the Runnable out of the queue.
    pub fn receive(&self) -> Option<RaceRunnable<'_, R>> {
        let parked = self.queued.lock(&self.rt).take()?;
        Some(parked.unpark(self))
    }

    /// Takes the Runnable out of the queue and runs it. False where there is none.
    pub fn run_next(&self) -> bool {
        let Some(runnable) = self.receive() else {
            return false;
        };
        runnable.run();
        true
    }

    /// Takes the Runnable out of the queue and drops it, which cancels its task. False where there is none.
    pub fn discard_next(&self) -> bool {
        self.receive().is_some()
    }

    /// Keeps the waker of a round, for the thread that acts on it.
    pub fn keep<'x>(&'x self, waker: RaceWaker<'x, R>) {
        let parked = waker.park();
        let previous = {
            let mut kept = self.kept.lock(&self.rt);
            mem::replace(&mut *kept, Some(parked))
        };
        if let Some(previous) = previous {
            drop(previous.unpark(self));
        }
    }

    /// Takes the waker that was kept.
    pub fn take_kept(&self) -> Option<RaceWaker<'_, R>> {
        let parked = self.kept.lock(&self.rt).take()?;
        Some(parked.unpark(self))
    }

    /// What the future of the round waits for happens.
    pub fn happen(&self) {
        self.has_happened.store(true, Ordering::SeqCst);
    }

    /// Whether so many rounds have come to their end: their futures and schedule values were dropped, and all outputs that there
    /// were; there was no Runnable and no waker left, which this call would drop; no two polls overlapped, no two Runnables met, and
    /// there were no more polls than Runnables.
    pub fn ended(&self, rounds: u64) -> bool {
        let Counts(polls, schedules, future_drops, scheduler_drops) = self.counters.counts();
        let dropped = future_drops == rounds && scheduler_drops == rounds;
        let outputs = self.counters.output_drops.get() == self.outputs.get();
        let left = self.discard_next() || self.take_kept().is_some();
        let doubled = self.counters.overlaps.get() != 0 || self.second_runnables.get() != 0;
        dropped && outputs && !left && !doubled && polls <= rounds.wrapping_add(schedules)
    }

    /// How many outputs there were, how many polls, and how many Runnables were scheduled.
    pub fn counts(&self) -> [u64; 3] {
        [
            self.outputs.get(),
            self.counters.polls.get(),
            self.counters.schedules.get(),
        ]
    }
}

// A parked handle cannot be dropped: what is left is unparked first.
impl<R: Wait + Drop + Copy> Drop for RaceSurroundings<R> {
    fn drop(self) {
        let RaceSurroundings {
            rt,
            alloc: _,
            counters,
            outputs,
            second_runnables,
            has_happened: _,
            queued,
            kept,
        } = self;
        if let Some(parked) = queued.into_inner() {
            drop(parked.unpark(()));
        }
        if let Some(parked) = kept.into_inner() {
            drop(parked.unpark(()));
        }
        drop((counters, outputs, second_runnables));
        drop(rt);
    }
}
