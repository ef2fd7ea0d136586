//! A worker that does something of its own before it rests: so it can drive timers.
ghost use Rattle.std.specs.Prelude.{◌≡◌, []};
ghost use Rattle.work_queues.specs.Settled.{OwesNothing};

use crate::kept::wake_posted;
use crate::pool::{PoolRunnable, PoolWaker};
use crate::turns::Turns;
use async_task::{Future, Wake, Yields};
use std::alloc::Allocator;
use std::sync::Wait;
use std::time::{Clock, Instant};
use work_queues::Bells;

/// A worker that always has Runnables calls what it was given once in this many turns.
const CALLS: u64 = 64;

impl<'x, R: Wait + Clock + Drop + Copy, F: Yields, A: Wake, B: Allocator + Copy, M: Drop> Turns<
    'x,
    R,
    F,
    A,
    B,
    M,
> {
    // As `take_turn_until`, or without an end of the rest where there is no deadline.
    fn take_turn_by(
        &mut self,
        interruptions: u64,
        deadline: Option<Instant>,
    ) -> Option<PoolRunnable<'x, R, F, A, B, M>>
        ensures { OwesNothing self.new.worker }
    {
        match deadline {
            Some(at) => self.take_turn_until(interruptions, at),
            None => self.take_turn(interruptions),
        }
    }

    /// Is the worker until the pool is shut down, or has finished, as `work` is, and calls `before_rest` before each rest and at each 64th turn. A rest ends at the instant that it answers; with `None` only a Runnable or an interruption ends it. Once the pool finishes it is not called any more. No clause says how often it is called.
    ///
    /// So a worker drives timers of `future_time`: `before_rest` calls `timers.fire(now)`, and hands on what that answers. A timer that another thread makes during the rest may be due sooner. So do this on each worker: the one whose task made the timer calls `before_rest` before it rests itself. A thread that is no worker interrupts one, by `pool.bells().interrupt()`.
    pub fn work_with<H: Fn() -> Option<Instant>>(&mut self, before_rest: H)
    where
        F: Future<PoolWaker<'x, R, F, A, B, M>>,
        requires { H.IsAlwaysCallable before_rest }
        ensures hands { self.new.worker.batch.items ≡ [] }
        ensures settled { OwesNothing self.new.worker }
    {
        let pool = self.pool;
        let place = self.place();
        let bells: &Bells = pool.bells();
        let mut turns = 0u64;
        for _ in pool.rt.forever() {
            // Asked for first, so that an end or a wake which comes later is not slept through.
            let interruptions = bells.interruptions();
            if pool.is_shut_down() || pool.stage.is_finishing() {
                self.work();
                return;
            }
            turns = turns.wrapping_add(1);
            wake_posted(place);
            if turns % CALLS == 0 || !self.tick() {
                let deadline = before_rest();
                if let Some(runnable) = self.take_turn_by(interruptions, deadline) {
                    runnable.run();
                }
            }
        }
    }
}
