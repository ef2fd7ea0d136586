//! Turns that end at a deadline: so a worker with nothing to do can drive timers.
ghost use Rattle.std.specs.Prelude.{◌≡◌, [], IfSome, IsNone, IsSome};
ghost use Rattle.executor.specs.Hands.{HandsOut};
ghost use Rattle.work_queues.specs.Settled.{OwesNothing};

use crate::pool::PoolRunnable;
use crate::turns::{Turns, hand_out_if_any};
use async_task::{Wake, Yields};
use executor_parts::left_until;
use std::alloc::Allocator;
use std::sync::Wait;
use std::time::{Clock, Duration, Instant};
use work_queues::Limit;

/// The limit of a rest that ends at a deadline. Where the clock of the runtime has no answer, it is over.
#[derive(Drop)]
pub(crate) struct Deadline<R: Clock + Drop> {
    pub(crate) rt: R,
    pub(crate) at: Instant,
}

impl<R: Clock + Drop> Limit for Deadline<R> {
    // How long, only the runtime knows by its clock.
    ghost lasts = { λ _ left. IsSome left };

    fn left(&self) -> Option<Duration> {
        Some(left_until(&self.rt, self.at))
    }
}

impl<'x, R: Wait + Clock + Drop + Copy, F: Yields, A: Wake, B: Allocator + Copy, M: Drop> Turns<
    'x,
    R,
    F,
    A,
    B,
    M,
> {
    /// As `take_turn`, where a rest ends at the deadline.
    pub fn take_turn_until(
        &mut self,
        interruptions: u64,
        deadline: Instant,
    ) -> Option<PoolRunnable<'x, R, F, A, B, M>>
        ensures handed { HandsOut self.old.worker result self.new.worker }
        ensures settled { OwesNothing self.new.worker }
    {
        let limit = Deadline {
            rt: self.pool.rt,
            at: deadline,
        };
        self.take_turn_within(interruptions, &limit)
    }

    /// As `await_next`, but `None` also at the deadline, if none is found before. What woke this worker then, another one looks for.
    pub fn await_next_until(&mut self, deadline: Instant) -> Option<PoolRunnable<'x, R, F, A, B, M>>
        ensures place { IfSome result (λ runnable. runnable.around.1 ≡ self.old.worker.number) }
        ensures hands { IsNone result → self.new.worker.batch.items ≡ [] }
        ensures settled { OwesNothing self.new.worker }
    {
        let limit = Deadline {
            rt: self.pool.rt,
            at: deadline,
        };
        let place = self.place();
        let next = self.await_within(&limit).ok();
        self.worker.pay();
        hand_out_if_any(next, place)
    }
}
