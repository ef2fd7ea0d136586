//! A timer that is due again and again.
ghost use Rattle.std.specs.Prelude.{◌≡◌, ◌+◌, ◌*◌, ◌-◌, ◌^◌, ◌<◌, ◌≤◌, min, IfOk};
ghost use Rattle.std.specs.Duration.{as_nanos};
ghost use Rattle.std.specs.Arc.{arc_value};
ghost use Rattle.future_time.specs.Sleeps.{SleepPolled};
ghost use Rattle.future_time.specs.Ticking.{TickPolled};

use crate::entry::{Elapsed, Look, TimerKey, own_waker};
use crate::sleep::Closed;
use crate::ticks::{LAST_TICK, ticks_of};
use crate::timers::{TimerError, Timers};
use std::sync::Wait;
use std::time::{Clock, Duration};
use task_core::{Future, Poll, Wake, Yields};

/// A timer that is due once each period. Its drop ends it.
///
/// Each time is one period after the time before it, also where a poll came late (tokio's `Burst`): the times that were missed come at once, one poll after the other, and none is left out.
pub struct Interval<R: Wait + Clock + Drop + Copy, W: Wake> {
    timers: Timers<R, W>,
    pub(crate) key: TimerKey,
    pub(crate) period: u64,
}

impl<R: Wait + Clock + Drop + Copy, W: Wake> Drop for Interval<R, W> {
    fn drop(self) {
        let Interval {
            timers,
            key,
            period: _,
        } = self;
        timers.remove(key);
    }
}

impl<R: Wait + Clock + Drop + Copy, W: Wake> Timers<R, W> {
    /// A timer that is due each time that `period` has passed, the first time one period after this call. The period is rounded up to whole milliseconds, and is one at least.
    ///
    /// Its memory is asked for here, and its polls need none. An error says that there is no timer.
    pub fn interval(&self, period: Duration) -> Result<Interval<R, W>, TimerError>
        ensures period { IfOk result (λ interval. (1 ≤ interval.period) × (interval.period < LAST_TICK → as_nanos period ≤ interval.period * 1_000_000)) }
        ensures first { IfOk result (λ interval. interval.period ≤ interval.key.when) }
        ensures timers { IfOk result (λ interval. arc_value interval.timers.shared ≡ arc_value self.now.shared) }
    {
        let timers = self.try_clone().ok_or(TimerError::Refused)?;
        let period = ticks_of(period).max(1);
        let start = self.shared.ticks.tick_for(self.now()?);
        let key = self.add(start.saturating_add(period))?;
        Ok(Interval {
            timers,
            key,
            period,
        })
    }
}

impl<R: Wait + Clock + Drop + Copy, W: Wake> Interval<R, W> {
    /// A future of the next time. One that is dropped before it is ready takes no time away.
    pub fn tick(&mut self) -> Tick<'_, R, W>
        ensures { result.interval.now ≡ self.old }
    {
        Tick { interval: self }
    }

    /// Polls for the next time, for a future of your own: what `Sleep::poll` answers for it. Once it is over, the interval is set for the one after it.
    pub fn poll_tick(&mut self, waker: &W) -> Poll<Result<Elapsed, Closed>>
        ensures { TickPolled W.cloned W.woken_by_ref self.old waker.now result self.new }
    {
        let shared = &self.timers.shared;
        let clone = own_waker(waker);
        let mut unlocked = shared.unlocked();
        let mut table = unlocked.lock(&shared.rt);
        let looked = table.poll(&self.key, clone);
        if let Look::Over(_) = looked.look() {
            let next = self.key.when().saturating_add(self.period);
            let (before, notice) = table.set(&mut self.key, next);
            drop(table);
            notice.tell(&shared.earlier);
            before.discard(&unlocked);
        } else {
            drop(table);
        }
        looked.settle(waker, &unlocked)
    }
}

/// The future of `Interval::tick`.
#[derive(Drop)]
pub struct Tick<'a, R: Wait + Clock + Drop + Copy, W: Wake> {
    interval: &'a mut Interval<R, W>,
}

impl<'a, R: Wait + Clock + Drop + Copy, W: Wake> Yields for Tick<'a, R, W> {
    type Output = Result<Elapsed, Closed>;
}

impl<'a, R: Wait + Clock + Drop + Copy, W: Wake> Future<W> for Tick<'a, R, W> {
    ghost polled = { λ old waker answer new. TickPolled W.cloned W.woken_by_ref old.interval.now waker answer new.interval.now };

    fn poll(&mut self, waker: &W) -> Poll<Result<Elapsed, Closed>> {
        self.interval.poll_tick(waker)
    }
}
