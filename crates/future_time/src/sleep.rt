//! The future that is ready at a time.
ghost use Rattle.std.specs.Prelude.{◌≡◌, ◌+◌, ◌-◌, ◌*◌, ◌<◌, ◌≤◌, IfOk};
ghost use Rattle.std.specs.Arc.{arc_value};
ghost use Rattle.std.specs.Time.{instant_nanos};
ghost use Rattle.future_time.specs.Sleeps.{SleepPolled, IsAfter};

use crate::entry::{Elapsed, TimerKey, own_waker};
use crate::ticks::LAST_TICK;
use crate::timers::{TimerError, Timers};
use std::io;
use std::sync::Wait;
use std::time::{Clock, Duration, Instant};
use task_core::{Future, Poll, Wake, Yields};
use thiserror::Error;

/// The timers were closed before the time.
#[derive(Clone, Copy, Debug, PartialEq, Eq, Error)]
#[error("the timers were closed")]
pub struct Closed;

impl From<Closed> for io::Error {
    fn from(_closed: Closed) -> io::Error {
        io::Error::other("the timers were closed")
    }
}

/// The future of `Timers::sleep` and `Timers::sleep_until`. Its drop ends its timer.
pub struct Sleep<R: Wait + Clock + Drop + Copy, W: Wake> {
    timers: Timers<R, W>,
    pub(crate) key: TimerKey,
}

impl<R: Wait + Clock + Drop + Copy, W: Wake> Drop for Sleep<R, W> {
    fn drop(self) {
        let Sleep { timers, key } = self;
        timers.remove(key);
    }
}

impl<R: Wait + Clock + Drop + Copy, W: Wake> Timers<R, W> {
    /// A future that is ready once that time is over, counted from this call, and the timers were fired.
    ///
    /// Its memory is asked for here, and its polls need none. An error says that there is no timer.
    pub fn sleep(&self, duration: Duration) -> Result<Sleep<R, W>, TimerError>
        ensures after { IfOk result (λ sleep. IsAfter (arc_value self.now.shared).ticks.start duration sleep.key.when) }
        ensures timers { IfOk result (λ sleep. arc_value sleep.timers.shared ≡ arc_value self.now.shared) }
    {
        let now = self.now()?;
        let deadline = now.checked_add(duration).ok_or(TimerError::Clock)?;
        self.sleep_until(deadline)
    }

    /// A future that is ready once this instant has come, and the timers were fired. It has to be of the clock of the timers.
    ///
    /// Its memory is asked for here, and its polls need none. An error says that there is no timer.
    pub fn sleep_until(&self, deadline: Instant) -> Result<Sleep<R, W>, TimerError>
        ensures when { IfOk result (λ sleep. sleep.key.when < LAST_TICK → instant_nanos deadline ≤ instant_nanos (arc_value self.now.shared).ticks.start + sleep.key.when * 1_000_000) }
        ensures least { IfOk result (λ sleep. sleep.key.when * 1_000_000 < (instant_nanos deadline - instant_nanos (arc_value self.now.shared).ticks.start) + 1_000_000) }
        ensures timers { IfOk result (λ sleep. arc_value sleep.timers.shared ≡ arc_value self.now.shared) }
    {
        let timers = self.try_clone().ok_or(TimerError::Refused)?;
        let when = self.shared.ticks.tick_for(deadline);
        let key = self.add(when)?;
        Ok(Sleep { timers, key })
    }
}

impl<R: Wait + Clock + Drop + Copy, W: Wake> Yields for Sleep<R, W> {
    type Output = Result<Elapsed, Closed>;
}

impl<R: Wait + Clock + Drop + Copy, W: Wake> Future<W> for Sleep<R, W> {
    ghost polled = { λ old waker answer new. SleepPolled W.cloned W.woken_by_ref old.key.when waker answer × (new.key ≡ old.key) };

    fn poll(&mut self, waker: &W) -> Poll<Result<Elapsed, Closed>> {
        let shared = &self.timers.shared;
        let clone = own_waker(waker);
        let mut unlocked = shared.unlocked();
        let looked = unlocked.lock(&shared.rt).poll(&self.key, clone);
        looked.settle(waker, &unlocked)
    }
}
