//! What a table of timers has of each timer, what it takes, and what it hands out: it alone makes and ends these.
ghost use Rattle.std.specs.Prelude.{◌≡◌, ◌-◌, ◌*◌, ◌≤◌, IfSome, MatchOption, Ok, Err};
ghost use Rattle.std.specs.Duration.{as_nanos};
ghost use Rattle.std.specs.Time.{instant_nanos};

use crate::shared::Unlocked;
use crate::sleep::Closed;
use crate::ticks::Ticks;
use std::sync::{Condvar, MutexGuard, Wait};
use std::time::{Clock, Duration, Instant};
use table::TimerTable;
use task_core::{Poll, Wake};

pub(crate) mod table;

/// A timer: the tick at which it is due, and the waker of the future that awaits it.
#[derive(Drop)]
pub struct Entry<W: Drop> {
    when: u64,
    waker: Option<W>,
}

/// The key of a timer, for its owner, and the tick at which it is due. It has no `Drop`: it ends in `TimerTable::remove`, so no timer is left behind.
pub struct TimerKey {
    key: usize,
    when: u64,
}

impl TimerKey {
    /// The tick at which the timer is due.
    pub fn when(&self) -> u64
        ensures { result ≡ self.now.when }
    {
        self.when
    }
}

/// The duty to fire each timer that is due at a tick which the clock has reached. It has no `Drop`: it ends where a table has none that is due.
#[must_use]
pub struct Firing {
    tick: u64,
    start: Instant,
    now: Instant,
    // The tick is not after the instant.
    ghost reached: { tick * 1_000_000 ≤ instant_nanos now - instant_nanos start },
}

impl Firing {
    // Begins to fire what is due at an instant.
    pub(crate) fn begin(ticks: &Ticks, now: Instant) -> Firing
        ensures { (result.now ≡ now) × (result.start ≡ ticks.now.start) }
    {
        Firing {
            tick: ticks.tick_at(now),
            start: ticks.start,
            now,
        }
    }
}

/// The waker of a timer that has fired, to be woken. It has no `Drop`: it ends in `wake`.
#[must_use]
pub struct Due<W: Drop> {
    key: usize,
    waker: Option<W>,
}

impl<W: Drop> Due<W> {
    // The waker that was taken out of the entry of a key, if there was one.
    fn new(key: usize, waker: Option<W>) -> Due<W>
        ensures { (result.key ≡ key) × (result.waker ≡ waker) }
    {
        Due { key, waker }
    }
}

impl<W: Wake> Due<W> {
    /// Wakes the future that awaits the timer, if it was polled. A wake is foreign code, so the lock has to be free.
    pub fn wake(self, _unlocked: &Unlocked<'_, W>)
        ensures { IfSome self.waker (λ waker. (ended : W.Record) × W.woken waker ended) }
    {
        let Due { key: _, waker } = self;
        if let Some(waker) = waker {
            waker.wake();
        }
    }
}

/// A waker that is not needed, or none. It has no `Drop`: it ends in `discard`.
#[must_use]
pub struct Spare<W: Drop> {
    waker: Option<W>,
}

impl<W: Drop> Spare<W> {
    // A waker that was taken out of a table.
    fn new(waker: Option<W>) -> Spare<W>
        ensures { result.waker ≡ waker }
    {
        Spare { waker }
    }

    /// Drops the waker, which is foreign code, so the lock has to be free. It has no clause: no contract says that a value was dropped.
    pub fn discard(self, _unlocked: &Unlocked<'_, W>) {
        let Spare { waker } = self;
        drop(waker);
    }
}

/// That timers which are closed still have wakers to be woken. It has no `Drop`: it ends in the last call of `TimerTable::release`.
#[must_use]
pub struct Closing(());

/// Where a driver sleeps.
#[derive(Drop)]
pub struct Driver(Condvar);

impl Driver {
    // None sleeps yet.
    pub(crate) fn new() -> Driver {
        Driver(Condvar::new())
    }
}

/// The tick until which a driver sleeps, as its table has noted. It has no `Drop`: it ends in `sleep`, and no driver sleeps without it.
#[must_use]
pub struct Rest {
    until: Option<u64>,
}

impl Rest {
    // Sleeps until then, or until the driver is told of an earlier timer.
    pub(crate) fn sleep<R: Wait + Clock, W: Drop>(
        self,
        rt: &R,
        ticks: &Ticks,
        now: Instant,
        driver: &Driver,
        table: MutexGuard<'_, TimerTable<W>>,
    ) {
        let Rest { until } = self;
        match until {
            Some(next) => {
                driver.0.wait_timeout(rt, table, ticks.until(next, now));
            }
            None => {
                driver.0.wait(rt, table);
            }
        }
    }
}

/// Whether the driver has to be told of a timer that is due before the time until which it sleeps. It has no `Drop`: it ends in `tell`.
#[must_use]
pub struct Notice {
    is_due: bool,
}

impl Notice {
    /// Tells the driver, where it has to be told. It has no clause, since a `Condvar` shows nothing to contracts: a test sees that a driver is told.
    pub fn tell(self, driver: &Driver) {
        let Notice { is_due } = self;
        if is_due {
            driver.0.notify_all();
        }
    }
}

/// Shows that the time had reached the tick of a timer when it ended.
#[derive(Clone, Copy, Debug, PartialEq, Eq)]
pub struct Elapsed {
    when: u64,
    reached: u64,
    ghost due: { when ≤ reached },
}

impl Elapsed {
    /// How much later than at its tick the timers were fired.
    pub fn late(&self) -> Duration
        ensures { as_nanos result ≡ (self.now.reached - self.now.when) * 1_000_000 }
    {
        Duration::from_millis(self.reached - self.when)
    }
}

/// What a poll finds of a timer.
#[derive(Clone, Copy, Debug, PartialEq, Eq)]
pub enum Look {
    /// Its time is over.
    Over(Elapsed),
    /// It was closed before its time.
    Closed,
    /// It is not due, and has the waker now.
    Waits,
    /// It is not due, and there was no waker to be had.
    Unregistered,
}

/// A clone of the waker that a poll was lent, or none where it is refused. It has no `Drop`: a table takes it, so a poll that has made one looks.
#[must_use]
pub struct Own<W> {
    waker: Option<W>,
}

/// A clone of the waker that a poll was lent.
pub(crate) fn own_waker<W: Wake>(waker: &W) -> Own<W>
    ensures { MatchOption result.waker ((refused : W.Record) × W.cloned waker.now (Err refused)) (λ clone. W.cloned waker.now (Ok clone)) }
{
    Own {
        waker: waker.try_clone().ok(),
    }
}

/// What a poll found, and a waker that is not needed. A table alone makes it. It has no `Drop`: it ends in `settle`, so a poll without a clone of its waker wakes that.
#[must_use]
pub struct Looked<W: Drop> {
    look: Look,
    spare: Option<W>,
}

impl<W: Drop> Looked<W> {
    // What was found, and a waker that is not needed.
    fn new(look: Look, spare: Option<W>) -> Looked<W>
        ensures { result.look ≡ look }
    {
        Looked { look, spare }
    }

    /// What was found.
    pub fn look(&self) -> Look
        ensures { result ≡ self.now.look }
    {
        self.look
    }
}

impl<W: Wake> Looked<W> {
    ghost use Rattle.future_time.specs.Sleeps.{IsAnswer};

    /// What the poll by this waker answers, once the lock is free. Where no clone of the waker was to be had, it is woken, so that the future is polled again.
    pub fn settle(self, waker: &W, _unlocked: &Unlocked<'_, W>) -> Poll<Result<Elapsed, Closed>>
        ensures { IsAnswer ((ended : W.Record) × W.woken_by_ref waker.now ended) self.look result }
    {
        let Looked { look, spare } = self;
        drop(spare);
        match look {
            Look::Over(elapsed) => Poll::Ready(Ok(elapsed)),
            Look::Closed => Poll::Ready(Err(Closed)),
            Look::Waits => Poll::Pending,
            Look::Unregistered => {
                waker.wake_by_ref();
                Poll::Pending
            }
        }
    }
}
