//! The timers that threads share, and how they are driven.
ghost use Rattle.std.specs.Prelude.{◌≡◌, IfErr, IfOk, IfSome};
ghost use Rattle.std.specs.Arc.{arc_value};

use crate::entry::table::{Ended, TimerTable};
use crate::entry::{Due, Firing, TimerKey};
use crate::shared::Shared;
use crate::ticks::Ticks;
use std::alloc::{AllocError, Global};
use std::io;
use std::sync::{Arc, Wait};
use std::time::{Clock, Instant};
use task_core::Wake;
use thiserror::Error;

/// Why there is no timer.
#[derive(Clone, Copy, Debug, PartialEq, Eq, Error)]
#[error("{}", self.words())]
pub enum TimerError {
    /// Memory was refused, or the timers have as many owners as can be counted.
    Refused,
    /// The clock could not be read, or ends before that time.
    Clock,
}

impl TimerError {
    pub(crate) fn words(&self) -> &'static str {
        match self {
            TimerError::Refused => "no memory for the timer",
            TimerError::Clock => "the clock has no such time",
        }
    }
}

impl From<TimerError> for io::Error {
    fn from(error: TimerError) -> io::Error {
        io::Error::other(error.words())
    }
}

impl From<AllocError> for TimerError {
    ghost use Rattle.future_time.specs.declared.timers.TimerError.{TimerError};

    ghost from_gives = { λ _ error. error ≡ TimerError.Refused };

    fn from(_: AllocError) -> TimerError {
        TimerError::Refused
    }
}

/// Timers for futures that are polled by wakers of type `W`. All owners share one table, under one lock.
///
/// They fire only while they are driven: by a thread in `run`, or by a worker that calls `fire`. A tick is a millisecond.
#[derive(Drop)]
pub struct Timers<R: Wait + Clock + Drop + Copy, W: Wake> {
    pub(crate) shared: Arc<Shared<R, W>>,
}

impl<R: Wait + Clock + Drop + Copy, W: Wake> Timers<R, W> {
    /// No timers yet. `rt` is what their calls wait by and their clock, `alloc` where their memory comes from. It has no clause, since no contract sees through the lock: `TimerTable::new` has.
    pub fn new(rt: R, alloc: Global) -> Result<Timers<R, W>, TimerError> {
        let start = Instant::now(&rt).ok().ok_or(TimerError::Clock)?;
        let table = TimerTable::new(alloc)?;
        let shared = Shared::new(rt, Ticks { start }, table);
        let shared = Arc::new(alloc, shared).ok().ok_or(TimerError::Refused)?;
        Ok(Timers { shared })
    }

    /// One more owner of the same timers. `None` says that there are as many as can be counted.
    pub fn try_clone(&self) -> Option<Timers<R, W>>
        ensures { IfSome result (λ other. arc_value other.shared ≡ arc_value self.now.shared) }
    {
        let shared = Arc::try_clone(&self.shared).ok()?;
        Some(Timers { shared })
    }

    // The time on the clock.
    pub(crate) fn now(&self) -> Result<Instant, TimerError>
        ensures { IfErr result (λ error. error ≡ TimerError.Clock) }
    {
        Instant::now(&self.shared.rt).ok().ok_or(TimerError::Clock)
    }

    // A timer that is due at this tick, and the key of it.
    pub(crate) fn add(&self, when: u64) -> Result<TimerKey, TimerError>
        ensures { IfOk result (λ key. key.when ≡ when) }
    {
        let made = self.shared.unlocked().lock(&self.shared.rt).add(when);
        let (key, notice) = made?;
        notice.tell(&self.shared.earlier);
        Ok(key)
    }

    // Ends a timer, and drops the waker that it had.
    pub(crate) fn remove(&self, key: TimerKey) {
        let mut unlocked = self.shared.unlocked();
        let spare = unlocked.lock(&self.shared.rt).remove(key);
        spare.discard(&unlocked);
    }

    // Carries a duty out, step by step: takes the lock for each, and wakes without it.
    fn wake_each<D, G: Fn(&mut TimerTable<W>, D) -> Option<(Due<W>, D)>>(&self, begun: D, step: G)
        requires { G.IsAlwaysCallable step }
    {
        let mut unlocked = self.shared.unlocked();
        let mut duty = begun;
        for _ in self.shared.rt.forever() {
            let stepped = step(&mut *unlocked.lock(&self.shared.rt), duty);
            let Some((due, rest)) = stepped else {
                return;
            };
            due.wake(&unlocked);
            duty = rest;
        }
        unreachable!()
    }

    /// Fires each timer that is due at `now`, in the order of their ticks, and answers the instant at which to call this next: no timer is due before it. `None` where no timer waits.
    ///
    /// A timer that is made after this call may be due sooner. It has no clause, as `new`: `TimerTable::fire` has.
    pub fn fire(&self, now: Instant) -> Option<Instant> {
        self.wake_each(Firing::begin(&self.shared.ticks, now), TimerTable::fire);
        self.next_deadline()
    }

    /// The instant at which to call `fire` next: no timer is due before it. `None` where no timer waits. It has no clause, as `new`: `TimerTable::next_deadline` has.
    pub fn next_deadline(&self) -> Option<Instant> {
        let next = self.shared.unlocked().lock(&self.shared.rt).next_deadline();
        self.shared.ticks.instant_of(next?)
    }

    /// Drives the timers on this thread until they are closed: sleeps until the next deadline, or until a timer is made that is due sooner.
    ///
    /// `Ok` shows that they were closed. An error says that the clock could not be read: these timers are not driven by this call any more.
    pub fn run(&self) -> Result<Ended, TimerError>
        ensures { IfErr result (λ error. error ≡ TimerError.Clock) }
    {
        for _ in self.shared.rt.forever() {
            let now = self.now()?;
            self.wake_each(Firing::begin(&self.shared.ticks, now), TimerTable::fire);
            if let Some(ended) = self.rest(now) {
                return Ok(ended);
            }
        }
        unreachable!()
    }

    // Sleeps until the next deadline, or until it is told of an earlier one; not where the timers are closed.
    fn rest(&self, now: Instant) -> Option<Ended> {
        let mut unlocked = self.shared.unlocked();
        let mut table = unlocked.lock(&self.shared.rt);
        if let Some(ended) = table.ended() {
            return Some(ended);
        }
        let Shared {
            rt,
            ticks,
            earlier,
            ..
        } = &*self.shared;
        table.rest().sleep(rt, ticks, now, earlier, table);
        None
    }

    /// Closes the timers: each future that still awaits one is woken, and answers `Closed`, as do those that are made from now on. `run` returns. It has no clause, as `new`: `TimerTable::close` and `release` have.
    pub fn close(&self) {
        let (closing, notice) = self.shared.unlocked().lock(&self.shared.rt).close();
        notice.tell(&self.shared.earlier);
        self.wake_each(closing, TimerTable::release);
    }

    /// How many timers there are: one for each future of these timers that is there. It has no clause, as `new`: `TimerTable::len` has.
    pub fn len(&self) -> usize {
        self.shared.unlocked().lock(&self.shared.rt).len()
    }
}
