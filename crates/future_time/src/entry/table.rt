//! What timers keep under their lock: an entry for each timer, its deadline in a wheel, and the time that was reached.
ghost use Rattle.std.specs.Prelude.{◌≡◌, ◌≢◌, ℕ, ◌+◌, ◌-◌, ◌^◌, ◌≤◌, ◌<◌, ◌↔◌, max, true, false, None, Some, IfOk, OnErr, IfSome, IfNone, IsSome, unwrap_or};
ghost use Rattle.slab.specs.Slab.{get, slab_len, Updates, SameValues};
ghost use Rattle.futures.specs.LinkedLists.Wheel.{deadline_of, key_limit, EachDeadline, SameDeadlines, Sets};
ghost use Rattle.future_time.specs.Orders.{IsNext};
ghost use Rattle.future_time.specs.Tables.{when_of, waker_of, IsSeen, TakesWaker};

use super::{
    Closing, Due, Elapsed, Entry, Firing, Look, Looked, Notice, Own, Rest, Spare, TimerKey,
};
use crate::order::next_key;
use crate::ticks::LAST_TICK;
use futures::util::wheel::Wheel;
use slab::Slab;
use std::alloc::{AllocError, Global};

/// Shows that timers were closed: nothing but their table makes it.
#[derive(Clone, Copy, Debug, PartialEq, Eq)]
pub struct Ended {
    closed: bool,
    ghost by_close: { closed ≡ true },
}

/// Timers under keys. Times are ticks, from 0 to 2^64 - 1.
///
/// A timer whose key has a deadline in the wheel waits. One without has fired, or was due when it was set, or the table is closed.
#[derive(Drop)]
pub struct TimerTable<W: Drop> {
    wheel: Wheel,
    entries: Slab<Entry<W>>,
    // The latest time that `fire` was given.
    reached: u64,
    closed: bool,
    // Until when a driver sleeps that was not told of an earlier timer.
    rests_until: Option<u64>,
    ghost keyed: { (key when : ℕ) → deadline_of wheel key ≡ Some when → when_of (get entries key) ≡ Some when },
    ghost ahead: { EachDeadline wheel (λ when. wheel.elapsed ≤ when) },
    ghost behind: { closed ≡ false → wheel.elapsed ≤ reached },
    ghost room: { (key : ℕ) → get entries key ≢ None → key < key_limit wheel },
    ghost woken: { (key : ℕ) → deadline_of wheel key ≡ None → waker_of (get entries key) ≡ None },
    ghost fired: { (key when : ℕ) → when_of (get entries key) ≡ Some when → deadline_of wheel key ≡ None → closed ≡ false → when ≤ reached },
    ghost told: { (until : ℕ) → rests_until ≡ Some until → EachDeadline wheel (λ when. until ≤ when) },
}

impl<W: Drop> TimerTable<W> {
    ghost use Rattle.future_time.specs.Kept.{SameTimers};

    /// No timers yet, at tick 0.
    pub fn new(alloc: Global) -> Result<TimerTable<W>, AllocError>
        ensures reached { IfOk result (λ table. table.reached ≡ 0) }
        ensures empty { IfOk result (λ table. (key : ℕ) → get table.entries key ≡ None) }
    {
        Ok(TimerTable {
            wheel: Wheel::new(alloc)?,
            entries: Slab::new(alloc),
            reached: 0,
            closed: false,
            rests_until: None,
        })
    }

    /// Takes the key of the timer that comes due first, where that is no later than `until`, and the waker out of its entry.
    fn take_due(&mut self, until: u64) -> Option<Due<W>>
        requires { self.old.closed ≡ false → until ≤ self.old.reached }
        ensures first { IfSome result (λ due. IsNext self.old.wheel until due.key) }
        ensures once { IfSome result (λ due. Sets self.old.wheel self.new.wheel due.key None) }
        ensures waker { IfSome result (λ due. due.waker ≡ waker_of (get self.old.entries due.key)) }
        ensures taken { IfSome result (λ due. TakesWaker self.old.entries self.new.entries due.key) }
        ensures none { IfNone result (EachDeadline self.new.wheel (λ when. until < when)) }
        ensures kept { IfNone result (SameDeadlines self.old.wheel self.new.wheel × (self.new.entries ≡ self.old.entries)) }
        ensures reached { self.new.reached ≡ self.old.reached }
        ensures closed { self.new.closed ≡ self.old.closed }
    {
        let key = next_key(&mut self.wheel, until)?;
        let waker = match self.entries.get_mut(key) {
            Some(entry) => entry.waker.take(),
            None => None,
        };
        Some(Due::new(key, waker))
    }

    /// Fires one timer that is due, the one that comes due first. `None` says that none is due, and ends the duty.
    ///
    /// A tick before one that was given earlier counts as that one.
    pub fn fire(&mut self, firing: Firing) -> Option<(Due<W>, Firing)>
        ensures first { IfSome result (λ fired. IsNext self.old.wheel firing.tick fired.0.key) }
        ensures once { IfSome result (λ fired. Sets self.old.wheel self.new.wheel fired.0.key None) }
        ensures waker { IfSome result (λ fired. fired.0.waker ≡ waker_of (get self.old.entries fired.0.key)) }
        ensures taken { IfSome result (λ fired. TakesWaker self.old.entries self.new.entries fired.0.key) }
        ensures rest { IfSome result (λ fired. fired.1 ≡ firing) }
        ensures none { IfNone result (EachDeadline self.new.wheel (λ when. firing.tick < when)) }
        ensures kept { IfNone result (SameDeadlines self.old.wheel self.new.wheel × (self.new.entries ≡ self.old.entries)) }
        ensures reached { self.new.reached ≡ max self.old.reached firing.tick }
        ensures closed { self.new.closed ≡ self.old.closed }
    {
        self.reached = self.reached.max(firing.tick);
        let due = self.take_due(firing.tick);
        let Some(due) = due else {
            let Firing {
                tick: _,
                start: _,
                now: _,
            } = firing;
            return None;
        };
        Some((due, firing))
    }

    /// Closes the timers: none that is not due yet will fire. The drivers have to be told, and each timer that waits is to be released.
    pub fn close(&mut self) -> (Closing, Notice)
        ensures closed { self.new.closed ≡ true }
        ensures told { result.1.is_due ≡ true }
        ensures kept { (self.new.wheel ≡ self.old.wheel) × (self.new.entries ≡ self.old.entries) × (self.new.reached ≡ self.old.reached) }
    {
        self.closed = true;
        (Closing(()), Notice { is_due: true })
    }

    /// Takes out the waker of a timer that still waits, though the timers are closed. `None` says that none waits.
    pub fn release(&mut self, closing: Closing) -> Option<(Due<W>, Closing)>
        ensures once { IfSome result (λ released. Sets self.old.wheel self.new.wheel released.0.key None) }
        ensures waker { IfSome result (λ released. released.0.waker ≡ waker_of (get self.old.entries released.0.key)) }
        ensures taken { IfSome result (λ released. TakesWaker self.old.entries self.new.entries released.0.key) }
        ensures none { IfNone result (EachDeadline self.new.wheel (λ when. 2 ^ 64 ≤ when)) }
        ensures closed { self.new.closed ≡ true }
        ensures reached { self.new.reached ≡ self.old.reached }
    {
        self.closed = true;
        let due = self.take_due(LAST_TICK);
        let Some(due) = due else {
            let Closing(()) = closing;
            return None;
        };
        Some((due, closing))
    }

    /// Shows that the timers are closed. `None` says that they are not.
    pub fn ended(&self) -> Option<Ended>
        ensures { IsSome result ↔ (self.now.closed ≡ true) }
    {
        if !self.closed {
            return None;
        }
        Some(Ended {
            closed: self.closed,
        })
    }

    /// How many timers there are: those that wait, and those that have fired and are not removed yet.
    pub fn len(&self) -> usize
        ensures { result ≡ slab_len self.now.entries }
    {
        self.entries.len()
    }

    /// The time at which to call `fire` next: no timer comes due before it. `None` where none waits. It may be sooner than the first timer is due.
    pub fn next_deadline(&self) -> Option<u64>
        ensures not_late { IfSome result (λ at. EachDeadline self.now.wheel (λ when. at ≤ when)) }
        ensures idle { IfNone result (EachDeadline self.now.wheel (λ _. ⊥)) }
    {
        self.wheel.poll_at()
    }

    /// As `next_deadline`, for a driver that sleeps until then: it is told of a timer that comes due sooner.
    pub fn rest(&mut self) -> Rest
        ensures not_late { IfSome result.until (λ at. EachDeadline self.new.wheel (λ when. at ≤ when)) }
        ensures idle { IfNone result.until (EachDeadline self.new.wheel (λ _. ⊥)) }
        ensures noted { self.new.rests_until ≡ Some (unwrap_or result.until (2 ^ 64 - 1)) }
        ensures kept { SameTimers self.old self.new }
    {
        let until = self.next_deadline();
        self.rests_until = Some(until.unwrap_or(LAST_TICK));
        Rest { until }
    }

    // Whether a driver rests that has to be told of a timer for this tick, which then rests no longer.
    fn notice(&mut self, when: u64) -> Notice
        ensures told { IfSome self.new.rests_until (λ until. until ≤ when) }
        ensures due { result.is_due ≡ true → self.new.rests_until ≡ None }
        ensures stays { result.is_due ≡ false → self.new.rests_until ≡ self.old.rests_until }
        ensures kept { SameTimers self.old self.new }
    {
        let is_due = match self.rests_until {
            Some(until) => when < until,
            None => false,
        };
        if is_due {
            self.rests_until = None;
        }
        Notice { is_due }
    }

    // Whether a timer for this tick waits: it is not due, and the timers are open.
    fn is_to_wait(&self, when: u64) -> bool
        ensures waits { result ≡ true → (self.now.closed ≡ false) × (self.now.reached < when) }
        ensures is_due { result ≡ false → self.now.closed ≡ false → when ≤ self.now.reached }
    {
        !self.closed && self.reached < when
    }

    /// Makes a timer that is due at `when`, with its room, and its key. Where memory is refused there is none.
    pub fn add(&mut self, when: u64) -> Result<(TimerKey, Notice), AllocError>
        ensures key { IfOk result (λ made. made.0.when ≡ when) }
        ensures entry { IfOk result (λ made. Updates self.old.entries self.new.entries made.0.key (Some (record { when = when; waker = None }))) }
        ensures was_free { IfOk result (λ made. get self.old.entries made.0.key ≡ None) }
        ensures waits { IfOk result (λ made. self.old.closed ≡ false → self.old.reached < when → Sets self.old.wheel self.new.wheel made.0.key (Some when)) }
        ensures refused { OnErr result (SameValues self.old.entries self.new.entries × SameDeadlines self.old.wheel self.new.wheel) }
        ensures told { IfOk result (λ made. made.1.is_due ≡ false → self.new.rests_until ≡ self.old.rests_until) }
        ensures reached { (self.new.reached ≡ self.old.reached) × (self.new.closed ≡ self.old.closed) }
    {
        self.entries.reserve(1)?;
        self.wheel.reserve_key(self.entries.vacant_key())?;
        let notice = self.notice(when);
        let waits = self.is_to_wait(when);
        let key = self.entries.insert_reserved(Entry { when, waker: None });
        if waits {
            self.wheel.insert(key, when);
        }
        Ok((TimerKey { key, when }, notice))
    }

    /// Sets a timer again, for `when`, without asking for memory. Answers the waker that it had.
    pub fn set(&mut self, key: &mut TimerKey, when: u64) -> (Spare<W>, Notice)
        ensures entry { get self.old.entries key.old.key ≢ None → Updates self.old.entries self.new.entries key.old.key (Some (record { when = when; waker = None })) }
        ensures waker { result.0.waker ≡ waker_of (get self.old.entries key.old.key) }
        ensures waits { get self.old.entries key.old.key ≢ None → self.old.closed ≡ false → self.old.reached < when → Sets self.old.wheel self.new.wheel key.old.key (Some when) }
        ensures key { key.new ≡ record key.old { when = when } }
        ensures told { result.1.is_due ≡ false → self.new.rests_until ≡ self.old.rests_until }
        ensures reached { (self.new.reached ≡ self.old.reached) × (self.new.closed ≡ self.old.closed) }
    {
        let notice = self.notice(when);
        let waits = self.is_to_wait(when);
        key.when = when;
        let Some(entry) = self.entries.get_mut(key.key) else {
            return (Spare::new(None), notice);
        };
        let waker = entry.waker.take();
        entry.when = when;
        if waits {
            self.wheel.insert(key.key, when);
        } else {
            self.wheel.remove(key.key);
        }
        (Spare::new(waker), notice)
    }

    /// Ends a timer: it never fires, and its room is free. Answers the waker that it had.
    pub fn remove(&mut self, key: TimerKey) -> Spare<W>
        ensures gone { Updates self.old.entries self.new.entries key.key None }
        ensures disarmed { Sets self.old.wheel self.new.wheel key.key None }
        ensures waker { result.waker ≡ waker_of (get self.old.entries key.key) }
        ensures reached { (self.new.reached ≡ self.old.reached) × (self.new.closed ≡ self.old.closed) }
    {
        let TimerKey { key, when: _ } = key;
        self.wheel.remove(key);
        let waker = match self.entries.try_remove(key) {
            Some(entry) => entry.waker,
            None => None,
        };
        Spare::new(waker)
    }

    /// Looks at a timer for its future. One that waits has the waker then. A key of other timers finds none, which counts as closed.
    pub fn poll(&mut self, key: &TimerKey, own: Own<W>) -> Looked<W>
        ensures seen { IsSeen self.old.reached self.old.closed (get self.old.entries key.now.key) key.now.when own.waker result.look }
        ensures registered { result.look ≡ Look.Waits → waker_of (get self.new.entries key.now.key) ≡ own.waker }
        ensures armed { result.look ≡ Look.Waits → deadline_of self.new.wheel key.now.key ≡ when_of (get self.new.entries key.now.key) }
        ensures times { (other : ℕ) → when_of (get self.new.entries other) ≡ when_of (get self.old.entries other) }
        ensures others { (other : ℕ) → other ≢ key.now.key → get self.new.entries other ≡ get self.old.entries other }
        ensures kept { (self.new.wheel ≡ self.old.wheel) × (self.new.reached ≡ self.old.reached) × (self.new.closed ≡ self.old.closed) × (self.new.rests_until ≡ self.old.rests_until) }
    {
        let Own { waker } = own;
        let reached = self.reached;
        let closed = self.closed;
        let Some(entry) = self.entries.get_mut(key.key) else {
            return Looked::new(Look::Closed, waker);
        };
        let when = key.when;
        if entry.when != when {
            return Looked::new(Look::Closed, waker);
        }
        if when <= reached {
            return Looked::new(Look::Over(Elapsed { when, reached }), waker);
        }
        if closed {
            return Looked::new(Look::Closed, waker);
        }
        match waker {
            Some(waker) => Looked::new(Look::Waits, entry.waker.replace(waker)),
            None => Looked::new(Look::Unregistered, None),
        }
    }
}
