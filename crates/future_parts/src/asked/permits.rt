//! Permits that are free or assigned, and the line of those who wait for one.
ghost use Rattle.std.specs.Prelude.{◌≡◌, ◌≢◌, ◌<◌, ◌≤◌, ◌+◌, ◌-◌, ◌^◌, ◌↔◌, ℕ, [], None, Some, true, false, IfOk, IfSome, IsSome, IsTrue, length, ◌⊎◌};
ghost use Rattle.std.specs.Option.{option_to_list};

use super::line::Line;
use super::{Answer, Asked, Own, Place};
use crate::due::{Due, Step};
use std::alloc::{AllocError, Global};

/// The duty to wake all that wait in a line which was closed. It has no `Drop`, and ends only where the line is found empty.
#[must_use]
pub struct Sweep(());

/// Permits: those that are free, those that are assigned to a waiter that left the line and has not taken its own yet, and the line.
#[derive(Drop)]
pub struct Permits<W: Drop> {
    pub(crate) free: usize,
    pub(crate) given: usize,
    pub(crate) closed: bool,
    pub(crate) line: Line<W>,
    // No permit is free while one waits for it.
    ghost none_idle: { 0 < free → length line.waiters.items ≡ 0 },
    // Who waits, and who was assigned a permit, joined the line once.
    ghost joined: { length line.waiters.items + given ≤ line.next },
    ghost small: { free + given < 2 ^ 64 },
}

/// How many permits are free, and for how many waiters there is memory.
#[derive(Drop)]
pub struct Numbers {
    pub free: usize,
    pub room: usize,
}

impl<W: Drop> Permits<W> {
    ghost use Rattle.future_parts.specs.Asked.{waiting, spot, FirstOut, Added, SameRest, Same, SameLine, TakenFrom, Joined, Renewed, Polled, SameCounts, LeavesLine, HandedOn, NotRefused, woken_by, Leaves};

    /// So many free permits, and an empty line with memory for `room` waiters. An error says that memory was refused.
    pub fn new(alloc: Global, free: usize, room: usize) -> Result<Permits<W>, AllocError>
        ensures free { IfOk result (λ permits. (permits.free ≡ free) × (permits.given ≡ 0) × (permits.closed ≡ false)) }
        ensures line { IfOk result (λ permits. (waiting permits.line ≡ []) × (permits.line.room ≡ room) × (permits.line.next ≡ 0)) }
    {
        let line = Line::new(alloc, room)?;
        Ok(Permits {
            free,
            given: 0,
            closed: false,
            line,
        })
    }

    // How many permits are free, and for how many waiters there is memory.
    pub(crate) fn numbers(&self) -> Numbers
        ensures { (result.free ≡ self.now.free) × (result.room ≡ self.now.line.room) }
    {
        Numbers {
            free: self.free,
            room: self.line.room,
        }
    }

    /// Adds a permit: to the waiter that came first, or to those that are free where none waits.
    pub fn add(&mut self) -> Due<W>
        requires { self.old.free + self.old.given + 1 < 2 ^ 64 }
        ensures { Added self.old self.new result.waker }
    {
        Due::new(self.assign())
    }

    // The same. Answers the waker that is to be woken.
    pub(crate) fn assign(&mut self) -> Option<W>
        requires { self.old.free + self.old.given + 1 < 2 ^ 64 }
        ensures { Added self.old self.new result }
    {
        let waker = self.line.take_first();
        match &waker {
            Some(_) => self.given += 1,
            None => self.free += 1,
        }
        waker
    }

    /// Takes a free permit, if there is one.
    pub fn try_take(&mut self) -> bool
        ensures taken { IsTrue result ↔ (0 < self.old.free) }
        ensures free { self.new.free ≡ self.old.free - 1 }
        ensures given { self.new.given ≡ self.old.given }
        ensures closed { self.new.closed ≡ self.old.closed }
        ensures line { SameLine self.old self.new }
    {
        if self.free == 0 {
            return false;
        }
        self.free -= 1;
        true
    }

    // Takes the permit that is assigned to a place which left the line, or else a free one.
    fn take(&mut self, place: &mut Place) -> bool
        ensures taken { result ≡ true → TakenFrom place.old.number self.old self.new × (place.new.number ≡ None) }
        ensures none { result ≡ false → (self.old.free ≡ 0) × (IsSome place.old.number → self.old.given ≡ 0) × Same self.old self.new × (place.new.number ≡ place.old.number) }
    {
        if place.number.is_some() && self.given > 0 {
            self.given -= 1;
            place.number = None;
            return true;
        }
        if self.try_take() {
            place.number = None;
            return true;
        }
        false
    }

    // Lets a waker join the line.
    fn join(&mut self, place: &mut Place, waker: Option<W>) -> Asked<W>
        requires { self.old.free ≡ 0 }
        ensures joined { Joined result.answer self.old place.old.number waker self.new place.new.number result.spare }
        ensures reserved { NotRefused result.answer self.old waker }
        ensures waits { result.answer ≡ Answer.Waits → IsSome waker }
        ensures open { result.answer ≢ Answer.Closed }
    {
        let Some(waker) = waker else {
            return Asked::new(Answer::Refused, None);
        };
        match self.line.join(place, waker) {
            Ok(()) => Asked::new(Answer::Waits, None),
            Err(waker) => Asked::new(Answer::Refused, Some(waker)),
        }
    }

    // Gives the waiter at an index the waker of its last poll.
    fn renew(&mut self, index: usize, waker: Option<W>) -> Asked<W>
        requires { index < length (waiting self.old.line) }
        ensures renewed { Renewed index result.answer self.old waker self.new result.spare }
        ensures reserved { NotRefused result.answer self.old waker }
        ensures waits { result.answer ≡ Answer.Waits → IsSome waker }
        ensures open { result.answer ≢ Answer.Closed }
    {
        let Some(waker) = waker else {
            return Asked::new(Answer::Refused, None);
        };
        Asked::new(Answer::Waits, Some(self.line.renew(index, waker)))
    }

    /// Asks for a permit, for a place and a clone of the waker that it is polled by.
    ///
    /// A place that stands in the line waits on, by this waker. A place that left it takes the permit that was assigned to it. Any other takes a free one, or joins the line at its end.
    pub fn poll_take(&mut self, place: &mut Place, own: Own<W>) -> Asked<W>
        ensures polled { Polled result.answer self.old place.old.number own.waker self.new place.new.number result.spare }
        ensures reserved { NotRefused result.answer self.old own.waker }
        ensures outside { result.answer ≡ Answer.Taken → place.new.number ≡ None }
        ensures waits { result.answer ≡ Answer.Waits → IsSome own.waker }
        ensures closed { result.answer ≡ Answer.Closed → self.old.closed ≡ true }
    {
        let Own { waker } = own;
        if let Some(index) = self.line.position(place) {
            return self.renew(index, waker);
        }
        if self.take(place) {
            return Asked::new(Answer::Taken, waker);
        }
        if self.closed {
            place.number = None;
            return Asked::new(Answer::Closed, waker);
        }
        self.join(place, waker)
    }

    /// What who asks is answered where nothing is to be had any more.
    pub fn none_left(&self, own: Own<W>) -> Asked<W>
        requires { self.now.closed ≡ true }
        ensures { (result.answer ≡ Answer.Closed) × (result.spare ≡ own.waker) }
    {
        let Own { waker } = own;
        Asked::new(Answer::Closed, waker)
    }

    // Ends a place. True where a permit was assigned to it, which is nowhere now. The waker that waited for it is not needed.
    pub(crate) fn end(&mut self, place: Place) -> (bool, Option<W>)
        ensures out { IfSome (spot place.number (waiting self.old.line)) (λ index. (result.0 ≡ false) × LeavesLine self.old self.new index) }
        ensures had { spot place.number (waiting self.old.line) ≡ None → IsSome place.number → 0 < self.old.given → result.0 ≡ true }
        ensures none { spot place.number (waiting self.old.line) ≡ None → (self.old.given ≡ 0) ⊎ (place.number ≡ None) → result.0 ≡ false }
        ensures given { result.0 ≡ true → (self.new.given + 1 ≡ self.old.given) × (self.new.free ≡ self.old.free) × (self.new.closed ≡ self.old.closed) × SameLine self.old self.new }
        ensures counts { result.0 ≡ false → SameCounts self.old self.new }
        ensures same { result.0 ≡ false → spot place.number (waiting self.old.line) ≡ None → SameLine self.old self.new }
    {
        let found = self.line.position(&place);
        let Place { number } = place;
        if let Some(index) = found {
            return (false, Some(self.line.take_at(index)));
        }
        if number.is_some() && self.given > 0 {
            self.given -= 1;
            return (true, None);
        }
        (false, None)
    }

    /// Gives a place up. Its waiter leaves the line, and a permit that was assigned to it goes on: to the waiter that came first, or to those that are free.
    pub fn leave(&mut self, place: Place) -> Due<W>
        ensures kept { self.new.free + self.new.given ≡ self.old.free + self.old.given }
        ensures closed { self.new.closed ≡ self.old.closed }
        ensures left { Leaves place.number self.old self.new result.waker }
    {
        let (had, spare) = self.end(place);
        let waker = if had { self.assign() } else { None };
        Due::with_spare(waker, spare)
    }

    /// Closes: who asks from now on takes what is left, and does not wait. Who waits in the line is to be woken.
    pub fn close(&mut self) -> Sweep
        ensures closed { self.new.closed ≡ true }
        ensures counts { (self.new.free ≡ self.old.free) × (self.new.given ≡ self.old.given) }
        ensures line { SameLine self.old self.new }
    {
        self.closed = true;
        Sweep(())
    }

    /// A step of a sweep: takes the waiter that came first out of the line, to be woken. Done where none is left.
    pub fn sweep(&mut self, sweep: Sweep) -> Step<W, Sweep>
        ensures counts { SameCounts self.old self.new × SameRest self.old self.new }
        ensures first { FirstOut (waiting self.old.line) (woken_by result) (waiting self.new.line) }
    {
        match self.line.take_first() {
            Some(waker) => Step::Next(Due::new(Some(waker)), sweep),
            None => {
                let Sweep(()) = sweep;
                Step::Done
            }
        }
    }
}
