//! What a `Notify` keeps under its lock: at most one notification that nobody has, and the line of those who wait for one.
ghost use Rattle.std.specs.Prelude.{◌≡◌, ◌≢◌, ◌<◌, ◌≤◌, ◌+◌, ◌^◌, ◌⊎◌, [], None, Some, true, false, IfOk, IfSome, IsSome, length};
ghost use Rattle.std.specs.Option.{option_to_list};

use crate::asked::permits::{Numbers, Permits};
use crate::asked::{Answer, Asked, Own, Place};
use crate::due::{Due, Step};
use crate::shared::Begins;
use std::alloc::{AllocError, Global};

/// The duty to wake those that waited when it began: the waiters with a number below a limit. It has no `Drop`, and ends only where none of them comes first.
#[must_use]
pub struct Notice {
    limit: u64,
}

/// Notifications: one that is kept, those that are assigned to a waiter, and the line.
#[derive(Drop)]
pub struct Notices<W: Drop> {
    pub(crate) permits: Permits<W>,
    ghost one_is_kept: { permits.free ≤ 1 },
    ghost open: { permits.closed ≡ false },
}

impl<W: Drop> Begins<Numbers> for Notices<W> {
    ghost begins = { λ state first. (first.free ≡ state.permits.free) × (first.room ≡ state.permits.line.room) };

    fn first(&self) -> Numbers {
        self.permits.numbers()
    }
}

impl<W: Drop> Notices<W> {
    ghost use Rattle.future_parts.specs.Asked.{waiting, spot, FirstOut, Same, SameCounts, SameLine, LeavesLine, HandedOn, NotRefused, Polled, woken_by};
    ghost use Rattle.future_parts.specs.Notify.{Notified, Told};

    /// No notification, and memory for `room` waiters. An error says that memory was refused.
    pub fn new(alloc: Global, room: usize) -> Result<Notices<W>, AllocError>
        ensures none { IfOk result (λ state. (state.permits.free ≡ 0) × (state.permits.given ≡ 0)) }
        ensures line { IfOk result (λ state. (waiting state.permits.line ≡ []) × (state.permits.line.room ≡ room)) }
    {
        let permits = Permits::new(alloc, 0, room)?;
        Ok(Notices { permits })
    }

    /// Notifies the waiter that came first. Where none waits the notification is kept, unless one is.
    pub fn notify_one(&mut self) -> Due<W>
        ensures { Notified self.old.permits self.new.permits result.waker }
    {
        Due::new(self.assign())
    }

    // The same. Answers the waker that is to be woken.
    fn assign(&mut self) -> Option<W>
        ensures { Notified self.old.permits self.new.permits result }
    {
        if self.permits.free > 0 {
            return None;
        }
        self.permits.assign()
    }

    /// Asks for a notification, as `Permits::poll_take`.
    pub fn poll_take(&mut self, place: &mut Place, own: Own<W>) -> Asked<W>
        ensures polled { Polled result.answer self.old.permits place.old.number own.waker self.new.permits place.new.number result.spare }
        ensures reserved { NotRefused result.answer self.old.permits own.waker }
        ensures waits { result.answer ≡ Answer.Waits → IsSome own.waker }
        ensures open { result.answer ≢ Answer.Closed }
        ensures outside { result.answer ≡ Answer.Taken → place.new.number ≡ None }
    {
        self.permits.poll_take(place, own)
    }

    /// Gives a place up. Its waiter leaves the line, and a notification that was assigned to it notifies another.
    pub fn leave(&mut self, place: Place) -> Due<W>
        ensures out { IfSome (spot place.number (waiting self.old.permits.line)) (λ index. LeavesLine self.old.permits self.new.permits index × (result.waker ≡ None)) }
        ensures on { spot place.number (waiting self.old.permits.line) ≡ None → IsSome place.number → 0 < self.old.permits.given → self.old.permits.free ≡ 0 → HandedOn self.old.permits self.new.permits result.waker }
        ensures none { spot place.number (waiting self.old.permits.line) ≡ None → (self.old.permits.given ≡ 0) ⊎ (place.number ≡ None) → Same self.old.permits self.new.permits × (result.waker ≡ None) }
    {
        let (had, spare) = self.permits.end(place);
        let waker = if had { self.assign() } else { None };
        Due::with_spare(waker, spare)
    }

    /// Begins to notify all that wait now.
    pub fn notify_waiters(&self) -> Notice
        ensures { result.limit ≡ self.now.permits.line.next }
    {
        Notice {
            limit: self.permits.line.next,
        }
    }

    /// A step of it: notifies the waiter that came first. Done where that one joined later, or none waits.
    pub fn tell(&mut self, notice: Notice) -> Step<W, Notice>
        ensures { Told notice.limit self.old.permits self.new.permits result }
    {
        match self.permits.line.first_number() {
            Some(number) if number < notice.limit => Step::Next(self.permits.add(), notice),
            _ => {
                let Notice { limit: _ } = notice;
                Step::Done
            }
        }
    }
}
