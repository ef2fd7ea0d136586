//! What a semaphore keeps under its lock: its permits, each free, assigned to a waiter, or lent.
ghost use Rattle.std.specs.Prelude.{◌≡◌, ◌≢◌, ◌<◌, ◌≤◌, ◌+◌, ◌-◌, ◌^◌, ◌↔◌, ◌⊎◌, [], None, Some, true, false, IfOk, IfSome, IsSome, IsTrue, length};
ghost use Rattle.std.specs.Option.{option_to_list};

use crate::asked::permits::{Numbers, Permits};
use crate::asked::{Answer, Asked, Own, Place};
use crate::due::Due;
use crate::shared::Begins;
use std::alloc::{AllocError, Global};

/// A permit is lent. It has no `Drop`, and ends only where that is given back.
#[must_use]
pub struct Lease(());

/// The permits of a semaphore, and the line of those who wait for one.
#[derive(Drop)]
pub struct Lent<W: Drop> {
    pub(crate) permits: Permits<W>,
    pub(crate) lent: usize,
    pub(crate) all: usize,
    // Each permit is in one place.
    ghost conserved: { permits.free + permits.given + lent ≡ all },
    ghost small: { all < 2 ^ 64 },
    ghost open: { permits.closed ≡ false },
}

impl<W: Drop> Begins<Numbers> for Lent<W> {
    ghost begins = { λ state first. (first.free ≡ state.permits.free) × (first.room ≡ state.permits.line.room) };

    fn first(&self) -> Numbers {
        self.permits.numbers()
    }
}

impl<W: Drop> Lent<W> {
    ghost use Rattle.future_parts.specs.Asked.{waiting, spot, FirstOut, SameLine, Same, HandedOn, LeavesLine, NotRefused, Polled, Leaves};
    ghost use Rattle.future_parts.specs.Semaphore.{lent_by, GivenBack};

    /// So many permits, all of them free, and memory for `room` waiters. An error says that memory was refused.
    pub fn new(alloc: Global, all: usize, room: usize) -> Result<Lent<W>, AllocError>
        ensures free { IfOk result (λ state. (state.permits.free ≡ all) × (state.all ≡ all)) }
        ensures line { IfOk result (λ state. (waiting state.permits.line ≡ []) × (state.permits.line.room ≡ room)) }
    {
        let permits = Permits::new(alloc, all, room)?;
        Ok(Lent {
            permits,
            lent: 0,
            all,
        })
    }

    /// Lends a free permit, if there is one. Where one waits, none is free.
    pub fn try_take(&mut self) -> Option<Lease>
        ensures taken { IsSome result ↔ (0 < self.old.permits.free) }
        ensures lent { self.new.lent ≡ self.old.lent + length (option_to_list result) }
        ensures free { self.new.permits.free + length (option_to_list result) ≡ self.old.permits.free }
        ensures line { SameLine self.old.permits self.new.permits }
        ensures all { self.new.all ≡ self.old.all }
    {
        if !self.permits.try_take() {
            return None;
        }
        self.lent += 1;
        Some(Lease(()))
    }

    /// Asks for a permit, as `Permits::poll_take`. One that is taken is lent from then on.
    pub fn poll_take(&mut self, place: &mut Place, own: Own<W>) -> (Asked<W>, Option<Lease>)
        ensures polled { Polled result.0.answer self.old.permits place.old.number own.waker self.new.permits place.new.number result.0.spare }
        ensures reserved { NotRefused result.0.answer self.old.permits own.waker }
        ensures waits { result.0.answer ≡ Answer.Waits → IsSome own.waker }
        ensures open { result.0.answer ≢ Answer.Closed }
        ensures outside { result.0.answer ≡ Answer.Taken → place.new.number ≡ None }
        ensures lease { IsSome result.1 ↔ (result.0.answer ≡ Answer.Taken) }
        ensures lent { self.new.lent ≡ self.old.lent + lent_by result.0.answer }
        ensures all { self.new.all ≡ self.old.all }
    {
        let asked = self.permits.poll_take(place, own);
        if asked.answer() != Answer::Taken {
            return (asked, None);
        }
        self.lent += 1;
        (asked, Some(Lease(())))
    }

    /// Takes a lent permit back: the waiter that came first has it then, or it is free. Where none is lent nothing happens.
    pub fn give_back(&mut self, lease: Lease) -> Due<W>
        ensures back { 0 < self.old.lent → GivenBack self.old self.new result.waker }
        ensures none { self.old.lent ≡ 0 → Same self.old.permits self.new.permits × (self.new.lent ≡ 0) × (result.waker ≡ None) }
        ensures all { self.new.all ≡ self.old.all }
    {
        let Lease(()) = lease;
        if self.lent == 0 {
            return Due::new(None);
        }
        self.lent -= 1;
        self.permits.add()
    }

    /// Gives a place up, as `Permits::leave`.
    pub fn leave(&mut self, place: Place) -> Due<W>
        ensures left { Leaves place.number self.old.permits self.new.permits result.waker }
        ensures lent { self.new.lent ≡ self.old.lent }
        ensures all { self.new.all ≡ self.old.all }
    {
        self.permits.leave(place)
    }
}
