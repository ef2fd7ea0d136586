//! What a mutex keeps under its lock: the value while nobody has it, and the line of those who wait for it.
ghost use Rattle.std.specs.Prelude.{◌≡◌, ◌≢◌, ◌<◌, ◌≤◌, ◌+◌, ◌⊎◌, [], None, Some, true, false, IfOk, IfErr, IsOk, IfSome, IsSome, length, option_map};
ghost use Rattle.std.specs.Option.{option_to_list};

use crate::asked::permits::{Numbers, Permits};
use crate::asked::{Answer, Asked, Own, Place};
use crate::due::Due;
use crate::shared::Begins;
use std::alloc::{AllocError, Global};

/// The value of a mutex is out. It has no `Drop`, and ends only where that is put back.
#[must_use]
pub struct ValueLease(());

/// A value that is here, free or assigned to a waiter, or out; and the line.
#[derive(Drop)]
pub struct KeptValue<T, W: Drop> {
    pub(crate) permits: Permits<W>,
    pub(crate) value: Option<T>,
    // There is a permit exactly where the value is here.
    ghost one: { permits.free + permits.given ≡ length (option_to_list value) },
    ghost open: { permits.closed ≡ false },
}

impl<T: Drop, W: Drop> Begins<Numbers> for KeptValue<T, W> {
    ghost begins = { λ state first. (first.free ≡ state.permits.free) × (first.room ≡ state.permits.line.room) };

    fn first(&self) -> Numbers {
        self.permits.numbers()
    }
}

impl<T: Drop, W: Drop> KeptValue<T, W> {
    ghost use Rattle.future_parts.specs.Asked.{waiting, spot, FirstOut, SameLine, Same, LeavesLine, HandedOn, NotRefused, Polled, Leaves};
    ghost use Rattle.future_parts.specs.Mutex.{PutBack, ValueHandedOut};

    /// The value, which is free, and memory for `room` waiters. An error says that memory was refused. The value is dropped then.
    pub fn new(alloc: Global, value: T, room: usize) -> Result<KeptValue<T, W>, AllocError>
        ensures value { IfOk result (λ state. (state.value ≡ Some value) × (state.permits.free ≡ 1)) }
        ensures line { IfOk result (λ state. (waiting state.permits.line ≡ []) × (state.permits.line.room ≡ room)) }
    {
        let permits = Permits::new(alloc, 1, room)?;
        Ok(KeptValue {
            permits,
            value: Some(value),
        })
    }

    /// Hands the value out where it is free. Where one waits it is not.
    pub fn try_take(&mut self) -> Option<(T, ValueLease)>
        ensures free { 0 < self.old.permits.free → (option_map (λ out. out.0) result ≡ self.old.value) × IsSome result × (self.new.value ≡ None) }
        ensures line { (self.new.permits.given ≡ self.old.permits.given) × SameLine self.old.permits self.new.permits }
        ensures none { self.old.permits.free ≡ 0 → (result ≡ None) × (self.new.value ≡ self.old.value) × Same self.old.permits self.new.permits }
    {
        if !self.permits.try_take() {
            return None;
        }
        let value = self.value.take()?;
        Some((value, ValueLease(())))
    }

    /// Asks for the value, as `Permits::poll_take`. It is handed out where the answer is `Taken`.
    pub fn poll_take(
        &mut self,
        place: &mut Place,
        own: Own<W>,
    ) -> (Asked<W>, Option<(T, ValueLease)>)
        ensures polled { Polled result.0.answer self.old.permits place.old.number own.waker self.new.permits place.new.number result.0.spare }
        ensures reserved { NotRefused result.0.answer self.old.permits own.waker }
        ensures waits { result.0.answer ≡ Answer.Waits → IsSome own.waker }
        ensures open { result.0.answer ≢ Answer.Closed }
        ensures outside { IsSome result.1 → place.new.number ≡ None }
        ensures value { ValueHandedOut result.0.answer self.old.value (option_map (λ out. out.0) result.1) self.new.value }
    {
        let asked = self.permits.poll_take(place, own);
        if asked.answer() != Answer::Taken {
            return (asked, None);
        }
        match self.value.take() {
            Some(value) => (asked, Some((value, ValueLease(())))),
            None => unreachable!(),
        }
    }

    /// Puts the value back: for the waiter that came first, or free where none waits. An error hands it back where there is one here.
    pub fn put(&mut self, value: T, lease: ValueLease) -> Result<Due<W>, T>
        ensures back { self.old.value ≡ None → IsOk result }
        ensures put { IfOk result (λ due. PutBack value self.old self.new due.waker) }
        ensures full { IfErr result (λ back. (back ≡ value) × (self.new.value ≡ self.old.value) × Same self.old.permits self.new.permits) }
    {
        let ValueLease(()) = lease;
        if self.value.is_some() {
            return Err(value);
        }
        self.value = Some(value);
        Ok(self.permits.add())
    }

    /// Gives a place up, as `Permits::leave`. The value stays.
    pub fn leave(&mut self, place: Place) -> Due<W>
        ensures left { Leaves place.number self.old.permits self.new.permits result.waker }
        ensures value { self.new.value ≡ self.old.value }
    {
        self.permits.leave(place)
    }
}
