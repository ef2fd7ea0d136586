//! What a oneshot keeps under its lock: the value once it was sent, and the waker of who waits for it.
ghost use Rattle.std.specs.Prelude.{◌≡◌, None, Some, true, false, IsTrue, IfOk, IfErr, IsOk, IsSome, Err, is_some, is_none, ⊤};

use super::{Answer, Asked, Own};
use crate::due::{Due, Spare};
use crate::shared::Begins;
use std::mem;

/// The sender of a oneshot is there. It has no `Drop`, and ends only where the state is told that the sender is gone, or gets the value.
#[must_use]
pub struct OneSenderEnd(());

/// The receiver of a oneshot is there. It has no `Drop`, and ends only where the state is told that the receiver is gone.
#[must_use]
pub struct OneReceiverEnd(());

// The two ends of a oneshot.
pub(crate) fn both_ends() -> (OneSenderEnd, OneReceiverEnd) {
    (OneSenderEnd(()), OneReceiverEnd(()))
}

/// A value that is sent once, or the waker of who waits for it.
#[derive(Drop)]
pub struct Single<T, W> {
    pub(crate) value: Option<T>,
    pub(crate) waker: Option<W>,
    // Whether the sender may still send.
    pub(crate) sending: bool,
    // Whether the receiver is there.
    pub(crate) receiving: bool,
    // A waker waits only while a value may come, and none is here.
    ghost none_idle: { is_some waker ≡ true → (is_none value ≡ true) × (sending ≡ true) },
}

impl<T: Drop, W: Drop> Begins<()> for Single<T, W> {
    ghost begins = { λ _ _. ⊤ };

    fn first(&self) {}
}

impl<T: Drop, W: Drop> Single<T, W> {
    ghost use Rattle.future_parts.specs.Oneshots.{Polled};

    /// Neither a value nor a waker. Both ends are there.
    pub fn new() -> Single<T, W>
        ensures { (result.value ≡ None) × (result.waker ≡ None) × (result.sending ≡ true) × (result.receiving ≡ true) }
    {
        Single {
            value: None,
            waker: None,
            sending: true,
            receiving: true,
        }
    }

    /// Sends the value: the sender is gone then. An error hands it back where the receiver is gone, or a value was sent.
    pub fn send(&mut self, end: OneSenderEnd, value: T) -> Result<Due<W>, T>
        ensures sent { (self.old.receiving ≡ true) → (self.old.sending ≡ true) → IsOk result }
        ensures gone { self.old.receiving ≡ false → result ≡ Err value }
        ensures value { IfOk result (λ due. (self.new.value ≡ Some value) × (due.waker ≡ self.old.waker)) }
        ensures over { IfOk result (λ _. (self.new.waker ≡ None) × (self.new.sending ≡ false) × (self.new.receiving ≡ true)) }
        ensures back { IfErr result (λ back. (back ≡ value) × (self.new ≡ self.old)) }
    {
        let OneSenderEnd(()) = end;
        if !self.receiving || !self.sending {
            return Err(value);
        }
        self.sending = false;
        let waker = self.waker.take();
        self.value = Some(value);
        Ok(Due::new(waker))
    }

    /// The sender is gone. Who waits is to be woken.
    pub fn sender_gone(&mut self, end: OneSenderEnd) -> Due<W>
        ensures due { result.waker ≡ self.old.waker }
        ensures over { (self.new.waker ≡ None) × (self.new.sending ≡ false) }
        ensures value { (self.new.value ≡ self.old.value) × (self.new.receiving ≡ self.old.receiving) }
    {
        let OneSenderEnd(()) = end;
        self.sending = false;
        Due::new(self.waker.take())
    }

    /// The receiver is gone: later sends are handed back. The answer has a value that was not received, and the waker.
    pub fn receiver_gone(&mut self, end: OneReceiverEnd) -> Spare<(Option<T>, Option<W>)>
        ensures out { result.value ≡ (self.old.value, self.old.waker) }
        ensures over { (self.new.value ≡ None) × (self.new.waker ≡ None) × (self.new.receiving ≡ false) × (self.new.sending ≡ self.old.sending) }
    {
        let OneReceiverEnd(()) = end;
        self.receiving = false;
        Spare::new((self.value.take(), self.waker.take()))
    }

    /// Receives the value, or has this waker wait for it, in place of the one before. `Closed` says that no value will come: the sender is gone, or the value was handed out.
    pub fn poll(&mut self, own: Own<W>) -> (Asked<W>, Option<T>)
        ensures polled { Polled result.0.answer result.1 self.old own.waker self.new result.0.spare }
        ensures waits { result.0.answer ≡ Answer.Waits → IsSome own.waker }
    {
        let Own { waker } = own;
        if let Some(value) = self.value.take() {
            return (Asked::new(Answer::Taken, waker), Some(value));
        }
        if !self.sending {
            return (Asked::new(Answer::Closed, waker), None);
        }
        let asked = match waker {
            Some(waker) => Asked::new(Answer::Waits, mem::replace(&mut self.waker, Some(waker))),
            None => Asked::new(Answer::Refused, None),
        };
        (asked, None)
    }
}
