//! What a channel keeps under its lock: the messages, the line of those who wait for one, and the line of those who wait for room.
ghost use Rattle.std.specs.Prelude.{◌≡◌, ◌<◌, ◌≤◌, ◌+◌, ◌-◌, ◌^◌, ◌⊎◌, ◌++◌, ◌∷◌, [], None, Some, true, false, IfOk, IfErr, IfSome, IsSome, IsNone, OnErr, Err, length, if◌then◌else◌};
ghost use Rattle.std.specs.Option.{option_to_list};
ghost use Rattle.std.specs.VecDeque.{deque_capacity};

use crate::asked::permits::{Permits, Sweep};
use crate::asked::{Answer, Asked, Own, Place};
use crate::due::{Due, Step};
use crate::shared::Begins;
use std::alloc::{AllocError, Global};
use std::collections::VecDeque;
use std::{fmt, io};
use thiserror::Error;

/// Why a message was not sent, with the message.
#[derive(PartialEq, Eq, Drop, Error)]
#[error("{}", self.words())]
pub enum TrySendError<T> {
    /// There is no room for it, or others wait for room.
    Full(T),
    /// All receivers are gone.
    Closed(T),
}

impl<T> TrySendError<T> {
    fn words(&self) -> &'static str {
        match self {
            TrySendError::Full(_) => "the channel is full",
            TrySendError::Closed(_) => "all receivers are gone",
        }
    }
}

/// Shows why, and not the message.
impl<T> fmt::Debug for TrySendError<T> {
    fn fmt<W: fmt::Write>(&self, f: &mut fmt::Formatter<W>) -> fmt::Result {
        match self {
            TrySendError::Full(_) => f.write_str("Full(..)"),
            TrySendError::Closed(_) => f.write_str("Closed(..)"),
        }
    }
}

impl<T: Drop> From<TrySendError<T>> for io::Error {
    fn from(error: TrySendError<T>) -> io::Error {
        io::Error::other(error.words())
    }
}

/// Why no message was received.
#[derive(Clone, Copy, Debug, PartialEq, Eq, Error)]
#[error("{}", self.words())]
pub enum TryReceiveError {
    /// None is here, or others wait for one.
    Empty,
    /// None is here, and all senders are gone.
    Closed,
}

impl TryReceiveError {
    fn words(&self) -> &'static str {
        match self {
            TryReceiveError::Empty => "no message is here",
            TryReceiveError::Closed => "all senders are gone",
        }
    }
}

impl From<TryReceiveError> for io::Error {
    fn from(error: TryReceiveError) -> io::Error {
        io::Error::other(error.words())
    }
}

/// A sender is there. It has no `Drop`, and ends only where the state is told that the sender is gone.
#[must_use]
pub struct SenderEnd(());

/// A receiver is there. It has no `Drop`, and ends only where the state is told that the receiver is gone.
#[must_use]
pub struct ReceiverEnd(());

// The first two ends of a channel.
pub(crate) fn first_ends() -> (SenderEnd, ReceiverEnd) {
    (SenderEnd(()), ReceiverEnd(()))
}

/// What a send that may wait led to.
pub struct Sent<T, W> {
    /// `Taken` where the message was sent, `Closed` where all receivers are gone.
    pub asked: Asked<W>,
    /// The message, where it was not sent.
    pub back: Option<T>,
    /// The receiver that waited for it.
    pub due: Due<W>,
}

/// What a receive that may wait led to.
pub struct Received<T, W> {
    /// `Taken` where there is a message, `Closed` where none is left and all senders are gone.
    pub asked: Asked<W>,
    /// The message.
    pub message: Option<T>,
    /// The sender that waited for the room.
    pub due: Due<W>,
}

/// Messages in the order in which they were sent, with room for a bounded number.
#[derive(Drop)]
pub struct Messages<T, W: Drop> {
    pub(crate) messages: VecDeque<T>,
    // A permit for each message: a receiver takes one with it.
    pub(crate) here: Permits<W>,
    // A permit for each message that there is room for.
    pub(crate) room: Permits<W>,
    pub(crate) bound: usize,
    pub(crate) senders: usize,
    pub(crate) receivers: usize,
    ghost one_each: { here.free + here.given ≡ length messages.items },
    ghost bounded: { room.free + room.given + length messages.items ≡ bound },
    ghost reserved: { bound ≤ deque_capacity messages },
    ghost small: { bound < 2 ^ 64 },
}

/// The room of a channel: for messages, and for waiters on each side.
#[derive(Drop)]
pub struct Bounds {
    pub bound: usize,
    pub receivers: usize,
    pub senders: usize,
}

impl<T: Drop, W: Drop> Begins<Bounds> for Messages<T, W> {
    ghost begins = { λ state first. (first.bound ≡ state.bound) × (first.receivers ≡ state.here.line.room) × (first.senders ≡ state.room.line.room) };

    fn first(&self) -> Bounds {
        Bounds {
            bound: self.bound,
            receivers: self.here.line.room,
            senders: self.room.line.room,
        }
    }
}

impl<T: Drop, W: Drop> Messages<T, W> {
    ghost use Rattle.future_parts.specs.Asked.{waiting, spot, FirstOut, SameLine, Same, SameCounts, LeavesLine, HandedOn, NotRefused, Polled, woken_by, Leaves};
    ghost use Rattle.future_parts.specs.Channels.{unsent, SentTo, ReceivedFrom, SamePeers, SameClosed, Unchanged, SendLed};

    /// No messages, with memory for `bound` of them, and for `waiters` that wait on each side. There is one sender, and one receiver. An error says that memory was refused.
    pub fn new(alloc: Global, bound: usize, waiters: usize) -> Result<Messages<T, W>, AllocError>
        ensures empty { IfOk result (λ state. state.messages.items ≡ []) }
        ensures bound { IfOk result (λ state. (state.bound ≡ bound) × (state.room.free ≡ bound)) }
        ensures peers { IfOk result (λ state. (state.senders ≡ 1) × (state.receivers ≡ 1) × (state.here.closed ≡ false) × (state.room.closed ≡ false)) }
        ensures lines { IfOk result (λ state. (waiting state.here.line ≡ []) × (waiting state.room.line ≡ []) × (state.here.line.room ≡ waiters) × (state.room.line.room ≡ waiters)) }
    {
        let messages = VecDeque::with_capacity(alloc, bound)?;
        let here = Permits::new(alloc, 0, waiters)?;
        let room = Permits::new(alloc, bound, waiters)?;
        Ok(Messages {
            messages,
            here,
            room,
            bound,
            senders: 1,
            receivers: 1,
        })
    }

    /// Sends a message, where there is room and nobody waits for room. It asks for no memory. An error hands it back.
    pub fn try_send(&mut self, message: T) -> Result<Due<W>, TrySendError<T>>
        ensures sent { IfOk result (λ due. (self.old.room.closed ≡ false) × (self.new.room.free + 1 ≡ self.old.room.free) × SentTo message self.old self.new due.waker) }
        ensures waiters { SameLine self.old.room self.new.room }
        ensures closed { self.old.room.closed ≡ true → result ≡ Err (TrySendError.Closed message) }
        ensures full { self.old.room.closed ≡ false → self.old.room.free ≡ 0 → result ≡ Err (TrySendError.Full message) }
        ensures back { IfErr result (λ error. unsent error ≡ message) }
        ensures stays { OnErr result (Unchanged self.old self.new) }
        ensures peers { SamePeers self.old self.new }
    {
        if self.room.closed {
            return Err(TrySendError::Closed(message));
        }
        if !self.room.try_take() {
            return Err(TrySendError::Full(message));
        }
        self.messages.push_back_reserved(message);
        Ok(self.here.add())
    }

    /// Receives the message that was sent first, where one is here and nobody waits for it. The answer has the sender that waited for the room.
    pub fn try_receive(&mut self) -> Result<(T, Due<W>), TryReceiveError>
        ensures received { IfOk result (λ got. (self.new.here.free + 1 ≡ self.old.here.free) × ReceivedFrom got.0 self.old self.new got.1.waker) }
        ensures waiters { SameLine self.old.here self.new.here }
        ensures empty { self.old.here.free ≡ 0 → result ≡ Err (if self.old.here.closed then TryReceiveError.Closed else TryReceiveError.Empty) }
        ensures none { OnErr result (Unchanged self.old self.new) }
        ensures peers { SamePeers self.old self.new }
    {
        if !self.here.try_take() {
            return Err(if self.here.closed {
                TryReceiveError::Closed
            } else {
                TryReceiveError::Empty
            });
        }
        match self.messages.pop_front() {
            Some(message) => Ok((message, self.room.add())),
            None => unreachable!(),
        }
    }

    /// Sends a message, or has the waker wait for room in its place, as `Permits::poll_take`. It asks for no memory for the message.
    pub fn poll_send(&mut self, place: &mut Place, message: T, own: Own<W>) -> Sent<T, W>
        ensures reserved { NotRefused result.asked.answer self.old.room own.waker }
        ensures waits { result.asked.answer ≡ Answer.Waits → IsSome own.waker }
        ensures led { SendLed result.asked.answer self.old place.old.number own.waker self.new place.new.number result.asked.spare }
        ensures sent { result.asked.answer ≡ Answer.Taken → (result.back ≡ None) × SentTo message self.old self.new result.due.waker }
        ensures back { (result.asked.answer ≡ Answer.Taken → ⊥) → (result.back ≡ Some message) × (result.due.waker ≡ None) × (self.new.messages.items ≡ self.old.messages.items) × Same self.old.here self.new.here }
        ensures peers { SamePeers self.old self.new }
    {
        if self.room.closed {
            return Sent {
                asked: self.room.none_left(own),
                back: Some(message),
                due: Due::new(None),
            };
        }
        let asked = self.room.poll_take(place, own);
        if asked.answer() == Answer::Taken {
            self.messages.push_back_reserved(message);
            return Sent {
                asked,
                back: None,
                due: self.here.add(),
            };
        }
        Sent {
            asked,
            back: Some(message),
            due: Due::new(None),
        }
    }

    /// Receives a message, or has the waker wait for one in its place, as `Permits::poll_take`.
    pub fn poll_receive(&mut self, place: &mut Place, own: Own<W>) -> Received<T, W>
        ensures reserved { NotRefused result.asked.answer self.old.here own.waker }
        ensures waits { result.asked.answer ≡ Answer.Waits → IsSome own.waker }
        ensures polled { Polled result.asked.answer self.old.here place.old.number own.waker self.new.here place.new.number result.asked.spare }
        ensures received { result.asked.answer ≡ Answer.Taken → IfSome result.message (λ message. ReceivedFrom message self.old self.new result.due.waker) × IsSome result.message }
        ensures none { (result.asked.answer ≡ Answer.Taken → ⊥) → (result.message ≡ None) × (result.due.waker ≡ None) × (self.new.messages.items ≡ self.old.messages.items) × Same self.old.room self.new.room }
        ensures peers { SamePeers self.old self.new }
    {
        let asked = self.here.poll_take(place, own);
        if asked.answer() == Answer::Taken {
            return match self.messages.pop_front() {
                Some(message) => Received {
                    asked,
                    message: Some(message),
                    due: self.room.add(),
                },
                None => unreachable!(),
            };
        }
        Received {
            asked,
            message: None,
            due: Due::new(None),
        }
    }

    /// Gives up the place of a sender, as `Permits::leave`: room that was assigned to it goes on.
    pub fn leave_room(&mut self, place: Place) -> Due<W>
        ensures left { Leaves place.number self.old.room self.new.room result.waker }
        ensures rest { (self.new.messages.items ≡ self.old.messages.items) × Same self.old.here self.new.here × SamePeers self.old self.new }
    {
        self.room.leave(place)
    }

    /// Gives up the place of a receiver, as `Permits::leave`: a message that was assigned to it goes on.
    pub fn leave_here(&mut self, place: Place) -> Due<W>
        ensures left { Leaves place.number self.old.here self.new.here result.waker }
        ensures rest { (self.new.messages.items ≡ self.old.messages.items) × Same self.old.room self.new.room × SamePeers self.old self.new }
    {
        self.here.leave(place)
    }

    /// One more sender. `None` where there are as many as can be counted, or none is left.
    pub fn add_sender(&mut self) -> Option<SenderEnd>
        ensures added { self.new.senders ≡ self.old.senders + length (option_to_list result) }
        ensures none { IsNone result → (self.old.senders ≡ 0) ⊎ (self.old.senders + 1 ≡ 2 ^ 64) }
        ensures rest { Unchanged self.old self.new × (self.new.receivers ≡ self.old.receivers) × SameClosed self.old self.new }
    {
        if self.senders == 0 || self.senders == usize::MAX {
            return None;
        }
        self.senders += 1;
        Some(SenderEnd(()))
    }

    /// One more receiver. `None` where there are as many as can be counted, or none is left.
    pub fn add_receiver(&mut self) -> Option<ReceiverEnd>
        ensures added { self.new.receivers ≡ self.old.receivers + length (option_to_list result) }
        ensures none { IsNone result → (self.old.receivers ≡ 0) ⊎ (self.old.receivers + 1 ≡ 2 ^ 64) }
        ensures rest { Unchanged self.old self.new × (self.new.senders ≡ self.old.senders) × SameClosed self.old self.new }
    {
        if self.receivers == 0 || self.receivers == usize::MAX {
            return None;
        }
        self.receivers += 1;
        Some(ReceiverEnd(()))
    }

    /// A sender is gone. With the last one the receivers' line is closed, and who waits there is to be woken.
    pub fn sender_gone(&mut self, end: SenderEnd) -> Option<Sweep>
        ensures gone { self.new.senders ≡ self.old.senders - 1 }
        ensures last { self.old.senders ≡ 1 → IsSome result × (self.new.here.closed ≡ true) }
        ensures other { 1 < self.old.senders → IsNone result × (self.new.here.closed ≡ self.old.here.closed) }
        ensures rest { Unchanged self.old self.new × (self.new.receivers ≡ self.old.receivers) × (self.new.room.closed ≡ self.old.room.closed) }
    {
        let SenderEnd(()) = end;
        self.senders = self.senders.saturating_sub(1);
        if self.senders == 0 {
            Some(self.here.close())
        } else {
            None
        }
    }

    /// A receiver is gone. With the last one the senders' line is closed, and who waits there is to be woken. Messages that are here are to be received and dropped then.
    pub fn receiver_gone(&mut self, end: ReceiverEnd) -> Option<Sweep>
        ensures gone { self.new.receivers ≡ self.old.receivers - 1 }
        ensures last { self.old.receivers ≡ 1 → IsSome result × (self.new.room.closed ≡ true) }
        ensures other { 1 < self.old.receivers → IsNone result × (self.new.room.closed ≡ self.old.room.closed) }
        ensures rest { Unchanged self.old self.new × (self.new.senders ≡ self.old.senders) × (self.new.here.closed ≡ self.old.here.closed) }
    {
        let ReceiverEnd(()) = end;
        self.receivers = self.receivers.saturating_sub(1);
        if self.receivers == 0 {
            Some(self.room.close())
        } else {
            None
        }
    }

    /// A step of the sweep of the receivers' line.
    pub fn sweep_here(&mut self, sweep: Sweep) -> Step<W, Sweep>
        ensures first { FirstOut (waiting self.old.here.line) (woken_by result) (waiting self.new.here.line) }
        ensures counts { SameCounts self.old.here self.new.here × Same self.old.room self.new.room }
        ensures rest { (self.new.messages.items ≡ self.old.messages.items) × SamePeers self.old self.new }
    {
        self.here.sweep(sweep)
    }

    /// A step of the sweep of the senders' line.
    pub fn sweep_room(&mut self, sweep: Sweep) -> Step<W, Sweep>
        ensures first { FirstOut (waiting self.old.room.line) (woken_by result) (waiting self.new.room.line) }
        ensures counts { SameCounts self.old.room self.new.room × Same self.old.here self.new.here }
        ensures rest { (self.new.messages.items ≡ self.old.messages.items) × SamePeers self.old self.new }
    {
        self.room.sweep(sweep)
    }
}
