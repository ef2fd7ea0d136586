//! A channel of bounded length: any number of senders, and of receivers.
ghost use Rattle.std.specs.Prelude.{◌≡◌, None, Some, IfErr, IfOk, IfSome, max};
ghost use Rattle.std.specs.Arc.{arc_value};
ghost use Rattle.future_parts.specs.Channels.{unsent, SendPolled};
ghost use Rattle.future_parts.specs.Shared.{made_with, IsRegistered};

use crate::asked::{Answer, Place, own_waker};
use crate::shared::Shared;
use messages::{
    Bounds, Messages, Received, ReceiverEnd, SenderEnd, Sent, TryReceiveError, TrySendError,
    first_ends,
};
use std::alloc::{AllocError, Global};
use std::mem;
use std::sync::{Arc, Wait};
use task_core::{Future, Poll, Wake, Yields};

pub(crate) mod messages;

/// The two ends of a channel with room for `bound` messages, which is at least 1. All memory for messages is taken here, and for `waiters` waiters on each side: further ones ask for it.
///
/// `rt` is what its calls take the lock by, `alloc` where its memory comes from. `W` is the waker of the futures that wait. An error says that memory was refused.
pub fn channel<R: Wait + Drop + Copy, T: Drop, W: Wake>(
    rt: R,
    alloc: Global,
    bound: usize,
    waiters: usize,
) -> Result<(Sender<R, T, W>, Receiver<R, T, W>), AllocError>
    ensures bound { IfOk result (λ ends. (made_with (arc_value ends.0.state)).bound ≡ max bound 1) }
    ensures room { IfOk result (λ ends. ((made_with (arc_value ends.0.state)).receivers ≡ waiters) × ((made_with (arc_value ends.0.state)).senders ≡ waiters)) }
    ensures one { IfOk result (λ ends. arc_value ends.1.state ≡ arc_value ends.0.state) }
{
    let state = Arc::new(
        alloc,
        Shared::new(Messages::new(alloc, bound.max(1), waiters)?),
    )?;
    let other = Arc::try_clone(&state)?;
    let (sending, receiving) = first_ends();
    let sender = Sender {
        rt,
        state,
        place: Place::outside(),
        end: sending,
    };
    let receiver = Receiver {
        rt,
        state: other,
        place: Place::outside(),
        end: receiving,
    };
    Ok((sender, receiver))
}

/// Sends messages. It waits for room for one at a time. Where the last sender is gone, the receivers are answered what is left, and then `None`.
pub struct Sender<R: Wait + Drop + Copy, T: Drop, W: Wake> {
    rt: R,
    state: Arc<Shared<Messages<T, W>, Bounds>>,
    place: Place,
    end: SenderEnd,
}

impl<R: Wait + Drop + Copy, T: Drop, W: Wake> Sender<R, T, W> {
    /// One more sender. It asks for no memory. `None` says that there are as many as can be counted.
    pub fn try_clone(&self) -> Option<Sender<R, T, W>>
        ensures { IfSome result (λ other. arc_value other.state ≡ arc_value self.now.state) }
    {
        let state = Arc::try_clone(&self.state).ok()?;
        let added = state.unlocked().lock(&self.rt).add_sender();
        let end = added?;
        Some(Sender {
            rt: self.rt,
            state,
            place: Place::outside(),
            end,
        })
    }

    /// Sends a message at once. An error hands it back: there is no room, or others wait for room, or all receivers are gone.
    ///
    /// Of a message that was sent there is no clause, since no contract sees through the lock: `Messages::try_send` has one, and a test sees that it is called.
    pub fn try_send(&self, message: T) -> Result<(), TrySendError<T>>
        ensures { IfErr result (λ error. unsent error ≡ message) }
    {
        let mut unlocked = self.state.unlocked();
        let due = unlocked.lock(&self.rt).try_send(message)?;
        due.wake(&unlocked);
        Ok(())
    }

    /// Sends the message that `message` has, once there is room: who waits longest has it next. A future that has the sender calls this in its polls.
    ///
    /// `Ready(Ok(()))` says that it was sent, `Ready(Err(_))` hands it back, since all receivers are gone. Where it is pending the message stays in `message`, and this waker is woken once a further poll can help. Where there is no message it is pending and waits for nothing.
    pub fn poll_send(&mut self, message: &mut Option<T>, waker: &W) -> Poll<Result<(), T>>
        ensures { SendPolled W.cloned W.woken_by_ref message.old waker.now result message.new }
    {
        let Some(own_message) = message.take() else {
            return Poll::Pending;
        };
        let own = own_waker(waker);
        let mut unlocked = self.state.unlocked();
        let Sent { asked, back, due } = unlocked
            .lock(&self.rt)
            .poll_send(&mut self.place, own_message, own);
        due.wake(&unlocked);
        let answer = asked.settle(waker, &unlocked);
        let Some(back) = back else {
            return Poll::Ready(Ok(()));
        };
        if answer == Answer::Closed {
            return Poll::Ready(Err(back));
        }
        *message = Some(back);
        Poll::Pending
    }

    /// Stops waiting for room, as after a `poll_send` that was pending. Room that was assigned to it goes to the sender that waits longest.
    pub fn give_up(&mut self)
        ensures { self.new.place.number ≡ None }
    {
        let place = mem::replace(&mut self.place, Place::outside());
        self.state.wake_after(&self.rt, place, Messages::leave_room);
    }

    /// A future that sends a message once there is room. Its output is an error with the message, where all receivers are gone. Where it is dropped half way the message is dropped with it.
    pub fn send(&mut self, message: T) -> Sending<'_, R, T, W>
        ensures { (result.sender.now ≡ self.old) × (result.message ≡ Some message) }
    {
        Sending {
            sender: self,
            message: Some(message),
        }
    }
}

impl<R: Wait + Drop + Copy, T: Drop, W: Wake> Drop for Sender<R, T, W> {
    fn drop(mut self) {
        self.give_up();
        let Sender {
            rt,
            state,
            place,
            end,
        } = self;
        place.end();
        let last = state.unlocked().lock(&rt).sender_gone(end);
        if let Some(sweep) = last {
            state.wake_each(&rt, sweep, |messages, sweep| messages.sweep_here(sweep));
        }
    }
}

/// The future of `send`.
pub struct Sending<'a, R: Wait + Drop + Copy, T: Drop, W: Wake> {
    sender: &'a mut Sender<R, T, W>,
    message: Option<T>,
}

impl<R: Wait + Drop + Copy, T: Drop, W: Wake> Drop for Sending<'_, R, T, W> {
    fn drop(self) {
        let Sending { sender, message } = self;
        sender.give_up();
        drop(message);
    }
}

impl<R: Wait + Drop + Copy, T: Drop, W: Wake> Yields for Sending<'_, R, T, W> {
    type Output = Result<(), T>;
}

impl<R: Wait + Drop + Copy, T: Drop, W: Wake> Future<W> for Sending<'_, R, T, W> {
    ghost polled = { λ old waker answer new. SendPolled W.cloned W.woken_by_ref old.message waker answer new.message };

    fn poll(&mut self, waker: &W) -> Poll<Result<(), T>> {
        self.sender.poll_send(&mut self.message, waker)
    }
}

/// Receives messages, in the order in which they were sent. It waits for one at a time. Where the last receiver is gone, the messages that are left are dropped, and later sends are handed back.
pub struct Receiver<R: Wait + Drop + Copy, T: Drop, W: Wake> {
    rt: R,
    state: Arc<Shared<Messages<T, W>, Bounds>>,
    place: Place,
    end: ReceiverEnd,
}

impl<R: Wait + Drop + Copy, T: Drop, W: Wake> Receiver<R, T, W> {
    /// One more receiver: each message goes to one of them. It asks for no memory. `None` says that there are as many as can be counted.
    pub fn try_clone(&self) -> Option<Receiver<R, T, W>>
        ensures { IfSome result (λ other. arc_value other.state ≡ arc_value self.now.state) }
    {
        let state = Arc::try_clone(&self.state).ok()?;
        let added = state.unlocked().lock(&self.rt).add_receiver();
        let end = added?;
        Some(Receiver {
            rt: self.rt,
            state,
            place: Place::outside(),
            end,
        })
    }

    /// How many senders there are. It has no clause, as a message that was sent.
    pub fn sender_count(&self) -> usize {
        self.state.unlocked().lock(&self.rt).senders
    }

    /// Receives a message at once. An error says that none is here, or others wait for it, or none will come.
    ///
    /// It has no clause, as a message that was sent: `Messages::try_receive` has.
    pub fn try_receive(&self) -> Result<T, TryReceiveError> {
        let mut unlocked = self.state.unlocked();
        let (message, due) = unlocked.lock(&self.rt).try_receive()?;
        due.wake(&unlocked);
        Ok(message)
    }

    /// Receives a message once there is one: who waits longest has it next. A future that has the receiver calls this in its polls.
    ///
    /// `Ready(None)` says that none is left, and all senders are gone. Where it is pending, this waker is woken once a further poll can help.
    pub fn poll_receive(&mut self, waker: &W) -> Poll<Option<T>>
        ensures { IsRegistered W.cloned W.woken_by_ref waker.now result }
    {
        let own = own_waker(waker);
        let mut unlocked = self.state.unlocked();
        let Received {
            asked,
            message,
            due,
        } = unlocked.lock(&self.rt).poll_receive(&mut self.place, own);
        due.wake(&unlocked);
        match asked.settle(waker, &unlocked) {
            Answer::Taken | Answer::Closed => Poll::Ready(message),
            Answer::Waits | Answer::Refused => Poll::Pending,
        }
    }

    /// Stops waiting for a message, as after a `poll_receive` that was pending. One that was assigned to it goes to the receiver that waits longest.
    pub fn give_up(&mut self)
        ensures { self.new.place.number ≡ None }
    {
        let place = mem::replace(&mut self.place, Place::outside());
        self.state.wake_after(&self.rt, place, Messages::leave_here);
    }

    /// A future that receives a message. Its output is `None` where none is left, and all senders are gone. Where it is dropped half way no message is lost.
    pub fn receive(&mut self) -> Receiving<'_, R, T, W>
        ensures { result.receiver.now ≡ self.old }
    {
        Receiving { receiver: self }
    }
}

// Drops the messages that are left once the last receiver is gone, one by one, without the lock.
fn drop_messages<R: Wait, T: Drop, W: Wake>(rt: &R, state: &Shared<Messages<T, W>, Bounds>) {
    let mut unlocked = state.unlocked();
    for _ in rt.forever() {
        let received = unlocked.lock(rt).try_receive();
        match received {
            Ok((message, due)) => {
                due.wake(&unlocked);
                drop(message);
            }
            Err(_) => return,
        }
    }
    unreachable!()
}

impl<R: Wait + Drop + Copy, T: Drop, W: Wake> Drop for Receiver<R, T, W> {
    fn drop(mut self) {
        self.give_up();
        let Receiver {
            rt,
            state,
            place,
            end,
        } = self;
        place.end();
        let last = state.unlocked().lock(&rt).receiver_gone(end);
        if let Some(sweep) = last {
            state.wake_each(&rt, sweep, |messages, sweep| messages.sweep_room(sweep));
            drop_messages(&rt, &state);
        }
    }
}

/// The future of `receive`.
pub struct Receiving<'a, R: Wait + Drop + Copy, T: Drop, W: Wake> {
    receiver: &'a mut Receiver<R, T, W>,
}

impl<R: Wait + Drop + Copy, T: Drop, W: Wake> Drop for Receiving<'_, R, T, W> {
    fn drop(self) {
        let Receiving { receiver } = self;
        receiver.give_up();
    }
}

impl<R: Wait + Drop + Copy, T: Drop, W: Wake> Yields for Receiving<'_, R, T, W> {
    type Output = Option<T>;
}

impl<R: Wait + Drop + Copy, T: Drop, W: Wake> Future<W> for Receiving<'_, R, T, W> {
    ghost polled = { λ _ waker answer _. IsRegistered W.cloned W.woken_by_ref waker answer };

    fn poll(&mut self, waker: &W) -> Poll<Option<T>> {
        self.receiver.poll_receive(waker)
    }
}
