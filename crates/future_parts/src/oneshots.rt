//! A channel for one value.
ghost use Rattle.std.specs.Prelude.{◌≡◌, IfErr, IfOk};
ghost use Rattle.std.specs.Arc.{arc_value};
ghost use Rattle.future_parts.specs.Shared.{IsRegistered};

use crate::asked::single::{OneReceiverEnd, OneSenderEnd, Single, both_ends};
use crate::asked::{Answer, own_waker};
use crate::shared::Shared;
use std::alloc::{AllocError, Global};
use std::sync::{Arc, Wait};
use task_core::{Future, Poll, Wake, Yields};

/// The two ends of a oneshot. `rt` is what its calls take the lock by, `alloc` where its memory comes from: one block, made here. `W` is the waker of the future that waits.
///
/// An error says that memory was refused.
pub fn oneshot<R: Wait + Drop + Copy, T: Drop, W: Wake>(
    rt: R,
    alloc: Global,
) -> Result<(OneSender<R, T, W>, OneReceiver<R, T, W>), AllocError>
    ensures { IfOk result (λ ends. arc_value ends.1.state ≡ arc_value ends.0.state) }
{
    let state = Arc::new(alloc, Shared::new(Single::new()))?;
    let other = Arc::try_clone(&state)?;
    let (sending, receiving) = both_ends();
    let sender = OneSender {
        rt,
        state,
        end: Some(sending),
    };
    let receiver = OneReceiver {
        rt,
        state: other,
        end: receiving,
    };
    Ok((sender, receiver))
}

/// Sends the value. Where it is dropped without, the receiver is answered `None`.
pub struct OneSender<R: Wait + Drop + Copy, T: Drop, W: Wake> {
    rt: R,
    state: Arc<Shared<Single<T, W>, ()>>,
    // None once the value was sent.
    end: Option<OneSenderEnd>,
}

impl<R: Wait + Drop + Copy, T: Drop, W: Wake> OneSender<R, T, W> {
    /// Sends the value, and wakes who waits for it. It asks for no memory. An error hands the value back, where the receiver is gone.
    ///
    /// Of a value that was sent there is no clause, since no contract sees through the lock: `Single::send` has one, and a test sees that it is called.
    pub fn send(mut self, value: T) -> Result<(), T>
        ensures { IfErr result (λ back. back ≡ value) }
    {
        let Some(end) = self.end.take() else {
            return Err(value);
        };
        let mut unlocked = self.state.unlocked();
        let due = unlocked.lock(&self.rt).send(end, value)?;
        due.wake(&unlocked);
        Ok(())
    }
}

impl<R: Wait + Drop + Copy, T: Drop, W: Wake> Drop for OneSender<R, T, W> {
    fn drop(self) {
        let OneSender { rt, state, end } = self;
        if let Some(end) = end {
            state.wake_after(&rt, end, Single::sender_gone);
        }
    }
}

/// The future of the value: its output is `None` where the sender is gone without it. Where it is dropped, a value that was sent is dropped with it.
pub struct OneReceiver<R: Wait + Drop + Copy, T: Drop, W: Wake> {
    rt: R,
    state: Arc<Shared<Single<T, W>, ()>>,
    end: OneReceiverEnd,
}

impl<R: Wait + Drop + Copy, T: Drop, W: Wake> Drop for OneReceiver<R, T, W> {
    fn drop(self) {
        let OneReceiver { rt, state, end } = self;
        let mut unlocked = state.unlocked();
        let left = unlocked.lock(&rt).receiver_gone(end);
        left.discard(&unlocked);
    }
}

impl<R: Wait + Drop + Copy, T: Drop, W: Wake> Yields for OneReceiver<R, T, W> {
    type Output = Option<T>;
}

impl<R: Wait + Drop + Copy, T: Drop, W: Wake> Future<W> for OneReceiver<R, T, W> {
    ghost polled = { λ _ waker answer _. IsRegistered W.cloned W.woken_by_ref waker answer };

    fn poll(&mut self, waker: &W) -> Poll<Option<T>> {
        let own = own_waker(waker);
        let mut unlocked = self.state.unlocked();
        let (asked, value) = unlocked.lock(&self.rt).poll(own);
        match asked.settle(waker, &unlocked) {
            Answer::Taken | Answer::Closed => Poll::Ready(value),
            Answer::Waits | Answer::Refused => Poll::Pending,
        }
    }
}
