//! A notification without a value.
ghost use Rattle.std.specs.Prelude.{◌≡◌, None, Some, true, is_none, IfOk, IfSome};
ghost use Rattle.std.specs.Arc.{arc_value};
ghost use Rattle.future_parts.specs.Shared.{made_with, AwaitPolled};

use crate::asked::permits::Numbers;
use crate::asked::{Answer, Place, own_waker};
use crate::shared::Shared;
use notices::Notices;
use std::alloc::{AllocError, Global};
use std::sync::{Arc, Wait};
use task_core::{Future, Poll, Wake, Yields};

pub(crate) mod notices;

/// A handle by which tasks notify each other. All clones notify the same waiters. `W` is the waker of the futures that wait.
#[derive(Drop)]
pub struct Notify<R: Wait + Drop + Copy, W: Wake> {
    rt: R,
    state: Arc<Shared<Notices<W>, Numbers>>,
}

impl<R: Wait + Drop + Copy, W: Wake> Notify<R, W> {
    /// A `Notify` without a notification. `rt` is what its calls take the lock by, `alloc` where its memory comes from. So many waiters as `room` says need no memory.
    ///
    /// An error says that memory was refused.
    pub fn new(rt: R, alloc: Global, room: usize) -> Result<Notify<R, W>, AllocError>
        ensures room { IfOk result (λ made. (made_with (arc_value made.state)).room ≡ room) }
        ensures none { IfOk result (λ made. (made_with (arc_value made.state)).free ≡ 0) }
    {
        let state = Arc::new(alloc, Shared::new(Notices::new(alloc, room)?))?;
        Ok(Notify { rt, state })
    }

    /// A second handle to the same. It asks for no memory. `None` says that there are as many as can be counted.
    pub fn try_clone(&self) -> Option<Notify<R, W>>
        ensures { IfSome result (λ other. arc_value other.state ≡ arc_value self.now.state) }
    {
        let state = Arc::try_clone(&self.state).ok()?;
        Some(Notify { rt: self.rt, state })
    }

    /// Notifies the future that has waited longest. Where none waits, the notification is kept for the next one, unless one is kept already.
    ///
    /// It has no clause, since no contract sees through the lock: `Notices::notify_one` has, and a test sees that it is called.
    pub fn notify_one(&self) {
        let mut unlocked = self.state.unlocked();
        let due = unlocked.lock(&self.rt).notify_one();
        due.wake(&unlocked);
    }

    /// Notifies all futures that wait now: those that were polled. Nothing is kept for later ones.
    ///
    /// It has no clause, as `notify_one`: `Notices::tell` has.
    pub fn notify_waiters(&self) {
        let notice = self.state.unlocked().lock(&self.rt).notify_waiters();
        self.state
            .wake_each(&self.rt, notice, |notices, notice| notices.tell(notice));
    }

    /// A future that waits for a notification. It stands in the line from its first poll on.
    ///
    /// Where it is dropped after it was notified and before it answered, the notification goes to the next one, as that of `notify_one` does, whichever call it was.
    pub fn notified(self) -> Notified<R, W>
        ensures { (result.state ≡ Some self.state) × (result.place.number ≡ None) }
    {
        Notified {
            rt: self.rt,
            state: Some(self.state),
            place: Place::outside(),
        }
    }
}

/// The future of `notified`. Its output is the handle that it was made of.
pub struct Notified<R: Wait + Drop + Copy, W: Wake> {
    rt: R,
    // None once it has answered.
    state: Option<Arc<Shared<Notices<W>, Numbers>>>,
    place: Place,
    ghost ended: { is_none state ≡ true → place.number ≡ None },
}

impl<R: Wait + Drop + Copy, W: Wake> Drop for Notified<R, W> {
    fn drop(self) {
        let Notified { rt, state, place } = self;
        match state {
            Some(state) => state.wake_after(&rt, place, Notices::leave),
            None => place.end(),
        }
    }
}

impl<R: Wait + Drop + Copy, W: Wake> Yields for Notified<R, W> {
    type Output = Notify<R, W>;
}

impl<R: Wait + Drop + Copy, W: Wake> Future<W> for Notified<R, W> {
    ghost polled = { λ old waker answer new. AwaitPolled W.cloned W.woken_by_ref (λ handle. handle.state) old.state waker answer new.state };

    fn poll(&mut self, waker: &W) -> Poll<Notify<R, W>> {
        let Some(state) = &self.state else {
            return Poll::Pending;
        };
        let own = own_waker(waker);
        let mut unlocked = state.unlocked();
        let asked = unlocked.lock(&self.rt).poll_take(&mut self.place, own);
        if asked.settle(waker, &unlocked) != Answer::Taken {
            return Poll::Pending;
        }
        match self.state.take() {
            Some(state) => Poll::Ready(Notify { rt: self.rt, state }),
            None => unreachable!(),
        }
    }
}
