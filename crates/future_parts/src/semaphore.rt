//! A semaphore: permits for a number of holders at a time, and a line for those who wait.
ghost use Rattle.std.specs.Prelude.{◌≡◌, None, Some, true, is_none, IfErr, IfOk, IfSome};
ghost use Rattle.std.specs.Arc.{arc_value};
ghost use Rattle.future_parts.specs.Shared.{made_with, AwaitPolled};

use crate::asked::permits::Numbers;
use crate::asked::{Place, own_waker};
use crate::shared::Shared;
use lent::{Lease, Lent};
use std::alloc::{AllocError, Global};
use std::sync::{Arc, Wait};
use task_core::{Future, Poll, Wake, Yields};

pub(crate) mod lent;

/// A handle to a semaphore. All clones share its permits. `W` is the waker of the futures that wait.
#[derive(Drop)]
pub struct Semaphore<R: Wait + Drop + Copy, W: Wake> {
    rt: R,
    state: Arc<Shared<Lent<W>, Numbers>>,
}

impl<R: Wait + Drop + Copy, W: Wake> Semaphore<R, W> {
    /// A semaphore with `permits` permits. `rt` is what its calls take the lock by, `alloc` where its memory comes from. Waiters up to `room` need no memory.
    ///
    /// An error says that memory was refused.
    pub fn new(
        rt: R,
        alloc: Global,
        permits: usize,
        room: usize,
    ) -> Result<Semaphore<R, W>, AllocError>
        ensures permits { IfOk result (λ made. (made_with (arc_value made.state)).free ≡ permits) }
        ensures room { IfOk result (λ made. (made_with (arc_value made.state)).room ≡ room) }
    {
        let state = Arc::new(alloc, Shared::new(Lent::new(alloc, permits, room)?))?;
        Ok(Semaphore { rt, state })
    }

    /// A second handle to the same semaphore. It asks for no memory. `None` says that there are as many as can be counted.
    pub fn try_clone(&self) -> Option<Semaphore<R, W>>
        ensures { IfSome result (λ other. arc_value other.state ≡ arc_value self.now.state) }
    {
        let state = Arc::try_clone(&self.state).ok()?;
        Some(Semaphore { rt: self.rt, state })
    }

    /// Takes a permit, if one is free. An error hands the handle back: none is, or others wait.
    pub fn try_acquire(self) -> Result<Permit<R, W>, Semaphore<R, W>>
        ensures permit { IfOk result (λ permit. permit.semaphore ≡ self) }
        ensures back { IfErr result (λ back. back ≡ self) }
    {
        let taken = self.state.unlocked().lock(&self.rt).try_take();
        match taken {
            Some(lease) => Ok(Permit {
                semaphore: self,
                lease,
            }),
            None => Err(self),
        }
    }

    /// A future that waits for a permit. Who waits longest has the next one.
    pub fn acquire(self) -> Acquire<R, W>
        ensures { (result.state ≡ Some self.state) × (result.place.number ≡ None) }
    {
        Acquire {
            rt: self.rt,
            state: Some(self.state),
            place: Place::outside(),
        }
    }
}

/// A permit. Its drop gives it back.
pub struct Permit<R: Wait + Drop + Copy, W: Wake> {
    semaphore: Semaphore<R, W>,
    lease: Lease,
}

impl<R: Wait + Drop + Copy, W: Wake> Drop for Permit<R, W> {
    fn drop(self) {
        let Permit { semaphore, lease } = self;
        let Semaphore { rt, state } = semaphore;
        state.wake_after(&rt, lease, Lent::give_back);
    }
}

/// The future of `acquire`.
pub struct Acquire<R: Wait + Drop + Copy, W: Wake> {
    rt: R,
    state: Option<Arc<Shared<Lent<W>, Numbers>>>,
    place: Place,
    ghost ended: { is_none state ≡ true → place.number ≡ None },
}

impl<R: Wait + Drop + Copy, W: Wake> Drop for Acquire<R, W> {
    fn drop(self) {
        let Acquire { rt, state, place } = self;
        match state {
            Some(state) => state.wake_after(&rt, place, Lent::leave),
            None => place.end(),
        }
    }
}

impl<R: Wait + Drop + Copy, W: Wake> Yields for Acquire<R, W> {
    type Output = Permit<R, W>;
}

impl<R: Wait + Drop + Copy, W: Wake> Future<W> for Acquire<R, W> {
    ghost polled = { λ old waker answer new. AwaitPolled W.cloned W.woken_by_ref (λ permit. permit.semaphore.state) old.state waker answer new.state };

    fn poll(&mut self, waker: &W) -> Poll<Permit<R, W>> {
        let Some(state) = &self.state else {
            return Poll::Pending;
        };
        let own = own_waker(waker);
        let mut unlocked = state.unlocked();
        let (asked, taken) = unlocked.lock(&self.rt).poll_take(&mut self.place, own);
        asked.settle(waker, &unlocked);
        let Some(lease) = taken else {
            return Poll::Pending;
        };
        match self.state.take() {
            Some(state) => Poll::Ready(Permit {
                semaphore: Semaphore { rt: self.rt, state },
                lease,
            }),
            None => unreachable!(),
        }
    }
}
