//! A mutex that tasks wait for, and may hold between their polls.
ghost use Rattle.std.specs.Prelude.{◌≡◌, None, Some, true, is_none, IfErr, IfOk, IfSome};
ghost use Rattle.std.specs.Arc.{arc_value};
ghost use Rattle.future_parts.specs.Shared.{made_with, AwaitPolled};

use crate::asked::permits::Numbers;
use crate::asked::{Place, own_waker};
use crate::shared::Shared;
use kept_value::{KeptValue, ValueLease};
use std::alloc::{AllocError, Global};
use std::sync::{Arc, Wait};
use task_core::{Future, Poll, Wake, Yields};

pub(crate) mod kept_value;

/// A handle to a mutex. All clones share its value. `W` is the waker of the futures that wait.
#[derive(Drop)]
pub struct AsyncMutex<R: Wait + Drop + Copy, T: Drop, W: Wake> {
    rt: R,
    state: Arc<Shared<KeptValue<T, W>, Numbers>>,
}

impl<R: Wait + Drop + Copy, T: Drop, W: Wake> AsyncMutex<R, T, W> {
    /// A mutex that nobody holds. `rt` is what its calls take the lock by, `alloc` where its memory comes from. So many waiters as `room` says need no memory.
    ///
    /// An error says that memory was refused. The value is dropped then.
    pub fn new(
        rt: R,
        alloc: Global,
        value: T,
        room: usize,
    ) -> Result<AsyncMutex<R, T, W>, AllocError>
        ensures free { IfOk result (λ made. (made_with (arc_value made.state)).free ≡ 1) }
        ensures room { IfOk result (λ made. (made_with (arc_value made.state)).room ≡ room) }
    {
        let state = Arc::new(alloc, Shared::new(KeptValue::new(alloc, value, room)?))?;
        Ok(AsyncMutex { rt, state })
    }

    /// A second handle to the same mutex. It asks for no memory. `None` says that there are as many as can be counted.
    pub fn try_clone(&self) -> Option<AsyncMutex<R, T, W>>
        ensures { IfSome result (λ other. arc_value other.state ≡ arc_value self.now.state) }
    {
        let state = Arc::try_clone(&self.state).ok()?;
        Some(AsyncMutex { rt: self.rt, state })
    }

    /// The guard, where nobody holds the mutex or waits for it. An error hands the handle back.
    pub fn try_lock(self) -> Result<Guard<R, T, W>, AsyncMutex<R, T, W>>
        ensures guard { IfOk result (λ guard. guard.mutex ≡ self) }
        ensures back { IfErr result (λ back. back ≡ self) }
    {
        let taken = self.state.unlocked().lock(&self.rt).try_take();
        match taken {
            Some((value, lease)) => Ok(Guard {
                mutex: self,
                value,
                lease,
            }),
            None => Err(self),
        }
    }

    /// A future that waits for the guard. Who waits longest has it next.
    pub fn lock(self) -> Lock<R, T, W>
        ensures { (result.state ≡ Some self.state) × (result.place.number ≡ None) }
    {
        Lock {
            rt: self.rt,
            state: Some(self.state),
            place: Place::outside(),
        }
    }
}

/// Holds the mutex, and its value. Its drop puts the value back.
pub struct Guard<R: Wait + Drop + Copy, T: Drop, W: Wake> {
    mutex: AsyncMutex<R, T, W>,
    value: T,
    lease: ValueLease,
}

impl<R: Wait + Drop + Copy, T: Drop, W: Wake> Guard<R, T, W> {
    /// The value.
    pub fn get(&self) -> &T
        ensures { result.now ≡ self.now.value }
    {
        &self.value
    }

    /// The value, to be written.
    pub fn get_mut(&mut self) -> &mut T
        ensures { result.now ≡ self.old.value }
    {
        &mut self.value
    }
}

impl<R: Wait + Drop + Copy, T: Drop, W: Wake> Drop for Guard<R, T, W> {
    fn drop(self) {
        let Guard {
            mutex,
            value,
            lease,
        } = self;
        let mut unlocked = mutex.state.unlocked();
        let put = unlocked.lock(&mutex.rt).put(value, lease);
        match put {
            Ok(due) => due.wake(&unlocked),
            Err(value) => drop(value),
        }
    }
}

/// The future of `lock`.
pub struct Lock<R: Wait + Drop + Copy, T: Drop, W: Wake> {
    rt: R,
    // None once it has answered.
    state: Option<Arc<Shared<KeptValue<T, W>, Numbers>>>,
    place: Place,
    ghost ended: { is_none state ≡ true → place.number ≡ None },
}

impl<R: Wait + Drop + Copy, T: Drop, W: Wake> Drop for Lock<R, T, W> {
    fn drop(self) {
        let Lock { rt, state, place } = self;
        match state {
            Some(state) => state.wake_after(&rt, place, KeptValue::leave),
            None => place.end(),
        }
    }
}

impl<R: Wait + Drop + Copy, T: Drop, W: Wake> Yields for Lock<R, T, W> {
    type Output = Guard<R, T, W>;
}

impl<R: Wait + Drop + Copy, T: Drop, W: Wake> Future<W> for Lock<R, T, W> {
    ghost polled = { λ old waker answer new. AwaitPolled W.cloned W.woken_by_ref (λ guard. guard.mutex.state) old.state waker answer new.state };

    fn poll(&mut self, waker: &W) -> Poll<Guard<R, T, W>> {
        let Some(state) = &self.state else {
            return Poll::Pending;
        };
        let own = own_waker(waker);
        let mut unlocked = state.unlocked();
        let (asked, taken) = unlocked.lock(&self.rt).poll_take(&mut self.place, own);
        asked.settle(waker, &unlocked);
        let Some((value, lease)) = taken else {
            return Poll::Pending;
        };
        match self.state.take() {
            Some(state) => Poll::Ready(Guard {
                mutex: AsyncMutex { rt: self.rt, state },
                value,
                lease,
            }),
            None => unreachable!(),
        }
    }
}
