//! The awaiter of a pool, by which a worker waits for a Task, a task of the pool for another one, or a group for its members.
ghost use Rattle.std.specs.Prelude.{◌≡◌, false, IfOk, IfSome};
ghost use Rattle.std.specs.Arc.{arc_value};
ghost use Rattle.executor.specs.Polled.{Shows};
ghost use Rattle.executor.specs.Wakes.{IsForWorker, IsForKept, IsForReader, IsSameWake, Reached};

use crate::pool::Pool;
use crate::ringing::{PoolListener, Rings, Rung, tell};
use async_task::{Wake, Yields};
use executor_parts::{Mailbox, Posts};
use std::alloc::Allocator;
use std::sync::{Arc, Wait};
use work_queues::Bells;

/// Whom an awaiter of a pool wakes.
#[derive(Drop)]
pub(crate) enum Wakes<R: Wait + Drop + Copy> {
    /// A worker, or the task whose waker is kept under a number.
    Ring(Rings<R>),
    /// Whoever takes this number out of the mailbox.
    Reader(Arc<Mailbox<R, PoolListener<R>>>, usize),
}

/// An awaiter of a pool. Its wake needs no memory. That of `new` and `of_kept` rings a bell: a worker looks once more for what is to be done. That of `of_mailbox` posts a number to a mailbox.
pub struct BellAwaiter<R: Wait + Drop + Copy> {
    pub(crate) wakes: Wakes<R>,
}

impl<R: Wait + Drop + Copy> Drop for BellAwaiter<R> {
    // As a derived drop, whose cases would stand in each function that drops an awaiter.
    fn drop(self) {
        let BellAwaiter { wakes } = self;
        drop(wakes);
    }
}

impl<R: Wait + Drop + Copy> BellAwaiter<R> {
    /// An awaiter that wakes the worker of this number. Where there is no such worker, its wake does nothing.
    ///
    /// It asks for no memory. `None` says that the bells of the pool have as many owners as can be counted.
    pub fn new<F: Yields, A: Wake, B: Allocator + Copy, M: Drop>(
        pool: &Pool<R, F, A, B, M>,
        worker: usize,
    ) -> Option<BellAwaiter<R>>
        ensures wakes { IfSome result (λ awaiter. IsForWorker awaiter.wakes (arc_value pool.now.crew.bells) worker) }
    {
        BellAwaiter::of_rings(Rings::for_worker(pool.bells(), worker)?)
    }

    /// An awaiter that has a worker wake the task whose waker is kept under this number, which is that of a key of `place_for_waker` of this pool. Where
    /// no waker is kept there at that time, nothing is woken: keep the waker first, and poll the awaited Task then, as `await_kept` does.
    ///
    /// It asks for no memory. `None` says that the bells or the mail of the pool have as many owners as can be counted.
    pub fn of_kept<F: Yields, A: Wake, B: Allocator + Copy, M: Drop>(
        pool: &Pool<R, F, A, B, M>,
        number: usize,
    ) -> Option<BellAwaiter<R>>
        ensures wakes { IfSome result (λ awaiter. IsForKept awaiter.wakes (arc_value pool.now.crew.bells) (arc_value pool.now.mail) number) }
    {
        BellAwaiter::of_rings(Rings::for_kept(pool.bells(), &pool.mail, number)?)
    }

    fn of_rings(rings: Rings<R>) -> Option<BellAwaiter<R>>
        ensures { IfSome result (λ awaiter. awaiter.wakes ≡ Wakes.Ring rings) }
    {
        let wakes = Wakes::Ring(rings);
        Some(BellAwaiter { wakes })
    }

    // One more that wakes the same. `None` where that has as many owners as can be counted.
    fn second(&self) -> Option<BellAwaiter<R>>
        ensures { IfSome result (λ other. IsSameWake self.now.wakes other.wakes) }
    {
        match &self.wakes {
            Wakes::Ring(rings) => BellAwaiter::of_rings(rings.try_clone()?),
            Wakes::Reader(mailbox, number) => BellAwaiter::of_mailbox(mailbox, *number),
        }
    }
}

impl<R: Wait + Drop + Copy> Posts<R> for BellAwaiter<R> {
    type Listener = PoolListener<R>;

    ghost posts = { λ awaiter mailbox number. IsForReader awaiter.wakes mailbox number };

    fn of_mailbox(
        mailbox: &Arc<Mailbox<R, PoolListener<R>>>,
        number: usize,
    ) -> Option<BellAwaiter<R>> {
        let mailbox = Arc::try_clone(mailbox).ok()?;
        let wakes = Wakes::Reader(mailbox, number);
        Some(BellAwaiter { wakes })
    }
}

impl<R: Wait + Drop + Copy> Wake for BellAwaiter<R> {
    // Whom the wake has reached. A clone is refused without a wake: `None`.
    type Record = Option<Rung>;

    ghost woken = { λ awaiter rung. Shows (Reached awaiter.wakes) rung };

    ghost woken_by_ref = { λ awaiter rung. Shows (Reached awaiter.wakes) rung };

    ghost cloned = { λ awaiter clone. IfOk clone (λ other. IsSameWake awaiter.wakes other.wakes) };

    ghost compared = { λ _ _ answer. answer ≡ false };

    fn wake(self) -> Option<Rung> {
        self.wake_by_ref()
    }

    fn wake_by_ref(&self) -> Option<Rung> {
        match &self.wakes {
            Wakes::Ring(rings) => Some(rings.ring()),
            Wakes::Reader(mailbox, number) => Some(Rung::Reader(tell(mailbox, *number))),
        }
    }

    fn try_clone(&self) -> Result<BellAwaiter<R>, Option<Rung>> {
        self.second().ok_or(None)
    }

    // Two shares of the bells cannot be told to be of one pool: a wake too many has a worker look once more.
    fn will_wake(&self, _other: &BellAwaiter<R>) -> bool {
        false
    }
}
