//! The shared wakers of a pool: their numbers go through its mail, and its workers wake the tasks.
ghost use Rattle.std.specs.Prelude.{◌≡◌, IfSome};
ghost use Rattle.std.specs.Arc.{arc_value};
ghost use Rattle.executor.specs.Wakes.{IsForKept};

use crate::bell_awaiter::BellAwaiter;
use crate::kept::{keep_new_waker, keep_waker};
use crate::pool::PoolWaker;
use crate::shared_waker::seat::SharedWaker;
use crate::shared_waker::share::Share;
use async_task::{Wake, Yields};
use std::alloc::Allocator;
use std::sync::Wait;

/// A shared waker of a task of a pool. Its wake takes the lock of one part of the pool's mail, and has a sleeping worker look, if there is one.
pub type PoolSharedWaker<R> = SharedWaker<R, BellAwaiter<R>>;

// The first shared waker of a task, whose waker the pool keeps. `None` says that memory or a clone was refused.
fn first_of<'x, R: Wait + Drop + Copy, F: Yields, A: Wake, B: Allocator + Copy, M: Drop>(
    waker: &PoolWaker<'x, R, F, A, B, M>,
) -> Option<PoolSharedWaker<R>>
    ensures { IfSome result (λ shared. IsForKept (arc_value shared.seat).awaiter.wakes (arc_value waker.now.around.0.now.crew.bells) (arc_value waker.now.around.0.now.mail) (arc_value shared.seat).key.number) }
{
    let pool = waker.around().0;
    let key = keep_new_waker(waker)?;
    let awaiter = BellAwaiter::of_kept(pool, key.number())?;
    SharedWaker::new(pool.alloc(), key, awaiter)
}

impl<'x, R: Wait + Drop + Copy, F: Yields, A: Wake, B: Allocator + Copy, M: Drop> Share<
    PoolSharedWaker<R>,
> for PoolWaker<'x, R, F, A, B, M> {
    // It posts the number of its own key to the mail of the pool, and then rings the pool's bells.
    ghost made = { λ waker shared. IsForKept (arc_value shared.seat).awaiter.wakes (arc_value waker.around.0.now.crew.bells) (arc_value waker.around.0.now.mail) (arc_value shared.seat).key.number };

    fn share(&self, shared: &mut Option<PoolSharedWaker<R>>) -> bool {
        match &*shared {
            Some(shared) => keep_waker(self, &shared.seat.key),
            None => {
                *shared = first_of(self);
                shared.is_some()
            }
        }
    }
}
