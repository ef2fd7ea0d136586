//! Executors that have a desk.
ghost use Rattle.std.specs.Prelude.{◌≡◌};
ghost use Rattle.executor.specs.declared.shared_waker.desk.Desk.{Desk};
ghost use Rattle.executor.specs.Desks.{IsOfDesk};

use crate::shared_waker::desk::{Desk, MailWaker};
use crate::shared_waker::share::Share;
use async_task::{Runnable, Schedule, TaskWaker, Wake, Yields};
use std::alloc::Allocator;
use std::sync::Wait;

/// The surroundings of an executor of one's own, as a reference to it: it has a desk, where wakers of type `H` are kept.
pub trait HasDesk<R: Wait + Drop + Copy, H: Drop>: Copy {
    // The desk.
    ghost desk_of: { Self → Desk R H };

    /// The desk.
    fn desk(&self) -> &Desk<R, H>
        ensures { result.now ≡ desk_of self.now };
}

impl<
    R: Wait + Drop + Copy,
    F: Yields,
    Q: Drop,
    M: Drop,
    A: Wake,
    X: Copy,
    B: Allocator + Copy,
> Share<MailWaker<R>> for TaskWaker<R, F, Q, M, A, X, B>
where
    Q: Schedule<Runnable<R, F, Q, M, A, X, B>>,
    Q: Schedule<Runnable<R, F, Q, M, A, (), B>>,
    X: HasDesk<R, TaskWaker<R, F, Q, M, A, (), B>>,
{
    ghost made = { λ waker shared. IsOfDesk (X.desk_of waker.around) shared };

    fn share(&self, shared: &mut Option<MailWaker<R>>) -> bool {
        match self.try_clone() {
            Ok(clone) => self.around().desk().keep(clone.with_around(()), shared),
            Err(_) => false,
        }
    }
}
