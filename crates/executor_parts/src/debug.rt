//! How mailboxes, awaiters, groups, their handles and what comes out of a group are shown.
use crate::abort_handle::AbortHandle;
use crate::ended::Ended;
use crate::group::TaskGroup;
use crate::listener::Listener;
use crate::mailbox::{Awaiter, Mailbox};
use crate::posts::Posts;
use async_task::{Runnable, Schedule, Yields};
use std::alloc::Allocator;
use std::fmt;
use std::sync::Wait;

/// Shows no number, since a look needs a lock.
impl<R: Wait + Drop + Copy, L: Listener> fmt::Debug for Mailbox<R, L> {
    fn fmt<W: fmt::Write>(&self, f: &mut fmt::Formatter<W>) -> fmt::Result {
        f.debug_struct("Mailbox").finish_non_exhaustive()
    }
}

/// Shows the number that it posts.
impl<R: Wait + Drop + Copy> fmt::Debug for Awaiter<R> {
    fn fmt<W: fmt::Write>(&self, f: &mut fmt::Formatter<W>) -> fmt::Result {
        f.debug_struct("Awaiter")
            .field("number", &self.number)
            .finish_non_exhaustive()
    }
}

impl<F: Yields> fmt::Debug for Ended<F>
where
    F::Output: fmt::Debug,
{
    fn fmt<W: fmt::Write>(&self, f: &mut fmt::Formatter<W>) -> fmt::Result {
        f.debug_struct("Ended")
            .field("number", &self.number)
            .field("answer", &self.answer)
            .finish()
    }
}

/// Shows how many members there are.
impl<
    R: Wait + Drop + Copy,
    F: Yields,
    Q: Drop,
    M: Drop,
    A: Posts<R>,
    X: Copy,
    B: Allocator + Copy,
> fmt::Debug for TaskGroup<R, F, Q, M, A, X, B>
where
    Q: Schedule<Runnable<R, F, Q, M, A, X, B>>,
{
    fn fmt<W: fmt::Write>(&self, f: &mut fmt::Formatter<W>) -> fmt::Result {
        f.debug_struct("TaskGroup")
            .field("len", &self.len())
            .finish_non_exhaustive()
    }
}

/// Shows the member.
impl<R: Wait + Drop + Copy, L: Listener> fmt::Debug for AbortHandle<R, L> {
    fn fmt<W: fmt::Write>(&self, f: &mut fmt::Formatter<W>) -> fmt::Result {
        f.debug_struct("AbortHandle")
            .field("id", &self.id())
            .finish_non_exhaustive()
    }
}
