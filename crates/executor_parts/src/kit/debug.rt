//! How the bridge is shown.
use crate::kit::awaiter::KitAwaiter;
use crate::kit::awaits::{Awaits, AwaitsRefused};
use async_task::{Runnable, Schedule, Yields};
use std::alloc::Allocator;
use std::fmt;
use std::sync::Wait;

impl<B: Allocator> fmt::Debug for KitAwaiter<B> {
    fn fmt<W: fmt::Write>(&self, f: &mut fmt::Formatter<W>) -> fmt::Result {
        f.write_str("KitAwaiter")
    }
}

impl<T> fmt::Debug for AwaitsRefused<T> {
    fn fmt<W: fmt::Write>(&self, f: &mut fmt::Formatter<W>) -> fmt::Result {
        f.write_str("AwaitsRefused")
    }
}

/// Shows the Task.
impl<
    R: Wait + Drop + Copy,
    F: Yields,
    Q: Drop,
    M: Drop + fmt::Debug,
    X: Copy,
    B: Allocator + Copy,
> fmt::Debug for Awaits<R, F, Q, M, X, B>
where
    Q: Schedule<Runnable<R, F, Q, M, KitAwaiter<B>, X, B>>,
{
    fn fmt<W: fmt::Write>(&self, f: &mut fmt::Formatter<W>) -> fmt::Result {
        f.debug_struct("Awaits")
            .field("task", &self.task)
            .finish_non_exhaustive()
    }
}
