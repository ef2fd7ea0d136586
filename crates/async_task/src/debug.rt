//! How a Task is shown, and its other forms.
use crate::cancel::Cancel;
use crate::fallible::FallibleTask;
use crate::parked::ParkedTask;
use crate::task::Task;
use std::alloc::Allocator;
use std::fmt;
use std::sync::Wait;
use task_cell::Runnable;
use task_core::{Schedule, Wake, Yields};

/// Shows the word as one load finds it, and the metadata. No party notes that load.
impl<
    R: Wait + Drop + Copy,
    F: Yields,
    Q: Drop,
    M: Drop + fmt::Debug,
    A: Wake,
    X: Copy,
    B: Allocator + Copy,
> fmt::Debug for Task<R, F, Q, M, A, X, B>
where
    Q: Schedule<Runnable<R, F, Q, M, A, X, B>>,
{
    fn fmt<W: fmt::Write>(&self, f: &mut fmt::Formatter<W>) -> fmt::Result {
        self.inner.share.show(f, "Task")
    }
}

/// Shows the word as one load finds it, and the metadata. No party notes that load.
impl<
    R: Wait + Drop + Copy,
    F: Yields,
    Q: Drop,
    M: Drop + fmt::Debug,
    A: Wake,
    X: Copy,
    B: Allocator + Copy,
> fmt::Debug for FallibleTask<R, F, Q, M, A, X, B>
where
    Q: Schedule<Runnable<R, F, Q, M, A, X, B>>,
{
    fn fmt<W: fmt::Write>(&self, f: &mut fmt::Formatter<W>) -> fmt::Result {
        self.task.inner.share.show(f, "FallibleTask")
    }
}

/// Shows the word as one load finds it, and the metadata. No party notes that load.
impl<
    R: Wait + Drop + Copy,
    F: Yields,
    Q: Drop,
    M: Drop + fmt::Debug,
    A: Wake,
    X: Copy,
    B: Allocator + Copy,
> fmt::Debug for Cancel<R, F, Q, M, A, X, B>
where
    Q: Schedule<Runnable<R, F, Q, M, A, X, B>>,
{
    fn fmt<W: fmt::Write>(&self, f: &mut fmt::Formatter<W>) -> fmt::Result {
        self.task.inner.share.show(f, "Cancel")
    }
}

/// Shows the word as one load finds it, and the metadata. No party notes that load.
impl<
    R: Wait + Drop + Copy,
    F: Yields,
    Q: Drop,
    M: Drop + fmt::Debug,
    A: Wake,
    B: Allocator + Copy,
> fmt::Debug for ParkedTask<R, F, Q, M, A, B> {
    fn fmt<W: fmt::Write>(&self, f: &mut fmt::Formatter<W>) -> fmt::Result {
        self.inner.share.show(f, "ParkedTask")
    }
}
