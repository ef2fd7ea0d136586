//! A Task without the surroundings, to be kept in a queue or a store that stands in the surroundings.
//! It must be unparked again; nothing is dropped of one that is forgotten.

ghost use Rattle.std.specs.Prelude.{◌≡◌};

use crate::task::{Task, TaskParty};
use std::alloc::{Allocator, Global};
use std::sync::Wait;
use task_cell::Runnable;
use task_core::{Schedule, Wake, Yields};

/// A Task without the surroundings. It counts as the Task, and can't be dropped: it is unparked.
#[must_use]
pub struct ParkedTask<R, F: Yields, Q, M, A, B: Allocator + Copy = Global> {
    pub(crate) inner: TaskParty<R, F, Q, M, A, B>,
}

impl<R: Wait + Drop + Copy, F: Yields, Q: Drop, M: Drop, A: Wake, B: Allocator + Copy> ParkedTask<
    R,
    F,
    Q,
    M,
    A,
    B,
> {
    /// The metadata that the builder was given.
    pub fn metadata(&self) -> &M
        ensures { result.now ≡ self.now.inner.share.block.value.metadata }
    {
        self.inner.share.metadata()
    }

    /// The Task again, with these surroundings. It makes no step.
    pub fn unpark<X: Copy>(self, around: X) -> Task<R, F, Q, M, A, X, B>
    where
        Q: Schedule<Runnable<R, F, Q, M, A, X, B>>,
        ensures inner { result.inner ≡ self.inner }
        ensures around { result.around ≡ around }
    {
        let ParkedTask { inner } = self;
        Task { inner, around }
    }
}
