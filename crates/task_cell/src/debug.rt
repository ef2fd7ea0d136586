//! How a task is shown, and each handle of the cell.

use crate::cell::{EndedCall, Share};
use crate::runnable::{ParkedRunnable, Runnable};
use crate::waker::{ParkedWaker, StoredWaker, TaskWaker};
use std::alloc::Allocator;
use std::fmt;
use std::sync::Wait;
use task_core::word::Word;
use task_core::{Schedule, Wake, Yields};

// What is shown of a task: its word, as one load finds it, and its metadata.
#[derive(Drop)]
struct Header<'a, M> {
    word: Word,
    metadata: &'a M,
}

impl<'a, M: fmt::Debug> fmt::Debug for Header<'a, M> {
    fn fmt<W: fmt::Write>(&self, f: &mut fmt::Formatter<W>) -> fmt::Result {
        f.debug_struct("Header")
            .field("scheduled", &self.word.scheduled())
            .field("running", &self.word.running())
            .field("completed", &self.word.completed())
            .field("closed", &self.word.closed())
            .field("awaiter", &self.word.awaiter())
            .field("task", &self.word.task())
            .field("ref_count", &self.word.references())
            .field("metadata", self.metadata)
            .finish()
    }
}

impl<
    R: Wait + Drop + Copy,
    F: Yields,
    Q: Drop,
    M: Drop + fmt::Debug,
    A: Drop,
    B: Allocator + Copy,
> Share<R, F, Q, M, A, B> {
    /// Shows a handle of this name: the word as one load finds it, and the metadata. No party notes that load.
    pub fn show<W: fmt::Write>(&self, f: &mut fmt::Formatter<W>, name: &str) -> fmt::Result {
        let header = Header {
            word: self.word(),
            metadata: self.metadata(),
        };
        f.debug_struct(name).field("header", &header).finish()
    }
}

/// Shows the word as one load finds it, and the metadata. No party notes that load.
impl<
    R: Wait + Drop + Copy,
    F: Yields,
    Q: Drop,
    M: Drop + fmt::Debug,
    A: Wake,
    X: Copy,
    B: Allocator + Copy,
> fmt::Debug for Runnable<R, F, Q, M, A, X, B> {
    fn fmt<W: fmt::Write>(&self, f: &mut fmt::Formatter<W>) -> fmt::Result {
        self.inner.share.show(f, "Runnable")
    }
}

/// Shows the word as one load finds it, and the metadata. No party notes that load.
impl<
    R: Wait + Drop + Copy,
    F: Yields,
    Q: Drop,
    M: Drop + fmt::Debug,
    A: Wake,
    X: Copy,
    B: Allocator + Copy,
> fmt::Debug for TaskWaker<R, F, Q, M, A, X, B>
where
    Q: Schedule<Runnable<R, F, Q, M, A, X, B>>,
{
    fn fmt<W: fmt::Write>(&self, f: &mut fmt::Formatter<W>) -> fmt::Result {
        self.inner.share.show(f, "TaskWaker")
    }
}

/// Shows the word as one load finds it, and the metadata. No party notes that load.
impl<
    R: Wait + Drop + Copy,
    F: Yields,
    Q: Drop,
    M: Drop + fmt::Debug,
    A: Wake,
    B: Allocator + Copy,
> fmt::Debug for StoredWaker<R, F, Q, M, A, B>
where
    Q: Schedule<Runnable<R, F, Q, M, A, (), B>>,
{
    fn fmt<W: fmt::Write>(&self, f: &mut fmt::Formatter<W>) -> fmt::Result {
        self.waker.inner.share.show(f, "StoredWaker")
    }
}

/// Shows the word as one load finds it, and the metadata. No party notes that load.
impl<
    R: Wait + Drop + Copy,
    F: Yields,
    Q: Drop,
    M: Drop + fmt::Debug,
    A: Wake,
    B: Allocator + Copy,
> fmt::Debug for ParkedRunnable<R, F, Q, M, A, B> {
    fn fmt<W: fmt::Write>(&self, f: &mut fmt::Formatter<W>) -> fmt::Result {
        self.inner.share.show(f, "ParkedRunnable")
    }
}

/// Shows the word as one load finds it, and the metadata. No party notes that load.
impl<
    R: Wait + Drop + Copy,
    F: Yields,
    Q: Drop,
    M: Drop + fmt::Debug,
    A: Wake,
    B: Allocator + Copy,
> fmt::Debug for ParkedWaker<R, F, Q, M, A, B> {
    fn fmt<W: fmt::Write>(&self, f: &mut fmt::Formatter<W>) -> fmt::Result {
        self.inner.share.show(f, "ParkedWaker")
    }
}

impl<F, T, A> fmt::Debug for EndedCall<F, T, A> {
    fn fmt<W: fmt::Write>(&self, f: &mut fmt::Formatter<W>) -> fmt::Result {
        f.write_str("EndedCall")
    }
}
