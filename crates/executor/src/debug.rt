//! How a pool and what it gives are shown.
use crate::bell_awaiter::{BellAwaiter, Wakes};
use crate::kept_group::KeptGroup;
use crate::pool::Pool;
use crate::ringing::{PoolListener, Rings};
use crate::store::{Key, Store};
use crate::turns::Turns;
use async_task::{Wake, Yields};
use std::alloc::Allocator;
use std::fmt;
use std::sync::Wait;

/// Shows how many workers there are, and whether the pool was shut down.
impl<R: Wait + Drop + Copy, F: Yields, A: Wake, B: Allocator, M: Drop> fmt::Debug
    for Pool<R, F, A, B, M> {
    fn fmt<W: fmt::Write>(&self, f: &mut fmt::Formatter<W>) -> fmt::Result {
        f.debug_struct("Pool")
            .field("workers", &self.workers())
            .field("is_shut_down", &self.is_shut_down())
            .finish_non_exhaustive()
    }
}

/// Shows the number of the worker.
impl<'x, R: Wait + Drop + Copy, F: Yields, A: Wake, B: Allocator, M: Drop> fmt::Debug
    for Turns<'x, R, F, A, B, M> {
    fn fmt<W: fmt::Write>(&self, f: &mut fmt::Formatter<W>) -> fmt::Result {
        f.debug_struct("Turns")
            .field("worker", &self.worker.number())
            .finish_non_exhaustive()
    }
}

impl<R: Wait + Drop + Copy> fmt::Debug for Rings<R> {
    fn fmt<W: fmt::Write>(&self, f: &mut fmt::Formatter<W>) -> fmt::Result {
        let (name, number) = match self {
            Rings::Worker(_, worker) => ("Worker", worker),
            Rings::Kept(_, _, number) => ("Kept", number),
        };
        f.debug_tuple(name).field(number).finish()
    }
}

/// Shows whom a wake is for: a worker, a task whose waker is kept, or who reads a mailbox.
impl<R: Wait + Drop + Copy> fmt::Debug for BellAwaiter<R> {
    fn fmt<W: fmt::Write>(&self, f: &mut fmt::Formatter<W>) -> fmt::Result {
        let mut shown = f.debug_struct("BellAwaiter");
        match &self.wakes {
            Wakes::Ring(rings) => shown.field("wakes", rings).finish(),
            Wakes::Reader(_, number) => shown.field("posts", number).finish(),
        }
    }
}

/// Shows whom it tells.
impl<R: Wait + Drop + Copy> fmt::Debug for PoolListener<R> {
    fn fmt<W: fmt::Write>(&self, f: &mut fmt::Formatter<W>) -> fmt::Result {
        f.debug_struct("PoolListener")
            .field("tells", &self.rings)
            .finish()
    }
}

/// Shows how many members there are.
impl<R: Wait + Drop + Copy> fmt::Debug for KeptGroup<R> {
    fn fmt<W: fmt::Write>(&self, f: &mut fmt::Formatter<W>) -> fmt::Result {
        f.debug_struct("KeptGroup")
            .field("len", &self.len())
            .finish_non_exhaustive()
    }
}

/// Shows the number of its place.
impl<R: Wait + Drop + Copy> fmt::Debug for Key<R> {
    fn fmt<W: fmt::Write>(&self, f: &mut fmt::Formatter<W>) -> fmt::Result {
        f.debug_struct("Key")
            .field("number", &self.number())
            .finish_non_exhaustive()
    }
}

/// Shows no place, since a look needs a lock.
impl<H> fmt::Debug for Store<H> {
    fn fmt<W: fmt::Write>(&self, f: &mut fmt::Formatter<W>) -> fmt::Result {
        f.debug_struct("Store").finish_non_exhaustive()
    }
}
