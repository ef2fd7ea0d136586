//! What a pool refuses.
use std::alloc::{AllocError, AllocFailed};
use std::{fmt, io};
use thiserror::Error;

/// Why there are no turns of a worker.
#[derive(Clone, Copy, Debug, PartialEq, Eq, Error)]
#[error("{}", self.words())]
pub enum TurnsError {
    /// The pool has no worker of this number.
    NoSuchWorker,
    /// There are turns of this number: two threads would sleep where one is woken. Once those are dropped, the number is free.
    Taken,
    /// There was no memory, or the bells have as many owners as can be counted.
    Refused,
}

impl TurnsError {
    fn words(&self) -> &'static str {
        match self {
            TurnsError::NoSuchWorker => "the pool has no worker of this number",
            TurnsError::Taken => "there are turns of this worker",
            TurnsError::Refused => "no memory for the turns",
        }
    }
}

impl<T: Drop> From<AllocFailed<T>> for TurnsError {
    fn from(_error: AllocFailed<T>) -> TurnsError {
        TurnsError::Refused
    }
}

impl From<TurnsError> for io::Error {
    fn from(error: TurnsError) -> io::Error {
        io::Error::other(error.words())
    }
}

/// Why a pool has not spawned a future.
#[derive(Clone, Copy, Debug, PartialEq, Eq, Error)]
#[error("{}", self.words())]
pub enum SpawnRefusal {
    /// There was no memory for the task, or none for its Runnable in the queue. A later spawn may find some.
    NoMemory,
    /// The pool takes no more tasks: `Pool::finish` or `Pool::shutdown` was called.
    Stopped,
}

impl SpawnRefusal {
    fn words(&self) -> &'static str {
        match self {
            SpawnRefusal::NoMemory => "no memory for the task",
            SpawnRefusal::Stopped => "the pool takes no more tasks",
        }
    }
}

impl From<AllocError> for SpawnRefusal {
    fn from(_error: AllocError) -> SpawnRefusal {
        SpawnRefusal::NoMemory
    }
}

impl From<SpawnRefusal> for io::Error {
    fn from(refusal: SpawnRefusal) -> io::Error {
        match refusal {
            SpawnRefusal::NoMemory => io::Error::from(AllocError),
            SpawnRefusal::Stopped => io::Error::other(refusal.words()),
        }
    }
}

/// A spawn was refused. No task was made.
#[derive(Drop, Error)]
#[error("{}", self.reason.words())]
pub struct PoolSpawnError<T> {
    /// What the spawn was given: the future, or the builder and the maker, which was not called.
    pub given: T,
    /// Why no task was made.
    pub reason: SpawnRefusal,
}

impl<T> fmt::Debug for PoolSpawnError<T> {
    fn fmt<W: fmt::Write>(&self, f: &mut fmt::Formatter<W>) -> fmt::Result {
        f.debug_struct("PoolSpawnError")
            .field("reason", &self.reason)
            .finish_non_exhaustive()
    }
}

/// The reason is lost: keep it where a pool may be stopped meanwhile.
impl<T: Drop> From<PoolSpawnError<T>> for AllocError {
    fn from(_error: PoolSpawnError<T>) -> AllocError {
        AllocError
    }
}

impl<T: Drop> From<PoolSpawnError<T>> for io::Error {
    fn from(error: PoolSpawnError<T>) -> io::Error {
        io::Error::from(error.reason)
    }
}

/// Why `Turns::next_member` or `next_member_until` has no member.
#[derive(Clone, Copy, Debug, PartialEq, Eq, Error)]
#[error("{}", self.words())]
pub enum NextMemberError {
    /// The poll of a member was refused its awaiter, or the bells have as many owners as can be counted. A later call goes on.
    Refused,
    /// The pool was shut down before a member had ended. Those that the shutdown cancels come out of a later `try_next` or `next_member`.
    ShutDown,
    /// No member had ended at the deadline. `next_member` never answers it.
    Elapsed,
}

impl NextMemberError {
    fn words(&self) -> &'static str {
        match self {
            NextMemberError::Refused => "the poll of a member was refused its awaiter",
            NextMemberError::ShutDown => "the pool was shut down",
            NextMemberError::Elapsed => "no member had ended at the deadline",
        }
    }
}

impl From<NextMemberError> for io::Error {
    fn from(error: NextMemberError) -> io::Error {
        io::Error::other(error.words())
    }
}
