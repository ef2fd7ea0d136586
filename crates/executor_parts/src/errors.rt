//! What a group refuses.
use std::{fmt, io};
use thiserror::Error;

/// A poll of a member was refused its awaiter. The member is still in the group, and a later call of `next` polls it again.
#[derive(Clone, Copy, Debug, PartialEq, Eq, Error)]
#[error("{}", NextUntilError::Refused.words())]
pub struct AwaiterRefused;

impl From<AwaiterRefused> for io::Error {
    fn from(_refused: AwaiterRefused) -> io::Error {
        io::Error::from(NextUntilError::Refused)
    }
}

/// Why `next_until` has no member.
#[derive(Clone, Copy, Debug, PartialEq, Eq, Error)]
#[error("{}", self.words())]
pub enum NextUntilError {
    /// A poll of a member was refused its awaiter. The member is still in the group, and a later call polls it again.
    Refused,
    /// No member had ended at the deadline.
    Elapsed,
}

impl NextUntilError {
    fn words(&self) -> &'static str {
        match self {
            NextUntilError::Refused => "the poll of a member was refused its awaiter",
            NextUntilError::Elapsed => "no member had ended at the deadline",
        }
    }
}

impl From<NextUntilError> for io::Error {
    fn from(error: NextUntilError) -> io::Error {
        io::Error::other(error.words())
    }
}

/// A push was refused, since the group was full. The group is as it was.
#[derive(Drop, Error)]
#[error("the group is full")]
pub struct GroupFull<T> {
    /// The Task that was not put in.
    pub task: T,
}

impl<T: Drop> From<GroupFull<T>> for io::Error {
    fn from(_full: GroupFull<T>) -> io::Error {
        io::Error::other(reason(&true))
    }
}

impl<T> fmt::Debug for GroupFull<T> {
    fn fmt<W: fmt::Write>(&self, f: &mut fmt::Formatter<W>) -> fmt::Result {
        f.write_str("GroupFull")
    }
}

/// A spawn was refused: the group was full, or there was no memory for the task. The group is as it was, and no task was made.
#[derive(Drop, Error)]
#[error("{}", reason(.is_full))]
pub struct GroupSpawnError<F, Q> {
    /// Whether the group was full.
    pub is_full: bool,
    /// The future that was not spawned.
    pub future: F,
    /// The schedule value that came with it.
    pub schedule: Q,
}

fn reason(is_full: &bool) -> &'static str {
    if *is_full {
        "the group is full"
    } else {
        "no memory for the task"
    }
}

impl<F: Drop, Q: Drop> From<GroupSpawnError<F, Q>> for io::Error {
    fn from(error: GroupSpawnError<F, Q>) -> io::Error {
        io::Error::other(reason(&error.is_full))
    }
}

impl<F, Q> fmt::Debug for GroupSpawnError<F, Q> {
    fn fmt<W: fmt::Write>(&self, f: &mut fmt::Formatter<W>) -> fmt::Result {
        f.debug_struct("GroupSpawnError")
            .field("is_full", &self.is_full)
            .finish_non_exhaustive()
    }
}
