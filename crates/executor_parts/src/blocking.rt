//! Waiting for a Task or a Cancel on a thread that does nothing else.
ghost use Rattle.std.specs.Prelude.{◌≡◌, ◌≢◌};
ghost use Rattle.executor_parts.specs.Answered.{answer_of};

use crate::awaited::Awaited;
use crate::mailbox::{Awaiter, Mailbox};
use async_task::TaskPoll;
use std::alloc::Global;
use std::io;
use std::sync::Wait;
use thiserror::Error;

/// Why a call that waits for a task has no output.
#[derive(Clone, Copy, Debug, PartialEq, Eq, Error)]
#[error("{}", self.words())]
pub enum BlockOnError {
    /// The task is closed: no output will come.
    Closed,
    /// Memory for the mailbox, or a clone of the awaiter, was refused. The handle is as it was but for its polls, and may be waited for again.
    Refused,
    /// The pool was shut down before the task was over. `block_on` of this crate, which knows no pool, never answers it.
    ShutDown,
}

impl BlockOnError {
    fn words(&self) -> &'static str {
        match self {
            BlockOnError::Closed => "the task is closed",
            BlockOnError::Refused => "the awaiter was refused",
            BlockOnError::ShutDown => "the pool was shut down",
        }
    }
}

impl From<BlockOnError> for io::Error {
    fn from(error: BlockOnError) -> io::Error {
        io::Error::other(error.words())
    }
}

/// Waits until the task of a Task or a Cancel is over, asleep until it wakes this thread. Other threads have to run the task.
///
/// `rt` is what the thread waits by, `alloc` where the memory of its mailbox comes from. Of a Cancel `Ok(None)` says that the future is gone. After
/// `Refused` the task of a Cancel may not have been cancelled yet.
pub fn block_on<R: Wait + Drop + Copy, T: Awaited<Awaiter<R>>>(
    rt: R,
    alloc: Global,
    task: &mut T,
) -> Result<T::Output, BlockOnError>
    ensures answer { T.Awaited.answers task.old (answer_of result) task.new }
    ensures running { result ≢ Err BlockOnError.ShutDown }
{
    let Ok(mailbox) = Mailbox::new(rt, alloc, 1) else {
        return Err(BlockOnError::Refused);
    };
    let awaiter = Awaiter::new(&mailbox, 0).ok_or(BlockOnError::Refused)?;
    for _ in rt.forever() {
        match task.poll_once(&awaiter) {
            TaskPoll::Ready(Ok(output)) => return Ok(output),
            TaskPoll::Ready(Err(_)) => return Err(BlockOnError::Closed),
            TaskPoll::Refused => return Err(BlockOnError::Refused),
            TaskPoll::Pending => {
                mailbox.wait();
            }
        }
    }
    unreachable!()
}
