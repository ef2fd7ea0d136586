//! A member of a group, and what becomes of it by a poll.
ghost use Rattle.std.specs.Prelude.{◌≡◌};
ghost use Rattle.async_task.specs.HandlePaths.{fallible_answer};
ghost use Rattle.executor_parts.specs.Cancelled.{IsCancel};
ghost use Rattle.executor_parts.specs.Outputs.{GivesNoMore};

use crate::ended::Ended;
use crate::mailbox::contents::Posted;
use crate::posts::Posts;
use crate::shared::Refusal;
use async_task::{Cancel, Runnable, Schedule, Task, TaskClosed, TaskPoll, Yields};
use std::alloc::Allocator;
use std::sync::Wait;

// A member: its Task, that as a Cancel which was polled, or the answer that the handle gave as it was pushed or cancelled, once its number was posted.
#[derive(Drop)]
pub(super) enum Member<
    R: Wait + Drop + Copy,
    F: Yields,
    Q: Drop,
    M: Drop,
    A: Posts<R>,
    X: Copy,
    B: Allocator + Copy,
>
where
    Q: Schedule<Runnable<R, F, Q, M, A, X, B>>,
{
    Runs(Task<R, F, Q, M, A, X, B>),
    Cancelled(Cancel<R, F, Q, M, A, X, B>),
    HasEnded(Ended<F>, Posted),
}

// A member that has not ended, and whether its poll was refused its awaiter.
#[must_use]
pub(super) struct Stays<
    R: Wait + Drop + Copy,
    F: Yields,
    Q: Drop,
    M: Drop,
    A: Posts<R>,
    X: Copy,
    B: Allocator + Copy,
>
where
    Q: Schedule<Runnable<R, F, Q, M, A, X, B>>,
{
    pub(super) member: Member<R, F, Q, M, A, X, B>,
    pub(super) refused: Option<Refusal>,
}

impl<
    R: Wait + Drop + Copy,
    F: Yields,
    Q: Drop,
    M: Drop,
    A: Posts<R>,
    X: Copy,
    B: Allocator + Copy,
> Member<R, F, Q, M, A, X, B>
where
    Q: Schedule<Runnable<R, F, Q, M, A, X, B>>,
{
    // The same member, whose next poll cancels it.
    pub(super) fn cancel(self) -> Member<R, F, Q, M, A, X, B>
        ensures cancel { IsCancel result }
        ensures outputs { GivesNoMore self result }
    {
        match self {
            Member::Runs(task) => Member::Cancelled(task.cancel()),
            other => other,
        }
    }
}

// The answer of a poll of a Cancel, as that of a Task.
pub(super) fn closed_where_none<F: Yields>(
    answer: TaskPoll<Option<F::Output>>,
) -> TaskPoll<Result<F::Output, TaskClosed>>
    ensures { fallible_answer result ≡ answer }
{
    match answer {
        TaskPoll::Ready(Some(output)) => TaskPoll::Ready(Ok(output)),
        TaskPoll::Ready(None) => TaskPoll::Ready(Err(TaskClosed)),
        TaskPoll::Pending => TaskPoll::Pending,
        TaskPoll::Refused => TaskPoll::Refused,
    }
}
