//! A Task that the kit's executors and combinators poll.
ghost use Rattle.std.specs.Prelude.{◌≡◌, ◌⊎◌, true, IfOk, IfErr};
ghost use Rattle.std.specs.Arc.{arc_value};
ghost use Rattle.futures.specs.Poll.{IfReady, OnPending};
ghost use Rattle.futures.specs.Task.{Covers, Keeps};
ghost use Rattle.task_steps.specs.Steps.{saw_ended};
ghost use Rattle.task_cell.specs.Calls.{deeds};
ghost use Rattle.executor_parts.specs.KitAnswers.{PollsTask};

use crate::kit::awaiter::{KitAwaiter, Unregistered};
use async_task::{Runnable, Schedule, Task, TaskPoll, Yields};
use futures::Future;
use futures::task::{Context, Poll};
use std::alloc::{AllocError, Allocator, Global};
use std::io;
use std::sync::Wait;
use thiserror::Error;

/// Why an `Awaits` has no output.
#[derive(Clone, Copy, Debug, PartialEq, Eq, Error)]
#[error("{}", self.words())]
pub enum AwaitError {
    /// The task is closed: no output will come.
    Closed,
    /// The awaiter was refused a share of itself, or the kit its lock. The Task is as it was but for its polls, and may be polled again.
    Refused,
}

impl AwaitError {
    fn words(&self) -> &'static str {
        match self {
            AwaitError::Closed => "the task is closed",
            AwaitError::Refused => "the awaiter was refused",
        }
    }
}

impl From<AwaitError> for io::Error {
    fn from(error: AwaitError) -> io::Error {
        io::Error::other(error.words())
    }
}

/// There was no memory for the awaiter of an `Awaits`.
#[derive(Drop, Error)]
#[error("no memory for the awaiter")]
pub struct AwaitsRefused<T> {
    /// The Task, as it was.
    pub task: T,
}

impl<T: Drop> From<AwaitsRefused<T>> for io::Error {
    fn from(_refused: AwaitsRefused<T>) -> io::Error {
        io::Error::from(AllocError)
    }
}

/// A Task as a future of the kit. Dropped, it drops the Task, which cancels the task.
#[must_use]
#[derive(Drop)]
pub struct Awaits<
    R: Wait + Drop + Copy,
    F: Yields,
    Q: Drop,
    M: Drop,
    X: Copy,
    B: Allocator + Copy = Global,
>
where
    Q: Schedule<Runnable<R, F, Q, M, KitAwaiter<B>, X, B>>,
{
    pub(crate) task: Task<R, F, Q, M, KitAwaiter<B>, X, B>,
    awaiter: Unregistered<B>,
}

impl<R: Wait + Drop + Copy, F: Yields, Q: Drop, M: Drop, X: Copy, B: Allocator + Copy> Awaits<
    R,
    F,
    Q,
    M,
    X,
    B,
>
where
    Q: Schedule<Runnable<R, F, Q, M, KitAwaiter<B>, X, B>>,
{
    /// Wraps a Task. The memory of its awaiter is taken here, from `alloc`.
    ///
    /// An `Err` says that memory was refused, and hands the Task back as it was.
    pub fn new(
        alloc: B,
        task: Task<R, F, Q, M, KitAwaiter<B>, X, B>,
    ) -> Result<Awaits<R, F, Q, M, X, B>, AwaitsRefused<Task<R, F, Q, M, KitAwaiter<B>, X, B>>>
        ensures task { IfOk result (λ awaits. awaits.task ≡ task) }
        ensures returned { IfErr result (λ refused. refused.task ≡ task) }
    {
        match Unregistered::new(alloc) {
            Ok(awaiter) => Ok(Awaits { task, awaiter }),
            Err(_) => Err(AwaitsRefused { task }),
        }
    }

    /// Gives the Task back. An awaiter that a poll registered stays registered until the Task is polled again.
    pub fn into_task(self) -> Task<R, F, Q, M, KitAwaiter<B>, X, B>
        ensures { result ≡ self.task }
    {
        let Awaits { task, awaiter: _ } = self;
        task
    }
}

impl<R: Wait + Drop + Copy, F: Yields, Q: Drop, M: Drop, X: Copy, B: Allocator + Copy> Future
    for Awaits<R, F, Q, M, X, B>
where
    Q: Schedule<Runnable<R, F, Q, M, KitAwaiter<B>, X, B>>,
{
    type Output = Result<F::Output, AwaitError>;

    ghost needs = { λ awaits source. source ≡ (arc_value awaits.awaiter.awaiter.slot).source.id };

    ghost gives = { λ _ answer. IfOk answer (λ output. ∥ F.Yields.meets output ∥₁) };

    // The kit's waker is registered before the Task is polled, so an end in between wakes it.
    fn poll(&mut self, cx: &mut Context<'_>) -> Poll<Result<F::Output, AwaitError>>
        ensures value { IfReady result (λ answer. IfOk answer (λ output. ∥ F.Yields.meets output ∥₁)) }
        ensures registered { OnPending result (Covers cx.new (λ source. source ≡ (arc_value self.new.awaiter.awaiter.slot).source.id)) }
        ensures kept { Keeps cx.old cx.new }
        ensures answer { ((result ≡ Poll.Ready (Err AwaitError.Refused)) × (self.new.task ≡ self.old.task)) ⊎ PollsTask self.old.awaiter.awaiter self.old.task.inner.party self.new.task.inner.party result }
        ensures ended { saw_ended (deeds self.old.task.inner.party) ≡ true → (result ≡ Poll.Ready (Err AwaitError.Closed)) ⊎ (result ≡ Poll.Ready (Err AwaitError.Refused)) }
        ensures closed { result ≡ Poll.Ready (Err AwaitError.Closed) → saw_ended (deeds self.new.task.inner.party) ≡ true }
        ensures awaiter { self.new.awaiter ≡ self.old.awaiter }
        ensures cell { self.new.task.inner.share ≡ self.old.task.inner.share }
        ensures around { self.new.task.around ≡ self.old.task.around }
    {
        let Some((registered, awaiter)) = self.awaiter.register(cx) else {
            return Poll::Ready(Err(AwaitError::Refused));
        };
        match self.task.poll(awaiter) {
            TaskPoll::Ready(Ok(output)) => Poll::Ready(Ok(output)),
            TaskPoll::Ready(Err(_)) => Poll::Ready(Err(AwaitError::Closed)),
            TaskPoll::Refused => Poll::Ready(Err(AwaitError::Refused)),
            TaskPoll::Pending => registered,
        }
    }
}
