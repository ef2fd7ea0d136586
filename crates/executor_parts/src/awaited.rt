//! What a thread waits for: a handle that is polled until its task is over.
ghost use Rattle.std.specs.Prelude.{◌≡◌, true, false, refl, Result};
ghost use Rattle.std.proofs.Common.{◌∙◌, subst};
ghost use Rattle.task_core.specs.declared.traits.TaskPoll.{TaskPoll};
ghost use Rattle.async_task.specs.declared.task.TaskClosed.{TaskClosed};
ghost use Rattle.task_steps.specs.Steps.{saw_ended};
ghost use Rattle.task_cell.specs.Belongs.{HasYielded};
ghost use Rattle.task_cell.specs.Calls.{deeds};
ghost use Rattle.async_task.specs.HandlePaths.{fallible_answer, is_closed};
ghost use Rattle.executor_parts.specs.Answered.{Answered, WasPolled, cancel_answer, goes-on, refused};

use async_task::{Cancel, Runnable, Schedule, Task, TaskClosed, TaskPoll, Wake, Yields};
use std::alloc::Allocator;
use std::sync::Wait;

/// A handle of a task that is polled until the task is over: a Task, or a Cancel.
pub trait Awaited<A: Wake> {
    /// What comes out: of a Task the output, of a Cancel the output of a task that was completed before, or `None` once the future is gone.
    type Output: Drop;

    // What polls have answered that made of the first handle the second: all but the last were pending.
    ghost answers: { Self → TaskPoll (Result Self.Output TaskClosed) → Self → Type 0 };

    /// Polls the handle once, as its own `poll` does. A Cancel never answers `TaskClosed`.
    fn poll_once(&mut self, awaiter: &A) -> TaskPoll<Result<Self::Output, TaskClosed>>
        ensures { answers self.old result self.new };

    // A refusal may come before any poll.
    ghost refuses: { (handle : Self) → answers handle TaskPoll.Refused handle };

    // What is answered after polls that were pending.
    ghost goes_on: { (first second third : Self) (answer : TaskPoll (Result Self.Output TaskClosed)) → answers first TaskPoll.Pending second → answers second answer third → answers first answer third };
}

impl<
    R: Wait + Drop + Copy,
    F: Yields,
    Q: Drop,
    M: Drop,
    A: Wake,
    X: Copy,
    B: Allocator + Copy,
> Awaited<A> for Task<R, F, Q, M, A, X, B>
where
    Q: Schedule<Runnable<R, F, Q, M, A, X, B>>,
{
    type Output = F::Output;

    ghost answers = { λ before answer after. Answered (λ output. ∥ F.Yields.meets output ∥₁ × HasYielded before.inner.share output) (saw_ended (deeds before.inner.party)) (fallible_answer answer) (saw_ended (deeds after.inner.party)) × (after.inner.share ≡ before.inner.share) × (after.around ≡ before.around) };

    ghost refuses = { λ _. (refused, refl, refl) };

    ghost goes_on = { λ _ _ _ _ before after. (goes-on (λ output told. (told.0, subst (λ share. HasYielded share output) before.1 told.1)) before.0 after.0, after.1 ∙ before.1, after.2 ∙ before.2) };

    fn poll_once(&mut self, awaiter: &A) -> TaskPoll<Result<F::Output, TaskClosed>> {
        self.poll(awaiter)
    }
}

impl<
    R: Wait + Drop + Copy,
    F: Yields,
    Q: Drop,
    M: Drop,
    A: Wake,
    X: Copy,
    B: Allocator + Copy,
> Awaited<A> for Cancel<R, F, Q, M, A, X, B>
where
    Q: Schedule<Runnable<R, F, Q, M, A, X, B>>,
{
    type Output = Option<F::Output>;

    ghost answers = { λ before answer after. Answered (λ output. ∥ F.Yields.meets output ∥₁ × HasYielded before.task.inner.share output) (saw_ended (deeds before.task.inner.party)) (cancel_answer answer) (saw_ended (deeds after.task.inner.party)) × (after.task.inner.share ≡ before.task.inner.share) × (after.task.around ≡ before.task.around) × (is_closed answer ≡ false) × (WasPolled answer → after.cancelled ≡ true) };

    ghost refuses = { λ _. (refused, refl, refl, refl, λ impossible. absurd impossible) };

    ghost goes_on = { λ _ _ _ _ before after. (goes-on (λ output told. (told.0, subst (λ share. HasYielded share output) before.1 told.1)) before.0 after.0, after.1 ∙ before.1, after.2 ∙ before.2, after.3, after.4) };

    fn poll_once(&mut self, awaiter: &A) -> TaskPoll<Result<Option<F::Output>, TaskClosed>> {
        match self.poll(awaiter) {
            TaskPoll::Ready(answer) => TaskPoll::Ready(Ok(answer)),
            TaskPoll::Pending => TaskPoll::Pending,
            TaskPoll::Refused => TaskPoll::Refused,
        }
    }
}
