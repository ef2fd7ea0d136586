//! The Task: the handle that awaits the output.
ghost use Rattle.std.specs.Prelude.{◌≡◌, ℕ, List, ◌∷◌, [], true, false, None};
ghost use Rattle.task_cell.specs.Belongs.{cell_of, HasYielded};
ghost use Rattle.task_steps.specs.declared.table.Deed.{Deed};
ghost use Rattle.task_steps.specs.Rule.{view, member};
ghost use Rattle.task_steps.specs.Steps.{saw_over, saw_ended};
ghost use Rattle.task_cell.specs.TaskPaths.{CancelPath, DetachPath};
ghost use Rattle.task_cell.specs.Handed.{HandedOver};
ghost use Rattle.task_cell.specs.PollPaths.{IfOutput};
ghost use Rattle.async_task.specs.HandlePaths.{EndsTask, FindsFinished, PollsOnce, IfSomeOutput, fallible_answer, is_closed};
ghost use Rattle.task_cell.specs.Witnessed.{Witnesses};
ghost use Rattle.task_cell.specs.Stores.{Registration};
ghost use Rattle.task_cell.specs.Woken.{WokeStored};
ghost use Rattle.task_cell.specs.Calls.{Did, deeds, position, places_of, limit_of, is_empty};
ghost use Rattle.task_steps.specs.Standing.{as_ended, is_task};

use crate::cancel::Cancel;
use crate::fallible::FallibleTask;
use crate::parked::ParkedTask;
use std::alloc::{Allocator, Global};
use std::io;
use std::sync::Wait;
use task_cell::{EndedCall, Kept, Party, Runnable, Share};
use task_core::word::Word;
use task_core::{Schedule, TaskPoll, Wake, Yields};
use thiserror::Error;

/// The task is closed, and no output will come.
#[derive(Clone, Copy, Debug, PartialEq, Eq, Error)]
#[error("the task is closed")]
pub struct TaskClosed;

impl From<TaskClosed> for io::Error {
    fn from(_error: TaskClosed) -> io::Error {
        io::Error::other("the task is closed")
    }
}

/// A share of a cell, and the party of its Task.
pub(crate) struct TaskParty<R, F: Yields, Q, M, A, B: Allocator + Copy> {
    pub(crate) share: Share<R, F, Q, M, A, B>,
    pub(crate) party: Party<F, Kept<F>, A>,
    ghost seated: { party.seat.block ≡ share.block.id },
    ghost limited: { limit_of party ≡ share.block.key.limit },
    ghost placed: { is_task (position party) ≡ true },
    ghost alone: { party.seat.me.0 ≡ view (limit_of party) (member (position party) (deeds party) ∷ []) },
    ghost free: { is_empty (places_of party) ≡ true },
}

impl<R: Wait + Drop + Copy, F: Yields, Q: Drop, M: Drop, A: Wake, B: Allocator + Copy> TaskParty<
    R,
    F,
    Q,
    M,
    A,
    B,
> {
    // Whether the task is completed or closed.
    pub(crate) fn is_finished(&mut self) -> bool
        ensures path { FindsFinished self.old.party self.new.party result }
        ensures seen { saw_over (deeds self.old.party) ≡ true → result ≡ true }
        ensures ended { saw_ended (deeds self.old.party) ≡ true → saw_ended (deeds self.new.party) ≡ true }
        ensures share { self.new.share ≡ self.old.share }
    {
        self.share.is_finished(&mut self.party)
    }

    // The word as one load finds it, and an interleaving that ends in it.
    pub(crate) fn witness(&mut self) -> Word
        ensures witness { Witnesses self.old.party result }
        ensures same { (self.new.share ≡ self.old.share) × (self.new.party ≡ self.old.party) }
    {
        self.share.witness(&mut self.party)
    }

    // One poll of the Task. The output that it hands out is one that the spawned future has answered, and meets what its type states.
    pub(crate) fn poll(&mut self, awaiter: &A) -> TaskPoll<Option<F::Output>>
        ensures path { PollsOnce A.cloned A.woken A.woken_by_ref A.compared awaiter.now self.old.party self.new.party result }
        ensures meets { IfSomeOutput result (λ output. ∥ F.Yields.meets output ∥₁) }
        ensures yielded { IfSomeOutput result (λ output. HasYielded self.old.share output) }
        ensures ended { saw_ended (deeds self.old.party) ≡ true → result ≡ TaskPoll.Ready None }
        ensures closed { result ≡ TaskPoll.Ready None → saw_ended (deeds self.new.party) ≡ true }
        ensures registered { result ≡ TaskPoll.Pending → Registration A.Wake awaiter.now self.old.party self.new.party }
        ensures share { self.new.share ≡ self.old.share }
    {
        match self.share.poll(&mut self.party, awaiter) {
            TaskPoll::Pending => TaskPoll::Pending,
            TaskPoll::Refused => TaskPoll::Refused,
            TaskPoll::Ready(Some(kept)) => TaskPoll::Ready(Some(kept.output)),
            TaskPoll::Ready(None) => TaskPoll::Ready(None),
        }
    }

    // Closes the task, if it is not over.
    pub(crate) fn cancel<X: Copy>(&mut self, around: X)
    where
        Q: Schedule<Runnable<R, F, Q, M, A, X, B>>,
        ensures path { (path : List Deed) × CancelPath (HandedOver Q.scheduled (cell_of self.old.share) around false) (WokeStored A.woken) path × Did path (position self.old.party) self.old.party self.new.party }
        ensures share { self.new.share ≡ self.old.share }
    {
        self.share.cancel(&mut self.party, around);
    }
}

/// The handle that gets the output. Dropped, it cancels the task.
#[must_use]
pub struct Task<
    R: Wait + Drop + Copy,
    F: Yields,
    Q: Drop,
    M: Drop,
    A: Wake,
    X: Copy,
    B: Allocator + Copy = Global,
>
where
    Q: Schedule<Runnable<R, F, Q, M, A, X, B>>,
{
    pub(crate) inner: TaskParty<R, F, Q, M, A, B>,
    pub(crate) around: X,
}

impl<R: Wait + Drop + Copy, F: Yields, Q: Drop, M: Drop, A: Wake, X: Copy, B: Allocator + Copy> Drop
    for Task<R, F, Q, M, A, X, B>
where
    Q: Schedule<Runnable<R, F, Q, M, A, X, B>>,
{
    fn drop(self) {
        self.discard();
    }
}

impl<
    R: Wait + Drop + Copy,
    F: Yields,
    Q: Drop,
    M: Drop,
    A: Wake,
    X: Copy,
    B: Allocator + Copy,
> Task<R, F, Q, M, A, X, B>
where
    Q: Schedule<Runnable<R, F, Q, M, A, X, B>>,
{
    fn into_parts(self) -> (TaskParty<R, F, Q, M, A, B>, X)
        ensures inner { result.0 ≡ self.inner }
        ensures around { result.1 ≡ self.around }
    {
        let Task { inner, around } = self;
        (inner, around)
    }

    /// The metadata that the builder was given.
    pub fn metadata(&self) -> &M
        ensures { result.now ≡ self.now.inner.share.block.value.metadata }
    {
        self.inner.share.metadata()
    }

    /// The surroundings that the handle carries.
    pub fn around(&self) -> X
        ensures { result ≡ self.now.around }
    {
        self.around
    }

    /// Does what a drop does: cancels the task, and gives the Task up.
    pub fn discard(self) -> EndedCall<F, Kept<F>, A>
        ensures path { EndsTask (CancelPath (HandedOver Q.scheduled (cell_of self.inner.share) self.around false) (WokeStored A.woken)) (DetachPath (HandedOver Q.scheduled (cell_of self.inner.share) self.around false)) self.inner.party result.party }
    {
        let (inner, around) = self.into_parts();
        let TaskParty { share, mut party } = inner;
        let ledger = share.ledger();
        share.cancel(&mut party, around);
        share.detach(&mut party, around);
        ledger.record(party)
    }

    /// The same handle without the surroundings. It makes no step.
    pub fn park(self) -> ParkedTask<R, F, Q, M, A, B>
        ensures { result.inner ≡ self.inner }
    {
        let (inner, _) = self.into_parts();
        ParkedTask { inner }
    }

    /// The same Task with other surroundings. It makes no step. A cancel and the drop hand their Runnable over with these.
    ///
    /// With `()` any container holds the Task. Its schedule value then has no executor at hand, and drops the Runnable that a cancel hands over, which drops the future at once.
    pub fn with_around<Y: Copy>(self, around: Y) -> Task<R, F, Q, M, A, Y, B>
    where
        Q: Schedule<Runnable<R, F, Q, M, A, Y, B>>,
        ensures inner { result.inner ≡ self.inner }
        ensures around { result.around ≡ around }
    {
        let inner = self.into_parts().0;
        Task { inner, around }
    }

    /// The same Task, whose polls answer `None` where a Task's answer `TaskClosed`. It makes no step.
    pub fn fallible(self) -> FallibleTask<R, F, Q, M, A, X, B>
        ensures { result.task ≡ self }
    {
        FallibleTask { task: self }
    }

    /// The same Task, as a handle whose first poll cancels the task. This call makes no step.
    pub fn cancel(self) -> Cancel<R, F, Q, M, A, X, B>
        ensures task { result.task ≡ self }
        ensures cancelled { result.cancelled ≡ false }
    {
        Cancel {
            task: self,
            cancelled: false,
        }
    }

    /// Gives the Task up and lets the task go on. An output that nobody claimed is dropped.
    pub fn detach(self) -> EndedCall<F, Kept<F>, A>
        ensures path { (path : List Deed) × DetachPath (HandedOver Q.scheduled (cell_of self.inner.share) self.around false) path × Did path as_ended self.inner.party result.party }
    {
        let (inner, around) = self.into_parts();
        let TaskParty { share, mut party } = inner;
        let ledger = share.ledger();
        share.detach(&mut party, around);
        ledger.record(party)
    }

    /// Whether the task is completed or closed. Once it is, each further answer is true.
    pub fn is_finished(&mut self) -> bool
        ensures path { FindsFinished self.old.inner.party self.new.inner.party result }
        ensures seen { saw_over (deeds self.old.inner.party) ≡ true → result ≡ true }
        ensures ended { saw_ended (deeds self.old.inner.party) ≡ true → saw_ended (deeds self.new.inner.party) ≡ true }
        ensures cell { self.new.inner.share ≡ self.old.inner.share }
        ensures around { self.new.around ≡ self.old.around }
    {
        self.inner.is_finished()
    }

    /// The word as one load finds it. The clause `witness` says all that is proved of it: an interleaving of the machine, from the spawn of this task, ends in it, all laws hold there, and this Task did last in it what its calls have promised. Nothing changes. It waits for nobody.
    pub fn witness(&mut self) -> Word
        ensures witness { Witnesses self.old.inner.party result }
        ensures same { (self.new.inner.share ≡ self.old.inner.share) × (self.new.inner.party ≡ self.old.inner.party) × (self.new.around ≡ self.old.around) }
    {
        self.inner.witness()
    }

    /// Answers with the output once there is one, or with `TaskClosed`. Otherwise a clone of `awaiter` is registered, to be woken then.
    ///
    /// The output is one that the future which was spawned has answered, after polls that answered Pending, by what its type states of each (`moves`); and it meets `meets`. `TaskClosed` says that no output will come, and each later poll answers the same.
    /// `Pending` says that a clone of `awaiter` is stored under the number of this poll, unless it, or a clone of it, was woken already.
    /// `Refused` says that the clone was refused: nothing was registered, and an awaiter that an earlier poll registered is still woken.
    pub fn poll(&mut self, awaiter: &A) -> TaskPoll<Result<F::Output, TaskClosed>>
        ensures path { PollsOnce A.cloned A.woken A.woken_by_ref A.compared awaiter.now self.old.inner.party self.new.inner.party (fallible_answer result) }
        ensures meets { IfOutput result (λ output. ∥ F.Yields.meets output ∥₁) }
        ensures yielded { IfOutput result (λ output. HasYielded self.old.inner.share output) }
        ensures ended { saw_ended (deeds self.old.inner.party) ≡ true → is_closed result ≡ true }
        ensures closed { is_closed result ≡ true → saw_ended (deeds self.new.inner.party) ≡ true }
        ensures registered { result ≡ TaskPoll.Pending → Registration A.Wake awaiter.now self.old.inner.party self.new.inner.party }
        ensures cell { self.new.inner.share ≡ self.old.inner.share }
        ensures around { self.new.around ≡ self.old.around }
    {
        match self.inner.poll(awaiter) {
            TaskPoll::Pending => TaskPoll::Pending,
            TaskPoll::Refused => TaskPoll::Refused,
            TaskPoll::Ready(Some(output)) => TaskPoll::Ready(Ok(output)),
            TaskPoll::Ready(None) => TaskPoll::Ready(Err(TaskClosed)),
        }
    }
}
