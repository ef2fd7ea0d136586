//! The Task as a handle whose polls answer `None` for a task that is closed.
ghost use Rattle.std.specs.Prelude.{◌≡◌, List, true, false, None};
ghost use Rattle.task_steps.specs.declared.table.Deed.{Deed};
ghost use Rattle.task_steps.specs.Standing.{as_ended};
ghost use Rattle.task_steps.specs.Steps.{saw_over, saw_ended};
ghost use Rattle.async_task.specs.HandlePaths.{EndsTask, FindsFinished, PollsOnce, IfSomeOutput};
ghost use Rattle.task_cell.specs.Stores.{Registration};
ghost use Rattle.task_cell.specs.Woken.{WokeStored};
ghost use Rattle.task_cell.specs.Belongs.{cell_of, HasYielded};
ghost use Rattle.task_cell.specs.Calls.{Did, deeds};
ghost use Rattle.task_cell.specs.Handed.{HandedOver};
ghost use Rattle.task_cell.specs.TaskPaths.{CancelPath, DetachPath};
ghost use Rattle.task_cell.specs.Witnessed.{Witnesses};

use crate::cancel::Cancel;
use crate::task::Task;
use std::alloc::{Allocator, Global};
use std::sync::Wait;
use task_cell::{EndedCall, Kept, Runnable};
use task_core::word::Word;
use task_core::{Schedule, TaskPoll, Wake, Yields};

/// A Task whose polls answer `None` where a Task's answer `TaskClosed`. Dropped, it cancels the task.
#[derive(Drop)]
#[must_use]
pub struct FallibleTask<
    R: Wait + Drop + Copy,
    F: Yields,
    Q: Drop,
    M: Drop,
    A: Wake,
    X: Copy,
    B: Allocator + Copy = Global,
>
where
    Q: Schedule<Runnable<R, F, Q, M, A, X, B>>,
{
    pub(crate) task: Task<R, F, Q, M, A, X, B>,
}

impl<
    R: Wait + Drop + Copy,
    F: Yields,
    Q: Drop,
    M: Drop,
    A: Wake,
    X: Copy,
    B: Allocator + Copy,
> FallibleTask<R, F, Q, M, A, X, B>
where
    Q: Schedule<Runnable<R, F, Q, M, A, X, B>>,
{
    /// The metadata that the builder was given.
    pub fn metadata(&self) -> &M
        ensures { result.now ≡ self.now.task.inner.share.block.value.metadata }
    {
        self.task.metadata()
    }

    /// Does what a drop does: cancels the task, and gives the Task up.
    pub fn discard(self) -> EndedCall<F, Kept<F>, A>
        ensures path { EndsTask (CancelPath (HandedOver Q.scheduled (cell_of self.task.inner.share) self.task.around false) (WokeStored A.woken)) (DetachPath (HandedOver Q.scheduled (cell_of self.task.inner.share) self.task.around false)) self.task.inner.party result.party }
    {
        let FallibleTask { task } = self;
        task.discard()
    }

    /// The same handle with other surroundings. It makes no step. A cancel and the drop hand their Runnable over with these.
    pub fn with_around<Y: Copy>(self, around: Y) -> FallibleTask<R, F, Q, M, A, Y, B>
    where
        Q: Schedule<Runnable<R, F, Q, M, A, Y, B>>,
        ensures inner { result.task.inner ≡ self.task.inner }
        ensures around { result.task.around ≡ around }
    {
        let FallibleTask { task } = self;
        FallibleTask {
            task: task.with_around(around),
        }
    }

    /// Gives the Task up and lets the task go on. An output that nobody claimed is dropped.
    pub fn detach(self) -> EndedCall<F, Kept<F>, A>
        ensures path { (path : List Deed) × DetachPath (HandedOver Q.scheduled (cell_of self.task.inner.share) self.task.around false) path × Did path as_ended self.task.inner.party result.party }
    {
        let FallibleTask { task } = self;
        task.detach()
    }

    /// The same Task, as a handle whose first poll cancels the task. This call makes no step.
    pub fn cancel(self) -> Cancel<R, F, Q, M, A, X, B>
        ensures task { result.task ≡ self.task }
        ensures cancelled { result.cancelled ≡ false }
    {
        let FallibleTask { task } = self;
        task.cancel()
    }

    /// Whether the task is completed or closed. Once it is, each further answer is true.
    pub fn is_finished(&mut self) -> bool
        ensures path { FindsFinished self.old.task.inner.party self.new.task.inner.party result }
        ensures seen { saw_over (deeds self.old.task.inner.party) ≡ true → result ≡ true }
        ensures ended { saw_ended (deeds self.old.task.inner.party) ≡ true → saw_ended (deeds self.new.task.inner.party) ≡ true }
        ensures cell { self.new.task.inner.share ≡ self.old.task.inner.share }
        ensures around { self.new.task.around ≡ self.old.task.around }
    {
        self.task.is_finished()
    }

    /// The word as one load finds it. The clause `witness` says all that is proved of it: an interleaving of the machine, from the spawn of this task, ends in it, all laws hold there, and this Task did last in it what its calls have promised. Nothing changes. It waits for nobody.
    pub fn witness(&mut self) -> Word
        ensures witness { Witnesses self.old.task.inner.party result }
        ensures same { (self.new.task.inner.share ≡ self.old.task.inner.share) × (self.new.task.inner.party ≡ self.old.task.inner.party) × (self.new.task.around ≡ self.old.task.around) }
    {
        self.task.witness()
    }

    /// Answers with the output once there is one, or with `None` where the task is closed. Otherwise a clone of `awaiter` is registered, to be woken then.
    ///
    /// The output is one that the future which was spawned has answered, as that of a Task, and meets what its type states. `None` says that no output will come, and each later poll answers the same.
    /// `Refused` says that the clone was refused: nothing was registered, and an awaiter that an earlier poll registered is still woken.
    pub fn poll(&mut self, awaiter: &A) -> TaskPoll<Option<F::Output>>
        ensures path { PollsOnce A.cloned A.woken A.woken_by_ref A.compared awaiter.now self.old.task.inner.party self.new.task.inner.party result }
        ensures meets { IfSomeOutput result (λ output. ∥ F.Yields.meets output ∥₁) }
        ensures yielded { IfSomeOutput result (λ output. HasYielded self.old.task.inner.share output) }
        ensures ended { saw_ended (deeds self.old.task.inner.party) ≡ true → result ≡ TaskPoll.Ready None }
        ensures closed { result ≡ TaskPoll.Ready None → saw_ended (deeds self.new.task.inner.party) ≡ true }
        ensures registered { result ≡ TaskPoll.Pending → Registration A.Wake awaiter.now self.old.task.inner.party self.new.task.inner.party }
        ensures cell { self.new.task.inner.share ≡ self.old.task.inner.share }
        ensures around { self.new.task.around ≡ self.old.task.around }
    {
        self.task.inner.poll(awaiter)
    }
}
