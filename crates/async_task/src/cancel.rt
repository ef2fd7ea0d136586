//! The Task as a handle that cancels the task, and waits until its future is gone.
ghost use Rattle.std.specs.Prelude.{◌≡◌, List, true, false, None};
ghost use Rattle.task_cell.specs.Stores.{Registration};
ghost use Rattle.task_cell.specs.Woken.{WokeStored};
ghost use Rattle.task_cell.specs.Belongs.{cell_of, HasYielded};
ghost use Rattle.task_steps.specs.declared.table.Deed.{Deed};
ghost use Rattle.task_steps.specs.Steps.{saw_over, saw_ended};
ghost use Rattle.task_cell.specs.TaskPaths.{CancelPath};
ghost use Rattle.task_cell.specs.Witnessed.{Witnesses};
ghost use Rattle.task_cell.specs.Handed.{HandedOver};
ghost use Rattle.async_task.specs.HandlePaths.{ClosesUnless, FindsFinished, PollsClosed, IfSomeOutput};
ghost use Rattle.task_cell.specs.Calls.{Did, deeds, position};

use crate::task::Task;
use std::alloc::{Allocator, Global};
use std::sync::Wait;
use task_cell::Runnable;
use task_core::word::Word;
use task_core::{Schedule, TaskPoll, Wake, Yields};

/// A Task whose first poll cancels the task. Each poll answers as that of a `FallibleTask` does. Dropped, polled or not, it cancels the task.
#[derive(Drop)]
#[must_use]
pub struct Cancel<
    R: Wait + Drop + Copy,
    F: Yields,
    Q: Drop,
    M: Drop,
    A: Wake,
    X: Copy,
    B: Allocator + Copy = Global,
>
where
    Q: Schedule<Runnable<R, F, Q, M, A, X, B>>,
{
    pub(crate) task: Task<R, F, Q, M, A, X, B>,
    pub(crate) cancelled: bool,
}

impl<
    R: Wait + Drop + Copy,
    F: Yields,
    Q: Drop,
    M: Drop,
    A: Wake,
    X: Copy,
    B: Allocator + Copy,
> Cancel<R, F, Q, M, A, X, B>
where
    Q: Schedule<Runnable<R, F, Q, M, A, X, B>>,
{
    /// The same handle with other surroundings, which has cancelled if this one has. It makes no step. A cancel and the drop hand their Runnable over with these.
    pub fn with_around<Y: Copy>(self, around: Y) -> Cancel<R, F, Q, M, A, Y, B>
    where
        Q: Schedule<Runnable<R, F, Q, M, A, Y, B>>,
        ensures inner { result.task.inner ≡ self.task.inner }
        ensures around { result.task.around ≡ around }
        ensures cancelled { result.cancelled ≡ self.cancelled }
    {
        let Cancel { task, cancelled } = self;
        Cancel {
            task: task.with_around(around),
            cancelled,
        }
    }

    /// Whether the task is completed or closed. Once it is, each further answer is true.
    pub fn is_finished(&mut self) -> bool
        ensures path { FindsFinished self.old.task.inner.party self.new.task.inner.party result }
        ensures seen { saw_over (deeds self.old.task.inner.party) ≡ true → result ≡ true }
        ensures ended { saw_ended (deeds self.old.task.inner.party) ≡ true → saw_ended (deeds self.new.task.inner.party) ≡ true }
        ensures cell { self.new.task.inner.share ≡ self.old.task.inner.share }
        ensures around { self.new.task.around ≡ self.old.task.around }
        ensures cancelled { self.new.cancelled ≡ self.old.cancelled }
    {
        self.task.is_finished()
    }

    /// The word as one load finds it. The clause `witness` says all that is proved of it: an interleaving of the machine, from the spawn of this task, ends in it, all laws hold there, and this Task did last in it what its calls have promised. Nothing changes. It waits for nobody.
    pub fn witness(&mut self) -> Word
        ensures witness { Witnesses self.old.task.inner.party result }
        ensures same { (self.new.task.inner.share ≡ self.old.task.inner.share) × (self.new.task.inner.party ≡ self.old.task.inner.party) × (self.new.task.around ≡ self.old.task.around) × (self.new.cancelled ≡ self.old.cancelled) }
    {
        self.task.witness()
    }

    /// Cancels the task, if no earlier poll did, and then answers with the output of a task that was completed before, or with `None` once the future of the task is gone.
    /// Otherwise a clone of `awaiter` is registered, to be woken then.
    ///
    /// The output is one that the future which was spawned has answered, as that of a Task, and meets what its type states. After `None` each later poll answers the same.
    /// `Refused` says that the clone was refused: the task is cancelled all the same, nothing was registered, and an awaiter that an earlier poll registered is still woken.
    pub fn poll(&mut self, awaiter: &A) -> TaskPoll<Option<F::Output>>
        ensures path { PollsClosed self.old.cancelled (CancelPath (HandedOver Q.scheduled (cell_of self.old.task.inner.share) self.old.task.around false) (WokeStored A.woken)) A.cloned A.woken A.woken_by_ref A.compared awaiter.now self.old.task.inner.party self.new.task.inner.party result }
        ensures meets { IfSomeOutput result (λ output. ∥ F.Yields.meets output ∥₁) }
        ensures yielded { IfSomeOutput result (λ output. HasYielded self.old.task.inner.share output) }
        ensures ended { saw_ended (deeds self.old.task.inner.party) ≡ true → result ≡ TaskPoll.Ready None }
        ensures closed { result ≡ TaskPoll.Ready None → saw_ended (deeds self.new.task.inner.party) ≡ true }
        ensures registered { result ≡ TaskPoll.Pending → Registration A.Wake awaiter.now self.old.task.inner.party self.new.task.inner.party }
        ensures cell { self.new.task.inner.share ≡ self.old.task.inner.share }
        ensures around { self.new.task.around ≡ self.old.task.around }
        ensures cancelled { self.new.cancelled ≡ true }
    {
        self.cancel_once();
        self.task.inner.poll(awaiter)
    }

    // Cancels the task, unless an earlier poll did.
    fn cancel_once(&mut self)
        ensures path { (path : List Deed) × ClosesUnless self.old.cancelled (CancelPath (HandedOver Q.scheduled (cell_of self.old.task.inner.share) self.old.task.around false) (WokeStored A.woken)) path × Did path (position self.old.task.inner.party) self.old.task.inner.party self.new.task.inner.party }
        ensures cancelled { self.new.cancelled ≡ true }
        ensures ended { saw_ended (deeds self.old.task.inner.party) ≡ true → saw_ended (deeds self.new.task.inner.party) ≡ true }
        ensures cell { self.new.task.inner.share ≡ self.old.task.inner.share }
        ensures around { self.new.task.around ≡ self.old.task.around }
    {
        if self.cancelled {
            return;
        }
        self.cancelled = true;
        self.task.inner.cancel(self.task.around);
    }
}
