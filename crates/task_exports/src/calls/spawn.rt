//! A spawn.
ghost use Rattle.std.specs.Prelude.{◌≡◌, IfSome, false};
ghost use Rattle.task_cell.specs.Calls.{Stands};
ghost use Rattle.task_exports.specs.Answers.{IsFull};
ghost use Rattle.task_exports.specs.Hands.{SameCell};
ghost use Rattle.task_steps.specs.Standing.{as_runnable, as_task};

use crate::answers::DONE;
use crate::handle::Handle;
use crate::spawn::async_task_new;
use std::alloc::Global;

/// Makes a task, whose future lies in its place already: its Runnable and its Task lie at these places then.
pub fn spawn(alloc: Global, runnable: &mut Handle, task: &mut Handle) -> Option<()>
    requires room { (runnable.old.there ≡ false) × (task.old.there ≡ false) }
    ensures runnable { IfSome result (λ _. IsFull runnable.new × Stands as_runnable runnable.new.hand.party) }
    ensures task { IfSome result (λ _. IsFull task.new × SameCell task.new.hand runnable.new.hand × Stands (as_task 0) task.new.hand.party) }
{
    match async_task_new(alloc, runnable, task) {
        DONE => Some(()),
        _ => None,
    }
}
