//! What a caller does between the exports of its calls.
ghost use Rattle.std.specs.Prelude.{◌≡◌, Bool, Some, false};
ghost use Rattle.task_cell.specs.Calls.{Stands};
ghost use Rattle.task_core.specs.declared.acts.Act.{Act};
ghost use Rattle.task_core.specs.declared.acts.Act.TheVariants.{DropFuture, DropOutput, HandOutOutput, StoreAwaiter, StoreOutput};
ghost use Rattle.task_core.specs.declared.traits.Poll.{Poll};
ghost use Rattle.task_exports.specs.Answers.{IsFull};
ghost use Rattle.task_steps.specs.Standing.{as_runnable};

use crate::handle::Handle;
use task_core::{Poll, Wake};

/// What a caller has beside a cell, and does there when an answer asks for it. Other calls may have changed what lies there, so nothing is known of what it finds.
pub trait Caller<A: Wake> {
    /// What the future computes.
    type Output: Drop;

    // What a poll of the future answered.
    ghost polled: { Poll Self.Output → Type 0 };

    // The Runnable was handed to the schedule function, which was told whether the task was woken while it ran.
    ghost scheduled: { Bool → Type 0 };

    // Such an act was done in the place of the future and the output, or in that of the awaiter.
    ghost did: { Act → Type 0 };

    // This is the awaiter that was put into its place last.
    ghost put: { Self → A → Type 0 };

    /// Polls the future, with a waker that is lent for it, whose bits are those of the handle at `h`. `polled` holds of the call.
    fn poll(&mut self, h: &mut Handle) -> Poll<Self::Output>
        requires handle { IsFull h.old }
        ensures lent { IsFull h.new × (h.new.hand.party ≡ h.old.hand.party) }
        ensures fact { polled result };

    /// Drops the future.
    fn drop_future(&mut self)
        ensures fact { did DropFuture };

    /// Stores the output, in the place of a future that was dropped.
    fn store_output(&mut self, output: Self::Output)
        ensures fact { did StoreOutput };

    /// Drops the output.
    fn drop_output(&mut self)
        ensures fact { did DropOutput };

    /// Takes the output out, which is handed out then, or dropped last.
    fn take_output(&mut self) -> Self::Output
        ensures handed_out { did HandOutOutput }
        ensures dropped { did DropOutput };

    /// Empties the awaiter's place: what lay there.
    fn take_awaiter(&mut self) -> Option<A>;

    /// Puts an awaiter into its place, and drops what lay there.
    fn store_awaiter(&mut self, awaiter: A)
        ensures fact { did StoreAwaiter }
        ensures put { put self.new awaiter };

    /// Empties the awaiter's place, which this call has had since it put an awaiter there: that is what lay there.
    fn take_back(&mut self) -> Option<A>
        ensures put { (a : A) → put self.old a → result ≡ Some a };

    /// Hands the Runnable at this place to the schedule function, and tells it whether the task was woken while it ran. `scheduled` holds of the call.
    fn schedule(&mut self, runnable: &mut Handle, woken_while_running: bool)
        requires runnable { IsFull runnable.old × Stands as_runnable runnable.old.hand.party }
        ensures room { runnable.new.there ≡ false }
        ensures fact { scheduled woken_while_running };

    /// Drops the schedule function and the metadata, and frees the memory, of a cell that has ended.
    fn free(&mut self);
}
