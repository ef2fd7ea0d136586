//! The drop of a Runnable.
ghost use Rattle.std.specs.Prelude.{◌≡◌, ◌++◌, ◌∷◌, [], ℕ, List, Option, IfSome};
ghost use Rattle.task_cell.specs.Calls.{Did, Stands, StandsWith};
ghost use Rattle.task_cell.specs.RunPaths.{DiscardPath, ReleasePath};
ghost use Rattle.task_core.specs.Word.{State};
ghost use Rattle.task_core.specs.declared.acts.Act.TheVariants.{DropFuture, EndCall, Unschedule, WakeAwaiter};
ghost use Rattle.task_exports.specs.Answers.{IsFull};
ghost use Rattle.task_exports.specs.CallPaths.{Done, LeavesPath, WakesAndLeaves};
ghost use Rattle.task_laws.specs.declared.positions.NotifyingCall.TheVariants.{OfDrop};
ghost use Rattle.task_laws.specs.declared.positions.Position.TheVariants.{AwaiterInHand, FutureGone, Releaser};
ghost use Rattle.task_laws.specs.declared.positions.WithoutPoll.TheVariants.{DroppedRunnable};
ghost use Rattle.task_steps.specs.Deeds.{act, row};
ghost use Rattle.task_steps.specs.Rule.{Waits};
ghost use Rattle.task_steps.specs.Standing.{as_ended, as_runnable};
ghost use Rattle.task_steps.specs.Steps.{awaiter_first, work_first};
ghost use Rattle.task_steps.specs.declared.table.Deed.{Deed};

use crate::answers::{DROP_FUTURE, LAST, OVER, TAKE, WAKE_FIRST};
use crate::caller::Caller;
use crate::calls::ends::{empty, over};
use crate::discard::{
    async_task_discard, async_task_discard_taken, async_task_discard_woken, async_task_discarded,
};
use crate::hand::Record;
use crate::handle::Handle;
use task_core::Wake;

// Wakes the awaiter that was taken, and ends the call.
fn wake_taken<A: Wake, C: Caller<A>>(
    h: &mut Handle,
    taken: Option<A>,
    caller: &mut C,
) -> Option<Record>
    requires handle { IsFull h.old }
    requires party { (i : ℕ) × Stands (AwaiterInHand i OfDrop) h.old.hand.party }
    ensures { IfSome result (λ ended. ((a : A) × (r : A.Record) × A.woken a r) × ((r : List Deed) × ReleasePath r × Did (act WakeAwaiter ∷ (r ++ act EndCall ∷ [])) as_ended h.old.hand.party ended.party)) }
{
    match taken {
        Some(awaiter) => {
            awaiter.wake();
            match async_task_discard_woken(h) {
                OVER => Some(over(h)),
                LAST => empty(h, false, caller),
                _ => None,
            }
        }
        None => None,
    }
}

// Empties the awaiter's place, and ends the call: what lay there is woken first.
fn end_taken<A: Wake, C: Caller<A>>(h: &mut Handle, caller: &mut C) -> Option<Record>
    requires handle { IsFull h.old }
    requires party { (awaiter : Option ℕ) × (y : _) × StandsWith (Releaser awaiter OfDrop) (awaiter_first y []) h.old.hand.party × Waits awaiter y }
    ensures { IfSome result (λ ended. (path : List Deed) × WakesAndLeaves ((a : A) × (r : A.Record) × A.woken a r) path × Did path as_ended h.old.hand.party ended.party) }
{
    let taken = caller.take_awaiter();
    match async_task_discard_taken(h) {
        OVER => Some(over(h)),
        WAKE_FIRST => wake_taken(h, taken, caller),
        LAST => empty(h, false, caller),
        _ => None,
    }
}

// Drops the future, and ends the call.
fn end_dropped<A: Wake, C: Caller<A>>(h: &mut Handle, caller: &mut C) -> Option<Record>
    requires handle { IsFull h.old }
    requires party { (y : _) × StandsWith (FutureGone DroppedRunnable) (work_first y []) h.old.hand.party }
    ensures { IfSome result (λ ended. C.did DropFuture × ((w : State) × (rest : List Deed) × LeavesPath ((a : A) × (r : A.Record) × A.woken a r) w.awaiter rest × Did (row Unschedule w ∷ rest) as_ended h.old.hand.party ended.party)) }
{
    caller.drop_future();
    match async_task_discarded(h) {
        OVER => Some(over(h)),
        TAKE => end_taken(h, caller),
        LAST => empty(h, false, caller),
        _ => None,
    }
}

/// Drops the Runnable at `h`, which closes the task: the record of the call.
pub fn discard<A: Wake, C: Caller<A>>(h: &mut Handle, caller: &mut C) -> Option<Record>
    requires handle { IsFull h.old }
    requires party { Stands as_runnable h.old.hand.party }
    ensures { IfSome result (λ ended. (path : List Deed) × DiscardPath ((a : A) × (r : A.Record) × A.woken a r) path × Done C.did path × Did path as_ended h.old.hand.party ended.party) }
{
    match async_task_discard(h) {
        DROP_FUTURE => end_dropped(h, caller),
        _ => None,
    }
}
