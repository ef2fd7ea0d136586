//! A run.
ghost use Rattle.std.specs.Prelude.{◌≡◌, ◌++◌, ◌∷◌, [], ℕ, Bool, List, Option, Some, IfSome, true, false};
ghost use Rattle.task_cell.specs.Calls.{Did, Stands, StandsWith};
ghost use Rattle.task_cell.specs.RunPaths.{PendingPath, ReadyPath, RestPath, RunPath};
ghost use Rattle.task_core.specs.Word.{State};
ghost use Rattle.task_core.specs.declared.acts.Act.TheVariants.{DropFuture, DropOutput, EndClosed, Unschedule};
ghost use Rattle.task_exports.specs.Answers.{GoesOn, IsFull};
ghost use Rattle.task_exports.specs.CallPaths.{Done, EndsTaken};
ghost use Rattle.task_exports.specs.declared.hand.Hand.{Hand};
ghost use Rattle.task_laws.specs.declared.positions.NotifyingCall.TheVariants.{OfRun};
ghost use Rattle.task_laws.specs.declared.positions.Position.TheVariants.{FutureGone, OutputInHand, PendingFutureDropped, Polling, Releaser};
ghost use Rattle.task_laws.specs.declared.positions.WithoutPoll.TheVariants.{ClosedRun};
ghost use Rattle.task_steps.specs.Deeds.{act, row};
ghost use Rattle.task_steps.specs.Rule.{IsFuture, Waits};
ghost use Rattle.task_steps.specs.Standing.{as_ended, as_runnable};
ghost use Rattle.task_steps.specs.Steps.{awaiter_first, work_first};
ghost use Rattle.task_steps.specs.declared.table.Deed.{Deed};
ghost use Rattle.task_exports.specs.Unknown.{unknown};

use crate::answers::{
    DROP_FUTURE, DROP_OUTPUT, DROP_OUTPUT_DUE, LAST, LAST_WAKE, OVER, POLL, SCHEDULE_WOKEN, TAKE,
    WAKE,
};
use crate::caller::Caller;
use crate::calls::crossing::{end, lend};
use crate::calls::ends::{empty, over, record, wake_last};
use crate::ends::async_task_finish;
use crate::hand::Record;
use crate::handle::Handle;
use crate::run::{
    async_task_complete, async_task_output_dropped, async_task_pending, async_task_pending_closed,
    async_task_run_closed, async_task_start,
};
use task_core::{Poll, Wake};

// Empties the awaiter's place, and ends the run: what lay there is woken last.
fn end_taken<A: Wake, C: Caller<A>>(h: &mut Handle, caller: &mut C) -> Option<Record>
    requires handle { IsFull h.old }
    requires party { (awaiter : Option ℕ) × (y : _) × StandsWith (Releaser awaiter OfRun) (awaiter_first y []) h.old.hand.party × Waits awaiter y }
    ensures { IfSome result (λ ended. (path : List Deed) × EndsTaken ((a : A) × (r : A.Record) × A.woken a r) path × Did path as_ended h.old.hand.party ended.party) }
{
    let taken = caller.take_awaiter();
    match by_bits!(h, async_task_finish) {
        OVER => Some(over(h)),
        LAST => empty(h, false, caller),
        WAKE => wake_last(over(h), taken),
        LAST_WAKE => match empty(h, true, caller) {
            Some(ended) => wake_last(ended, taken),
            None => None,
        },
        _ => None,
    }
}

// Ends a run that does not give way, by the answer of its end step.
fn leave<A: Wake, C: Caller<A>>(h: &mut Handle, answer: u32, caller: &mut C) -> Option<Record>
    requires there { h.old.there ≡ true }
    requires goes { (x : Hand) × (due : Bool) × (before : List Deed) × GoesOn OfRun due before x h.old.hand answer }
    ensures { (x : Hand) (due : Bool) (before : List Deed) → GoesOn OfRun due before x h.old.hand answer → IfSome result (λ ended. (rest : List Deed) × RestPath ((a : A) × (r : A.Record) × A.woken a r) due rest × Did (before ++ rest) as_ended x.party ended.party) }
{
    match answer {
        OVER => Some(over(h)),
        TAKE => end_taken(h, caller),
        LAST => empty(h, false, caller),
        _ => None,
    }
}

// The answer of a run that does not give way.
fn stays(ended: Option<Record>) -> Option<(bool, Record)>
    ensures { IfSome result (λ call. (call.0 ≡ false) × (ended ≡ Some call.1)) }
{
    match ended {
        Some(ended) => Some((false, ended)),
        None => None,
    }
}

// Drops the future of a task that was closed before the run, and ends it.
fn end_closed<A: Wake, C: Caller<A>>(h: &mut Handle, caller: &mut C) -> Option<Record>
    requires handle { IsFull h.old }
    requires party { (y : _) × StandsWith (FutureGone ClosedRun) (work_first y []) h.old.hand.party }
    ensures { IfSome result (λ ended. C.did DropFuture × ((w : State) × (rest : List Deed) × RestPath ((a : A) × (r : A.Record) × A.woken a r) w.awaiter rest × Did (row Unschedule w ∷ rest) as_ended h.old.hand.party ended.party)) }
{
    caller.drop_future();
    let answer = async_task_run_closed(h);
    leave(h, answer, caller)
}

// Drops the output that nobody will claim, and ends the run.
fn end_unclaimed<A: Wake, C: Caller<A>>(h: &mut Handle, due: bool, caller: &mut C) -> Option<Record>
    requires handle { IsFull h.old }
    requires party { (z : _) × StandsWith (OutputInHand due) (work_first z []) h.old.hand.party }
    ensures { IfSome result (λ ended. C.did DropOutput × ((rest : List Deed) × RestPath ((a : A) × (r : A.Record) × A.woken a r) due rest × Did (act DropOutput ∷ rest) as_ended h.old.hand.party ended.party)) }
{
    caller.drop_output();
    let answer = async_task_output_dropped(h, due);
    leave(h, answer, caller)
}

// Ends a run whose poll was ready.
fn end_ready<A: Wake, C: Caller<A>>(
    h: &mut Handle,
    output: C::Output,
    caller: &mut C,
) -> Option<Record>
    requires handle { IsFull h.old }
    requires party { (y : _) × StandsWith Polling (work_first y []) h.old.hand.party }
    ensures { IfSome result (λ ended. (path : List Deed) × ReadyPath ((a : A) × (r : A.Record) × A.woken a r) path × Done C.did path × Did path as_ended h.old.hand.party ended.party) }
{
    caller.drop_future();
    caller.store_output(output);
    match by_bits!(h, async_task_complete) {
        DROP_OUTPUT => end_unclaimed(h, false, caller),
        DROP_OUTPUT_DUE => end_unclaimed(h, true, caller),
        OVER => leave(h, OVER, caller),
        TAKE => leave(h, TAKE, caller),
        LAST => leave(h, LAST, caller),
        _ => None,
    }
}

// Drops the future of a task that was closed while it was polled, and ends the run.
fn end_cleared<A: Wake, C: Caller<A>>(h: &mut Handle, caller: &mut C) -> Option<Record>
    requires handle { IsFull h.old }
    requires party { (y : _) × StandsWith PendingFutureDropped (work_first y []) h.old.hand.party }
    ensures { IfSome result (λ ended. C.did DropFuture × ((w : State) × (rest : List Deed) × (w.closed ≡ true) × RestPath ((a : A) × (r : A.Record) × A.woken a r) w.awaiter rest × Did (row EndClosed w ∷ rest) as_ended h.old.hand.party ended.party)) }
{
    caller.drop_future();
    let answer = async_task_pending_closed(h);
    leave(h, answer, caller)
}

// Ends a run whose poll was pending.
fn end_pending<A: Wake, C: Caller<A>>(h: &mut Handle, caller: &mut C) -> Option<(bool, Record)>
    requires handle { IsFull h.old }
    requires party { (y : _) × StandsWith Polling (work_first y []) h.old.hand.party × IsFuture unknown y }
    ensures { IfSome result (λ ended. (path : List Deed) × PendingPath ((a : A) × (r : A.Record) × A.woken a r) C.scheduled ended.0 path × Done C.did path × Did path as_ended h.old.hand.party ended.1.party) }
{
    let (bits, address) = lend(h);
    let (answer, ended) = end(h, address, async_task_pending(bits));
    match ended {
        Some(ended) => {
            let woken = answer == SCHEDULE_WOKEN;
            caller.schedule(h, woken);
            Some((woken, record(ended)))
        }
        None => match answer {
            OVER => Some((false, over(h))),
            DROP_FUTURE => stays(end_cleared(h, caller)),
            _ => None,
        },
    }
}

/// Runs the task of the Runnable at `h`, and answers whether it was woken meanwhile, so that the Runnable went to the schedule function, with the record of the call.
pub fn run<A: Wake, C: Caller<A>>(h: &mut Handle, caller: &mut C) -> Option<(bool, Record)>
    requires handle { IsFull h.old }
    requires party { Stands as_runnable h.old.hand.party }
    ensures { IfSome result (λ ended. (path : List Deed) × RunPath C.polled ((a : A) × (r : A.Record) × A.woken a r) C.scheduled ended.0 path × Done C.did path × Did path as_ended h.old.hand.party ended.1.party) }
{
    match by_bits!(h, async_task_start) {
        DROP_FUTURE => stays(end_closed(h, caller)),
        POLL => match caller.poll(h) {
            Poll::Ready(output) => stays(end_ready(h, output, caller)),
            Poll::Pending => end_pending(h, caller),
        },
        _ => None,
    }
}
