//! A cancel.
ghost use Rattle.std.specs.Prelude.{◌≡◌, ◌++◌, ◌∷◌, [], ℕ, nat_eq, List, IfSome, false};
ghost use Rattle.task_cell.specs.Calls.{Did, Stands};
ghost use Rattle.task_cell.specs.TaskPaths.{CancelPath, Notice};
ghost use Rattle.task_core.specs.declared.acts.Act.TheVariants.{EndCall, WakeAwaiter};
ghost use Rattle.task_exports.specs.Answers.{IsFull};
ghost use Rattle.task_exports.specs.CallPaths.{WakesTaken};
ghost use Rattle.task_exports.specs.Parties.{Keeps};
ghost use Rattle.task_exports.specs.TaskAnswers.{AtPlace, InHand};
ghost use Rattle.task_laws.specs.Table.{notifies};
ghost use Rattle.task_laws.specs.declared.positions.NotifyingCall.TheVariants.{OfCancel};
ghost use Rattle.task_steps.specs.Deeds.{act};
ghost use Rattle.task_steps.specs.Standing.{as_task};
ghost use Rattle.task_steps.specs.declared.table.Deed.{Deed};

use crate::answers::{DONE, SCHEDULE, TAKE, WAKE_FIRST};
use crate::caller::Caller;
use crate::cancel::{
    async_task_cancel, async_task_cancel_scheduled, async_task_cancel_taken,
    async_task_cancel_woken,
};
use crate::handle::Handle;
use crate::task_answers::SCHEDULE_DUE;
use task_core::Wake;

// Wakes the awaiter that was taken, and ends the call.
fn wake_taken<A: Wake>(h: &mut Handle, taken: Option<A>) -> Option<()>
    requires handle { IsFull h.old }
    requires party { (n : ℕ) × InHand (OfCancel n) [] h.old.hand.party }
    ensures handle { IfSome result (λ _. Keeps h.old h.new) }
    ensures path { (n : ℕ) → InHand (OfCancel n) [] h.old.hand.party → IfSome result (λ _. ((a : A) × (r : A.Record) × A.woken a r) × Did (act WakeAwaiter ∷ act EndCall ∷ []) (as_task n) h.old.hand.party h.new.hand.party) }
{
    match taken {
        Some(awaiter) => {
            awaiter.wake();
            async_task_cancel_woken(h);
            Some(())
        }
        None => None,
    }
}

// Empties the awaiter's place, which is this call's, and ends the call.
fn end_taken<A: Wake, C: Caller<A>>(h: &mut Handle, caller: &mut C) -> Option<()>
    requires handle { IsFull h.old }
    requires party { (n : ℕ) × AtPlace (OfCancel n) [] h.old.hand.party }
    ensures handle { IfSome result (λ _. Keeps h.old h.new) }
    ensures path { (n : ℕ) → AtPlace (OfCancel n) [] h.old.hand.party → IfSome result (λ _. (k : List Deed) × WakesTaken ((a : A) × (r : A.Record) × A.woken a r) k × Did (k ++ act EndCall ∷ []) (as_task n) h.old.hand.party h.new.hand.party) }
{
    let taken = caller.take_awaiter();
    match async_task_cancel_taken(h) {
        DONE => Some(()),
        WAKE_FIRST => wake_taken(h, taken),
        _ => None,
    }
}

// Goes on once the Runnable was scheduled.
fn go_on<A: Wake, C: Caller<A>>(h: &mut Handle, due: u32, caller: &mut C) -> Option<()>
    requires handle { IsFull h.old }
    requires party { (n : ℕ) × Stands (notifies (nat_eq due 1) (OfCancel n)) h.old.hand.party }
    ensures handle { IfSome result (λ _. Keeps h.old h.new) }
    ensures path { (n : ℕ) → Stands (notifies (nat_eq due 1) (OfCancel n)) h.old.hand.party → IfSome result (λ _. (notice : List Deed) × Notice ((a : A) × (r : A.Record) × A.woken a r) (nat_eq due 1) notice × Did (notice ++ act EndCall ∷ []) (as_task n) h.old.hand.party h.new.hand.party) }
{
    match async_task_cancel_scheduled(h, due) {
        DONE => Some(()),
        TAKE => end_taken(h, caller),
        _ => None,
    }
}

/// Cancels the task by the Task at `h`; a Runnable that is to be scheduled lies at `out` meanwhile.
pub fn cancel<A: Wake, C: Caller<A>>(h: &mut Handle, out: &mut Handle, caller: &mut C) -> Option<()>
    requires handle { IsFull h.old }
    requires party { (n : ℕ) × Stands (as_task n) h.old.hand.party }
    requires room { out.old.there ≡ false }
    ensures handle { IfSome result (λ _. Keeps h.old h.new) }
    ensures room { IfSome result (λ _. out.new.there ≡ false) }
    ensures path { (n : ℕ) → Stands (as_task n) h.old.hand.party → IfSome result (λ _. (path : List Deed) × CancelPath (C.scheduled false) ((a : A) × (r : A.Record) × A.woken a r) path × Did path (as_task n) h.old.hand.party h.new.hand.party) }
{
    match async_task_cancel(h, out) {
        DONE => Some(()),
        TAKE => end_taken(h, caller),
        SCHEDULE => {
            caller.schedule(out, false);
            go_on(h, 0, caller)
        }
        SCHEDULE_DUE => {
            caller.schedule(out, false);
            go_on(h, 1, caller)
        }
        _ => None,
    }
}
