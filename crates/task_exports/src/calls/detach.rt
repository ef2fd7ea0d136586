//! The drop of a waker, and a detach.
ghost use Rattle.std.specs.Prelude.{◌≡◌, [], ℕ, List, IfSome, true, false};
ghost use Rattle.task_cell.specs.Calls.{Did, Stands, StandsWith, deeds};
ghost use Rattle.task_cell.specs.TaskPaths.{DetachPath, UnclaimedPath};
ghost use Rattle.task_cell.specs.WakerPaths.{WakerDropPath};
ghost use Rattle.task_core.specs.declared.acts.Act.TheVariants.{DropOutput};
ghost use Rattle.task_exports.specs.Answers.{IsFull};
ghost use Rattle.task_exports.specs.CallPaths.{Done};
ghost use Rattle.task_laws.specs.declared.positions.Position.TheVariants.{OutputCloser};
ghost use Rattle.task_steps.specs.Standing.{as_ended, as_task, as_waker};
ghost use Rattle.task_steps.specs.Steps.{saw_closed, work_first};
ghost use Rattle.task_steps.specs.declared.table.Deed.{Deed};
ghost use Rattle.task_steps.specs.declared.table.Slot.{Slot};

use crate::answers::{DROP_OUTPUT, LAST, OVER};
use crate::caller::Caller;
use crate::calls::crossing::{end, lend};
use crate::calls::ends::{empty, over, record};
use crate::detach::{async_task_detach, async_task_detach_dropped};
use crate::hand::Record;
use crate::handle::Handle;
use crate::waker::async_task_drop_waker;
use task_core::Wake;

/// Drops the waker at `h`: the record of the call.
pub fn drop_waker<A: Wake, C: Caller<A>>(h: &mut Handle, caller: &mut C) -> Option<Record>
    requires handle { IsFull h.old }
    requires party { Stands as_waker h.old.hand.party }
    ensures path { IfSome result (λ ended. (path : List Deed) × WakerDropPath (C.scheduled false) path × Did path as_ended h.old.hand.party ended.party) }
{
    let (bits, address) = lend(h);
    let (answer, ended) = end(h, address, async_task_drop_waker(bits));
    match ended {
        Some(ended) => {
            caller.schedule(h, false);
            Some(record(ended))
        }
        None => match answer {
            OVER => Some(over(h)),
            LAST => empty(h, false, caller),
            _ => None,
        },
    }
}

// Gives the Task up whose output was taken out.
fn end_unclaimed<A: Wake, C: Caller<A>>(h: &mut Handle, caller: &mut C) -> Option<Record>
    requires handle { IsFull h.old }
    requires party { (z : Slot _ _) × StandsWith OutputCloser (work_first z []) h.old.hand.party }
    requires closed { saw_closed (deeds h.old.hand.party) ≡ true }
    ensures { IfSome result (λ ended. (path : List Deed) × UnclaimedPath path × Did path as_ended h.old.hand.party ended.party) }
{
    match by_bits!(h, async_task_detach_dropped) {
        OVER => Some(over(h)),
        LAST => empty(h, false, caller),
        _ => None,
    }
}

// Takes the output out that nobody has claimed, and drops it last, where its drop may panic.
fn drop_unclaimed<A: Wake, C: Caller<A>>(h: &mut Handle, caller: &mut C) -> Option<Record>
    requires handle { IsFull h.old }
    requires party { (z : Slot _ _) × StandsWith OutputCloser (work_first z []) h.old.hand.party }
    requires closed { saw_closed (deeds h.old.hand.party) ≡ true }
    ensures { IfSome result (λ ended. C.did DropOutput × ((path : List Deed) × UnclaimedPath path × Did path as_ended h.old.hand.party ended.party)) }
{
    let output = caller.take_output();
    let ended = end_unclaimed(h, caller);
    drop(output);
    ended
}

/// Gives the Task at `h` up: the record of the call.
pub fn detach<A: Wake, C: Caller<A>>(h: &mut Handle, caller: &mut C) -> Option<Record>
    requires handle { IsFull h.old }
    requires party { (n : ℕ) × Stands (as_task n) h.old.hand.party }
    ensures { IfSome result (λ ended. (path : List Deed) × DetachPath (C.scheduled false) path × Done C.did path × Did path as_ended h.old.hand.party ended.party) }
{
    let (bits, address) = lend(h);
    let (answer, ended) = end(h, address, async_task_detach(bits));
    match ended {
        Some(ended) => {
            caller.schedule(h, false);
            Some(record(ended))
        }
        None => match answer {
            OVER => Some(over(h)),
            LAST => empty(h, false, caller),
            DROP_OUTPUT => drop_unclaimed(h, caller),
            _ => None,
        },
    }
}
