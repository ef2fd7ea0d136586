//! The calls of a waker, and the scheduling of a Runnable by who has it.
ghost use Rattle.std.specs.Prelude.{◌≡◌, ◌∷◌, [], List, IfSome, true, false};
ghost use Rattle.task_cell.specs.Calls.{Did, Stands};
ghost use Rattle.task_cell.specs.WakerPaths.{WakerDropPath};
ghost use Rattle.task_core.specs.declared.acts.Act.TheVariants.{EndCall, HandOver};
ghost use Rattle.task_exports.specs.Answers.{IsFull};
ghost use Rattle.task_exports.specs.CallPaths.{Woke};
ghost use Rattle.task_exports.specs.Hands.{SameCell};
ghost use Rattle.task_steps.specs.Deeds.{act};
ghost use Rattle.task_steps.specs.Standing.{as_ended, as_runnable, as_waker};
ghost use Rattle.task_steps.specs.declared.table.Deed.{Deed};

use crate::answers::{DONE, SCHEDULE};
use crate::bits::Brings;
use crate::caller::Caller;
use crate::calls::crossing::fetch;
use crate::calls::detach::drop_waker;
use crate::calls::ends::record;
use crate::calls::lending::{gain_at, wake_at};
use crate::hand::Record;
use crate::handle::Handle;
use crate::schedule::async_task_schedule;
use task_core::Wake;

/// Wakes the task by the handle at `h`, which is lent for it. A Runnable that is to be scheduled lies at `out` meanwhile; where there is none, the record of the call lies there then.
pub fn wake_by_ref<A: Wake, C: Caller<A>>(
    h: &mut Handle,
    out: &mut Handle,
    caller: &mut C,
) -> Option<()>
    requires handle { IsFull h.old }
    requires room { out.old.there ≡ false }
    ensures lent { IfSome result (λ _. IsFull h.new × (h.new.hand.party ≡ h.old.hand.party)) }
    ensures path { IfSome result (λ _. Woke (C.scheduled false) h.old.hand out.new) }
{
    match wake_at(h, out) {
        SCHEDULE => {
            caller.schedule(out, false);
            Some(())
        }
        DONE => Some(()),
        _ => None,
    }
}

/// Wakes the task by the waker at `h`, and drops it: the record of the drop.
pub fn wake<A: Wake, C: Caller<A>>(
    h: &mut Handle,
    out: &mut Handle,
    caller: &mut C,
) -> Option<Record>
    requires handle { IsFull h.old }
    requires party { Stands as_waker h.old.hand.party }
    requires room { out.old.there ≡ false }
    ensures woken { IfSome result (λ _. Woke (C.scheduled false) h.old.hand out.new) }
    ensures path { IfSome result (λ ended. (path : List Deed) × WakerDropPath (C.scheduled false) path × Did path as_ended h.old.hand.party ended.party) }
{
    match wake_by_ref(h, out, caller) {
        Some(()) => drop_waker(h, caller),
        None => None,
    }
}

/// Clones a waker by the handle at `h`, which is lent for it: the new one lies at `out`.
pub fn clone_waker(h: &mut Handle, out: &mut Handle) -> Option<()>
    requires handle { IsFull h.old }
    requires room { out.old.there ≡ false }
    ensures lent { IfSome result (λ _. IsFull h.new × (h.new.hand.party ≡ h.old.hand.party)) }
    ensures waker { IfSome result (λ _. IsFull out.new × SameCell out.new.hand h.old.hand × Stands as_waker out.new.hand.party) }
{
    match gain_at(h, out) {
        DONE => Some(()),
        _ => None,
    }
}

/// Schedules the Runnable at `h` again: the record of the call.
pub fn schedule<A: Wake, C: Caller<A>>(h: &mut Handle, caller: &mut C) -> Record
    requires handle { IsFull h.old }
    requires party { Stands as_runnable h.old.hand.party }
    ensures fact { C.scheduled false }
    ensures path { Did (act HandOver ∷ act EndCall ∷ []) as_ended h.old.hand.party result.party }
{
    let Brings { number: _, brought } = async_task_schedule(h);
    let ended = fetch(h, brought);
    caller.schedule(h, false);
    record(ended)
}
