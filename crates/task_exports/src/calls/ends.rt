//! How a call ends.
ghost use Rattle.std.specs.Prelude.{◌≡◌, [], ℕ, Option, IfSome, is_some, true};
ghost use Rattle.task_cell.specs.Calls.{Did, Stands, StandsWith};
ghost use Rattle.task_exports.specs.Answers.{HasLast, empties};
ghost use Rattle.task_exports.specs.Hands.{IsGone};
ghost use Rattle.task_laws.specs.declared.positions.Answer.{Answer};
ghost use Rattle.task_laws.specs.declared.positions.Position.TheVariants.{Emptier};
ghost use Rattle.task_steps.specs.Standing.{as_ended};
ghost use Rattle.task_steps.specs.Steps.{awaiter_first};

use crate::answers::{DONE, ENDED};
use crate::caller::Caller;
use crate::ends::async_task_empty;
use crate::hand::{Hand, Record};
use crate::handle::{Handle, take};
use task_core::Wake;

// The record of a call that has ended, which the caller forgets.
pub(crate) fn record(hand: Hand) -> Record
    requires gone { IsGone hand }
    requires party { Stands as_ended hand.party }
    ensures { result.party ≡ hand.party }
{
    let Hand { share, party } = hand;
    share.none();
    Record { party }
}

// The record of a call whose handle is gone.
pub(crate) fn over(h: &mut Handle) -> Record
    requires there { h.old.there ≡ true }
    requires gone { IsGone h.old.hand }
    requires party { Stands as_ended h.old.hand.party }
    ensures { result.party ≡ h.old.hand.party }
{
    record(take(h))
}

// Drops an awaiter that is left, empties the places by the last handle, and frees the memory of a cell that has ended.
pub(crate) fn empty<A: Wake, C: Caller<A>>(
    h: &mut Handle,
    took: bool,
    caller: &mut C,
) -> Option<Record>
    requires handle { HasLast h.old }
    requires party { (awaiter : Option ℕ) × (answer : Answer) × (y : _) × StandsWith (Emptier awaiter answer) (awaiter_first y []) h.old.hand.party × (is_some awaiter ≡ took) }
    ensures { IfSome result (λ ended. Did (empties took) as_ended h.old.hand.party ended.party) }
{
    drop(caller.take_awaiter());
    match async_task_empty(h, took) {
        DONE => Some(over(h)),
        ENDED => {
            caller.free();
            Some(over(h))
        }
        _ => None,
    }
}

// Wakes the awaiter that was taken by a call that has ended.
pub(crate) fn wake_last<A: Wake>(ended: Record, taken: Option<A>) -> Option<Record>
    ensures party { IfSome result (λ call. call.party ≡ ended.party) }
    ensures woken { IfSome result (λ _. (a : A) × (r : A.Record) × A.woken a r) }
{
    match taken {
        Some(awaiter) => {
            awaiter.wake();
            Some(ended)
        }
        None => None,
    }
}
