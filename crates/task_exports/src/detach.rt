//! The exports of a detach, and their steps.
ghost use Rattle.std.specs.Prelude.{◌≡◌, [], ℕ, IfSome, true};
ghost use Rattle.task_cell.specs.Calls.{Stands, StandsWith, deeds};
ghost use Rattle.task_exports.specs.Hands.{IsLive, IsRecordOf, SameBits};
ghost use Rattle.task_exports.specs.Parties.{party_in};
ghost use Rattle.task_exports.specs.TaskAnswers.{Detaches, EndsDetach};
ghost use Rattle.task_laws.specs.declared.positions.Position.TheVariants.{OutputCloser};
ghost use Rattle.task_steps.specs.Standing.{as_task};
ghost use Rattle.task_steps.specs.Steps.{saw_closed, work_first};
ghost use Rattle.task_steps.specs.declared.table.Slot.{Slot};

use crate::answers::{DROP_OUTPUT, LAST, MISSED, OVER, SCHEDULE};
use crate::bits::{Answer, Bits, Ends, bring_if, close, open};
use crate::hand::Hand;
use crate::schedule::hand_on;
use task_steps::found::Detached;

// Gives the Task up: what its place has then, the answer, and the record of a party that has handed its share on.
fn give_up(hand: Hand) -> (Hand, u32, Option<Hand>)
    requires hand { IsLive hand }
    requires party { (n : ℕ) × Stands (as_task n) hand.party }
    ensures bits { SameBits hand result.0 }
    ensures record { IfSome result.2 (λ k. IsRecordOf hand k) }
    ensures path { Detaches hand result.0 (party_in result.2) result.1 }
{
    let Hand { share, mut party } = hand;
    let share = share.share();
    let (found, share) = match share.give_task_up_some(&mut party) {
        Ok(made) => made,
        Err(share) => {
            let share = share.into_maybe();
            return (Hand { share, party }, MISSED, None);
        }
    };
    match found {
        Detached::Shared => (Hand { share, party }, OVER, None),
        Detached::Unclaimed => (Hand { share, party }, DROP_OUTPUT, None),
        Detached::Last => (Hand { share, party }, LAST, None),
        Detached::Orphaned => {
            let (hand, ended) = hand_on(share.share(), party);
            (hand, SCHEDULE, Some(ended))
        }
    }
}

// Gives the Task up whose output was dropped: what its place has then, and the answer.
fn give_rest_up(hand: Hand) -> (Hand, u32)
    requires hand { IsLive hand }
    requires party { (z : Slot _ _) × StandsWith OutputCloser (work_first z []) hand.party }
    requires closed { saw_closed (deeds hand.party) ≡ true }
    ensures bits { SameBits hand result.0 }
    ensures path { EndsDetach hand result.0 result.1 }
{
    let Hand { share, mut party } = hand;
    let share = share.share();
    let (last, share, unclaimed) = share.take_unclaimed(&mut party);
    unclaimed.discard();
    if last {
        (Hand { share, party }, LAST)
    } else {
        (Hand { share, party }, OVER)
    }
}

/// Gives the Task up: 1, the call has ended; 9, it was the last handle; 5, its output is to be dropped, which nobody claimed; 10, an open task has no other handle, and the handle is the Runnable that is to be scheduled.
#[unsafe(no_mangle)]
pub extern "C" fn async_task_detach(h: Bits) -> Ends
    requires handle { IsLive h.hand }
    requires party { (n : ℕ) × Stands (as_task n) h.hand.party }
    ensures bits { SameBits h.hand result.left.hand }
    ensures record { IfSome result.brought.hand (λ k. IsRecordOf h.hand k) }
    ensures path { Detaches h.hand result.left.hand (party_in result.brought.hand) result.number }
{
    let (hand, number, ended) = give_up(open(h));
    let left = close(hand);
    let brought = bring_if(ended);
    Ends {
        number,
        left,
        brought,
    }
}

/// Goes on with a detach, once the output was dropped: 1, the call has ended; 9, it was the last handle.
#[unsafe(no_mangle)]
pub extern "C" fn async_task_detach_dropped(h: Bits) -> Answer
    requires handle { IsLive h.hand }
    requires party { (z : Slot _ _) × StandsWith OutputCloser (work_first z []) h.hand.party }
    requires closed { saw_closed (deeds h.hand.party) ≡ true }
    ensures bits { SameBits h.hand result.left.hand }
    ensures path { EndsDetach h.hand result.left.hand result.number }
{
    let (hand, answer) = give_rest_up(open(h));
    let left = close(hand);
    Answer {
        number: answer,
        left,
    }
}
