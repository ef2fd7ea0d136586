//! The drop of a waker.
ghost use Rattle.std.specs.Prelude.{IfSome};
ghost use Rattle.task_cell.specs.Calls.{Stands};
ghost use Rattle.task_exports.specs.Answers.{DropsWaker};
ghost use Rattle.task_exports.specs.Hands.{IsLive, IsRecordOf, SameBits};
ghost use Rattle.task_exports.specs.Parties.{party_in};
ghost use Rattle.task_steps.specs.Standing.{as_waker};

use crate::answers::{LAST, OVER, SCHEDULE};
use crate::bits::{Bits, Ends, bring_if, close, open};
use crate::hand::Hand;
use crate::schedule::hand_on;
use task_steps::found::Dropped;

// What the waker's place has then, the answer, and the record of a party that has handed its share on.
fn drop_reference(hand: Hand) -> (Hand, u32, Option<Hand>)
    requires hand { IsLive hand }
    requires party { Stands as_waker hand.party }
    ensures bits { SameBits hand result.0 }
    ensures record { IfSome result.2 (λ k. IsRecordOf hand k) }
    ensures path { DropsWaker hand result.0 (party_in result.2) result.1 }
{
    let Hand { share, mut party } = hand;
    let share = share.share();
    let (found, share) = share.drop_reference(&mut party);
    match found {
        Dropped::Shared => (Hand { share, party }, OVER, None),
        Dropped::Last => (Hand { share, party }, LAST, None),
        Dropped::Orphaned => {
            let owned = share.last().close_orphan(&mut party);
            let (hand, ended) = hand_on(owned, party);
            (hand, SCHEDULE, Some(ended))
        }
    }
}

/// Drops a waker: 1, the call has ended; 9, it was the last handle; 10, nobody else has a handle of the open task, which is closed, and the handle is its Runnable, which is to be scheduled.
#[unsafe(no_mangle)]
pub extern "C" fn async_task_drop_waker(h: Bits) -> Ends
    requires handle { IsLive h.hand }
    requires party { Stands as_waker h.hand.party }
    ensures bits { SameBits h.hand result.left.hand }
    ensures record { IfSome result.brought.hand (λ k. IsRecordOf h.hand k) }
    ensures path { DropsWaker h.hand result.left.hand (party_in result.brought.hand) result.number }
{
    let (hand, number, ended) = drop_reference(open(h));
    let left = close(hand);
    let brought = bring_if(ended);
    Ends {
        number,
        left,
        brought,
    }
}
