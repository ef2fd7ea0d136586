//! Runnables that go to the schedule function.
ghost use Rattle.std.specs.Prelude.{◌≡◌, ◌∷◌, [], true};
ghost use Rattle.task_cell.specs.Belongs.{IsOf, limit_in};
ghost use Rattle.task_cell.specs.Calls.{Did, Stands, limit_of};
ghost use Rattle.task_core.specs.declared.acts.Act.TheVariants.{EndCall, HandOver};
ghost use Rattle.task_exports.specs.Answers.{IsFull};
ghost use Rattle.task_exports.specs.Hands.{IsGone, IsLive, IsRecordOf};
ghost use Rattle.task_laws.specs.declared.positions.Answer.{Answer};
ghost use Rattle.task_laws.specs.declared.positions.OnceDelivered.TheVariants.{ThenEnds};
ghost use Rattle.task_laws.specs.declared.positions.Position.{Position};
ghost use Rattle.task_laws.specs.declared.positions.Position.TheVariants.{CallEnding};
ghost use Rattle.task_laws.specs.declared.positions.Rest.TheVariants.{Ended};
ghost use Rattle.task_steps.specs.Deeds.{act};
ghost use Rattle.task_steps.specs.Standing.{as_ended, as_runnable, hands_over, handed_over};

use crate::answers::SCHEDULE;
use crate::bits::{Brings, close};
use crate::hand::{CellParty, CellShare, Hand};
use crate::handle::{Handle, put, take};

// Ends the call of a party that hands its own share on: the Runnable, and the record of the call.
pub(crate) fn hand_on(share: CellShare, mut party: CellParty) -> (Hand, Hand)
    requires cell { IsOf share party × (limit_of party ≡ limit_in share) }
    requires party { (at : Position) × (answer : Answer) × (hands_over at ≡ true) × (handed_over at ≡ CallEnding answer Ended) × Stands at party }
    ensures runnable { IsLive result.0 × ((result.0.share.maybe.id ≡ share.block.id) × (result.0.share.maybe.value ≡ share.block.value)) × Stands as_runnable result.0.party }
    ensures record { IsGone result.1 × (result.1.share.maybe.id ≡ share.block.id) }
    ensures ended { Did (act HandOver ∷ act EndCall ∷ []) as_ended party result.1.party }
{
    let runnable = share.hand_over(&mut party);
    share.ledger().end(&mut party);
    let ended = Hand {
        share: share.gone(),
        party,
    };
    let runnable = Hand {
        share: share.into_maybe(),
        party: runnable,
    };
    (runnable, ended)
}

/// Schedules a Runnable again: 10, the handle is the Runnable that is to be scheduled, and what is brought is the record of the call, which the caller forgets. It makes no step on the word.
#[unsafe(no_mangle)]
pub extern "C" fn async_task_schedule(h: &mut Handle) -> Brings
    requires handle { IsFull h.old }
    requires party { Stands as_runnable h.old.hand.party }
    ensures answer { result.number ≡ 10 }
    ensures runnable { IsFull h.new × Stands as_runnable h.new.hand.party }
    ensures record { IsRecordOf h.new.hand result.brought.hand × Did (act HandOver ∷ act EndCall ∷ []) as_ended h.old.hand.party result.brought.hand.party }
{
    let Hand { share, party } = take(h);
    let (hand, ended) = hand_on(share.share(), party);
    put(h, hand);
    let brought = close(ended);
    Brings {
        number: SCHEDULE,
        brought,
    }
}
