//! The steps of a run.
ghost use Rattle.std.specs.Prelude.{◌≡◌, [], ◌∷◌, IfSome, true, false};
ghost use Rattle.task_core.specs.Word.{State};
ghost use Rattle.task_core.specs.declared.acts.Act.TheVariants.{DropOutput, EndClosed, Unschedule};
ghost use Rattle.task_cell.specs.Calls.{Stands, StandsWith};
ghost use Rattle.task_exports.specs.Answers.{Completed, GoesOn, IsFull, Pends, Starts};
ghost use Rattle.task_exports.specs.Hands.{IsLive, IsRecordOf, SameBits};
ghost use Rattle.task_exports.specs.Parties.{party_in};
ghost use Rattle.task_laws.specs.declared.positions.NotifyingCall.TheVariants.{OfRun};
ghost use Rattle.task_laws.specs.declared.positions.Position.TheVariants.{FutureGone, OutputInHand, PendingFutureDropped, Polling};
ghost use Rattle.task_laws.specs.declared.positions.WithoutPoll.TheVariants.{ClosedRun};
ghost use Rattle.task_steps.specs.Deeds.{row, act};
ghost use Rattle.task_steps.specs.Rule.{IsFuture};
ghost use Rattle.task_steps.specs.Standing.{as_runnable};
ghost use Rattle.task_steps.specs.Steps.{work_first};
ghost use Rattle.task_exports.specs.Unknown.{unknown};

use crate::answers::{
    DROP_FUTURE, DROP_OUTPUT, DROP_OUTPUT_DUE, MISSED, OVER, POLL, SCHEDULE, SCHEDULE_WOKEN,
};
use crate::bits::{Answer, Bits, Ends, bring_if, close, open};
use crate::ends::go_on;
use crate::hand::{Elsewhere, Hand};
use crate::handle::{Handle, put, take};
use crate::schedule::hand_on;
use task_cell::Kept;
use task_steps::found::{PendingEnd, keeps_output};
use task_steps::places::Held;

fn start(hand: Hand) -> (Hand, u32)
    requires hand { IsLive hand }
    requires party { Stands as_runnable hand.party }
    ensures bits { SameBits hand result.0 }
    ensures path { Starts hand result.0 result.1 }
{
    let Hand { share, mut party } = hand;
    let share = share.share();
    let started = share.take_up_some(&mut party);
    let share = share.into_maybe();
    let hand = Hand { share, party };
    match started {
        Some(true) => (hand, POLL),
        Some(false) => (hand, DROP_FUTURE),
        None => (hand, MISSED),
    }
}

/// Starts a run by a Runnable: 3, the future is to be polled; 4, the task was closed, and its future is to be dropped; 0, each try has missed.
#[unsafe(no_mangle)]
pub extern "C" fn async_task_start(h: Bits) -> Answer
    requires handle { IsLive h.hand }
    requires party { Stands as_runnable h.hand.party }
    ensures bits { SameBits h.hand result.left.hand }
    ensures path { Starts h.hand result.left.hand result.number }
{
    let (hand, number) = start(open(h));
    let left = close(hand);
    Answer { number, left }
}

fn run_closed(hand: Hand) -> (Hand, u32)
    requires hand { IsLive hand }
    requires party { (y : _) × StandsWith (FutureGone ClosedRun) (work_first y []) hand.party }
    ensures { (w : State) × GoesOn OfRun w.awaiter (row Unschedule w ∷ []) hand result.0 result.1 }
{
    let Hand { share, mut party } = hand;
    let share = share.share();
    share.take(&mut party).discard();
    let found = share.unschedule(&mut party);
    let share = share.into_maybe();
    go_on(Hand { share, party }, found.awaiter())
}

/// Goes on with a run of a closed task, whose future the caller has dropped: 7, the awaiter is to be moved out of its place; 1, the call has ended; 9, it was the last handle.
#[unsafe(no_mangle)]
pub extern "C" fn async_task_run_closed(h: &mut Handle) -> u32
    requires handle { IsFull h.old }
    requires party { (y : _) × StandsWith (FutureGone ClosedRun) (work_first y []) h.old.hand.party }
    ensures there { h.new.there ≡ true }
    ensures path { (w : State) × GoesOn OfRun w.awaiter (row Unschedule w ∷ []) h.old.hand h.new.hand result }
{
    let (hand, answer) = run_closed(take(h));
    put(h, hand);
    answer
}

fn complete(hand: Hand) -> (Hand, u32)
    requires hand { IsLive hand }
    requires party { (y : _) × StandsWith Polling (work_first y []) hand.party }
    ensures bits { SameBits hand result.0 }
    ensures path { Completed hand result.0 result.1 }
{
    let Hand { share, mut party } = hand;
    let share = share.share();
    share.answer_ready(&mut party);
    share.take(&mut party).discard();
    let output = Held::new(Kept { output: Elsewhere });
    let completed = share.complete_some(&mut party, output);
    let share = share.into_maybe();
    let hand = Hand { share, party };
    match completed {
        Some(found) => {
            let due = found.awaiter();
            if keeps_output(found) {
                return go_on(hand, due);
            }
            if due {
                (hand, DROP_OUTPUT_DUE)
            } else {
                (hand, DROP_OUTPUT)
            }
        }
        None => (hand, MISSED),
    }
}

/// Ends a run whose poll was ready, once the caller has dropped the future and stored the output: 5 and 6, nobody will claim the output, and it is to be dropped (in 6 an awaiter is due); 7, the awaiter is to be moved out of its place; 1, the call has ended; 9, it was the last handle; 0, each try has missed.
#[unsafe(no_mangle)]
pub extern "C" fn async_task_complete(h: Bits) -> Answer
    requires handle { IsLive h.hand }
    requires party { (y : _) × StandsWith Polling (work_first y []) h.hand.party }
    ensures bits { SameBits h.hand result.left.hand }
    ensures path { Completed h.hand result.left.hand result.number }
{
    let (hand, number) = complete(open(h));
    let left = close(hand);
    Answer { number, left }
}

fn drop_output(hand: Hand, due: bool) -> (Hand, u32)
    requires hand { IsLive hand }
    requires party { (z : _) × StandsWith (OutputInHand due) (work_first z []) hand.party }
    ensures { GoesOn OfRun due (act DropOutput ∷ []) hand result.0 result.1 }
{
    let Hand { share, mut party } = hand;
    let share = share.share();
    share.drop_output(&mut party);
    let share = share.into_maybe();
    go_on(Hand { share, party }, due)
}

/// Goes on with a run whose output the caller has dropped: 7, the awaiter is to be moved out of its place; 1, the call has ended; 9, it was the last handle. `due` says whether an awaiter is due, as the answer before did.
#[unsafe(no_mangle)]
pub extern "C" fn async_task_output_dropped(h: &mut Handle, due: bool) -> u32
    requires handle { IsFull h.old }
    requires party { (z : _) × StandsWith (OutputInHand due) (work_first z []) h.old.hand.party }
    ensures there { h.new.there ≡ true }
    ensures path { GoesOn OfRun due (act DropOutput ∷ []) h.old.hand h.new.hand result }
{
    let (hand, answer) = drop_output(take(h), due);
    put(h, hand);
    answer
}

// What the handle's place has then, the answer, and the record of a party that has handed its share on.
fn pend(hand: Hand) -> (Hand, u32, Option<Hand>)
    requires hand { IsLive hand }
    requires party { (y : _) × StandsWith Polling (work_first y []) hand.party × IsFuture unknown y }
    ensures bits { SameBits hand result.0 }
    ensures record { IfSome result.2 (λ k. IsRecordOf hand k) }
    ensures path { Pends hand result.0 (party_in result.2) result.1 }
{
    let Hand { share, mut party } = hand;
    let share = share.share();
    let found = share.answer_pending(&mut party);
    if found.closed() {
        let share = share.into_maybe();
        return (Hand { share, party }, DROP_FUTURE, None);
    }
    match share.end_pending_some(&mut party, found) {
        Ok(Ok(ended)) => match ended.0 {
            PendingEnd::Rescheduled => {
                let (hand, ended) = hand_on(ended.1.share(), party);
                (hand, SCHEDULE_WOKEN, Some(ended))
            }
            PendingEnd::Idle => {
                let share = ended.1;
                (Hand { share, party }, OVER, None)
            }
            PendingEnd::Orphaned => {
                let (hand, ended) = hand_on(ended.1.share(), party);
                (hand, SCHEDULE, Some(ended))
            }
        },
        Ok(Err(kept)) => {
            let share = kept.into_maybe();
            (Hand { share, party }, DROP_FUTURE, None)
        }
        Err(kept) => {
            let share = kept.into_maybe();
            (Hand { share, party }, MISSED, None)
        }
    }
}

/// Ends a run whose poll was pending: 4, the task was closed meanwhile, and its future is to be dropped; 11, it was woken meanwhile, and the handle is its Runnable, which is to be scheduled; 10, nobody else has a handle, and the handle is its Runnable, which is to be scheduled; 1, the call has ended; 0, each try has missed.
#[unsafe(no_mangle)]
pub extern "C" fn async_task_pending(h: Bits) -> Ends
    requires handle { IsLive h.hand }
    requires party { (y : _) × StandsWith Polling (work_first y []) h.hand.party × IsFuture unknown y }
    ensures bits { SameBits h.hand result.left.hand }
    ensures record { IfSome result.brought.hand (λ k. IsRecordOf h.hand k) }
    ensures path { Pends h.hand result.left.hand (party_in result.brought.hand) result.number }
{
    let (hand, number, ended) = pend(open(h));
    let left = close(hand);
    let brought = bring_if(ended);
    Ends {
        number,
        left,
        brought,
    }
}

fn end_closed(hand: Hand) -> (Hand, u32)
    requires hand { IsLive hand }
    requires party { (y : _) × StandsWith PendingFutureDropped (work_first y []) hand.party }
    ensures { (w : State) × (w.closed ≡ true) × GoesOn OfRun w.awaiter (row EndClosed w ∷ []) hand result.0 result.1 }
{
    let Hand { share, mut party } = hand;
    let share = share.share();
    let found = share.end_closed(&mut party);
    let share = share.into_maybe();
    go_on(Hand { share, party }, found.awaiter())
}

/// Goes on with a run of a task that was closed meanwhile, whose future the caller has dropped: 7, the awaiter is to be moved out of its place; 1, the call has ended; 9, it was the last handle.
#[unsafe(no_mangle)]
pub extern "C" fn async_task_pending_closed(h: &mut Handle) -> u32
    requires handle { IsFull h.old }
    requires party { (y : _) × StandsWith PendingFutureDropped (work_first y []) h.old.hand.party }
    ensures there { h.new.there ≡ true }
    ensures path { (w : State) × (w.closed ≡ true) × GoesOn OfRun w.awaiter (row EndClosed w ∷ []) h.old.hand h.new.hand result }
{
    let (hand, answer) = end_closed(take(h));
    put(h, hand);
    answer
}
