//! The steps of a Runnable's drop.
ghost use Rattle.std.specs.Prelude.{◌≡◌, ℕ, [], ◌∷◌, Option, None, true};
ghost use Rattle.task_core.specs.Word.{State};
ghost use Rattle.task_core.specs.declared.acts.Act.TheVariants.{DropFuture, Unschedule, WakeAwaiter};
ghost use Rattle.task_cell.specs.Calls.{DidWith, Stands, StandsWith};
ghost use Rattle.task_cell.specs.RunPaths.{DiscardStart};
ghost use Rattle.task_exports.specs.Answers.{Discarded, GivesBack, GoesOn, IsFull};
ghost use Rattle.task_exports.specs.Hands.{IsLive};
ghost use Rattle.task_laws.specs.declared.positions.NotifyingCall.TheVariants.{OfDrop};
ghost use Rattle.task_laws.specs.declared.positions.Position.TheVariants.{AwaiterInHand, FutureGone, Releaser};
ghost use Rattle.task_laws.specs.declared.positions.WithoutPoll.TheVariants.{DroppedRunnable};
ghost use Rattle.task_steps.specs.Deeds.{row, act};
ghost use Rattle.task_steps.specs.Rule.{Waits};
ghost use Rattle.task_steps.specs.Standing.{as_runnable};
ghost use Rattle.task_steps.specs.Steps.{work_first, awaiter_first};
ghost use Rattle.task_steps.specs.declared.table.Deed.{Deed};

use crate::answers::{DROP_FUTURE, WAKE_FIRST};
use crate::ends::{give_back, go_on};
use crate::hand::Hand;
use crate::handle::{Handle, put, take};

fn discard(hand: Hand) -> Hand
    requires hand { IsLive hand }
    requires party { Stands as_runnable hand.party }
    ensures hand { IsLive result }
    ensures path { (d : Deed) × (y : _) × DiscardStart d × DidWith (d ∷ act DropFuture ∷ []) (FutureGone DroppedRunnable) (work_first y []) hand.party result.party }
{
    let Hand { share, mut party } = hand;
    let share = share.share();
    share.discard_start(&mut party);
    let share = share.into_maybe();
    Hand { share, party }
}

/// Begins the drop of a Runnable, which closes the task: 4, its future is to be dropped.
#[unsafe(no_mangle)]
pub extern "C" fn async_task_discard(h: &mut Handle) -> u32
    requires handle { IsFull h.old }
    requires party { Stands as_runnable h.old.hand.party }
    ensures answer { result ≡ 4 }
    ensures handle { IsFull h.new }
    ensures path { (d : Deed) × (y : _) × DiscardStart d × DidWith (d ∷ act DropFuture ∷ []) (FutureGone DroppedRunnable) (work_first y []) h.old.hand.party h.new.hand.party }
{
    let hand = discard(take(h));
    put(h, hand);
    DROP_FUTURE
}

fn discarded(hand: Hand) -> (Hand, u32)
    requires hand { IsLive hand }
    requires party { (y : _) × StandsWith (FutureGone DroppedRunnable) (work_first y []) hand.party }
    ensures { (w : State) × GoesOn OfDrop w.awaiter (row Unschedule w ∷ []) hand result.0 result.1 }
{
    let Hand { share, mut party } = hand;
    let share = share.share();
    share.take(&mut party).discard();
    let found = share.unschedule(&mut party);
    let share = share.into_maybe();
    go_on(Hand { share, party }, found.awaiter())
}

/// Goes on with the drop of a Runnable, whose future the caller has dropped: 7, the awaiter is to be moved out of its place; 1, the call has ended; 9, it was the last handle.
#[unsafe(no_mangle)]
pub extern "C" fn async_task_discarded(h: &mut Handle) -> u32
    requires handle { IsFull h.old }
    requires party { (y : _) × StandsWith (FutureGone DroppedRunnable) (work_first y []) h.old.hand.party }
    ensures there { h.new.there ≡ true }
    ensures path { (w : State) × GoesOn OfDrop w.awaiter (row Unschedule w ∷ []) h.old.hand h.new.hand result }
{
    let (hand, answer) = discarded(take(h));
    put(h, hand);
    answer
}

fn discard_taken(hand: Hand) -> (Hand, u32)
    requires hand { IsLive hand }
    requires party { (awaiter : Option ℕ) × (y : _) × StandsWith (Releaser awaiter OfDrop) (awaiter_first y []) hand.party × Waits awaiter y }
    ensures { (awaiter : Option ℕ) × Discarded hand result.0 awaiter result.1 }
{
    let Hand { share, mut party } = hand;
    let share = share.share();
    let awaiter = share.end_notify(&mut party);
    let share = share.into_maybe();
    let hand = Hand { share, party };
    match awaiter {
        Some(awaiter) => {
            awaiter.discard();
            (hand, WAKE_FIRST)
        }
        None => give_back(hand),
    }
}

/// Goes on with the drop of a Runnable, whose caller has moved the awaiter out of its place: 14, the awaiter is to be woken; 1, there was none, and the call has ended; 9, there was none, and it was the last handle.
#[unsafe(no_mangle)]
pub extern "C" fn async_task_discard_taken(h: &mut Handle) -> u32
    requires handle { IsFull h.old }
    requires party { (awaiter : Option ℕ) × (y : _) × StandsWith (Releaser awaiter OfDrop) (awaiter_first y []) h.old.hand.party × Waits awaiter y }
    ensures there { h.new.there ≡ true }
    ensures path { (awaiter : Option ℕ) × Discarded h.old.hand h.new.hand awaiter result }
{
    let (hand, answer) = discard_taken(take(h));
    put(h, hand);
    answer
}

fn discard_woken(hand: Hand) -> (Hand, u32)
    requires hand { IsLive hand }
    requires party { (i : ℕ) × Stands (AwaiterInHand i OfDrop) hand.party }
    ensures { GivesBack (act WakeAwaiter ∷ []) hand result.0 result.1 }
{
    let Hand { share, mut party } = hand;
    let share = share.share();
    share.ledger().note_woken(&mut party);
    let share = share.into_maybe();
    give_back(Hand { share, party })
}

/// Ends the drop of a Runnable, whose caller has woken the awaiter: 1, the call has ended; 9, it was the last handle.
#[unsafe(no_mangle)]
pub extern "C" fn async_task_discard_woken(h: &mut Handle) -> u32
    requires handle { IsFull h.old }
    requires party { (i : ℕ) × Stands (AwaiterInHand i OfDrop) h.old.hand.party }
    ensures there { h.new.there ≡ true }
    ensures path { GivesBack (act WakeAwaiter ∷ []) h.old.hand h.new.hand result }
{
    let (hand, answer) = discard_woken(take(h));
    put(h, hand);
    answer
}
