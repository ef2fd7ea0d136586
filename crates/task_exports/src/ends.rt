//! How calls end that give a reference up: the awaiter is taken where one is due, and the last handle empties the places.
ghost use Rattle.std.specs.Prelude.{◌≡◌, ℕ, [], ◌∷◌, Option, None, is_some, true, false, if◌then◌else◌};
ghost use Rattle.task_cell.specs.Calls.{Did, Stands, StandsWith};
ghost use Rattle.task_exports.specs.Answers.{BeginsDue, Finishes, GivesBack, GivesUpNext, GoesOn, HasLast, TellsEnd, empties};
ghost use Rattle.task_exports.specs.Hands.{IsGone, IsLast, IsLive, SameBits};
ghost use Rattle.task_laws.specs.Table.{notifies};
ghost use Rattle.task_laws.specs.declared.positions.Answer.{Answer};
ghost use Rattle.task_laws.specs.declared.positions.Answer.TheVariants.{Ran};
ghost use Rattle.task_laws.specs.declared.positions.NotifyingCall.{NotifyingCall};
ghost use Rattle.task_laws.specs.declared.positions.NotifyingCall.TheVariants.{OfRun};
ghost use Rattle.task_laws.specs.declared.positions.Position.TheVariants.{Emptier, GivingUp, Releaser};
ghost use Rattle.task_steps.specs.Rule.{Waits};
ghost use Rattle.task_steps.specs.Standing.{as_ended};
ghost use Rattle.task_steps.specs.Steps.{awaiter_first};

use crate::answers::{DONE, ENDED, LAST, LAST_WAKE, OVER, TAKE, WAKE};
use crate::bits::{self, Bits, close, open};
use crate::hand::Hand;
use crate::handle::{Handle, put, take};

// Gives the reference up: 1, the call has ended; 9, it was the last handle.
pub(crate) fn give_back(hand: Hand) -> (Hand, u32)
    requires hand { IsLive hand }
    requires party { (answer : Answer) × Stands (GivingUp None answer) hand.party }
    ensures bits { SameBits hand result.0 }
    ensures path { GivesBack [] hand result.0 result.1 }
{
    let Hand { share, mut party } = hand;
    let share = share.share();
    let ledger = share.ledger();
    let (last, share) = share.give_up(&mut party);
    if last {
        return (Hand { share, party }, LAST);
    }
    ledger.end(&mut party);
    (Hand { share, party }, OVER)
}

// Begins to take the awaiter where one is due, and answers whether its place is the party's now.
fn begin_due(hand: Hand, due: bool) -> (Hand, bool)
    requires hand { IsLive hand }
    requires party { (way : NotifyingCall) × Stands (notifies due way) hand.party }
    ensures hand { IsLive result.0 × SameBits hand result.0 }
    ensures path { (way : NotifyingCall) → Stands (notifies due way) hand.party → BeginsDue way due hand result.0 result.1 }
{
    if due {
        let Hand { share, mut party } = hand;
        let share = share.share();
        let taken = share.begin_notify(&mut party);
        let share = share.into_maybe();
        return (Hand { share, party }, taken);
    }
    (hand, false)
}

// Takes the awaiter where one is due, or else gives the reference up: 7, its place is the party's; 1, the call has ended; 9, it was the last handle.
pub(crate) fn go_on(hand: Hand, due: bool) -> (Hand, u32)
    requires hand { IsLive hand }
    requires party { (way : NotifyingCall) × GivesUpNext way × Stands (notifies due way) hand.party }
    ensures bits { SameBits hand result.0 }
    ensures path { (way : NotifyingCall) → GivesUpNext way → Stands (notifies due way) hand.party → GoesOn way due [] hand result.0 result.1 }
{
    let (hand, taken) = begin_due(hand, due);
    if taken { (hand, TAKE) } else { give_back(hand) }
}

// Takes the awaiter out of its place, which the caller has done, and gives the reference up.
fn finish(hand: Hand) -> (Hand, u32)
    requires hand { IsLive hand }
    requires party { (awaiter : Option ℕ) × (y : _) × StandsWith (Releaser awaiter OfRun) (awaiter_first y []) hand.party × Waits awaiter y }
    ensures bits { SameBits hand result.0 }
    ensures path { (awaiter : Option ℕ) × Finishes hand result.0 awaiter result.1 }
{
    let Hand { share, mut party } = hand;
    let share = share.share();
    let ledger = share.ledger();
    let awaiter = share.end_notify(&mut party);
    let (last, share) = share.give_up(&mut party);
    match awaiter {
        Some(awaiter) => {
            awaiter.discard();
            if last {
                return (Hand { share, party }, LAST_WAKE);
            }
            ledger.note_woken(&mut party);
            ledger.end(&mut party);
            (Hand { share, party }, WAKE)
        }
        None => {
            if last {
                return (Hand { share, party }, LAST);
            }
            ledger.end(&mut party);
            (Hand { share, party }, OVER)
        }
    }
}

/// Goes on with a run whose awaiter the caller has moved out of its place: 1 or 8, the call has ended; 9 or 15, it was the last handle; in 8 and 15 the awaiter is to be woken.
#[unsafe(no_mangle)]
pub extern "C" fn async_task_finish(h: Bits) -> bits::Answer
    requires handle { IsLive h.hand }
    requires party { (awaiter : Option ℕ) × (y : _) × StandsWith (Releaser awaiter OfRun) (awaiter_first y []) h.hand.party × Waits awaiter y }
    ensures bits { SameBits h.hand result.left.hand }
    ensures path { (awaiter : Option ℕ) × Finishes h.hand result.left.hand awaiter result.number }
{
    let (hand, number) = finish(open(h));
    let left = close(hand);
    bits::Answer { number, left }
}

// Whether the cell has ended, as a number.
pub(crate) fn told(ended: bool) -> u32
    ensures { result ≡ (if ended then 2 else 12) }
{
    if ended { ENDED } else { DONE }
}

// Empties the places by the last handle, and ends the call.
fn empty(hand: Hand, took: bool) -> (Hand, u32)
    requires hand { IsLast hand }
    requires party { (awaiter : Option ℕ) × (answer : Answer) × (y : _) × StandsWith (Emptier awaiter answer) (awaiter_first y []) hand.party × (is_some awaiter ≡ took) }
    ensures answer { TellsEnd result.1 }
    ensures path { IsGone result.0 × Did (empties took) as_ended hand.party result.0.party }
{
    let Hand { share, mut party } = hand;
    let last = share.last();
    let gone = last.gone();
    let (ledger, ended) = last.empty(&mut party);
    let answer = told(ended);
    if took {
        ledger.note_woken(&mut party);
        ledger.end(&mut party);
        return (Hand { share: gone, party }, answer);
    }
    ledger.end(&mut party);
    (Hand { share: gone, party }, answer)
}

/// Empties the places of a cell, by its last handle, and ends the call: 2, the cell has ended; 12, a hold keeps it. `took` says whether the call has an awaiter in hand, which is woken after this.
#[unsafe(no_mangle)]
pub extern "C" fn async_task_empty(h: &mut Handle, took: bool) -> u32
    requires handle { HasLast h.old }
    requires party { (awaiter : Option ℕ) × (answer : Answer) × (y : _) × StandsWith (Emptier awaiter answer) (awaiter_first y []) h.old.hand.party × (is_some awaiter ≡ took) }
    ensures answer { TellsEnd result }
    ensures there { h.new.there ≡ true }
    ensures path { IsGone h.new.hand × Did (empties took) as_ended h.old.hand.party h.new.hand.party }
{
    let (hand, answer) = empty(take(h), took);
    put(h, hand);
    answer
}
