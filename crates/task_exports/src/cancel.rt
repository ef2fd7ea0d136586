//! The exports of a cancel, and their steps.
ghost use Rattle.std.specs.Prelude.{◌≡◌, ◌∷◌, [], ℕ, nat_eq, true, false};
ghost use Rattle.task_cell.specs.Belongs.{IsOf, cell_of, limit_in};
ghost use Rattle.task_cell.specs.Calls.{Did, Stands, limit_of};
ghost use Rattle.task_core.specs.declared.acts.Act.TheVariants.{EndCall, WakeAwaiter};
ghost use Rattle.task_exports.specs.Answers.{IsFull};
ghost use Rattle.task_exports.specs.Parties.{Keeps, cell_in};
ghost use Rattle.task_exports.specs.TaskAnswers.{AtPlace, CancelGoesOn, Cancels, HasRunnable, InHand, Releases, schedules};
ghost use Rattle.task_laws.specs.Table.{notifies};
ghost use Rattle.task_laws.specs.declared.positions.NotifyingCall.TheVariants.{OfCancel};
ghost use Rattle.task_laws.specs.declared.positions.Position.TheVariants.{Notifier};
ghost use Rattle.task_steps.specs.Deeds.{act};
ghost use Rattle.task_steps.specs.Standing.{as_task};

use crate::answers::{DONE, MISSED, SCHEDULE, TAKE, WAKE_FIRST};
use crate::hand::{CellParty, CellShare, Hand};
use crate::handle::{Handle, put, take};
use crate::step::{Step, make_at};
use crate::task_answers::SCHEDULE_DUE;
use task_steps::found::Cancelled;

// Takes the place of the awaiter, or ends the call where somebody else is at it.
fn notify_closed(share: &CellShare, party: &mut CellParty) -> u32
    requires cell { IsOf share.now party.old }
    requires party { (n : ℕ) × Stands (Notifier (OfCancel n)) party.old }
    ensures { (n : ℕ) → Stands (Notifier (OfCancel n)) party.old → CancelGoesOn true n party.old party.new result }
{
    if share.begin_notify(party) {
        return TAKE;
    }
    share.end_call(party);
    DONE
}

// Takes the awaiter where one is due, or ends the call.
fn leave_closed(share: &CellShare, party: &mut CellParty, due: bool) -> u32
    requires cell { IsOf share.now party.old }
    requires party { (n : ℕ) × Stands (notifies due (OfCancel n)) party.old }
    ensures { (n : ℕ) → Stands (notifies due (OfCancel n)) party.old → CancelGoesOn due n party.old party.new result }
{
    if due {
        notify_closed(share, party)
    } else {
        share.end_call(party);
        DONE
    }
}

// Closes the task, and hands its Runnable over where it is idle, at `out`.
fn close(share: &CellShare, party: &mut CellParty, out: &mut Handle) -> u32
    requires cell { IsOf share.now party.old × (limit_of party.old ≡ limit_in share.now) }
    requires party { (n : ℕ) × Stands (as_task n) party.old }
    requires room { out.old.there ≡ false }
    ensures path { (n : ℕ) → Stands (as_task n) party.old → Cancels n party.old party.new result }
    ensures runnable { HasRunnable (schedules result) (cell_of share.now) out.new }
{
    let closed = match share.close_task_some(party) {
        None => return MISSED,
        Some(None) => return DONE,
        Some(Some(closed)) => closed,
    };
    match closed.0 {
        Cancelled::Busy(due) => {
            closed.1.none();
            leave_closed(share, party, due)
        }
        Cancelled::Idle(due) => {
            let runnable = share.hand_over(party);
            put(
                out,
                Hand {
                    share: closed.1,
                    party: runnable,
                },
            );
            if due { SCHEDULE_DUE } else { SCHEDULE }
        }
    }
}

/// The Runnable of a cancel was scheduled.
#[derive(Drop)]
pub struct CancelScheduled {
    /// Whether an awaiter is due.
    due: bool,
}

impl Step for CancelScheduled {
    ghost starts = { λ s p. (n : ℕ) × Stands (notifies s.due (OfCancel n)) p };

    ghost does = { λ s p q r. (n : ℕ) → Stands (notifies s.due (OfCancel n)) p → CancelGoesOn s.due n p q r };

    fn make(self, share: &CellShare, party: &mut CellParty) -> u32 {
        leave_closed(share, party, self.due)
    }
}

/// The awaiter of a cancel was moved out.
#[derive(Drop)]
pub struct CancelTaken;

impl Step for CancelTaken {
    ghost starts = { λ _ p. (n : ℕ) × AtPlace (OfCancel n) [] p };

    ghost does = { λ _ p q r. (n : ℕ) → AtPlace (OfCancel n) [] p → Releases (OfCancel n) [] (act EndCall ∷ []) (as_task n) 12 p q r };

    fn make(self, share: &CellShare, party: &mut CellParty) -> u32 {
        match share.end_notify(party) {
            Some(awaiter) => {
                awaiter.discard();
                WAKE_FIRST
            }
            None => {
                share.end_call(party);
                DONE
            }
        }
    }
}

/// The awaiter of a cancel was woken.
#[derive(Drop)]
pub struct CancelWoken;

impl Step for CancelWoken {
    ghost starts = { λ _ p. (n : ℕ) × InHand (OfCancel n) [] p };

    ghost does = { λ _ p q r. (n : ℕ) → InHand (OfCancel n) [] p → (r ≡ 12) × Did (act WakeAwaiter ∷ act EndCall ∷ []) (as_task n) p q };

    fn make(self, share: &CellShare, party: &mut CellParty) -> u32 {
        share.note_woken(party);
        share.end_call(party);
        DONE
    }
}

/// Closes the task, if it is not over, by the Task that lies at `h`. Its future is dropped by the run or the Runnable that there is, or else by one that is to be scheduled, which lies at `out` then.
#[unsafe(no_mangle)]
pub extern "C" fn async_task_cancel(h: &mut Handle, out: &mut Handle) -> u32
    requires handle { IsFull h.old }
    requires party { (n : ℕ) × Stands (as_task n) h.old.hand.party }
    requires room { out.old.there ≡ false }
    ensures handle { Keeps h.old h.new }
    ensures path { (n : ℕ) → Stands (as_task n) h.old.hand.party → Cancels n h.old.hand.party h.new.hand.party result }
    ensures runnable { HasRunnable (schedules result) (cell_in h.old.hand) out.new }
{
    let Hand { share, mut party } = take(h);
    let share = share.share();
    let answer = close(&share, &mut party, out);
    let share = share.into_maybe();
    put(h, Hand { share, party });
    answer
}

/// Goes on with a cancel whose Runnable was scheduled; `due` is 1 where an awaiter is due, and else 0.
#[unsafe(no_mangle)]
pub extern "C" fn async_task_cancel_scheduled(h: &mut Handle, due: u32) -> u32
    requires handle { IsFull h.old }
    requires party { (n : ℕ) × Stands (notifies (nat_eq due 1) (OfCancel n)) h.old.hand.party }
    ensures handle { Keeps h.old h.new }
    ensures path { (n : ℕ) → Stands (notifies (nat_eq due 1) (OfCancel n)) h.old.hand.party → CancelGoesOn (nat_eq due 1) n h.old.hand.party h.new.hand.party result }
{
    make_at(CancelScheduled { due: due == 1 }, h)
}

/// Goes on with a cancel whose awaiter was moved out.
#[unsafe(no_mangle)]
pub extern "C" fn async_task_cancel_taken(h: &mut Handle) -> u32
    requires handle { IsFull h.old }
    requires party { (n : ℕ) × AtPlace (OfCancel n) [] h.old.hand.party }
    ensures handle { Keeps h.old h.new }
    ensures path { (n : ℕ) → AtPlace (OfCancel n) [] h.old.hand.party → Releases (OfCancel n) [] (act EndCall ∷ []) (as_task n) 12 h.old.hand.party h.new.hand.party result }
{
    make_at(CancelTaken, h)
}

/// Ends a cancel whose awaiter was woken.
#[unsafe(no_mangle)]
pub extern "C" fn async_task_cancel_woken(h: &mut Handle) -> u32
    requires handle { IsFull h.old }
    requires party { (n : ℕ) × InHand (OfCancel n) [] h.old.hand.party }
    ensures handle { Keeps h.old h.new }
    ensures path { (n : ℕ) → InHand (OfCancel n) [] h.old.hand.party → (result ≡ 12) × Did (act WakeAwaiter ∷ act EndCall ∷ []) (as_task n) h.old.hand.party h.new.hand.party }
{
    make_at(CancelWoken, h)
}
