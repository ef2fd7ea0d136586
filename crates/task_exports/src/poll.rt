//! The steps of a poll: its looks and its end.
ghost use Rattle.std.specs.Prelude.{◌≡◌, ◌+◌, ◌∷◌, [], ℕ};
ghost use Rattle.task_cell.specs.Calls.{Did, DidWith, Stands};
ghost use Rattle.task_core.specs.declared.acts.Act.TheVariants.{DropAwaiter, EndCall, HandOutOutput, RefuseClone, WakeAwaiter};
ghost use Rattle.task_exports.specs.TaskAnswers.{AtPlace, ClaimAtPlace, ClaimInHand, HasOutput, InHand, Looks, Polls, Releases};
ghost use Rattle.task_laws.specs.declared.positions.NotifyingCall.TheVariants.{OfClaim, OfPoll};
ghost use Rattle.task_laws.specs.declared.positions.Position.TheVariants.{Registrar, TookOutput};
ghost use Rattle.task_steps.specs.Deeds.{act};
ghost use Rattle.task_steps.specs.Standing.{as_task};
ghost use Rattle.task_steps.specs.Steps.{work_first};
ghost use Rattle.task_steps.specs.declared.table.Slot.{Slot};

use crate::answers::{DONE, WAKE_FIRST};
use crate::hand::{CellParty, CellShare};
use crate::look::look;
use crate::step::Step;
use crate::task_answers::{CLOSED, OUTPUT};

/// A poll begins.
#[derive(Drop)]
pub struct Poll;

impl Step for Poll {
    ghost starts = { λ _ p. (n : ℕ) × Stands (as_task n) p };

    ghost does = { λ _ p q r. (n : ℕ) → Stands (as_task n) p → Polls (n + 1) p q r };

    fn make(self, share: &CellShare, party: &mut CellParty) -> u32 {
        look(share, party)
    }
}

/// The clone of the caller's awaiter was not to be had.
#[derive(Drop)]
pub struct PollRefused;

impl Step for PollRefused {
    ghost starts = { λ _ p. (i : ℕ) × Stands (Registrar i) p };

    ghost does = { λ _ p q r. (i : ℕ) → Stands (Registrar i) p → (r ≡ 12) × Did (act RefuseClone ∷ act EndCall ∷ []) (as_task i) p q };

    fn make(self, share: &CellShare, party: &mut CellParty) -> u32 {
        share.note_refused(party);
        DONE
    }
}

/// The awaiter of a poll that has found the task closed was moved out.
#[derive(Drop)]
pub struct PollTaken;

impl Step for PollTaken {
    ghost starts = { λ _ p. (i : ℕ) × AtPlace (OfPoll i) [] p };

    ghost does = { λ _ p q r. (i : ℕ) → AtPlace (OfPoll i) [] p → Releases (OfPoll i) [] (act EndCall ∷ []) (as_task i) 17 p q r };

    fn make(self, share: &CellShare, party: &mut CellParty) -> u32 {
        match share.end_notify(party) {
            Some(awaiter) => {
                awaiter.discard();
                WAKE_FIRST
            }
            None => {
                share.end_poll(party);
                CLOSED
            }
        }
    }
}

/// The awaiter of a poll that has found the task closed was woken.
#[derive(Drop)]
pub struct PollWoken;

impl Step for PollWoken {
    ghost starts = { λ _ p. (i : ℕ) × InHand (OfPoll i) [] p };

    ghost does = { λ _ p q r. (i : ℕ) → InHand (OfPoll i) [] p → (r ≡ 17) × Did (act WakeAwaiter ∷ act EndCall ∷ []) (as_task i) p q };

    fn make(self, share: &CellShare, party: &mut CellParty) -> u32 {
        share.note_woken(party);
        share.end_poll(party);
        CLOSED
    }
}

/// That awaiter was dropped, since its wake would wake the caller.
#[derive(Drop)]
pub struct PollDropped;

impl Step for PollDropped {
    ghost starts = { λ _ p. (i : ℕ) × InHand (OfPoll i) [] p };

    ghost does = { λ _ p q r. (i : ℕ) → InHand (OfPoll i) [] p → (r ≡ 17) × Did (act DropAwaiter ∷ act EndCall ∷ []) (as_task i) p q };

    fn make(self, share: &CellShare, party: &mut CellParty) -> u32 {
        share.note_dropped(party);
        share.end_poll(party);
        CLOSED
    }
}

/// The awaiter of a poll that has claimed the output was moved out.
#[derive(Drop)]
pub struct ClaimTaken;

impl Step for ClaimTaken {
    ghost starts = { λ _ p. (i : ℕ) × (z : Slot _ _) × ClaimAtPlace i z p };

    ghost does = { λ _ p q r. (i : ℕ) (z : Slot _ _) → ClaimAtPlace i z p → Releases (OfClaim i) (work_first z []) [] (TookOutput i) 16 p q r };

    fn make(self, share: &CellShare, party: &mut CellParty) -> u32 {
        match share.end_notify(party) {
            Some(awaiter) => {
                awaiter.discard();
                WAKE_FIRST
            }
            None => OUTPUT,
        }
    }
}

/// The awaiter of a poll that has claimed the output was woken.
#[derive(Drop)]
pub struct ClaimWoken;

impl Step for ClaimWoken {
    ghost starts = { λ _ p. (i : ℕ) × (z : Slot _ _) × ClaimInHand i z p };

    ghost does = { λ _ p q r. (i : ℕ) (z : Slot _ _) → ClaimInHand i z p → (r ≡ 16) × DidWith (act WakeAwaiter ∷ []) (TookOutput i) (work_first z []) p q };

    fn make(self, share: &CellShare, party: &mut CellParty) -> u32 {
        share.note_woken(party);
        OUTPUT
    }
}

/// That awaiter was dropped, since its wake would wake the caller.
#[derive(Drop)]
pub struct ClaimDropped;

impl Step for ClaimDropped {
    ghost starts = { λ _ p. (i : ℕ) × (z : Slot _ _) × ClaimInHand i z p };

    ghost does = { λ _ p q r. (i : ℕ) (z : Slot _ _) → ClaimInHand i z p → (r ≡ 16) × DidWith (act DropAwaiter ∷ []) (TookOutput i) (work_first z []) p q };

    fn make(self, share: &CellShare, party: &mut CellParty) -> u32 {
        share.note_dropped(party);
        OUTPUT
    }
}

/// The output was moved out.
#[derive(Drop)]
pub struct OutputTaken;

impl Step for OutputTaken {
    ghost starts = { λ _ p. (i : ℕ) × (z : Slot _ _) × HasOutput i z p };

    ghost does = { λ _ p q r. (i : ℕ) (z : Slot _ _) → HasOutput i z p → (r ≡ 12) × Did (act HandOutOutput ∷ act EndCall ∷ []) (as_task i) p q };

    fn make(self, share: &CellShare, party: &mut CellParty) -> u32 {
        share.hand_out(party).discard();
        DONE
    }
}

/// A look whether the task is completed or closed.
#[derive(Drop)]
pub struct Finished;

impl Step for Finished {
    ghost starts = { λ _ p. (n : ℕ) × Stands (as_task n) p };

    ghost does = { λ _ p q r. (n : ℕ) → Stands (as_task n) p → Looks n p q r };

    fn make(self, share: &CellShare, party: &mut CellParty) -> u32 {
        if share.is_finished(party) { 1 } else { 0 }
    }
}
