//! The looks of a poll, and what follows each until somebody else has to act.
ghost use Rattle.std.specs.Prelude.{◌≡◌, ◌+◌, [], ◌∷◌, ℕ};
ghost use Rattle.task_cell.specs.Belongs.{IsOf};
ghost use Rattle.task_cell.specs.Calls.{Stands, StandsWith};
ghost use Rattle.task_exports.specs.TaskAnswers.{ClaimGoesOn, EndGoesOn, LooksOn, Polls};
ghost use Rattle.task_laws.specs.Table.{notifies};
ghost use Rattle.task_laws.specs.declared.positions.NotifyingCall.TheVariants.{OfClaim, OfPoll};
ghost use Rattle.task_laws.specs.declared.positions.Position.TheVariants.{Looking, Notifier};
ghost use Rattle.task_steps.specs.Rule.{IsOutput};
ghost use Rattle.task_steps.specs.Standing.{as_task};
ghost use Rattle.task_steps.specs.Steps.{work_first};
ghost use Rattle.task_steps.specs.declared.table.Slot.{Slot};

use crate::answers::{MISSED, TAKE};
use crate::hand::{CellParty, CellShare};
use crate::task_answers::{CLONE, CLOSED, OUTPUT, PENDING, TAKE_CLAIMED};
use task_core::word::Word;
use task_steps::found::{has_ended, has_to_wait};

// The output was claimed on this word: takes the place of the awaiter where one is due and nobody else is at it.
fn go_on_claimed(share: &CellShare, party: &mut CellParty, due: bool) -> u32
    requires cell { IsOf share.now party.old }
    requires party { (i : ℕ) × (z : Slot _ _) × StandsWith (notifies due (OfClaim i)) (work_first z []) party.old }
    ensures { (i : ℕ) (z : Slot _ _) → StandsWith (notifies due (OfClaim i)) (work_first z []) party.old → ClaimGoesOn due i z party.old party.new result }
{
    if !due {
        return OUTPUT;
    }
    if share.begin_notify(party) {
        TAKE_CLAIMED
    } else {
        OUTPUT
    }
}

// The task has ended: takes the place of the awaiter, or ends the poll where somebody else is at it.
fn go_on_ended(share: &CellShare, party: &mut CellParty) -> u32
    requires cell { IsOf share.now party.old }
    requires party { (i : ℕ) × Stands (Notifier (OfPoll i)) party.old }
    ensures { (i : ℕ) → Stands (Notifier (OfPoll i)) party.old → EndGoesOn i party.old party.new result }
{
    if share.begin_notify(party) {
        return TAKE;
    }
    share.end_poll(party);
    CLOSED
}

// The first look of a poll.
pub fn look(share: &CellShare, party: &mut CellParty) -> u32
    requires cell { IsOf share.now party.old }
    requires party { (n : ℕ) × Stands (as_task n) party.old }
    ensures { (n : ℕ) → Stands (as_task n) party.old → Polls (n + 1) party.old party.new result }
{
    match share.look_some(party) {
        None => MISSED,
        Some(Ok(found)) => go_on_claimed(share, party, found.awaiter()),
        Some(Err(found)) => {
            if has_ended(found) {
                go_on_ended(share, party)
            } else {
                CLONE
            }
        }
    }
}

// The look of a poll that has registered.
pub fn look_again(share: &CellShare, party: &mut CellParty) -> u32
    requires cell { IsOf share.now party.old }
    requires party { (i : ℕ) × Stands (Looking i) party.old }
    ensures { (i : ℕ) → Stands (Looking i) party.old → LooksOn i party.old party.new result }
{
    match share.look_again_some(party) {
        None => MISSED,
        Some(Ok(found)) => go_on_claimed(share, party, found.awaiter()),
        Some(Err(found)) => {
            if has_to_wait(found) {
                PENDING
            } else {
                go_on_ended(share, party)
            }
        }
    }
}
