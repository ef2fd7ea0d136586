//! The steps by which a poll registers its awaiter.
ghost use Rattle.std.specs.Prelude.{◌≡◌, ◌∷◌, [], ℕ, Option, true, false, Some};
ghost use Rattle.task_cell.specs.Belongs.{IsOf};
ghost use Rattle.task_cell.specs.Calls.{Did, Stands, StandsWith};
ghost use Rattle.task_core.specs.Word.{State};
ghost use Rattle.task_core.specs.declared.acts.Act.TheVariants.{DropAwaiter, EndRegisterNotified, WakeAwaiter};
ghost use Rattle.task_exports.specs.TaskAnswers.{EndsStore, HasStored, LooksAfter, PutsIn, Settles, Stores};
ghost use Rattle.task_laws.specs.Table.{after_storing};
ghost use Rattle.task_laws.specs.declared.positions.Position.TheVariants.{CloneInHand, Registrar, TookBack, UnusedClone};
ghost use Rattle.task_steps.specs.Deeds.{act, row};
ghost use Rattle.task_steps.specs.Rule.{Waits as SlotWaits};
ghost use Rattle.task_steps.specs.Steps.{awaiter_first};

use crate::answers::{MISSED, WAKE_FIRST};
use crate::hand::{CellParty, CellShare, Waits};
use crate::look::look_again;
use crate::step::Step;
use crate::task_answers::{REPLACE, STORE, TAKE_BACK, WAKE_CALLER};

// Puts the clone into the place of the awaiter, which the party has taken.
fn put_in(share: &CellShare, party: &mut CellParty) -> u32
    requires cell { IsOf share.now party.old }
    requires party { (i : ℕ) × (hand : Option ℕ) × (y : Option _) × StandsWith (after_storing i hand) (awaiter_first y []) party.old × SlotWaits hand y }
    ensures { (i : ℕ) (hand : Option ℕ) (y : Option _) → StandsWith (after_storing i hand) (awaiter_first y []) party.old → SlotWaits hand y → PutsIn i hand party.old party.new result }
{
    let clone = party.to_store(Waits);
    match share.put_clone(party, clone) {
        Some(old) => {
            old.discard();
            REPLACE
        }
        None => STORE,
    }
}

// Writes down that the older awaiter was dropped, where one stood.
fn settle(share: &CellShare, party: &mut CellParty, stood: bool)
    requires cell { IsOf share.now party.old }
    requires party { (i : ℕ) × HasStored i stood party.old }
    ensures { (i : ℕ) → HasStored i stood party.old → Settles i stood party.old party.new }
{
    if stood {
        share.note_old_dropped(party);
    }
}

// Gives the place back with the clone in it, and looks again; or the clone is to be taken back.
fn end_store(share: &CellShare, party: &mut CellParty) -> u32
    requires cell { IsOf share.now party.old }
    requires party { (i : ℕ) × HasStored i false party.old }
    ensures { (i : ℕ) → HasStored i false party.old → EndsStore i false party.old party.new result }
{
    match share.end_register_some(party) {
        None => MISSED,
        Some(true) => look_again(share, party),
        Some(false) => TAKE_BACK,
    }
}

/// The clone of the caller's awaiter is in hand.
#[derive(Drop)]
pub struct Register;

impl Step for Register {
    ghost starts = { λ _ p. (i : ℕ) × Stands (Registrar i) p };

    ghost does = { λ _ p q r. (i : ℕ) → Stands (Registrar i) p → Stores i p q r };

    fn make(self, share: &CellShare, party: &mut CellParty) -> u32 {
        match share.begin_register_some(party) {
            None => MISSED,
            Some(false) => WAKE_CALLER,
            Some(true) => put_in(share, party),
        }
    }
}

/// The clone lies in the place of the awaiter.
#[derive(Drop)]
pub struct Registered {
    /// Whether an older awaiter stood there, which was dropped.
    pub stood: bool,
}

impl Step for Registered {
    ghost starts = { λ s p. (i : ℕ) × HasStored i s.stood p };

    ghost does = { λ s p q r. (i : ℕ) → HasStored i s.stood p → EndsStore i s.stood p q r };

    fn make(self, share: &CellShare, party: &mut CellParty) -> u32 {
        settle(share, party, self.stood);
        end_store(share, party)
    }
}

/// The clone was moved out of the place of the awaiter again.
#[derive(Drop)]
pub struct TakenBack;

impl Step for TakenBack {
    ghost starts = { λ _ p. (i : ℕ) × (clone : _) × StandsWith (TookBack i) (awaiter_first (Some clone) []) p };

    ghost does = { λ _ p q r. (i : ℕ) (clone : _) → StandsWith (TookBack i) (awaiter_first (Some clone) []) p → (r ≡ 14) × (v : State) × (v.notifying ≡ true) × Did (row EndRegisterNotified v ∷ []) (CloneInHand i) p q };

    fn make(self, share: &CellShare, party: &mut CellParty) -> u32 {
        share.take_back(party).discard();
        WAKE_FIRST
    }
}

/// The clone that was taken back was woken.
#[derive(Drop)]
pub struct CloneWoken;

impl Step for CloneWoken {
    ghost starts = { λ _ p. (i : ℕ) × Stands (CloneInHand i) p };

    ghost does = { λ _ p q r. (i : ℕ) → Stands (CloneInHand i) p → LooksAfter i (act WakeAwaiter ∷ []) p q r };

    fn make(self, share: &CellShare, party: &mut CellParty) -> u32 {
        share.note_clone_woken(party);
        look_again(share, party)
    }
}

/// The caller's awaiter was woken, and the clone dropped, since a notifier was there.
#[derive(Drop)]
pub struct CloneDropped;

impl Step for CloneDropped {
    ghost starts = { λ _ p. (i : ℕ) × Stands (UnusedClone i) p };

    ghost does = { λ _ p q r. (i : ℕ) → Stands (UnusedClone i) p → LooksAfter i (act DropAwaiter ∷ []) p q r };

    fn make(self, share: &CellShare, party: &mut CellParty) -> u32 {
        share.note_clone_dropped(party);
        look_again(share, party)
    }
}
