//! The exports of a poll of the Task, and of `is_finished`.
ghost use Rattle.std.specs.Prelude.{◌≡◌, ◌+◌, ◌∷◌, [], ℕ, nat_eq, true, Some};
ghost use Rattle.task_cell.specs.Calls.{Did, DidWith, Stands, StandsWith};
ghost use Rattle.task_core.specs.Word.{State};
ghost use Rattle.task_core.specs.declared.acts.Act.TheVariants.{DropAwaiter, EndCall, EndRegisterNotified, HandOutOutput, RefuseClone, WakeAwaiter};
ghost use Rattle.task_exports.specs.Hands.{IsLive};
ghost use Rattle.task_exports.specs.Parties.{Stays};
ghost use Rattle.task_exports.specs.TaskAnswers.{AtPlace, ClaimAtPlace, ClaimInHand, EndsStore, HasOutput, HasStored, InHand, Looks, LooksAfter, Polls, Releases, Stores};
ghost use Rattle.task_laws.specs.declared.positions.NotifyingCall.TheVariants.{OfClaim, OfPoll};
ghost use Rattle.task_laws.specs.declared.positions.Position.TheVariants.{CloneInHand, Registrar, TookBack, TookOutput, UnusedClone};
ghost use Rattle.task_steps.specs.Deeds.{act, row};
ghost use Rattle.task_steps.specs.Standing.{as_task};
ghost use Rattle.task_steps.specs.Steps.{work_first, awaiter_first};
ghost use Rattle.task_steps.specs.declared.table.Slot.{Slot};

use crate::bits::{Answer, Bits};
use crate::poll::{
    ClaimDropped, ClaimTaken, ClaimWoken, Finished, OutputTaken, Poll, PollDropped, PollRefused,
    PollTaken, PollWoken,
};
use crate::register::{CloneDropped, CloneWoken, Register, Registered, TakenBack};
use crate::step::make_by;

/// Begins a poll: looks at the word.
#[unsafe(no_mangle)]
pub extern "C" fn async_task_poll(h: Bits) -> Answer
    requires handle { IsLive h.hand }
    requires party { (n : ℕ) × Stands (as_task n) h.hand.party }
    ensures handle { Stays h.hand result.left.hand }
    ensures path { (n : ℕ) → Stands (as_task n) h.hand.party → Polls (n + 1) h.hand.party result.left.hand.party result.number }
{
    make_by(Poll, h)
}

/// Ends a poll for which the clone of the caller's awaiter was not to be had.
#[unsafe(no_mangle)]
pub extern "C" fn async_task_clone_refused(h: Bits) -> Answer
    requires handle { IsLive h.hand }
    requires party { (i : ℕ) × Stands (Registrar i) h.hand.party }
    ensures handle { Stays h.hand result.left.hand }
    ensures path { (i : ℕ) → Stands (Registrar i) h.hand.party → (result.number ≡ 12) × Did (act RefuseClone ∷ act EndCall ∷ []) (as_task i) h.hand.party result.left.hand.party }
{
    make_by(PollRefused, h)
}

/// Takes the place of the awaiter for the clone of the caller's.
#[unsafe(no_mangle)]
pub extern "C" fn async_task_register(h: Bits) -> Answer
    requires handle { IsLive h.hand }
    requires party { (i : ℕ) × Stands (Registrar i) h.hand.party }
    ensures handle { Stays h.hand result.left.hand }
    ensures path { (i : ℕ) → Stands (Registrar i) h.hand.party → Stores i h.hand.party result.left.hand.party result.number }
{
    make_by(Register, h)
}

/// Goes on with a poll whose clone lies in the place of the awaiter: gives the place back, and looks at the word again. `old` is 1 where an older awaiter stood there, which was dropped, and else 0.
#[unsafe(no_mangle)]
pub extern "C" fn async_task_registered(h: Bits, old: u32) -> Answer
    requires handle { IsLive h.hand }
    requires party { (i : ℕ) × HasStored i (nat_eq old 1) h.hand.party }
    ensures handle { Stays h.hand result.left.hand }
    ensures path { (i : ℕ) → HasStored i (nat_eq old 1) h.hand.party → EndsStore i (nat_eq old 1) h.hand.party result.left.hand.party result.number }
{
    make_by(Registered { stood: old == 1 }, h)
}

/// Goes on with a poll whose clone was moved out of the place of the awaiter again.
#[unsafe(no_mangle)]
pub extern "C" fn async_task_taken_back(h: Bits) -> Answer
    requires handle { IsLive h.hand }
    requires party { (i : ℕ) × (clone : _) × StandsWith (TookBack i) (awaiter_first (Some clone) []) h.hand.party }
    ensures handle { Stays h.hand result.left.hand }
    ensures path { (i : ℕ) (clone : _) → StandsWith (TookBack i) (awaiter_first (Some clone) []) h.hand.party → (result.number ≡ 14) × (v : State) × (v.notifying ≡ true) × Did (row EndRegisterNotified v ∷ []) (CloneInHand i) h.hand.party result.left.hand.party }
{
    make_by(TakenBack, h)
}

/// Goes on with a poll whose clone was taken back and woken: looks at the word again.
#[unsafe(no_mangle)]
pub extern "C" fn async_task_clone_woken(h: Bits) -> Answer
    requires handle { IsLive h.hand }
    requires party { (i : ℕ) × Stands (CloneInHand i) h.hand.party }
    ensures handle { Stays h.hand result.left.hand }
    ensures path { (i : ℕ) → Stands (CloneInHand i) h.hand.party → LooksAfter i (act WakeAwaiter ∷ []) h.hand.party result.left.hand.party result.number }
{
    make_by(CloneWoken, h)
}

/// Goes on with a poll whose clone was dropped, since a notifier was there: looks at the word again.
#[unsafe(no_mangle)]
pub extern "C" fn async_task_clone_dropped(h: Bits) -> Answer
    requires handle { IsLive h.hand }
    requires party { (i : ℕ) × Stands (UnusedClone i) h.hand.party }
    ensures handle { Stays h.hand result.left.hand }
    ensures path { (i : ℕ) → Stands (UnusedClone i) h.hand.party → LooksAfter i (act DropAwaiter ∷ []) h.hand.party result.left.hand.party result.number }
{
    make_by(CloneDropped, h)
}

/// Goes on with a poll of a closed task whose awaiter was moved out.
#[unsafe(no_mangle)]
pub extern "C" fn async_task_poll_taken(h: Bits) -> Answer
    requires handle { IsLive h.hand }
    requires party { (i : ℕ) × AtPlace (OfPoll i) [] h.hand.party }
    ensures handle { Stays h.hand result.left.hand }
    ensures path { (i : ℕ) → AtPlace (OfPoll i) [] h.hand.party → Releases (OfPoll i) [] (act EndCall ∷ []) (as_task i) 17 h.hand.party result.left.hand.party result.number }
{
    make_by(PollTaken, h)
}

/// Ends a poll of a closed task whose awaiter was woken.
#[unsafe(no_mangle)]
pub extern "C" fn async_task_poll_woken(h: Bits) -> Answer
    requires handle { IsLive h.hand }
    requires party { (i : ℕ) × InHand (OfPoll i) [] h.hand.party }
    ensures handle { Stays h.hand result.left.hand }
    ensures path { (i : ℕ) → InHand (OfPoll i) [] h.hand.party → (result.number ≡ 17) × Did (act WakeAwaiter ∷ act EndCall ∷ []) (as_task i) h.hand.party result.left.hand.party }
{
    make_by(PollWoken, h)
}

/// Ends a poll of a closed task whose awaiter was dropped, since its wake would wake the caller.
#[unsafe(no_mangle)]
pub extern "C" fn async_task_poll_dropped(h: Bits) -> Answer
    requires handle { IsLive h.hand }
    requires party { (i : ℕ) × InHand (OfPoll i) [] h.hand.party }
    ensures handle { Stays h.hand result.left.hand }
    ensures path { (i : ℕ) → InHand (OfPoll i) [] h.hand.party → (result.number ≡ 17) × Did (act DropAwaiter ∷ act EndCall ∷ []) (as_task i) h.hand.party result.left.hand.party }
{
    make_by(PollDropped, h)
}

/// Goes on with a poll that has claimed the output, and whose awaiter was moved out.
#[unsafe(no_mangle)]
pub extern "C" fn async_task_claim_taken(h: Bits) -> Answer
    requires handle { IsLive h.hand }
    requires party { (i : ℕ) × (z : Slot _ _) × ClaimAtPlace i z h.hand.party }
    ensures handle { Stays h.hand result.left.hand }
    ensures path { (i : ℕ) (z : Slot _ _) → ClaimAtPlace i z h.hand.party → Releases (OfClaim i) (work_first z []) [] (TookOutput i) 16 h.hand.party result.left.hand.party result.number }
{
    make_by(ClaimTaken, h)
}

/// Goes on with a poll that has claimed the output, and whose awaiter was woken.
#[unsafe(no_mangle)]
pub extern "C" fn async_task_claim_woken(h: Bits) -> Answer
    requires handle { IsLive h.hand }
    requires party { (i : ℕ) × (z : Slot _ _) × ClaimInHand i z h.hand.party }
    ensures handle { Stays h.hand result.left.hand }
    ensures path { (i : ℕ) (z : Slot _ _) → ClaimInHand i z h.hand.party → (result.number ≡ 16) × DidWith (act WakeAwaiter ∷ []) (TookOutput i) (work_first z []) h.hand.party result.left.hand.party }
{
    make_by(ClaimWoken, h)
}

/// Goes on with a poll that has claimed the output, and whose awaiter was dropped, since its wake would wake the caller.
#[unsafe(no_mangle)]
pub extern "C" fn async_task_claim_dropped(h: Bits) -> Answer
    requires handle { IsLive h.hand }
    requires party { (i : ℕ) × (z : Slot _ _) × ClaimInHand i z h.hand.party }
    ensures handle { Stays h.hand result.left.hand }
    ensures path { (i : ℕ) (z : Slot _ _) → ClaimInHand i z h.hand.party → (result.number ≡ 16) × DidWith (act DropAwaiter ∷ []) (TookOutput i) (work_first z []) h.hand.party result.left.hand.party }
{
    make_by(ClaimDropped, h)
}

/// Ends a poll whose output was moved out.
#[unsafe(no_mangle)]
pub extern "C" fn async_task_output_taken(h: Bits) -> Answer
    requires handle { IsLive h.hand }
    requires party { (i : ℕ) × (z : Slot _ _) × HasOutput i z h.hand.party }
    ensures handle { Stays h.hand result.left.hand }
    ensures path { (i : ℕ) (z : Slot _ _) → HasOutput i z h.hand.party → (result.number ≡ 12) × Did (act HandOutOutput ∷ act EndCall ∷ []) (as_task i) h.hand.party result.left.hand.party }
{
    make_by(OutputTaken, h)
}

/// Whether the task is completed or closed: 1, or 0. It is one load.
#[unsafe(no_mangle)]
pub extern "C" fn async_task_is_finished(h: Bits) -> Answer
    requires handle { IsLive h.hand }
    requires party { (n : ℕ) × Stands (as_task n) h.hand.party }
    ensures handle { Stays h.hand result.left.hand }
    ensures path { (n : ℕ) → Stands (as_task n) h.hand.party → Looks n h.hand.party result.left.hand.party result.number }
{
    make_by(Finished, h)
}
