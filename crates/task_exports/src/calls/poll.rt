//! A poll of the Task, and the question whether a task is over.
ghost use Rattle.std.specs.Prelude.{◌≡◌, ◌+◌, ◌++◌, ◌∷◌, [], ℕ, Bool, List, Ok, Some, IfSome, nat_eq, not, true};
ghost use Rattle.task_cell.specs.Calls.{Did, DidWith, Stands, StandsWith};
ghost use Rattle.task_cell.specs.PollPaths.{AnswerPath, PollPath, RegisterPath};
ghost use Rattle.task_core.specs.Word.{State, is_open};
ghost use Rattle.task_core.specs.declared.acts.Act.TheVariants.{EndCall, EndNotify, EndRegisterNotified, HandOutOutput, LookFinished, StoreAwaiter, WakeAwaiter};
ghost use Rattle.task_exports.specs.Answers.{IsFull};
ghost use Rattle.task_exports.specs.CallPaths.{Done, EndsLook, EndsRegister, GoesOnPolling, LooksBy, TakesOut, claims_by, is_look};
ghost use Rattle.task_exports.specs.Parties.{CellParty, IsAt, Keeps};
ghost use Rattle.task_exports.specs.TaskAnswers.{AtPlace, ClaimAtPlace, ClaimInHand, HasOutput, HasStored, InHand, LooksAfter, LooksOn};
ghost use Rattle.task_laws.specs.declared.positions.NotifyingCall.TheVariants.{OfPoll};
ghost use Rattle.task_laws.specs.declared.positions.Position.TheVariants.{Registrar, TookBack, TookOutput};
ghost use Rattle.task_steps.specs.Deeds.{act, row};
ghost use Rattle.task_steps.specs.Standing.{as_task};
ghost use Rattle.task_steps.specs.Steps.{awaiter_first, work_first};
ghost use Rattle.task_steps.specs.declared.table.Deed.{Deed};
ghost use Rattle.task_steps.specs.declared.table.Slot.{Slot};

use crate::answers::{TAKE, WAKE_FIRST};
use crate::caller::Caller;
use crate::handle::Handle;
use crate::poll_exports::{
    async_task_claim_dropped, async_task_claim_taken, async_task_claim_woken,
    async_task_clone_dropped, async_task_clone_refused, async_task_clone_woken,
    async_task_is_finished, async_task_output_taken, async_task_poll, async_task_poll_dropped,
    async_task_poll_taken, async_task_poll_woken, async_task_register, async_task_registered,
    async_task_taken_back,
};
use crate::task_answers::{
    CLONE, CLOSED, OUTPUT, PENDING, REPLACE, STORE, TAKE_BACK, TAKE_CLAIMED, WAKE_CALLER,
};
use task_core::{TaskPoll, Wake};

// Wakes the awaiter that was taken, or drops it where its wake would wake the caller, and ends the poll of a closed task.
fn shut_other<A: Wake>(h: &mut Handle, taken: Option<A>, awaiter: &A) -> Option<()>
    requires handle { IsFull h.old }
    requires party { (i : ℕ) × InHand (OfPoll i) [] h.old.hand.party }
    ensures handle { IfSome result (λ _. Keeps h.old h.new) }
    ensures path { (i : ℕ) (v : State) → InHand (OfPoll i) [] h.old.hand.party → IfSome result (λ _. (k : List Deed) × TakesOut A.woken A.compared awaiter.now (row EndNotify v ∷ k) × Did (k ++ act EndCall ∷ []) (as_task i) h.old.hand.party h.new.hand.party) }
{
    match taken {
        Some(taken) => {
            if taken.will_wake(awaiter) {
                drop(taken);
                by_bits!(h, async_task_poll_dropped);
                Some(())
            } else {
                taken.wake();
                by_bits!(h, async_task_poll_woken);
                Some(())
            }
        }
        None => None,
    }
}

// Empties the awaiter's place, which is this call's, and ends the poll of a closed task.
fn shut<A: Wake, C: Caller<A>>(h: &mut Handle, awaiter: &A, caller: &mut C) -> Option<()>
    requires handle { IsFull h.old }
    requires party { (i : ℕ) × AtPlace (OfPoll i) [] h.old.hand.party }
    ensures handle { IfSome result (λ _. Keeps h.old h.new) }
    ensures path { (i : ℕ) → AtPlace (OfPoll i) [] h.old.hand.party → IfSome result (λ _. (k : List Deed) × TakesOut A.woken A.compared awaiter.now k × Did (k ++ act EndCall ∷ []) (as_task i) h.old.hand.party h.new.hand.party) }
{
    let taken = caller.take_awaiter();
    match by_bits!(h, async_task_poll_taken) {
        CLOSED => Some(()),
        WAKE_FIRST => shut_other(h, taken, awaiter),
        _ => None,
    }
}

// Wakes the awaiter that was taken, or drops it where its wake would wake the caller: the output is to be handed out then.
fn claim_other<A: Wake>(h: &mut Handle, taken: Option<A>, awaiter: &A) -> Option<()>
    requires handle { IsFull h.old }
    requires party { (i : ℕ) × (z : Slot _ _) × ClaimInHand i z h.old.hand.party }
    ensures handle { IfSome result (λ _. Keeps h.old h.new) }
    ensures path { (i : ℕ) (z : Slot _ _) (v : State) → ClaimInHand i z h.old.hand.party → IfSome result (λ _. (k : List Deed) × TakesOut A.woken A.compared awaiter.now (row EndNotify v ∷ k) × DidWith k (TookOutput i) (work_first z []) h.old.hand.party h.new.hand.party) }
{
    match taken {
        Some(taken) => {
            if taken.will_wake(awaiter) {
                drop(taken);
                by_bits!(h, async_task_claim_dropped);
                Some(())
            } else {
                taken.wake();
                by_bits!(h, async_task_claim_woken);
                Some(())
            }
        }
        None => None,
    }
}

// Empties the awaiter's place, which is this call's: the output is to be handed out then.
fn claim<A: Wake, C: Caller<A>>(h: &mut Handle, awaiter: &A, caller: &mut C) -> Option<()>
    requires handle { IsFull h.old }
    requires party { (i : ℕ) × (z : Slot _ _) × ClaimAtPlace i z h.old.hand.party }
    ensures handle { IfSome result (λ _. Keeps h.old h.new) }
    ensures path { (i : ℕ) (z : Slot _ _) → ClaimAtPlace i z h.old.hand.party → IfSome result (λ _. (k : List Deed) × TakesOut A.woken A.compared awaiter.now k × DidWith k (TookOutput i) (work_first z []) h.old.hand.party h.new.hand.party) }
{
    let taken = caller.take_awaiter();
    match by_bits!(h, async_task_claim_taken) {
        OUTPUT => Some(()),
        WAKE_FIRST => claim_other(h, taken, awaiter),
        _ => None,
    }
}

// Hands the output out, and ends the poll.
fn hand_out<A: Wake, C: Caller<A>>(h: &mut Handle, caller: &mut C) -> C::Output
    requires handle { IsFull h.old }
    requires party { (i : ℕ) × (z : Slot _ _) × HasOutput i z h.old.hand.party }
    ensures handle { Keeps h.old h.new }
    ensures fact { C.did HandOutOutput }
    ensures path { (i : ℕ) (z : Slot _ _) → HasOutput i z h.old.hand.party → Did (act HandOutOutput ∷ act EndCall ∷ []) (as_task i) h.old.hand.party h.new.hand.party }
{
    let output = caller.take_output();
    by_bits!(h, async_task_output_taken);
    output
}

// Ends a poll whose look has found the output, or the end of the task: the output, if there is one.
fn end<A: Wake, C: Caller<A>>(
    h: &mut Handle,
    answer: u32,
    awaiter: &A,
    caller: &mut C,
) -> Option<Option<C::Output>>
    requires party { (i : ℕ) × (first : Bool) × (before : CellParty) × IsAt before h.old × LooksBy first i before h.old.hand.party answer }
    ensures handle { IfSome result (λ _. Keeps h.old h.new) }
    ensures path { (i : ℕ) (first : Bool) (before : CellParty) → LooksBy first i before h.old.hand.party answer → IfSome result (λ found. (path : List Deed) × EndsLook A.woken A.compared awaiter.now (claims_by first) path found × Done C.did path × Did path (as_task i) before h.new.hand.party) }
{
    match answer {
        OUTPUT => Some(Some(hand_out(h, caller))),
        TAKE_CLAIMED => match claim(h, awaiter, caller) {
            Some(()) => Some(Some(hand_out(h, caller))),
            None => None,
        },
        CLOSED => Some(None),
        TAKE => match shut(h, awaiter, caller) {
            Some(()) => Some(None),
            None => None,
        },
        _ => None,
    }
}

// Takes the clone back, which a notifier has missed, wakes it, and looks again.
fn take_back<A: Wake, C: Caller<A>>(h: &mut Handle, caller: &mut C) -> Option<u32>
    requires handle { IsFull h.old }
    requires party { (i : ℕ) × (clone : _) × StandsWith (TookBack i) (awaiter_first (Some clone) []) h.old.hand.party }
    ensures handle { IfSome result (λ _. Keeps h.old h.new) }
    ensures path { (i : ℕ) (clone : _) → StandsWith (TookBack i) (awaiter_first (Some clone) []) h.old.hand.party → IfSome result (λ answer. (v : State) × (v.notifying ≡ true) × ((a : A) → C.put caller.old a → (told : A.Record) × A.woken a told) × LooksAfter i (row EndRegisterNotified v ∷ act WakeAwaiter ∷ []) h.old.hand.party h.new.hand.party answer) }
{
    match caller.take_back() {
        Some(clone) => {
            by_bits!(h, async_task_taken_back);
            clone.wake();
            Some(by_bits!(h, async_task_clone_woken))
        }
        None => None,
    }
}

// The answer of the look of a poll that has registered, unless its tries have missed.
fn looked(answer: u32) -> Option<u32>
    ensures { IfSome result (λ found. (found ≡ answer) × (is_look found ≡ true)) }
{
    match answer {
        TAKE => Some(TAKE),
        OUTPUT => Some(OUTPUT),
        CLOSED => Some(CLOSED),
        PENDING => Some(PENDING),
        TAKE_CLAIMED => Some(TAKE_CLAIMED),
        _ => None,
    }
}

// Puts the clone into the awaiter's place, drops an older one, and looks again: what that answers.
fn store<A: Wake, C: Caller<A>>(h: &mut Handle, old: u32, clone: A, caller: &mut C) -> Option<u32>
    requires handle { IsFull h.old }
    requires party { (i : ℕ) × HasStored i (nat_eq old 1) h.old.hand.party }
    ensures handle { IfSome result (λ _. Keeps h.old h.new) }
    ensures fact { C.did StoreAwaiter }
    ensures path { (i : ℕ) → HasStored i (nat_eq old 1) h.old.hand.party → IfSome result (λ answer. (path : List Deed) × EndsRegister A.woken clone (nat_eq old 1) path × LooksAfter i path h.old.hand.party h.new.hand.party answer) }
{
    caller.store_awaiter(clone);
    let answer = by_bits!(h, async_task_registered, old);
    match answer {
        TAKE_BACK => take_back(h, caller),
        _ => looked(answer),
    }
}

// Registers the clone, or wakes the caller where a notifier came before, and looks again: what that answers.
fn register<A: Wake, C: Caller<A>>(
    h: &mut Handle,
    awaiter: &A,
    clone: A,
    caller: &mut C,
) -> Option<u32>
    requires handle { IsFull h.old }
    requires party { (i : ℕ) × Stands (Registrar i) h.old.hand.party }
    requires cloned { A.cloned awaiter.now (Ok clone) }
    ensures handle { IfSome result (λ _. Keeps h.old h.new) }
    ensures path { (i : ℕ) → Stands (Registrar i) h.old.hand.party → IfSome result (λ answer. (path : List Deed) × RegisterPath A.cloned A.woken A.woken_by_ref awaiter.now path × Done C.did path × LooksAfter i path h.old.hand.party h.new.hand.party answer) }
{
    match by_bits!(h, async_task_register) {
        STORE => store(h, 0, clone, caller),
        REPLACE => store(h, 1, clone, caller),
        WAKE_CALLER => {
            awaiter.wake_by_ref();
            drop(clone);
            Some(by_bits!(h, async_task_clone_dropped))
        }
        _ => None,
    }
}

// Answers by what the look of a poll has found that has registered.
fn look_on<A: Wake, C: Caller<A>>(
    h: &mut Handle,
    answer: u32,
    awaiter: &A,
    caller: &mut C,
) -> Option<TaskPoll<Option<C::Output>>>
    requires party { (i : ℕ) × (before : CellParty) × IsAt before h.old × LooksOn i before h.old.hand.party answer }
    ensures handle { IfSome result (λ _. Keeps h.old h.new) }
    ensures path { (i : ℕ) (before : CellParty) → LooksOn i before h.old.hand.party answer → IfSome result (λ told. (path : List Deed) × AnswerPath A.woken A.compared awaiter.now path told × Done C.did path × Did path (as_task i) before h.new.hand.party) }
{
    match answer {
        PENDING => Some(TaskPoll::Pending),
        _ => match end(h, answer, awaiter, caller) {
            Some(found) => Some(TaskPoll::Ready(found)),
            None => None,
        },
    }
}

// Goes on with a poll whose first look has found nothing: registers a clone of the caller's awaiter, unless that is refused, and answers by the second look.
fn go_on<A: Wake, C: Caller<A>>(
    h: &mut Handle,
    awaiter: &A,
    caller: &mut C,
) -> Option<TaskPoll<Option<C::Output>>>
    requires handle { IsFull h.old }
    requires party { (i : ℕ) × Stands (Registrar i) h.old.hand.party }
    ensures handle { IfSome result (λ _. Keeps h.old h.new) }
    ensures path { (i : ℕ) → Stands (Registrar i) h.old.hand.party → IfSome result (λ told. (path : List Deed) × GoesOnPolling A.cloned A.woken A.woken_by_ref A.compared awaiter.now path told × Done C.did path × Did path (as_task i) h.old.hand.party h.new.hand.party) }
{
    match awaiter.try_clone() {
        Ok(clone) => match register(h, awaiter, clone, caller) {
            Some(answer) => look_on(h, answer, awaiter, caller),
            None => None,
        },
        Err(_) => {
            by_bits!(h, async_task_clone_refused);
            Some(TaskPoll::Refused)
        }
    }
}

/// Polls the Task at `h` for the caller whose awaiter this is.
pub fn poll<A: Wake, C: Caller<A>>(
    h: &mut Handle,
    awaiter: &A,
    caller: &mut C,
) -> Option<TaskPoll<Option<C::Output>>>
    requires handle { IsFull h.old }
    requires party { (n : ℕ) × Stands (as_task n) h.old.hand.party }
    ensures handle { IfSome result (λ _. Keeps h.old h.new) }
    ensures path { (n : ℕ) → Stands (as_task n) h.old.hand.party → IfSome result (λ told. (path : List Deed) × PollPath A.cloned A.woken A.woken_by_ref A.compared awaiter.now path told × Done C.did path × Did path (as_task (n + 1)) h.old.hand.party h.new.hand.party) }
{
    let answer = by_bits!(h, async_task_poll);
    match answer {
        CLONE => go_on(h, awaiter, caller),
        _ => match end(h, answer, awaiter, caller) {
            Some(found) => Some(TaskPoll::Ready(found)),
            None => None,
        },
    }
}

/// Whether the task of the Task at `h` is completed or closed.
pub fn is_finished(h: &mut Handle) -> bool
    requires handle { IsFull h.old }
    requires party { (n : ℕ) × Stands (as_task n) h.old.hand.party }
    ensures handle { Keeps h.old h.new }
    ensures path { (n : ℕ) → Stands (as_task n) h.old.hand.party → (w : State) × (result ≡ not (is_open w)) × Did (row LookFinished w ∷ act EndCall ∷ []) (as_task n) h.old.hand.party h.new.hand.party }
{
    by_bits!(h, async_task_is_finished) == 1
}
