//! A poll of the Task: its looks, the registering of its awaiter beside parties that notify, and the output that it hands out.
ghost use Rattle.std.specs.Prelude.{◌≡◌, ℕ, ◌-◌, ◌^◌, ◌∷◌, ◌++◌, [], List, None, Err, true, IfSome, IfNone, Bool, Option, Some, Ok};
ghost use Rattle.task_core.specs.Word.{State};
ghost use Rattle.task_core.specs.declared.acts.Act.TheVariants.{EndCall, EndRegisterNotified, RefuseClone, DropAwaiter, WakeAwaiter, HandOutOutput};
ghost use Rattle.task_laws.specs.Table.{after_storing, notifies, after_waking, may_drop};
ghost use Rattle.task_laws.specs.declared.positions.NotifyingCall.{NotifyingCall};
ghost use Rattle.task_laws.specs.declared.positions.NotifyingCall.TheVariants.{OfPoll, OfClaim};
ghost use Rattle.task_laws.specs.declared.positions.PollAnswer.{PollAnswer};
ghost use Rattle.task_laws.specs.declared.positions.Position.TheVariants.{Answering, Notifier, Looking as LookingAt, Registrar, UnusedClone, OldAwaiterInHand, Registered, TookBack, CloneInHand, TookOutput};
ghost use Rattle.task_steps.specs.Attempts.{HasMissed};
ghost use Rattle.task_steps.specs.Deeds.{act, row};
ghost use Rattle.task_steps.specs.PollScripts.{has_output, handing_out, refusing, ending_notified, to_look, to_look_again, to_begin_register, to_end_register, has_ended as has_ended_word};
ghost use Rattle.task_steps.specs.Rule.{Waits, IsOutput, TaskPlace};
ghost use Rattle.task_steps.specs.Standing.{poll_number, as_task, way_of};
ghost use Rattle.task_steps.specs.Steps.{saw_ended, awaiter_first, work_first};
ghost use Rattle.task_steps.specs.Stored.{poll_of, stored_by};
ghost use Rattle.task_steps.specs.declared.table.Deed.{Deed};
ghost use Rattle.task_steps.specs.declared.table.Slot.{Slot};
ghost use Rattle.task_cell.specs.Belongs.{IsOf, values_in, HasYielded};
ghost use Rattle.task_cell.specs.Calls.{Stands, Did, position, deeds, StandsWith, DidWith, places_of};
ghost use Rattle.task_cell.specs.PollPaths.{PollPath, AnswerPath, TakePath, Looks, LooksAgain, IfHandedOut, RegisterPath, Registers, BeginsRegister, EndsRegister, dropped_if, TakePathIf};
ghost use Rattle.task_cell.specs.Stores.{Registration, PutsClone};

use crate::awaiter::{LentAwaiter, OneWake};
use crate::cell::{Party, Share};
use crate::share::{Dropping, Ending, Waking};
use std::alloc::Allocator;
use std::sync::Wait;
use task_core::acts::Act::{BeginRegister, ClaimOutput, EndRegister};
use task_core::word::{AWAITER, NOTIFYING, REGISTERING, Word};
use task_core::{TaskPoll, Wake, Yields};
use task_steps::attempt::Change;
use task_steps::found::{has_ended, has_output, has_to_wait};
use task_steps::places::{Held, put_awaiter, take_awaiter, take_work};
use task_steps::script::Script;
use task_steps::table::{Kept, StoredAwaiter};

// The first look of a poll, which takes the output where it is there.
pub(crate) struct Looking;

impl Change for Looking {
    type Row = Word;

    ghost attempt = { to_look };

    fn next(word: Word, limit: u64) -> Option<(Word, Word)> {
        let _ = limit;
        let next = word.by_row(0, ClaimOutput)?;
        Some((next, word))
    }

    fn is_end(word: Word, limit: u64) -> bool {
        let _ = limit;
        !has_output(word)
    }
}

// The look of a poll that has registered, which takes the output where it is there.
pub(crate) struct LookingAgain;

impl Change for LookingAgain {
    type Row = Word;

    ghost attempt = { to_look_again };

    fn next(word: Word, limit: u64) -> Option<(Word, Word)> {
        let _ = limit;
        let next = word.by_row(0, ClaimOutput)?;
        Some((next, word))
    }

    fn is_end(word: Word, limit: u64) -> bool {
        let _ = limit;
        !has_output(word)
    }
}

// The output is handed out, and the poll ends.
pub(crate) struct HandingOut;

impl Script for HandingOut {
    ghost acts = { handing_out };
}

// The clone of the caller's awaiter was refused, and the poll ends.
pub(crate) struct Refusing;

impl Script for Refusing {
    ghost acts = { refusing };
}

// The awaiter slot is taken to store the clone, unless a notifier is there.
pub(crate) struct BeginningRegister;

impl Change for BeginningRegister {
    type Row = ();

    ghost attempt = { to_begin_register };

    fn next(word: Word, limit: u64) -> Option<(Word, ())> {
        let _ = limit;
        let next = word.by_row(0, BeginRegister)?;
        Some((next, ()))
    }

    fn is_end(word: Word, limit: u64) -> bool {
        let _ = limit;
        word.notifying()
    }
}

// The awaiter slot is given back, with the clone in it, unless a notifier came meanwhile: then the clone is taken back.
pub(crate) struct EndingRegister;

impl Change for EndingRegister {
    type Row = ();

    ghost attempt = { to_end_register };

    fn next(word: Word, limit: u64) -> Option<(Word, ())> {
        let _ = limit;
        let next = word.by_row(0, EndRegister)?;
        Some((next, ()))
    }

    fn is_end(word: Word, limit: u64) -> bool {
        let _ = limit;
        word.notifying()
    }
}

// The awaiter slot is given back empty, since a notifier came meanwhile.
pub(crate) struct EndingNotified;

impl Script for EndingNotified {
    ghost acts = { ending_notified };
}

impl<R: Drop, F: Yields, Q: Drop, M: Drop, A: Drop, B: Allocator + Copy> Share<R, F, Q, M, A, B> {
    /// Writes down that the poll has ended. It is no step.
    pub fn end_poll(&self, party: &mut Party<F, Kept<F>, A>)
        requires cell { IsOf self.now party.old }
        requires party { (i : ℕ) × (answer : PollAnswer) × Stands (Answering i answer) party.old }
        ensures { Did (act EndCall ∷ []) (as_task (poll_number (position party.old))) party.old party.new }
    {
        self.ledger().note::<Ending>(party);
    }
    /// The first look of a poll, by at most 2^64 - 1 tries. It takes the output where it is there, and answers with the word that it was taken on; the error is a word without an output. `None` where each try has missed.
    pub fn look_some(&self, party: &mut Party<F, Kept<F>, A>) -> Option<Result<Word, Word>>
        requires cell { IsOf self.now party.old }
        requires party { (n : ℕ) × Stands (as_task n) party.old }
        ensures path { IfSome result (λ found. Looks (values_in self.now) party.old party.new found) }
        ensures ended { saw_ended (deeds party.old) ≡ true → IfSome result (λ found. (w : State) × (found ≡ Err w) × (has_ended_word w ≡ true)) }
        ensures missed { IfNone result (HasMissed (2 ^ 64 - 1) party.new.seat.me) }
    {
        self.alter_some::<Looking>(party)
    }

    /// The look of a poll that has registered, by at most 2^64 - 1 tries. It takes the output where it is there, and ends the poll where it has to wait. `None` where each try has missed.
    pub fn look_again_some(&self, party: &mut Party<F, Kept<F>, A>) -> Option<Result<Word, Word>>
        requires cell { IsOf self.now party.old }
        requires party { (i : ℕ) × Stands (LookingAt i) party.old }
        ensures path { IfSome result (λ found. LooksAgain (values_in self.now) party.old party.new found) }
        ensures missed { IfNone result (HasMissed (2 ^ 64 - 1) party.new.seat.me) }
    {
        self.alter_some::<LookingAgain>(party)
    }

    /// Writes down that the clone was refused, and that the poll ends so. It is no step.
    pub fn note_refused(&self, party: &mut Party<F, Kept<F>, A>)
        requires cell { IsOf self.now party.old }
        requires party { (i : ℕ) × Stands (Registrar i) party.old }
        ensures { Did (act RefuseClone ∷ act EndCall ∷ []) (as_task (poll_number (position party.old))) party.old party.new }
    {
        self.ledger().note::<Refusing>(party);
    }

    /// Writes down that the clone which a notifier made useless is dropped. It is no step.
    pub fn note_clone_dropped(&self, party: &mut Party<F, Kept<F>, A>)
        requires cell { IsOf self.now party.old }
        requires party { (i : ℕ) × Stands (UnusedClone i) party.old }
        ensures { Did (act DropAwaiter ∷ []) (LookingAt (poll_number (position party.old))) party.old party.new }
    {
        self.ledger().note::<Dropping>(party);
    }

    /// Writes down that the clone which was taken out again is woken. It is no step.
    pub fn note_clone_woken(&self, party: &mut Party<F, Kept<F>, A>)
        requires cell { IsOf self.now party.old }
        requires party { (i : ℕ) × Stands (CloneInHand i) party.old }
        ensures { Did (act WakeAwaiter ∷ []) (LookingAt (poll_number (position party.old))) party.old party.new }
    {
        self.ledger().note::<Waking>(party);
    }

    /// Puts the clone into the awaiter slot: the older awaiter that stood there, if one did.
    pub fn put_clone(
        &self,
        party: &mut Party<F, Kept<F>, A>,
        clone: Held<StoredAwaiter<A>>,
    ) -> Option<Held<StoredAwaiter<A>>>
        requires cell { IsOf self.now party.old }
        requires party { (i : ℕ) × (hand : Option ℕ) × (y : Option _) × StandsWith (after_storing i hand) (awaiter_first y []) party.old × Waits hand y }
        ensures { (i : ℕ) (hand : Option ℕ) (y : Option _) → StandsWith (after_storing i hand) (awaiter_first y []) party.old → Waits hand y → PutsClone i hand clone.value party.old party.new result }
    {
        put_awaiter(&self.block, &mut party.seat, clone)
    }

    /// Writes down that the older awaiter is dropped. It is no step.
    pub fn note_old_dropped(&self, party: &mut Party<F, Kept<F>, A>)
        requires cell { IsOf self.now party.old }
        requires party { (i : ℕ) × (old : ℕ) × (clone : _) × StandsWith (OldAwaiterInHand i old) (awaiter_first (Some clone) []) party.old }
        ensures { DidWith (act DropAwaiter ∷ []) (Registered (poll_number (position party.old))) (places_of party.old) party.old party.new }
    {
        self.ledger().note::<Dropping>(party);
    }

    // Puts the clone into the awaiter slot, and drops what stood there.
    fn store(&self, party: &mut Party<F, Kept<F>, A>, clone: Held<StoredAwaiter<A>>)
        requires cell { IsOf self.now party.old }
        requires party { (i : ℕ) × (hand : Option ℕ) × (y : Option _) × StandsWith (after_storing i hand) (awaiter_first y []) party.old × Waits hand y }
        ensures { (stood : Bool) × DidWith (dropped_if stood) (Registered (poll_number (position party.old))) (awaiter_first (Some clone.value) []) party.old party.new }
    {
        if let Some(old) = self.put_clone(party, clone) {
            self.note_old_dropped(party);
            old.discard();
        }
    }

    /// Takes the clone out again, since a notifier came, and gives the awaiter slot back: a single fetch, never tried again. A notifier stays while the slot is the Task's.
    pub fn take_back(&self, party: &mut Party<F, Kept<F>, A>) -> Held<StoredAwaiter<A>>
        requires cell { IsOf self.now party.old }
        requires party { (i : ℕ) × (clone : _) × StandsWith (TookBack i) (awaiter_first (Some clone) []) party.old }
        ensures same { places_of party.old ≡ awaiter_first (Some result.value) [] }
        ensures path { (v : State) × (v.notifying ≡ true) × Did (row EndRegisterNotified v ∷ []) (CloneInHand (poll_number (position party.old))) party.old party.new }
    {
        let Some(clone) = take_awaiter(&self.block, &mut party.seat) else {
            unreachable!()
        };
        self.fetch_and::<EndingNotified>(party, !(AWAITER | REGISTERING | NOTIFYING));
        clone
    }
    /// Takes the awaiter slot, by at most 2^64 - 1 tries, and answers whether it did: it does not where there is a notifier. `None` where each try has missed.
    pub fn begin_register_some(&self, party: &mut Party<F, Kept<F>, A>) -> Option<bool>
        requires cell { IsOf self.now party.old }
        requires party { (i : ℕ) × Stands (Registrar i) party.old }
        ensures path { IfSome result (λ began. BeginsRegister party.old party.new began) }
        ensures missed { IfNone result (HasMissed (2 ^ 64 - 1) party.new.seat.me) }
    {
        match self.alter_some::<BeginningRegister>(party)? {
            Ok(()) => Some(true),
            Err(_) => Some(false),
        }
    }

    /// Gives the awaiter slot back with the clone in it, by at most 2^64 - 1 tries, and answers whether it did: where there is a notifier, the clone is to be taken out again. `None` where each try has missed.
    pub fn end_register_some(&self, party: &mut Party<F, Kept<F>, A>) -> Option<bool>
        requires cell { IsOf self.now party.old }
        requires party { (i : ℕ) × (clone : _) × StandsWith (Registered i) (awaiter_first (Some clone) []) party.old × (stored_by clone ≡ i) }
        ensures path { IfSome result (λ ended. EndsRegister party.old party.new ended) }
        ensures missed { IfNone result (HasMissed (2 ^ 64 - 1) party.new.seat.me) }
    {
        match self.alter_some::<EndingRegister>(party)? {
            Ok(()) => Some(true),
            Err(_) => Some(false),
        }
    }

    /// Hands the output out, and ends the poll. One load.
    pub fn hand_out(&self, party: &mut Party<F, Kept<F>, A>) -> Held<Kept<F>>
        requires cell { IsOf self.now party.old }
        requires party { (i : ℕ) × (z : Slot F _) × StandsWith (TookOutput i) (work_first z []) party.old × IsOutput (values_in self.now) z }
        ensures path { Did (act HandOutOutput ∷ act EndCall ∷ []) (as_task (poll_number (position party.old))) party.old party.new }
        ensures yielded { HasYielded self.now result.value.output }
    {
        let output = take_work(&self.block, &mut party.seat).into_output();
        self.load::<HandingOut>(party);
        output
    }
}

impl<R: Wait + Drop + Copy, F: Yields, Q: Drop, M: Drop, A: Drop, B: Allocator + Copy> Share<
    R,
    F,
    Q,
    M,
    A,
    B,
> {
    // The first look of a poll, which takes the output where it is there. It answers with the word that it was taken on; the error is a word without an output.
    fn look(&self, party: &mut Party<F, Kept<F>, A>) -> Result<Word, Word>
        requires cell { IsOf self.now party.old }
        requires party { (n : ℕ) × Stands (as_task n) party.old }
        ensures path { Looks (values_in self.now) party.old party.new result }
        ensures ended { saw_ended (deeds party.old) ≡ true → (w : State) × (result ≡ Err w) × (has_ended_word w ≡ true) }
    {
        self.change::<Looking>(party)
    }

    // The look of a poll that has registered, which takes the output where it is there, and ends the poll where it has to wait.
    fn look_again(&self, party: &mut Party<F, Kept<F>, A>) -> Result<Word, Word>
        requires cell { IsOf self.now party.old }
        requires party { (i : ℕ) × Stands (LookingAt i) party.old }
        ensures { LooksAgain (values_in self.now) party.old party.new result }
    {
        self.change::<LookingAgain>(party)
    }
}

impl<R: Wait + Drop + Copy, F: Yields, Q: Drop, M: Drop, A: Wake, B: Allocator + Copy> Share<
    R,
    F,
    Q,
    M,
    A,
    B,
> {
    // Answers ready without output: takes the stored awaiter, and ends the poll.
    fn answer_closed(&self, party: &mut Party<F, Kept<F>, A>, awaiter: &LentAwaiter<'_, A>)
        requires cell { IsOf self.now party.old }
        requires party { (i : ℕ) × Stands (Notifier (OfPoll i)) party.old }
        ensures { (taken : List Deed) × TakePath A.woken A.compared awaiter.now.awaiter.now taken × Did (taken ++ (act EndCall ∷ [])) (as_task (poll_number (position party.old))) party.old party.new }
    {
        self.take_awaiter(party, awaiter);
        self.end_poll(party);
    }

    // Looks again, after the awaiter was registered, and answers by what it finds.
    fn answer(
        &self,
        party: &mut Party<F, Kept<F>, A>,
        awaiter: &LentAwaiter<'_, A>,
    ) -> TaskPoll<Option<Kept<F>>>
        requires cell { IsOf self.now party.old }
        requires party { (i : ℕ) × Stands (LookingAt i) party.old }
        ensures path { (path : List Deed) × AnswerPath A.woken A.compared awaiter.now.awaiter.now path result × Did path (as_task (poll_number (position party.old))) party.old party.new }
        ensures yielded { IfHandedOut result (λ kept. HasYielded self.now kept.output) }
    {
        match self.look_again(party) {
            Ok(found) => {
                let output = self.take_output(party, awaiter, found);
                TaskPoll::Ready(Some(output.hand_out()))
            }
            Err(found) => {
                if has_to_wait(found) {
                    return TaskPoll::Pending;
                }
                self.answer_closed(party, awaiter);
                TaskPoll::Ready(None)
            }
        }
    }

    // A poll, of the awaiter as its parts have it.
    fn poll_lent(
        &self,
        party: &mut Party<F, Kept<F>, A>,
        awaiter: &LentAwaiter<'_, A>,
        once: OneWake,
    ) -> TaskPoll<Option<Kept<F>>>
        requires cell { IsOf self.now party.old }
        requires party { (n : ℕ) × Stands (as_task n) party.old }
        ensures path { (path : List Deed) × PollPath A.cloned A.woken A.woken_by_ref A.compared awaiter.now.awaiter.now path result × Did path (as_task (poll_number (position party.old))) party.old party.new }
        ensures yielded { IfHandedOut result (λ kept. HasYielded self.now kept.output) }
        ensures ended { saw_ended (deeds party.old) ≡ true → result ≡ TaskPoll.Ready None }
        ensures closed { result ≡ TaskPoll.Ready None → saw_ended (deeds party.new) ≡ true }
        ensures registered { result ≡ TaskPoll.Pending → Registration A.Wake awaiter.now.awaiter.now party.old party.new }
    {
        let found = match self.look(party) {
            Ok(found) => {
                once.give_up();
                let output = self.take_output(party, awaiter, found);
                return TaskPoll::Ready(Some(output.hand_out()));
            }
            Err(found) => found,
        };
        if has_ended(found) {
            once.give_up();
            self.answer_closed(party, awaiter);
            return TaskPoll::Ready(None);
        }
        if !self.register(party, awaiter, once) {
            return TaskPoll::Refused;
        }
        self.answer(party, awaiter)
    }

    /// Answers with the output, once there is one, or without one, where the task was closed and its future is gone.
    ///
    /// Where there is no answer yet, a clone of the awaiter is registered in the place of the one before, and is woken once there is one.
    /// The output is one that the spawned future has answered, after polls that answered Pending, and it meets what the future's type states.
    /// A poll that answers Pending has stored that clone, as the one of its number, or has woken the awaiter, or a clone of it.
    /// A poll registers at most once. It waits for nobody, but tries a step anew where another party changed the word meanwhile.
    /// Once it has answered ready without output, each later poll answers the same.
    pub fn poll(&self, party: &mut Party<F, Kept<F>, A>, awaiter: &A) -> TaskPoll<Option<Kept<F>>>
        requires cell { IsOf self.now party.old }
        requires party { (n : ℕ) × Stands (as_task n) party.old }
        ensures path { (path : List Deed) × PollPath A.cloned A.woken A.woken_by_ref A.compared awaiter.now path result × Did path (as_task (poll_number (position party.old))) party.old party.new }
        ensures yielded { IfHandedOut result (λ kept. HasYielded self.now kept.output) }
        ensures ended { saw_ended (deeds party.old) ≡ true → result ≡ TaskPoll.Ready None }
        ensures closed { result ≡ TaskPoll.Ready None → saw_ended (deeds party.new) ≡ true }
        ensures registered { result ≡ TaskPoll.Pending → Registration A.Wake awaiter.now party.old party.new }
    {
        let (lent, once) = LentAwaiter::new(awaiter);
        self.poll_lent(party, &lent, once)
    }

    // Takes the awaiter slot, and answers whether it did: it does not where there is a notifier.
    fn begin_register(&self, party: &mut Party<F, Kept<F>, A>) -> bool
        requires cell { IsOf self.now party.old }
        requires party { (i : ℕ) × Stands (Registrar i) party.old }
        ensures { BeginsRegister party.old party.new result }
    {
        match self.change::<BeginningRegister>(party) {
            Ok(_) => true,
            Err(_) => false,
        }
    }

    // Gives the awaiter slot back with the clone in it, and answers whether it did: where there is a notifier, the clone is to be taken out again.
    fn end_register(&self, party: &mut Party<F, Kept<F>, A>) -> bool
        requires cell { IsOf self.now party.old }
        requires party { (i : ℕ) × (clone : _) × StandsWith (Registered i) (awaiter_first (Some clone) []) party.old × (stored_by clone ≡ i) }
        ensures { EndsRegister party.old party.new result }
    {
        match self.change::<EndingRegister>(party) {
            Ok(_) => true,
            Err(_) => false,
        }
    }

    // Registers a clone of the caller's awaiter, or wakes one where a notifier came before or meanwhile.
    fn register_clone(
        &self,
        party: &mut Party<F, Kept<F>, A>,
        awaiter: &LentAwaiter<'_, A>,
        once: OneWake,
        clone: Held<StoredAwaiter<A>>,
    )
        requires cell { IsOf self.now party.old }
        requires party { (i : ℕ) × Stands (Registrar i) party.old }
        requires cloned { A.cloned awaiter.now.awaiter.now (Ok clone.value.awaiter) }
        requires number { stored_by clone.value ≡ poll_number (position party.old) }
        ensures { (path : List Deed) × RegisterPath A.cloned A.woken A.woken_by_ref awaiter.now.awaiter.now path × Did path (LookingAt (poll_number (position party.old))) party.old party.new × Registration A.Wake awaiter.now.awaiter.now party.old party.new }
    {
        if !self.begin_register(party) {
            awaiter.wake(once, party);
            self.note_clone_dropped(party);
            return clone.discard();
        }
        once.give_up();
        self.store(party, clone);
        if !self.end_register(party) {
            let taken = self.take_back(party);
            self.note_clone_woken(party);
            taken.wake();
        }
    }

    // Registers the caller's awaiter, and answers whether it did: a clone that is refused ends the poll.
    pub(crate) fn register(
        &self,
        party: &mut Party<F, Kept<F>, A>,
        awaiter: &LentAwaiter<'_, A>,
        once: OneWake,
    ) -> bool
        requires cell { IsOf self.now party.old }
        requires party { (i : ℕ) × Stands (Registrar i) party.old }
        ensures { Registers A.cloned A.woken A.woken_by_ref awaiter.now.awaiter.now (Registration A.Wake awaiter.now.awaiter.now party.old party.new) party.old party.new result }
    {
        match awaiter.try_clone(party) {
            Ok(clone) => {
                self.register_clone(party, awaiter, once, clone);
                true
            }
            Err(_) => {
                once.give_up();
                self.note_refused(party);
                false
            }
        }
    }

    // Takes the stored awaiter, and wakes it, unless its wake wakes the caller.
    pub(crate) fn take_awaiter(
        &self,
        party: &mut Party<F, Kept<F>, A>,
        awaiter: &LentAwaiter<'_, A>,
    )
        requires cell { IsOf self.now party.old }
        requires party { (way : NotifyingCall) × (held : List (ℕ × TaskPlace F _ _)) × StandsWith (Notifier way) held party.old × (may_drop way ≡ true) }
        ensures { (path : List Deed) × TakePath A.woken A.compared awaiter.now.awaiter.now path × DidWith path (after_waking (way_of (position party.old))) (places_of party.old) party.old party.new }
    {
        if let Some(taken) = self.notify(party) {
            if awaiter.is_woken_by(&taken) {
                self.ledger().note_dropped(party);
                taken.discard();
            } else {
                self.ledger().note_woken(party);
                taken.wake();
            }
        }
    }

    // Takes the stored awaiter where the word that was found says that there is one.
    fn take_awaiter_of(
        &self,
        party: &mut Party<F, Kept<F>, A>,
        awaiter: &LentAwaiter<'_, A>,
        found: Word,
    )
        requires cell { IsOf self.now party.old }
        requires party { (i : ℕ) × (held : List (ℕ × TaskPlace F _ _)) × StandsWith (notifies found.awaiter (OfClaim i)) held party.old }
        ensures { (path : List Deed) × TakePathIf A.woken A.compared awaiter.now.awaiter.now found.awaiter path × DidWith path (TookOutput (poll_number (position party.old))) (places_of party.old) party.old party.new }
    {
        if found.awaiter() {
            self.take_awaiter(party, awaiter);
        }
    }

    // Takes the stored awaiter where there is one, and hands out the output that a look has taken on this word.
    pub(crate) fn take_output(
        &self,
        party: &mut Party<F, Kept<F>, A>,
        awaiter: &LentAwaiter<'_, A>,
        found: Word,
    ) -> Held<Kept<F>>
        requires cell { IsOf self.now party.old }
        requires party { (i : ℕ) × (z : Slot F _) × StandsWith (notifies found.awaiter (OfClaim i)) (work_first z []) party.old × IsOutput (values_in self.now) z }
        ensures path { (taken : List Deed) × TakePathIf A.woken A.compared awaiter.now.awaiter.now found.awaiter taken × Did (taken ++ (act HandOutOutput ∷ act EndCall ∷ [])) (as_task (poll_number (position party.old))) party.old party.new }
        ensures yielded { HasYielded self.now result.value.output }
    {
        self.take_awaiter_of(party, awaiter, found);
        self.hand_out(party)
    }
}

impl<F, T, A> Party<F, T, A> {
    /// What the poll of this party is to store.
    pub fn to_store(&self, awaiter: A) -> Held<StoredAwaiter<A>>
        ensures awaiter { result.value.awaiter ≡ awaiter }
        ensures number { stored_by result.value ≡ poll_of self.now.seat.me.0 }
    {
        Held::new(StoredAwaiter::new(awaiter, &self.seat))
    }
}
