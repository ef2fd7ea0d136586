//! The awaiter that a poll's caller lends to it, and the stored one, which whoever ends or closes the task takes out.
ghost use Rattle.std.specs.Prelude.{◌≡◌, ℕ, Ok, Err, IfOk, IfErr, ◌||◌, ◌∷◌, [], List, Option, true};
ghost use Rattle.task_core.specs.declared.acts.Act.TheVariants.{DropAwaiter, WakeAwaiter};
ghost use Rattle.task_laws.specs.Table.{after_waking, may_drop, notifies};
ghost use Rattle.task_laws.specs.declared.positions.NotifyingCall.{NotifyingCall};
ghost use Rattle.task_laws.specs.declared.positions.Position.TheVariants.{Registrar, UnusedClone, AwaiterInHand, Notifier, Releaser};
ghost use Rattle.task_steps.specs.Deeds.{act};
ghost use Rattle.task_steps.specs.Held.{held};
ghost use Rattle.task_steps.specs.Rule.{Waits, TaskPlace};
ghost use Rattle.task_steps.specs.Scripts.{taking_awaiter, releasing_awaiter};
ghost use Rattle.task_steps.specs.Standing.{poll_number, way_of};
ghost use Rattle.task_steps.specs.Steps.{awaiter_first};
ghost use Rattle.task_steps.specs.Stored.{stored_by};
ghost use Rattle.task_cell.specs.Belongs.{IsOf};
ghost use Rattle.task_cell.specs.Calls.{Stands, position, StandsWith, DidWith, Notifies, BeginsNotify, EndsNotify, places_of};
ghost use Rattle.task_cell.specs.RunCalls.{TakesDue};

use crate::cell::{Party, Share};
use std::alloc::Allocator;
use task_core::word::{AWAITER, NOTIFYING, Word};
use task_core::{Wake, Yields};
use task_steps::places::{Held, take_awaiter};
use task_steps::script::Script;
use task_steps::table::{Kept, StoredAwaiter};

// The awaiter slot is taken, and emptied, unless another party is at it.
pub(crate) struct TakingAwaiter;

impl Script for TakingAwaiter {
    ghost acts = { taking_awaiter };
}

// The awaiter slot is given back.
pub(crate) struct ReleasingAwaiter;

impl Script for ReleasingAwaiter {
    ghost acts = { releasing_awaiter };
}

/// A lent awaiter. It shows no reference to the awaiter, so that a poll wakes it by `wake` alone.
#[derive(Drop)]
pub(crate) struct LentAwaiter<'a, A> {
    awaiter: &'a A,
}

/// The one wake of a lent awaiter. It must be spent: the wake uses it up, or the poll gives it up.
pub(crate) struct OneWake {
    lent: (),
}

impl OneWake {
    // Nobody is woken.
    pub(crate) fn give_up(self) {
        let OneWake { lent: () } = self;
    }
}

impl<'a, A: Wake> LentAwaiter<'a, A> {
    // The awaiter as it is lent, and its one wake.
    pub(crate) fn new(awaiter: &'a A) -> (LentAwaiter<'a, A>, OneWake)
        ensures { result.0.awaiter.now ≡ awaiter.now }
    {
        (LentAwaiter { awaiter }, OneWake { lent: () })
    }

    // A clone, for the place of the awaiter, by the party of the poll.
    pub(crate) fn try_clone<F, T>(
        &self,
        party: &Party<F, T, A>,
    ) -> Result<Held<StoredAwaiter<A>>, A::Record>
        requires party { (i : ℕ) × Stands (Registrar i) party.now }
        ensures cloned { IfOk result (λ clone. A.cloned self.now.awaiter.now (Ok clone.value.awaiter)) }
        ensures number { IfOk result (λ clone. stored_by clone.value ≡ poll_number (position party.now)) }
        ensures refused { IfErr result (λ told. A.cloned self.now.awaiter.now (Err told)) }
    {
        match self.awaiter.try_clone() {
            Ok(clone) => Ok(party.to_store(clone)),
            Err(told) => Err(told),
        }
    }

    // Whether a wake of the awaiter that was taken wakes the caller.
    pub(crate) fn is_woken_by(&self, taken: &Held<StoredAwaiter<A>>) -> bool
        ensures { A.compared taken.now.value.awaiter self.now.awaiter.now result }
    {
        taken.will_wake(self.awaiter)
    }

    // Wakes the caller, where a notifier has made the clone useless. The record of the wake says so, and is dropped.
    pub(crate) fn wake<F, T>(&self, once: OneWake, party: &Party<F, T, A>)
        requires party { (i : ℕ) × Stands (UnusedClone i) party.now }
        ensures { (told : A.Record) × A.woken_by_ref self.now.awaiter.now told }
    {
        let _ = party;
        once.give_up();
        self.awaiter.wake_by_ref();
    }
}

// Whether a party is at the place of the awaiter.
fn is_taken(found: Word) -> bool
    ensures { result ≡ (found.notifying || found.registering) }
{
    found.notifying() || found.registering()
}

impl<R: Drop, F: Yields, Q: Drop, M: Drop, A: Drop, B: Allocator + Copy> Share<R, F, Q, M, A, B> {
    /// Takes the place of the stored awaiter, and answers whether it did: it does not where another party is at it. A single fetch, never tried again.
    pub fn begin_notify(&self, party: &mut Party<F, Kept<F>, A>) -> bool
        requires cell { IsOf self.now party.old }
        requires party { (way : NotifyingCall) × (held : List (ℕ × TaskPlace F _ A)) × StandsWith (Notifier way) held party.old }
        ensures { BeginsNotify party.old party.new result }
    {
        let found = self.fetch_or::<TakingAwaiter>(party, NOTIFYING);
        !is_taken(found)
    }

    /// Takes out what lies in the place of the awaiter, and gives the place back: a single fetch, never tried again. The awaiter, if there is one.
    pub fn end_notify(&self, party: &mut Party<F, Kept<F>, A>) -> Option<Held<StoredAwaiter<A>>>
        requires cell { IsOf self.now party.old }
        requires party { (hand : Option ℕ) × (way : NotifyingCall) × (y : Option _) × (held : List (ℕ × TaskPlace F _ A)) × StandsWith (Releaser hand way) (awaiter_first y held) party.old × Waits hand y }
        ensures { (hand : Option ℕ) (way : NotifyingCall) (y : Option _) (held : List (ℕ × TaskPlace F _ A)) → StandsWith (Releaser hand way) (awaiter_first y held) party.old → Waits hand y → EndsNotify hand way held party.old party.new result }
    {
        let awaiter = take_awaiter(&self.block, &mut party.seat);
        self.fetch_and::<ReleasingAwaiter>(party, !(NOTIFYING | AWAITER));
        awaiter
    }

    // Takes the stored awaiter, unless another party is at it.
    pub(crate) fn notify(&self, party: &mut Party<F, Kept<F>, A>) -> Option<Held<StoredAwaiter<A>>>
        requires cell { IsOf self.now party.old }
        requires party { (way : NotifyingCall) × (held : List (ℕ × TaskPlace F _ A)) × StandsWith (Notifier way) held party.old }
        ensures { Notifies party.old party.new (held result) }
    {
        if self.begin_notify(party) {
            self.end_notify(party)
        } else {
            None
        }
    }

    // Takes the stored awaiter where AWAITER was found.
    pub(crate) fn take_due(
        &self,
        party: &mut Party<F, Kept<F>, A>,
        due: bool,
    ) -> Option<Held<StoredAwaiter<A>>>
        requires cell { IsOf self.now party.old }
        requires party { (way : NotifyingCall) × Stands (notifies due way) party.old }
        ensures { (way : NotifyingCall) → Stands (notifies due way) party.old → TakesDue way due party.old party.new (held result) }
    {
        if due { self.notify(party) } else { None }
    }
    /// Writes down that the awaiter in hand is woken. It is no step.
    pub fn note_woken(&self, party: &mut Party<F, Kept<F>, A>)
        requires cell { IsOf self.now party.old }
        requires party { (i : ℕ) × (way : NotifyingCall) × (held : List (ℕ × TaskPlace F _ A)) × StandsWith (AwaiterInHand i way) held party.old }
        ensures { DidWith (act WakeAwaiter ∷ []) (after_waking (way_of (position party.old))) (places_of party.old) party.old party.new }
    {
        self.ledger().note_woken(party);
    }

    /// Writes down that the awaiter in hand is dropped, by a poll that is ready. It is no step.
    pub fn note_dropped(&self, party: &mut Party<F, Kept<F>, A>)
        requires cell { IsOf self.now party.old }
        requires party { (i : ℕ) × (way : NotifyingCall) × (held : List (ℕ × TaskPlace F _ A)) × StandsWith (AwaiterInHand i way) held party.old × (may_drop way ≡ true) }
        ensures { DidWith (act DropAwaiter ∷ []) (after_waking (way_of (position party.old))) (places_of party.old) party.old party.new }
    {
        self.ledger().note_dropped(party);
    }
}
