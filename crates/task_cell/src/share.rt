//! A share of a cell: what it shows, what a step leaves of it, the private acts of a call, a hold, and the end of the last share.
ghost use Rattle.std.specs.Prelude.{◌≡◌, true, false, ℕ, ◌∷◌, [], List, IfSome, not, Option, None};
ghost use Rattle.task_core.specs.Word.{HasRoom, State, is_open, state_of};
ghost use Rattle.task_core.specs.declared.acts.Act.TheVariants.{WakeAwaiter, DropAwaiter, EndCall, LookFinished, CloseOrphan, EmptySlots};
ghost use Rattle.task_laws.specs.Table.{after_waking, may_drop, after_giving_up};
ghost use Rattle.task_laws.specs.declared.positions.Answer.{Answer};
ghost use Rattle.task_laws.specs.declared.positions.Answer.TheVariants.{Nothing};
ghost use Rattle.task_laws.specs.declared.positions.NotifyingCall.{NotifyingCall};
ghost use Rattle.task_laws.specs.declared.positions.Position.{Position};
ghost use Rattle.task_laws.specs.declared.positions.Position.TheVariants.{AwaiterInHand, CallEnding, Emptier, OrphanHolder};
ghost use Rattle.task_laws.specs.declared.positions.Rest.{Rest};
ghost use Rattle.task_steps.specs.Beside.{borrowing};
ghost use Rattle.task_steps.specs.Deeds.{act, row};
ghost use Rattle.task_steps.specs.Held.{held};
ghost use Rattle.task_steps.specs.Rule.{TaskPlace, IsEmpty, Waits, view, fresh};
ghost use Rattle.task_steps.specs.RunScripts.{emptying};
ghost use Rattle.task_steps.specs.Scripts.{ending, waking, dropping};
ghost use Rattle.task_steps.specs.Seats.{is_spent};
ghost use Rattle.task_steps.specs.Shares.{has_emptied};
ghost use Rattle.task_steps.specs.Standing.{rest_of, way_of, as_lent, as_task, as_deliverer, as_ended};
ghost use Rattle.task_steps.specs.Steps.{Makes, saw_over, awaiter_first};
ghost use Rattle.task_steps.specs.TaskScripts.{looking_finished};
ghost use Rattle.task_steps.specs.Values.{values_of};
ghost use Rattle.task_steps.specs.WakerScripts.{closing_orphan};
ghost use Rattle.task_steps.specs.Witness.{witnessed, Witness};
ghost use Rattle.task_cell.specs.Belongs.{Leaves, IsBeside, IsOf, limit_in, IsOfLast};
ghost use Rattle.task_cell.specs.Calls.{Did, DidWith, MayNote, Stands, StandsWith, places_of, position, deeds};
ghost use Rattle.task_cell.specs.RunCalls.{HasTaken, Wakes};
ghost use Rattle.task_cell.specs.Witnessed.{Witnesses, LastWordIf};
ghost use Rattle.task_cell.specs.Woken.{WokeStored};

use crate::cell::{Cell, CellHold, EndedCall, LastShare, MaybeShare, Party, Share};
use counted_block::{BlockPlay, Inner};
use std::alloc::Allocator;
use std::sync::Wait;
use task_core::word::{CLOSED, REFERENCE, SCHEDULED, Word};
use task_core::{Wake, Yields};
use task_steps::Knowing;
use task_steps::places::{Held, take_last_awaiter};
use task_steps::script::Script;
use task_steps::table::{BlockLedger, Kept, Slot, StoredAwaiter, TaskPlace, View};

// Who has a waker by reference gets a party of its own, by a seat of its own.
pub(crate) struct Borrowing;

impl<F, T, A, K> BlockPlay<TaskPlace<F, T, A>, View, K> for Borrowing {
    ghost then = { λ _. borrowing };
}

// The last waker closes the task that nobody has.
pub(crate) struct ClosingOrphan;

impl Script for ClosingOrphan {
    ghost acts = { closing_orphan };
}

// A call ends.
pub(crate) struct Ending;

impl Script for Ending {
    ghost acts = { ending };
}

// The awaiter in hand is woken.
pub(crate) struct Waking;

impl Script for Waking {
    ghost acts = { waking };
}

// The awaiter in hand is dropped.
pub(crate) struct Dropping;

impl Script for Dropping {
    ghost acts = { dropping };
}

// The last party has emptied the place of the awaiter.
pub(crate) struct Emptying;

impl Script for Emptying {
    ghost acts = { emptying };
}

// It changes nothing, and tells what the rule says of the party that looks.
pub(crate) struct Witnessing;

impl<F, T, A, K> BlockPlay<TaskPlace<F, T, A>, View, K> for Witnessing {
    ghost then = { λ _. witnessed };
}

// The load of `is_finished`.
pub(crate) struct LookingFinished;

impl Script for LookingFinished {
    ghost acts = { looking_finished };
}

impl<R, F: Yields, Q, M, A, B: Allocator + Copy> Share<R, F, Q, M, A, B> {
    /// What all handles of the task see.
    pub fn cell(&self) -> &Cell<R, Q, M, B>
        ensures { result.now ≡ self.now.block.value }
    {
        self.block.value()
    }

    /// What the builder was given as metadata. It waits for nobody.
    pub fn metadata(&self) -> &M
        ensures { result.now ≡ self.now.block.value.metadata }
    {
        &self.cell().metadata
    }

    /// What notes the private acts of a call, also once the share is given up.
    pub fn ledger(&self) -> Ledger<R, F, Q, M, A, B>
        ensures { result.ledger.id ≡ self.now.block.id }
    {
        Ledger {
            ledger: self.block.ledger(),
        }
    }

    /// The share as what a step may have made or left: it is there.
    pub fn into_maybe(self) -> MaybeShare<R, F, Q, M, A, B>
        ensures { Leaves self result true }
    {
        let Share { block } = self;
        MaybeShare {
            maybe: block.into_maybe(),
        }
    }

    /// What a step leaves where it leaves no share: it is not there. A call by reference keeps its record with it.
    pub fn gone(&self) -> MaybeShare<R, F, Q, M, A, B>
        ensures { Leaves self.now result false }
    {
        MaybeShare {
            maybe: self.block.gone(),
        }
    }

    // Gives the share of a lent waker up, which nobody takes back: the cell stays for ever.
    pub(crate) fn leak(self) {
        let Share { block } = self;
        block.leak();
    }

    /// The word as one load finds it, and an interleaving of the machine that ends in it, in which this party did last what it knows. Nothing changes. It waits for nobody.
    pub fn witness(&self, party: &mut Party<F, Kept<F>, A>) -> Word
        requires cell { IsOf self.now party.old }
        requires party { (at : Position) × (held : List (ℕ × TaskPlace F _ A)) × StandsWith at held party.old }
        ensures witness { Witnesses party.old result }
        ensures same { party.new ≡ party.old }
    {
        Word::from_bits(self.block.load::<Witnessing>(&mut party.seat))
    }
}

impl<R, F: Yields, Q, M, A, B: Allocator + Copy> MaybeShare<R, F, Q, M, A, B> {
    /// The share, where the step made or left one.
    pub fn share(self) -> Share<R, F, Q, M, A, B>
        requires there { self.maybe.there ≡ true }
        ensures { (result.block.id ≡ self.maybe.id) × (result.block.key ≡ self.maybe.key) × (result.block.value ≡ self.maybe.value) }
    {
        let MaybeShare { maybe } = self;
        Share {
            block: maybe.share(),
        }
    }

    /// The last share, where the step left it.
    pub fn last(self) -> LastShare<R, F, Q, M, A, B>
        requires last { (self.maybe.there ≡ false) × (self.maybe.last ≡ true) }
        ensures { (result.block.id ≡ self.maybe.id) × (result.block.key ≡ self.maybe.key) × (result.block.value ≡ self.maybe.value) }
    {
        let MaybeShare { maybe } = self;
        LastShare {
            block: maybe.last(),
        }
    }

    /// There is none: the party may note what it does next, and no more.
    pub fn none(self) -> Ledger<R, F, Q, M, A, B>
        requires there { self.maybe.there ≡ false }
        requires last { self.maybe.last ≡ false }
        ensures { result.ledger.id ≡ self.maybe.id }
    {
        let MaybeShare { maybe } = self;
        Ledger {
            ledger: maybe.none(),
        }
    }
}

/// What notes private acts of the parties of a cell. It has no bytes, and keeps no memory.
#[derive(Drop)]
pub struct Ledger<R, F: Yields, Q, M, A, B: Allocator> {
    pub(crate) ledger: BlockLedger<F, A, Cell<R, Q, M, B>, B>,
}

impl<R, F: Yields, Q, M, A, B: Allocator> Ledger<R, F, Q, M, A, B> {
    // Notes private acts. It is no step.
    pub(crate) fn note<S: Script>(&self, party: &mut Party<F, Kept<F>, A>)
        requires cell { IsBeside self.now party.old }
        requires allowed { MayNote (values_of F.Yields self.now.ledger.key.future.value) self.now.ledger.key.limit S.acts party.old }
        ensures cell { party.new.seat.block ≡ party.old.seat.block }
        ensures made { (w : State) × Makes (values_of F.Yields self.now.ledger.key.future.value) (S.acts w) w party.old.seat.me party.new.seat.me }
    {
        self.ledger.note::<Knowing<S>>(&mut party.seat);
    }

    /// Writes down that the call has ended.
    pub fn end(&self, party: &mut Party<F, Kept<F>, A>)
        requires cell { IsBeside self.now party.old }
        requires party { (answer : Answer) × (r : Rest) × Stands (CallEnding answer r) party.old }
        ensures { Did (act EndCall ∷ []) (rest_of (position party.old)) party.old party.new }
    {
        self.note::<Ending>(party);
    }

    /// Writes down that the awaiter in hand is woken.
    pub fn note_woken(&self, party: &mut Party<F, Kept<F>, A>)
        requires cell { IsBeside self.now party.old }
        requires party { (i : ℕ) × (way : NotifyingCall) × (held : List (ℕ × TaskPlace F _ A)) × StandsWith (AwaiterInHand i way) held party.old }
        ensures { DidWith (act WakeAwaiter ∷ []) (after_waking (way_of (position party.old))) (places_of party.old) party.old party.new }
    {
        self.note::<Waking>(party);
    }

    // Writes down that the awaiter in hand is dropped.
    pub(crate) fn note_dropped(&self, party: &mut Party<F, Kept<F>, A>)
        requires cell { IsBeside self.now party.old }
        requires party { (i : ℕ) × (way : NotifyingCall) × (held : List (ℕ × TaskPlace F _ A)) × StandsWith (AwaiterInHand i way) held party.old × (may_drop way ≡ true) }
        ensures { DidWith (act DropAwaiter ∷ []) (after_waking (way_of (position party.old))) (places_of party.old) party.old party.new }
    {
        self.note::<Dropping>(party);
    }

    /// The record of the call of a party that is alone on its seat, and has ended by it, or was lent for it. It is no step, and holds also once the share is given up.
    pub fn record(&self, mut party: Party<F, Kept<F>, A>) -> EndedCall<F, Kept<F>, A>
        requires cell { IsBeside self.now party }
        requires party { (at : Position) × Stands at party }
        requires spent { is_spent party.seat.me.0 ≡ true }
        ensures { result.party ≡ party }
    {
        self.ledger.note::<Witnessing>(&mut party.seat);
        EndedCall { party }
    }
}

impl<R, F: Yields, Q, M, A: Wake, B: Allocator> Ledger<R, F, Q, M, A, B> {
    // Wakes the awaiter that was taken. The act stands in the list before the awaiter is called.
    pub(crate) fn wake_taken(
        &self,
        party: &mut Party<F, Kept<F>, A>,
        awaiter: Option<Held<StoredAwaiter<A>>>,
    )
        requires cell { IsBeside self.now party.old }
        requires party { (way : NotifyingCall) × HasTaken way party.old (held awaiter) }
        ensures { (way : NotifyingCall) → HasTaken way party.old (held awaiter) → Wakes (WokeStored A.woken) way (held awaiter) party.old party.new }
    {
        if let Some(awaiter) = awaiter {
            self.note_woken(party);
            awaiter.wake();
        }
    }
}

impl<R: Drop, F: Yields, Q: Drop, M: Drop, A: Drop, B: Allocator + Copy> Share<R, F, Q, M, A, B> {
    /// A hold of the cell, by one step beside the word. None where there are 2^63 - 1 holds.
    pub fn hold_once(&self) -> Option<CellHold<R, F, Q, M, A, B>>
        ensures { IfSome result (λ hold. hold.hold.value ≡ self.now.block.value) }
    {
        let hold = self.block.hold()?;
        Some(CellHold { hold })
    }

    // The party of one call by reference, and the word that is found.
    #[inline(always)]
    pub(crate) fn borrow(&self) -> (Word, Party<F, Kept<F>, A>)
        ensures cell { IsOf self.now result.1 }
        ensures room { HasRoom result.0 }
        ensures party { result.1.seat.me ≡ (view (limit_in self.now) (fresh as_lent ∷ []), []) }
    {
        let (found, seat) = self.block.load_new_seat::<Borrowing>();
        (Word::from_bits(found), Party { seat })
    }

    // The same by who has a handle by reference, of the party that each such call gets.
    pub(crate) fn witness_by_reference(&self) -> Word
        ensures { Witness (limit_in self.now) result as_lent [] }
    {
        let (_, mut party) = self.borrow();
        let word = self.witness(&mut party);
        let Party { seat: _ } = party;
        word
    }

    /// Whether the task is completed or closed. It is one load, and waits for nobody.
    pub fn is_finished(&self, party: &mut Party<F, Kept<F>, A>) -> bool
        requires cell { IsOf self.now party.old }
        requires party { (n : ℕ) × Stands (as_task n) party.old }
        ensures path { (w : State) × Did (row LookFinished w ∷ act EndCall ∷ []) (position party.old) party.old party.new × (result ≡ not (is_open w)) }
        ensures seen { saw_over (deeds party.old) ≡ true → result ≡ true }
    {
        !self.load::<LookingFinished>(party).is_open()
    }

    /// The word as one load finds it. No party notes it, and the next moment it may be another; only a task that is over stays so. It waits for nobody.
    pub fn word(&self) -> Word {
        Word::from_bits(self.block.peek())
    }
}

impl<R: Wait + Drop + Copy, F: Yields, Q: Drop, M: Drop, A: Drop, B: Allocator + Copy> Share<
    R,
    F,
    Q,
    M,
    A,
    B,
> {
    // A hold of the cell. It tries again only where there are 2^63 - 1 holds.
    pub(crate) fn hold(&self) -> CellHold<R, F, Q, M, A, B>
        ensures { result.hold.value ≡ self.now.block.value }
    {
        for _ in self.cell().rt.forever() {
            if let Some(hold) = self.hold_once() {
                return hold;
            }
        }
        unreachable!()
    }
}

impl<R: Drop, F: Yields, Q: Drop, M: Drop, A: Drop, B: Allocator + Copy> CellHold<
    R,
    F,
    Q,
    M,
    A,
    B,
> {
    // What all handles of the task see.
    pub(crate) fn cell(&self) -> &Cell<R, Q, M, B>
        ensures { result.now ≡ self.now.hold.value }
    {
        self.hold.value()
    }

    /// Ends the hold, and the cell where nobody else keeps it, and answers whether the cell has ended.
    pub fn release(self) -> bool {
        let alloc = self.cell().alloc;
        let CellHold { hold } = self;
        match hold.release() {
            Some(bare) => {
                drop(bare.into_box(alloc));
                true
            }
            None => false,
        }
    }
}

/// The word of a task that nobody has: scheduled, closed, and with the reference of its last Runnable.
const ORPHAN: u64 = SCHEDULED | CLOSED | REFERENCE;

impl<R: Drop, F: Yields, Q: Drop, M: Drop, A: Drop, B: Allocator + Copy> LastShare<
    R,
    F,
    Q,
    M,
    A,
    B,
> {
    /// What a step leaves where it leaves no share, nor the last one: a call keeps its record with it.
    pub fn gone(&self) -> MaybeShare<R, F, Q, M, A, B>
        ensures { (result.maybe.there ≡ false) × (result.maybe.last ≡ false) }
    {
        MaybeShare {
            maybe: self.block.gone(),
        }
    }

    // Drops the awaiter in its place, which the party has in front, if one is there, and leaves none.
    fn clear_awaiter(&self, party: &mut Party<F, Kept<F>, A>)
        requires cell { IsOfLast self.now party.old }
        requires party { (at : Position) × (y : Option _) × (held : List (ℕ × TaskPlace F _ A)) × StandsWith at (awaiter_first y held) party.old }
        ensures { (at : Position) (y : Option _) (held : List (ℕ × TaskPlace F _ A)) → StandsWith at (awaiter_first y held) party.old → DidWith [] at (awaiter_first None held) party.old party.new }
    {
        if let Some(awaiter) = take_last_awaiter(&self.block, &mut party.seat) {
            awaiter.discard();
        }
    }

    // Writes down that the places are empty, and gives the awaiter's back. One load.
    fn note_emptied(&self, party: &mut Party<F, Kept<F>, A>)
        requires cell { IsOfLast self.now party.old }
        requires party { (hand : Option ℕ) × (answer : Answer) × StandsWith (Emptier hand answer) (awaiter_first None []) party.old }
        ensures { (hand : Option ℕ) (answer : Answer) → StandsWith (Emptier hand answer) (awaiter_first None []) party.old → Did (act EmptySlots ∷ []) (after_giving_up hand answer) party.old party.new }
    {
        self.block.load::<Knowing<Emptying>>(&mut party.seat);
    }

    /// Empties the place of the awaiter, as the last party, and gives it back by a load. Then its share ends, and the cell with it, unless a schedule call holds it: whether it has. The party goes on in its call: to the awaiter in hand, or to the end.
    pub fn empty(self, party: &mut Party<F, Kept<F>, A>) -> (Ledger<R, F, Q, M, A, B>, bool)
        requires cell { IsOfLast self party.old }
        requires party { (hand : Option ℕ) × (answer : Answer) × (y : Option _) × StandsWith (Emptier hand answer) (awaiter_first y []) party.old }
        ensures path { (hand : Option ℕ) (answer : Answer) (y : Option _) → StandsWith (Emptier hand answer) (awaiter_first y []) party.old → Did (act EmptySlots ∷ []) (after_giving_up hand answer) party.old party.new }
        ensures ledger { IsBeside result.0 party.new }
    {
        self.clear_awaiter(party);
        self.note_emptied(party);
        let ledger = Ledger {
            ledger: self.block.ledger(),
        };
        let word = self.close(party);
        (ledger, word.is_some())
    }

    // The last handle empties the places, and its call ends.
    pub(crate) fn empty_at_end(self, party: &mut Party<F, Kept<F>, A>)
        requires cell { IsOfLast self party.old }
        requires party { (y : Option _) × StandsWith (Emptier None Nothing) (awaiter_first y []) party.old }
        ensures { Did (act EmptySlots ∷ act EndCall ∷ []) as_ended party.old party.new }
    {
        let (ledger, _) = self.empty(party);
        ledger.end(party);
    }

    // Ends the last share, of a party that has emptied the places: the block, unless a schedule call holds it, which has it then. Neither future nor output nor awaiter is in it.
    fn end_block(
        self,
        party: &mut Party<F, Kept<F>, A>,
    ) -> Option<Inner<Slot<F, Kept<F>>, Option<StoredAwaiter<A>>, Cell<R, Q, M, B>>>
        requires cell { IsOfLast self party.old }
        requires party { (at : Position) × StandsWith at [] party.old }
        requires last { has_emptied (deeds party.old) ≡ true }
        ensures party { (party.new.seat.block ≡ party.old.seat.block) × (party.new.seat.me ≡ party.old.seat.me) }
        ensures word { IfSome result (λ inner. Witnesses party.old (state_of inner.word)) }
        ensures empty { IfSome result (λ inner. IsEmpty inner.first × Waits None inner.second) }
    {
        let LastShare { block } = self;
        let alloc = block.value().alloc;
        let whole = block.close(&mut party.seat)?.into_box(alloc);
        Some(Box::into_inner(whole))
    }

    // Ends the last share, of a party that has emptied the places. The cell ends too, unless a schedule call holds it. The last word, and what it means.
    fn close(self, party: &mut Party<F, Kept<F>, A>) -> Option<u64>
        requires cell { IsOfLast self party.old }
        requires party { (at : Position) × StandsWith at [] party.old }
        requires last { has_emptied (deeds party.old) ≡ true }
        ensures party { (party.new.seat.block ≡ party.old.seat.block) × (party.new.seat.me ≡ party.old.seat.me) }
        ensures word { LastWordIf result party.old }
    {
        let inner = self.end_block(party)?;
        let word = inner.word;
        drop(inner);
        Some(word)
    }

    /// Closes an open task, as its last waker, and schedules it once more: the share of its Runnable. Nobody else is left to change the word.
    pub fn close_orphan(self, party: &mut Party<F, Kept<F>, A>) -> Share<R, F, Q, M, A, B>
        requires cell { IsOfLast self party.old }
        requires party { Stands OrphanHolder party.old }
        ensures path { (v : State) × Did (row CloseOrphan v ∷ []) as_deliverer party.old party.new }
        ensures share { (result.block.id ≡ self.block.id) × (result.block.key ≡ self.block.key) × (result.block.value ≡ self.block.value) }
    {
        let LastShare { block } = self;
        let (_, block) = block.revive::<Knowing<ClosingOrphan>>(&mut party.seat, ORPHAN);
        Share { block }
    }
}
