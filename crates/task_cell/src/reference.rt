//! A reference is gained, and given up: by a waker, and by a run or a Runnable that is dropped.
ghost use Rattle.std.specs.Prelude.{◌≡◌, ◌<◌, ◌-◌, ◌^◌, List, [], ◌∷◌, IfSome, IfOk, IfErr, false, ℕ, Option, not};
ghost use Rattle.task_core.specs.Word.{HasRoom};
ghost use Rattle.task_laws.specs.Table.{notifies};
ghost use Rattle.task_laws.specs.declared.positions.Answer.{Answer};
ghost use Rattle.task_laws.specs.declared.positions.NotifyingCall.TheVariants.{OfRun};
ghost use Rattle.task_laws.specs.declared.positions.Position.{Position};
ghost use Rattle.task_laws.specs.declared.positions.Position.TheVariants.{GivingUp};
ghost use Rattle.task_steps.specs.Attempts.{HasMissed};
ghost use Rattle.task_steps.specs.Rule.{view, fresh, TaskPlace};
ghost use Rattle.task_steps.specs.RunScripts.{giving_up};
ghost use Rattle.task_steps.specs.Standing.{as_waker, as_lent, as_ended};
ghost use Rattle.task_steps.specs.Steps.{work_first};
ghost use Rattle.task_steps.specs.WakerScripts.{dropped_by, dropping_waker, ends_waker, to_gain, others_left};
ghost use Rattle.task_steps.specs.declared.table.Deed.{Deed};
ghost use Rattle.task_steps.specs.declared.table.Slot.{Slot};
ghost use Rattle.task_steps.specs.declared.table.Slot.TheVariants.{Empty};
ghost use Rattle.task_cell.specs.Belongs.{HasMade, IsOf, cell_of, limit_in, IsBeside, LeavesBy};
ghost use Rattle.task_cell.specs.Calls.{Stands, limit_of, second, StandsWith, DidWith, Did};
ghost use Rattle.task_cell.specs.Gained.{HasFoundLimit, HasGained};
ghost use Rattle.task_cell.specs.Handed.{HandedOver};
ghost use Rattle.task_cell.specs.RunCalls.{GivesUp, Releases, Rests};
ghost use Rattle.task_cell.specs.WakerPaths.{Gains, GainPath, DropsWaker, WakerDropPath};
ghost use Rattle.task_cell.specs.Woken.{WokeStored};

use crate::attempt::Grip;
use crate::cell::{EndedCall, MaybeShare, Party, Share};
use crate::runnable::Runnable;
use crate::share::Ledger;
use crate::wake::Parting;
use std::alloc::Allocator;
use std::sync::Wait;
use task_core::acts::Act::GainReference;
use task_core::word::{REFERENCE, Word};
use task_core::{Schedule, Wake, Yields};
use task_steps::attempt::{Change, TriedOnce};
use task_steps::found::{Dropped, dropped_as, is_held, is_last};
use task_steps::places::{Content, take_work};
use task_steps::script::{Giving, Script};
use task_steps::table::Kept;

// A reference is gained, unless the count is at the limit.
pub(crate) struct Gaining;

impl Change for Gaining {
    type Row = ();

    ghost attempt = { to_gain };

    fn next(word: Word, limit: u64) -> Option<(Word, ())> {
        if !is_held(word) {
            return None;
        }
        let next = word.by_row(limit, GainReference)?;
        Some((next, ()))
    }

    fn is_end(word: Word, limit: u64) -> bool {
        !(word.references() < limit)
    }
}

// A waker is dropped.
pub(crate) struct DroppingWaker;

impl Script for DroppingWaker {
    ghost acts = { dropping_waker };
}

impl Giving for DroppingWaker {
    ghost gives = { λ w. ends_waker (dropped_by w) };
}

// A reference is given up.
pub(crate) struct GivingReferenceUp;

impl Script for GivingReferenceUp {
    ghost acts = { giving_up };
}

impl Giving for GivingReferenceUp {
    ghost gives = { others_left };
}

impl<R: Wait + Drop + Copy, F: Yields, Q: Drop, M: Drop, A: Drop, B: Allocator + Copy> Share<
    R,
    F,
    Q,
    M,
    A,
    B,
> {
    // Gains a reference for a new waker: its share and its party are the answer, or `None` where the count that is found is at the limit.
    //
    // `party` is a waker that is lent, and `word` one that was found before: it is tried first.
    pub(crate) fn gain(
        &self,
        party: &mut Party<F, Kept<F>, A>,
        word: Word,
    ) -> Option<(Self, Party<F, Kept<F>, A>)>
        requires cell { IsOf self.now party.old × (limit_of party.old ≡ limit_in self.now) }
        requires room { HasRoom word }
        requires party { Stands as_lent party.old }
        ensures path { Gains (limit_in self.now) party.old party.new (second result) }
        ensures share { IfSome result (λ gained. cell_of gained.0 ≡ cell_of self.now) }
    {
        match self.attempt_from::<Gaining, R>(self.cell().rt, party, word) {
            Ok((_, maybe)) => {
                let gained = self.split::<Parting>(party);
                Some((maybe.share(), gained))
            }
            Err(_) => None,
        }
    }

    // A gain by whoever has a handle by reference: a share for the new waker, and its party. The error is the record of the call, which has found the limit.
    pub(crate) fn gain_by_reference(
        &self,
    ) -> Result<(Self, Party<F, Kept<F>, A>), EndedCall<F, Kept<F>, A>>
        ensures share { IfOk result (λ gained. cell_of gained.0 ≡ cell_of self.now) }
        ensures waker { IfOk result (λ gained. IsOf self.now gained.1 × (gained.1.seat.me ≡ (view (limit_in self.now) (fresh as_waker ∷ []), []))) }
        ensures gained { IfOk result (λ _. HasGained self.now) }
        ensures refused { IfErr result (λ ended. HasFoundLimit self.now ended.party) }
    {
        let (word, mut party) = self.borrow();
        let gained = self.gain(&mut party, word);
        let ended = self.ledger().record(party);
        match gained {
            Some(waker) => Ok(waker),
            None => Err(ended),
        }
    }
}

impl<R: Drop, F: Yields, Q: Drop, M: Drop, A: Drop, B: Allocator + Copy> Share<R, F, Q, M, A, B> {
    /// A gain by whoever has a handle by reference, by at most 2^64 - 1 tries: a share for the new waker, and its party; or, where the count that is found is at the limit, the party of the call, which tells so. The outer error is the party where each try has missed.
    pub fn gain_some(
        &self,
    ) -> Result<Result<(Self, Party<F, Kept<F>, A>), Party<F, Kept<F>, A>>, Party<F, Kept<F>, A>>
        ensures share { IfOk result (λ gained. IfOk gained (λ n. cell_of n.0 ≡ cell_of self.now)) }
        ensures gains { IfOk result (λ gained. IfOk gained (λ n. IsOf self.now n.1 × (n.1.seat.me ≡ (view (limit_in self.now) (fresh as_waker ∷ []), [])))) }
        ensures at_limit { IfOk result (λ gained. IfErr gained (λ party. (path : List Deed) × GainPath (limit_in self.now) false path × HasMade self.now path party)) }
        ensures missed { IfErr result (λ party. (party.seat.block ≡ self.now.block.id) × HasMissed (2 ^ 64 - 2) party.seat.me) }
    {
        let (word, mut party) = self.borrow();
        match self.attempt_some::<Gaining>(&mut party, word, u64::MAX) {
            TriedOnce::Made((), maybe) => {
                let gained = self.split::<Parting>(&mut party);
                let Party { seat: _ } = party;
                Ok(Ok((maybe.share(), gained)))
            }
            TriedOnce::Ended(_, _) => Ok(Err(party)),
            TriedOnce::Again(_, _) => Err(party),
        }
    }

    /// Takes out what is in the place of the future and the output, which the party has in front, and leaves nothing there.
    pub fn take(&self, party: &mut Party<F, Kept<F>, A>) -> Content<F, Kept<F>>
        requires cell { IsOf self.now party.old }
        requires party { (at : Position) × (y : Slot F _) × (held : List (ℕ × TaskPlace F _ A)) × StandsWith at (work_first y held) party.old }
        ensures { (at : Position) (y : Slot F _) (held : List (ℕ × TaskPlace F _ A)) → StandsWith at (work_first y held) party.old → DidWith [] at (work_first Empty held) party.old party.new }
    {
        take_work(&self.block, &mut party.seat)
    }

    /// Gives the reference up: a single fetch, never tried again. Whether it was the last handle, and then the last share.
    pub fn give_up(self, party: &mut Party<F, Kept<F>, A>) -> (bool, MaybeShare<R, F, Q, M, A, B>)
        requires cell { IsOf self party.old }
        requires party { (hand : Option ℕ) × (answer : Answer) × Stands (GivingUp hand answer) party.old }
        ensures path { (hand : Option ℕ) (answer : Answer) → Stands (GivingUp hand answer) party.old → GivesUp hand answer party.old party.new result.0 }
        ensures share { LeavesBy self result.1 false result.0 }
    {
        let (found, maybe) = self.give::<GivingReferenceUp>(party, REFERENCE);
        (is_last(found), maybe)
    }

    // The reference is given up; who had the last one empties the places.
    pub(crate) fn release(self, party: &mut Party<F, Kept<F>, A>) -> Ledger<R, F, Q, M, A, B>
        requires cell { IsOf self party.old }
        requires party { (hand : Option ℕ) × (answer : Answer) × Stands (GivingUp hand answer) party.old }
        ensures path { (hand : Option ℕ) (answer : Answer) → Stands (GivingUp hand answer) party.old → Releases hand answer party.old party.new }
        ensures ledger { IsBeside result party.new }
    {
        let (last, maybe) = self.give_up(party);
        if last {
            maybe.last().empty(party).0
        } else {
            maybe.none()
        }
    }

    /// The row of a waker's drop: a single fetch, never tried again. What it found, and the last share, where it was the last handle.
    pub fn drop_reference(
        self,
        party: &mut Party<F, Kept<F>, A>,
    ) -> (Dropped, MaybeShare<R, F, Q, M, A, B>)
        requires cell { IsOf self party.old }
        requires party { Stands as_waker party.old }
        ensures path { DropsWaker party.old party.new result.0 }
        ensures share { LeavesBy self result.1 false (not (ends_waker result.0)) }
    {
        let (found, maybe) = self.give::<DroppingWaker>(party, REFERENCE);
        (dropped_as(found), maybe)
    }
}

impl<R: Wait + Drop + Copy, F: Yields, Q: Drop, M: Drop, A: Wake, B: Allocator + Copy> Share<
    R,
    F,
    Q,
    M,
    A,
    B,
> {
    // The rest of a run, after its end step. The awaiter that was taken is woken last.
    pub(crate) fn finish(self, party: &mut Party<F, Kept<F>, A>, due: bool)
        requires cell { IsOf self party.old }
        requires party { Stands (notifies due OfRun) party.old }
        ensures { Rests (WokeStored A.woken) due party.old party.new }
    {
        let awaiter = self.take_due(party, due);
        let ledger = self.release(party);
        ledger.wake_taken(party, awaiter);
        ledger.end(party);
    }

    // Drops a waker. The last handle of a task that is over empties the slots; the last waker of an open task that nobody else has closes it, and hands a Runnable over that ends it.
    pub(crate) fn drop_waker<X: Copy>(self, party: &mut Party<F, Kept<F>, A>, around: X)
    where
        Q: Schedule<Runnable<R, F, Q, M, A, X, B>>,
        requires cell { IsOf self party.old × (limit_of party.old ≡ limit_in self) }
        requires party { Stands as_waker party.old }
        ensures path { (path : List Deed) × WakerDropPath (HandedOver Q.scheduled (cell_of self) around false) path × Did path as_ended party.old party.new }
    {
        let (found, maybe) = self.drop_reference(party);
        match found {
            Dropped::Shared => {
                maybe.none();
            }
            Dropped::Last => maybe.last().empty_at_end(party),
            Dropped::Orphaned => {
                let share = maybe.last().close_orphan(party);
                share.hand_on(party, around, false);
            }
        }
    }
}
