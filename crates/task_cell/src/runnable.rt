//! A Runnable: what it is made of, and its calls.
ghost use Rattle.std.specs.Prelude.{◌≡◌, [], ◌∷◌, IfOk, IfErr, List, true, false};
ghost use Rattle.task_steps.specs.Rule.{view, fresh};
ghost use Rattle.task_steps.specs.Standing.{as_runnable, as_ended};
ghost use Rattle.task_steps.specs.Witness.{Witness};
ghost use Rattle.task_steps.specs.declared.table.Deed.{Deed};
ghost use Rattle.task_cell.specs.Belongs.{cell_of, limit_in, spawned_in};
ghost use Rattle.task_cell.specs.Calls.{limit_of, deeds, Stands, Did};
ghost use Rattle.task_cell.specs.Gained.{HasFoundLimit, HasGained};
ghost use Rattle.task_cell.specs.Handed.{HandedOver, PolledOnce};
ghost use Rattle.task_cell.specs.RunCalls.{Discards};
ghost use Rattle.task_cell.specs.RunPaths.{RunPath};
ghost use Rattle.task_cell.specs.Wakers.{is_owned};
ghost use Rattle.task_cell.specs.Witnessed.{Witnesses};
ghost use Rattle.task_cell.specs.Woken.{WokeStored};

use crate::cell::{EndedCall, Party, RunnableSeat, Share, WakerSeat};
use crate::waker::TaskWaker;
use std::alloc::{Allocator, Global};
use std::sync::Wait;
use task_core::word::Word;
use task_core::{Future, Schedule, Wake, Yields};
use task_steps::table::{Kept, discard};

impl<R: Wait + Drop + Copy, F: Yields, Q: Drop, M: Drop, A: Drop, B: Allocator + Copy> RunnableSeat<
    R,
    F,
    Q,
    M,
    A,
    B,
> {
    // A Runnable that has done nothing yet.
    pub(crate) fn new(
        share: Share<R, F, Q, M, A, B>,
        party: Party<F, Kept<F>, A>,
    ) -> RunnableSeat<R, F, Q, M, A, B>
        requires cell { party.seat.block ≡ share.block.id }
        requires party { party.seat.me ≡ (view share.block.key.limit (fresh as_runnable ∷ []), []) }
        ensures { result.share ≡ share }
    {
        RunnableSeat { share, party }
    }

    // The share of the cell, and the party, which will step.
    pub(crate) fn into_party(self) -> (Share<R, F, Q, M, A, B>, Party<F, Kept<F>, A>)
        ensures share { result.0 ≡ self.share }
        ensures is { result.1 ≡ self.party }
        ensures cell { (result.1.seat.block ≡ result.0.block.id) × (limit_of result.1 ≡ result.0.block.key.limit) }
        ensures party { Stands as_runnable result.1 × (deeds result.1 ≡ []) }
    {
        let RunnableSeat { share, party } = self;
        (share, party)
    }

    // The word as one load finds it, and the interleaving that ends in it.
    pub(crate) fn witness(&mut self) -> Word
        ensures witness { Witnesses self.old.party result }
        ensures same { (self.new.share ≡ self.old.share) × (self.new.party ≡ self.old.party) }
    {
        self.share.witness(&mut self.party)
    }
}

/// A task that is due: whoever has it runs it, schedules it, or drops it, which cancels the task.
#[must_use]
pub struct Runnable<
    R: Wait + Drop + Copy,
    F: Yields,
    Q: Drop,
    M: Drop,
    A: Wake,
    X: Copy,
    B: Allocator + Copy = Global,
> {
    pub(crate) inner: RunnableSeat<R, F, Q, M, A, B>,
    pub(crate) around: X,
}

impl<R: Wait + Drop + Copy, F: Yields, Q: Drop, M: Drop, A: Wake, X: Copy, B: Allocator + Copy> Drop
    for Runnable<R, F, Q, M, A, X, B> {
    fn drop(self) {
        self.discard();
    }
}

impl<
    R: Wait + Drop + Copy,
    F: Yields,
    Q: Drop,
    M: Drop,
    A: Wake,
    X: Copy,
    B: Allocator + Copy,
> Runnable<R, F, Q, M, A, X, B> {
    /// The Runnable of a task that was just spawned, by a share of its cell and the party that `fill` answered with. It makes no step.
    pub fn new(
        share: Share<R, F, Q, M, A, B>,
        party: Party<F, Kept<F>, A>,
        around: X,
    ) -> Runnable<R, F, Q, M, A, X, B>
        requires cell { party.seat.block ≡ share.block.id }
        requires party { party.seat.me ≡ (view share.block.key.limit (fresh as_runnable ∷ []), []) }
        ensures cell { result.inner.share ≡ share }
        ensures around { result.around ≡ around }
    {
        let inner = RunnableSeat::new(share, party);
        Runnable { inner, around }
    }

    // What the Runnable is made of.
    pub(crate) fn into_parts(self) -> (RunnableSeat<R, F, Q, M, A, B>, X)
        ensures inner { result.0 ≡ self.inner }
        ensures around { result.1 ≡ self.around }
    {
        let Runnable { inner, around } = self;
        (inner, around)
    }

    /// The metadata that the builder was given.
    pub fn metadata(&self) -> &M
        ensures { result.now ≡ self.now.inner.share.block.value.metadata }
    {
        self.inner.share.metadata()
    }

    /// The surroundings that the handle carries.
    pub fn around(&self) -> X
        ensures { result ≡ self.now.around }
    {
        self.around
    }

    /// The word as one load finds it. The clause `witness` says all that is proved of it: an interleaving of the machine, from the spawn of this task, ends in it, all laws hold there, and one of the parties there is this Runnable. Nothing changes. It waits for nobody.
    pub fn witness(&mut self) -> Word
        ensures witness { Witness (limit_in self.old.inner.share) result as_runnable [] }
        ensures same { (self.new.inner.share ≡ self.old.inner.share) × (self.new.inner.party ≡ self.old.inner.party) × (self.new.around ≡ self.old.around) }
    {
        self.inner.witness()
    }

    /// A waker of the task, which holds a reference. Where the count of references is at the limit, nothing has changed, and the error is the record of the call, which says so.
    pub fn waker(&self) -> Result<TaskWaker<R, F, Q, M, A, X, B>, EndedCall<F, Kept<F>, A>>
    where
        Q: Schedule<Runnable<R, F, Q, M, A, X, B>>,
        ensures cell { IfOk result (λ waker. cell_of waker.inner.share ≡ cell_of self.now.inner.share) }
        ensures around { IfOk result (λ waker. waker.around ≡ self.now.around) }
        ensures owned { IfOk result (λ waker. is_owned waker.inner.hold ≡ true) }
        ensures gained { IfOk result (λ _. HasGained self.now.inner.share) }
        ensures refused { IfErr result (λ ended. HasFoundLimit self.now.inner.share ended.party) }
    {
        let (share, party) = self.inner.share.gain_by_reference()?;
        Ok(TaskWaker {
            inner: WakerSeat::owned(share, party),
            around: self.around,
        })
    }

    /// Does what a drop does: the task is closed, its future is dropped, and an awaiter that waits is woken.
    pub fn discard(self) -> EndedCall<F, Kept<F>, A>
        ensures path { Discards (WokeStored A.woken) self.inner.party result.party }
    {
        let (inner, _) = self.into_parts();
        let (share, mut party) = inner.into_party();
        let ledger = share.ledger();
        share.discard_runnable(&mut party);
        ledger.record(party)
    }

    /// The same handle without the surroundings. It makes no step.
    pub fn park(self) -> ParkedRunnable<R, F, Q, M, A, B>
        ensures { result.inner ≡ self.inner }
    {
        let (inner, _) = self.into_parts();
        ParkedRunnable { inner }
    }

    /// The same Runnable with other surroundings. It makes no step. With `()` any container holds it, and the schedule value needs no implementation for it.
    pub fn with_around<Y: Copy>(self, around: Y) -> Runnable<R, F, Q, M, A, Y, B>
        ensures inner { result.inner ≡ self.inner }
        ensures around { result.around ≡ around }
    {
        let (inner, _) = self.into_parts();
        Runnable { inner, around }
    }

    /// Hands the Runnable to the schedule value again, with `woken_while_running` false.
    pub fn schedule(self)
    where
        Q: Schedule<Runnable<R, F, Q, M, A, X, B>>,
        ensures fact { HandedOver Q.scheduled (cell_of self.inner.share) self.around false }
    {
        let (inner, around) = self.into_parts();
        let (share, mut party) = inner.into_party();
        share.schedule(&mut party, around);
        party.let_go();
    }

    /// Runs the task once: polls its future, unless the task was closed. True where the task was woken meanwhile and its Runnable was handed to the schedule value. The record says which path the run took, also where the answer is false.
    pub fn run(self) -> (bool, EndedCall<F, Kept<F>, A>)
    where
        F: Future<TaskWaker<R, F, Q, M, A, X, B>>,
        Q: Schedule<Runnable<R, F, Q, M, A, X, B>>,
        ensures path { (path : List Deed) × RunPath (PolledOnce F.polled (spawned_in self.inner.share) (cell_of self.inner.share) self.around) (WokeStored A.woken) (HandedOver Q.scheduled (cell_of self.inner.share) self.around) result.0 path × Did path as_ended self.inner.party result.1.party }
    {
        let (inner, around) = self.into_parts();
        let (share, party) = inner.into_party();
        let ledger = share.ledger();
        let (ended, woken) = share.run(party, around);
        (woken, ledger.record(ended))
    }
}

/// A Runnable without the surroundings. It counts as the Runnable, and can't be dropped: it is unparked.
#[must_use]
pub struct ParkedRunnable<R, F: Yields, Q, M, A, B: Allocator + Copy = Global> {
    pub(crate) inner: RunnableSeat<R, F, Q, M, A, B>,
}

impl<
    R: Wait + Drop + Copy,
    F: Yields,
    Q: Drop,
    M: Drop,
    A: Wake,
    B: Allocator + Copy,
> ParkedRunnable<R, F, Q, M, A, B> {
    /// The metadata that the builder was given.
    pub fn metadata(&self) -> &M
        ensures { result.now ≡ self.now.inner.share.block.value.metadata }
    {
        self.inner.share.metadata()
    }

    /// The Runnable again, with these surroundings. It makes no step.
    pub fn unpark<X: Copy>(self, around: X) -> Runnable<R, F, Q, M, A, X, B>
        ensures inner { result.inner ≡ self.inner }
        ensures around { result.around ≡ around }
    {
        let ParkedRunnable { inner } = self;
        Runnable { inner, around }
    }
}
