//! A task is closed or let go: cancel, detach, and the drop of a Runnable.
ghost use Rattle.std.specs.Prelude.{◌≡◌, ℕ, ◌<◌, ◌-◌, ◌^◌, List, [], ◌∷◌, ◌++◌, IfSome, IfNone, false, true, not, IfOk, IfErr};
ghost use Rattle.task_core.specs.declared.acts.Act.TheVariants.{EndCall, DropOutput, DropFuture};
ghost use Rattle.task_laws.specs.Table.{notifies};
ghost use Rattle.task_laws.specs.declared.positions.Answer.{Answer};
ghost use Rattle.task_laws.specs.declared.positions.NotifyingCall.TheVariants.{OfCancel};
ghost use Rattle.task_laws.specs.declared.positions.Position.TheVariants.{CallEnding, OutputCloser, Detacher, FutureGone};
ghost use Rattle.task_laws.specs.declared.positions.Rest.{Rest};
ghost use Rattle.task_laws.specs.declared.positions.WithoutPoll.TheVariants.{DroppedRunnable};
ghost use Rattle.task_steps.specs.Attempts.{HasMissed};
ghost use Rattle.task_steps.specs.Deeds.{act};
ghost use Rattle.task_steps.specs.Rule.{IsFuture};
ghost use Rattle.task_steps.specs.RunScripts.{discarding};
ghost use Rattle.task_steps.specs.Shares.{has_references};
ghost use Rattle.task_steps.specs.Standing.{as_task, rest_of, as_ended, as_runnable};
ghost use Rattle.task_steps.specs.Steps.{saw_closed, work_first};
ghost use Rattle.task_steps.specs.TaskScripts.{giving_task_up, to_cancel, to_detach, brings_share, ends_task, ends_last};
ghost use Rattle.task_steps.specs.declared.table.Deed.{Deed};
ghost use Rattle.task_steps.specs.declared.table.Slot.{Slot};
ghost use Rattle.task_steps.specs.declared.table.Slot.TheVariants.{Empty};
ghost use Rattle.task_cell.specs.Belongs.{IsOf, Leaves, cell_of, limit_in, IsSame, LeavesBy, values_in};
ghost use Rattle.task_cell.specs.Calls.{Stands, Did, first, position, limit_of, StandsWith, deeds, DidWith};
ghost use Rattle.task_cell.specs.Handed.{HandedOver};
ghost use Rattle.task_cell.specs.RunCalls.{Discards};
ghost use Rattle.task_cell.specs.RunPaths.{DiscardStart};
ghost use Rattle.task_cell.specs.TaskPaths.{Cancels, Notice, CancelPath, Detaches, GivesTaskUp, DetachPath, UnclaimedPath};
ghost use Rattle.task_cell.specs.Woken.{WokeStored};

use crate::attempt::Grip;
use crate::cell::{MaybeShare, Party, Share};
use crate::run::DroppingOutput;
use crate::runnable::Runnable;
use std::alloc::Allocator;
use std::sync::Wait;
use task_core::acts::Act::{
    CancelBusy, CancelIdle, Detach, DetachLast, DetachOrphan, GiveUpOutput,
};
use task_core::word::{CLOSED, TASK, Word};
use task_core::{Schedule, Wake, Yields};
use task_steps::attempt::{Change, TriedOnce};
use task_steps::found::{Cancelled, Detached};
use task_steps::places::Content;
use task_steps::script::{Giving, Script};
use task_steps::table::Kept;

// A cancel closes the task, unless it is over.
pub(crate) struct Cancelling;

impl Change for Cancelling {
    type Row = Cancelled;

    ghost attempt = { to_cancel };

    fn next(word: Word, limit: u64) -> Option<(Word, Cancelled)> {
        let _ = limit;
        if word.is_over() {
            return None;
        }
        let due = word.awaiter();
        if word.fits(0, CancelIdle) {
            return Some((word.written(CancelIdle), Cancelled::Idle(due)));
        }
        Some((word.written(CancelBusy), Cancelled::Busy(due)))
    }

    fn is_end(word: Word, limit: u64) -> bool {
        let _ = limit;
        !word.is_open()
    }
}

// The Task is given up.
pub(crate) struct Detaching;

impl Change for Detaching {
    type Row = Detached;

    ghost attempt = { to_detach };

    fn next(word: Word, limit: u64) -> Option<(Word, Detached)> {
        let _ = limit;
        if word.fits(0, Detach) {
            return Some((word.written(Detach), Detached::Shared));
        }
        if word.fits(0, DetachLast) {
            return Some((word.written(DetachLast), Detached::Last));
        }
        if word.fits(0, DetachOrphan) {
            return Some((word.written(DetachOrphan), Detached::Orphaned));
        }
        Some((word.written(GiveUpOutput), Detached::Unclaimed))
    }

    fn is_end(word: Word, limit: u64) -> bool {
        let _ = (word, limit);
        false
    }
}

// The Task is given up whose output was dropped.
pub(crate) struct GivingTaskUp;

impl Script for GivingTaskUp {
    ghost acts = { giving_task_up };
}

impl Giving for GivingTaskUp {
    ghost gives = { has_references };
}

// A Runnable that is dropped closes the task, and its future is dropped next.
pub(crate) struct Discarding;

impl Script for Discarding {
    ghost acts = { discarding };
}

impl<R: Wait + Drop + Copy, F: Yields, Q: Drop, M: Drop, A: Wake, B: Allocator + Copy> Share<
    R,
    F,
    Q,
    M,
    A,
    B,
> {
    /// Closes the task, if it is not over. Its future is dropped by the run or the Runnable that there is, or else by one that is handed over here.
    pub fn cancel<X: Copy>(&self, party: &mut Party<F, Kept<F>, A>, around: X)
    where
        Q: Schedule<Runnable<R, F, Q, M, A, X, B>>,
        requires cell { IsOf self.now party.old × (limit_of party.old ≡ limit_in self.now) }
        requires party { (n : ℕ) × Stands (as_task n) party.old }
        ensures path { (path : List Deed) × CancelPath (HandedOver Q.scheduled (cell_of self.now) around false) (WokeStored A.woken) path × Did path (position party.old) party.old party.new }
    {
        let Some(closed) = self.close_task(party) else {
            return;
        };
        match closed.0 {
            Cancelled::Busy(due) => {
                closed.1.none();
                self.leave_closed(party, due);
            }
            Cancelled::Idle(due) => {
                self.deliver_by(closed.1.share(), party, around);
                self.leave_closed(party, due);
            }
        }
    }

    // The row of a cancel: what it found, and the share of a Runnable, if it brought one.
    fn close_task(
        &self,
        party: &mut Party<F, Kept<F>, A>,
    ) -> Option<(Cancelled, MaybeShare<R, F, Q, M, A, B>)>
        requires cell { IsOf self.now party.old × (limit_of party.old ≡ limit_in self.now) }
        requires party { (n : ℕ) × Stands (as_task n) party.old }
        ensures path { (n : ℕ) → Stands (as_task n) party.old → Cancels n party.old party.new (first result) }
        ensures share { IfSome result (λ closed. Leaves self.now closed.1 (brings_share closed.0)) }
    {
        match self.attempt::<Cancelling, R>(self.cell().rt, party) {
            Ok(made) => Some(made),
            Err(_) => None,
        }
    }

    // The awaiter is taken and woken, if one is due, and the call ends.
    fn leave_closed(&self, party: &mut Party<F, Kept<F>, A>, due: bool)
        requires cell { IsOf self.now party.old }
        requires party { (n : ℕ) × Stands (notifies due (OfCancel n)) party.old }
        ensures { (n : ℕ) → Stands (notifies due (OfCancel n)) party.old → (path : List Deed) × Notice (WokeStored A.woken) due path × Did (path ++ act EndCall ∷ []) (as_task n) party.old party.new }
    {
        let awaiter = self.take_due(party, due);
        let ledger = self.ledger();
        ledger.wake_taken(party, awaiter);
        ledger.end(party);
    }

    // The rest of a detach that has taken the output: it is dropped last, after all else of the task that goes.
    fn leave_unclaimed(self, party: &mut Party<F, Kept<F>, A>)
        requires cell { IsOf self party.old }
        requires party { (z : Slot F _) × StandsWith OutputCloser (work_first z []) party.old × (saw_closed (deeds party.old) ≡ true) }
        ensures { (path : List Deed) × UnclaimedPath path × Did path as_ended party.old party.new }
    {
        let (last, maybe, unclaimed) = self.take_unclaimed(party);
        if last {
            maybe.last().empty_at_end(party);
            unclaimed.discard();
        } else {
            maybe.none();
            unclaimed.discard();
        }
    }

    /// Gives the Task up. An output that nobody claimed is dropped, and an open task without another handle is closed, and scheduled once more.
    pub fn detach<X: Copy>(self, party: &mut Party<F, Kept<F>, A>, around: X)
    where
        Q: Schedule<Runnable<R, F, Q, M, A, X, B>>,
        requires cell { IsOf self party.old × (limit_of party.old ≡ limit_in self) }
        requires party { (n : ℕ) × Stands (as_task n) party.old }
        ensures path { (path : List Deed) × DetachPath (HandedOver Q.scheduled (cell_of self) around false) path × Did path as_ended party.old party.new }
    {
        let (found, maybe) = self.give_task_up(party);
        match found {
            Detached::Unclaimed => maybe.share().leave_unclaimed(party),
            Detached::Shared => {
                maybe.none();
            }
            Detached::Last => maybe.last().empty_at_end(party),
            Detached::Orphaned => maybe.share().hand_on(party, around, false),
        }
    }
}

impl<R: Drop, F: Yields, Q: Drop, M: Drop, A: Drop, B: Allocator + Copy> Share<R, F, Q, M, A, B> {
    /// The row of a cancel, by at most 2^64 - 1 tries: what it found that closed the task, and the share of a Runnable, if it brought one. `None` where each try has missed, and `Some(None)` where the task was over.
    pub fn close_task_some(
        &self,
        party: &mut Party<F, Kept<F>, A>,
    ) -> Option<Option<(Cancelled, MaybeShare<R, F, Q, M, A, B>)>>
        requires cell { IsOf self.now party.old × (limit_of party.old ≡ limit_in self.now) }
        requires party { (n : ℕ) × Stands (as_task n) party.old }
        ensures path { (n : ℕ) → Stands (as_task n) party.old → IfSome result (λ found. Cancels n party.old party.new (first found)) }
        ensures share { IfSome result (λ found. IfSome found (λ closed. Leaves self.now closed.1 (brings_share closed.0))) }
        ensures missed { IfNone result (HasMissed (2 ^ 64 - 1) party.new.seat.me) }
    {
        match self.change_some::<Cancelling>(party, u64::MAX) {
            TriedOnce::Made(found, maybe) => Some(Some((found, maybe))),
            TriedOnce::Ended(_, _) => Some(None),
            TriedOnce::Again(_, _) => None,
        }
    }

    /// Writes down that the call has ended. It is no step.
    pub fn end_call(&self, party: &mut Party<F, Kept<F>, A>)
        requires cell { IsOf self.now party.old }
        requires party { (answer : Answer) × (r : Rest) × Stands (CallEnding answer r) party.old }
        ensures { Did (act EndCall ∷ []) (rest_of (position party.old)) party.old party.new }
    {
        self.ledger().end(party);
    }

    // Writes down that the output in hand is dropped, and gives its place back. One load.
    fn note_output_dropped(&self, party: &mut Party<F, Kept<F>, A>)
        requires cell { IsOf self.now party.old }
        requires party { StandsWith OutputCloser (work_first Empty []) party.old }
        ensures { Did (act DropOutput ∷ []) Detacher party.old party.new }
    {
        self.load::<DroppingOutput>(party);
    }

    /// Takes the output out that nobody claimed, and then gives the Task up, by a single fetch. Whether the slots are to be emptied, then the last share, and the output, which is dropped last.
    pub fn take_unclaimed(
        self,
        party: &mut Party<F, Kept<F>, A>,
    ) -> (bool, MaybeShare<R, F, Q, M, A, B>, Content<F, Kept<F>>)
        requires cell { IsOf self party.old }
        requires party { (z : Slot F _) × StandsWith OutputCloser (work_first z []) party.old × (saw_closed (deeds party.old) ≡ true) }
        ensures path { GivesTaskUp party.old party.new result.0 }
        ensures share { LeavesBy self result.1 false result.0 }
    {
        let unclaimed = self.take(party);
        self.note_output_dropped(party);
        let (found, maybe) = self.give::<GivingTaskUp>(party, TASK);
        (found.references() == 0, maybe, unclaimed)
    }

    /// The row of a detach, by at most 2^64 - 1 tries: what it found, and what is left of the Task's share. The error is the share, where each try has missed.
    pub fn give_task_up_some(
        self,
        party: &mut Party<F, Kept<F>, A>,
    ) -> Result<(Detached, MaybeShare<R, F, Q, M, A, B>), Self>
        requires cell { IsOf self party.old }
        requires party { (n : ℕ) × Stands (as_task n) party.old }
        ensures path { IfOk result (λ found. Detaches (values_in self) party.old party.new found.0) }
        ensures share { IfOk result (λ found. LeavesBy self found.1 (not (ends_task found.0)) (ends_last found.0)) }
        ensures kept { IfErr result (λ kept. IsSame self kept) }
        ensures missed { IfErr result (λ _. HasMissed (2 ^ 64 - 1) party.new.seat.me) }
    {
        match self.change_some::<Detaching>(party, u64::MAX) {
            TriedOnce::Made(found, maybe) => Ok((found, maybe)),
            TriedOnce::Ended(_, kept) => Err(kept),
            TriedOnce::Again(_, kept) => Err(kept),
        }
    }

    /// Closes the task, takes its future over, and writes down that it is dropped next: a single fetch, never tried again.
    pub fn discard_start(&self, party: &mut Party<F, Kept<F>, A>)
        requires cell { IsOf self.now party.old }
        requires party { Stands as_runnable party.old }
        ensures { (d : Deed) × (y : Slot F _) × DiscardStart d × DidWith (d ∷ act DropFuture ∷ []) (FutureGone DroppedRunnable) (work_first y []) party.old party.new × IsFuture (values_in self.now) y }
    {
        self.fetch_or::<Discarding>(party, CLOSED);
    }
}

impl<R: Wait + Drop + Copy, F: Yields, Q: Drop, M: Drop, A: Drop, B: Allocator + Copy> Share<
    R,
    F,
    Q,
    M,
    A,
    B,
> {
    // The row of a detach: what it found, and what is left of the Task's share.
    fn give_task_up(
        self,
        party: &mut Party<F, Kept<F>, A>,
    ) -> (Detached, MaybeShare<R, F, Q, M, A, B>)
        requires cell { IsOf self party.old }
        requires party { (n : ℕ) × Stands (as_task n) party.old }
        ensures path { Detaches (values_in self) party.old party.new result.0 }
        ensures share { LeavesBy self result.1 (not (ends_task result.0)) (ends_last result.0) }
    {
        let rt = self.cell().rt;
        match self.attempt::<Detaching, R>(rt, party) {
            Ok(made) => made,
            Err(_) => unreachable!(),
        }
    }
}

impl<R: Drop, F: Yields, Q: Drop, M: Drop, A: Wake, B: Allocator + Copy> Share<R, F, Q, M, A, B> {
    // Drops a Runnable: the task is closed, its future dropped, and an awaiter that waits is woken. It tries nothing again, and cannot wait but in foreign code.
    pub(crate) fn discard_runnable(self, party: &mut Party<F, Kept<F>, A>)
        requires cell { IsOf self party.old }
        requires party { Stands as_runnable party.old }
        ensures { Discards (WokeStored A.woken) party.old party.new }
    {
        self.discard_start(party);
        self.take(party).discard();
        let found = self.unschedule(party);
        let awaiter = self.take_due(party, found.awaiter());
        self.ledger().wake_taken(party, awaiter);
        let ledger = self.release(party);
        ledger.end(party);
    }
}
