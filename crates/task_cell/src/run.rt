//! A run: its start, the poll of the future with the waker that it is lent, and its end.
ghost use Rattle.std.specs.Prelude.{◌≡◌, ◌<◌, ℕ, ◌∷◌, [], List, ◌-◌, ◌^◌, IfSome, IfNone, Bool, true, not, IfOk, IfErr};
ghost use Rattle.task_core.specs.Poll.{IfReady};
ghost use Rattle.task_core.specs.Word.{HasRoom};
ghost use Rattle.task_core.specs.declared.acts.Act.TheVariants.{AnswerReady, DropFuture, DropOutput, EndClosed, Unschedule};
ghost use Rattle.task_laws.specs.Table.{notifies};
ghost use Rattle.task_laws.specs.declared.positions.NotifyingCall.TheVariants.{OfRun};
ghost use Rattle.task_laws.specs.declared.positions.Position.TheVariants.{FutureGone, ReadyFutureDropped, Polling, Pending, PendingFutureDropped, OutputInHand};
ghost use Rattle.task_laws.specs.declared.positions.WithoutPoll.{WithoutPoll};
ghost use Rattle.task_laws.specs.declared.positions.WithoutPoll.TheVariants.{ClosedRun};
ghost use Rattle.task_steps.specs.Attempts.{HasMissed};
ghost use Rattle.task_steps.specs.Deeds.{act, row};
ghost use Rattle.task_steps.specs.Rule.{IsFuture, TaskPlace};
ghost use Rattle.task_steps.specs.RunScripts.{unscheduling, answering_ready, answering_pending, ending_closed, to_complete, to_end_pending, ends_run};
ghost use Rattle.task_steps.specs.Scripts.{dropping_output};
ghost use Rattle.task_steps.specs.Standing.{as_runnable, as_ended, closing_way};
ghost use Rattle.task_steps.specs.StartScripts.{to_start_run};
ghost use Rattle.task_steps.specs.Steps.{work_first};
ghost use Rattle.task_steps.specs.declared.table.Deed.{Deed};
ghost use Rattle.task_steps.specs.declared.table.Slot.{Slot};
ghost use Rattle.task_steps.specs.declared.table.Slot.TheVariants.{Future as Lies, Empty, Output};
ghost use Rattle.task_cell.specs.Belongs.{IsOf, cell_of, limit_in, values_in, HasYielded, spawned_in, IsContinued, IsSame, Leaves};
ghost use Rattle.task_cell.specs.Calls.{Stands, StandsWith, Did, DidWith, limit_of, position};
ghost use Rattle.task_cell.specs.Handed.{HandedOver, PolledOnce, LentTo};
ghost use Rattle.task_cell.specs.RunCalls.{AnswersPending, Closes, EndsReady, EndsUnready, NotesAnswer, Completes, EndsPending, end_of, Stores, ClosesPending};
ghost use Rattle.task_cell.specs.RunPaths.{RunPath};
ghost use Rattle.task_cell.specs.Starts.{TakesUp};
ghost use Rattle.task_cell.specs.Woken.{WokeStored};

use crate::attempt::Grip;
use crate::cell::{MaybeShare, Party, Share, WakerSeat};
use crate::runnable::Runnable;
use crate::waker::TaskWaker;
use std::alloc::Allocator;
use std::sync::Wait;
use task_core::acts::Act::{
    Complete, CompleteDetached, EndIdle, EndOrphaned, GiveUpReference, Reschedule, StartRun,
};
use task_core::word::{RUNNING, SCHEDULED, Word};
use task_core::{Future, Poll, Schedule, Wake, Yields};
use task_steps::attempt::{Change, TriedOnce};
use task_steps::found::{PendingEnd, keeps_output};
use task_steps::places::{Held, put_output};
use task_steps::script::Script;
use task_steps::table::{Kept, polled};

// The run starts, and its poll, unless the task is closed.
pub(crate) struct StartingRun;

impl Change for StartingRun {
    type Row = ();

    ghost attempt = { to_start_run };

    fn next(word: Word, limit: u64) -> Option<(Word, ())> {
        let _ = limit;
        let next = word.by_row(0, StartRun)?;
        Some((next, ()))
    }

    fn is_end(word: Word, limit: u64) -> bool {
        let _ = limit;
        word.closed()
    }
}

// SCHEDULED is cleared, after the future was dropped.
pub(crate) struct Unscheduling;

impl Script for Unscheduling {
    ghost acts = { unscheduling };
}

// The poll of the future has answered Ready, and the future is dropped next.
pub(crate) struct AnsweringReady;

impl Script for AnsweringReady {
    ghost acts = { answering_ready };
}

// A run ends with its output.
pub(crate) struct Completing;

impl Change for Completing {
    type Row = Word;

    ghost attempt = { to_complete };

    fn next(word: Word, limit: u64) -> Option<(Word, Word)> {
        let _ = limit;
        if word.fits(0, Complete) {
            return Some((word.written(Complete), word));
        }
        Some((word.written(CompleteDetached), word))
    }

    fn is_end(word: Word, limit: u64) -> bool {
        let _ = (word, limit);
        false
    }
}

// The poll of the future has answered Pending.
pub(crate) struct AnsweringPending;

impl Script for AnsweringPending {
    ghost acts = { answering_pending };
}

// The run of an open task ends without an output.
pub(crate) struct EndingPending;

impl Change for EndingPending {
    type Row = PendingEnd;

    ghost attempt = { to_end_pending };

    fn next(word: Word, limit: u64) -> Option<(Word, PendingEnd)> {
        let _ = limit;
        if word.closed() {
            return None;
        }
        if word.scheduled() {
            return Some((word.written(Reschedule), PendingEnd::Rescheduled));
        }
        if word.fits(0, GiveUpReference) {
            return Some((word.written(EndIdle), PendingEnd::Idle));
        }
        Some((word.written(EndOrphaned), PendingEnd::Orphaned))
    }

    fn is_end(word: Word, limit: u64) -> bool {
        let _ = limit;
        word.closed()
    }
}

// The run of a closed task ends, after the future was dropped.
pub(crate) struct EndingClosed;

impl Script for EndingClosed {
    ghost acts = { ending_closed };
}

// An output that nobody will claim is dropped.
pub(crate) struct DroppingOutput;

impl Script for DroppingOutput {
    ghost acts = { dropping_output };
}

impl<R: Wait + Drop + Copy, F: Yields, Q: Drop, M: Drop, A: Wake, B: Allocator + Copy> Share<
    R,
    F,
    Q,
    M,
    A,
    B,
> {
    // Runs the task once. A task that was closed is not polled: its future is dropped. Otherwise the future is polled once, and the run ends by what it answered. The share goes with the run, or on with the Runnable that the run hands over.
    //
    // True where the task was woken meanwhile, and its Runnable was handed to the schedule value.
    pub(crate) fn run<X: Copy>(
        self,
        party: Party<F, Kept<F>, A>,
        around: X,
    ) -> (Party<F, Kept<F>, A>, bool)
    where
        F: Future<TaskWaker<R, F, Q, M, A, X, B>>,
        Q: Schedule<Runnable<R, F, Q, M, A, X, B>>,
        requires cell { IsOf self party × (limit_of party ≡ limit_in self) }
        requires party { Stands as_runnable party }
        ensures path { (path : List Deed) × RunPath (PolledOnce F.polled (spawned_in self) (cell_of self) around) (WokeStored A.woken) (HandedOver Q.scheduled (cell_of self) around) result.1 path × Did path as_ended party result.0 }
    {
        let (party, started) = self.begin_run(party);
        if !started {
            return (self.end_closed_run(party), false);
        }
        let (share, party, answer, found) = self.poll_future(party, around);
        match answer {
            Poll::Ready(output) => {
                let ended = share.end_ready_run(party, Held::new(Kept { output }));
                (ended, false)
            }
            Poll::Pending => share.end_pending_run(party, found, around),
        }
    }

    fn begin_run(&self, mut party: Party<F, Kept<F>, A>) -> (Party<F, Kept<F>, A>, bool)
        requires cell { IsOf self.now party }
        requires party { Stands as_runnable party }
        ensures { TakesUp (values_in self.now) party result.0 result.1 }
    {
        let started = self.take_up(&mut party);
        (party, started)
    }

    fn end_closed_run(self, mut party: Party<F, Kept<F>, A>) -> Party<F, Kept<F>, A>
        requires cell { IsOf self party }
        requires party { (y : Slot F _) × StandsWith (FutureGone ClosedRun) (work_first y []) party }
        ensures { Closes (WokeStored A.woken) party result }
    {
        self.close_run(&mut party);
        party
    }

    fn end_ready_run(
        self,
        mut party: Party<F, Kept<F>, A>,
        output: Held<Kept<F>>,
    ) -> Party<F, Kept<F>, A>
        requires cell { IsOf self party }
        requires party { (y : Slot F _) × StandsWith ReadyFutureDropped (work_first y []) party }
        requires yielded { HasYielded self output.value.output }
        ensures { (p : _) (y : Slot F _) → DidWith (act AnswerReady ∷ act DropFuture ∷ []) ReadyFutureDropped (work_first y []) p party → EndsReady (WokeStored A.woken) p result }
    {
        self.finish_ready(&mut party, output);
        party
    }

    fn end_pending_run<X: Copy>(
        self,
        mut party: Party<F, Kept<F>, A>,
        found: Word,
        around: X,
    ) -> (Party<F, Kept<F>, A>, bool)
    where
        Q: Schedule<Runnable<R, F, Q, M, A, X, B>>,
        requires cell { IsOf self party × (limit_of party ≡ limit_in self) }
        requires room { HasRoom found }
        requires party { (p : _) × (y : Slot F _) × AnswersPending (work_first y []) p party found.closed × IsFuture (values_in self) y }
        ensures { (p : _) (y : Slot F _) → AnswersPending (work_first y []) p party found.closed → EndsUnready (WokeStored A.woken) (HandedOver Q.scheduled (cell_of self) around) result.1 p result.0 }
    {
        let woken = self.finish_pending(&mut party, found, around);
        (party, woken)
    }

    // One poll of a run that has started, with a waker that it is lent; what it answers is written down, on the word that is told last. No lock is held,
    // and the future stays in its place.
    pub(crate) fn poll_future<X: Copy>(
        self,
        party: Party<F, Kept<F>, A>,
        around: X,
    ) -> (Self, Party<F, Kept<F>, A>, Poll<F::Output>, Word)
    where
        F: Future<TaskWaker<R, F, Q, M, A, X, B>>,
        Q: Schedule<Runnable<R, F, Q, M, A, X, B>>,
        requires cell { IsOf self party }
        requires limit { limit_of party ≡ limit_in self }
        requires party { (y : Slot F _) × StandsWith Polling (work_first y []) party × IsFuture (values_in self) y }
        ensures share { result.0 ≡ self }
        ensures once { (f : F) × (g : F) × StandsWith Polling (work_first (Lies f) []) party × NotesAnswer (work_first (Lies g) []) party result.1 result.3 result.2 × LentTo F.polled (cell_of self) around f result.2 g × IsContinued self f × F.Yields.moves f result.2 g }
        ensures meets { IfReady result.2 F.Yields.meets }
    {
        let Party { mut seat } = party;
        let waker = TaskWaker {
            inner: WakerSeat::lent(self),
            around,
        };
        let answer = polled(seat.first_mut(&waker.inner.share.block), &waker);
        let (inner, _) = waker.into_parts();
        let share = inner.into_share();
        let (party, found) = share.note_answer(Party { seat }, &answer);
        (share, party, answer, found)
    }

    // Writes down what the poll has answered, so that the party no longer stands where it may poll: the word that was found.
    fn note_answer(
        &self,
        mut party: Party<F, Kept<F>, A>,
        answer: &Poll<F::Output>,
    ) -> (Party<F, Kept<F>, A>, Word)
        requires cell { IsOf self.now party }
        requires party { (held : List (ℕ × TaskPlace F _ _)) × StandsWith Polling held party }
        ensures { (held : List (ℕ × TaskPlace F _ _)) → StandsWith Polling held party → NotesAnswer held party result.0 result.1 answer.now }
    {
        match answer {
            Poll::Ready(_) => {
                let found = self.answer_ready(&mut party);
                (party, found)
            }
            Poll::Pending => {
                let found = self.answer_pending(&mut party);
                (party, found)
            }
        }
    }

    // A run of a task that was closed before, from where it has taken the future over, and has written down that it drops it.
    pub(crate) fn close_run(self, party: &mut Party<F, Kept<F>, A>)
        requires cell { IsOf self party.old }
        requires party { (y : Slot F _) × StandsWith (FutureGone ClosedRun) (work_first y []) party.old }
        ensures { Closes (WokeStored A.woken) party.old party.new }
    {
        self.take(party).discard();
        let found = self.unschedule(party);
        self.finish(party, found.awaiter());
    }

    // A run of a task that was closed meanwhile, from where its poll answered Pending.
    pub(crate) fn finish_cleared(self, party: &mut Party<F, Kept<F>, A>)
        requires cell { IsOf self party.old }
        requires party { (y : Slot F _) × StandsWith PendingFutureDropped (work_first y []) party.old }
        ensures { ClosesPending (WokeStored A.woken) party.old party.new }
    {
        let found = self.end_closed(party);
        self.finish(party, found.awaiter());
    }

    // A run, from where its poll has answered Ready, as the party that polled.
    pub(crate) fn finish_ready(self, party: &mut Party<F, Kept<F>, A>, output: Held<Kept<F>>)
        requires cell { IsOf self party.old }
        requires party { (y : Slot F _) × StandsWith ReadyFutureDropped (work_first y []) party.old }
        requires yielded { HasYielded self output.value.output }
        ensures { (p : _) (y : Slot F _) → DidWith (act AnswerReady ∷ act DropFuture ∷ []) ReadyFutureDropped (work_first y []) p party.old → EndsReady (WokeStored A.woken) p party.new }
    {
        self.take(party).discard();
        let found = self.store_output(party, output);
        self.finish(party, found.awaiter());
    }

    // A run, from where its poll has answered Pending on the word `found`. Whether the task was woken meanwhile.
    pub(crate) fn finish_pending<X: Copy>(
        self,
        party: &mut Party<F, Kept<F>, A>,
        found: Word,
        around: X,
    ) -> bool
    where
        Q: Schedule<Runnable<R, F, Q, M, A, X, B>>,
        requires cell { IsOf self party.old × (limit_of party.old ≡ limit_in self) }
        requires room { HasRoom found }
        requires party { (p : _) × (y : Slot F _) × AnswersPending (work_first y []) p party.old found.closed × IsFuture (values_in self) y }
        ensures { (p : _) (y : Slot F _) → AnswersPending (work_first y []) p party.old found.closed → EndsUnready (WokeStored A.woken) (HandedOver Q.scheduled (cell_of self) around) result p party.new }
    {
        if found.closed() {
            self.finish_cleared(party);
            return false;
        }
        match self.end_pending(party, found) {
            Err(share) => {
                share.finish_cleared(party);
                false
            }
            Ok(ended) => match ended.0 {
                PendingEnd::Rescheduled => {
                    ended.1.share().hand_on(party, around, true);
                    true
                }
                PendingEnd::Idle => {
                    ended.1.none();
                    false
                }
                PendingEnd::Orphaned => {
                    ended.1.share().hand_on(party, around, false);
                    false
                }
            },
        }
    }
}

impl<R: Wait + Drop + Copy, F: Yields, Q: Drop, M: Drop, A: Drop, B: Allocator + Copy> Share<
    R,
    F,
    Q,
    M,
    A,
    B,
> {
    // Takes the future for a run: true where the run has started, false where the task was closed, and the future is dropped next.
    pub(crate) fn take_up(&self, party: &mut Party<F, Kept<F>, A>) -> bool
        requires cell { IsOf self.now party.old }
        requires party { Stands as_runnable party.old }
        ensures { TakesUp (values_in self.now) party.old party.new result }
    {
        match self.change::<StartingRun>(party) {
            Ok(_) => true,
            Err(_) => false,
        }
    }

    // The end step of a run with its output, after its future was dropped.
    pub(crate) fn complete(&self, party: &mut Party<F, Kept<F>, A>, output: Held<Kept<F>>) -> Word
        requires cell { IsOf self.now party.old }
        requires party { StandsWith ReadyFutureDropped (work_first Empty []) party.old }
        requires yielded { HasYielded self.now output.value.output }
        ensures { Completes party.old party.new result }
    {
        self.lay_output(party, output);
        match self.change::<Completing>(party) {
            Ok(found) => found,
            Err(_) => unreachable!(),
        }
    }

    // The end step of a run without an output, from the word on that its poll left, and the run's share, if it is left. A task that was closed meanwhile is left to the end step of a closed one.
    pub(crate) fn end_pending(
        self,
        party: &mut Party<F, Kept<F>, A>,
        word: Word,
    ) -> Result<(PendingEnd, MaybeShare<R, F, Q, M, A, B>), Self>
        requires cell { IsOf self party.old × (limit_of party.old ≡ limit_in self) }
        requires room { HasRoom word }
        requires party { (y : Slot F _) × StandsWith Pending (work_first y []) party.old × IsFuture (values_in self) y }
        ensures path { (y : Slot F _) → StandsWith Pending (work_first y []) party.old → EndsPending (work_first y []) party.old party.new (end_of result) }
        ensures share { IfOk result (λ r. Leaves self r.1 (not (ends_run r.0))) }
        ensures kept { IfErr result (λ share. cell_of share ≡ cell_of self) }
    {
        let rt = self.cell().rt;
        match self.attempt_from::<EndingPending, R>(rt, party, word) {
            Ok(made) => Ok(made),
            Err((_, share)) => Err(share),
        }
    }

    // The end step of a run with its output, which is dropped where nobody will claim it.
    pub(crate) fn store_output(
        &self,
        party: &mut Party<F, Kept<F>, A>,
        output: Held<Kept<F>>,
    ) -> Word
        requires cell { IsOf self.now party.old }
        requires party { StandsWith ReadyFutureDropped (work_first Empty []) party.old }
        requires yielded { HasYielded self.now output.value.output }
        ensures { Stores result party.old party.new }
    {
        let found = self.complete(party, output);
        if keeps_output(found) {
            return found;
        }
        self.drop_output(party);
        found
    }
}

impl<R: Drop, F: Yields, Q: Drop, M: Drop, A: Drop, B: Allocator + Copy> Share<R, F, Q, M, A, B> {
    /// Takes the future for a run, by at most 2^64 - 1 tries: true where the run has started, false where the task was closed, and the future is dropped next; none where each try has missed.
    pub fn take_up_some(&self, party: &mut Party<F, Kept<F>, A>) -> Option<bool>
        requires cell { IsOf self.now party.old }
        requires party { Stands as_runnable party.old }
        ensures path { IfSome result (λ started. TakesUp (values_in self.now) party.old party.new started) }
        ensures missed { IfNone result (HasMissed (2 ^ 64 - 1) party.new.seat.me) }
    {
        match self.change_some::<StartingRun>(party, u64::MAX) {
            TriedOnce::Made((), maybe) => {
                maybe.none();
                Some(true)
            }
            TriedOnce::Ended(_, _) => Some(false),
            TriedOnce::Again(_, _) => None,
        }
    }

    /// Writes down that the poll has answered Ready, and that the future is dropped next: the word that was found. One load.
    pub fn answer_ready(&self, party: &mut Party<F, Kept<F>, A>) -> Word
        requires cell { IsOf self.now party.old }
        requires party { (held : List (ℕ × TaskPlace F _ A)) × StandsWith Polling held party.old }
        ensures { (held : List (ℕ × TaskPlace F _ A)) → StandsWith Polling held party.old → DidWith (act AnswerReady ∷ act DropFuture ∷ []) ReadyFutureDropped held party.old party.new }
    {
        self.load::<AnsweringReady>(party)
    }

    /// Writes down that the poll has answered Pending: the word that was found. Where it shows a closed task, the future is to be dropped. One load.
    pub fn answer_pending(&self, party: &mut Party<F, Kept<F>, A>) -> Word
        requires cell { IsOf self.now party.old }
        requires party { (held : List (ℕ × TaskPlace F _ A)) × StandsWith Polling held party.old }
        ensures room { HasRoom result }
        ensures path { (held : List (ℕ × TaskPlace F _ A)) → StandsWith Polling held party.old → AnswersPending held party.old party.new result.closed }
    {
        self.load::<AnsweringPending>(party)
    }

    /// Takes the output out that nobody will claim, writes down that it is dropped, and drops it. One load.
    pub fn drop_output(&self, party: &mut Party<F, Kept<F>, A>)
        requires cell { IsOf self.now party.old }
        requires party { (due : Bool) × (z : Slot F _) × StandsWith (OutputInHand due) (work_first z []) party.old }
        ensures { (due : Bool) (z : Slot F _) → StandsWith (OutputInHand due) (work_first z []) party.old → Did (act DropOutput ∷ []) (notifies due OfRun) party.old party.new }
    {
        let unclaimed = self.take(party);
        self.load::<DroppingOutput>(party);
        unclaimed.discard();
    }

    /// Drops the future of a closed task, and ends its run then: a single fetch, never tried again. The word that was found.
    pub fn end_closed(&self, party: &mut Party<F, Kept<F>, A>) -> Word
        requires cell { IsOf self.now party.old }
        requires party { (y : Slot F _) × StandsWith PendingFutureDropped (work_first y []) party.old }
        ensures { (result.closed ≡ true) × Did (row EndClosed result ∷ []) (notifies result.awaiter OfRun) party.old party.new }
    {
        self.take(party).discard();
        self.fetch_and::<EndingClosed>(party, !(SCHEDULED | RUNNING))
    }

    // Puts the output in hand into the place of the future, which was dropped. It is no step on the word.
    fn lay_output(&self, party: &mut Party<F, Kept<F>, A>, output: Held<Kept<F>>)
        requires cell { IsOf self.now party.old }
        requires party { StandsWith ReadyFutureDropped (work_first Empty []) party.old }
        ensures { DidWith [] ReadyFutureDropped (work_first (Output output.value) []) party.old party.new }
    {
        put_output(&self.block, &mut party.seat, output).discard();
    }

    /// The end step of a run with its output, after its future was dropped, by at most 2^64 - 1 tries: the word that was found, or none where each try has missed.
    pub fn complete_some(
        &self,
        party: &mut Party<F, Kept<F>, A>,
        output: Held<Kept<F>>,
    ) -> Option<Word>
        requires cell { IsOf self.now party.old }
        requires party { StandsWith ReadyFutureDropped (work_first Empty []) party.old }
        requires yielded { HasYielded self.now output.value.output }
        ensures path { IfSome result (λ found. Completes party.old party.new found) }
        ensures missed { IfNone result (HasMissed (2 ^ 64 - 1) party.new.seat.me) }
    {
        self.lay_output(party, output);
        match self.change_some::<Completing>(party, u64::MAX) {
            TriedOnce::Made(found, maybe) => {
                maybe.none();
                Some(found)
            }
            TriedOnce::Ended(_, _) => unreachable!(),
            TriedOnce::Again(_, _) => None,
        }
    }

    /// The end step of a run without an output, from the word on that its poll left, by at most 2^64 - 1 tries: how the run has ended, and its share, if it is left. An inner error is the share of a task that was closed meanwhile, which is left to the end step of a closed one. The outer error is the share, where each try has missed.
    pub fn end_pending_some(
        self,
        party: &mut Party<F, Kept<F>, A>,
        word: Word,
    ) -> Result<Result<(PendingEnd, MaybeShare<R, F, Q, M, A, B>), Self>, Self>
        requires cell { IsOf self party.old × (limit_of party.old ≡ limit_in self) }
        requires room { HasRoom word }
        requires party { (y : Slot F _) × StandsWith Pending (work_first y []) party.old × IsFuture (values_in self) y }
        ensures path { (y : Slot F _) → StandsWith Pending (work_first y []) party.old → IfOk result (λ tried. EndsPending (work_first y []) party.old party.new (end_of tried)) }
        ensures share { IfOk result (λ tried. IfOk tried (λ r. Leaves self r.1 (not (ends_run r.0)))) }
        ensures kept { IfOk result (λ tried. IfErr tried (λ share. IsSame self share)) }
        ensures left { IfErr result (λ share. IsSame self share) }
        ensures missed { IfErr result (λ _. HasMissed (2 ^ 64 - 2) party.new.seat.me) }
    {
        match self.attempt_some::<EndingPending>(party, word, u64::MAX) {
            TriedOnce::Made(end, maybe) => Ok(Ok((end, maybe))),
            TriedOnce::Ended(_, share) => Ok(Err(share)),
            TriedOnce::Again(_, share) => Err(share),
        }
    }

    /// Clears SCHEDULED, of a task whose future was dropped: a single fetch, never tried again. The word that was found.
    pub fn unschedule(&self, party: &mut Party<F, Kept<F>, A>) -> Word
        requires cell { IsOf self.now party.old }
        requires party { (closer : WithoutPoll) × StandsWith (FutureGone closer) (work_first Empty []) party.old }
        ensures { Did (row Unschedule result ∷ []) (notifies result.awaiter (closing_way (position party.old))) party.old party.new }
    {
        self.fetch_and::<Unscheduling>(party, !SCHEDULED)
    }
}
