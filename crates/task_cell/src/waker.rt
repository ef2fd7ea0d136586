//! Wakers: what they hold, and their calls.
ghost use Rattle.std.specs.Prelude.{◌≡◌, [], ◌∷◌, IfOk, IfErr, true, false, List, IfSome, is_some};
ghost use Rattle.task_steps.specs.Rule.{view, fresh};
ghost use Rattle.task_steps.specs.Standing.{as_waker, as_lent};
ghost use Rattle.task_steps.specs.Witness.{Witness};
ghost use Rattle.task_steps.specs.declared.table.Deed.{Deed};
ghost use Rattle.task_cell.specs.Belongs.{IsOf, cell_of, limit_in, HasEnded, HasMade};
ghost use Rattle.task_cell.specs.Calls.{Stands, deeds, limit_of, Sees, second};
ghost use Rattle.task_cell.specs.Gained.{HasFoundLimit, HasGained};
ghost use Rattle.task_cell.specs.Handed.{HandedOver};
ghost use Rattle.task_cell.specs.WakerCalls.{IsClone, WasGivenUp, WokeBy};
ghost use Rattle.task_cell.specs.WakerPaths.{WakerDropPath, WakesTask};
ghost use Rattle.task_cell.specs.Wakers.{is_owned};

use crate::cell::{EndedCall, Hold, Party, Share, WakerSeat};
use crate::runnable::Runnable;
use std::alloc::{Allocator, Global};
use std::sync::Wait;
use task_core::word::Word;
use task_core::{Schedule, Wake, Yields};
use task_steps::table::Kept;

impl<R, F: Yields, Q, M, A, B: Allocator + Copy> WakerSeat<R, F, Q, M, A, B> {
    // A waker that was gained.
    pub(crate) fn owned(
        share: Share<R, F, Q, M, A, B>,
        party: Party<F, Kept<F>, A>,
    ) -> WakerSeat<R, F, Q, M, A, B>
        requires cell { IsOf share party }
        requires party { party.seat.me ≡ (view (limit_in share) (fresh as_waker ∷ []), []) }
        ensures share { result.share ≡ share }
        ensures owned { is_owned result.hold ≡ true }
    {
        WakerSeat {
            share,
            hold: Hold::Owned(party),
        }
    }

    // The waker of a poll.
    pub(crate) fn lent(share: Share<R, F, Q, M, A, B>) -> WakerSeat<R, F, Q, M, A, B>
        ensures share { result.share ≡ share }
        ensures lent { result.hold ≡ Hold.Lent }
    {
        WakerSeat {
            share,
            hold: Hold::Lent,
        }
    }

    // The share of a waker that was lent, once the poll has answered.
    pub(crate) fn into_share(self) -> Share<R, F, Q, M, A, B>
        requires { self.hold ≡ Hold.Lent }
        ensures { result ≡ self.share }
    {
        let WakerSeat { share, hold } = self;
        match hold {
            Hold::Lent => share,
            Hold::Owned(party) => {
                let Party { seat: _ } = party;
                unreachable!()
            }
        }
    }

    // The share and the party of an owned waker; a lent one stays as it is.
    pub(crate) fn into_owned(
        self,
    ) -> Result<(Share<R, F, Q, M, A, B>, Party<F, Kept<F>, A>), WakerSeat<R, F, Q, M, A, B>>
        ensures share { IfOk result (λ owned. owned.0 ≡ self.share) }
        ensures cell { IfOk result (λ owned. IsOf owned.0 owned.1 × (limit_of owned.1 ≡ limit_in owned.0)) }
        ensures party { IfOk result (λ owned. Stands as_waker owned.1 × (deeds owned.1 ≡ [])) }
        ensures lent { IfErr result (λ lent. (lent.share ≡ self.share) × (lent.hold ≡ Hold.Lent)) }
        ensures was_lent { IfErr result (λ _. is_owned self.hold ≡ false) }
    {
        let WakerSeat { share, hold } = self;
        match hold {
            Hold::Lent => Err(WakerSeat {
                share,
                hold: Hold::Lent,
            }),
            Hold::Owned(party) => Ok((share, party)),
        }
    }
}

impl<R: Wait + Drop + Copy, F: Yields, Q: Drop, M: Drop, A: Drop, B: Allocator + Copy> WakerSeat<
    R,
    F,
    Q,
    M,
    A,
    B,
> {
    // One more waker, which is owned. The error is the record of the call, which has found the limit.
    pub(crate) fn gain(&self) -> Result<WakerSeat<R, F, Q, M, A, B>, EndedCall<F, Kept<F>, A>>
        ensures cell { IfOk result (λ gained. cell_of gained.share ≡ cell_of self.now.share) }
        ensures owned { IfOk result (λ gained. is_owned gained.hold ≡ true) }
        ensures gained { IfOk result (λ _. HasGained self.now.share) }
        ensures refused { IfErr result (λ ended. HasFoundLimit self.now.share ended.party) }
    {
        let (share, party) = self.share.gain_by_reference()?;
        Ok(WakerSeat::owned(share, party))
    }
}

/// What wakes a task: a future keeps one, a clone of that which its poll is lent, and wakes it once a further poll can help. It holds a reference.
///
/// The waker that a poll is lent holds none, and is taken back when the poll has answered. No call on a waker waits for another thread.
#[must_use]
pub struct TaskWaker<
    R: Wait + Drop + Copy,
    F: Yields,
    Q: Drop,
    M: Drop,
    A: Wake,
    X: Copy,
    B: Allocator + Copy = Global,
>
where
    Q: Schedule<Runnable<R, F, Q, M, A, X, B>>,
{
    pub(crate) inner: WakerSeat<R, F, Q, M, A, B>,
    pub(crate) around: X,
}

impl<R: Wait + Drop + Copy, F: Yields, Q: Drop, M: Drop, A: Wake, X: Copy, B: Allocator + Copy> Drop
    for TaskWaker<R, F, Q, M, A, X, B>
where
    Q: Schedule<Runnable<R, F, Q, M, A, X, B>>,
{
    fn drop(self) {
        self.discard();
    }
}

impl<
    R: Wait + Drop + Copy,
    F: Yields,
    Q: Drop,
    M: Drop,
    A: Wake,
    X: Copy,
    B: Allocator + Copy,
> TaskWaker<R, F, Q, M, A, X, B>
where
    Q: Schedule<Runnable<R, F, Q, M, A, X, B>>,
{
    // What the waker is made of.
    pub(crate) fn into_parts(self) -> (WakerSeat<R, F, Q, M, A, B>, X)
        ensures inner { result.0 ≡ self.inner }
        ensures around { result.1 ≡ self.around }
    {
        let TaskWaker { inner, around } = self;
        (inner, around)
    }

    /// Wakes the task, and gives the waker up: `wake_by_ref`, and then a drop. By a waker whose surroundings are `()` it cancels the task where the schedule value drops Runnables without an executor.
    pub fn wake(self) -> EndedCall<F, Kept<F>, A>
        ensures path { WokeBy Q.scheduled self result.party }
        ensures given_up { WasGivenUp Q.scheduled self }
    {
        let woken = self.wake_by_ref();
        self.discard();
        woken
    }

    /// Wakes the task. A task that is over stays as it is; one that is scheduled will be polled after this call; one that runs is scheduled once more by its run; and of one that is idle, a Runnable is handed to the schedule value, with `woken_while_running` false and the surroundings of this waker. Where these are `()`, and the schedule value drops such Runnables, the task is cancelled.
    pub fn wake_by_ref(&self) -> EndedCall<F, Kept<F>, A>
        ensures path { WokeBy Q.scheduled self.now result.party }
    {
        match self.inner.share.wake_once() {
            (party, Ok(woken)) => self.end_wake(party, woken),
            (party, Err(found)) => self.wake_again(party, found),
        }
    }

    // A wake whose first try has missed, and has left this word. It stands apart, so that a wake that is made at once calls nothing that may wait, but the schedule value.
    #[cold]
    #[inline(never)]
    fn wake_again(&self, mut party: Party<F, Kept<F>, A>, word: Word) -> EndedCall<F, Kept<F>, A>
        requires cell { IsOf self.now.inner.share party × (limit_of party ≡ limit_in self.now.inner.share) }
        requires party { (p : _) × HasMade self.now.inner.share [] p × Sees word p party }
        ensures path { WokeBy Q.scheduled self.now result.party }
    {
        let woken = self.inner.share.wake_again(&mut party, word);
        self.end_wake(party, woken)
    }

    // What a wake leaves to be done, after its step: the Runnable of a task that was idle goes to the schedule value.
    #[inline(always)]
    fn end_wake(
        &self,
        party: Party<F, Kept<F>, A>,
        woken: Option<(Share<R, F, Q, M, A, B>, Party<F, Kept<F>, A>)>,
    ) -> EndedCall<F, Kept<F>, A>
        requires party { (p : _) × HasMade self.now.inner.share [] p × WakesTask p party (second woken) }
        requires share { IfSome woken (λ made. cell_of made.0 ≡ cell_of self.now.inner.share) }
        ensures path { WokeBy Q.scheduled self.now result.party }
    {
        match woken {
            None => self.inner.share.ledger().record(party),
            Some((share, deliverer)) => {
                self.inner.share.finish_wake(share, deliverer, self.around);
                self.inner.share.ledger().record(party)
            }
        }
    }

    /// The word as one load finds it. The clause `witness` says all that is proved of it: an interleaving of the machine, from the spawn of this task, ends in it, all laws hold there, and one of the parties there is the one that this call got. What a wake did, its record says. It waits for nobody.
    pub fn witness(&self) -> Word
        ensures witness { Witness (limit_in self.now.inner.share) result as_lent [] }
    {
        self.inner.share.witness_by_reference()
    }

    /// One more waker of the same task, which holds a reference. Where the count of references is at the limit, nothing has changed, and the error is the record of the call, which says so.
    pub fn try_clone(&self) -> Result<Self, EndedCall<F, Kept<F>, A>>
        ensures cell { IfOk result (λ waker. cell_of waker.inner.share ≡ cell_of self.now.inner.share) }
        ensures around { IfOk result (λ waker. waker.around ≡ self.now.around) }
        ensures owned { IfOk result (λ waker. is_owned waker.inner.hold ≡ true) }
        ensures gained { IfOk result (λ _. HasGained self.now.inner.share) }
        ensures refused { IfErr result (λ ended. HasFoundLimit self.now.inner.share ended.party) }
    {
        let inner = self.inner.gain()?;
        Ok(TaskWaker {
            inner,
            around: self.around,
        })
    }

    /// Whether a wake of the other waker is known to wake the same task. A no says nothing: two wakers of one task may be told apart all the same. Today each answer is no, since a share of a cell can't be compared with another.
    pub fn will_wake(&self, other: &Self) -> bool
        ensures { result ≡ false }
    {
        let _ = other;
        false
    }

    /// The surroundings that the handle carries.
    pub fn around(&self) -> X
        ensures { result ≡ self.now.around }
    {
        self.around
    }

    /// Does what a drop does: gives the reference up. The last handle of a detached task that is open closes it, and hands its Runnable over. `None` of the waker that a poll is lent, which holds no reference, and is never dropped: its run takes it back.
    pub fn discard(self) -> Option<EndedCall<F, Kept<F>, A>>
        ensures path { IfSome result (λ ended. (path : List Deed) × WakerDropPath (HandedOver Q.scheduled (cell_of self.inner.share) self.around false) path × HasEnded self.inner.share path ended.party) }
        ensures owned { is_owned self.inner.hold ≡ true → is_some result ≡ true }
    {
        let (inner, around) = self.into_parts();
        match inner.into_owned() {
            Ok((share, mut party)) => {
                let ledger = share.ledger();
                share.drop_waker(&mut party, around);
                Some(ledger.record(party))
            }
            Err(lent) => {
                lent.into_share().leak();
                None
            }
        }
    }

    /// The same handle without the surroundings. It makes no step.
    pub fn park(self) -> ParkedWaker<R, F, Q, M, A, B>
        ensures { result.inner ≡ self.inner }
    {
        let (inner, _) = self.into_parts();
        ParkedWaker { inner }
    }

    /// The same waker as a store keeps it, which cannot wake. It makes no step.
    pub fn stored(self) -> StoredWaker<R, F, Q, M, A, B>
    where
        Q: Schedule<Runnable<R, F, Q, M, A, (), B>>,
        ensures { result.waker.inner ≡ self.inner }
    {
        StoredWaker::new(self.with_around(()))
    }

    /// The same waker with other surroundings. It makes no step.
    ///
    /// A wake by it, and the drop of the last waker, hand their Runnable over with these surroundings. With `()` any container holds the waker, but the schedule value then has no executor at hand:
    /// where it drops such Runnables, a wake cancels the task: a store keeps `stored`, which cannot wake.
    pub fn with_around<Y: Copy>(self, around: Y) -> TaskWaker<R, F, Q, M, A, Y, B>
    where
        Q: Schedule<Runnable<R, F, Q, M, A, Y, B>>,
        ensures inner { result.inner ≡ self.inner }
        ensures around { result.around ≡ around }
    {
        let (inner, _) = self.into_parts();
        TaskWaker { inner, around }
    }
}

/// A waker without the surroundings. It counts as the waker, and can't be dropped: it is unparked.
#[must_use]
pub struct ParkedWaker<R, F: Yields, Q, M, A, B: Allocator + Copy = Global> {
    pub(crate) inner: WakerSeat<R, F, Q, M, A, B>,
}

impl<R: Wait + Drop + Copy, F: Yields, Q: Drop, M: Drop, A: Wake, B: Allocator + Copy> ParkedWaker<
    R,
    F,
    Q,
    M,
    A,
    B,
> {
    /// The waker again, with these surroundings. It makes no step. With `()` a wake by it cancels the task where the schedule value drops Runnables without an executor.
    pub fn unpark<X: Copy>(self, around: X) -> TaskWaker<R, F, Q, M, A, X, B>
    where
        Q: Schedule<Runnable<R, F, Q, M, A, X, B>>,
        ensures inner { result.inner ≡ self.inner }
        ensures around { result.around ≡ around }
    {
        let ParkedWaker { inner } = self;
        TaskWaker { inner, around }
    }
}

/// A waker without the surroundings, for a store that stands in the surroundings. It counts as the waker, and its drop is that of a waker with the surroundings `()`. It cannot wake: it gets its surroundings back before.
#[derive(Drop)]
#[must_use]
pub struct StoredWaker<
    R: Wait + Drop + Copy,
    F: Yields,
    Q: Drop,
    M: Drop,
    A: Wake,
    B: Allocator + Copy = Global,
>
where
    Q: Schedule<Runnable<R, F, Q, M, A, (), B>>,
{
    pub(crate) waker: TaskWaker<R, F, Q, M, A, (), B>,
}

impl<R: Wait + Drop + Copy, F: Yields, Q: Drop, M: Drop, A: Wake, B: Allocator + Copy> StoredWaker<
    R,
    F,
    Q,
    M,
    A,
    B,
>
where
    Q: Schedule<Runnable<R, F, Q, M, A, (), B>>,
{
    // What a store keeps of this waker.
    pub(crate) fn new(waker: TaskWaker<R, F, Q, M, A, (), B>) -> StoredWaker<R, F, Q, M, A, B>
        ensures { result.waker ≡ waker }
    {
        StoredWaker { waker }
    }

    /// The waker again, with these surroundings. It makes no step.
    pub fn with_around<Y: Copy>(self, around: Y) -> TaskWaker<R, F, Q, M, A, Y, B>
    where
        Q: Schedule<Runnable<R, F, Q, M, A, Y, B>>,
        ensures inner { result.inner ≡ self.waker.inner }
        ensures around { result.around ≡ around }
    {
        let StoredWaker { waker } = self;
        waker.with_around(around)
    }
}

/// A waker is an awaiter too, of a Task that other code keeps and polls. What `wake` and `wake_by_ref` say of surroundings `()` holds here too.
impl<R: Wait + Drop + Copy, F: Yields, Q: Drop, M: Drop, A: Wake, X: Copy, B: Allocator + Copy> Wake
    for TaskWaker<R, F, Q, M, A, X, B>
where
    Q: Schedule<Runnable<R, F, Q, M, A, X, B>>,
{
    type Record = EndedCall<F, Kept<F>, A>;

    ghost woken = { λ waker ended. WokeBy Q.scheduled waker ended.party × WasGivenUp Q.scheduled waker };

    ghost woken_by_ref = { λ waker ended. WokeBy Q.scheduled waker ended.party };

    ghost cloned = { λ waker result. IfOk result (λ clone. IsClone waker clone) × IfErr result (λ ended. HasFoundLimit waker.inner.share ended.party) };

    ghost compared = { λ _ _ answer. answer ≡ false };

    fn wake(self) -> EndedCall<F, Kept<F>, A> {
        TaskWaker::wake(self)
    }

    fn wake_by_ref(&self) -> EndedCall<F, Kept<F>, A> {
        TaskWaker::wake_by_ref(self)
    }

    fn try_clone(&self) -> Result<Self, EndedCall<F, Kept<F>, A>> {
        TaskWaker::try_clone(self)
    }

    fn will_wake(&self, other: &Self) -> bool {
        TaskWaker::will_wake(self, other)
    }
}
