//! A wake of the task, and how its Runnable is handed to the schedule value.
ghost use Rattle.std.specs.Prelude.{◌≡◌, ◌<◌, ◌-◌, ◌^◌, List, [], ◌∷◌, IfSome, IfOk, IfErr, None, false, true};
ghost use Rattle.task_core.specs.declared.acts.Act.TheVariants.{HandOver, EndCall};
ghost use Rattle.task_laws.specs.declared.positions.Answer.{Answer};
ghost use Rattle.task_laws.specs.declared.positions.OnceDelivered.TheVariants.{ThenEnds};
ghost use Rattle.task_laws.specs.declared.positions.Position.{Position};
ghost use Rattle.task_laws.specs.declared.positions.Position.TheVariants.{Deliverer};
ghost use Rattle.task_steps.specs.Attempts.{HasChanged, HasMissed};
ghost use Rattle.task_steps.specs.Beside.{waking_anew, without_newest, newest};
ghost use Rattle.task_steps.specs.Deeds.{act};
ghost use Rattle.task_steps.specs.Seats.{handing_over, runnable_of};
ghost use Rattle.task_steps.specs.Standing.{as_lent, as_runnable, as_deliverer, hands_over, handed_over, as_ended};
ghost use Rattle.task_steps.specs.Values.{values_of};
ghost use Rattle.task_steps.specs.WakerScripts.{to_wake, brings_runnable};
ghost use Rattle.task_steps.specs.declared.table.Deed.{Deed};
ghost use Rattle.task_cell.specs.Belongs.{HasMade, IsOf, Leaves, cell_of, limit_in, values_in, IsBeside};
ghost use Rattle.task_cell.specs.Calls.{Sees, Stands, limit_of, second, Did, IsNew, position};
ghost use Rattle.task_cell.specs.Handed.{HandedOver};
ghost use Rattle.task_cell.specs.WakerPaths.{TaskWakePath, WakesTask};

use crate::attempt::Grip;
use crate::cell::{MaybeShare, Party, Share};
use crate::runnable::Runnable;
use crate::share::Ledger;
use atomic_table::Split;
use counted_block::BlockPlay;
use std::alloc::Allocator;
use std::sync::Wait;
use task_core::acts::Act::{WakeIdle, WakeRunning, WakeScheduled};
use task_core::word::Word;
use task_core::{Schedule, ScheduleInfo, Wake, Yields};
use task_steps::attempt::{Change, TriedOnce};
use task_steps::found::{Woken, is_held};
use task_steps::table::{Kept, TaskPlace, Terms, View};

// A wake by reference gets a party of its own, by a seat of its own. It has ended where the load finds the task over.
pub(crate) struct WakingAnew;

impl<F: Yields, A> BlockPlay<TaskPlace<F, Kept<F>, A>, View, Terms<F>> for WakingAnew {
    ghost then = { λ terms. waking_anew (values_of F.Yields terms.future.value) };
}

// A wake of the task, unless it is over.
pub(crate) struct WakingTask;

impl Change for WakingTask {
    type Row = Woken;

    ghost attempt = { to_wake };

    fn next(word: Word, limit: u64) -> Option<(Word, Woken)> {
        let _ = limit;
        if !is_held(word) || word.is_over() {
            return None;
        }
        if word.fits(0, WakeScheduled) {
            return Some((word, Woken::Scheduled));
        }
        if word.fits(0, WakeRunning) {
            return Some((word.written(WakeRunning), Woken::Running));
        }
        Some((word.written(WakeIdle), Woken::Idle))
    }

    fn is_end(word: Word, limit: u64) -> bool {
        let _ = limit;
        !word.is_open()
    }
}

// The newest party of a seat gets a seat of its own.
pub(crate) struct Parting;

impl Split<View> for Parting {
    ghost left = { without_newest };

    ghost right = { newest };
}

// A deliverer hands its Runnable over, which gets a seat of its own.
pub(crate) struct HandingOver;

impl Split<View> for HandingOver {
    ghost left = { handing_over };

    ghost right = { runnable_of };
}

impl<R: Drop, F: Yields, Q: Drop, M: Drop, A: Drop, B: Allocator + Copy> Share<R, F, Q, M, A, B> {
    // The party of a wake by reference, which has looked at the word, and that word. The error is the party where the task is over, and the wake has ended.
    #[inline(always)]
    fn look_to_wake(&self) -> Result<(Party<F, Kept<F>, A>, Word), Party<F, Kept<F>, A>>
        ensures looks { IfOk result (λ looked. (p : _) × HasMade self.now [] p × Sees looked.1 p looked.0) }
        ensures over { IfErr result (λ party. (p : _) × HasMade self.now [] p × WakesTask p party None) }
        ensures seen { IfOk result (λ looked. HasMissed 0 looked.0.seat.me) }
    {
        let (found, seat) = self.block.load_new_seat::<WakingAnew>();
        let word = Word::from_bits(found);
        if WakingTask::is_end(word, self.cell().limit) {
            Err(Party { seat })
        } else {
            Ok((Party { seat }, word))
        }
    }

    // What a wake leaves to be done that found this: where the task was idle, a share for a Runnable, and a deliverer, which is to hand it over.
    #[inline(always)]
    fn deliverer_of(
        &self,
        party: &mut Party<F, Kept<F>, A>,
        found: Woken,
        maybe: MaybeShare<R, F, Q, M, A, B>,
    ) -> Option<(Self, Party<F, Kept<F>, A>)>
        requires cell { IsOf self.now party.old }
        requires brought { Leaves self.now maybe (brings_runnable found) }
        requires made { (p : _) × Stands as_lent p × HasChanged (values_in self.now) (limit_in self.now) to_wake found p.seat.me party.old.seat.me }
        ensures path { (p : _) → Stands as_lent p → (party.old.seat.block ≡ p.seat.block) → HasChanged (values_in self.now) (limit_in self.now) to_wake found p.seat.me party.old.seat.me → WakesTask p party.new (second result) }
        ensures share { IfSome result (λ woken. cell_of woken.0 ≡ cell_of self.now) }
    {
        match found {
            Woken::Scheduled | Woken::Running => {
                maybe.none();
                None
            }
            Woken::Idle => {
                let deliverer = self.split::<Parting>(party);
                Some((maybe.share(), deliverer))
            }
        }
    }

    // One try of a wake, by a party of its own: the party, and what the wake leaves to be done, or the word on which it is to be tried again. It cannot wait.
    #[inline(always)]
    pub(crate) fn wake_once(
        &self,
    ) -> (
        Party<F, Kept<F>, A>,
        Result<Option<(Self, Party<F, Kept<F>, A>)>, Word>,
    )
        ensures path { IfOk result.1 (λ woken. (p : _) × HasMade self.now [] p × WakesTask p result.0 (second woken)) }
        ensures share { IfOk result.1 (λ made. IfSome made (λ woken. cell_of woken.0 ≡ cell_of self.now)) }
        ensures again { IfErr result.1 (λ w. (p : _) × HasMade self.now [] p × Sees w p result.0) }
        ensures missed { IfErr result.1 (λ _. HasMissed 1 result.0.seat.me) }
    {
        let (mut party, word) = match self.look_to_wake() {
            Ok(looked) => looked,
            Err(party) => return (party, Ok(None)),
        };
        match self.try_once::<WakingTask>(&mut party, word) {
            TriedOnce::Made(found, maybe) => {
                let woken = self.deliverer_of(&mut party, found, maybe);
                (party, Ok(woken))
            }
            TriedOnce::Ended(_, _) => (party, Ok(None)),
            TriedOnce::Again(found, _) => (party, Err(found)),
        }
    }

    /// A wake of the task by a handle that is lent for it, by at most 2^64 - 1 tries: the Runnable that is to be handed to the schedule function; or, where there is none, the party of the call, which tells why. The outer error is the party where each try has missed.
    pub fn wake_some(
        &self,
    ) -> Result<Result<(Self, Party<F, Kept<F>, A>), Party<F, Kept<F>, A>>, Party<F, Kept<F>, A>>
        ensures share { IfOk result (λ woken. IfOk woken (λ n. cell_of n.0 ≡ cell_of self.now)) }
        ensures delivers { IfOk result (λ woken. IfOk woken (λ n. IsOf self.now n.1 × (limit_of n.1 ≡ limit_in self.now) × Stands as_runnable n.1)) }
        ensures nothing { IfOk result (λ woken. IfErr woken (λ party. (path : List Deed) × TaskWakePath false path × HasMade self.now path party)) }
        ensures missed { IfErr result (λ party. (party.seat.block ≡ self.now.block.id) × HasMissed (2 ^ 64 - 1) party.seat.me) }
    {
        let (party, woken) = self.wake_once();
        match woken {
            Ok(made) => Ok(self.woken(party, made)),
            Err(word) => self.wake_more(party, word),
        }
    }

    // The same once the first try has missed, and has left this word.
    #[inline(always)]
    fn wake_more(
        &self,
        mut party: Party<F, Kept<F>, A>,
        word: Word,
    ) -> Result<Result<(Self, Party<F, Kept<F>, A>), Party<F, Kept<F>, A>>, Party<F, Kept<F>, A>>
        requires party { (p : _) × HasMade self.now [] p × Sees word p party }
        requires missed { HasMissed 1 party.seat.me }
        ensures share { IfOk result (λ woken. IfOk woken (λ n. cell_of n.0 ≡ cell_of self.now)) }
        ensures delivers { IfOk result (λ woken. IfOk woken (λ n. IsOf self.now n.1 × (limit_of n.1 ≡ limit_in self.now) × Stands as_runnable n.1)) }
        ensures nothing { IfOk result (λ woken. IfErr woken (λ party. (path : List Deed) × TaskWakePath false path × HasMade self.now path party)) }
        ensures missed { IfErr result (λ party. (party.seat.block ≡ self.now.block.id) × HasMissed (2 ^ 64 - 1) party.seat.me) }
    {
        match self.attempt_some::<WakingTask>(&mut party, word, u64::MAX - 1) {
            TriedOnce::Made(found, maybe) => {
                let made = self.deliverer_of(&mut party, found, maybe);
                Ok(self.woken(party, made))
            }
            TriedOnce::Ended(_, _) => Ok(Err(party)),
            TriedOnce::Again(_, _) => Err(party),
        }
    }

    // What a wake answers that has been made: the Runnable of its deliverer, or its own party, where there is none.
    #[inline(always)]
    fn woken(
        &self,
        party: Party<F, Kept<F>, A>,
        made: Option<(Self, Party<F, Kept<F>, A>)>,
    ) -> Result<(Self, Party<F, Kept<F>, A>), Party<F, Kept<F>, A>>
        requires path { (p : _) × HasMade self.now [] p × WakesTask p party (second made) }
        requires share { IfSome made (λ woken. cell_of woken.0 ≡ cell_of self.now) }
        ensures share { IfOk result (λ n. cell_of n.0 ≡ cell_of self.now) }
        ensures delivers { IfOk result (λ n. IsOf self.now n.1 × (limit_of n.1 ≡ limit_in self.now) × Stands as_runnable n.1) }
        ensures nothing { IfErr result (λ party. (path : List Deed) × TaskWakePath false path × HasMade self.now path party) }
    {
        match made {
            Some((share, deliverer)) => {
                let Party { seat: _ } = party;
                let runnable = self.runnable_of(deliverer);
                Ok((share, runnable))
            }
            None => Err(party),
        }
    }

    // The Runnable of a deliverer, which has ended then.
    fn runnable_of(&self, mut deliverer: Party<F, Kept<F>, A>) -> Party<F, Kept<F>, A>
        requires cell { IsOf self.now deliverer × (limit_of deliverer ≡ limit_in self.now) }
        requires deliverer { Stands as_deliverer deliverer }
        ensures { IsOf self.now result × (limit_of result ≡ limit_in self.now) × Stands as_runnable result }
    {
        let runnable = self.hand_over(&mut deliverer);
        self.ledger().end(&mut deliverer);
        deliverer.let_go();
        runnable
    }

    /// The Runnable of a party that hands one over. It makes no step.
    pub fn hand_over(&self, party: &mut Party<F, Kept<F>, A>) -> Party<F, Kept<F>, A>
        requires cell { IsOf self.now party.old }
        requires party { (at : Position) × (hands_over at ≡ true) × Stands at party.old }
        ensures path { Did (act HandOver ∷ []) (handed_over (position party.old)) party.old party.new }
        ensures runnable { IsNew as_runnable party.old result }
    {
        self.split::<HandingOver>(party)
    }
}

impl<R: Wait + Drop + Copy, F: Yields, Q: Drop, M: Drop, A: Drop, B: Allocator + Copy> Share<
    R,
    F,
    Q,
    M,
    A,
    B,
> {
    // A wake whose first try has missed, and has left this word.
    pub(crate) fn wake_again(
        &self,
        party: &mut Party<F, Kept<F>, A>,
        word: Word,
    ) -> Option<(Self, Party<F, Kept<F>, A>)>
        requires cell { IsOf self.now party.old × (limit_of party.old ≡ limit_in self.now) }
        requires party { (p : _) × Stands as_lent p × Sees word p party.old }
        ensures path { (p : _) → Stands as_lent p → Sees word p party.old → WakesTask p party.new (second result) }
        ensures share { IfSome result (λ woken. cell_of woken.0 ≡ cell_of self.now) }
    {
        match self.attempt_again::<WakingTask, R>(self.cell().rt, party, word) {
            Ok(made) => self.deliverer_of(party, made.0, made.1),
            Err(_) => None,
        }
    }
}

impl<R: Wait + Drop + Copy, F: Yields, Q: Drop, M: Drop, A: Wake, B: Allocator + Copy> Share<
    R,
    F,
    Q,
    M,
    A,
    B,
> {
    // Hands a Runnable to the schedule value, by a share that the party's step brought. The act stands in the list before the schedule value is called.
    pub(crate) fn deliver_by<X: Copy>(
        &self,
        share: Self,
        party: &mut Party<F, Kept<F>, A>,
        around: X,
    )
    where
        Q: Schedule<Runnable<R, F, Q, M, A, X, B>>,
        requires cell { IsOf self.now party.old × (limit_of party.old ≡ limit_in self.now) }
        requires share { cell_of share ≡ cell_of self.now }
        requires party { (at : Position) × (hands_over at ≡ true) × Stands at party.old }
        ensures path { Did (act HandOver ∷ []) (handed_over (position party.old)) party.old party.new }
        ensures fact { HandedOver Q.scheduled (cell_of self.now) around false }
    {
        let runnable = Runnable::new(share, self.hand_over(party), around);
        let info = ScheduleInfo {
            woken_while_running: false,
        };
        self.cell().schedule.schedule(runnable, info);
    }

    // Hands a Runnable to the schedule value that gets the share of this party, which has no handle from then on. A hold keeps the schedule value until the call has returned.
    pub(crate) fn deliver<X: Copy>(
        self,
        party: &mut Party<F, Kept<F>, A>,
        around: X,
        woken_while_running: bool,
    ) -> Ledger<R, F, Q, M, A, B>
    where
        Q: Schedule<Runnable<R, F, Q, M, A, X, B>>,
        requires cell { IsOf self party.old × (limit_of party.old ≡ limit_in self) }
        requires party { (at : Position) × (hands_over at ≡ true) × Stands at party.old }
        ensures path { Did (act HandOver ∷ []) (handed_over (position party.old)) party.old party.new }
        ensures fact { HandedOver Q.scheduled (cell_of self) around woken_while_running }
        ensures ledger { IsBeside result party.new }
    {
        let ledger = self.ledger();
        let hold = self.hold();
        let handed = self.hand_over(party);
        let runnable = Runnable::new(self, handed, around);
        let info = ScheduleInfo {
            woken_while_running,
        };
        hold.cell().schedule.schedule(runnable, info);
        hold.release();
        ledger
    }

    // Hands the Runnable of a run over that has ended, which ends the call.
    pub(crate) fn hand_on<X: Copy>(self, party: &mut Party<F, Kept<F>, A>, around: X, woken: bool)
    where
        Q: Schedule<Runnable<R, F, Q, M, A, X, B>>,
        requires cell { IsOf self party.old × (limit_of party.old ≡ limit_in self) }
        requires party { (answer : Answer) × Stands (Deliverer woken (ThenEnds answer)) party.old }
        ensures path { (answer : Answer) → Stands (Deliverer woken (ThenEnds answer)) party.old → Did (act HandOver ∷ act EndCall ∷ []) as_ended party.old party.new }
        ensures fact { HandedOver Q.scheduled (cell_of self) around woken }
    {
        let ledger = self.deliver(party, around, woken);
        ledger.end(party);
    }

    // Hands a Runnable to the schedule value again, with `woken_while_running` false. It makes no step on the word.
    pub(crate) fn schedule<X: Copy>(self, party: &mut Party<F, Kept<F>, A>, around: X)
    where
        Q: Schedule<Runnable<R, F, Q, M, A, X, B>>,
        requires cell { IsOf self party.old × (limit_of party.old ≡ limit_in self) }
        requires party { Stands as_runnable party.old }
        ensures path { Did (act HandOver ∷ act EndCall ∷ []) as_ended party.old party.new }
        ensures fact { HandedOver Q.scheduled (cell_of self) around false }
    {
        let ledger = self.deliver(party, around, false);
        ledger.end(party);
    }

    // The rest of a wake of an idle task: its deliverer hands the Runnable to the schedule value, with `woken_while_running` false, and has ended.
    pub(crate) fn finish_wake<X: Copy>(
        &self,
        share: Self,
        mut deliverer: Party<F, Kept<F>, A>,
        around: X,
    )
    where
        Q: Schedule<Runnable<R, F, Q, M, A, X, B>>,
        requires cell { IsOf self.now deliverer × (limit_of deliverer ≡ limit_in self.now) }
        requires share { cell_of share ≡ cell_of self.now }
        requires deliverer { Stands as_deliverer deliverer }
        ensures fact { HandedOver Q.scheduled (cell_of self.now) around false }
    {
        self.deliver_by(share, &mut deliverer, around);
        self.ledger().end(&mut deliverer);
        deliverer.let_go();
    }
}
