//! The turns of workers: one worker, what all workers need, and a worker that waits for one Task.
ghost use Rattle.std.specs.Prelude.{◌≡◌, ◌≤◌, ◌↔◌, ℕ, [], length, true, false, IfOk, IfSome, IsNone, IsSome, IsSomeAnd, IsTrue, MatchOption, OnErr};
ghost use Rattle.std.specs.Arc.{arc_value};
ghost use mathlib.Core.Option.{some};
ghost use lib.ListN.{get_elem?};
ghost use Rattle.executor_parts.specs.Answered.{answer_of};
ghost use Rattle.executor.specs.Hands.{HandsOut, Takes};
ghost use Rattle.executor.specs.Wakes.{RingsWorker};
ghost use Rattle.work_queues.specs.Settled.{OwesNothing};

use crate::bell_awaiter::BellAwaiter;
use crate::due::DueRunnable;
use crate::ending::Finished;
use crate::errors::TurnsError;
use crate::kept::{collect, wake_posted};
use crate::pool::{Place, Pool, PoolRunnable, PoolWaker};
use crate::ringing::{PoolListener, Rings};
use crate::stage::NotShutDown;
use async_task::{Future, TaskClosed, TaskPoll, Wake, Yields};
use executor_parts::{Awaited, BlockOnError};
use std::alloc::{Allocator, Global};
use std::sync::Wait;
use work_queues::{Bells, Limit, NoLimit, Worker, WorkerCounts, WorkerError};

/// A worker frees what keys left once in this many turns.
const COLLECTS: u64 = 64;

// Why a worker takes no more.
#[derive(Drop)]
pub(crate) enum WorkEnd {
    ShutDown,
    Finished(Finished),
    Elapsed,
}

/// The turns of one worker of a pool: the thread that has them is that worker. No other turns have its number while these live.
///
/// Each call hands the thread back with a worker that owes nothing (`settled`), so the thread may do anything else then: what woke the worker is run, answered, or told to another one.
///
/// Their drop puts the Runnables in the hands of the worker into the queue for what comes from outside, and has another worker look once more. A Runnable for which that queue has no memory is cancelled.
#[must_use]
pub struct Turns<
    'x,
    R: Wait + Drop + Copy,
    F: Yields,
    A: Wake,
    B: Allocator = Global,
    M: Drop = (),
> {
    pub(crate) pool: &'x Pool<R, F, A, B, M>,
    pub(crate) worker: Worker<DueRunnable<R, F, A, M>, B>,
    // What the worker of this number had counted before these turns.
    pub(crate) earlier: WorkerCounts,
    count: u64,
}

impl<'x, R: Wait + Drop + Copy, F: Yields, A: Wake, B: Allocator, M: Drop> Drop
    for Turns<'x, R, F, A, B, M> {
    fn drop(self) {
        let Turns {
            pool,
            worker,
            earlier,
            count: _,
        } = self;
        let number = worker.number();
        // The next turns of this number begin with it.
        pool.numbers.show(number, earlier, worker.counts());
        let (own, outside) = pool.end_turns(worker);
        let _ = pool.look_again(own);
        let _ = pool.look_again(outside);
    }
}

impl<R: Wait + Drop + Copy, F: Yields, A: Wake, B: Allocator + Copy, M: Drop> Pool<R, F, A, B, M> {
    /// The turns of the worker of this number. Once they are dropped, the number is free again.
    pub fn turns(&self, worker: usize) -> Result<Turns<'_, R, F, A, B, M>, TurnsError>
        ensures worker { IfOk result (λ turns. turns.worker.number ≡ worker) }
        ensures owes { IfOk result (λ turns. OwesNothing turns.worker) }
        ensures hands { IfOk result (λ turns. turns.worker.batch.items ≡ []) }
        ensures none { result ≡ Err TurnsError.NoSuchWorker ↔ ((arc_value self.now.crew.bells).workers ≤ worker) }
    {
        match self.crew.worker(self.items, worker) {
            Ok(worker) => Ok(Turns {
                pool: self,
                earlier: self.numbers.shown_by(worker.number()),
                worker,
                count: 0,
            }),
            Err(WorkerError::NoSuchWorker) => Err(TurnsError::NoSuchWorker),
            Err(WorkerError::Taken) => Err(TurnsError::Taken),
            Err(WorkerError::NoMemory) => Err(TurnsError::Refused),
        }
    }

    /// The turns of all workers, in the order of their numbers. The error is never `NoSuchWorker`.
    pub fn all_turns(&self) -> Result<Vec<Turns<'_, R, F, A, B, M>>, TurnsError>
        ensures count { IfOk result (λ all. length all.items ≡ (arc_value self.now.crew.bells).workers) }
        ensures each { IfOk result (λ all. (i : ℕ) (turns : _) → get_elem? all.items i ≡ some turns → turns.worker.number ≡ i) }
    {
        let mut all = Vec::new(self.alloc);
        for worker in 0..self.workers() {
            all.push(self.turns(worker)?)?;
        }
        Ok(all)
    }

    /// Is the worker of this number until the pool is shut down, or has finished, as `Turns::work` is. An error is that of `turns`.
    pub fn run<'x>(&'x self, worker: usize) -> Result<(), TurnsError>
    where
        F: Future<PoolWaker<'x, R, F, A, B, M>>,
        ensures none { result ≡ Err TurnsError.NoSuchWorker ↔ ((arc_value self.now.crew.bells).workers ≤ worker) }
    {
        let mut turns = self.turns(worker)?;
        turns.work();
        Ok(())
    }
}

impl<'x, R: Wait + Drop + Copy, F: Yields, A: Wake, B: Allocator + Copy, M: Drop> Turns<
    'x,
    R,
    F,
    A,
    B,
    M,
> {
    /// The pool, and the number of this worker: what a handle of the pool carries that is made or woken on this thread.
    pub fn place(&self) -> Place<'x, R, F, A, B, M>
        ensures pool { result.0.now ≡ self.now.pool.now }
        ensures worker { result.1 ≡ self.now.worker.number }
    {
        (self.pool, self.worker.number())
    }

    /// What this worker has done since these turns were made: the Runnables that it took, those that it took from other workers, and how often it slept.
    pub fn counts(&self) -> WorkerCounts
        ensures { result ≡ self.now.worker.counts }
    {
        self.worker.counts()
    }

    /// The bell of this worker: a group that is given it by `listen` has the worker look once more as a member ends. `None` says that the bells have as many owners as can be counted.
    pub fn bell(&self) -> Option<PoolListener<R>>
        ensures { IfSome result (λ bell. RingsWorker bell.rings (arc_value self.now.pool.now.crew.bells) self.now.worker.number) }
    {
        let rings = Rings::for_worker(self.pool.bells(), self.worker.number())?;
        Some(PoolListener { rings })
    }

    /// The next Runnable for this worker: its own, one that came from outside, or one of another worker. `None` where there is none, or only such as this worker leaves to another one that is about to run them. Run it; its drop cancels its task.
    pub fn next(&mut self) -> Option<PoolRunnable<'x, R, F, A, B, M>>
        ensures handed { HandsOut self.old.worker result self.new.worker }
        ensures settled { OwesNothing self.new.worker }
    {
        let place = self.place();
        let next = self.find();
        self.worker.pay();
        hand_out_if_any(next, place)
    }

    // As `next`, but where it finds none the worker owes what it did before.
    fn find(&mut self) -> Option<DueRunnable<R, F, A, M>>
        ensures takes { Takes self.old.worker result self.new.worker }
    {
        let Some(due) = self.pool.crew.find(&self.pool.rt, &mut self.worker) else {
            self.show_counts();
            return None;
        };
        Some(due)
    }

    /// Runs the task of the Runnable that `next` answers. False where that is `None`.
    pub fn tick(&mut self) -> bool
    where
        F: Future<PoolWaker<'x, R, F, A, B, M>>,
        ensures hands { result ≡ false → self.new.worker.batch.items ≡ [] }
        ensures settled { OwesNothing self.new.worker }
    {
        let place = self.place();
        let next = self.find();
        self.worker.pay();
        run_if_any(next, place)
    }

    /// Searches for a while, if no other worker does, and then sleeps, if no queue shows a Runnable, the pool was not shut down, and the bells counted no interruption since `interruptions`. It may also end its rest for no reason. Then it wakes one task whose number was posted, and takes the next Runnable, if there is one. Run it. `take_turn` rests where it is due.
    pub fn rest(&mut self, interruptions: u64) -> Option<PoolRunnable<'x, R, F, A, B, M>>
        ensures handed { HandsOut self.old.worker result self.new.worker }
        ensures settled { OwesNothing self.new.worker }
    {
        let place = self.place();
        self.rest_within(interruptions, &NoLimit);
        hand_out_if_any(self.look_again(place), place)
    }

    // Searches and sleeps, as `rest` says, no longer than a limit. The worker may owe something then.
    fn rest_within<L: Limit>(&mut self, interruptions: u64, limit: &L)
        ensures { self.new.worker.batch ≡ self.old.worker.batch }
    {
        // A caller who counted the interruptions after the shutdown would sleep for ever.
        if let Some(seen) = self.pool.stage.look() {
            self.rest_after(&seen, interruptions, limit);
        }
    }

    fn rest_after<L: Limit>(&mut self, _seen: &NotShutDown, interruptions: u64, limit: &L)
        ensures { self.new.worker.batch ≡ self.old.worker.batch }
    {
        let crew = &self.pool.crew;
        crew.rest(&self.pool.rt, &mut self.worker, interruptions, limit);
    }

    // The look after a rest, which ends what the worker owes.
    fn look_again(&mut self, place: Place<'x, R, F, A, B, M>) -> Option<DueRunnable<R, F, A, M>>
        ensures takes { Takes self.old.worker result self.new.worker }
        ensures settled { OwesNothing self.new.worker }
    {
        wake_posted(place);
        let next = self.find();
        self.worker.settle();
        next
    }

    /// A turn but for the run of what it takes: wakes one task whose number was posted, and takes the next Runnable. At the first and each 64th turn, and where there is none, it frees what keys left. Where there is neither it rests, as `rest` says, if the bells counted no interruption since `interruptions`: so ask for them before the last look at what the loop waits for. Run what it answers.
    pub fn take_turn(&mut self, interruptions: u64) -> Option<PoolRunnable<'x, R, F, A, B, M>>
        ensures handed { HandsOut self.old.worker result self.new.worker }
        ensures settled { OwesNothing self.new.worker }
    {
        self.take_turn_within(interruptions, &NoLimit)
    }

    // As `take_turn`, where a rest is no longer than a limit.
    pub(crate) fn take_turn_within<L: Limit>(
        &mut self,
        interruptions: u64,
        limit: &L,
    ) -> Option<PoolRunnable<'x, R, F, A, B, M>>
        ensures handed { HandsOut self.old.worker result self.new.worker }
        ensures settled { OwesNothing self.new.worker }
    {
        let place = self.place();
        match self.turn(place, interruptions, limit) {
            Some(due) => Some(due.hand_out(place)),
            None => hand_out_if_any(self.look_again(place), place),
        }
    }

    // As `take_turn_within`, but without a look after the rest: the worker may owe something then, and the loop that calls it looks again, or pays.
    pub(crate) fn turn<L: Limit>(
        &mut self,
        place: Place<'x, R, F, A, B, M>,
        interruptions: u64,
        limit: &L,
    ) -> Option<DueRunnable<R, F, A, M>>
        ensures takes { Takes self.old.worker result self.new.worker }
    {
        if self.count % COLLECTS == 0 {
            collect(place);
            self.show_counts();
        }
        self.count = self.count.wrapping_add(1);
        let woke = wake_posted(place);
        let next = self.find();
        if next.is_none() && !woke && !collect(place) {
            self.rest_within(interruptions, limit);
        }
        next
    }

    /// The next Runnable for this worker, for which it searches and sleeps where `next` answers `None`. Run it. `None` once the pool is shut down, or has finished: then no Runnable is left that this worker can find.
    pub fn await_next(&mut self) -> Option<PoolRunnable<'x, R, F, A, B, M>>
        ensures place { IfSome result (λ runnable. runnable.around.1 ≡ self.old.worker.number) }
        ensures hands { IsNone result → self.new.worker.batch.items ≡ [] }
        ensures settled { OwesNothing self.new.worker }
    {
        let place = self.place();
        let next = self.await_within(&NoLimit).ok();
        self.worker.pay();
        hand_out_if_any(next, place)
    }

    // As `await_next`, but it also ends where the limit is over. The worker may owe something then.
    pub(crate) fn await_within<L: Limit>(
        &mut self,
        limit: &L,
    ) -> Result<DueRunnable<R, F, A, M>, WorkEnd>
        ensures hands { OnErr result (self.new.worker.batch.items ≡ []) }
    {
        let pool = self.pool;
        let place = self.place();
        let bells: &Bells = pool.bells();
        for _ in pool.rt.forever() {
            let interruptions = bells.interruptions();
            if self.ends() {
                collect(place);
                return Err(WorkEnd::ShutDown);
            }
            let finishes = pool.stage.is_finishing();
            if let Some(due) = self.turn_or_last(place, interruptions, limit, finishes) {
                return Ok(due);
            }
            if finishes {
                if let Some(finished) = pool.is_finished() {
                    return Err(WorkEnd::Finished(finished));
                }
            }
            if limit.is_over() {
                return Err(WorkEnd::Elapsed);
            }
        }
        unreachable!()
    }

    // A turn, or a last one where the pool finishes.
    fn turn_or_last<L: Limit>(
        &mut self,
        place: Place<'x, R, F, A, B, M>,
        interruptions: u64,
        limit: &L,
        finishes: bool,
    ) -> Option<DueRunnable<R, F, A, M>>
        ensures takes { Takes self.old.worker result self.new.worker }
    {
        if finishes {
            self.take_last_turn(place)
        } else {
            self.turn(place, interruptions, limit)
        }
    }

    // As a turn, but it frees what keys left each time, and never rests: a turn of a pool that finishes.
    fn take_last_turn(&mut self, place: Place<'x, R, F, A, B, M>) -> Option<DueRunnable<R, F, A, M>>
        ensures takes { Takes self.old.worker result self.new.worker }
    {
        collect(place);
        wake_posted(place);
        self.find()
    }

    /// Is the worker until the pool is shut down, or has finished: runs each Runnable that `await_next` answers.
    pub fn work(&mut self)
    where
        F: Future<PoolWaker<'x, R, F, A, B, M>>,
        ensures hands { self.new.worker.batch.items ≡ [] }
        ensures settled { OwesNothing self.new.worker }
    {
        let pool = self.pool;
        let place = self.place();
        for _ in pool.rt.forever() {
            let next = self.await_within(&NoLimit).ok();
            self.worker.pay();
            if !run_if_any(next, place) {
                return;
            }
        }
    }

    // Takes turns until a handle has an answer. `Pending` says that the pool was shut down before. The worker may owe something then.
    fn await_answer<T: Awaited<A>>(
        &mut self,
        task: &mut T,
        awaiter: &A,
    ) -> TaskPoll<Result<T::Output, TaskClosed>>
    where
        F: Future<PoolWaker<'x, R, F, A, B, M>>,
        ensures answer { T.Awaited.answers task.old result task.new }
        ensures hands { result ≡ TaskPoll.Pending → self.new.worker.batch.items ≡ [] }
    {
        let pool = self.pool;
        let place = self.place();
        let bells: &Bells = pool.bells();
        for _ in pool.rt.forever() {
            let interruptions = bells.interruptions();
            let answer = task.poll_once(awaiter);
            let ends = self.ends();
            match answer {
                TaskPoll::Pending if !ends => {
                    run_if_any(self.turn(place, interruptions, &NoLimit), place);
                }
                answer => return answer,
            }
        }
        unreachable!()
    }

    // Whether the pool was shut down. Then this worker cancels what it finds: it may have moved Runnables past the shutdown.
    pub(crate) fn ends(&mut self) -> bool
        ensures { result ≡ true → self.new.worker.batch.items ≡ [] }
    {
        let ends = self.pool.is_shut_down();
        if ends {
            self.cancel_found();
        }
        ends
    }

    // Cancels the Runnables that this worker has in its hands, and those that it finds.
    fn cancel_found(&mut self)
        ensures { self.new.worker.batch.items ≡ [] }
    {
        let pool = self.pool;
        for _ in pool.rt.forever() {
            match self.find() {
                Some(due) => due.cancel(),
                None => return,
            }
        }
    }
}

// Hands out what was taken, where there is something, to the loop that asked for it.
pub(crate) fn hand_out_if_any<'x, R: Wait + Drop + Copy, F: Yields, A: Wake, B: Allocator, M: Drop>(
    taken: Option<DueRunnable<R, F, A, M>>,
    place: Place<'x, R, F, A, B, M>,
) -> Option<PoolRunnable<'x, R, F, A, B, M>>
    ensures { MatchOption taken (IsNone result) (λ due. IsSomeAnd result (λ runnable. (runnable.inner ≡ due.parked.inner) × (runnable.around ≡ place.entry))) }
{
    match taken {
        Some(due) => Some(due.hand_out(place)),
        None => None,
    }
}

// Runs the task of a Runnable on the worker of a place, where there is one.
pub(crate) fn run_if_any<
    'x,
    R: Wait + Drop + Copy,
    F: Yields,
    A: Wake,
    B: Allocator + Copy,
    M: Drop,
>(taken: Option<DueRunnable<R, F, A, M>>, place: Place<'x, R, F, A, B, M>) -> bool
where
    F: Future<PoolWaker<'x, R, F, A, B, M>>,
    ensures { IsTrue result ↔ IsSome taken }
{
    match taken {
        Some(due) => {
            due.run(place);
            true
        }
        None => false,
    }
}

impl<'x, R: Wait + Drop + Copy, F: Yields, B: Allocator + Copy, M: Drop> Turns<
    'x,
    R,
    F,
    BellAwaiter<R>,
    B,
    M,
> {
    /// Is the worker until the task of a Task or a Cancel is over, and sleeps where there is nothing to do. Other workers may run meanwhile, or none.
    ///
    /// Of a Cancel `Ok(None)` says that the future is gone. After `Refused` the task of a Cancel may not have been cancelled yet.
    pub fn block_on<T: Awaited<BellAwaiter<R>>>(
        &mut self,
        task: &mut T,
    ) -> Result<T::Output, BlockOnError>
    where
        F: Future<PoolWaker<'x, R, F, BellAwaiter<R>, B, M>>,
        ensures answer { T.Awaited.answers task.old (answer_of result) task.new }
        ensures hands { result ≡ Err BlockOnError.ShutDown → self.new.worker.batch.items ≡ [] }
        ensures settled { OwesNothing self.new.worker }
    {
        let Some(awaiter) = BellAwaiter::new(self.pool, self.worker.number()) else {
            self.worker.pay();
            return Err(BlockOnError::Refused);
        };
        let answer = self.await_answer(task, &awaiter);
        self.worker.pay();
        match answer {
            TaskPoll::Ready(Ok(output)) => Ok(output),
            TaskPoll::Ready(Err(_)) => Err(BlockOnError::Closed),
            TaskPoll::Refused => Err(BlockOnError::Refused),
            TaskPoll::Pending => Err(BlockOnError::ShutDown),
        }
    }
}
