//! The start of a pool: one call runs its threads for as long as a closure runs, and then to their end.
//!
//! In generic code the prover follows into a thread only what a bound says that names no lifetime. So the threads know the turns of a worker by `Works`.
ghost use Rattle.std.specs.Prelude.{◌≡◌, ◌+◌, ◌<◌, ℕ, [], length, slice_index_or, IfOk};
ghost use Rattle.std.specs.Arc.{arc_value};
ghost use mathlib.Core.Option.{some};
ghost use lib.ListN.{get_elem?};
ghost use Rattle.work_queues.specs.Settled.{OwesNothing};

use crate::errors::TurnsError;
use crate::pool::{Pool, PoolWaker};
use crate::turns::Turns;
use async_task::{Future, Wake, Yields};
use std::alloc::Allocator;
use std::sync::Wait;
use std::thread::{self, Threads};

/// What the threads of a start do with the turns of a worker. Those of a pool have it where its futures can be polled.
pub trait Works: Drop {
    // The worker has worked to the end of the pool.
    ghost ended: { Self → Type 0 };

    /// Is the worker until the pool ends, as `Turns::work` is.
    fn work_to_end(&mut self)
        ensures { ended self.new };

    /// Has the pool finish, as `Pool::finish` does. As of that, no clause says so.
    fn finish(&self);

    /// Shuts the pool down, as `Pool::shutdown` does. As of that, no clause says so.
    fn shut_down(&self);
}

impl<'x, R: Wait + Drop + Copy, F: Yields, A: Wake, B: Allocator + Copy, M: Drop> Works
    for Turns<'x, R, F, A, B, M>
where
    F: Future<PoolWaker<'x, R, F, A, B, M>>,
{
    // It owes nothing, and has nothing in its hands.
    ghost ended = { λ turns. OwesNothing turns.worker × (turns.worker.batch.items ≡ []) };

    fn work_to_end(&mut self) {
        self.work();
    }

    fn finish(&self) {
        self.pool.finish();
    }

    fn shut_down(&self) {
        self.pool.shutdown();
    }
}

/// The turns of all workers of a pool, to be started together: `Pool::team` makes it.
#[must_use]
#[derive(Drop)]
pub struct Team<W> {
    pub(crate) first: W,
    others: Vec<W>,
}

impl<R: Wait + Drop + Copy, F: Yields, A: Wake, B: Allocator + Copy, M: Drop> Pool<R, F, A, B, M> {
    /// The turns of all workers, to be started together. An error says that those of a worker are taken, or that there was no memory for them: then none are.
    pub fn team(&self) -> Result<Team<Turns<'_, R, F, A, B, M>>, TurnsError>
        ensures first { IfOk result (λ team. team.first.worker.number ≡ 0) }
        ensures count { IfOk result (λ team. length team.others.items + 1 ≡ (arc_value self.now.crew.bells).workers) }
        ensures each { IfOk result (λ team. (i : ℕ) (turns : _) → get_elem? team.others.items i ≡ some turns → turns.worker.number ≡ i + 1) }
    {
        let first = self.turns(0)?;
        let others = self.turns_of_others()?;
        Ok(Team { first, others })
    }

    // The turns of all workers but worker 0.
    fn turns_of_others(&self) -> Result<Vec<Turns<'_, R, F, A, B, M>>, TurnsError>
        requires { 0 < (arc_value self.now.crew.bells).workers }
        ensures count { IfOk result (λ others. length others.items + 1 ≡ (arc_value self.now.crew.bells).workers) }
        ensures each { IfOk result (λ others. (i : ℕ) (turns : _) → get_elem? others.items i ≡ some turns → turns.worker.number ≡ i + 1) }
    {
        let mut others = Vec::new(self.alloc);
        for worker in 1..self.workers() {
            others.push(self.turns(worker)?)?;
        }
        Ok(others)
    }
}

impl<W: Works + Send> Team<W> {
    /// Calls `main` on this thread, which is worker 0 and has its turns, while each other worker runs on a thread of its own. Wait in it by the turns, as by `block_on`: the thread runs tasks meanwhile. Answers what `main` answered.
    ///
    /// Once `main` has answered, the pool finishes, as by `Pool::finish`: all workers, with this thread, run what is queued, and end. After them comes a `Pool::shutdown`, which cancels what still waits. So nothing of the pool runs, and nothing is queued, when the call returns. A `main` that is not to wait for what it leaves calls `shutdown` itself.
    ///
    /// `rt` is what starts the threads. A worker for which no thread can be made begins after the others have ended, and the call says nothing of it: worker 0 and those that have a thread run its tasks.
    pub fn start<R: Threads + Sync, T, G: FnOnce(&mut W) -> T>(self, rt: &R, main: G) -> T
        requires { G.IsAlwaysCallable main }
        ensures answer { (before : _) × (after : _) × G.post main before result after }
    {
        let Team { first, others } = self;
        let mut first = first;
        let mut others = others;
        let (_, answer) = thread::join(
            rt,
            || work_all(rt, &mut others),
            || -> T
                requires { G.IsAlwaysCallable main }
                ensures { (before : _) × (after : _) × G.post main before result after }
            { lead(&mut first, main) },
        );
        first.shut_down();
        answer
    }
}

// Each of these workers works on a thread of its own, to the end of the pool.
fn work_all<R: Threads + Sync, W: Works + Send>(rt: &R, workers: &mut [W])
    ensures { (i : ℕ) (other : W) → i < length workers.old → W.ended (slice_index_or workers.new i other) }
{
    let threads = workers.len().max(1);
    thread::for_each_mut(
        rt,
        workers,
        threads,
        &|_: usize, worker: &mut W|
            ensures { W.ended worker.exit.now }
        { worker.work_to_end() },
    );
}

// The part of this thread. It works on after `main`, since it may have Runnables in its hands, which no other worker reaches.
fn lead<W: Works, T, G: FnOnce(&mut W) -> T>(first: &mut W, main: G) -> T
    requires { G.IsAlwaysCallable main }
    ensures answer { (before : _) × (after : _) × G.post main before result after }
    ensures ended { W.ended first.new }
{
    let answer = main(first);
    first.finish();
    first.work_to_end();
    answer
}
