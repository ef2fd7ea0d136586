//! The calls that run tasks, for functions that are generic in the runtime.
//!
//! A method of a pool or of its turns has a bound on the future that names the lifetime of the pool. So it asks of a generic caller that the runtime lives as long, and the prover does not find that. These calls know a pool and its turns by bounds that name no lifetime, and ask nothing.
ghost use Rattle.std.specs.Prelude.{◌≡◌, ◌≢◌, ◌≤◌, ◌↔◌, ℕ, true, []};
ghost use Rattle.std.specs.Arc.{arc_value};
ghost use Rattle.slab.specs.Slab.{slab_len};
ghost use Rattle.executor_parts.specs.Answered.{answer_of};
ghost use Rattle.executor_parts.specs.Members.{is_over};
ghost use Rattle.executor.specs.Members.{TakesMember};
ghost use Rattle.work_queues.specs.Settled.{OwesNothing};

use crate::bell_awaiter::BellAwaiter;
use crate::errors::{NextMemberError, TurnsError};
use crate::members::PoolGroup;
use crate::pool::{Place, Pool, PoolWaker, ToPool};
use crate::start::Works;
use crate::turns::Turns;
use async_task::{Future, Runnable, Schedule, Wake, Yields};
use executor_parts::{Awaited, BlockOnError, Ended, TaskGroup};
use std::alloc::Allocator;
use std::sync::Wait;

/// A reference to a pool whose futures can be polled.
pub trait Runs: Copy {
    // How many workers the pool has.
    ghost workers: { Self → ℕ };

    /// Is the worker of this number, as `Pool::run` is.
    fn run_worker(self, worker: usize) -> Result<(), TurnsError>
        ensures none { result ≡ Err TurnsError.NoSuchWorker ↔ (workers self ≤ worker) };
}

impl<'x, R: Wait + Drop + Copy, F: Yields, A: Wake, B: Allocator + Copy, M: Drop> Runs
    for &'x Pool<R, F, A, B, M>
where
    F: Future<PoolWaker<'x, R, F, A, B, M>>,
{
    ghost workers = { λ pool. (arc_value pool.now.crew.bells).workers };

    fn run_worker(self, worker: usize) -> Result<(), TurnsError> {
        self.run(worker)
    }
}

/// Turns by which a worker waits for tasks whose awaiters are of type `A`. Those of a pool have it where its futures can be polled.
pub trait Waits<A: Wake> {
    // The worker owes nothing.
    ghost settled: { Self → Type 0 };
    // The worker has nothing in its hands.
    ghost free: { Self → Type 0 };

    /// Is the worker until a task is over, as `Turns::block_on` is.
    fn wait_for<T: Awaited<A>>(&mut self, task: &mut T) -> Result<T::Output, BlockOnError>
        ensures answer { T.Awaited.answers task.old (answer_of result) task.new }
        ensures hands { result ≡ Err BlockOnError.ShutDown → free self.new }
        ensures settled { settled self.new };
}

impl<'x, R: Wait + Drop + Copy, F: Yields, B: Allocator + Copy, M: Drop> Waits<BellAwaiter<R>>
    for Turns<'x, R, F, BellAwaiter<R>, B, M>
where
    F: Future<PoolWaker<'x, R, F, BellAwaiter<R>, B, M>>,
{
    ghost settled = { λ turns. OwesNothing turns.worker };

    ghost free = { λ turns. turns.worker.batch.items ≡ [] };

    fn wait_for<T: Awaited<BellAwaiter<R>>>(
        &mut self,
        task: &mut T,
    ) -> Result<T::Output, BlockOnError> {
        self.block_on(task)
    }
}

/// Turns by which a worker waits for the members of a group. Those of a pool have it where its futures can be polled. `X` is what its handles carry.
pub trait WaitsForMembers<R: Wait + Drop + Copy, F: Yields, M: Drop, X: Copy>
where
    ToPool: Schedule<Runnable<R, F, ToPool, M, BellAwaiter<R>, X>>,
{
    // The worker owes nothing.
    ghost settled: { Self → Type 0 };

    /// Is the worker until a member of the group ends, as `Turns::next_member` is.
    fn wait_for_member(
        &mut self,
        group: &mut TaskGroup<R, F, ToPool, M, BellAwaiter<R>, X>,
    ) -> Result<Option<Ended<F>>, NextMemberError>
        ensures over { is_over result ≡ true ↔ slab_len group.old.members ≡ 0 }
        ensures takes { TakesMember group.old.members result group.new.members }
        ensures no_deadline { result ≢ Err NextMemberError.Elapsed }
        ensures settled { settled self.new };
}

impl<'x, R: Wait + Drop + Copy, F: Yields, B: Allocator + Copy, M: Drop> WaitsForMembers<
    R,
    F,
    M,
    Place<'x, R, F, BellAwaiter<R>, B, M>,
> for Turns<'x, R, F, BellAwaiter<R>, B, M>
where
    F: Future<PoolWaker<'x, R, F, BellAwaiter<R>, B, M>>,
{
    ghost settled = { λ turns. OwesNothing turns.worker };

    fn wait_for_member(
        &mut self,
        group: &mut PoolGroup<'x, R, F, B, M>,
    ) -> Result<Option<Ended<F>>, NextMemberError> {
        self.next_member(group)
    }
}

/// Is the worker of this number until the pool is shut down, or has finished, as `Pool::run` is. An error is that of `Pool::turns`.
pub fn run<P: Runs>(pool: P, worker: usize) -> Result<(), TurnsError>
    ensures none { result ≡ Err TurnsError.NoSuchWorker ↔ (P.workers pool ≤ worker) }
{
    pool.run_worker(worker)
}

/// Is the worker until the pool is shut down, or has finished, as `Turns::work` is.
pub fn work<W: Works>(turns: &mut W)
    ensures { W.ended turns.new }
{
    turns.work_to_end();
}

/// Is the worker until the task of a Task or a Cancel is over, and sleeps where there is nothing to do. It answers and refuses what `Turns::block_on` does.
pub fn block_on<A: Wake, W: Waits<A>, T: Awaited<A>>(
    turns: &mut W,
    task: &mut T,
) -> Result<T::Output, BlockOnError>
    ensures answer { T.Awaited.answers task.old (answer_of result) task.new }
    ensures hands { result ≡ Err BlockOnError.ShutDown → W.free turns.new }
    ensures settled { W.settled turns.new }
{
    turns.wait_for(task)
}

/// Is the worker until a member of the group ends, and takes that out. It answers and refuses what `Turns::next_member` does.
pub fn next_member<
    R: Wait + Drop + Copy,
    F: Yields,
    M: Drop,
    X: Copy,
    W: WaitsForMembers<R, F, M, X>,
>(
    turns: &mut W,
    group: &mut TaskGroup<R, F, ToPool, M, BellAwaiter<R>, X>,
) -> Result<Option<Ended<F>>, NextMemberError>
where
    ToPool: Schedule<Runnable<R, F, ToPool, M, BellAwaiter<R>, X>>,
    ensures over { is_over result ≡ true ↔ slab_len group.old.members ≡ 0 }
    ensures takes { TakesMember group.old.members result group.new.members }
    ensures no_deadline { result ≢ Err NextMemberError.Elapsed }
    ensures settled { W.settled turns.new }
{
    turns.wait_for_member(group)
}
