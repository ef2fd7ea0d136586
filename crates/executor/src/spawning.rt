//! Spawning into a pool: room in the queue comes first, so that a refusal has back what it was given.
ghost use Rattle.std.specs.Prelude.{◌≡◌, ◌-◌, ◌+◌, ◌<◌, [], drop, min, IfOk, IfErr, IsSome, IsNone, OnOk, vec_len, vec_capacity};
ghost use Rattle.std.specs.Arc.{arc_value};
ghost use Rattle.std.specs.Fn.{FnOnceReturnsAt};
ghost use Rattle.task_cell.specs.Belongs.{spawned_in};
ghost use Rattle.work_queues.specs.Rooms.{HasRoom};
ghost use Rattle.executor.specs.Appends.{Appends};

use crate::due::DueRunnable;
use crate::errors::{PoolSpawnError, SpawnRefusal};
use crate::pool::{Pool, PoolTask, ToPool};
use async_task::{Builder, Wake, Yields, spawn};
use std::alloc::Allocator;
use std::collections::VecDeque;
use std::sync::Wait;
use work_queues::board::Reserved;

/// Tasks without metadata.
impl<R: Wait + Drop + Copy, F: Yields, A: Wake, B: Allocator + Copy> Pool<R, F, A, B> {
    /// Spawns a task from a thread that is no worker, and schedules it. An error has the future back, and says why: there was no memory for the task or for its place in the queue, or the pool takes no more tasks. After `Ok` its Runnable was queued.
    pub fn spawn(&self, future: F) -> Result<PoolTask<'_, R, F, A, B>, PoolSpawnError<F>>
        ensures spawned { IfOk result (λ task. spawned_in task.inner.share ≡ future) }
        ensures refused { IfErr result (λ error. error.given ≡ future) }
    {
        self.spawn_on(self.crew.workers(), future)
    }

    /// Spawns a task at the queue of a worker, as that which polls the spawning future: `waker.around().1`. It answers as `spawn` does.
    pub fn spawn_on(
        &self,
        worker: usize,
        future: F,
    ) -> Result<PoolTask<'_, R, F, A, B>, PoolSpawnError<F>>
        ensures place { IfOk result (λ task. task.around.1 ≡ worker) }
        ensures spawned { IfOk result (λ task. spawned_in task.inner.share ≡ future) }
        ensures refused { IfErr result (λ error. error.given ≡ future) }
    {
        let reserved = match self.reserve(worker) {
            Ok(reserved) => reserved,
            Err(reason) => return Err(PoolSpawnError {
                given: future,
                reason,
            }),
        };
        match spawn(self.rt, self.alloc, future, ToPool, (self, worker)) {
            Ok((runnable, task)) => {
                self.crew.put(reserved, DueRunnable::new(runnable));
                Ok(task)
            }
            Err(refused) => {
                self.crew.release(reserved);
                Err(PoolSpawnError {
                    given: refused.maker,
                    reason: SpawnRefusal::NoMemory,
                })
            }
        }
    }

    /// Spawns futures from the front of `futures`, in their order, at the queue of a worker or, where there is no worker of this number, from outside. Their Tasks go to the back of `tasks`, in the same order.
    ///
    /// An error says why a spawn was refused: what was not spawned is still in `futures`, and a later call may go on with it.
    pub fn spawn_many<'x>(
        &'x self,
        worker: usize,
        futures: &mut VecDeque<F>,
        tasks: &mut Vec<PoolTask<'x, R, F, A, B>>,
    ) -> Result<(), SpawnRefusal>
        ensures all { OnOk result (futures.new.items ≡ []) }
        ensures left { futures.new.items ≡ drop (vec_len tasks.new - vec_len tasks.old) futures.old.items }
        ensures added { Appends (λ task. task.around.1 ≡ worker) tasks.old.items tasks.new.items }
    {
        tasks.reserve(futures.len())?;
        for _ in 0..futures.len() {
            if let Some(refusal) = self.spawn_first(worker, futures, tasks) {
                return Err(refusal);
            }
        }
        Ok(())
    }

    // Spawns the future at the front, for whose Task there is room. Where that is refused, it is at the front again.
    fn spawn_first<'x>(
        &'x self,
        worker: usize,
        futures: &mut VecDeque<F>,
        tasks: &mut Vec<PoolTask<'x, R, F, A, B>>,
    ) -> Option<SpawnRefusal>
        requires { vec_len tasks.old < vec_capacity tasks.old }
        ensures spawned { IsNone result → (futures.new.items ≡ drop 1 futures.old.items) × (vec_len tasks.new ≡ vec_len tasks.old + 1) × (vec_capacity tasks.new ≡ vec_capacity tasks.old) }
        ensures added { IsNone result → Appends (λ task. task.around.1 ≡ worker) tasks.old.items tasks.new.items }
        ensures refused { IsSome result → (futures.new.items ≡ futures.old.items) × (tasks.new.items ≡ tasks.old.items) }
    {
        let Some(future) = futures.pop_front() else {
            return Some(SpawnRefusal::NoMemory);
        };
        match self.spawn_on(worker, future) {
            Ok(task) => {
                tasks.push_reserved(task);
                None
            }
            Err(PoolSpawnError { given, reason }) => {
                futures.push_front_reserved(given);
                Some(reason)
            }
        }
    }
}

/// Tasks with the metadata of a builder.
impl<R: Wait + Drop + Copy, F: Yields, A: Wake, B: Allocator + Copy, M: Drop> Pool<R, F, A, B, M> {
    /// Spawns a task with metadata from a thread that is no worker, and schedules it. `builder` has the metadata, as `Builder::new().metadata(priority)`, and `maker` makes the future of them. The Task and each Runnable of the task then show them by `metadata`.
    ///
    /// The maker is called once, after all memory was found. The queue is locked meanwhile, so the maker must neither call the pool nor wake a task of it. An error has builder and maker back, says why as that of `spawn` does, and the maker was not called.
    pub fn spawn_with<G: FnOnce(&M) -> F>(
        &self,
        builder: Builder<M>,
        maker: G,
    ) -> Result<PoolTask<'_, R, F, A, B, M>, PoolSpawnError<(Builder<M>, G)>>
        requires { G.IsAlwaysCallable maker }
        ensures metadata { IfOk result (λ task. task.inner.share.block.value.metadata ≡ builder.metadata) }
        ensures made { IfOk result (λ _. (future : F) × FnOnceReturnsAt G.FnOnce maker builder.metadata future) }
        ensures refused { IfErr result (λ error. (error.given.0 ≡ builder) × (error.given.1 ≡ maker)) }
    {
        self.spawn_on_with(self.crew.workers(), builder, maker)
    }

    /// Spawns a task with metadata at the queue of a worker, as that which polls the spawning future: `waker.around().1`. It takes and answers what `spawn_with` does.
    pub fn spawn_on_with<G: FnOnce(&M) -> F>(
        &self,
        worker: usize,
        builder: Builder<M>,
        maker: G,
    ) -> Result<PoolTask<'_, R, F, A, B, M>, PoolSpawnError<(Builder<M>, G)>>
        requires { G.IsAlwaysCallable maker }
        ensures place { IfOk result (λ task. task.around.1 ≡ worker) }
        ensures metadata { IfOk result (λ task. task.inner.share.block.value.metadata ≡ builder.metadata) }
        ensures made { IfOk result (λ _. (future : F) × FnOnceReturnsAt G.FnOnce maker builder.metadata future) }
        ensures refused { IfErr result (λ error. (error.given.0 ≡ builder) × (error.given.1 ≡ maker)) }
    {
        let reserved = match self.reserve(worker) {
            Ok(reserved) => reserved,
            Err(reason) => {
                return Err(PoolSpawnError {
                    given: (builder, maker),
                    reason,
                });
            }
        };
        match builder.spawn(self.rt, self.alloc, maker, ToPool, (self, worker)) {
            Ok((runnable, task)) => {
                self.crew.put(reserved, DueRunnable::new(runnable));
                Ok(task)
            }
            Err(refused) => {
                self.crew.release(reserved);
                Err(PoolSpawnError {
                    given: (refused.builder, refused.maker),
                    reason: SpawnRefusal::NoMemory,
                })
            }
        }
    }

    // Room for one Runnable at the queue of a worker, or in that for what comes from outside. Where it is refused, no queue is locked.
    fn reserve(&self, worker: usize) -> Result<Reserved<DueRunnable<R, F, A, M>, B>, SpawnRefusal>
        ensures room { IfOk result (HasRoom self.now.crew.board) }
        ensures queue { IfOk result (λ reserved. reserved.queue ≡ min worker (arc_value self.now.crew.bells).workers) }
    {
        let reserved = self.crew.reserve(&self.rt, worker)?;
        // It asks while it has the queue, for which `finish` and `shutdown` wait: what was spawned before them they find there.
        if !self.stage.is_open(&reserved) {
            self.crew.release(reserved);
            return Err(SpawnRefusal::Stopped);
        }
        Ok(reserved)
    }
}
