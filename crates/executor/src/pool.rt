//! The pool: how it is made, and what it tells.
ghost use Rattle.std.specs.Prelude.{⊤, ◌≡◌, IfOk, max, min};
ghost use Rattle.std.specs.Arc.{arc_value};

use crate::due::{DueRunnable, cancel_queues};
use crate::kept::{KeptTask, KeptWaker};
use crate::mail::Mail;
use crate::numbers::Numbers;
use crate::stage::Stage;
use crate::store::Store;
use async_task::{Runnable, Schedule, ScheduleInfo, Task, TaskWaker, Wake, Yields};
use std::alloc::{AllocError, Allocator, Global};
use std::sync::{Arc, Wait};
use work_queues::bells::MOST_WORKERS;
use work_queues::{Bells, Crew, Settings};

/// What the handles of a pool carry: the pool, and the number of the worker on which they were made or woken. It stands for a thread local. A thread that is no worker has the number of workers, or any above it.
pub type Place<'x, R, F, A, B = Global, M = ()> = (&'x Pool<R, F, A, B, M>, usize);

/// A Runnable of a pool.
pub type PoolRunnable<'x, R, F, A, B = Global, M = ()> = Runnable<
    R,
    F,
    ToPool,
    M,
    A,
    Place<'x, R, F, A, B, M>,
>;

/// The Task of a task of a pool.
pub type PoolTask<'x, R, F, A, B = Global, M = ()> = Task<
    R,
    F,
    ToPool,
    M,
    A,
    Place<'x, R, F, A, B, M>,
>;

/// The waker by which the future of a pool is polled.
pub type PoolWaker<'x, R, F, A, B = Global, M = ()> = TaskWaker<
    R,
    F,
    ToPool,
    M,
    A,
    Place<'x, R, F, A, B, M>,
>;

/// The queues of a pool of workers. `F` is the one type of its futures, `A` that of the awaiters of their Tasks, `B` is where its queues take their memory, and `M` the type of the metadata of its tasks. With the pool the Runnables that are left are cancelled.
#[must_use]
pub struct Pool<R: Wait + Drop + Copy, F: Yields, A: Wake, B: Allocator = Global, M: Drop = ()> {
    pub(crate) rt: R,
    pub(crate) alloc: Global,
    pub(crate) items: B,
    pub(crate) crew: Crew<DueRunnable<R, F, A, M>, B>,
    pub(crate) stage: Stage,
    pub(crate) wakers: Store<KeptWaker<R, F, A, M>>,
    pub(crate) tasks: Store<KeptTask<R, F, A, M>>,
    pub(crate) mail: Arc<Mail<R>>,
    pub(crate) numbers: Numbers,
}

impl<R: Wait + Drop + Copy, F: Yields, A: Wake, B: Allocator, M: Drop> Drop
    for Pool<R, F, A, B, M> {
    fn drop(self) {
        let Pool {
            rt: _,
            alloc: _,
            items,
            crew,
            stage,
            wakers,
            tasks,
            mail,
            numbers,
        } = self;
        drop(items);
        cancel_queues(crew);
        drop(stage);
        drop(wakers);
        drop(tasks);
        drop(mail);
        drop(numbers);
    }
}

/// The schedule value of a pool: a Runnable goes to the queue of the worker on which its task was woken, and else to that for what comes from outside.
#[derive(Debug, Drop)]
pub struct ToPool;

impl<'x, R: Wait + Drop + Copy, F: Yields, A: Wake, B: Allocator + Copy, M: Drop> Schedule<
    PoolRunnable<'x, R, F, A, B, M>,
> for ToPool {
    ghost scheduled = { λ _ _ _. ⊤ };

    // A Runnable that no queue has memory for, or that comes after the shutdown, is cancelled. The call answers nothing, so no clause says in which queue one is: `Crew::push` has it.
    fn schedule(&self, runnable: PoolRunnable<'x, R, F, A, B, M>, _info: ScheduleInfo) {
        let (pool, worker) = runnable.around();
        let due = DueRunnable::new(runnable);
        if pool.is_shut_down() {
            due.cancel();
            return;
        }
        let filled = pool.fill(worker, due);
        let _ = pool.look_again(filled);
    }
}

impl<R: Wait + Drop + Copy, F: Yields, A: Wake, M: Drop> Pool<R, F, A, Global, M> {
    /// A pool of `workers` workers, at least one and at most `work_queues::bells::MOST_WORKERS`. Its workers do not run yet. `rt` is what its threads wait by, `alloc` where all memory comes from. An error says that there was no memory.
    pub fn new(rt: R, alloc: Global, workers: usize) -> Result<Pool<R, F, A, Global, M>, AllocError>
        ensures workers { IfOk result (λ pool. (arc_value pool.crew.bells).workers ≡ min (max workers 1) 1024) }
        ensures given { IfOk result (λ pool. (pool.rt ≡ rt) × (pool.alloc ≡ alloc)) }
    {
        Pool::with_queues_in(rt, alloc, alloc, workers)
    }
}

impl<R: Wait + Drop + Copy, F: Yields, A: Wake, B: Allocator + Copy, M: Drop> Pool<R, F, A, B, M> {
    /// A pool as `new` makes it, whose queues take their memory from `items`, as do the workers for what they have in their hands. All else is of `alloc`.
    pub fn with_queues_in(
        rt: R,
        alloc: Global,
        items: B,
        workers: usize,
    ) -> Result<Pool<R, F, A, B, M>, AllocError>
        ensures workers { IfOk result (λ pool. (arc_value pool.crew.bells).workers ≡ min (max workers 1) 1024) }
        ensures given { IfOk result (λ pool. (pool.rt ≡ rt) × (pool.alloc ≡ alloc) × (pool.items ≡ items)) }
    {
        Pool::with_settings(rt, alloc, items, workers, Settings::new())
    }

    /// A pool as `with_queues_in` makes it, where the room of a queue, the size of a batch, and how often a worker looks where, are those of `settings`.
    pub fn with_settings(
        rt: R,
        alloc: Global,
        items: B,
        workers: usize,
        settings: Settings,
    ) -> Result<Pool<R, F, A, B, M>, AllocError>
        ensures workers { IfOk result (λ pool. (arc_value pool.crew.bells).workers ≡ min (max workers 1) 1024) }
        ensures settings { IfOk result (λ pool. pool.crew.settings ≡ settings) }
        ensures given { IfOk result (λ pool. (pool.rt ≡ rt) × (pool.alloc ≡ alloc) × (pool.items ≡ items)) }
    {
        let wakers = Store::new(alloc)?;
        let tasks = Store::new(alloc)?;
        let mail = Mail::new(rt, alloc)?;
        let numbers = Numbers::new(alloc, workers.max(1).min(MOST_WORKERS))?;
        Ok(Pool {
            rt,
            alloc,
            items,
            crew: Crew::with_settings(alloc, items, workers, settings)?,
            stage: Stage::new(),
            wakers,
            tasks,
            mail,
            numbers,
        })
    }

    /// What its threads wait by: a future takes a lock by it, which it reaches by `waker.around()`.
    pub fn rt(&self) -> R
        ensures { result ≡ self.now.rt }
    {
        self.rt
    }

    /// Where its memory comes from, but for that of its queues.
    pub fn alloc(&self) -> Global
        ensures { result ≡ self.now.alloc }
    {
        self.alloc
    }

    /// How many places for wakers are taken: those whose key is there, and those of dropped keys that no worker has freed yet. As of `Store::len`, no clause says how many.
    pub fn kept_wakers(&self) -> usize {
        self.wakers.len(&self.rt)
    }

    /// How many places for Tasks are taken, counted in the same way. As of `Store::len`, no clause says how many.
    pub fn kept_tasks(&self) -> usize {
        self.tasks.len(&self.rt)
    }

    /// The bells of the workers. An awaiter may hold them, to have a sleeping worker look once more.
    pub fn bells(&self) -> &Arc<Bells>
        ensures { result.now ≡ self.now.crew.bells }
    {
        self.crew.bells()
    }
}

impl<R: Wait + Drop + Copy, F: Yields, A: Wake, B: Allocator, M: Drop> Pool<R, F, A, B, M> {
    /// How many workers it has.
    pub fn workers(&self) -> usize
        ensures { result ≡ (arc_value self.now.crew.bells).workers }
    {
        self.crew.workers()
    }

    /// How many Runnables the queues have now, each queue counted for itself. It takes the lock of each, so a thread that only watches asks seldom. As of `Crew::len`, nothing is claimed of the number.
    pub fn queued(&self) -> usize {
        self.crew.len(&self.rt)
    }
}
