//! The surroundings of a row's task: the queue of its Runnables, the stores of a waker and of a Task; the schedule value that pushes to the queue, and the metadata.
ghost use Rattle.std.specs.Prelude.{⊤, ◌≡◌};

use crate::counters::{Counters, Event};
use crate::counting::Counting;
use crate::flag::Flag;
use crate::future::RowFuture;
use crate::rendezvous::Rendezvous;
use async_task::{Runnable, Schedule, ScheduleInfo, Task, TaskWaker, Wake};
use std::alloc::{AllocError, Allocator, Global};
use std::collections::VecDeque;
use std::sync::atomic::{AtomicBool, Ordering};
use std::sync::{Arc, Mutex, Wait};
use std::{fmt, mem};

/// Where the blocks of the tasks of the rows come from: it counts them.
pub type Memory<'m> = &'m Counting<Global>;

/// A Runnable of the rows.
pub type RowRunnable<'x, 'm, R> = Runnable<
    R,
    RowFuture,
    Scheduler,
    Tag,
    Flag,
    &'x Surroundings<'m, R>,
    Memory<'m>,
>;

/// A Task of the rows.
pub type RowTask<'x, 'm, R> = Task<
    R,
    RowFuture,
    Scheduler,
    Tag,
    Flag,
    &'x Surroundings<'m, R>,
    Memory<'m>,
>;

/// A waker of the rows.
pub type RowWaker<'x, 'm, R> = TaskWaker<
    R,
    RowFuture,
    Scheduler,
    Tag,
    Flag,
    &'x Surroundings<'m, R>,
    Memory<'m>,
>;

// A Runnable without surroundings, as the queue holds it. Its schedule value drops it.
type BareRunnable<'m, R> = Runnable<R, RowFuture, Scheduler, Tag, Flag, (), Memory<'m>>;

// A Task without surroundings, as its store holds it.
type BareTask<'m, R> = Task<R, RowFuture, Scheduler, Tag, Flag, (), Memory<'m>>;

// A waker without surroundings, as its store holds it.
type BareWaker<'m, R> = TaskWaker<R, RowFuture, Scheduler, Tag, Flag, (), Memory<'m>>;

/// A Runnable that is for another thread. A closure that captures it has no type that names two lifetimes.
#[derive(Drop)]
pub struct SentRunnable<'x, 'm, R: Wait + Drop + Copy> {
    /// The Runnable.
    pub runnable: RowRunnable<'x, 'm, R>,
}

impl<'x, 'm, R: Wait + Drop + Copy> SentRunnable<'x, 'm, R> {
    /// Runs it: what the run answers.
    pub fn run(self) -> bool {
        let SentRunnable { runnable } = self;
        runnable.run().0
    }
}

/// The metadata of the rows: it counts its drop, and the call of the maker that is lent it.
pub struct Tag {
    counters: Arc<Counters>,
}

impl Tag {
    /// A metadata that counts here.
    pub fn new(counters: Arc<Counters>) -> Tag {
        Tag { counters }
    }

    /// Counts a call of a maker.
    pub fn count_maker(&self) {
        self.counters.makers.add_one();
    }

    /// How many makers were called.
    pub fn makers(&self) -> u64 {
        self.counters.makers.get()
    }
}

impl fmt::Debug for Tag {
    fn fmt<W: fmt::Write>(&self, f: &mut fmt::Formatter<W>) -> fmt::Result {
        f.write_str("Tag")
    }
}

impl Drop for Tag {
    fn drop(self) {
        let Tag { counters } = self;
        counters.metadata_drops.add_one();
        counters.note(Event::Kept);
        drop(counters);
    }
}

/// The schedule value of the rows: it counts its calls and its drop, and gives each Runnable to the surroundings.
pub struct Scheduler {
    counters: Arc<Counters>,
}

impl Scheduler {
    /// A schedule value that counts here.
    pub fn new(counters: Arc<Counters>) -> Scheduler
        ensures { result.counters ≡ counters }
    {
        Scheduler { counters }
    }

    /// Counts a call.
    pub fn count_call(&self) {
        self.counters.schedules.add_one();
    }

    /// Counts a call that was told that the task was woken while it ran.
    pub fn count_woken_call(&self) {
        self.counters.woken_calls.add_one();
    }
}

impl Drop for Scheduler {
    fn drop(self) {
        let Scheduler { counters } = self;
        counters.scheduler_drops.add_one();
        counters.note(Event::Kept);
        drop(counters);
    }
}

impl<'x, 'm, R: Wait + Drop + Copy> Schedule<RowRunnable<'x, 'm, R>> for Scheduler {
    ghost scheduled = { λ _ _ _. ⊤ };

    fn schedule(&self, runnable: RowRunnable<'x, 'm, R>, info: ScheduleInfo) {
        self.count_call();
        self.counters.note(Event::Handed);
        let surroundings = runnable.around();
        surroundings.note(info);
        if surroundings.ends_each() {
            surroundings.end(runnable);
            self.counters.note(Event::Returned);
        } else {
            surroundings.push(runnable);
        }
    }
}

// Where a Runnable carries no surroundings there is no queue, so it is dropped, which cancels its task.
impl<R: Wait + Drop + Copy, M: Drop, A: Wake, B: Allocator + Copy> Schedule<
    Runnable<R, RowFuture, Scheduler, M, A, (), B>,
> for Scheduler {
    ghost scheduled = { λ _ _ _. ⊤ };

    fn schedule(
        &self,
        runnable: Runnable<R, RowFuture, Scheduler, M, A, (), B>,
        _info: ScheduleInfo,
    ) {
        self.count_call();
        drop(runnable);
    }
}

/// A schedule value without bytes, which drops each Runnable.
#[derive(Drop)]
pub struct Nowhere;

impl<N: Drop> Schedule<N> for Nowhere {
    ghost scheduled = { λ _ _ _. ⊤ };

    fn schedule(&self, _runnable: N, _info: ScheduleInfo) {}
}

/// What schedule values and futures reach by their handles: the queue, what each call was told, the stores of a waker and
/// of a Task, and the meeting of a poll with a second thread. The queue and the stores hold handles without surroundings.
/// What is left in them is dropped with them: the waker, the Task, and then the Runnables.
#[derive(Drop)]
pub struct Surroundings<'m, R: Wait + Drop + Copy> {
    /// Where a poll meets a second thread.
    pub rendezvous: Rendezvous,
    drops_each: AtomicBool,
    runs_each: AtomicBool,
    rt: R,
    alloc: Global,
    kept: Mutex<Option<BareWaker<'m, R>>>,
    task: Mutex<Option<BareTask<'m, R>>>,
    queue: Mutex<VecDeque<BareRunnable<'m, R>>>,
    infos: Mutex<VecDeque<bool>>,
}

impl<'m, R: Wait + Drop + Copy> Surroundings<'m, R> {
    /// Surroundings with room for that many Runnables and infos, and with empty stores.
    pub fn new(rt: R, alloc: Global, room: usize) -> Result<Surroundings<'m, R>, AllocError> {
        Ok(Surroundings {
            rendezvous: Rendezvous::new(),
            drops_each: AtomicBool::new(false),
            runs_each: AtomicBool::new(false),
            rt,
            alloc,
            kept: Mutex::new(None),
            task: Mutex::new(None),
            queue: Mutex::new(VecDeque::with_capacity(alloc, room)?),
            infos: Mutex::new(VecDeque::with_capacity(alloc, room)?),
        })
    }

    /// Makes the schedule value drop each Runnable before it returns.
    pub fn drop_each(&self) {
        self.drops_each.store(true, Ordering::SeqCst);
    }

    /// Makes the schedule value run each Runnable before it returns. What that run hands over is dropped.
    pub fn run_each(&self) {
        self.runs_each.store(true, Ordering::SeqCst);
    }

    // Whether the schedule value ends each Runnable.
    fn ends_each(&self) -> bool {
        self.drops_each.load(Ordering::SeqCst) || self.runs_each.load(Ordering::SeqCst)
    }

    // Runs a Runnable, or drops it.
    fn end<'x>(&'x self, runnable: RowRunnable<'x, 'm, R>) {
        let bare = runnable.with_around(());
        if self.runs_each.load(Ordering::SeqCst) {
            bare.run();
        } else {
            drop(bare);
        }
    }

    /// Pushes a Runnable to the queue. Where there is no memory it is dropped, which cancels its task.
    pub fn push<'x>(&'x self, runnable: RowRunnable<'x, 'm, R>) {
        let pushed = self
            .queue
            .lock(&self.rt)
            .push_back(runnable.with_around(()));
        // The lock is released: the drop of a Runnable drops a future and may wake an awaiter.
        drop(pushed);
    }

    // Notes what a call of the schedule value was told. Where there is no memory the note is missing,
    // and a row that compares it does not agree.
    fn note(&self, info: ScheduleInfo) {
        let _ = self
            .infos
            .lock(&self.rt)
            .push_back(info.woken_while_running);
    }

    /// Takes the Runnable that has waited longest.
    pub fn receive(&self) -> Option<RowRunnable<'_, 'm, R>> {
        let queued = self.queue.lock(&self.rt).pop_front()?;
        Some(queued.with_around(self))
    }

    /// Receives a Runnable and runs it: what the run answers, or `None` where the queue is empty.
    pub fn run_next(&self) -> Option<bool> {
        Some(self.receive()?.run().0)
    }

    /// Drops all Runnables of the queue, which cancels their tasks. The room that was taken for them goes too.
    pub fn clear(&self) {
        let taken = {
            let mut queue = self.queue.lock(&self.rt);
            mem::replace(&mut *queue, VecDeque::new(self.alloc))
        };
        // The lock is released: the drop of a Runnable drops a future and may wake an awaiter.
        drop(taken);
    }

    /// The number of Runnables in the queue.
    pub fn queued(&self) -> usize {
        self.queue.lock(&self.rt).len()
    }

    /// Takes out what the first call of the schedule value was told of `woken_while_running` that was not taken out before.
    pub fn take_info(&self) -> Option<bool> {
        self.infos.lock(&self.rt).pop_front()
    }

    /// Keeps a clone of a waker in the store, and drops the one that was there. Where a clone is refused,
    /// the store is left as it was, and a row that takes the waker does not agree.
    pub fn keep<'x>(&'x self, waker: &RowWaker<'x, 'm, R>) {
        let Ok(clone) = waker.try_clone() else {
            return;
        };
        let bare = clone.with_around(());
        let previous = {
            let mut kept = self.kept.lock(&self.rt);
            mem::replace(&mut *kept, Some(bare))
        };
        // The lock is released: the drop of a waker may hand a Runnable over.
        if let Some(previous) = previous {
            drop(previous.with_around(self));
        }
    }

    /// Takes the waker out of the store.
    pub fn take_kept(&self) -> Option<RowWaker<'_, 'm, R>> {
        let kept = self.kept.lock(&self.rt).take()?;
        Some(kept.with_around(self))
    }

    /// Keeps a Task, and drops the one that was there.
    pub fn keep_task<'x>(&'x self, task: RowTask<'x, 'm, R>) {
        let bare = task.with_around(());
        let previous = {
            let mut kept = self.task.lock(&self.rt);
            mem::replace(&mut *kept, Some(bare))
        };
        // The lock is released: the drop of a Task may hand a Runnable over.
        if let Some(previous) = previous {
            drop(previous.with_around(self));
        }
    }

    /// Takes the Task that was kept.
    pub fn take_task(&self) -> Option<RowTask<'_, 'm, R>> {
        let task = self.task.lock(&self.rt).take()?;
        Some(task.with_around(self))
    }
}
