//! What each row works with, and what it answers.
ghost use Rattle.std.specs.Prelude.{◌≡◌, ◌↔◌, IsTrue, IfOk, min};
ghost use Rattle.std.specs.Arc.{arc_value};
ghost use Rattle.task_cell.specs.Belongs.{cell_of};
ghost use Rattle.task_core.specs.declared.word.TheConstants.{LIMIT};

use crate::behaviour::Behaviour;
use crate::counters::{Counters, Counts};
use crate::executor::{PriorityQueue, PriorityRunnable, PriorityScheduler, PriorityTask};
use crate::flag::Flag;
use crate::future::RowFuture;
use crate::outcome::Outcome;
use crate::shown;
use crate::surroundings::{Memory, RowRunnable, RowTask, Scheduler, Surroundings, Tag};
use async_task::Builder;
use std::alloc::{AllocError, Global};
use std::fmt;
use std::sync::{Arc, Wait};

// Room in the queue: more than any row needs.
const ROOM: usize = 8;

/// Surroundings of a row's own, its counters, and the memory of its tasks.
pub struct Fixture<'m, R: Wait + Drop + Copy> {
    /// The queue and the stores of the row.
    pub surroundings: Surroundings<'m, R>,
    /// What the row may wait by, and start threads by.
    pub rt: R,
    /// What its futures, outputs, schedule values, metadata and awaiters count and note.
    pub counters: Arc<Counters>,
    alloc: Global,
    /// The memory of its tasks.
    pub memory: Memory<'m>,
}

impl<'m, R: Wait + Drop + Copy> Drop for Fixture<'m, R> {
    // As a derived drop, which would stand field by field in each test that drops a fixture.
    fn drop(self) {
        let Fixture {
            surroundings,
            rt,
            counters,
            alloc: _,
            memory: _,
        } = self;
        drop(surroundings);
        drop(rt);
        drop(counters);
    }
}

impl<'m, R: Wait + Drop + Copy> Fixture<'m, R> {
    /// Surroundings with an empty queue and empty stores, and counters at zero. The tasks take their blocks from `memory`.
    pub fn new(rt: R, alloc: Global, memory: Memory<'m>) -> Result<Fixture<'m, R>, AllocError> {
        let surroundings = Surroundings::new(rt, alloc, ROOM)?;
        let counters = Arc::new(alloc, Counters::new())?;
        Ok(Fixture {
            surroundings,
            rt,
            counters,
            alloc,
            memory,
        })
    }

    /// Spawns a task whose future behaves like that, and which may have that many references.
    pub fn spawn(
        &self,
        behaviour: Behaviour,
        references: u64,
    ) -> Result<(RowRunnable<'_, 'm, R>, RowTask<'_, 'm, R>), AllocError>
        ensures shares { IfOk result (λ handles. cell_of handles.1.inner.share ≡ cell_of handles.0.inner.share) }
        ensures limit { IfOk result (λ handles. handles.0.inner.share.block.key.limit ≡ min references LIMIT) }
    {
        let (future, scheduler) = self.counted(behaviour)?;
        let tag = Tag::new(Arc::try_clone(&self.counters)?);
        let maker = |tag: &Tag| {
            tag.count_maker();
            future
        };
        Builder::new()
            .reference_limit(references)
            .metadata(tag)
            .spawn(self.rt, self.memory, maker, scheduler, &self.surroundings)
            .map_err(|_| AllocError)
    }

    /// Spawns a task of that priority, whose future behaves like that.
    pub fn spawn_prior<'x>(
        &self,
        queue: &'x PriorityQueue<R>,
        priority: u64,
        behaviour: Behaviour,
    ) -> Result<(PriorityRunnable<'x, R>, PriorityTask<'x, R>), AllocError>
        ensures shares { IfOk result (λ handles. cell_of handles.1.inner.share ≡ cell_of handles.0.inner.share) }
        ensures priority { IfOk result (λ handles. handles.0.inner.share.block.value.metadata ≡ priority) }
    {
        let (future, scheduler) = self.counted(behaviour)?;
        let scheduler = PriorityScheduler::new(scheduler);
        Builder::new()
            .metadata(priority)
            .spawn(self.rt, self.alloc, |_| future, scheduler, queue)
            .map_err(|_| AllocError)
    }

    // A future that behaves like that, and a schedule value, which count here.
    fn counted(&self, behaviour: Behaviour) -> Result<(RowFuture, Scheduler), AllocError> {
        let future = self.future(behaviour)?;
        let scheduler = Scheduler::new(Arc::try_clone(&self.counters)?);
        Ok((future, scheduler))
    }

    /// A future that behaves like that, for a task of one thread.
    pub fn future(&self, behaviour: Behaviour) -> Result<RowFuture, AllocError>
        ensures behaviour { IfOk result (λ future. future.behaviour ≡ behaviour) }
        ensures counters { IfOk result (λ future. arc_value future.counters ≡ arc_value self.now.counters) }
    {
        Ok(RowFuture::new(behaviour, Arc::try_clone(&self.counters)?))
    }

    /// An empty queue in order of priority, with room for that many Runnables.
    pub fn priorities(&self, room: usize) -> Result<PriorityQueue<R>, AllocError> {
        PriorityQueue::new(self.rt, self.alloc, room)
    }

    /// Whether a handle shows its own name, and the flags and the count of that word.
    pub fn shows<H: fmt::Debug>(
        &self,
        handle: &H,
        name: &str,
        word: u64,
    ) -> Result<bool, AllocError> {
        shown::shows(self.alloc, handle, name, word)
    }

    /// An awaiter of that number, whose ends are noted.
    pub fn flag(&self, number: u64) -> Result<Flag, AllocError>
        ensures { IfOk result (λ flag. flag.number ≡ number) }
    {
        let journal = Arc::try_clone(&self.counters)?;
        Flag::noting(self.alloc, number, Some(journal))
    }

    /// The numbers that the row would print now.
    pub fn counts(&self) -> Counts {
        self.counters.counts()
    }

    /// The row's end: it agrees where what it saw did, and where its counters are the expected ones.
    pub fn end(&self, agrees: bool, expected: Counts) -> Outcome
        ensures { IsTrue result.agrees ↔ (IsTrue agrees × (result.counts ≡ expected)) }
    {
        Outcome::of(self.counts(), agrees, expected)
    }
}
