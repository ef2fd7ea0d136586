//! What the workers of a pool share: their queues and their bells.
ghost use Rattle.std.specs.Prelude.{◌≡◌, ◌+◌, ◌<◌, ◌≤◌, ◌++◌, ◌↔◌, List, [], min, max, IfOk, OnOk};
ghost use Rattle.std.specs.Arc.{arc_value};
ghost use Rattle.std.specs.VecDeque.{deque_capacity};

mod finding;
mod queues;
mod resting;
mod worker;

use crate::bells::Bells;
use crate::board::{Board, ClosedBoard, Visited};
use crate::settings::Settings;
use std::alloc::{AllocError, Allocator, Global};
use std::collections::VecDeque;
use std::sync::{Arc, Wait};
pub use worker::{Worker, WorkerCounts};

/// The board of a pool and its bells. `A` is where the queues take their memory. The items that are left are dropped with it; a crew whose items have no `Drop` ends in `close`.
pub struct Crew<T, A: Allocator = Global> {
    board: Board<T, A>,
    bells: Arc<Bells>,
    settings: Settings,
    ghost same: { arc_value board.bells ≡ arc_value bells },
}

impl<T: Drop, A: Allocator> Drop for Crew<T, A> {
    // As a derived drop, which would stand field by field in each function that drops a crew.
    fn drop(self) {
        let Crew {
            board,
            bells,
            settings: _,
        } = self;
        drop(board);
        drop(bells);
    }
}

/// Why there is no worker of a number.
#[derive(Clone, Copy, Debug, PartialEq, Eq)]
pub enum WorkerError {
    /// The crew has no worker of this number.
    NoSuchWorker,
    /// Another `Worker` has this number.
    Taken,
    /// There was no memory, or the bells have as many owners as can be counted.
    NoMemory,
}

impl<T, A: Allocator + Copy> Crew<T, A> {
    ghost use Rattle.work_queues.specs.Settled.{OwesNothing};

    /// Empty queues for `workers` workers, at least one and at most `MOST_WORKERS`, with room for `room` items in each before it asks `items` for more memory. All else is of `alloc`. An error says that there was no memory.
    pub fn new(
        alloc: Global,
        items: A,
        workers: usize,
        room: usize,
    ) -> Result<Crew<T, A>, AllocError>
        ensures { IfOk result (λ crew. ((arc_value crew.bells).workers ≡ min (max workers 1) 1024) × (crew.settings.room ≡ room)) }
    {
        Crew::with_settings(alloc, items, workers, Settings::new().room(room))
    }

    /// Empty queues as `new` makes them, with these numbers.
    pub fn with_settings(
        alloc: Global,
        items: A,
        workers: usize,
        settings: Settings,
    ) -> Result<Crew<T, A>, AllocError>
        ensures { IfOk result (λ crew. ((arc_value crew.bells).workers ≡ min (max workers 1) 1024) × (crew.settings ≡ settings)) }
    {
        let bells = Arc::new(alloc, Bells::new(alloc, workers)?)?;
        let board = Board::new(alloc, items, Arc::try_clone(&bells)?, settings.room)?;
        Ok(Crew {
            board,
            bells,
            settings,
        })
    }

    /// What the worker of this number keeps: its batch takes its memory of `items`. After an error nothing has changed.
    pub fn worker(&self, items: A, number: usize) -> Result<Worker<T, A>, WorkerError>
        ensures worker { IfOk result (λ worker. (worker.number ≡ number) × (number < (arc_value self.now.bells).workers)) }
        ensures batch { IfOk result (λ worker. (worker.batch.items ≡ []) × (deque_capacity worker.batch ≡ self.now.settings.batch)) }
        ensures owes { IfOk result (λ worker. OwesNothing worker) }
        ensures none { result ≡ Err WorkerError.NoSuchWorker ↔ ((arc_value self.now.bells).workers ≤ number) }
    {
        if number >= self.workers() {
            return Err(WorkerError::NoSuchWorker);
        }
        let Ok(batch) = VecDeque::with_capacity(items, self.settings.batch) else {
            return Err(WorkerError::NoMemory);
        };
        let Ok(bells) = Arc::try_clone(&self.bells) else {
            batch.destroy_empty();
            return Err(WorkerError::NoMemory);
        };
        let Some(claim) = bells.claim(number) else {
            batch.destroy_empty();
            return Err(WorkerError::Taken);
        };
        Ok(Worker {
            number,
            looks: 0,
            visits: 0,
            counts: WorkerCounts::default(),
            batch,
            bells,
            claim,
            owed: None,
            heard: None,
        })
    }
}

impl<T, A: Allocator> Crew<T, A> {
    ghost use Rattle.work_queues.specs.Closing.{queues_left};

    /// How many workers it has.
    pub fn workers(&self) -> usize
        ensures { result ≡ (arc_value self.now.bells).workers }
    {
        self.board.workers()
    }

    /// The bells of its workers.
    pub fn bells(&self) -> &Arc<Bells>
        ensures { result.now ≡ self.now.bells }
    {
        &self.bells
    }

    /// Ends the crew, whose items are left in its queues: `Board::close`.
    pub fn close(self) -> ClosedBoard<T, A>
        ensures { queues_left result ≡ (arc_value self.bells).workers + 1 }
    {
        let Crew {
            board,
            bells,
            settings: _,
        } = self;
        drop(bells);
        board.close()
    }

    /// Ends the turns of this worker, whose number another thread may have from here on. Its batch goes to the back of the queue for what comes from outside, as far as that has room. What it was to look for, another worker does. The answer is what there was no room for.
    pub fn end_turns<R: Wait>(&self, rt: &R, worker: Worker<T, A>) -> VecDeque<T, A>
        ensures { (put : List T) × (worker.batch.items ≡ put ++ result.items) }
    {
        self.hand_on(rt, worker).2
    }

    // The same. An error says that there was no memory for all.
    fn hand_on<R: Wait>(
        &self,
        rt: &R,
        worker: Worker<T, A>,
    ) -> (Visited, Result<(), AllocError>, VecDeque<T, A>)
        ensures queue { result.0.queue ≡ (arc_value self.now.bells).workers }
        ensures all { OnOk result.1 (result.2.items ≡ []) }
        ensures put { (put : List T) × (worker.batch.items ≡ put ++ result.2.items) }
    {
        let Worker {
            number: _,
            looks: _,
            visits: _,
            counts: _,
            mut batch,
            bells,
            claim,
            owed,
            heard,
        } = worker;
        let (visited, put, woken) = self.board.put_all(rt, self.board.workers(), &mut batch);
        self.ring(woken);
        if let Some(look) = owed {
            bells.settle(look);
        }
        bells.settle(bells.give_back(claim));
        if let Some(heard) = heard {
            bells.pass_on(heard);
        }
        drop(bells);
        (visited, put, batch)
    }
}
