//! Where a worker finds its next item.
ghost use Rattle.std.specs.Prelude.{◌≡◌, ◌<◌, ◌≤◌, ◌+◌, ◌/◌, ◌%◌, ◌++◌, [], min, option_to_list, IfErr, IfOk, IsNone, IsSome, OnErr, OnOk};
ghost use Rattle.std.specs.Arc.{arc_value};
ghost use Rattle.std.specs.VecDeque.{deque_len};

use super::{Crew, Worker};
use crate::board::Visited;
use std::alloc::{AllocError, Allocator};
use std::sync::Wait;

/// A worker looks at the queue of the next other worker first, once in this many times that it looks first at that for what comes from outside. The thread of that one may be in a long poll, or gone.
const OTHERS_EVERY: u64 = 16;

// The number of the worker whose queue is looked at at this visit: of each in turn.
fn whose_turn(visits: u64, workers: usize) -> usize
    requires { 0 < workers }
    ensures { result ≡ (visits / 16) % workers }
{
    (visits / OTHERS_EVERY) as usize % workers
}

// A worker has looked at the queue for what comes from outside and at those of others, so many in all, and taken nothing. Only `Crew::steal_next` adds one.
#[derive(Drop)]
struct Looked {
    queues: usize,
}

impl<T, A: Allocator> Crew<T, A> {
    ghost use Rattle.work_queues.specs.Settled.{OwesNothing};

    // One item of another queue, and up to half of the others into the own queue.
    fn steal<R: Wait>(&self, rt: &R, worker: &mut Worker<T, A>, from: usize) -> Option<T>
        ensures { IsNone result → worker.new.batch.items ≡ [] }
    {
        let from = from.min(self.board.workers());
        let woken = self.board.take_half(rt, from, &mut worker.batch);
        self.ring(woken);
        if from != self.board.workers() {
            let moved = worker.batch.len() as u64;
            worker.counts.stolen = worker.counts.stolen.wrapping_add(moved);
        }
        self.keep_batch(rt, worker)
    }

    // The batch of a worker goes to the back of its own queue, as far as that has room.
    fn put_batch<R: Wait>(
        &self,
        rt: &R,
        worker: &mut Worker<T, A>,
    ) -> (Visited, Result<(), AllocError>)
        ensures queue { result.0.queue ≡ min worker.old.number (arc_value self.now.bells).workers }
        ensures all { OnOk result.1 (worker.new.batch.items ≡ []) }
    {
        let own = worker.number.min(self.board.workers());
        let (visited, put, woken) = self.board.put_all(rt, own, &mut worker.batch);
        self.ring(woken);
        (visited, put)
    }

    // The first item of its batch. The others go into its own queue.
    fn keep_batch<R: Wait>(&self, rt: &R, worker: &mut Worker<T, A>) -> Option<T>
        ensures first { 0 < deque_len worker.old.batch → IsSome result }
        ensures none { IsNone result → worker.new.batch.items ≡ [] }
    {
        let first = worker.batch.pop_front();
        if !worker.batch.is_empty() {
            drop(self.put_batch(rt, worker));
        }
        first
    }

    // Looks at the next queue: first at that for what comes from outside, and then at each from its own on, so that thieves spread. It takes no lock of one that is empty, nor of one whose worker is about to empty it.
    fn steal_next<R: Wait>(
        &self,
        rt: &R,
        worker: &mut Worker<T, A>,
        before: Looked,
    ) -> Result<T, Looked>
        requires { (worker.old.batch.items ≡ []) × (before.queues ≤ (arc_value self.now.bells).workers) }
        ensures looked { IfErr result (λ looked. looked.queues ≡ before.queues + 1) }
        ensures none { OnErr result (worker.new.batch.items ≡ []) }
    {
        let workers = self.board.workers();
        let (from, takes) = if before.queues == 0 {
            (workers, !self.board.is_empty(workers))
        } else {
            let from = (worker.number % workers + before.queues - 1) % workers;
            (from, from != worker.number && self.board.is_left(from))
        };
        if takes {
            if let Some(item) = self.steal(rt, worker, from) {
                return Ok(item);
            }
        }
        Err(Looked {
            queues: before.queues + 1,
        })
    }

    // An error says that it has looked at each queue.
    fn find_elsewhere<R: Wait>(&self, rt: &R, worker: &mut Worker<T, A>) -> Result<T, Looked>
        requires { worker.old.batch.items ≡ [] }
        ensures all { IfErr result (λ looked. looked.queues ≡ (arc_value self.now.bells).workers + 1) }
        ensures none { OnErr result (worker.new.batch.items ≡ []) }
    {
        let mut looked = Looked { queues: 0 };
        for _queue in 0..self.board.workers() + 1 {
            match self.steal_next(rt, worker, looked) {
                Ok(item) => return Ok(item),
                Err(next) => looked = next,
            }
        }
        Err(looked)
    }

    // What a worker that always has items of its own would never come to: half of the next other worker's queue, if it is the turn of that, or what came from outside.
    fn find_overdue<R: Wait>(&self, rt: &R, worker: &mut Worker<T, A>) -> Option<T>
        requires { worker.old.batch.items ≡ [] }
        ensures { IsNone result → worker.new.batch.items ≡ [] }
    {
        let workers = self.board.workers();
        if worker.visits % OTHERS_EVERY == 0 {
            let from = whose_turn(worker.visits, workers);
            if from != worker.number && !self.board.is_empty(from) {
                if let Some(item) = self.steal(rt, worker, from) {
                    return Some(item);
                }
            }
        }
        self.pop(rt, workers)
    }

    /// The next item for this worker: what its batch has, then that at the front of its queue, then half of what came from outside or of another worker's queue. Once in 61 looks what came from outside is first, and once in 976 looks the queue of another worker, of each in turn, but for other `Settings`. `None` also where another worker's queue shows items that this one leaves to it.
    ///
    /// Where it finds one, the worker owes nothing from here on. So look first at what interruptions are for, if it has heard one.
    pub fn find<R: Wait>(&self, rt: &R, worker: &mut Worker<T, A>) -> Option<T>
        ensures owes { IsSome result → OwesNothing worker.new }
        ensures batch { 0 < deque_len worker.old.batch → worker.old.batch.items ≡ option_to_list result ++ worker.new.batch.items }
        ensures found { 0 < deque_len worker.old.batch → IsSome result }
        ensures none { IsNone result → worker.new.batch.items ≡ [] }
    {
        let item = self.find_next(rt, worker);
        if item.is_some() {
            worker.counts.found = worker.counts.found.wrapping_add(1);
            worker.settle();
        }
        item
    }

    fn find_next<R: Wait>(&self, rt: &R, worker: &mut Worker<T, A>) -> Option<T>
        ensures batch { 0 < deque_len worker.old.batch → worker.old.batch.items ≡ option_to_list result ++ worker.new.batch.items }
        ensures found { 0 < deque_len worker.old.batch → IsSome result }
        ensures none { IsNone result → worker.new.batch.items ≡ [] }
    {
        if let Some(item) = worker.batch.pop_front() {
            return Some(item);
        }
        worker.looks = worker.looks.wrapping_add(1);
        if worker.looks >= self.settings.outside_every {
            worker.looks = 0;
            worker.visits = worker.visits.wrapping_add(1);
            if let Some(item) = self.find_overdue(rt, worker) {
                return Some(item);
            }
        }
        if let Some(item) = self.pop(rt, worker.number) {
            return Some(item);
        }
        match self.find_elsewhere(rt, worker) {
            Ok(item) => Some(item),
            Err(_) => None,
        }
    }
}
