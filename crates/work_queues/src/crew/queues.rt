//! What any thread does with the queues of a crew.
ghost use Rattle.std.specs.Prelude.{◌≡◌, ◌+◌, ◌<◌, IfErr, IfOk, IfSome, min};
ghost use Rattle.std.specs.Arc.{arc_value};
ghost use Rattle.work_queues.specs.Duties.{SawNothing};
ghost use Rattle.work_queues.specs.Rooms.{HasRoom};

use super::Crew;
use crate::bells::{NothingShown, Woken};
use crate::board::{AllVisited, Reserved, Visited};
use std::alloc::{AllocError, Allocator};
use std::sync::Wait;

impl<T, A: Allocator> Crew<T, A> {
    pub(super) fn ring(&self, woken: Option<Woken>)
        requires { IfSome woken (λ woken. woken.worker < (arc_value self.now.bells).workers) }
    {
        if let Some(woken) = woken {
            self.board.ring(woken);
        }
    }

    /// Puts an item at the back of a worker's queue, or, where there is no worker of this number, of the queue for what comes from outside. It wakes a worker if one sleeps. `Err` hands the item back, where there was no memory.
    pub fn push<R: Wait>(&self, rt: &R, worker: usize, item: T) -> Result<Visited, T>
        ensures queue { IfOk result (λ visited. visited.queue ≡ min worker (arc_value self.now.bells).workers) }
        ensures refused { IfErr result (λ back. back ≡ item) }
    {
        let queue = worker.min(self.board.workers());
        let (pushed, woken) = self.board.push(rt, queue, item);
        self.ring(woken);
        pushed
    }

    /// Takes the item at the front of a worker's queue, or, where there is no worker of this number, of the queue for what comes from outside. `None` where it is empty. As of `Board::pop`, no clause says which queue.
    pub fn pop<R: Wait>(&self, rt: &R, queue: usize) -> Option<T> {
        let queue = queue.min(self.board.workers());
        if self.board.is_empty(queue) {
            return None;
        }
        let (item, woken) = self.board.pop(rt, queue);
        self.ring(woken);
        item
    }

    /// Has room for one item more in a worker's queue, or, where there is no worker of this number, in the queue for what comes from outside. No other call reaches that queue until `put` or `release`, so do little in between, and ask nothing of this crew. An error says that there was no memory.
    pub fn reserve<R: Wait>(&self, rt: &R, worker: usize) -> Result<Reserved<T, A>, AllocError>
        ensures room { IfOk result (λ reserved. HasRoom self.now.board reserved) }
        ensures queue { IfOk result (λ reserved. reserved.queue ≡ min worker (arc_value self.now.bells).workers) }
    {
        let queue = worker.min(self.board.workers());
        self.board.reserve(rt, queue)
    }

    /// Puts an item where there is room for it, at the back of that queue, and wakes a worker if one sleeps.
    pub fn put(&self, reserved: Reserved<T, A>, item: T) -> Visited
        requires { HasRoom self.now.board reserved }
        ensures { result.queue ≡ reserved.queue }
    {
        let (visited, woken) = self.board.put(reserved, item);
        self.ring(woken);
        visited
    }

    /// Gives room back to which nothing came: `Board::release`.
    pub fn release(&self, reserved: Reserved<T, A>) -> Visited
        requires { HasRoom self.now.board reserved }
        ensures { result.queue ≡ reserved.queue }
    {
        self.board.release(reserved)
    }

    /// Waits at each queue until no thread that had reserved room there before has it any more.
    pub fn pass<R: Wait>(&self, rt: &R) -> AllVisited
        ensures { result.next ≡ (arc_value self.now.bells).workers + 1 }
    {
        self.board.visit_all(rt)
    }

    /// How many items the queues have, each counted while it is locked: none of those in the batches of workers. Nothing is claimed of a number that is over as it is answered.
    pub fn len<R: Wait>(&self, rt: &R) -> usize {
        let mut items = 0usize;
        for queue in 0..self.board.workers() + 1 {
            items = items.saturating_add(self.board.len(rt, queue));
        }
        items
    }

    /// Looks whether a queue shows an item. `None` where one does. It takes no lock.
    pub fn shows_none(&self) -> Option<NothingShown>
        ensures { IfSome result (λ none. SawNothing (arc_value self.now.bells) none) }
    {
        self.bells.shows_none()
    }
}
