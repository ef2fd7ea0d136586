//! Room for one item in a queue, which stays locked until that is put there.
ghost use Rattle.std.specs.Prelude.{◌≡◌, ◌+◌, ◌<◌, ◌≤◌, IfOk, IfSome};
ghost use Rattle.std.specs.Arc.{arc_value};
ghost use Rattle.work_queues.specs.Rooms.{HasRoom};

use super::{AllVisited, Board, Visit, Visited};
use crate::bells::Woken;
use std::alloc::{AllocError, Allocator};
use std::sync::Wait;

/// Room for one item at the back of a queue. The queue is locked meanwhile. It has no `Drop`, so it ends in `put` or `release`.
pub struct Reserved<T, A: Allocator> {
    visit: Visit<T, A>,
    queue: usize,
}

impl AllVisited {
    // The next queue was had, too.
    fn add(self, visited: Visited) -> AllVisited
        requires { (visited.queue ≡ self.next) × (self.next ≤ 1024) }
        ensures { result.next ≡ self.next + 1 }
    {
        AllVisited {
            next: visited.queue + 1,
        }
    }
}

impl<T, A: Allocator> Board<T, A> {
    /// Locks a queue, and has room there for one item more. An error says that there was no memory for it: the queue is as it was, and not locked.
    pub fn reserve<R: Wait>(&self, rt: &R, queue: usize) -> Result<Reserved<T, A>, AllocError>
        requires { queue ≤ (arc_value self.now.bells).workers }
        ensures room { IfOk result (λ reserved. HasRoom self.now reserved) }
        ensures queue { IfOk result (λ reserved. reserved.queue ≡ queue) }
    {
        let mut visit = self.lock(rt, queue);
        let held = visit.seat.slot_mut(&self.table.shared, queue);
        match held.reserve() {
            Ok(()) => Ok(Reserved { visit, queue }),
            Err(refused) => {
                self.unlock(visit, queue);
                Err(refused)
            }
        }
    }

    /// Puts an item where there is room for it, unlocks that queue, and answers the worker that is to be woken.
    pub fn put(&self, reserved: Reserved<T, A>, item: T) -> (Visited, Option<Woken>)
        requires { HasRoom self.now reserved }
        ensures queue { result.0.queue ≡ reserved.queue }
        ensures woken { IfSome result.1 (λ woken. woken.worker < (arc_value self.now.bells).workers) }
    {
        let Reserved { mut visit, queue } = reserved;
        let held = visit.seat.slot_mut(&self.table.shared, queue);
        held.push_reserved(item);
        let woken = held.publish(&self.bells);
        (self.unlock(visit, queue), woken)
    }

    /// Unlocks the queue, to which nothing is added.
    pub fn release(&self, reserved: Reserved<T, A>) -> Visited
        requires { HasRoom self.now reserved }
        ensures { result.queue ≡ reserved.queue }
    {
        let Reserved { visit, queue } = reserved;
        self.unlock(visit, queue)
    }

    // Waits until it has a queue, and gives it back.
    fn visit<R: Wait>(&self, rt: &R, queue: usize) -> Visited
        requires { queue ≤ (arc_value self.now.bells).workers }
        ensures { result.queue ≡ queue }
    {
        let visit = self.lock(rt, queue);
        self.unlock(visit, queue)
    }

    /// Waits at each queue until no thread that had it before has it any more.
    pub fn visit_all<R: Wait>(&self, rt: &R) -> AllVisited
        ensures { result.next ≡ (arc_value self.now.bells).workers + 1 }
    {
        let mut all = AllVisited { next: 0 };
        for queue in 0..self.workers() + 1 {
            let visited = self.visit(rt, queue);
            all = all.add(visited);
        }
        all
    }

    /// How many items a queue has. Nothing is claimed of a number that is over as it is answered.
    pub fn len<R: Wait>(&self, rt: &R, queue: usize) -> usize
        requires { queue ≤ (arc_value self.now.bells).workers }
    {
        let mut visit = self.lock(rt, queue);
        let held = visit.seat.slot_mut(&self.table.shared, queue);
        let items = held.len();
        self.unlock(visit, queue);
        items
    }
}
