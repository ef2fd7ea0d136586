//! The end of a board: the items that its queues have left come out.
ghost use Rattle.std.specs.Prelude.{◌≡◌, ℕ, ◌+◌, ◌<◌, ◌≤◌, true, false, slice_index_or, IsNone, IsSome};
ghost use Rattle.std.specs.Arc.{arc_value};

use super::Board;
use crate::queue::Queue;
use atomic_table::Closed;
use std::alloc::{Allocator, Global};
use std::collections::VecDeque;

/// The queues of a board that no thread shares any more. It has no `Drop`: take the items of each queue, and then call `free`.
pub struct ClosedBoard<T, A: Allocator = Global> {
    table: Closed<Queue<T, A>, Global>,
    // The number of the next queue whose items come out.
    next: usize,
    ghost left: { (i : ℕ) → next ≤ i → i < table.slots.len → slice_index_or table.slots.filled i false ≡ true },
    ghost taken: { (i : ℕ) → i < next → slice_index_or table.slots.filled i false ≡ false },
}

impl<T, A: Allocator> Board<T, A> {
    ghost use Rattle.work_queues.specs.Closing.{queues_left};

    /// Ends the board. What its queues have comes out of the answer.
    pub fn close(self) -> ClosedBoard<T, A>
        ensures { queues_left result ≡ (arc_value self.bells).workers + 1 }
    {
        let Board { table, bells } = self;
        drop(bells);
        ClosedBoard {
            table: table.close(),
            next: 0,
        }
    }
}

impl<T, A: Allocator> ClosedBoard<T, A> {
    ghost use Rattle.work_queues.specs.Closing.{queues_left};

    /// The items of the next queue, in their order. `None` once those of each queue have come out.
    pub fn take_queue(&mut self) -> Option<VecDeque<T, A>>
        ensures left { IsSome result → queues_left self.old ≡ queues_left self.new + 1 }
        ensures none { IsNone result → queues_left self.new ≡ 0 }
    {
        if self.next >= self.table.slot_count() {
            return None;
        }
        let queue = self.table.take(self.next);
        self.next += 1;
        Some(queue.into_items())
    }

    /// Frees the memory, once the items of each queue have come out.
    pub fn free(self)
        requires { queues_left self ≡ 0 }
    {
        let ClosedBoard { table, next: _ } = self;
        table.free();
    }
}
