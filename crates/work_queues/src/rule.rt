//! The rule of a board, and the names of the steps on it.
ghost use Rattle.work_queues.specs.Board.{Orderly, room, Sits, Locks, Unlocks};
ghost use Rattle.work_queues.specs.Duties.{IsStored};

use crate::bells::Bells;
use crate::queue::Queue;
use crate::room::Room;
use atomic_table::{Play, TableRule};
use std::alloc::Allocator;

/// The rule: a queue that is not locked lies in its slot, and its flag shows no item exactly if it is empty.
#[derive(Clone, Copy)]
pub struct Order;

impl<T, A: Allocator> TableRule<Queue<T, A>, Room, Bells> for Order {
    ghost holds = { λ bells. Orderly IsStored bells.table.shared.table_id bells.workers };

    ghost first = { λ bells. room bells.table.shared.table_id };
}

/// A load that makes a seat.
pub struct Sit;

impl<T, A: Allocator> Play<Queue<T, A>, Room> for Sit {
    ghost then = { Sits };
}

/// A queue that was not locked is, and the seat has it.
pub struct Lock;

impl<T, A: Allocator> Play<Queue<T, A>, Room> for Lock {
    ghost then = { Locks IsStored };
}

/// The queue is given back.
pub struct Unlock;

impl<T, A: Allocator> Play<Queue<T, A>, Room> for Unlock {
    ghost then = { Unlocks };
}
