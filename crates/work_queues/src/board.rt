//! The board of a pool: a queue for each worker, and one for what comes from outside.
ghost use Rattle.std.specs.Prelude.{◌≡◌, ◌≢◌, ℕ, ◌+◌, ◌*◌, ◌<◌, ◌≤◌, [], ◌∷◌, IfOk, IfErr, IfSome, length, slice_index};
ghost use Rattle.std.specs.Arc.{arc_value};
ghost use Rattle.std.specs.VecDeque.{deque_capacity};
ghost use mathlib.Core.Option.{some};
ghost use lib.ListN.{get_elem?};
ghost use Rattle.work_queues.specs.Sleep.{padding};

mod closing;
mod looks;
mod queues;
mod reserving;

use crate::bells::{Bells, PADDING};
use crate::queue::Queue;
use crate::room::Room;
use crate::rule::Order;
use atomic_table::Table;
pub use closing::ClosedBoard;
pub(crate) use looks::pause;
pub use reserving::Reserved;
use std::alloc::{Allocator, Global};
use std::sync::Arc;

const UNLOCKED: u64 = 0;

const LOCKED: u64 = 1;

// What a thread does with a queue that it has locked. It has no `Drop`, so it ends in `unlock`.
struct Visit<T, A: Allocator> {
    seat: atomic_table::Seat<Queue<T, A>, Room>,
}

/// A queue that a call has had to itself, and has given back. Only that makes one.
#[derive(Drop)]
pub struct Visited {
    queue: usize,
}

/// Each queue below a number was had by a call, and given back.
#[derive(Drop)]
pub struct AllVisited {
    next: usize,
}

/// A queue for each worker, and one more for what comes from outside. `A` is where the queues take their memory. Items with `Drop` are dropped with it, and others come out by `close`.
#[derive(Drop)]
pub struct Board<T, A: Allocator = Global> {
    table: Table<Queue<T, A>, Room, Bells, Order, Global>,
    bells: Arc<Bells>,
    ghost sized: { (table.shared.table_id.words ≡ padding * ((arc_value bells).workers + 1)) × (table.shared.table_id.slots ≡ (arc_value bells).workers + 1) × (table.shared.key ≡ arc_value bells) },
}
