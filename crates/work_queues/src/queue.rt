//! A queue, with the right to its flag.
ghost use Rattle.std.specs.Prelude.{◌≡◌, ◌+◌, ◌-◌, ◌/◌, ◌<◌, ◌≤◌, ◌++◌, [], ◌∷◌, false, min, option_to_list, IfErr, IfSome, IsSome, ◌↔◌, is_ok, if◌then◌else◌, OnOk};
ghost use Rattle.std.specs.VecDeque.{deque_len, deque_capacity};
ghost use Rattle.work_queues.specs.Duties.{IsFlag};

use crate::bells::{Bells, Flag, Woken};
use crate::moving::shift;
use std::alloc::{AllocError, AllocFailed, Allocator};
use std::collections::VecDeque;

// So many words more than a queue has. With them a queue takes 128 bytes or more, so that no cache line has two.
const FILLERS: usize = 10;

/// The items of a queue, and the right to the flag that shows whether there are any.
#[derive(Drop)]
pub struct Queue<T, A: Allocator> {
    items: VecDeque<T, A>,
    flag: Flag,
    fillers: [u64; FILLERS],
}

impl<T, A: Allocator> Queue<T, A> {
    // A queue whose flag shows none.
    pub(crate) fn new(items: VecDeque<T, A>, flag: Flag) -> Queue<T, A>
        ensures { (result.items ≡ items) × (result.flag ≡ flag) }
    {
        Queue {
            items,
            flag,
            fillers: [0; FILLERS],
        }
    }

    // The items, in their order. The right to the flag ends.
    pub(crate) fn into_items(self) -> VecDeque<T, A>
        ensures { result ≡ self.items }
    {
        let Queue {
            items,
            flag: _,
            fillers: _,
        } = self;
        items
    }

    /// How many items it has.
    pub fn len(&self) -> usize
        ensures { result ≡ deque_len self.now.items }
    {
        self.items.len()
    }

    /// Puts an item at the back. `Err` hands it back, where there was no memory.
    pub fn push(&mut self, item: T) -> Result<(), T>
        ensures items { self.new.items.items ≡ (if is_ok result then self.old.items.items ++ item ∷ [] else self.old.items.items) }
        ensures refused { IfErr result (λ back. back ≡ item) }
        ensures flag { self.new.flag ≡ self.old.flag }
    {
        match self.items.push_back(item) {
            Ok(()) => Ok(()),
            Err(AllocFailed { value }) => Err(value),
        }
    }

    /// Has room for one item more. An error says that there was no memory for it: the queue is as it was.
    pub fn reserve(&mut self) -> Result<(), AllocError>
        ensures room { OnOk result (deque_len self.new.items < deque_capacity self.new.items) }
        ensures items { self.new.items.items ≡ self.old.items.items }
        ensures flag { self.new.flag ≡ self.old.flag }
    {
        self.items.reserve(1)
    }

    /// Puts an item at the back, for which there is room.
    pub fn push_reserved(&mut self, item: T)
        requires { deque_len self.old.items < deque_capacity self.old.items }
        ensures items { self.new.items.items ≡ self.old.items.items ++ item ∷ [] }
        ensures flag { self.new.flag ≡ self.old.flag }
    {
        self.items.push_back_reserved(item);
    }

    /// Takes the item at the front, if there is one.
    pub fn pop(&mut self) -> Option<T>
        ensures items { self.old.items.items ≡ option_to_list result ++ self.new.items.items }
        ensures found { IsSome result ↔ (0 < deque_len self.old.items) }
        ensures flag { self.new.flag ≡ self.old.flag }
    {
        self.items.pop_front()
    }

    /// Moves half of the items, rounded up, from the front to the back of `batch`, as far as that has room.
    pub fn take_half(&mut self, batch: &mut VecDeque<T, A>)
        ensures order { batch.new.items ++ self.new.items.items ≡ batch.old.items ++ self.old.items.items }
        ensures half { deque_len batch.new ≡ deque_len batch.old + min (deque_len self.old.items - deque_len self.old.items / 2) (deque_capacity batch.old - deque_len batch.old) }
        ensures flag { self.new.flag ≡ self.old.flag }
    {
        let half = self.items.len() - self.items.len() / 2;
        shift(&mut self.items, batch, half);
    }

    /// Moves the items of `batch` to the back. An error says that there was no memory for all: what there was no room for stays in `batch`.
    pub fn put_all(&mut self, batch: &mut VecDeque<T, A>) -> Result<(), AllocError>
        ensures order { self.new.items.items ++ batch.new.items ≡ self.old.items.items ++ batch.old.items }
        ensures moved { (deque_capacity self.old.items ≤ deque_capacity self.new.items) × (deque_len self.new.items ≡ deque_len self.old.items + min (deque_len batch.old) (deque_capacity self.new.items - deque_len self.old.items)) }
        ensures all { OnOk result (batch.new.items ≡ []) }
        ensures flag { self.new.flag ≡ self.old.flag }
    {
        let reserved = self.items.reserve(batch.len());
        let count = batch.len();
        shift(batch, &mut self.items, count);
        reserved
    }

    /// Has the flag show whether there are items, and answers the worker that is to be woken for them.
    pub fn publish(&mut self, bells: &Bells) -> Option<Woken>
        requires { IsFlag bells.now self.old.flag × (self.old.flag.queue ≤ bells.now.workers) }
        ensures flag { IsFlag bells.now self.new.flag × (self.new.flag.queue ≡ self.old.flag.queue) }
        ensures empty { self.new.flag.shows ≡ false ↔ self.new.items.items ≡ [] }
        ensures items { self.new.items ≡ self.old.items }
        ensures woken { IfSome result (λ woken. woken.worker < bells.now.workers) }
    {
        let has_items = !self.items.is_empty();
        bells.publish(&mut self.flag, has_items)
    }
}
