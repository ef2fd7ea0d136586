//! The queues of a board, each under a lock of its own.
ghost use Rattle.std.specs.Prelude.{◌≡◌, ◌≢◌, ℕ, ◌+◌, ◌*◌, ◌<◌, ◌≤◌, ◌++◌, List, [], ◌∷◌, IfOk, IfErr, IfSome, OnOk, length, slice_index};
ghost use Rattle.std.specs.Arc.{arc_value};
ghost use Rattle.std.specs.List.{All};
ghost use Rattle.std.specs.VecDeque.{deque_capacity};
ghost use mathlib.Core.Option.{some};
ghost use lib.ListN.{get_elem?};
ghost use Rattle.work_queues.specs.Sleep.{worker_word};
ghost use Rattle.work_queues.specs.Board.{room, HasQueue};
ghost use Rattle.work_queues.specs.Closing.{IsEmpty};
ghost use Rattle.work_queues.specs.Duties.{IsStored};

use super::{Board, LOCKED, UNLOCKED, Visit, Visited};
use crate::bells::{Bells, PADDING, Unparked, Woken};
use crate::queue::Queue;
use crate::rule::{Lock, Sit, Unlock};
use atomic_table::{Refused, Table};
use std::alloc::{AllocError, Allocator, Global};
use std::collections::VecDeque;
use std::sync::{Arc, Wait};
use std::thread::yield_now;

// An empty queue with room for `room` items, and the right to its flag.
fn empty_queue<T, A: Allocator>(
    items: A,
    bells: &Bells,
    number: usize,
    room: usize,
) -> Result<Queue<T, A>, AllocError>
    requires { number ≤ bells.now.workers }
    ensures stored { IfOk result (IsStored bells.now.table.shared.table_id number) }
    ensures room { IfOk result (λ queue. deque_capacity queue.items ≡ room) }
    ensures empty { IfOk result IsEmpty }
{
    let flag = bells.take_flag(number).ok_or(AllocError)?;
    Ok(Queue::new(VecDeque::with_capacity(items, room)?, flag))
}

// Empty queues with room for `room` items each, and the rights to their flags.
fn queues<T, A: Allocator + Copy>(
    alloc: Global,
    items: A,
    bells: &Bells,
    room: usize,
) -> Result<Vec<Queue<T, A>>, AllocError>
    ensures count { IfOk result (λ queues. length queues.items ≡ bells.now.workers + 1) }
    ensures each { IfOk result (λ queues. (i : ℕ) (queue : _) → get_elem? queues.items i ≡ some queue → IsStored bells.now.table.shared.table_id i queue × (deque_capacity queue.items ≡ room)) }
    ensures empty { IfOk result (λ queues. All IsEmpty queues.items) }
{
    let mut queues = Vec::with_capacity(alloc, bells.workers() + 1)?;
    for number in 0..bells.workers() + 1 {
        let Ok(queue) = empty_queue(items, bells, number, room) else {
            free_empty(queues);
            return Err(AllocError);
        };
        queues.push_reserved(queue);
    }
    Ok(queues)
}

// Frees the memory of empty queues.
fn free_empty<T, A: Allocator>(queues: Vec<Queue<T, A>>)
    requires { All IsEmpty queues.items }
{
    let mut queues = queues;
    while let Some(queue) = queues.pop() {
        queue.into_items().destroy_empty();
    }
    queues.destroy_empty();
}

impl<T, A: Allocator + Copy> Board<T, A> {
    /// A board with an empty queue for each worker of these bells and one more, and room for `room` items in each before it asks `items` for more memory. All else is of `alloc`. An error says that there was no memory, or that the bells have a board already.
    pub fn new(
        alloc: Global,
        items: A,
        bells: Arc<Bells>,
        room: usize,
    ) -> Result<Board<T, A>, AllocError>
        ensures { IfOk result (λ board. arc_value board.bells ≡ arc_value bells) }
    {
        let shared: &Bells = &bells;
        let words = vec![in alloc; UNLOCKED; PADDING * (shared.workers() + 1)]?;
        let queues = queues(alloc, items, shared, room)?;
        match Table::new(alloc, &words, queues, shared) {
            Ok((table, _seat)) => Ok(Board { table, bells }),
            Err(Refused { slots }) => {
                free_empty(slots);
                Err(AllocError)
            }
        }
    }
}

impl<T, A: Allocator> Board<T, A> {
    /// How many workers it has. Their queues have the numbers below it, and the queue for what comes from outside has this number.
    pub fn workers(&self) -> usize
        ensures { result ≡ (arc_value self.now.bells).workers }
    {
        self.bells.workers()
    }

    /// Wakes the thread of a worker that a call of this board has answered: `Bells::ring`.
    pub fn ring(&self, woken: Woken) -> Unparked
        requires { woken.worker < (arc_value self.now.bells).workers }
        ensures { result.word ≡ worker_word (arc_value self.now.bells).workers woken.worker }
    {
        self.bells.ring(woken)
    }

    /// Puts an item at the back of a queue, and answers the worker that is to be woken. `Err` hands the item back, where the queue was full and there was no memory for more.
    pub fn push<R: Wait>(
        &self,
        rt: &R,
        queue: usize,
        item: T,
    ) -> (Result<Visited, T>, Option<Woken>)
        requires { queue ≤ (arc_value self.now.bells).workers }
        ensures queue { IfOk result.0 (λ visited. visited.queue ≡ queue) }
        ensures refused { IfErr result.0 (λ back. back ≡ item) }
        ensures woken { IfSome result.1 (λ woken. woken.worker < (arc_value self.now.bells).workers) }
    {
        let mut visit = self.lock(rt, queue);
        let held = visit.seat.slot_mut(&self.table.shared, queue);
        let pushed = held.push(item);
        let woken = held.publish(&self.bells);
        let visited = self.unlock(visit, queue);
        match pushed {
            Ok(()) => (Ok(visited), woken),
            Err(back) => (Err(back), woken),
        }
    }

    /// Takes the item at the front of a queue, if it has one, and the worker that is to be woken for what is left. An item does not tell where it was, so no clause does: `Queue::pop` has it.
    pub fn pop<R: Wait>(&self, rt: &R, queue: usize) -> (Option<T>, Option<Woken>)
        requires { queue ≤ (arc_value self.now.bells).workers }
        ensures { IfSome result.1 (λ woken. woken.worker < (arc_value self.now.bells).workers) }
    {
        let mut visit = self.lock(rt, queue);
        let held = visit.seat.slot_mut(&self.table.shared, queue);
        let item = held.pop();
        let woken = held.publish(&self.bells);
        self.unlock(visit, queue);
        (item, woken)
    }

    /// Takes half of a queue from its front, rounded up, as far as `batch` has room, and the worker that is to be woken for what is left.
    pub fn take_half<R: Wait>(
        &self,
        rt: &R,
        queue: usize,
        batch: &mut VecDeque<T, A>,
    ) -> Option<Woken>
        requires { queue ≤ (arc_value self.now.bells).workers }
        ensures taken { (taken : List T) × (batch.new.items ≡ batch.old.items ++ taken) }
        ensures woken { IfSome result (λ woken. woken.worker < (arc_value self.now.bells).workers) }
    {
        let mut visit = self.lock(rt, queue);
        let held = visit.seat.slot_mut(&self.table.shared, queue);
        held.take_half(batch);
        let woken = held.publish(&self.bells);
        self.unlock(visit, queue);
        woken
    }

    /// Puts the items of `batch` at the back of a queue, in their order, and answers the worker that is to be woken. An error says that there was no memory for all: what the queue has no room for stays in `batch`.
    pub fn put_all<R: Wait>(
        &self,
        rt: &R,
        queue: usize,
        batch: &mut VecDeque<T, A>,
    ) -> (Visited, Result<(), AllocError>, Option<Woken>)
        requires { queue ≤ (arc_value self.now.bells).workers }
        ensures queue { result.0.queue ≡ queue }
        ensures all { OnOk result.1 (batch.new.items ≡ []) }
        ensures put { (put : List T) × (batch.old.items ≡ put ++ batch.new.items) }
        ensures woken { IfSome result.2 (λ woken. woken.worker < (arc_value self.now.bells).workers) }
    {
        let mut visit = self.lock(rt, queue);
        let held = visit.seat.slot_mut(&self.table.shared, queue);
        let put = held.put_all(batch);
        let woken = held.publish(&self.bells);
        (self.unlock(visit, queue), put, woken)
    }

    // `None` where another thread has the queue.
    fn try_lock(&self, queue: usize) -> Option<Visit<T, A>>
        requires { queue ≤ (arc_value self.now.bells).workers }
        ensures { IfSome result (λ visit. (visit.seat.table_id ≡ self.now.table.shared.table_id) × (held : _) × HasQueue queue visit.seat.me held × IsStored (arc_value self.now.bells).table.shared.table_id queue held) }
    {
        let word = PADDING * queue;
        let shared = &self.table.shared;
        let (seen, mut seat) = shared.load_new_seat::<Sit>(word);
        if seen == UNLOCKED
            && shared.compare_exchange::<Lock>(&mut seat, word, UNLOCKED, LOCKED) == UNLOCKED
        {
            return Some(Visit { seat });
        }
        None
    }

    pub(super) fn lock<R: Wait>(&self, rt: &R, queue: usize) -> Visit<T, A>
        requires { queue ≤ (arc_value self.now.bells).workers }
        ensures { (result.seat.table_id ≡ self.now.table.shared.table_id) × (held : _) × HasQueue queue result.seat.me held × IsStored (arc_value self.now.bells).table.shared.table_id queue held }
    {
        for _ in rt.forever() {
            if let Some(visit) = self.try_lock(queue) {
                return visit;
            }
            yield_now();
        }
        unreachable!()
    }

    // Gives the queue back, whose flag shows whether it has items.
    pub(super) fn unlock(&self, visit: Visit<T, A>, queue: usize) -> Visited
        requires id { visit.seat.table_id ≡ self.now.table.shared.table_id }
        requires queue { queue ≤ (arc_value self.now.bells).workers }
        requires held { (held : _) × HasQueue queue visit.seat.me held × IsStored (arc_value self.now.bells).table.shared.table_id queue held }
        ensures { result.queue ≡ queue }
    {
        let Visit { mut seat } = visit;
        self.table
            .shared
            .store::<Unlock>(&mut seat, PADDING * queue, UNLOCKED);
        drop(seat);
        Visited { queue }
    }
}
