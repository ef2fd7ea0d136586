//! What a call has in its hands: values that come out of the places of the block, or go into them.
ghost use Rattle.std.specs.Prelude.{◌≡◌, Option, Some, None};
ghost use Rattle.atomic_table.specs.Table.{rest};
ghost use Rattle.task_steps.specs.Held.{held};
ghost use Rattle.task_steps.specs.Steps.{work_first, awaiter_first};

use crate::kept::{Kept, StoredAwaiter};
use crate::table::{Block, LastBlock, Slot, TaskSeat};
use std::alloc::Allocator;
use task_core::{Wake, Yields};

/// A future, an output or an awaiter that a call has in its hands. It must be spent: it goes into a place of the block, or comes to one of its ends.
pub struct Held<T> {
    value: T,
}

impl<T> Held<T> {
    /// A value that comes into the hands of a call.
    pub fn new(value: T) -> Held<T>
        ensures { result.value ≡ value }
    {
        Held { value }
    }
}

impl<T: Drop> Held<T> {
    /// Drops the value.
    pub fn discard(self) {
        let Held { value } = self;
        drop(value);
    }
}

impl<A: Wake> Held<StoredAwaiter<A>> {
    /// Wakes the awaiter that was stored, by value. The record of the wake says so, and is dropped.
    pub fn wake(self)
        ensures { (told : A.Record) × A.woken self.value.awaiter told }
    {
        let Held { value } = self;
        let StoredAwaiter { awaiter, by: _ } = value;
        awaiter.wake();
    }

    /// Whether a wake of the awaiter that was stored is known to wake the other one too.
    pub fn will_wake(&self, other: &A) -> bool
        ensures { A.compared self.now.value.awaiter other.now result }
    {
        self.value.awaiter.will_wake(other)
    }
}

impl<F: Yields> Held<Kept<F>> {
    /// Hands the output out.
    pub fn hand_out(self) -> Kept<F>
        ensures { result ≡ self.value }
    {
        let Held { value } = self;
        value
    }
}

/// What lay in the place of the work. It must be spent: it is dropped, or what it is comes into the hands of the call.
pub struct Content<F, T> {
    slot: Slot<F, T>,
}

impl<F: Drop, T: Drop> Content<F, T> {
    /// Drops what lay there.
    pub fn discard(self) {
        let Content { slot } = self;
        drop(slot);
    }

    /// The output that lay there.
    pub fn into_output(self) -> Held<T>
        requires { (x : T) × (self.slot ≡ Slot.Output x) }
        ensures { self.slot ≡ Slot.Output result.value }
    {
        let Content { slot } = self;
        let Slot::Output(value) = slot else {
            unreachable!()
        };
        Held { value }
    }
}

/// Leaves nothing in the place of the work, which the seat has in front, and answers what lay there.
pub fn take_work<F: Yields, A, V, B: Allocator>(
    block: &Block<F, A, V, B>,
    seat: &mut TaskSeat<F, Kept<F>, A>,
) -> Content<F, Kept<F>>
    requires { (seat.old.block ≡ block.now.id) × ((old : Slot F _) × (seat.old.me.1 ≡ work_first old (rest seat.old.me.1))) }
    ensures { (seat.new.block ≡ seat.old.block) × (seat.new.id ≡ seat.old.id) × (seat.old.me.1 ≡ work_first result.slot (rest seat.old.me.1)) × (seat.new.me ≡ (seat.old.me.0, work_first Slot.Empty (rest seat.old.me.1))) }
{
    let slot = block.swap_first(seat, Slot::Empty);
    Content { slot }
}

/// Puts the output into the place of the work, which the seat has in front, and answers what lay there.
pub fn put_output<F: Yields, A, V, B: Allocator>(
    block: &Block<F, A, V, B>,
    seat: &mut TaskSeat<F, Kept<F>, A>,
    output: Held<Kept<F>>,
) -> Content<F, Kept<F>>
    requires { (seat.old.block ≡ block.now.id) × ((old : Slot F _) × (seat.old.me.1 ≡ work_first old (rest seat.old.me.1))) }
    ensures { (seat.new.block ≡ seat.old.block) × (seat.new.id ≡ seat.old.id) × (seat.old.me.1 ≡ work_first result.slot (rest seat.old.me.1)) × (seat.new.me ≡ (seat.old.me.0, work_first (Slot.Output output.value) (rest seat.old.me.1))) }
{
    let Held { value } = output;
    let slot = block.swap_first(seat, Slot::Output(value));
    Content { slot }
}

/// Leaves no awaiter in its place, which the seat has in front, and answers the one that lay there.
pub fn take_awaiter<F: Yields, A, V, B: Allocator>(
    block: &Block<F, A, V, B>,
    seat: &mut TaskSeat<F, Kept<F>, A>,
) -> Option<Held<StoredAwaiter<A>>>
    requires { (seat.old.block ≡ block.now.id) × ((old : Option (StoredAwaiter A)) × (seat.old.me.1 ≡ awaiter_first old (rest seat.old.me.1))) }
    ensures { (seat.new.block ≡ seat.old.block) × (seat.new.id ≡ seat.old.id) × (seat.old.me.1 ≡ awaiter_first (held result) (rest seat.old.me.1)) × (seat.new.me ≡ (seat.old.me.0, awaiter_first None (rest seat.old.me.1))) }
{
    in_hands(block.swap_second(seat, None))
}

/// The same by the last share.
pub fn take_last_awaiter<F: Yields, A, V, B: Allocator>(
    block: &LastBlock<F, A, V, B>,
    seat: &mut TaskSeat<F, Kept<F>, A>,
) -> Option<Held<StoredAwaiter<A>>>
    requires { (seat.old.block ≡ block.now.id) × ((old : Option (StoredAwaiter A)) × (seat.old.me.1 ≡ awaiter_first old (rest seat.old.me.1))) }
    ensures { (seat.new.block ≡ seat.old.block) × (seat.new.id ≡ seat.old.id) × (seat.old.me.1 ≡ awaiter_first (held result) (rest seat.old.me.1)) × (seat.new.me ≡ (seat.old.me.0, awaiter_first None (rest seat.old.me.1))) }
{
    in_hands(block.swap_second(seat, None))
}

/// Puts an awaiter into its place, which the seat has in front, and answers the one that lay there.
pub fn put_awaiter<F: Yields, A, V, B: Allocator>(
    block: &Block<F, A, V, B>,
    seat: &mut TaskSeat<F, Kept<F>, A>,
    awaiter: Held<StoredAwaiter<A>>,
) -> Option<Held<StoredAwaiter<A>>>
    requires { (seat.old.block ≡ block.now.id) × ((old : Option (StoredAwaiter A)) × (seat.old.me.1 ≡ awaiter_first old (rest seat.old.me.1))) }
    ensures { (seat.new.block ≡ seat.old.block) × (seat.new.id ≡ seat.old.id) × (seat.old.me.1 ≡ awaiter_first (held result) (rest seat.old.me.1)) × (seat.new.me ≡ (seat.old.me.0, awaiter_first (Some awaiter.value) (rest seat.old.me.1))) }
{
    let Held { value } = awaiter;
    in_hands(block.swap_second(seat, Some(value)))
}

// The value, in the hands of the call.
fn in_hands<T>(value: Option<T>) -> Option<Held<T>>
    ensures { held result ≡ value }
{
    match value {
        Some(value) => Some(Held { value }),
        None => None,
    }
}
