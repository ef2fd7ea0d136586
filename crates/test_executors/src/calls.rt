//! What the tests begin with, each in a function that stops where there is no memory.

use linked_list_allocator::LocalHeap;
use rows_fixtures::counters::Counters;
use rows_fixtures::fixture::Fixture;
use rows_fixtures::flag::Flag;
use rows_fixtures::surroundings::Memory;
use std::alloc::Global;
use std::process::Abort;
use std::sync::{Arc, Wait};

/// Surroundings of a test's own, whose tasks take their blocks from `memory`.
pub fn fixture<R: Wait + Abort + Drop + Copy>(
    rt: R,
    alloc: Global,
    memory: Memory<'_>,
) -> Fixture<'_, R> {
    Fixture::new(rt, alloc, memory).expect(&rt, "refused")
}

/// Counters at zero.
pub fn counters<R: Abort + Drop + Copy>(rt: R, alloc: Global) -> Arc<Counters> {
    Arc::new(alloc, Counters::new()).expect(&rt, "refused")
}

/// One more share of these counters.
pub fn share<R: Abort + Drop + Copy>(rt: R, counters: &Arc<Counters>) -> Arc<Counters> {
    Arc::try_clone(counters).expect(&rt, "refused")
}

/// A heap of that size.
pub fn heap<R: Abort + Drop + Copy>(rt: R, alloc: Global, size: usize) -> LocalHeap {
    LocalHeap::new(alloc, size).expect(&rt, "refused")
}

/// Room for some tasks, and more.
pub const HEAP: usize = 4096;

/// Takes what is left of a heap: whatever is asked of it afterwards is refused.
pub fn fill<R: Abort + Drop + Copy>(
    rt: R,
    alloc: Global,
    heap: &LocalHeap,
) -> Vec<Vec<u8, &LocalHeap>> {
    let mut filling = Vec::new(alloc);
    for _ in 0..HEAP {
        let Ok(block) = Vec::with_capacity(heap, 1) else {
            return filling;
        };
        filling.push(block).expect(&rt, "refused");
    }
    panic!(rt; "the heap is larger than it was made")
}

/// An awaiter of that number.
pub fn flag<R: Abort + Drop + Copy>(rt: R, alloc: Global, number: u64) -> Flag {
    Flag::new(alloc, number).expect(&rt, "refused")
}
